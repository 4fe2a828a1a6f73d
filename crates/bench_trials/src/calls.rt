//! Makes calls of the libraries, each by its name on fixed histories, and prints for each the state
//! before it, its answer and the state after it. tests/refusals.py refuses allocations between the
//! first of these lines and the second.

mod files;
mod hosts;
mod runs;
mod saying;
mod strict_source;
mod tracks;

use std::alloc::Global;
use std::io::Print;
use std::sync::Wait;
use std::thread::Threads;

/// A call that has a name.
#[derive(Clone, Copy)]
enum Call {
    ReadEvents,
    CheckAll,
    Push,
    Issue,
    Ask,
    Reduced,
    Jobs,
    Step,
    FromFirst,
    Check,
    Answer,
    Advance,
    AdvanceByGap,
    ReplayTask,
    ReplayTaskFromFirst,
    ReplayTaskAsFetched,
    Put,
    PutOfLonger,
    OpenBooks,
    OpenSlots,
    OpenSticky,
    OpenState,
    OpenStateWithoutSlots,
    OpenHost,
    GiveRun,
    ServeOne,
    ServeNext,
}

/// All calls, in the order in which they are made.
#[rattlefmt::skip]
const CALLS: [Call; 27] = [
    Call::ReadEvents, Call::CheckAll, Call::Push, Call::Issue, Call::Ask, Call::Reduced, Call::Jobs,
    Call::Step, Call::FromFirst, Call::Check, Call::Answer, Call::Advance, Call::AdvanceByGap,
    Call::ReplayTask, Call::ReplayTaskFromFirst, Call::ReplayTaskAsFetched, Call::Put, Call::PutOfLonger,
    Call::OpenBooks, Call::OpenSlots, Call::OpenSticky, Call::OpenState, Call::OpenStateWithoutSlots,
    Call::OpenHost, Call::GiveRun, Call::ServeOne, Call::ServeNext,
];

impl Call {
    /// Its name.
    fn name(self) -> &'static str {
        match self {
            Call::ReadEvents => "read_events",
            Call::CheckAll => "replay_inputs",
            Call::Push => "push",
            Call::Issue => "issue",
            Call::Ask => "ask",
            Call::Reduced => "reduced",
            Call::Jobs => "jobs",
            Call::Step => "step",
            Call::FromFirst => "from_first",
            Call::Check => "check",
            Call::Answer => "answer",
            Call::Advance => "advance",
            Call::AdvanceByGap => "advance by a gap",
            Call::ReplayTask => "replay_task",
            Call::ReplayTaskFromFirst => "replay_task from the first",
            Call::ReplayTaskAsFetched => "replay_task as told",
            Call::Put => "put",
            Call::PutOfLonger => "put of a longer run",
            Call::OpenBooks => "Books::open",
            Call::OpenSlots => "Slots::open",
            Call::OpenSticky => "Sticky::open",
            Call::OpenState => "HostState::open",
            Call::OpenStateWithoutSlots => "HostState::open without workflow slots",
            Call::OpenHost => "Host::open",
            Call::GiveRun => "give_run",
            Call::ServeOne => "serve_one",
            Call::ServeNext => "serve_one of the next task",
        }
    }
}

/// Makes a call. `None` if its arguments can't be made.
fn make<R: Print + Threads + Wait + Sync>(rt: &R, alloc: Global, call: Call) -> Option<()> {
    let name = call.name();
    match call {
        Call::ReadEvents => files::read(rt, alloc, name),
        Call::CheckAll => files::check(rt, alloc, name),
        Call::Push => tracks::push(rt, alloc, name),
        Call::Issue => tracks::issue(rt, alloc, name),
        Call::Ask => tracks::ask(rt, alloc, name),
        Call::Reduced => tracks::reduced(rt, alloc, name),
        Call::Jobs => tracks::tell(rt, alloc, name),
        Call::Step => runs::step(rt, alloc, name),
        Call::FromFirst => runs::from_first(rt, alloc, name),
        Call::Check => runs::check_history(rt, alloc, name),
        Call::Answer => runs::answer(rt, alloc, name),
        Call::Advance => runs::advance(rt, alloc, name, "nap/8 after 3"),
        Call::AdvanceByGap => runs::advance(rt, alloc, name, "nap/3 after 2"),
        Call::ReplayTask => runs::replay(rt, alloc, name, "nap/3", "nap/8 after 3"),
        Call::ReplayTaskFromFirst => runs::replay(rt, alloc, name, "", "nap/8"),
        Call::ReplayTaskAsFetched => runs::replay(rt, alloc, name, "", "nap/8 after 3"),
        Call::Put => runs::put(rt, alloc, name, "other"),
        Call::PutOfLonger => runs::put(rt, alloc, name, runs::ID),
        Call::OpenSlots => hosts::open_slots(rt, alloc, name),
        Call::OpenSticky => hosts::open_cache(rt, alloc, name),
        _ => hosts::call_on_books(rt, alloc, call),
    }
}

/// Makes each call that has this name, or all calls if it is "". `None` if the arguments of one
/// can't be made.
pub(crate) fn call_all<R: Print + Threads + Wait + Sync>(
    rt: &R,
    alloc: Global,
    named: &str,
) -> Option<()> {
    for call in CALLS.as_slice() {
        if named.is_empty() || call.name() == named {
            make(rt, alloc, *call)?;
        }
    }
    Some(())
}
