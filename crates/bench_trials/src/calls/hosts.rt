//! Calls that open something, and those of a host.

ghost use Rattle.std.specs.Prelude.{◌≡◌};

use crate::calls::Call;
use crate::calls::runs::{ID, put_seen, source_of};
use crate::calls::saying::{run_of, say, say_answer, say_nothing};
use crate::calls::strict_source::StrictSource;
use std::alloc::Global;
use std::io::Print;
use std::marker::Brand;
use std::sync::Wait;
use std::sync::ledger::{Blank, Ledger};
use test_support::key;
use wh_host::{Books, Config, Given, Host, HostState, OpenFault, Seat, Sticky};
use wh_poll::{NoActivities, Served, SourceFault, TaskSource, serve_one};
use wh_sample_workflows::Nap;
use wh_slots::{Held, SlotKind, Slots, TaskName};

/// A small host.
const SMALL: Config = Config {
    workflow_slots: 1,
    activity_slots: 1,
    cache: 1,
    cache_events: 0,
    seats: 1,
};

/// Opens slots, and prints their counts, or why they were not opened.
pub(crate) fn open_slots<R: Print>(rt: &R, alloc: Global, name: &str) -> Option<()> {
    say_nothing(rt, name, "before");
    let opened = Slots::open(alloc, SlotKind::Workflow, 3);
    let answer = match &opened {
        Ok(slots) => Ok(slots.count()),
        Err(fault) => Err(*fault),
    };
    say(rt, name, "answer", &answer);
    drop(opened);
    say_nothing(rt, name, "after");
    Some(())
}

/// Opens a cache, and prints how many runs and events it holds, or why it was not opened.
pub(crate) fn open_cache<R: Print>(rt: &R, alloc: Global, name: &str) -> Option<()> {
    say_nothing(rt, name, "before");
    let opened = Sticky::<Nap>::open(alloc, 3, 0);
    let answer = match &opened {
        Ok(cache) => Ok((cache.len(), cache.total_weight())),
        Err(fault) => Err(*fault),
    };
    say(rt, name, "answer", &answer);
    drop(opened);
    say_nothing(rt, name, "after");
    Some(())
}

/// Whether a call is made on what was opened before it.
fn is_on_open(call: Call) -> bool {
    matches!(call, Call::GiveRun | Call::ServeOne | Call::ServeNext)
}

/// Prints what is there before or after a call that opens something, which is nothing. Prints no
/// line about another call.
fn say_beside<R: Print>(rt: &R, call: Call, part: &str) {
    if !is_on_open(call) {
        say_nothing(rt, call.name(), part);
    }
}

/// Prints why nothing could be opened. `None` if the call was to be made on what is opened.
fn say_fault<R: Print>(rt: &R, call: Call, fault: OpenFault) -> Option<()> {
    if is_on_open(call) {
        return None;
    }
    say(rt, call.name(), "answer", &fault);
    Some(())
}

/// Opens books.
fn open_books<R: Print, T: Ledger, C: Ledger, F: Ledger>(
    rt: &R,
    alloc: Global,
    call: Call,
    taken: Blank,
    completed: Blank,
    failed: Blank,
) -> Option<()>
    requires taken { (taken.name ≡ T.name) × (taken.parts ≡ T.parts) × (taken.parts ≡ 1) }
    requires completed { (completed.name ≡ C.name) × (completed.parts ≡ C.parts) × (completed.parts ≡ 1) }
    requires failed { (failed.name ≡ F.name) × (failed.parts ≡ F.parts) × (failed.parts ≡ 1) }
{
    say_beside(rt, call, "before");
    match Books::<T, C, F>::open(alloc, 1, taken, completed, failed) {
        Ok((books, seats)) => {
            drop(seats);
            say(rt, call.name(), "answer", &books.totals());
            drop(books);
        }
        Err(fault) => say_answer(rt, call.name(), fault),
    }
    say_beside(rt, call, "after");
    Some(())
}

/// Prints the counts of the state of a host.
fn say_counts<R: Print, T: Ledger, C: Ledger, F: Ledger>(
    rt: &R,
    name: &str,
    part: &str,
    host: &mut HostState<Nap, T, C, F>,
    seat: &mut Seat<T, C, F>,
) {
    let counts = host.counts(seat);
    say(rt, name, part, &counts);
}

/// Prints the counts of a host.
fn say_shared<R: Print + Wait, T: Ledger, C: Ledger, F: Ledger>(
    rt: &R,
    name: &str,
    part: &str,
    host: &Host<Nap, T, C, F>,
    seat: &mut Seat<T, C, F>,
) {
    let counts = host.lock(rt).counts(seat);
    say(rt, name, part, &counts);
}

/// Prints the result of giving a run back, and how many events the run holds that is returned, if
/// one is, and drops it.
fn say_given<R: Print>(rt: &R, name: &str, given: Given<Nap>) {
    let seen = match &given {
        Given::Put(put) => put_seen(put),
        Given::Marked(run) => ("Marked", Some(run.held_len())),
        Given::NotHeld(run) => ("NotHeld", Some(run.held_len())),
    };
    say(rt, name, "answer", &seen);
    drop(given);
}

/// Holds a task.
fn take<T: Ledger, C: Ledger, F: Ledger>(
    alloc: Global,
    host: &mut HostState<Nap, T, C, F>,
    seat: &mut Seat<T, C, F>,
) -> Option<Held> {
    let key = key(alloc, ID).ok();
    let (permit, key) = host.reserve(SlotKind::Workflow).ok().zip(key)?;
    let (held, run) = host.use_workflow(permit, TaskName(7), key, seat).ok()?;
    drop(run);
    Some(held)
}

/// Holds a task, and gives the run of a nap back with it.
fn give_nap<R: Print, T: Ledger, C: Ledger, F: Ledger>(
    rt: &R,
    alloc: Global,
    name: &str,
    host: &mut HostState<Nap, T, C, F>,
    seat: &mut Seat<T, C, F>,
) -> Option<()> {
    let (held, run) = take(alloc, host, seat).zip(run_of(alloc, ID, "nap/3"))?;
    say_counts(rt, name, "before", host, seat);
    say_given(rt, name, host.give_run(&held, run));
    say_counts(rt, name, "after", host, seat);
    drop(held);
    Some(())
}

/// Makes a call on the state of a host with a seat: gives a run back to it, or reads its counts.
fn on_seat<R: Print, T: Ledger, C: Ledger, F: Ledger>(
    rt: &R,
    alloc: Global,
    call: Call,
    host: &mut HostState<Nap, T, C, F>,
    seat: &mut Seat<T, C, F>,
) -> Option<()> {
    match call {
        Call::GiveRun => give_nap(rt, alloc, call.name(), host, seat),
        _ => Some(say_counts(rt, call.name(), "answer", host, seat)),
    }
}

/// Makes a call on the state of a host with its first seat, and drops both.
fn on_state<R: Print, T: Ledger, C: Ledger, F: Ledger>(
    rt: &R,
    alloc: Global,
    call: Call,
    mut host: HostState<Nap, T, C, F>,
    mut seats: Vec<Seat<T, C, F>>,
) -> Option<()> {
    let called = match seats.as_mut_slice().first_mut() {
        Some(seat) => on_seat(rt, alloc, call, &mut host, seat),
        None => None,
    };
    drop(seats);
    drop(host);
    called
}

/// Opens the state of a host, without workflow slots if the call is to be refused, and makes a call
/// on it.
fn call_state<R: Print, T: Ledger, C: Ledger, F: Ledger>(
    rt: &R,
    alloc: Global,
    call: Call,
    taken: Blank,
    completed: Blank,
    failed: Blank,
) -> Option<()>
    requires taken { (taken.name ≡ T.name) × (taken.parts ≡ T.parts) × (taken.parts ≡ 1) }
    requires completed { (completed.name ≡ C.name) × (completed.parts ≡ C.parts) × (completed.parts ≡ 1) }
    requires failed { (failed.name ≡ F.name) × (failed.parts ≡ F.parts) × (failed.parts ≡ 1) }
{
    say_beside(rt, call, "before");
    let config = Config {
        workflow_slots: usize::from(!matches!(call, Call::OpenStateWithoutSlots)),
        ..SMALL
    };
    let called = match HostState::<Nap, T, C, F>::open(alloc, config, taken, completed, failed) {
        Ok((host, seats)) => on_state(rt, alloc, call, host, seats),
        Err(fault) => say_fault(rt, call, fault),
    };
    say_beside(rt, call, "after");
    called
}

/// Serves a workflow task of a source, without activities.
fn serve<R: Wait, T: Ledger, C: Ledger, F: Ledger, S: TaskSource>(
    rt: &R,
    alloc: Global,
    host: &Host<Nap, T, C, F>,
    seat: &mut Seat<T, C, F>,
    source: &mut S,
) -> Result<Served, SourceFault> {
    let mut handler = NoActivities { alloc };
    let kind = SlotKind::Workflow;
    serve_one(rt, alloc, host, seat, source, &mut handler, kind)
}

/// Serves the next task of a source, and prints the answer and the counts.
fn say_served<R: Print + Wait, T: Ledger, C: Ledger, F: Ledger, S: TaskSource>(
    rt: &R,
    alloc: Global,
    name: &str,
    host: &Host<Nap, T, C, F>,
    seat: &mut Seat<T, C, F>,
    source: &mut S,
) {
    say_shared(rt, name, "before", host, seat);
    let served = serve(rt, alloc, host, seat, source);
    say_answer(rt, name, served);
    say_shared(rt, name, "after", host, seat);
}

/// Serves the first task of a nap.
fn serve_nap<R: Print + Wait, T: Ledger, C: Ledger, F: Ledger>(
    rt: &R,
    alloc: Global,
    name: &str,
    host: &Host<Nap, T, C, F>,
    seat: &mut Seat<T, C, F>,
) -> Option<()> {
    let mut source = source_of(alloc, "nap/3")?;
    say_served(rt, alloc, name, host, seat, &mut source);
    drop(source);
    Some(())
}

/// Serves the second task of a nap after the answer to the first one was taken, over a source that
/// lets a run be cached only if the answer to its task was taken.
fn serve_next<R: Print + Wait, T: Ledger, C: Ledger, F: Ledger>(
    rt: &R,
    alloc: Global,
    name: &str,
    host: &Host<Nap, T, C, F>,
    seat: &mut Seat<T, C, F>,
) -> Option<()> {
    let mut source = StrictSource::new(source_of(alloc, "nap/8")?);
    let first = serve(rt, alloc, host, seat, &mut source).ok();
    if first.is_some() {
        say_served(rt, alloc, name, host, seat, &mut source);
    }
    drop(source);
    first.map(|_| ())
}

/// Makes a call on a host: serves a task on it, or reads its counts.
fn on_host<R: Print + Wait, T: Ledger, C: Ledger, F: Ledger>(
    rt: &R,
    alloc: Global,
    call: Call,
    host: &Host<Nap, T, C, F>,
    seat: &mut Seat<T, C, F>,
) -> Option<()> {
    match call {
        Call::ServeOne => serve_nap(rt, alloc, call.name(), host, seat),
        Call::ServeNext => serve_next(rt, alloc, call.name(), host, seat),
        _ => Some(say_shared(rt, call.name(), "answer", host, seat)),
    }
}

/// Makes a call on a host with its first seat, and drops both.
fn on_opened<R: Print + Wait, T: Ledger, C: Ledger, F: Ledger>(
    rt: &R,
    alloc: Global,
    call: Call,
    host: Host<Nap, T, C, F>,
    mut seats: Vec<Seat<T, C, F>>,
) -> Option<()> {
    let called = match seats.as_mut_slice().first_mut() {
        Some(seat) => on_host(rt, alloc, call, &host, seat),
        None => None,
    };
    drop(seats);
    drop(host);
    called
}

/// Opens a small host, and makes a call on it.
fn call_host<R: Print + Wait, T: Ledger, C: Ledger, F: Ledger>(
    rt: &R,
    alloc: Global,
    call: Call,
    taken: Blank,
    completed: Blank,
    failed: Blank,
) -> Option<()>
    requires taken { (taken.name ≡ T.name) × (taken.parts ≡ T.parts) × (taken.parts ≡ 1) }
    requires completed { (completed.name ≡ C.name) × (completed.parts ≡ C.parts) × (completed.parts ≡ 1) }
    requires failed { (failed.name ≡ F.name) × (failed.parts ≡ F.parts) × (failed.parts ≡ 1) }
{
    say_beside(rt, call, "before");
    let called = match Host::<Nap, T, C, F>::open(alloc, SMALL, taken, completed, failed) {
        Ok((host, seats)) => on_opened(rt, alloc, call, host, seats),
        Err(fault) => say_fault(rt, call, fault),
    };
    say_beside(rt, call, "after");
    called
}

/// Makes a call over three ledgers.
fn call_over<R: Print + Wait, T: Ledger, C: Ledger, F: Ledger>(
    rt: &R,
    alloc: Global,
    call: Call,
    taken: Blank,
    completed: Blank,
    failed: Blank,
) -> Option<()>
    requires taken { (taken.name ≡ T.name) × (taken.parts ≡ T.parts) × (taken.parts ≡ 1) }
    requires completed { (completed.name ≡ C.name) × (completed.parts ≡ C.parts) × (completed.parts ≡ 1) }
    requires failed { (failed.name ≡ F.name) × (failed.parts ≡ F.parts) × (failed.parts ≡ 1) }
{
    match call {
        Call::OpenBooks => open_books::<R, T, C, F>(rt, alloc, call, taken, completed, failed),
        Call::OpenHost | Call::ServeOne | Call::ServeNext => {
            call_host::<R, T, C, F>(rt, alloc, call, taken, completed, failed)
        }
        _ => call_state::<R, T, C, F>(rt, alloc, call, taken, completed, failed),
    }
}

/// Makes a call over three new ledgers.
pub(crate) fn call_on_books<R: Print + Wait>(rt: &R, alloc: Global, call: Call) -> Option<()> {
    call_over::<R, Brand, Brand, Brand>(
        rt,
        alloc,
        call,
        Blank::new(1),
        Blank::new(1),
        Blank::new(1),
    )
}
