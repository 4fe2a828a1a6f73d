//! Prints calls, and makes what they are made on.

ghost use Rattle.std.specs.Prelude.{◌≡◌, IfSome};

use crate::replay;
use std::alloc::Global;
use std::fmt::Debug;
use std::io::Print;
use test_support::{events, key};
use wh_events::RunKey;
use wh_machines::Track;
use wh_replay::Run;
use wh_sample_workflows::Nap;
use wh_workflow::Meter;

/// Prints a line about a call: the state before it, its answer, or the state after it. If it can't
/// be printed, the line is missing.
pub(crate) fn say<R: Print>(rt: &R, call: &str, part: &str, value: &impl Debug) {
    let _ = println!(rt; "{call} {part}: {value:?}");
}

/// Prints that there is nothing before a call, or after it.
pub(crate) fn say_nothing<R: Print>(rt: &R, call: &str, part: &str) {
    say(rt, call, part, &());
}

/// Prints the answer of a call, and drops it.
pub(crate) fn say_answer<R: Print>(rt: &R, call: &str, answer: impl Debug + Drop) {
    say(rt, call, "answer", &answer);
    drop(answer);
}

/// Prints how many events a run before or after a call holds, and which commands it did not send
/// yet.
pub(crate) fn say_run<R: Print>(rt: &R, call: &str, part: &str, run: &Run<Nap>) {
    say(rt, call, part, &(run.held_len(), run.commands()));
}

/// The track of a history.
pub(crate) fn track_of(alloc: Global, history: &'static str) -> Option<Track> {
    let events = events(alloc, history).ok()?;
    let track = replay::track_of(alloc, events.as_slice());
    drop(events);
    track
}

/// The run of the key over a history.
pub(crate) fn run_over(alloc: Global, key: RunKey, history: &'static str) -> Option<Run<Nap>>
    ensures { IfSome result (λ run. run.key ≡ key) }
{
    let Ok(events) = events(alloc, history) else {
        drop(key);
        return None;
    };
    Run::from_first(alloc, key, events, &mut Meter::new()).ok()
}

/// The run of a history, by the id of its workflow.
pub(crate) fn run_of(alloc: Global, id: &str, history: &'static str) -> Option<Run<Nap>> {
    run_over(alloc, key(alloc, id).ok()?, history)
}
