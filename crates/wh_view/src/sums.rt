//! What the activities, timers and child workflows of each type come to.

ghost use Rattle.std.specs.Prelude.{◌≡◌, ◌++◌, IfOk, OnOk, option_map};
ghost use Rattle.std.specs.List.{flat_map};
ghost use Rattle.wh_times.specs.Sums.{AreSums};
ghost use Rattle.wh_view.specs.Sums as sums;

use crate::view::{ThingKind, View, ViewedEvent, ViewedThing};
use std::alloc::Global;
use wh_events::{EventKind, OutOfMemory, Text};
use wh_times::{Outcome, TimedThing, TypeSum, TypedThing, sums_of};

/// Returns whether what ends with an event of the kind failed, timed out, was terminated, or could
/// not be started or reached.
fn is_failing(kind: &EventKind) -> bool
    ensures { result ≡ sums.is_failing kind.now }
{
    matches!(
        kind,
        EventKind::ActivityTaskFailed { .. }
            | EventKind::ActivityTaskTimedOut { .. }
            | EventKind::ChildWorkflowExecutionFailed { .. }
            | EventKind::ChildWorkflowExecutionTimedOut { .. }
            | EventKind::ChildWorkflowExecutionTerminated { .. }
            | EventKind::StartChildWorkflowExecutionFailed { .. }
            | EventKind::RequestCancelExternalWorkflowExecutionFailed { .. }
            | EventKind::SignalExternalWorkflowExecutionFailed { .. }
    )
}

impl ViewedEvent {
    ghost use Rattle.std.specs.Prelude.{◌≡◌};
    ghost use Rattle.wh_view.specs.Sums.{is_failure};

    /// Returns whether what ends with the event failed, timed out, was terminated, or could not be
    /// started or reached.
    pub fn is_failure(&self) -> bool
        ensures { result ≡ is_failure self.now }
    {
        match &self.read.kind {
            Some(kind) => is_failing(kind),
            None => false,
        }
    }
}

/// Returns how something ended with an event, if there is one.
fn outcome_at(ending: Option<&ViewedEvent>) -> Outcome
    ensures { result ≡ sums.outcome_at (option_map (λ event. event.now) ending.entry) }
{
    match ending {
        Some(event) => if event.is_failure() {
            Outcome::Failed
        } else {
            Outcome::Ended
        },
        None => Outcome::Ended,
    }
}

/// Returns how a thing has ended.
fn outcome_of(view: &View, thing: &ViewedThing) -> Outcome
    ensures { result ≡ sums.outcome_of view.now thing.now }
{
    match thing.ended {
        Some(index) => outcome_at(view.events.get().get(index)),
        None => Outcome::Open,
    }
}

/// Returns how a thing went.
fn timed_thing(view: &View, thing: &ViewedThing) -> TimedThing
    ensures { result ≡ sums.timed_thing view.now thing.now }
{
    TimedThing {
        opened: thing.opened,
        outcome: outcome_of(view, thing),
        millis: view.whole_time(thing),
    }
}

/// Returns the word for things of the kind, if they are summed.
fn summed_word(kind: ThingKind) -> Option<&'static str>
    ensures { option_map (λ word. word.now) result ≡ sums.summed_word kind }
{
    match kind {
        ThingKind::Activity => Some("activity"),
        ThingKind::Timer => Some("timer"),
        ThingKind::Child => Some("child"),
        ThingKind::CancelRequest
        | ThingKind::SignalRequest
        | ThingKind::Signal
        | ThingKind::Marker => None,
    }
}

/// Returns the type that the event at an index names; empty if it names none.
fn type_at(view: &View, index: usize) -> &str
    ensures { result.now ≡ sums.type_at view.now index }
{
    match view.events.get().get(index) {
        Some(event) => event.type_name(),
        None => "",
    }
}

/// Adds a thing with its type, if it is of a kind that is summed.
fn push_thing(
    alloc: Global,
    view: &View,
    thing: &ViewedThing,
    things: &mut Vec<TypedThing>,
) -> Result<(), OutOfMemory>
    ensures { OnOk result (things.new.items ≡ things.old.items ++ sums.typed_thing view.now thing.now) }
{
    if let Some(word) = summed_word(thing.kind) {
        let name = type_at(view, thing.opened);
        let type_name = Text::new(format!(in alloc; "{word} {name}")?);
        let thing = timed_thing(view, thing);
        things.push(TypedThing { type_name, thing })?;
    }
    Ok(())
}

/// Returns the activities, timers and child workflows of a view, with their types.
#[tactic(auto, unfolding(crate::specs::Sums::typed_things))]
fn typed_things(alloc: Global, view: &View) -> Result<Vec<TypedThing>, OutOfMemory>
    ensures { IfOk result (λ things. things.items ≡ sums.typed_things view.now) }
{
    let mut things = Vec::new(alloc);
    for thing in view.things.get() {
        push_thing(alloc, view, thing, &mut things)?;
    }
    Ok(things)
}

/// Returns what the activities, timers and child workflows of each type come to.
pub(crate) fn type_sums(alloc: Global, view: &View) -> Result<Vec<TypeSum>, OutOfMemory>
    ensures { IfOk result (λ all. AreSums (sums.typed_things view.now) all.items) }
{
    let things = typed_things(alloc, view)?;
    sums_of(alloc, things.as_slice())
}
