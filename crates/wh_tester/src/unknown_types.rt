//! The workflow type of a history, if it is not registered.

ghost use Rattle.std.specs.Prelude.{◌≡◌, IfOk, Ok, option_map};
ghost use Rattle.wh_tester.specs.UnknownTypes.{is_no_code, unknown_placed, unregistered_type};

use crate::line::Verdict;
use std::alloc::Global;
use wh_events::{Event, OutOfMemory, Text};
use wh_machines::Track;
use wh_replay::workflow_of;
use wh_workflow::Workflow;

/// Returns the workflow type that events begin with, if `W` does not handle it, or `OutOfMemory` if
/// there was no memory for the copy of its name.
pub(crate) fn unknown_among<W: Workflow>(
    alloc: Global,
    events: &[Event],
) -> Result<Option<Text>, OutOfMemory>
    ensures { IfOk result (λ kind. kind ≡ unknown_placed W.program (Ok events.now)) }
{
    let kind = workflow_of(events);
    if W::handles(kind) {
        return Ok(None);
    }
    Ok(Some(Text::new(String::from_str(alloc, kind)?)))
}

/// Returns the workflow type of a history whose events are in place, if `W` does not handle it.
/// Returns `OutOfMemory` if there was no memory for the copy of its name.
pub fn unknown_type<W: Workflow>(alloc: Global, track: &Track) -> Result<Option<Text>, OutOfMemory>
    ensures { IfOk result (λ kind. kind ≡ unknown_placed W.program (Ok track.now)) }
{
    unknown_among::<W>(alloc, track.events())
}

/// Returns the workflow type that there is no code for, if that is the verdict.
pub fn unregistered_type(verdict: &Verdict) -> Option<&str>
    ensures { option_map (λ kind. kind.now) result ≡ unregistered_type verdict.now }
{
    match verdict {
        Verdict::NoCode { kind } => Some(kind.get()),
        Verdict::Good(_) | Verdict::Unreadable(_) | Verdict::Faulty(_) | Verdict::OutOfMemory =>
            None,
    }
}

/// Returns whether the verdict is that there is no code for the workflow type.
pub fn is_no_code(verdict: &Verdict) -> bool
    ensures { result ≡ is_no_code verdict.now }
{
    matches!(verdict, Verdict::NoCode { .. })
}
