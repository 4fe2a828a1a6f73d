//! Which events are cuts.
ghost use Rattle.std.specs.Prelude.{◌≡◌, option_copied};
ghost use Rattle.wh_events.specs.Cuts.{next_core, is_task_started, is_cut};

use wh_events::{Class, Event, EventKind};

/// Returns the first event that is not inert. It reads only that event and the inert ones before
/// it.
pub(crate) fn next_core(events: &[Event]) -> Option<&Event>
    ensures { option_copied result ≡ next_core events.now }
{
    for event in events {
        if !matches!(event.class(), Class::Inert) {
            return Some(event);
        }
    }
    None
}

/// Returns whether the event starts a workflow task.
pub(crate) fn is_task_started(event: &Event) -> bool
    ensures { result ≡ is_task_started event.now }
{
    matches!(event.body, EventKind::WorkflowTaskStarted)
}

/// Returns whether the event is a cut of a history that continues with the rest.
pub(crate) fn is_cut(event: &Event, rest: &[Event]) -> bool
    ensures { result ≡ is_cut event.now rest.now }
{
    if !is_task_started(event) {
        return false;
    }
    match next_core(rest) {
        Some(next) => matches!(next.body, EventKind::WorkflowTaskCompleted),
        None => true,
    }
}
