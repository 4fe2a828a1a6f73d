//! Which events are cuts, and what their records are, found by going through the later events.
use wh_events::{Class, Event, EventKind};

/// The first event that is not inert.
fn next_core(rest: &[Event]) -> Option<&Event> {
    for event in rest {
        if !matches!(event.class(), Class::Inert) {
            return Some(event);
        }
    }
    None
}

/// Whether the event completes a task.
fn completes(event: &Event) -> bool {
    matches!(event.body, EventKind::WorkflowTaskCompleted)
}

/// Whether the event is a cut of a history that goes on with the rest: the first of the rest that
/// is not inert completes the task, or there is none.
pub(crate) fn is_cut(event: &Event, rest: &[Event]) -> bool {
    if !matches!(event.body, EventKind::WorkflowTaskStarted) {
        return false;
    }
    match next_core(rest) {
        Some(next) => completes(next),
        None => true,
    }
}

/// Whether a cut before the rest is recorded.
pub(crate) fn is_recorded(rest: &[Event]) -> bool {
    match next_core(rest) {
        Some(next) => completes(next),
        None => false,
    }
}

/// The events before the next completed task, or all.
pub(crate) fn until_completed(events: &[Event]) -> &[Event] {
    for (place, event) in events.iter().enumerate() {
        if completes(event) {
            return &events[..place];
        }
    }
    events
}

/// The events after the next completed task.
pub(crate) fn after_completed(events: &[Event]) -> &[Event] {
    for (place, event) in events.iter().enumerate() {
        if completes(event) {
            return &events[place + 1..];
        }
    }
    &events[events.len()..]
}
