//! The things that a history has opened and their status, found by going through its events.

use wh_events::{Effect, Event, EventNo, Role, Status, Thing};

/// Whether the event opens such a thing with the id.
fn opens(thing: Thing, id: &str, event: &Event) -> bool {
    match event.role() {
        Role::Opens {
            thing: other,
            id: other_id,
        } => thing == other && id == other_id,
        _ => false,
    }
}

/// Whether the event closes what the event of the number opened.
fn closes(number: u64, event: &Event) -> bool {
    match event.role() {
        Role::Refers {
            number: other,
            effect: Effect::Closes,
            ..
        } => other == number,
        _ => false,
    }
}

/// The number of the event that closes what the event of the number opened.
pub(crate) fn closed_by(number: u64, events: &[Event]) -> Option<EventNo> {
    for event in events {
        if closes(number, event) {
            return Some(event.number);
        }
    }
    None
}

/// The number of the open thing of a kind and an id.
pub(crate) fn open_named(events: &[Event], thing: Thing, id: &str) -> Option<EventNo> {
    for event in events {
        if opens(thing, id, event) && closed_by(event.number.get(), events).is_none() {
            return Some(event.number);
        }
    }
    None
}

/// The number of the last thing of a kind that was opened with an id.
pub(crate) fn last_named(events: &[Event], thing: Thing, id: &str) -> Option<EventNo> {
    let mut last = None;
    for event in events {
        if opens(thing, id, event) {
            last = Some(event.number);
        }
    }
    last
}

/// Whether the event requests the cancellation of the thing that the event of the number opened.
fn cancels(before: &[Event], number: u64, event: &Event) -> bool {
    match event.role() {
        Role::Refers {
            number: other,
            effect: Effect::Cancels,
            ..
        } => other == number,
        Role::CancelsChild { workflow_id } => {
            match open_named(before, Thing::Child, workflow_id) {
                Some(open) => open.get() == number,
                None => false,
            }
        }
        _ => false,
    }
}

/// Whether one of the events requests the cancellation of the thing that the event of the number
/// opened.
pub(crate) fn is_cancelling(events: &[Event], number: u64) -> bool {
    for (place, event) in events.iter().enumerate() {
        if cancels(&events[..place], number, event) {
            return true;
        }
    }
    false
}

/// Whether one of the events says that what the event of the number opened has begun.
fn has_begun(events: &[Event], number: u64) -> bool {
    for event in events {
        if let Role::Refers {
            number: other,
            effect: Effect::Starts,
            ..
        } = event.role()
            && other == number
        {
            return true;
        }
    }
    false
}

/// Whether the event opens anything.
fn opens_any(event: &Event) -> bool {
    matches!(event.role(), Role::Opens { .. } | Role::CancelsChild { .. })
}

/// The status after the events of the thing that the event of the number opened, if it opened one.
pub(crate) fn status_at(events: &[Event], number: EventNo) -> Option<Status> {
    let number = number.get();
    let event = events.get((number - 1) as usize)?;
    if !opens_any(event) {
        return None;
    }
    Some(match closed_by(number, events) {
        Some(by) => Status::Closed { by },
        None if is_cancelling(events, number) => Status::Cancelling,
        None if has_begun(events, number) => Status::Started,
        None => Status::Open,
    })
}
