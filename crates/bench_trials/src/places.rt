//! Whether the events of a history are in place, found for each by going through those before it.

use crate::things::{closed_by, open_named};
use wh_events::{Class, Event, EventKind, PlaceFault, Role, Thing};

/// The most events of one run.
const MOST_EVENTS: usize = 51_200;

/// Whether one of the events closes the run.
fn is_over(events: &[Event]) -> bool {
    for event in events {
        if event.closes_run() {
            return true;
        }
    }
    false
}

/// Whether the kind of event opens such a thing.
fn opens_thing(thing: Thing, kind: &EventKind) -> bool {
    match kind.role() {
        Role::Opens { thing: other, .. } => thing == other,
        Role::CancelsChild { .. } => matches!(thing, Thing::CancelRequest),
        Role::Refers { .. } | Role::Plain => false,
    }
}

/// Whether the event of the number opens such a thing.
fn opens_at(events: &[Event], thing: Thing, number: u64) -> bool {
    match events.get(number.saturating_sub(1) as usize) {
        Some(event) => opens_thing(thing, &event.body),
        None => false,
    }
}

/// Why a thing can't be referred to.
fn reference_fault(before: &[Event], thing: Thing, number: u64) -> Option<PlaceFault> {
    if number == 0 || (before.len() as u64) < number {
        Some(PlaceFault::NoSuchRef)
    } else if !opens_at(before, thing, number) {
        Some(PlaceFault::WrongKindRef)
    } else if closed_by(number, before).is_some() {
        Some(PlaceFault::AlreadyClosed)
    } else {
        None
    }
}

/// Why a thing can't be opened.
fn opening_fault(before: &[Event], thing: Thing, id: &str) -> Option<PlaceFault> {
    if open_named(before, thing, id).is_some() {
        Some(PlaceFault::IdInUse)
    } else {
        None
    }
}

/// The first fault that the event has by the things of the history.
fn role_fault(before: &[Event], kind: &EventKind) -> Option<PlaceFault> {
    match kind.role() {
        Role::Opens {
            thing: Thing::SignalRequest | Thing::CancelRequest,
            ..
        } => None,
        Role::Opens { thing, id } => opening_fault(before, thing, id),
        Role::Refers { thing, number, .. } => reference_fault(before, thing, number),
        Role::CancelsChild { workflow_id } => {
            if open_named(before, Thing::Child, workflow_id).is_none() {
                Some(PlaceFault::NoSuchRef)
            } else {
                None
            }
        }
        Role::Plain => None,
    }
}

/// The least row of the table of faults that applies to an event after those before it.
fn place_fault(before: &[Event], event: &Event) -> Option<PlaceFault> {
    if before.is_empty() != matches!(event.class(), Class::Start) {
        return Some(PlaceFault::FirstNotStart);
    }
    if event.number.get() - 1 != before.len() as u64 {
        return Some(PlaceFault::WrongNumber);
    }
    if is_over(before) {
        return Some(PlaceFault::AfterClose);
    }
    let fault = role_fault(before, &event.body);
    if fault.is_some() {
        return fault;
    }
    if before.len() >= MOST_EVENTS {
        return Some(PlaceFault::TooManyEvents);
    }
    None
}

/// The first fault of the events, and its place.
fn first_fault(events: &[Event]) -> Option<(u64, PlaceFault)> {
    for place in 0..events.len() {
        if let Some(fault) = place_fault(&events[..place], &events[place]) {
            return Some((place as u64 + 1, fault));
        }
    }
    None
}

/// The first place of a history with a fault.
pub(crate) fn history_fault(events: &[Event]) -> Option<(u64, PlaceFault)> {
    if events.is_empty() {
        return Some((1, PlaceFault::FirstNotStart));
    }
    first_fault(events)
}
