//! Faults of the events of a task, each with the number that its event has in the history of the
//! run.

ghost use Rattle.std.specs.Prelude.{◌≡◌, map};
ghost use Rattle.serde_json.specs.View.{view};
ghost use Rattle.wh_messages.specs.EventFaults.{count_before, number_after, number_in, with_number};

use serde_json::Value;
use wh_json::{ReadFault, field, number_of};

/// Returns the number of an event, 1 if it can't be read.
fn number_in(event: &Value) -> u64
    ensures { result ≡ number_in (view event.now) }
{
    match field(Some(event), "eventId") {
        Some(number) => number_of(number).unwrap_or(1),
        None => 1,
    }
}

/// Returns how many events of a run come before these, as the number of the first of them says.
fn count_before(members: &[Value]) -> u64
    ensures { result ≡ count_before (map view members.now) }
{
    match members.first() {
        Some(first) => number_in(first).saturating_sub(1),
        None => 0,
    }
}

/// Returns the number of the event at a place of a list before which there are so many events, at
/// most 2^64 - 1.
fn number_after(before: u64, at: u64) -> u64
    ensures { result ≡ number_after before at }
{
    before.saturating_add(at)
}

/// Returns a fault of a list before which there are so many events, with the event's own number. All
/// else of it stays.
fn renumber(fault: ReadFault, before: u64) -> ReadFault
    ensures { result ≡ with_number (number_after before) fault }
{
    match fault {
        ReadFault::BadNumber { at } => ReadFault::BadNumber {
            at: number_after(before, at),
        },
        ReadFault::OutOfOrder { at } => ReadFault::OutOfOrder {
            at: number_after(before, at),
        },
        ReadFault::UnsupportedEvent { at, name } => ReadFault::UnsupportedEvent {
            at: number_after(before, at),
            name,
        },
        ReadFault::MissingField { at } => ReadFault::MissingField {
            at: number_after(before, at),
        },
        ReadFault::BadTime { at } => ReadFault::BadTime {
            at: number_after(before, at),
        },
        ReadFault::BadPayload { at } => ReadFault::BadPayload {
            at: number_after(before, at),
        },
        ReadFault::ShorthandPayload { at } => ReadFault::ShorthandPayload {
            at: number_after(before, at),
        },
        ReadFault::UnsupportedMarker { at, name } => ReadFault::UnsupportedMarker {
            at: number_after(before, at),
            name,
        },
        other => other,
    }
}

/// Returns a fault of the events of a task, with the number that its event has in the history: the
/// events begin with the number that the first of them has, or with 1 if that can't be read. All
/// else of the fault stays.
pub fn fault_in_history(fault: ReadFault, members: &[Value]) -> ReadFault
    ensures { result ≡ with_number (number_after (count_before (map view members.now))) fault }
{
    renumber(fault, count_before(members))
}
