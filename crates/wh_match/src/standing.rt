//! How things stand at a cut.
ghost use Rattle.std.specs.Prelude.{◌≡◌, ◌-◌, [], Some, None, slice_get};
ghost use Rattle.wh_events.specs.Places.{fault_after};
ghost use Rattle.wh_machines.specs.Lookups.{thing_of, events_between};
ghost use Rattle.wh_workflow.specs.Scripts.{has_outside};
ghost use Rattle.wh_match.specs.Issuing.{context_at};
ghost use Rattle.wh_match.specs.Private.Standings.{standing_of, standing_by, is_outside_in};

use wh_events::{Class, Event, EventNo, OpenKind, Status};
use wh_machines::Track;

/// How the things of a kind under an id stand at a cut.
#[derive(Clone, Copy)]
pub(crate) struct Standing {
    /// One of them is open.
    pub(crate) is_open: bool,
    /// The open one was asked to be canceled.
    pub(crate) is_cancelling: bool,
    /// The last of them was closed by an outside event since the cut before.
    pub(crate) is_ended: bool,
}

/// Returns whether the event of the number is an outside one.
fn is_outside_at(events: &[Event], number: u64) -> bool
    ensures { result ≡ is_outside_in (slice_get events.now (number - 1)) }
{
    match events.get(number.saturating_sub(1) as usize) {
        Some(event) => matches!(event.class(), Class::Outside),
        None => false,
    }
}

/// Returns whether the event of the number is an outside one strictly between two others. The
/// events are in place.
fn is_outside_between(events: &[Event], previous: u64, cut: u64, number: u64) -> bool
    requires placed { fault_after [] events.now ≡ None }
    ensures { result ≡ has_outside (Some number) (events_between events.now previous cut) }
{
    if number <= previous {
        false
    } else if cut <= number {
        false
    } else {
        is_outside_at(events, number)
    }
}

/// Returns how things stand at a cut, if the last of them has the status there.
fn standing_by(events: &[Event], previous: u64, cut: u64, status: Status) -> Standing
    requires placed { fault_after [] events.now ≡ None }
    ensures { result ≡ standing_by (events_between events.now previous cut) status }
{
    match status {
        Status::Closed { by } => Standing {
            is_open: false,
            is_cancelling: false,
            is_ended: is_outside_between(events, previous, cut, by.get()),
        },
        Status::Open | Status::Started | Status::Cancelling => Standing {
            is_open: true,
            is_cancelling: matches!(status, Status::Cancelling),
            is_ended: false,
        },
    }
}

/// Returns how the things of a kind under an id stand at a cut, after the cut before.
pub(crate) fn standing_at(
    track: &Track,
    previous: u64,
    cut: EventNo,
    kind: OpenKind,
    id: &str,
) -> Standing
    ensures { result ≡ standing_of (context_at track.now previous cut None) (thing_of kind) id.now }
{
    let events = track.events();
    let place = cut.get();
    let Some((_, status)) = track.last_at(kind, id, place) else {
        return Standing {
            is_open: false,
            is_cancelling: false,
            is_ended: false,
        };
    };
    standing_by(events, previous, place, status)
}
