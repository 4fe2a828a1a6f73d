//! Finds what an event that is out of place contradicts.

ghost use Rattle.std.specs.Prelude.{◌≡◌, IfOk};
ghost use Rattle.wh_events.specs.Kinds.{role_seen};
ghost use Rattle.wh_file_faults.specs.Places.{closing_in, follows, misplaced, misplaced_in, of_role, referred};
ghost use Rattle.wh_json.specs.Events.{history};

use crate::detail::FaultDetail;
use std::alloc::Global;
use wh_events::{Event, EventNo, OutOfMemory, PlaceFault, Role, Text};
use wh_json::{ReadFault, read_events};

/// Returns the number of the first event that closes the run, if there is one.
fn closing_in(events: &[Event]) -> Option<EventNo>
    ensures { result ≡ closing_in events.now }
{
    let event = events.iter().find(|event| event.closes_run())?;
    Some(event.number)
}

/// Returns that the event at a place follows the event that closes the run, if there is one.
fn follows(events: &[Event], at: u64) -> Option<FaultDetail>
    ensures { result ≡ follows events.now at }
{
    let close = closing_in(events)?;
    Some(FaultDetail::Follows { at, close })
}

/// Returns what an event of the role at a place refers to, if it refers to something.
fn of_role(alloc: Global, at: u64, role: Role<'_>) -> Result<Option<FaultDetail>, OutOfMemory>
    ensures { IfOk result (λ found. found ≡ of_role at (role_seen role.entry)) }
{
    match role {
        Role::Refers { number, .. } => Ok(Some(FaultDetail::Refers { at, number })),
        Role::CancelsChild { workflow_id } => {
            let workflow_id = Text::new(String::from_str(alloc, workflow_id)?);
            Ok(Some(FaultDetail::Names { at, workflow_id }))
        }
        Role::Opens { .. } | Role::Plain => Ok(None),
    }
}

/// Returns what the event at a place refers to, if there is one and it refers to something.
fn reference_at(
    alloc: Global,
    events: &[Event],
    at: u64,
) -> Result<Option<FaultDetail>, OutOfMemory>
    ensures { IfOk result (λ found. found ≡ referred events.now at) }
{
    match events.get(at.saturating_sub(1) as usize) {
        Some(event) => of_role(alloc, at, event.role()),
        None => Ok(None),
    }
}

/// Returns what the event at a place contradicts, by its fault.
fn misplaced_in(
    alloc: Global,
    events: &[Event],
    at: u64,
    fault: PlaceFault,
) -> Result<Option<FaultDetail>, OutOfMemory>
    ensures { IfOk result (λ found. found ≡ misplaced_in events.now at fault) }
{
    match fault {
        PlaceFault::AfterClose => Ok(follows(events, at)),
        PlaceFault::NoSuchRef | PlaceFault::WrongKindRef | PlaceFault::AlreadyClosed => {
            reference_at(alloc, events, at)
        }
        _ => Ok(None),
    }
}

/// Returns what the event at a place of a history contradicts, by its fault and the bytes of the
/// history.
pub(crate) fn contradiction_at(
    alloc: Global,
    bytes: &[u8],
    at: u64,
    fault: PlaceFault,
) -> Result<Option<FaultDetail>, OutOfMemory>
    ensures { IfOk result (λ found. found ≡ misplaced (history bytes.now) at fault) }
{
    match read_events(alloc, bytes) {
        Ok(events) => misplaced_in(alloc, events.as_slice(), at, fault),
        Err(ReadFault::OutOfMemory) => Err(OutOfMemory),
        Err(_) => Ok(None),
    }
}
