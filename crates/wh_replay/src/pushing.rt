//! Appends the events of a history, each in its place.
ghost use Rattle.std.specs.Prelude.{◌≡◌};
ghost use Rattle.wh_events.specs.Places.{history_fault};
ghost use Rattle.wh_replay.specs.Outcomes.{Answers};
ghost use Rattle.wh_replay.specs.Tracking.{in_place, joined, Takes};

use crate::fault::{Fault, RunFault};
use std::alloc::Global;
use wh_events::{Event, PlaceFault};
use wh_machines::{PushFault, Track};

/// Appends events, each in place after those before it, up to the first one that is not.
fn push_each(track: &mut Track, events: Vec<Event>) -> Result<(), PushFault>
    ensures { Takes track.old events.items track.new result }
{
    for event in events {
        track.push(event)?;
    }
    Ok(())
}

/// Appends events that are in place after those of the track, or returns the first fault of their
/// places.
pub(crate) fn push_all(track: &mut Track, events: Vec<Event>) -> Result<(), RunFault>
    ensures { Answers result (joined track.old events.items) (λ _. track.new) }
{
    match push_each(track, events) {
        Ok(()) => Ok(()),
        Err(PushFault::OutOfMemory) => Err(RunFault::OutOfMemory),
        Err(PushFault::Place(fault)) => Err(RunFault::Fault(Fault::Place {
            at: track.len() as u64 + 1,
            fault,
        })),
    }
}

/// Returns a track of the events of a history, or the first fault of their places. A history
/// without events has its fault at the first place. `OutOfMemory` can replace a fault.
pub fn track_of(alloc: Global, events: Vec<Event>) -> Result<Track, RunFault>
    ensures { Answers result (in_place (history_fault events.items) events.items) (λ track. track) }
{
    if events.is_empty() {
        return Err(RunFault::Fault(Fault::Place {
            at: 1,
            fault: PlaceFault::FirstNotStart,
        }));
    }
    let mut track = Track::new(alloc);
    match push_all(&mut track, events) {
        Ok(()) => Ok(track),
        Err(fault) => {
            drop(track);
            Err(fault)
        }
    }
}
