//! The look-ups of a track, compared with going through its events.
use crate::replay::track_of;
use crate::things::{last_named, open_named, status_at};
use std::alloc::Global;
use wh_events::{Event, EventNo, OpenKind, Role, Status, Thing};
use wh_machines::Track;

/// The kinds of things that are looked up by id.
const KINDS: [OpenKind; 3] = [OpenKind::Activity, OpenKind::Timer, OpenKind::Child];

/// The last thing of a kind and an id, and its status after the events.
fn last_of(events: &[Event], thing: Thing, id: &str) -> Option<(EventNo, Status)> {
    let last = last_named(events, thing, id)?;
    Some((last, status_at(events, last)?))
}

/// Whether the look-ups of things of a kind and an id agree, for the last one at each place.
fn same_names(track: &Track, events: &[Event], kind: OpenKind, id: &str) -> bool {
    let thing = kind.thing();
    for place in 0..=events.len() {
        if track.last_at(kind, id, place as u64) != last_of(&events[..place], thing, id) {
            return false;
        }
    }
    track.open_named(kind, id) == open_named(events, thing, id)
        && track.last_named(kind, id) == last_named(events, thing, id)
}

/// Whether the look-ups of all things with the id of the one that an event opens agree.
fn same_things(track: &Track, events: &[Event], event: &Event) -> bool {
    let Role::Opens { id, .. } = event.role() else {
        return true;
    };
    for kind in KINDS.as_slice() {
        if !same_names(track, events, *kind, id) {
            return false;
        }
    }
    true
}

/// Whether the look-ups of the status of each event, and of the things of each id, agree.
fn same_events(track: &Track, events: &[Event]) -> bool {
    for event in events {
        if track.status(event.number) != status_at(events, event.number)
            || !same_things(track, events, event)
        {
            return false;
        }
    }
    true
}

/// Whether all look-ups in a history agree: the status of each event, and the things of each id.
pub(crate) fn same_lookups(alloc: Global, events: &[Event]) -> bool {
    let Some(track) = track_of(alloc, events) else {
        return false;
    };
    let are_same = same_events(&track, events);
    drop(track);
    are_same
}
