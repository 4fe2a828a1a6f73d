//! What decides whether an event is in place.

ghost use Rattle.std.specs.Prelude.{◌≡◌};
ghost use Rattle.wh_events.specs.Kinds.{role_seen};
ghost use Rattle.wh_events.specs.Machines.{opened_thing, role_at};
ghost use Rattle.wh_events.specs.Places as places;

use wh_events::{Class, Event, Role, Thing};

/// Returns whether the event starts the run.
pub(crate) fn is_start(event: &Event) -> bool
    ensures { result ≡ places.is_start event.now }
{
    matches!(event.class(), Class::Start)
}

/// Returns whether open things of this kind have different ids.
pub(crate) fn is_named(thing: Thing) -> bool
    ensures { result ≡ places.is_named thing }
{
    matches!(thing, Thing::Activity | Thing::Timer | Thing::Child)
}

/// Returns whether an event of the role opens such a thing.
fn opens_thing(thing: Thing, role: Role<'_>) -> bool
    ensures { result ≡ places.is_thing thing (opened_thing (role_seen role.entry)) }
{
    match role {
        Role::Opens { thing: other, .. } => thing == other,
        Role::CancelsChild { .. } => thing == Thing::CancelRequest,
        Role::Refers { .. } | Role::Plain => false,
    }
}

/// Returns whether the event of the number opens such a thing.
pub(crate) fn opens_at(events: &[Event], thing: Thing, number: u64) -> bool
    ensures { result ≡ places.is_thing thing (opened_thing (role_at events.now number)) }
{
    match events.get(number.saturating_sub(1) as usize) {
        Some(event) => opens_thing(thing, event.role()),
        None => false,
    }
}
