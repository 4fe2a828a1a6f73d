//! Enters an event in the tables.

ghost use Rattle.std.specs.Prelude.{◌≡◌, ℕ, List, None, OnOk, OnErr};
ghost use Rattle.wh_events.specs.Kinds.{role_seen};
ghost use Rattle.wh_machines.specs.Private.Changes.{things_after, names_after};
ghost use Rattle.wh_machines.specs.Private.Tables.{IsSound, opening_in, named_in};

use crate::names::Names;
use crate::opening::Opening;
use crate::openings::Openings;
use std::alloc::Global;
use wh_events::{Effect, EventNo, OutOfMemory, Role, Thing};

/// Enters an event of that number and role in the tables. After `OutOfMemory` they are as they
/// were.
pub(crate) fn note(
    alloc: Global,
    openings: &mut Openings,
    names: &mut Names,
    number: EventNo,
    role: Role<'_>,
) -> Result<(), OutOfMemory>
    requires sound { IsSound openings.old }
    requires unknown { opening_in openings.old number ≡ None }
    ensures sound { IsSound openings.new }
    ensures opened { OnOk result ((opened : ℕ) → opening_in openings.new opened
        ≡ things_after (role_seen role.entry) number (named_in names.old) (opening_in openings.old) opened) }
    ensures named { OnOk result ((thing : Thing) (id : List ℕ) → named_in names.new thing id
        ≡ names_after (role_seen role.entry) number (named_in names.old) thing id) }
    ensures same_opened { OnErr result ((n : ℕ) → opening_in openings.new n ≡ opening_in openings.old n) }
    ensures same_named { OnErr result ((t : Thing) (id : List ℕ) → named_in names.new t id ≡ named_in names.old t id) }
{
    match role {
        Role::Opens { thing, id } => {
            openings.insert(Opening::new(number, names.last(thing, id)))?;
            if let Err(full) = names.set(alloc, thing, id, number) {
                openings.remove(number.get());
                return Err(full);
            }
        }
        Role::Refers {
            number: target,
            effect,
            ..
        } => openings.mark(target, effect, number),
        Role::CancelsChild { workflow_id } => {
            openings.insert(Opening::new(number, None))?;
            if let Some(child) = names.last(Thing::Child, workflow_id) {
                openings.mark(child.get(), Effect::Cancels, number);
            }
        }
        Role::Plain => {}
    }
    Ok(())
}
