//! The things of a table, by their names.
ghost use Rattle.std.specs.Prelude.{◌≡◌, IfOk, OnOk, [], map};
ghost use Rattle.wh_events.specs.Machines.{same_thing};
ghost use Rattle.wh_possible_runs.specs.Situations.{is_named};
ghost use Rattle.wh_possible_runs.specs.Shown.{has_name, with_name, with_act, with_acts, with_rows};
ghost use Rattle.wh_stuck_check.specs.Private.Seen.{name_seen, act_seen, place_named};

use crate::acts::{Act, act_by};
use std::alloc::Global;
use wh_events::{OutOfMemory, Text, Thing};
use wh_row_rules::{OwnedRow, text_eq};
use wh_rows::CommandTemplate;

/// A thing by its kind and its id.
#[derive(Clone, Copy)]
pub(crate) struct ThingName<'a> {
    /// Its kind.
    pub thing: Thing,
    /// Its id.
    pub id: &'a Text,
}

/// Whether both are of one kind.
fn same_thing(one: Thing, other: Thing) -> bool
    ensures { result ≡ same_thing one other }
{
    match one {
        Thing::Activity => matches!(other, Thing::Activity),
        Thing::Timer => matches!(other, Thing::Timer),
        Thing::Child => matches!(other, Thing::Child),
        Thing::CancelRequest => matches!(other, Thing::CancelRequest),
        Thing::SignalRequest => matches!(other, Thing::SignalRequest),
    }
}

/// Whether the thing has this name.
pub(crate) fn is_named(thing: Thing, id: &Text, name: &ThingName) -> bool
    ensures { result ≡ is_named thing id.now (name_seen name.now) }
{
    same_thing(thing, name.thing) && text_eq(id, name.id)
}

/// The place of a thing's name: how many names stand before it, or all if none is its name.
pub(crate) fn place_of(names: &[ThingName], thing: Thing, id: &Text) -> usize
    ensures { result ≡ place_named thing id.now (map name_seen names.now) }
{
    for (place, name) in names.iter().enumerate() {
        if is_named(thing, id, name) {
            return place;
        }
    }
    names.len()
}

/// Whether one of the names is that of the thing.
fn has_name(names: &[ThingName], thing: Thing, id: &Text) -> bool
    ensures { result ≡ has_name (map name_seen names.now) thing id.now }
{
    for name in names {
        if is_named(thing, id, name) {
            return true;
        }
    }
    false
}

/// Adds a name, unless the names have it.
fn add_name<'a>(
    names: &mut Vec<ThingName<'a>>,
    thing: Thing,
    id: &'a Text,
) -> Result<(), OutOfMemory>
    ensures { OnOk result (map name_seen names.new.items ≡ with_name (map name_seen names.old.items) thing id.now) }
{
    if !has_name(names.as_slice(), thing, id) {
        names.insert(0, ThingName { thing, id })?;
    }
    Ok(())
}

/// Adds the name of what is opened or canceled.
fn add_act<'a>(names: &mut Vec<ThingName<'a>>, act: Act<'a>) -> Result<(), OutOfMemory>
    ensures { OnOk result (map name_seen names.new.items ≡ with_act (map name_seen names.old.items) (act_seen act.entry)) }
{
    match act {
        Act::Opens(thing, id) => add_name(names, thing, id),
        Act::Cancels(thing, id) => add_name(names, thing, id),
        Act::Asks(_, _, _) => Ok(()),
        Act::Closes => Ok(()),
        Act::Other => Ok(()),
    }
}

/// Adds the names of what commands open or cancel.
fn add_acts<'a>(
    names: &mut Vec<ThingName<'a>>,
    templates: &'a [CommandTemplate<Text>],
) -> Result<(), OutOfMemory>
    ensures { OnOk result (map name_seen names.new.items ≡ with_acts (map name_seen names.old.items) templates.now) }
{
    for template in templates {
        add_act(names, act_by(template))?;
    }
    Ok(())
}

/// The names of all that the commands of rows open or cancel.
pub(crate) fn names_of<'a>(
    alloc: Global,
    rows: &'a [OwnedRow],
) -> Result<Vec<ThingName<'a>>, OutOfMemory>
    ensures { IfOk result (λ names. map name_seen names.items ≡ with_rows [] rows.now) }
{
    let mut names = Vec::new(alloc);
    for row in rows {
        add_acts(&mut names, row.gives.get())?;
    }
    Ok(names)
}
