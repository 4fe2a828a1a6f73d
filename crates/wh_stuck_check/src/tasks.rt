//! The next task: the things that may have ended when it begins.
ghost use Rattle.std.specs.Prelude.{◌≡◌, ◌++◌, true, false, IfOk, OnOk, [], ◌∷◌, map};
ghost use Rattle.wh_possible_runs.specs.Things.{next_thing};
ghost use Rattle.wh_possible_runs.specs.Situations.{all_told};
ghost use Rattle.wh_possible_runs.specs.Configurations.{stays, put_before, all_next_things, with_each, next_tasks};
ghost use Rattle.wh_stuck_check.specs.Private.Seen.{name_seen, situation_seen, lists_seen};
ghost use Rattle.wh_stuck_check.specs.Private.Configs.{config_seen};

use crate::config::{Configuration, Rules, stay};
use crate::names::ThingName;
use crate::situation::Situation;
use crate::things::{is_untold, next_thing};
use std::alloc::Global;
use wh_events::OutOfMemory;
use wh_possible_runs::ThingState;

/// Whether the run has been told of each end.
pub(crate) fn all_told(things: &[ThingState]) -> bool
    ensures { result ≡ all_told things.now }
{
    for one in things {
        if is_untold(one.phase) {
            return false;
        }
    }
    true
}

/// Adds a list with the thing put before it.
fn add_with(
    alloc: Global,
    found: &mut Vec<Vec<ThingState>>,
    one: ThingState,
    list: &[ThingState],
) -> Result<(), OutOfMemory>
    ensures { OnOk result (lists_seen found.new.items ≡ lists_seen found.old.items ++ (one ∷ list.now) ∷ []) }
{
    let mut longer = list.to_vec(alloc)?;
    longer.insert(0, one)?;
    found.push(longer)?;
    Ok(())
}

/// Adds the lists with the thing, if there is one, put before each of them.
fn add_before(
    alloc: Global,
    found: &mut Vec<Vec<ThingState>>,
    one: Option<ThingState>,
    lists: &[Vec<ThingState>],
) -> Result<(), OutOfMemory>
    ensures { OnOk result (lists_seen found.new.items
        ≡ lists_seen found.old.items ++ put_before one (lists_seen lists.now)) }
{
    if let Some(one) = one {
        for list in lists {
            add_with(alloc, found, one, list.as_slice())?;
        }
    }
    Ok(())
}

/// The lists with the thing, as it may be when the next task begins, put before each of them.
fn with_thing(
    alloc: Global,
    name: &ThingName,
    now: ThingState,
    lists: &[Vec<ThingState>],
) -> Result<Vec<Vec<ThingState>>, OutOfMemory>
    ensures { IfOk result (λ longer. lists_seen longer.items
        ≡ put_before (next_thing false name.now.thing now) (lists_seen lists.now)
        ++ put_before (next_thing true name.now.thing now) (lists_seen lists.now)) }
{
    let mut longer = Vec::new(alloc);
    add_before(
        alloc,
        &mut longer,
        next_thing(false, name.thing, now),
        lists,
    )?;
    add_before(alloc, &mut longer, next_thing(true, name.thing, now), lists)?;
    Ok(longer)
}

/// The list that has an empty list.
fn one_empty(alloc: Global) -> Result<Vec<Vec<ThingState>>, OutOfMemory>
    ensures { IfOk result (λ lists. lists_seen lists.items ≡ [] ∷ []) }
{
    let mut lists = Vec::new(alloc);
    lists.push(Vec::new(alloc))?;
    Ok(lists)
}

/// The things as they may be when the next task begins.
fn all_next_things(
    alloc: Global,
    names: &[ThingName],
    things: &[ThingState],
) -> Result<Vec<Vec<ThingState>>, OutOfMemory>
    ensures { IfOk result (λ lists. lists_seen lists.items ≡ all_next_things (map name_seen names.now) things.now) }
{
    if names.len() < things.len() {
        return Ok(Vec::new(alloc));
    }
    let mut lists = one_empty(alloc)?;
    for back in 0..things.len() {
        let place = things.len() - 1 - back;
        lists = with_thing(alloc, &names[place], things[place], lists.as_slice())?;
    }
    Ok(lists)
}

/// Adds a configuration for each of these lists of things.
fn add_with_each(
    alloc: Global,
    found: &mut Vec<Configuration>,
    one: &Configuration,
    lists: &[Vec<ThingState>],
) -> Result<(), OutOfMemory>
    ensures { OnOk result (map config_seen found.new.items
        ≡ map config_seen found.old.items ++ with_each (config_seen one.now) (lists_seen lists.now)) }
{
    for list in lists {
        found.push(at_begin(alloc, one, list.as_slice())?)?;
    }
    Ok(())
}

/// The configuration with these things, when a task begins.
fn at_begin(
    alloc: Global,
    one: &Configuration,
    things: &[ThingState],
) -> Result<Configuration, OutOfMemory>
    ensures { IfOk result (λ next. config_seen next
        ≡ stays (config_seen one.now) (record (situation_seen one.now.situation) { things = things.now; takes_signals = true })) }
{
    Ok(stay(
        one,
        Situation {
            things: things.to_vec(alloc)?,
            awaits_version: one.situation.awaits_version,
            takes_signals: true,
            faulty: one.situation.faulty,
        },
    ))
}

/// Adds the configurations that the next task may begin with.
pub(crate) fn add_next_tasks(
    alloc: Global,
    found: &mut Vec<Configuration>,
    rules: &Rules,
    one: &Configuration,
) -> Result<(), OutOfMemory>
    ensures { OnOk result (map config_seen found.new.items
        ≡ map config_seen found.old.items ++ next_tasks (map name_seen rules.now.names.now) (config_seen one.now)) }
{
    let things = one.situation.things.as_slice();
    if !all_told(things) || one.situation.awaits_version {
        return Ok(());
    }
    let lists = all_next_things(alloc, rules.names, things)?;
    add_with_each(alloc, found, one, lists.as_slice())
}
