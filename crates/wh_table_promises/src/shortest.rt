//! Whether no path of fewer jobs breaks a promise: all configurations that so many jobs lead to
//! keep to the budget, one job after another.
ghost use Rattle.std.specs.Prelude.{◌≡◌, ◌<◌, ◌^◌, true, IfOk, OnOk, map, take, drop};
ghost use Rattle.wh_rows.specs.Deciding.{each};
ghost use Rattle.wh_table_lines.specs.Lines.{line_seen};
ghost use Rattle.wh_table_promises.specs.Private.Seen.{turn_seen, config_seen};
ghost use Rattle.wh_table_promises.specs.Private.Found.{is_good, GoesOn, Leads, LeadsFrom};

use crate::config::{Configuration, Rules, initial_configuration, starts, steps};
use crate::found::{Found, MOST_CONFIGURATIONS, add, are_good, are_known, none_found};
use std::alloc::Global;
use wh_events::OutOfMemory;

/// Adds each of these, unless one is found that covers it.
fn add_each(found: &mut Found, list: &[Configuration]) -> Result<(), OutOfMemory>
    ensures { OnOk result (GoesOn (map config_seen found.old.configs.items) (map config_seen found.new.configs.items)) }
{
    for one in list {
        add(found, *one)?;
    }
    Ok(())
}

/// Adds where a job may lead from a configuration. `false` if that spends more than the budget,
/// or too many are found.
fn expand(
    alloc: Global,
    found: &mut Found,
    rules: &Rules,
    budget: u64,
    one: &Configuration,
) -> Result<bool, OutOfMemory>
    requires { budget < 2 ^ 62 }
    ensures { OnOk result (GoesOn (map config_seen found.old.configs.items) (map config_seen found.new.configs.items)) }
{
    if budget < one.watch.spent || MOST_CONFIGURATIONS < found.configs.len() {
        return Ok(false);
    }
    let mut next = Vec::new(alloc);
    steps(alloc, &mut next, rules, one)?;
    add_each(found, next.as_slice())?;
    Ok(true)
}

/// Adds where a job may lead from each of the configurations of these numbers. `false` if one
/// spends more than the budget, or too many are found.
fn expand_each(
    alloc: Global,
    found: &mut Found,
    rules: &Rules,
    budget: u64,
    from: usize,
    end: usize,
) -> Result<bool, OutOfMemory>
    requires { budget < 2 ^ 62 }
    ensures { OnOk result (GoesOn (map config_seen found.old.configs.items) (map config_seen found.new.configs.items)) }
{
    for index in from..end {
        if found.configs.len() <= index {
            return Ok(false);
        }
        let one = found.configs[index];
        if !expand(alloc, found, rules, budget, &one)? {
            return Ok(false);
        }
    }
    Ok(true)
}

/// Whether each of the configurations of these numbers keeps to the budget, and leads to those that
/// were found.
fn are_good_between(
    alloc: Global,
    rules: &Rules,
    budget: u64,
    found: &Found,
    from: usize,
    end: usize,
) -> Result<bool, OutOfMemory>
    requires { budget < 2 ^ 62 }
    ensures { IfOk result (λ good. good ≡ true → each (is_good rules.now.tops (map turn_seen rules.now.turns.now) budget
        (map line_seen rules.now.lines.now) (map config_seen found.now.configs.items))
        (drop from (take end (map config_seen found.now.configs.items))) ≡ true) }
{
    let configs = found.configs.as_slice();
    if end < from || configs.len() < end {
        return Ok(false);
    }
    let slots = found.slots.as_slice();
    are_good(alloc, rules, budget, configs, slots, &configs[from..end])
}

/// Whether all that are found, of which those before this number lead to others of them, lead to
/// those that are found then.
fn go_on(
    alloc: Global,
    found: &mut Found,
    rules: &Rules,
    budget: u64,
    from: usize,
) -> Result<bool, OutOfMemory>
    requires budget { budget < 2 ^ 62 }
    requires good { each (is_good rules.now.tops (map turn_seen rules.now.turns.now) budget
        (map line_seen rules.now.lines.now) (map config_seen found.old.configs.items))
        (take from (map config_seen found.old.configs.items)) ≡ true }
    ensures good { IfOk result (λ good. good ≡ true
        → each (is_good rules.now.tops (map turn_seen rules.now.turns.now) budget
        (map line_seen rules.now.lines.now) (map config_seen found.new.configs.items))
        (map config_seen found.old.configs.items) ≡ true) }
    ensures on { OnOk result
        (GoesOn (map config_seen found.old.configs.items) (map config_seen found.new.configs.items)) }
{
    let end = found.configs.as_slice().len();
    if !expand_each(alloc, found, rules, budget, from, end)? {
        return Ok(false);
    }
    if are_good_between(alloc, rules, budget, found, from, end)? {
        return Ok(true);
    }
    Ok(false)
}

/// Whether each configuration that so many jobs but the last one lead to, from those that are found
/// on, keeps to the budget.
fn keep(
    alloc: Global,
    found: Found,
    rules: &Rules,
    budget: u64,
    jobs: usize,
) -> Result<bool, OutOfMemory>
    requires { budget < 2 ^ 62 }
    ensures { IfOk result (λ kept. kept ≡ true → Leads rules.now.tops (map turn_seen rules.now.turns.now) budget
        (map line_seen rules.now.lines.now) jobs (map config_seen found.configs.items)) }
{
    let mut found = found;
    let mut from = 0;
    for _job in 0..jobs {
        let end = found.configs.as_slice().len();
        if !go_on(alloc, &mut found, rules, budget, from)? {
            return Ok(false);
        }
        from = end;
    }
    Ok(true)
}

/// Whether a run that begins in the state of this number keeps to the budget at so many jobs, as
/// far as configurations show it.
pub(crate) fn keep_from_start(
    alloc: Global,
    rules: &Rules,
    budget: u64,
    first: usize,
    jobs: usize,
) -> Result<bool, OutOfMemory>
    requires { budget < 2 ^ 62 }
    ensures { IfOk result (λ kept. kept ≡ true → LeadsFrom rules.now.tops (map turn_seen rules.now.turns.now) budget
        (map line_seen rules.now.lines.now) first jobs) }
{
    let mut list = Vec::new(alloc);
    starts(&mut list, rules, &initial_configuration(first))?;
    let mut found = none_found(alloc)?;
    add_each(&mut found, list.as_slice())?;
    if !are_known(
        found.configs.as_slice(),
        found.slots.as_slice(),
        list.as_slice(),
    ) {
        return Ok(false);
    }
    keep(alloc, found, rules, budget, jobs)
}
