//! Configurations that were found, and whether they show a promise.
ghost use Rattle.std.specs.Prelude.{◌≡◌, ◌<◌, ◌^◌, true, IfOk, OnOk, length, map};
ghost use Rattle.wh_rows.specs.Deciding.{covered, each};
ghost use Rattle.wh_table_lines.specs.Lines.{line_seen};
ghost use Rattle.wh_table_promises.specs.Private.Seen.{turn_seen, config_seen};
ghost use Rattle.wh_table_promises.specs.Private.Found.{is_in, is_good, GoesOn};

use crate::config::{Configuration, Rules, steps};
use std::alloc::Global;
use wh_events::OutOfMemory;
use wh_table_lines::same_counts;

/// The most configurations that a search looks at.
pub const MOST_CONFIGURATIONS: usize = 200_000;

/// Configurations, with a table to look them up by where they stand.
#[derive(Drop)]
pub(crate) struct Found {
    /// The configurations.
    pub configs: Vec<Configuration>,
    /// One more than the number of a configuration, or 0 if the slot is empty.
    pub slots: Vec<usize>,
}

/// No configuration is found yet.
pub(crate) fn none_found(alloc: Global) -> Result<Found, OutOfMemory> {
    Ok(Found {
        configs: Vec::new(alloc),
        slots: vec![in alloc; 0; 2 * MOST_CONFIGURATIONS]?,
    })
}

/// Whether both stand at the same place.
fn same_place(one: &Configuration, other: &Configuration) -> bool {
    one.state == other.state
        && one.closed == other.closed
        && same_counts(one.counts, other.counts)
        && one.watch.at == other.watch.at
}

/// Whether the first stands where the second does, and has spent no more.
pub(crate) fn is_covered(one: &Configuration, other: &Configuration) -> bool
    ensures { result ≡ covered (config_seen one.now) (config_seen other.now) }
{
    (one.state == other.state && one.closed == other.closed)
        && (same_counts(one.counts, other.counts)
            && (one.watch.at == other.watch.at && one.watch.spent <= other.watch.spent))
}

/// A scattered number of the place where a configuration stands.
fn key_of(one: &Configuration) -> u64 {
    let mut key = one.state as u64;
    for part in [
        one.counts.a,
        one.counts.b,
        one.counts.c,
        one.counts.d,
        one.watch.at,
        if one.closed { 1 } else { 0 },
    ] {
        key = (key ^ part).wrapping_mul(0x9E37_79B9_7F4A_7C15);
        key = key ^ (key >> 29);
    }
    key
}

/// The slot of the place where a configuration stands: one that names a configuration there, or else
/// an empty one, if there is one.
pub(crate) fn slot_of(configs: &[Configuration], slots: &[usize], one: &Configuration) -> usize
    requires { 0 < length slots.now }
    ensures { result < length slots.now }
{
    let mut slot = (key_of(one) % slots.len() as u64) as usize;
    for _step in 0..slots.len() {
        let held = slots[slot];
        if held == 0 || (held <= configs.len() && same_place(one, &configs[held - 1])) {
            return slot;
        }
        slot = if slot + 1 < slots.len() { slot + 1 } else { 0 };
    }
    slot
}

/// Adds a configuration, unless one is found that covers it. Says whether it was added.
pub(crate) fn add(found: &mut Found, one: Configuration) -> Result<bool, OutOfMemory>
    ensures { OnOk result (GoesOn (map config_seen found.old.configs.items) (map config_seen found.new.configs.items)) }
{
    if is_known(found.configs.as_slice(), found.slots.as_slice(), &one) {
        return Ok(false);
    }
    found.configs.push(one)?;
    if !found.slots.is_empty() {
        let slot = slot_of(found.configs.as_slice(), found.slots.as_slice(), &one);
        found.slots[slot] = found.configs.len();
    }
    Ok(true)
}

/// Whether one of the configurations is found that covers this one.
fn is_known(configs: &[Configuration], slots: &[usize], one: &Configuration) -> bool
    ensures { result ≡ true → is_in (map config_seen configs.now) (config_seen one.now) ≡ true }
{
    if slots.is_empty() {
        return false;
    }
    let held = slots[slot_of(configs, slots, one)];
    if held == 0 || configs.len() < held {
        return false;
    }
    is_covered(one, &configs[held - 1])
}

/// Whether for each of the list one is found that covers it.
pub(crate) fn are_known(configs: &[Configuration], slots: &[usize], list: &[Configuration]) -> bool
    ensures { result ≡ true → each (is_in (map config_seen configs.now)) (map config_seen list.now) ≡ true }
{
    for one in list {
        if !is_known(configs, slots, one) {
            return false;
        }
    }
    true
}

/// Whether the configuration keeps to the budget, and leads to those that were found.
fn is_good(
    alloc: Global,
    rules: &Rules,
    budget: u64,
    configs: &[Configuration],
    slots: &[usize],
    one: &Configuration,
) -> Result<bool, OutOfMemory>
    requires { budget < 2 ^ 62 }
    ensures { IfOk result (λ good. good ≡ true → is_good rules.now.tops (map turn_seen rules.now.turns.now) budget
        (map line_seen rules.now.lines.now) (map config_seen configs.now) (config_seen one.now) ≡ true) }
{
    if budget < one.watch.spent {
        return Ok(false);
    }
    let mut next = Vec::new(alloc);
    steps(alloc, &mut next, rules, one)?;
    Ok(are_known(configs, slots, next.as_slice()))
}

/// Whether each of these does.
pub(crate) fn are_good(
    alloc: Global,
    rules: &Rules,
    budget: u64,
    configs: &[Configuration],
    slots: &[usize],
    list: &[Configuration],
) -> Result<bool, OutOfMemory>
    requires { budget < 2 ^ 62 }
    ensures { IfOk result (λ good. good ≡ true → each (is_good rules.now.tops (map turn_seen rules.now.turns.now) budget
        (map line_seen rules.now.lines.now) (map config_seen configs.now)) (map config_seen list.now) ≡ true) }
{
    for one in list {
        if !is_good(alloc, rules, budget, configs, slots, one)? {
            return Ok(false);
        }
    }
    Ok(true)
}
