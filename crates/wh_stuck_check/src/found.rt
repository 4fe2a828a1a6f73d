//! Configurations that were found, and whether they show that no run gets stuck.
ghost use Rattle.std.specs.Prelude.{◌≡◌, ◌<◌, true, IfOk, length, map};
ghost use Rattle.wh_table_lines.specs.Lines.{line_seen};
ghost use Rattle.wh_possible_runs.specs.Configurations.{all_patterns};
ghost use Rattle.wh_possible_runs.specs.Shown.{same_thing_state, same_things, same_config, has, each, is_closed};
ghost use Rattle.wh_stuck_check.specs.Private.Seen.{name_seen};
ghost use Rattle.wh_stuck_check.specs.Private.Configs.{config_seen, is_good};

use crate::config::{Configuration, Rules, steps};
use crate::things::{phase_number, touch_number};
use std::alloc::Global;
use wh_events::OutOfMemory;
use wh_possible_runs::ThingState;
use wh_table_lines::same_counts;

/// The most configurations that a search looks at.
pub const MOST_CONFIGURATIONS: usize = 200_000;

/// Configurations, with a table to look them up.
#[derive(Drop)]
pub(crate) struct Found {
    /// The configurations.
    pub configs: Vec<Configuration>,
    /// One more than the number of a configuration, or 0 if the slot is empty.
    pub slots: Vec<usize>,
}

/// No configuration is found yet.
pub(crate) fn none_found(alloc: Global) -> Result<Found, OutOfMemory> {
    Ok(Found {
        configs: Vec::new(alloc),
        slots: vec![in alloc; 0; 2 * MOST_CONFIGURATIONS]?,
    })
}

/// Whether both states of a thing are the same.
fn same_thing_state(one: ThingState, other: ThingState) -> bool
    ensures { result ≡ same_thing_state one other }
{
    phase_number(one.phase) == phase_number(other.phase)
        && (touch_number(one.touch) == touch_number(other.touch) && one.started == other.started)
}

/// Whether both lists of things are the same.
fn same_things(one: &[ThingState], other: &[ThingState]) -> bool
    ensures { result ≡ same_things one.now other.now }
{
    if one.len() != other.len() {
        return false;
    }
    for (place, state) in one.iter().enumerate() {
        if !same_thing_state(*state, other[place]) {
            return false;
        }
    }
    true
}

/// Whether both configurations are the same.
pub(crate) fn is_same(one: &Configuration, other: &Configuration) -> bool
    ensures { result ≡ same_config (config_seen one.now) (config_seen other.now) }
{
    if one.state != other.state {
        return false;
    }
    (one.closed == other.closed && same_counts(one.counts, other.counts))
        && ((one.situation.awaits_version == other.situation.awaits_version
            && one.situation.takes_signals == other.situation.takes_signals)
            && (one.situation.faulty == other.situation.faulty
                && same_things(
                    one.situation.things.as_slice(),
                    other.situation.things.as_slice(),
                )))
}

/// A scattered number of a key and one more part of it.
fn scatter(key: u64, part: u64) -> u64 {
    let key = (key ^ part).wrapping_mul(0x9E37_79B9_7F4A_7C15);
    key ^ (key >> 29)
}

/// A number for the state of a thing.
fn number_of(one: ThingState) -> u64 {
    let number = phase_number(one.phase) as u64 * 8 + touch_number(one.touch) as u64 * 2;
    if one.started { number + 1 } else { number }
}

/// A scattered number of a configuration.
fn key_of(one: &Configuration) -> u64 {
    let mut key = one.state as u64;
    for part in [
        one.counts.a,
        one.counts.b,
        one.counts.c,
        one.counts.d,
        if one.closed { 1 } else { 0 },
        if one.situation.awaits_version { 1 } else { 0 },
        if one.situation.takes_signals { 1 } else { 0 },
    ] {
        key = scatter(key, part);
    }
    for thing in &one.situation.things {
        key = scatter(key, number_of(*thing));
    }
    key
}

/// The slot of a configuration: one that names it, or else an empty one, if there is one.
fn slot_of(configs: &[Configuration], slots: &[usize], one: &Configuration) -> usize
    requires { 0 < length slots.now }
    ensures { result < length slots.now }
{
    let mut slot = (key_of(one) % slots.len() as u64) as usize;
    for _step in 0..slots.len() {
        let held = slots[slot];
        if held == 0 || (held <= configs.len() && is_same(one, &configs[held - 1])) {
            return slot;
        }
        slot = if slot + 1 < slots.len() { slot + 1 } else { 0 };
    }
    slot
}

/// Whether the configuration is found.
pub(crate) fn is_known(configs: &[Configuration], slots: &[usize], one: &Configuration) -> bool
    ensures { result ≡ true → has (map config_seen configs.now) (config_seen one.now) ≡ true }
{
    if slots.is_empty() {
        return false;
    }
    let held = slots[slot_of(configs, slots, one)];
    if held == 0 || configs.len() < held {
        return false;
    }
    is_same(one, &configs[held - 1])
}

/// Adds a configuration, unless it is found. Says whether it was added.
pub(crate) fn add(found: &mut Found, one: Configuration) -> Result<bool, OutOfMemory> {
    if is_known(found.configs.as_slice(), found.slots.as_slice(), &one) {
        return Ok(false);
    }
    if !found.slots.is_empty() {
        let slot = slot_of(found.configs.as_slice(), found.slots.as_slice(), &one);
        found.slots[slot] = found.configs.len() + 1;
    }
    found.configs.push(one)?;
    Ok(true)
}

/// Whether each of the list is found.
fn are_known(configs: &[Configuration], slots: &[usize], list: &[Configuration]) -> bool
    ensures { result ≡ true → each (has (map config_seen configs.now)) (map config_seen list.now) ≡ true }
{
    for one in list {
        if !is_known(configs, slots, one) {
            return false;
        }
    }
    true
}

/// Whether the configuration is not at fault, and leads only to those that were found.
fn is_good(
    alloc: Global,
    rules: &Rules,
    configs: &[Configuration],
    slots: &[usize],
    one: &Configuration,
) -> Result<bool, OutOfMemory>
    requires { rules.now.patterns.now ≡ all_patterns (map name_seen rules.now.names.now) }
    ensures { IfOk result (λ good. good ≡ true → is_good (map name_seen rules.now.names.now) rules.now.tops
        (map line_seen rules.now.lines.now) (map config_seen configs.now) (config_seen one.now) ≡ true) }
{
    if one.situation.faulty {
        return Ok(false);
    }
    let mut next = Vec::new(alloc);
    steps(alloc, &mut next, rules, one)?;
    Ok(are_known(configs, slots, next.as_slice()))
}

/// Whether none of these is at fault, and each leads only to those that were found.
fn is_closed(
    alloc: Global,
    rules: &Rules,
    configs: &[Configuration],
    slots: &[usize],
    list: &[Configuration],
) -> Result<bool, OutOfMemory>
    requires { rules.now.patterns.now ≡ all_patterns (map name_seen rules.now.names.now) }
    ensures { IfOk result (λ closed. closed ≡ true → is_closed (map name_seen rules.now.names.now) rules.now.tops
        (map line_seen rules.now.lines.now) (has (map config_seen configs.now)) (map config_seen list.now) ≡ true) }
{
    for one in list {
        if !is_good(alloc, rules, configs, slots, one)? {
            return Ok(false);
        }
    }
    Ok(true)
}

/// Whether none of those that were found is at fault, and each leads only to others of them.
pub(crate) fn are_closed(alloc: Global, rules: &Rules, found: &Found) -> Result<bool, OutOfMemory>
    requires { rules.now.patterns.now ≡ all_patterns (map name_seen rules.now.names.now) }
    ensures { IfOk result (λ closed. closed ≡ true → is_closed (map name_seen rules.now.names.now) rules.now.tops
        (map line_seen rules.now.lines.now) (has (map config_seen found.now.configs.items))
        (map config_seen found.now.configs.items) ≡ true) }
{
    let configs = found.configs.as_slice();
    is_closed(alloc, rules, configs, found.slots.as_slice(), configs)
}
