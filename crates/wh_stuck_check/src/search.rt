//! The search for a shortest way to a command at fault. Nothing rests on it: a way that is found is
//! followed (`moves`), and configurations that are found are judged (`found`).
ghost use Rattle.std.specs.Prelude.{◌≡◌, map};
ghost use Rattle.wh_possible_runs.specs.Configurations.{all_patterns};
ghost use Rattle.wh_stuck_check.specs.Private.Seen.{name_seen};

use crate::config::{Configuration, Rules, after_start, initial_configuration, stay, steps};
use crate::found::{Found, MOST_CONFIGURATIONS, add, none_found};
use crate::situation::copy_of;
use crate::things::is_running;
use std::alloc::Global;
use wh_events::OutOfMemory;
use wh_possible_runs::Touch;

/// The most steps from one configuration to another that a search takes.
const MOST_STEPS: usize = 1_000_000;

/// The most things that may be open at once: each of them may end before the next task or not, so
/// that there are 2^14 next tasks.
const MOST_OPEN: usize = 14;

/// A search.
#[derive(Drop)]
pub(crate) struct Search {
    /// The configurations that were reached.
    pub found: Found,
    /// The number of the configuration from which each was reached.
    pub origins: Vec<usize>,
    /// How many steps were taken.
    steps: usize,
}

/// How a search ends.
#[derive(Clone, Copy)]
pub(crate) enum SearchEnd {
    /// At a configuration of this number, in which a command was at fault.
    Faulty(usize),
    /// With no configuration that was not looked at.
    Complete,
    /// With too many of them.
    TooMany,
}

/// Adds a configuration that is reached from that of the number, unless it is found.
fn reach(search: &mut Search, one: Configuration, origin: usize) -> Result<(), OutOfMemory> {
    if add(&mut search.found, one)? {
        search.origins.push(origin)?;
    }
    Ok(())
}

/// Begins a search.
pub(crate) fn begin_search(
    alloc: Global,
    rules: &Rules,
    first: usize,
) -> Result<Search, OutOfMemory> {
    let mut search = Search {
        found: none_found(alloc)?,
        origins: Vec::new(alloc),
        steps: 0,
    };
    let one = initial_configuration(alloc, rules.names, first)?;
    let one = after_start(rules, &one)?;
    reach(&mut search, one, 0)?;
    Ok(search)
}

/// How many things may be open.
fn open_in(one: &Configuration) -> usize {
    let mut open = 0usize;
    for thing in &one.situation.things {
        if is_running(thing.phase) || matches!(thing.touch, Touch::Opened) {
            open = open.saturating_add(1);
        }
    }
    open
}

/// A copy of a configuration that was found.
fn copy_at(search: &Search, index: usize) -> Result<Option<Configuration>, OutOfMemory> {
    match search.found.configs.get(index) {
        Some(one) => Ok(Some(stay(one, copy_of(&one.situation)?))),
        None => Ok(None),
    }
}

/// Adds those that a configuration leads to. `false` if there are too many steps.
fn visit(
    alloc: Global,
    search: &mut Search,
    rules: &Rules,
    index: usize,
    one: &Configuration,
) -> Result<bool, OutOfMemory>
    requires { rules.now.patterns.now ≡ all_patterns (map name_seen rules.now.names.now) }
{
    if MOST_OPEN < open_in(one) {
        return Ok(false);
    }
    let mut next = Vec::new(alloc);
    steps(alloc, &mut next, rules, one)?;
    search.steps = search.steps.saturating_add(next.len());
    for one in &next {
        reach(search, stay(one, copy_of(&one.situation)?), index)?;
    }
    Ok(search.steps <= MOST_STEPS)
}

/// Searches for a configuration in which a command was at fault.
pub(crate) fn search_fault(
    alloc: Global,
    search: &mut Search,
    rules: &Rules,
) -> Result<SearchEnd, OutOfMemory>
    requires { rules.now.patterns.now ≡ all_patterns (map name_seen rules.now.names.now) }
{
    for index in 0..MOST_CONFIGURATIONS {
        let Some(one) = copy_at(search, index)? else {
            return Ok(SearchEnd::Complete);
        };
        if one.situation.faulty {
            return Ok(SearchEnd::Faulty(index));
        }
        if !visit(alloc, search, rules, index, &one)? {
            return Ok(SearchEnd::TooMany);
        }
    }
    Ok(SearchEnd::TooMany)
}
