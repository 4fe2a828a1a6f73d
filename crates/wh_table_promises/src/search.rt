//! The search for a shortest path that breaks a promise. Nothing rests on it: a path that is found
//! is followed (`ways`), and configurations that are found are judged (`found`).
ghost use Rattle.std.specs.Prelude.{◌≡◌, ◌≤◌, ◌<◌, ◌+◌, ◌^◌};

use crate::candidates::Candidate;
use crate::config::{
    Configuration, Rules, initial_configuration, is_ready, stand, start_row, steps,
};
use crate::found::{Found, MOST_CONFIGURATIONS, add, none_found};
use crate::promise::Happening;
use crate::watch::{WatchState, WatchTurn, watch_after_turn};
use std::alloc::Global;
use wh_events::{OutOfMemory, Text};
use wh_row_rules::covers;
use wh_rows::JobPattern;
use wh_table_lines::IndexedRow;

/// How a configuration was reached.
#[derive(Clone, Copy)]
struct Predecessor {
    /// The number of the configuration before it.
    from: usize,
    /// The number of the job that led to it.
    by: usize,
}

/// A search.
#[derive(Drop)]
pub(crate) struct Search {
    /// The configurations that were reached.
    pub found: Found,
    /// How each was reached.
    origins: Vec<Predecessor>,
}

/// How a search ends.
pub(crate) enum SearchEnd {
    /// By a configuration that breaks the promise: the numbers of the jobs that lead to it.
    Breaks(Vec<usize>),
    /// With no configuration that was not looked at.
    Complete,
    /// With too many of them.
    TooMany,
}

/// The first turn that a job of the pattern makes.
fn turn_on<'t, 'a>(
    turns: &'t [WatchTurn<'a>],
    pattern: &JobPattern<Text>,
    at: u64,
) -> Option<&'t WatchTurn<'a>> {
    for turn in turns {
        if let Happening::Comes(wanted) = turn.what {
            if turn.from == at && covers(wanted, pattern) {
                return Some(turn);
            }
        }
    }
    None
}

/// Where a watch stands after a job of the pattern.
fn watch_after_pattern(
    turns: &[WatchTurn],
    pattern: &JobPattern<Text>,
    now: WatchState,
) -> WatchState
    requires { now.spent < 2 ^ 62 }
    ensures { result.spent ≤ 2 ^ 62 }
{
    match turn_on(turns, pattern, now.at) {
        Some(turn) => watch_after_turn(turn, now),
        None => now,
    }
}

/// The first row that fits.
fn ready_line<'t, 'a>(
    lines: &'t [IndexedRow<'a>],
    one: &Configuration,
) -> Option<&'t IndexedRow<'a>> {
    for line in lines {
        if is_ready(line, one) {
            return Some(line);
        }
    }
    None
}

/// Where a job leads.
fn step(rules: &Rules, candidate: &Candidate, one: &Configuration) -> Configuration
    requires { one.now.watch.spent < 2 ^ 62 }
{
    let line = ready_line(candidate.lines.as_slice(), one);
    let now = watch_after_pattern(rules.turns, candidate.pattern, one.watch);
    stand(rules, line, one, now)
}

/// Where the start leads.
fn after_start(rules: &Rules, first: usize) -> Configuration {
    let one = initial_configuration(first);
    let line = start_row(rules.lines, &one);
    let now = watch_after_pattern(rules.turns, &JobPattern::Start, one.watch);
    stand(rules, line, &one, now)
}

/// A search that has reached nothing.
fn new_search(alloc: Global) -> Result<Search, OutOfMemory> {
    Ok(Search {
        found: none_found(alloc)?,
        origins: Vec::new(alloc),
    })
}

/// Adds a configuration, unless one is found that covers it.
fn reach(search: &mut Search, one: Configuration, origin: Predecessor) -> Result<(), OutOfMemory> {
    if add(&mut search.found, one)? {
        search.origins.push(origin)?;
    }
    Ok(())
}

/// Adds where each job leads from a configuration.
fn visit(
    search: &mut Search,
    rules: &Rules,
    candidates: &[Candidate],
    from: usize,
    one: &Configuration,
) -> Result<(), OutOfMemory>
    requires { one.now.watch.spent < 2 ^ 62 }
{
    for (by, candidate) in candidates.iter().enumerate() {
        reach(
            search,
            step(rules, candidate, one),
            Predecessor { from, by },
        )?;
    }
    Ok(())
}

/// The jobs that led to a configuration.
fn path_to(
    alloc: Global,
    origins: &[Predecessor],
    index: usize,
) -> Result<Vec<usize>, OutOfMemory> {
    let mut path = Vec::new(alloc);
    let mut index = index;
    for _step in 0..origins.len() {
        if 0 < index && index < origins.len() {
            path.insert(0, origins[index].by)?;
            index = origins[index].from;
        }
    }
    Ok(path)
}

/// Searches for a shortest path that breaks the promise.
pub(crate) fn search_way(
    alloc: Global,
    search: &mut Search,
    rules: &Rules,
    budget: u64,
    candidates: &[Candidate],
) -> Result<SearchEnd, OutOfMemory>
    requires { budget < 2 ^ 62 }
{
    for index in 0..MOST_CONFIGURATIONS {
        if search.found.configs.len() <= index {
            return Ok(SearchEnd::Complete);
        }
        let one = search.found.configs[index];
        if budget < one.watch.spent {
            return Ok(SearchEnd::Breaks(path_to(alloc, search.origins.as_slice(), index)?));
        }
        visit(search, rules, candidates, index, &one)?;
    }
    Ok(SearchEnd::TooMany)
}

/// Begins a search.
pub(crate) fn begin_search(
    alloc: Global,
    rules: &Rules,
    first: usize,
) -> Result<Search, OutOfMemory> {
    let mut search = new_search(alloc)?;
    let one = after_start(rules, first);
    reach(&mut search, one, Predecessor { from: 0, by: 0 })?;
    Ok(search)
}

/// Adds all that a job of whichever name may lead to, until nothing more comes.
pub(crate) fn search_all(
    alloc: Global,
    search: &mut Search,
    rules: &Rules,
    budget: u64,
) -> Result<(), OutOfMemory>
    requires { budget < 2 ^ 62 }
{
    for index in 0..MOST_CONFIGURATIONS {
        if search.found.configs.len() <= index {
            return Ok(());
        }
        let one = search.found.configs[index];
        if budget < one.watch.spent {
            return Ok(());
        }
        reach_each(alloc, search, rules, &one)?;
    }
    Ok(())
}

/// Adds all that a job may lead to from a configuration.
fn reach_each(
    alloc: Global,
    search: &mut Search,
    rules: &Rules,
    one: &Configuration,
) -> Result<(), OutOfMemory>
    requires { one.now.watch.spent < 2 ^ 62 }
{
    let mut next = Vec::new(alloc);
    steps(alloc, &mut next, rules, one)?;
    for config in &next {
        reach(search, *config, Predecessor { from: 0, by: 0 })?;
    }
    Ok(())
}
