//! Whether a table that was read keeps a promise.
ghost use Rattle.std.specs.Prelude.{◌≡◌, ◌<◌, ◌≤◌, ◌^◌, true, Some, IfOk, IfSome, map};
ghost use Rattle.wh_row_rules.specs.Broken.{definition};
ghost use Rattle.wh_rows.specs.Deciding.{case_of};
ghost use Rattle.wh_rows.specs.Promises.{Promises, watch_of};
ghost use Rattle.wh_table_promises.specs.Promised.{promise_of};
ghost use Rattle.wh_table_promises.specs.Ways.{IsRight, IsWay, IsBreach, IsKeptBefore, job_read};
ghost use Rattle.wh_table_lines.specs.Lines.{line_seen};
ghost use Rattle.wh_table_promises.specs.Private.Seen.{turn_seen, config_seen};
ghost use Rattle.wh_table_promises.specs.Private.Found.{shows_all, is_within_case, LeadsFrom};

use crate::candidates::{Candidate, candidates_of};
use crate::config::{Rules, initial_configuration, starts};
use crate::found::{Found, are_good, are_known};
use crate::promise::TablePromise;
use crate::search::{Search, SearchEnd, begin_search, search_all, search_way};
use crate::shortest::keep_from_start;
use crate::watch::{WatchTurn, budget_of, turns_of};
use crate::ways::{follow_jobs, steps_of};
use std::alloc::Global;
use wh_author_tools::job_of;
use wh_events::{OutOfMemory, Text};
use wh_row_rules::{Breach, Doubt, OwnedTable, PromiseVerdict, WayStep};
use wh_table_lines::{all_within, are_cuts, cuts_of, lines_of, place};
use wh_workflow::Job;

/// The greatest number that the search counts to: what happens at most so often also happens at
/// most as often as any greater number says.
const MOST_BUDGET: u64 = 4_611_686_018_427_387_903;

/// Whether the configurations that were found show the promise.
fn shows(
    alloc: Global,
    table: &OwnedTable,
    rules: &Rules,
    budget: u64,
    found: &Found,
) -> Result<bool, OutOfMemory>
    requires budget { budget < 2 ^ 62 }
    requires lines { map line_seen rules.now.lines.now ≡ (case_of (definition table.now)).rows }
    ensures { IfOk result (λ shown. shown ≡ true → shows_all (case_of (definition table.now)) rules.now.tops
        (map turn_seen rules.now.turns.now) budget (map config_seen found.now.configs.items) ≡ true) }
{
    let rows = table.rows.get();
    if !are_cuts(table.bounds, rules.tops) || !all_within(rows.len(), rules.tops, rules.lines) {
        return Ok(false);
    }
    let configs = found.configs.as_slice();
    let slots = found.slots.as_slice();
    let mut first = Vec::new(alloc);
    starts(
        &mut first,
        rules,
        &initial_configuration(place(&table.first, rows)),
    )?;
    if !are_known(configs, slots, first.as_slice()) {
        return Ok(false);
    }
    are_good(alloc, rules, budget, configs, slots, configs)
}

/// The words of a path's jobs.
fn words_of(
    alloc: Global,
    candidates: &[Candidate],
    path: &[usize],
) -> Result<Vec<Text>, OutOfMemory> {
    let mut words = Vec::new(alloc);
    words.push(Text::new(String::from_str(alloc, "start")?))?;
    for number in path {
        if *number < candidates.len() {
            let copy = candidates[*number].words.try_copy()?;
            words.push(copy)?;
        }
    }
    Ok(words)
}

/// The jobs of these words. `None` if some are no job.
fn jobs_of(alloc: Global, words: &[Text]) -> Result<Option<Vec<Job>>, OutOfMemory>
    ensures { IfOk result (λ found. IfSome found (λ jobs.
        map job_read words.now ≡ map (λ job. Some job) jobs.items)) }
{
    let mut jobs = Vec::new(alloc);
    for text in words {
        match job_of(alloc, "Table", text.get())? {
            Some(job) => jobs.push(job)?,
            None => return Ok(None),
        }
    }
    Ok(Some(jobs))
}

/// The path of these words, if it breaks the promise.
fn way_of(
    alloc: Global,
    table: &OwnedTable,
    promise: &TablePromise,
    turns: &[WatchTurn],
    words: Vec<Text>,
) -> Result<Option<Vec<WayStep>>, OutOfMemory>
    requires turns { map turn_seen turns.now ≡ (watch_of (promise_of promise.now)).turns }
    requires budget { (watch_of (promise_of promise.now)).budget < 2 ^ 62 }
    ensures { IfOk result (λ found. IfSome found (λ way.
        IsWay (definition table.now) (promise_of promise.now) way.items)) }
{
    let Some(jobs) = jobs_of(alloc, words.as_slice())? else {
        return Ok(None);
    };
    let Some(gives) = follow_jobs(alloc, table, turns, budget_of(promise), jobs.as_slice())? else {
        return Ok(None);
    };
    if words.len() != gives.len() {
        return Ok(None);
    }
    let way = steps_of(alloc, words.as_slice(), gives.as_slice())?;
    Ok(Some(way))
}

/// Whether configurations show that a run keeps to the budget at so many jobs.
fn shows_at(
    alloc: Global,
    table: &OwnedTable,
    rules: &Rules,
    budget: u64,
    jobs: usize,
) -> Result<bool, OutOfMemory>
    requires budget { budget < 2 ^ 62 }
    requires lines { map line_seen rules.now.lines.now ≡ (case_of (definition table.now)).rows }
    ensures within { IfOk result (λ shown. shown ≡ true
        → is_within_case (case_of (definition table.now)) rules.now.tops ≡ true) }
    ensures leads { IfOk result (λ shown. shown ≡ true
        → LeadsFrom rules.now.tops (map turn_seen rules.now.turns.now) budget
        (case_of (definition table.now)).rows (case_of (definition table.now)).first jobs) }
{
    let rows = table.rows.get();
    if !are_cuts(table.bounds, rules.tops) || !all_within(rows.len(), rules.tops, rules.lines) {
        return Ok(false);
    }
    keep_from_start(alloc, rules, budget, place(&table.first, rows), jobs)
}

/// Whether it is shown that no path of fewer jobs than this breaks the promise.
fn keeps_before(
    alloc: Global,
    table: &OwnedTable,
    promise: &TablePromise,
    rules: &Rules,
    jobs: usize,
) -> Result<bool, OutOfMemory>
    requires turns { map turn_seen rules.now.turns.now ≡ (watch_of (promise_of promise.now)).turns }
    requires lines { map line_seen rules.now.lines.now ≡ (case_of (definition table.now)).rows }
    requires budget { (watch_of (promise_of promise.now)).budget < 2 ^ 62 }
    ensures { IfOk result (λ shown. shown ≡ true → IsKeptBefore jobs (definition table.now) (promise_of promise.now)) }
{
    let earlier = jobs.saturating_sub(1);
    if shows_at(alloc, table, rules, budget_of(promise), earlier)? {
        return Ok(true);
    }
    Ok(false)
}

/// How the promise is broken by this way.
fn breach_of(
    alloc: Global,
    table: &OwnedTable,
    promise: &TablePromise,
    rules: &Rules,
    way: Vec<WayStep>,
) -> Result<Breach, OutOfMemory>
    requires turns { map turn_seen rules.now.turns.now ≡ (watch_of (promise_of promise.now)).turns }
    requires lines { map line_seen rules.now.lines.now ≡ (case_of (definition table.now)).rows }
    requires budget { (watch_of (promise_of promise.now)).budget < 2 ^ 62 }
    requires way { IsWay (definition table.now) (promise_of promise.now) way.items }
    ensures { IfOk result (λ breach. IsBreach (definition table.now) (promise_of promise.now) breach) }
{
    let is_shortest = keeps_before(alloc, table, promise, rules, way.len())?;
    Ok(Breach { way, is_shortest })
}

/// The verdict if a search found a path.
fn by_way(
    alloc: Global,
    table: &OwnedTable,
    promise: &TablePromise,
    rules: &Rules,
    words: Vec<Text>,
) -> Result<PromiseVerdict, OutOfMemory>
    requires turns { map turn_seen rules.now.turns.now ≡ (watch_of (promise_of promise.now)).turns }
    requires lines { map line_seen rules.now.lines.now ≡ (case_of (definition table.now)).rows }
    requires budget { (watch_of (promise_of promise.now)).budget < 2 ^ 62 }
    ensures { IfOk result (λ verdict. IsRight (definition table.now) (promise_of promise.now) verdict) }
{
    match way_of(alloc, table, promise, rules.turns, words)? {
        Some(way) => {
            let breach = breach_of(alloc, table, promise, rules, way)?;
            Ok(PromiseVerdict::Broken(breach))
        }
        None => Ok(PromiseVerdict::NotDecided(Doubt::ByName)),
    }
}

/// Whether the configurations that were found show that the table keeps the promise.
fn proves(
    alloc: Global,
    table: &OwnedTable,
    promise: &TablePromise,
    rules: &Rules,
    budget: u64,
    found: &Found,
) -> Result<bool, OutOfMemory>
    requires turns { map turn_seen rules.now.turns.now ≡ (watch_of (promise_of promise.now)).turns }
    requires lines { map line_seen rules.now.lines.now ≡ (case_of (definition table.now)).rows }
    requires budget { budget < 2 ^ 62 }
    requires within { budget ≤ (watch_of (promise_of promise.now)).budget }
    ensures { IfOk result (λ shown. shown ≡ true → Promises (definition table.now) (promise_of promise.now)) }
{
    if shows(alloc, table, rules, budget, found)? {
        return Ok(true);
    }
    Ok(false)
}

/// Returns the verdict if a search found no path: what it found may show the promise, or does so
/// with all that runs of other names may come to.
fn by_found(
    alloc: Global,
    table: &OwnedTable,
    promise: &TablePromise,
    rules: &Rules,
    budget: u64,
    search: Search,
) -> Result<PromiseVerdict, OutOfMemory>
    requires turns { map turn_seen rules.now.turns.now ≡ (watch_of (promise_of promise.now)).turns }
    requires lines { map line_seen rules.now.lines.now ≡ (case_of (definition table.now)).rows }
    requires budget { budget < 2 ^ 62 }
    requires within { budget ≤ (watch_of (promise_of promise.now)).budget }
    ensures { IfOk result (λ verdict. IsRight (definition table.now) (promise_of promise.now) verdict) }
{
    if proves(alloc, table, promise, rules, budget, &search.found)? {
        return Ok(PromiseVerdict::Kept);
    }
    let mut search = search;
    search_all(alloc, &mut search, rules, budget)?;
    if proves(alloc, table, promise, rules, budget, &search.found)? {
        return Ok(PromiseVerdict::Kept);
    }
    Ok(PromiseVerdict::NotDecided(Doubt::ByName))
}

/// The verdict by what a search finds.
fn by_search(
    alloc: Global,
    table: &OwnedTable,
    promise: &TablePromise,
    rules: &Rules,
) -> Result<PromiseVerdict, OutOfMemory>
    requires turns { map turn_seen rules.now.turns.now ≡ (watch_of (promise_of promise.now)).turns }
    requires lines { map line_seen rules.now.lines.now ≡ (case_of (definition table.now)).rows }
    ensures { IfOk result (λ verdict. IsRight (definition table.now) (promise_of promise.now) verdict) }
{
    let budget = budget_of(promise).min(MOST_BUDGET);
    let candidates = candidates_of(alloc, &table.name, rules.lines, rules.turns)?;
    let first = place(&table.first, table.rows.get());
    let mut search = begin_search(alloc, rules, first)?;
    match search_way(alloc, &mut search, rules, budget, candidates.as_slice())? {
        SearchEnd::Complete => by_found(alloc, table, promise, rules, budget, search),
        SearchEnd::TooMany => Ok(PromiseVerdict::NotDecided(Doubt::TooMany)),
        SearchEnd::Breaks(path) => {
            if budget < budget_of(promise) {
                return Ok(PromiseVerdict::NotDecided(Doubt::TooMany));
            }
            let words = words_of(alloc, candidates.as_slice(), path.as_slice())?;
            by_way(alloc, table, promise, rules, words)
        }
    }
}

/// Decides whether a table keeps a promise. `Kept` says that it is kept whatever jobs come, in
/// whatever order and number, after the one start. `Broken` has a scenario of a run that breaks it,
/// and says whether none of fewer jobs does. If neither is found, the verdict says why: `TooMany`
/// if the search looks at `MOST_CONFIGURATIONS` configurations, or counts past the greatest number
/// that it counts to, and otherwise `ByName`.
/// `OutOfMemory` if an allocation was refused; nothing is left then.
pub fn decide(
    alloc: Global,
    table: &OwnedTable,
    promise: &TablePromise,
) -> Result<PromiseVerdict, OutOfMemory>
    ensures { IfOk result (λ verdict. IsRight (definition table.now) (promise_of promise.now) verdict) }
{
    let lines = lines_of(alloc, table.rows.get())?;
    let turns = turns_of(alloc, promise)?;
    let rules = Rules {
        lines: lines.as_slice(),
        tops: cuts_of(lines.as_slice()),
        turns: turns.as_slice(),
    };
    by_search(alloc, table, promise, &rules)
}
