//! Where a run and a watch may stand together, and where jobs lead.
ghost use Rattle.std.specs.Prelude.{◌≡◌, ◌≤◌, ◌<◌, ◌^◌, ◌++◌, OnOk, map, option_map};
ghost use Rattle.wh_rows.specs.Deciding.{next_place, is_ready, job_turns, starts, steps, begun};
ghost use Rattle.wh_table_lines.specs.Lines.{line_seen};
ghost use Rattle.wh_table_promises.specs.Private.Seen.{turn_seen, standing_seen, config_seen, stand_by, started, LeadsOn};

use crate::patterns::{may_happen, must_happen};
use crate::turning::watch_after_commands;
use crate::watch::{WatchState, WatchTurn, new_standing, watch_after_turn};
use std::alloc::Global;
use wh_events::{OutOfMemory, Text};
use wh_row_rules::{covers, is_among};
use wh_rows::{Counters, JobPattern, UNCOUNTED, all_hold};
use wh_table_lines::{IndexedRow, cut_all};

/// Where a run and a watch stand together.
#[derive(Clone, Copy)]
pub(crate) struct Configuration {
    /// The number of the run's state.
    pub state: usize,
    /// Whether it is closed.
    pub closed: bool,
    /// Its counters, cut.
    pub counts: Counters,
    /// The watch.
    pub watch: WatchState,
}

/// What is asked of a table and a promise.
#[derive(Clone, Copy)]
pub(crate) struct Rules<'a> {
    /// The rows.
    pub lines: &'a [IndexedRow<'a>],
    /// Where counters are cut.
    pub tops: Counters,
    /// The turns of the promise's watch.
    pub turns: &'a [WatchTurn<'a>],
}

/// Where a run begins, by the number of its state.
pub(crate) fn initial_configuration(first: usize) -> Configuration
    ensures { config_seen result ≡ begun first }
{
    Configuration {
        state: first,
        closed: false,
        counts: UNCOUNTED,
        watch: new_standing(),
    }
}

/// The state after a row.
fn next_place(next: Option<usize>, state: usize) -> usize
    ensures { result ≡ next_place next state }
{
    match next {
        None => state,
        Some(next) => next,
    }
}

/// Whether a row fits but for the job.
pub(crate) fn is_ready(line: &IndexedRow, one: &Configuration) -> bool
    ensures { result ≡ is_ready (line_seen line.now) (config_seen one.now) }
{
    !one.closed
        && ((line.any || line.state == one.state)
            && all_hold(line.row.conditions.get(), one.counts))
}

/// Where a row leads, if there is one.
pub(crate) fn stand(
    rules: &Rules,
    line: Option<&IndexedRow>,
    one: &Configuration,
    now: WatchState,
) -> Configuration
    requires { now.spent ≤ 2 ^ 62 }
    ensures { config_seen result ≡ stand_by rules.now.tops (map turn_seen rules.now.turns.now)
        (option_map (λ line. line_seen line.now) line.entry) (config_seen one.now) (standing_seen now) }
{
    match line {
        None => Configuration { watch: now, ..*one },
        Some(line) => Configuration {
            state: next_place(line.next, one.state),
            closed: line.closes,
            counts: cut_all(rules.tops, line.row.effects.get(), one.counts),
            watch: watch_after_commands(rules.turns, line.row.gives.get(), now),
        },
    }
}

/// Adds where a run and its watch may stand after a job that is of the pattern `known` and of none of
/// `passed`.
fn job_turns(
    found: &mut Vec<Configuration>,
    rules: &Rules,
    line: Option<&IndexedRow>,
    known: Option<&JobPattern<Text>>,
    passed: &[&JobPattern<Text>],
    one: &Configuration,
) -> Result<(), OutOfMemory>
    requires { one.now.watch.spent < 2 ^ 62 }
    ensures { OnOk result (map config_seen found.new.items ≡ map config_seen found.old.items
        ++ job_turns (stand_by rules.now.tops (map turn_seen rules.now.turns.now)
        (option_map (λ line. line_seen line.now) line.entry) (config_seen one.now))
        (map turn_seen rules.now.turns.now) (option_map (λ pattern. pattern.now) known.entry)
        (map (λ pattern. pattern.now) passed.now) (standing_seen one.now.watch)) }
{
    for turn in rules.turns {
        if turn.from == one.watch.at && may_happen(known, passed, turn.what) {
            found.push(stand(rules, line, one, watch_after_turn(turn, one.watch)))?;
            if must_happen(known, turn.what) {
                return Ok(());
            }
        }
    }
    found.push(stand(rules, line, one, one.watch))?;
    Ok(())
}

/// Adds where a row may lead at a job that is of none of `passed`, and passes its job on.
fn lead<'a>(
    found: &mut Vec<Configuration>,
    rules: &Rules,
    line: &IndexedRow<'a>,
    passed: &mut Vec<&'a JobPattern<Text>>,
    one: &Configuration,
) -> Result<(), OutOfMemory>
    requires { one.now.watch.spent < 2 ^ 62 }
    ensures { OnOk result (LeadsOn rules.now.tops (map turn_seen rules.now.turns.now) (config_seen one.now)
        (line_seen line.now) (map (λ pattern. pattern.now) passed.old.items) (map (λ pattern. pattern.now) passed.new.items)
        (map config_seen found.old.items) (map config_seen found.new.items)) }
{
    if !is_ready(line, one) {
        return Ok(());
    }
    if is_among(&line.row.job, passed.as_slice()) {
        return Ok(());
    }
    job_turns(
        found,
        rules,
        Some(line),
        Some(&line.row.job),
        passed.as_slice(),
        one,
    )?;
    passed.insert(0, &line.row.job)?;
    Ok(())
}

/// Adds where a job after the start may lead.
pub(crate) fn steps(
    alloc: Global,
    found: &mut Vec<Configuration>,
    rules: &Rules,
    one: &Configuration,
) -> Result<(), OutOfMemory>
    requires { one.now.watch.spent < 2 ^ 62 }
    ensures { OnOk result (map config_seen found.new.items ≡ map config_seen found.old.items
        ++ steps rules.now.tops (map turn_seen rules.now.turns.now) (map line_seen rules.now.lines.now) (config_seen one.now)) }
{
    let start = JobPattern::Start;
    let mut passed = Vec::new(alloc);
    passed.push(&start)?;
    for line in rules.lines {
        lead(found, rules, line, &mut passed, one)?;
    }
    job_turns(found, rules, None, None, passed.as_slice(), one)
}

/// The row that counts at the start, if there is one.
pub(crate) fn start_row<'a>(
    lines: &'a [IndexedRow<'a>],
    one: &Configuration,
) -> Option<&'a IndexedRow<'a>>
    ensures { option_map (λ line. line_seen line.now) result ≡ started (map line_seen lines.now) (config_seen one.now) }
{
    for line in lines {
        if is_ready(line, one) && covers(&line.row.job, &JobPattern::Start) {
            return Some(line);
        }
    }
    None
}

/// Adds where the start may lead.
pub(crate) fn starts(
    found: &mut Vec<Configuration>,
    rules: &Rules,
    one: &Configuration,
) -> Result<(), OutOfMemory>
    requires { one.now.watch.spent < 2 ^ 62 }
    ensures { OnOk result (map config_seen found.new.items ≡ map config_seen found.old.items
        ++ starts rules.now.tops (map turn_seen rules.now.turns.now) (map line_seen rules.now.lines.now) (config_seen one.now)) }
{
    let line = start_row(rules.lines, one);
    job_turns(found, rules, line, Some(&JobPattern::Start), &[], one)
}
