//! Configurations, and those that a job or the next task leads to.
ghost use Rattle.std.specs.Prelude.{◌≡◌, ◌++◌, IfOk, OnOk, [], ◌∷◌, map, option_map};
ghost use Rattle.wh_rows.specs.Deciding.{next_place};
ghost use Rattle.wh_rows.specs.declared.row.JobPattern.TheVariants as patterns;
ghost use Rattle.wh_table_lines.specs.Lines.{line_seen};
ghost use Rattle.wh_possible_runs.specs.Configurations.{begun, is_ready, stays, led, patterns_of, all_patterns, each_told, unmatched, leads, starts, steps};
ghost use Rattle.wh_stuck_check.specs.Private.Seen.{name_seen, situation_seen};
ghost use Rattle.wh_stuck_check.specs.Private.Configs.{config_seen, one_told, answered, started, LeadsOn};

use crate::names::ThingName;
use crate::situation::{
    Situation, after_news, after_pattern, copy_of, give_templates, new_situation,
};
use crate::tasks::add_next_tasks;
use std::alloc::Global;
use wh_events::{OutOfMemory, Text, Thing};
use wh_row_rules::{covers, is_among};
use wh_rows::{Counters, JobPattern, UNCOUNTED, all_hold};
use wh_table_lines::{IndexedRow, cut_all};

/// A configuration: the state of a run, and what it knows.
#[derive(Drop)]
pub(crate) struct Configuration {
    /// The number of its state.
    pub state: usize,
    /// Whether it is closed.
    pub closed: bool,
    /// Its counters, cut.
    pub counts: Counters,
    /// What it knows in the task.
    pub situation: Situation,
}

/// What is asked of a table.
#[derive(Clone, Copy)]
pub(crate) struct Rules<'a> {
    /// The rows.
    pub lines: &'a [IndexedRow<'a>],
    /// Where counters are cut.
    pub tops: Counters,
    /// The names of the things that the rows open or cancel.
    pub names: &'a [ThingName<'a>],
    /// The patterns of the jobs that tell of them.
    pub patterns: &'a [JobPattern<Text>],
}

/// The configuration in which a run begins, by the number of its state.
pub(crate) fn initial_configuration(
    alloc: Global,
    names: &[ThingName],
    first: usize,
) -> Result<Configuration, OutOfMemory>
    ensures { IfOk result (λ one. config_seen one ≡ begun (map name_seen names.now) first) }
{
    Ok(Configuration {
        state: first,
        closed: false,
        counts: UNCOUNTED,
        situation: new_situation(alloc, names)?,
    })
}

/// Adds the patterns of the jobs that tell of a thing.
fn add_patterns(
    patterns: &mut Vec<JobPattern<Text>>,
    thing: Thing,
    id: &Text,
) -> Result<(), OutOfMemory>
    ensures { OnOk result (patterns.new.items ≡ patterns.old.items ++ patterns_of thing id.now) }
{
    match thing {
        Thing::Activity => {
            patterns.push(JobPattern::Done(id.try_copy()?))?;
            patterns.push(JobPattern::NotDone(id.try_copy()?))?;
        }
        Thing::Timer => patterns.push(JobPattern::Fired(id.try_copy()?))?,
        Thing::Child => {
            patterns.push(JobPattern::ChildStarted(id.try_copy()?))?;
            patterns.push(JobPattern::ChildDone(id.try_copy()?))?;
            patterns.push(JobPattern::ChildNotDone(id.try_copy()?))?;
        }
        Thing::CancelRequest => {}
        Thing::SignalRequest => {}
    }
    Ok(())
}

/// The patterns of the jobs that tell of things.
pub(crate) fn all_patterns(
    alloc: Global,
    names: &[ThingName],
) -> Result<Vec<JobPattern<Text>>, OutOfMemory>
    ensures { IfOk result (λ patterns. patterns.items ≡ all_patterns (map name_seen names.now)) }
{
    let mut patterns = Vec::new(alloc);
    for name in names {
        add_patterns(&mut patterns, name.thing, name.id)?;
    }
    Ok(patterns)
}

/// Whether a row fits but for the job.
pub(crate) fn is_ready(line: &IndexedRow, one: &Configuration) -> bool
    ensures { result ≡ is_ready (line_seen line.now) (config_seen one.now) }
{
    !one.closed
        && ((line.any || line.state == one.state)
            && all_hold(line.row.conditions.get(), one.counts))
}

/// The configuration in which only what the run knows changes.
pub(crate) fn stay(one: &Configuration, now: Situation) -> Configuration
    ensures { config_seen result ≡ stays (config_seen one.now) (situation_seen now) }
{
    Configuration {
        state: one.state,
        closed: one.closed,
        counts: one.counts,
        situation: now,
    }
}

/// The state after a row.
fn next_place(next: Option<usize>, state: usize) -> usize
    ensures { result ≡ next_place next state }
{
    match next {
        None => state,
        Some(next) => next,
    }
}

/// The configuration after a row.
pub(crate) fn lead(
    rules: &Rules,
    line: &IndexedRow,
    one: &Configuration,
    now: Situation,
) -> Configuration
    ensures { config_seen result ≡ led (map name_seen rules.now.names.now) rules.now.tops (line_seen line.now)
        (config_seen one.now) (situation_seen now) }
{
    let mut now = now;
    give_templates(rules.names, line.row.gives.get(), &mut now);
    Configuration {
        state: next_place(line.next, one.state),
        closed: line.closes,
        counts: cut_all(rules.tops, line.row.effects.get(), one.counts),
        situation: now,
    }
}

/// Adds what comes of a job of the pattern, unless `passed` has it.
fn add_told(
    found: &mut Vec<Configuration>,
    rules: &Rules,
    pattern: &JobPattern<Text>,
    passed: &[&JobPattern<Text>],
    one: &Configuration,
) -> Result<(), OutOfMemory>
    ensures { OnOk result (map config_seen found.new.items ≡ map config_seen found.old.items
        ++ one_told (stays (config_seen one.now)) (map name_seen rules.now.names.now) pattern.now
        (map (λ pattern. pattern.now) passed.now) (situation_seen one.now.situation)) }
{
    if is_among(pattern, passed) {
        return Ok(());
    }
    let now = copy_of(&one.situation)?;
    if let Some(now) = after_news(rules.names, pattern, now) {
        found.push(stay(one, now))?;
    }
    Ok(())
}

/// Adds what comes of jobs that tell of things and match none of `passed`.
fn add_each_told(
    found: &mut Vec<Configuration>,
    rules: &Rules,
    passed: &[&JobPattern<Text>],
    one: &Configuration,
) -> Result<(), OutOfMemory>
    ensures { OnOk result (map config_seen found.new.items ≡ map config_seen found.old.items
        ++ each_told (stays (config_seen one.now)) (map name_seen rules.now.names.now) rules.now.patterns.now
        (map (λ pattern. pattern.now) passed.now) (situation_seen one.now.situation)) }
{
    for pattern in rules.patterns {
        add_told(found, rules, pattern, passed, one)?;
    }
    Ok(())
}

/// Adds what comes of a job that matches none of `passed`.
fn add_unmatched(
    found: &mut Vec<Configuration>,
    rules: &Rules,
    passed: &[&JobPattern<Text>],
    one: &Configuration,
) -> Result<(), OutOfMemory>
    requires { rules.now.patterns.now ≡ all_patterns (map name_seen rules.now.names.now) }
    ensures { OnOk result (map config_seen found.new.items ≡ map config_seen found.old.items
        ++ unmatched (stays (config_seen one.now)) (map name_seen rules.now.names.now)
        (map (λ pattern. pattern.now) passed.now) (situation_seen one.now.situation)) }
{
    let now = copy_of(&one.situation)?;
    if one.situation.awaits_version {
        found.push(stay(
            one,
            Situation {
                awaits_version: false,
                ..now
            },
        ))?;
        return Ok(());
    }
    found.push(stay(one, now))?;
    let now = copy_of(&one.situation)?;
    found.push(stay(
        one,
        Situation {
            takes_signals: false,
            ..now
        },
    ))?;
    add_each_told(found, rules, passed, one)
}

/// Adds where a row leads, if a server gives a job of its pattern.
fn add_answer(
    found: &mut Vec<Configuration>,
    rules: &Rules,
    line: &IndexedRow,
    one: &Configuration,
) -> Result<(), OutOfMemory>
    ensures { OnOk result (map config_seen found.new.items ≡ map config_seen found.old.items
        ++ answered (map name_seen rules.now.names.now) rules.now.tops (line_seen line.now) (config_seen one.now)) }
{
    let now = copy_of(&one.situation)?;
    if let Some(now) = after_pattern(rules.names, &line.row.job, now) {
        found.push(lead(rules, line, one, now))?;
    }
    Ok(())
}

/// Adds where a row may lead at a job that is of none of `passed`, and passes its job on.
fn add_lead<'a>(
    found: &mut Vec<Configuration>,
    rules: &Rules,
    line: &IndexedRow<'a>,
    passed: &mut Vec<&'a JobPattern<Text>>,
    one: &Configuration,
) -> Result<(), OutOfMemory>
    ensures { OnOk result (LeadsOn (map name_seen rules.now.names.now) rules.now.tops (config_seen one.now)
        (line_seen line.now) (map (λ pattern. pattern.now) passed.old.items) (map (λ pattern. pattern.now) passed.new.items)
        (map config_seen found.old.items) (map config_seen found.new.items)) }
{
    if !is_ready(line, one) {
        return Ok(());
    }
    if is_among(&line.row.job, passed.as_slice()) {
        return Ok(());
    }
    add_answer(found, rules, line, one)?;
    passed.insert(0, &line.row.job)?;
    Ok(())
}

/// Adds where a job after the start may lead.
fn add_leads(
    alloc: Global,
    found: &mut Vec<Configuration>,
    rules: &Rules,
    one: &Configuration,
) -> Result<(), OutOfMemory>
    requires { rules.now.patterns.now ≡ all_patterns (map name_seen rules.now.names.now) }
    ensures { OnOk result (map config_seen found.new.items ≡ map config_seen found.old.items
        ++ leads (map name_seen rules.now.names.now) rules.now.tops (map line_seen rules.now.lines.now)
        (patterns.Start ∷ []) (config_seen one.now)) }
{
    let start = JobPattern::Start;
    let mut passed = Vec::new(alloc);
    passed.push(&start)?;
    for line in rules.lines {
        add_lead(found, rules, line, &mut passed, one)?;
    }
    add_unmatched(found, rules, passed.as_slice(), one)
}

/// Adds where a job after the start or the next task may lead.
pub(crate) fn steps(
    alloc: Global,
    found: &mut Vec<Configuration>,
    rules: &Rules,
    one: &Configuration,
) -> Result<(), OutOfMemory>
    requires { rules.now.patterns.now ≡ all_patterns (map name_seen rules.now.names.now) }
    ensures { OnOk result (map config_seen found.new.items ≡ map config_seen found.old.items
        ++ steps (map name_seen rules.now.names.now) rules.now.tops (map line_seen rules.now.lines.now) (config_seen one.now)) }
{
    add_leads(alloc, found, rules, one)?;
    add_next_tasks(alloc, found, rules, one)
}

/// The row that counts at the start, if there is one.
fn start_row<'a>(lines: &'a [IndexedRow<'a>], one: &Configuration) -> Option<&'a IndexedRow<'a>>
    ensures { option_map (λ line. line_seen line.now) result ≡ started (map line_seen lines.now) (config_seen one.now) }
{
    for line in lines {
        if is_ready(line, one) && covers(&line.row.job, &JobPattern::Start) {
            return Some(line);
        }
    }
    None
}

/// Where the start leads.
pub(crate) fn after_start(rules: &Rules, one: &Configuration) -> Result<Configuration, OutOfMemory>
    ensures { IfOk result (λ next. config_seen next ∷ []
        ≡ starts (map name_seen rules.now.names.now) rules.now.tops (map line_seen rules.now.lines.now) (config_seen one.now)) }
{
    let now = copy_of(&one.situation)?;
    match start_row(rules.lines, one) {
        Some(line) => Ok(lead(rules, line, one, now)),
        None => Ok(stay(one, now)),
    }
}
