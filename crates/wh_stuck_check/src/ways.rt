//! The moves that lead to a configuration that a search reached. Nothing rests on them.
use crate::config::{Configuration, Rules, is_ready, lead, stay};
use crate::found::is_same;
use crate::moves::{ServerMove, next_task};
use crate::search::Search;
use crate::situation::{after_pattern, copy_of};
use std::alloc::Global;
use wh_events::{OutOfMemory, Text};
use wh_possible_runs::Phase;
use wh_row_rules::covers;
use wh_rows::JobPattern;
use wh_table_lines::IndexedRow;
use wh_workflow::{ActivityEnd, ChildEnd, Job, no_payloads, text_of};

/// A number that is greater than that of the pattern, if it is for one version, and no less than this
/// one.
fn past_version(pattern: &JobPattern<Text>, least: i32) -> i32 {
    match pattern {
        JobPattern::Version(_, number) => {
            if least <= *number && *number < i32::MAX {
                *number + 1
            } else {
                least
            }
        }
        _ => least,
    }
}

/// A version that no row names.
fn other_version(lines: &[IndexedRow]) -> i32 {
    let mut version = 0;
    for line in lines {
        version = past_version(&line.row.job, version);
    }
    version
}

/// A job of the pattern: one of this version if it is for each.
fn job_of(alloc: Global, pattern: &JobPattern<Text>, version: i32) -> Result<Job, OutOfMemory> {
    Ok(match pattern {
        JobPattern::Start => Job::Start {
            workflow: text_of(alloc, "Table")?,
            input: no_payloads(alloc),
        },
        JobPattern::Signal(name) => Job::Signal {
            name: name.try_copy()?,
            input: no_payloads(alloc),
        },
        JobPattern::CancelRequested => Job::CancelRequested,
        JobPattern::Done(id) => Job::Activity {
            id: id.try_copy()?,
            end: ActivityEnd::Completed(no_payloads(alloc)),
        },
        JobPattern::NotDone(id) => Job::Activity {
            id: id.try_copy()?,
            end: ActivityEnd::Failed,
        },
        JobPattern::Fired(id) => Job::TimerFired { id: id.try_copy()? },
        JobPattern::ChildStarted(id) => Job::ChildStarted {
            workflow_id: id.try_copy()?,
        },
        JobPattern::ChildDone(id) => Job::Child {
            workflow_id: id.try_copy()?,
            end: ChildEnd::Completed(no_payloads(alloc)),
        },
        JobPattern::ChildCanceled(id) => Job::Child {
            workflow_id: id.try_copy()?,
            end: ChildEnd::Canceled,
        },
        JobPattern::ChildNotDone(id) => Job::Child {
            workflow_id: id.try_copy()?,
            end: ChildEnd::Failed,
        },
        JobPattern::Version(change, number) => Job::Version {
            change_id: change.try_copy()?,
            version: *number,
        },
        JobPattern::AnyVersion(change) => Job::Version {
            change_id: change.try_copy()?,
            version,
        },
    })
}

/// The first row that fits at a job of the pattern.
fn ready_line<'t, 'a>(
    lines: &'t [IndexedRow<'a>],
    pattern: &JobPattern<Text>,
    one: &Configuration,
) -> Option<&'t IndexedRow<'a>> {
    for line in lines {
        if is_ready(line, one) && covers(&line.row.job, pattern) {
            return Some(line);
        }
    }
    None
}

/// Whether a job of the pattern leads from one configuration to the other.
fn leads_to(
    rules: &Rules,
    pattern: &JobPattern<Text>,
    from: &Configuration,
    to: &Configuration,
) -> Result<bool, OutOfMemory> {
    let now = copy_of(&from.situation)?;
    let Some(now) = after_pattern(rules.names, pattern, now) else {
        return Ok(false);
    };
    let next = match ready_line(rules.lines, pattern, from) {
        Some(line) => lead(rules, line, from, now),
        None => stay(from, now),
    };
    Ok(is_same(&next, to))
}

/// The things that have ended where a task begins, if the next task leads from one configuration to
/// the other.
fn task_between(
    alloc: Global,
    rules: &Rules,
    from: &Configuration,
    to: &Configuration,
) -> Result<Option<Vec<bool>>, OutOfMemory> {
    let mut ended = Vec::new(alloc);
    for thing in &to.situation.things {
        ended.push(matches!(thing.phase, Phase::Ended))?;
    }
    let now = copy_of(&from.situation)?;
    let Some(now) = next_task(alloc, rules.names, ended.as_slice(), now)? else {
        return Ok(None);
    };
    Ok(if is_same(&stay(from, now), to) {
        Some(ended)
    } else {
        None
    })
}

/// The job of a row that leads from one configuration to the other, if one does.
fn row_job_between(
    alloc: Global,
    rules: &Rules,
    from: &Configuration,
    to: &Configuration,
) -> Result<Option<Job>, OutOfMemory> {
    for line in rules.lines {
        let pattern = &line.row.job;
        if !matches!(pattern, JobPattern::Start) && leads_to(rules, pattern, from, to)? {
            return Ok(Some(job_of(alloc, pattern, other_version(rules.lines))?));
        }
    }
    Ok(None)
}

/// The job that tells of a thing, or the cancel request, that leads from one configuration to the
/// other, if one does.
fn other_job_between(
    alloc: Global,
    rules: &Rules,
    from: &Configuration,
    to: &Configuration,
) -> Result<Option<Job>, OutOfMemory> {
    for pattern in rules.patterns {
        if leads_to(rules, pattern, from, to)? {
            return Ok(Some(job_of(alloc, pattern, 0)?));
        }
    }
    if leads_to(rules, &JobPattern::CancelRequested, from, to)? {
        return Ok(Some(Job::CancelRequested));
    }
    Ok(None)
}

/// The move that leads from one configuration to the other, if one is found.
fn move_between(
    alloc: Global,
    rules: &Rules,
    from: &Configuration,
    to: &Configuration,
) -> Result<Option<ServerMove>, OutOfMemory> {
    if let Some(ended) = task_between(alloc, rules, from, to)? {
        return Ok(Some(ServerMove::NextTask(ended)));
    }
    if let Some(job) = row_job_between(alloc, rules, from, to)? {
        return Ok(Some(ServerMove::GivesJob(job)));
    }
    match other_job_between(alloc, rules, from, to)? {
        Some(job) => Ok(Some(ServerMove::GivesJob(job))),
        None => Ok(None),
    }
}

/// The numbers of the configurations from the first one to that of this number.
fn way_to(alloc: Global, origins: &[usize], index: usize) -> Result<Vec<usize>, OutOfMemory> {
    let mut way = Vec::new(alloc);
    way.push(index)?;
    let mut index = index;
    for _step in 0..origins.len() {
        if 0 < index && index < origins.len() {
            index = origins[index];
            way.insert(0, index)?;
        }
    }
    Ok(way)
}

/// The moves that lead to the configuration of this number, if they are found.
pub(crate) fn moves_to(
    alloc: Global,
    rules: &Rules,
    search: &Search,
    index: usize,
) -> Result<Option<Vec<ServerMove>>, OutOfMemory> {
    let configs = search.found.configs.as_slice();
    let way = way_to(alloc, search.origins.as_slice(), index)?;
    let mut moves = Vec::new(alloc);
    moves.push(ServerMove::GivesJob(job_of(alloc, &JobPattern::Start, 0)?))?;
    for place in 1..way.len() {
        if configs.len() <= way[place] || configs.len() <= way[place - 1] {
            return Ok(None);
        }
        match move_between(alloc, rules, &configs[way[place - 1]], &configs[way[place]])? {
            Some(one) => moves.push(one)?,
            None => return Ok(None),
        }
    }
    Ok(Some(moves))
}
