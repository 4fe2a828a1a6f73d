//! The jobs that a search for a path tries.
use crate::promise::Happening;
use crate::watch::WatchTurn;
use std::alloc::{AllocError, Global};
use wh_author_tools::job_of;
use wh_events::{OutOfMemory, Text};
use wh_row_rules::{covers, text_of};
use wh_rows::{JobPattern, Naming};
use wh_table_lines::IndexedRow;

/// A job that a search tries.
#[derive(Drop)]
pub(crate) struct Candidate<'a> {
    /// What it is.
    pub pattern: &'a JobPattern<Text>,
    /// Its words in a scenario.
    pub words: Text,
    /// The rows that are for it.
    pub lines: Vec<IndexedRow<'a>>,
}

/// The name of a run that is started with nothing.
pub(crate) fn name_of(naming: &Naming<Text>) -> &str {
    match naming {
        Naming::Nameless => "",
        Naming::ByPayload(_, _, other) => other.get(),
    }
}

/// A number that is greater than that of the pattern, if it is for one version, and no less than this
/// one.
fn past_version(pattern: &JobPattern<Text>, least: i32) -> i32 {
    match pattern {
        JobPattern::Version(_, number) => {
            if least <= *number && *number < i32::MAX {
                *number + 1
            } else {
                least
            }
        }
        _ => least,
    }
}

/// A version that no pattern names.
fn other_version(patterns: &[&JobPattern<Text>]) -> i32 {
    let mut version = 0;
    for pattern in patterns {
        version = past_version(pattern, version);
    }
    version
}

/// The words of a job that the pattern is for, in a run of that name.
fn words_of(
    alloc: Global,
    pattern: &JobPattern<Text>,
    name: &str,
    version: i32,
) -> Result<Text, AllocError> {
    let text = text_of(pattern);
    let id = if text == "@" { name } else { text };
    Ok(Text::new(match pattern {
        JobPattern::Start => format!(in alloc; "start")?,
        JobPattern::CancelRequested => format!(in alloc; "cancel")?,
        JobPattern::Signal(_) => format!(in alloc; "signal {id}")?,
        JobPattern::Done(_) => format!(in alloc; "done {id}")?,
        JobPattern::NotDone(_) => format!(in alloc; "failed {id}")?,
        JobPattern::Fired(_) => format!(in alloc; "fired {id}")?,
        JobPattern::ChildStarted(_) => format!(in alloc; "child-started {id}")?,
        JobPattern::ChildDone(_) => format!(in alloc; "child-done {id}")?,
        JobPattern::ChildCanceled(_) => format!(in alloc; "child-canceled {id}")?,
        JobPattern::ChildNotDone(_) => format!(in alloc; "child-failed {id}")?,
        JobPattern::Version(_, number) => format!(in alloc; "version {id} {number}")?,
        JobPattern::AnyVersion(_) => format!(in alloc; "version {id} {version}")?,
    }))
}

/// Whether the patterns are for the same jobs.
fn are_same(one: &JobPattern<Text>, other: &JobPattern<Text>) -> bool {
    covers(one, other) && covers(other, one)
}

/// Whether one of the patterns is for the same jobs, or it is for the start, which comes once.
fn is_taken(patterns: &[&JobPattern<Text>], wanted: &JobPattern<Text>) -> bool {
    for pattern in patterns {
        if are_same(pattern, wanted) {
            return true;
        }
    }
    matches!(wanted, JobPattern::Start)
}

/// The patterns of rows and of turns, each once.
fn patterns_of<'a>(
    alloc: Global,
    lines: &[IndexedRow<'a>],
    turns: &[WatchTurn<'a>],
) -> Result<Vec<&'a JobPattern<Text>>, OutOfMemory> {
    let mut patterns = Vec::new(alloc);
    for line in lines {
        if !is_taken(patterns.as_slice(), &line.row.job) {
            patterns.push(&line.row.job)?;
        }
    }
    for turn in turns {
        if let Happening::Comes(pattern) = turn.what {
            if !is_taken(patterns.as_slice(), pattern) {
                patterns.push(pattern)?;
            }
        }
    }
    Ok(patterns)
}

/// The rows that are for a job of the pattern.
fn lines_for<'a>(
    alloc: Global,
    lines: &[IndexedRow<'a>],
    pattern: &JobPattern<Text>,
) -> Result<Vec<IndexedRow<'a>>, OutOfMemory> {
    let mut chosen = Vec::new(alloc);
    for line in lines {
        if covers(&line.row.job, pattern) {
            chosen.push(*line)?;
        }
    }
    Ok(chosen)
}

/// The jobs that a search tries: those of the rows and of the promise that a scenario can write.
pub(crate) fn candidates_of<'a>(
    alloc: Global,
    naming: &Naming<Text>,
    lines: &[IndexedRow<'a>],
    turns: &[WatchTurn<'a>],
) -> Result<Vec<Candidate<'a>>, OutOfMemory> {
    let patterns = patterns_of(alloc, lines, turns)?;
    let version = other_version(patterns.as_slice());
    let mut candidates = Vec::new(alloc);
    for pattern in &patterns {
        let words = words_of(alloc, pattern, name_of(naming), version)?;
        if job_of(alloc, "Table", words.get())?.is_some() {
            let lines = lines_for(alloc, lines, pattern)?;
            candidates.push(Candidate {
                pattern: *pattern,
                words,
                lines,
            })?;
        }
    }
    Ok(candidates)
}
