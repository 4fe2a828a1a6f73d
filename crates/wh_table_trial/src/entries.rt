//! Splits a scenario into entries.
ghost use Rattle.std.specs.Prelude.{◌≡◌, ◌++◌, IfOk, OnOk, map, option_map};
ghost use Rattle.std.specs.Str.Lines.{lines};
ghost use Rattle.wh_table_text.specs.Numbered.{numbered};
ghost use Rattle.wh_table_trial.specs.Entries.{entry_of, part_entries, line_end, sides_entries, line_entries, place_entries, scenario_entries};

use std::alloc::Global;
use wh_author_tools::{at_arrow, job_of, lines_of, parts_at};
use wh_events::{OutOfMemory, Text};
use wh_workflow::{Job, text_of};

/// An entry of a scenario. Lines are counted from 1.
#[derive(Drop)]
pub(crate) enum Entry {
    /// A job.
    Told {
        /// The words of the job.
        words: Text,
        /// The job.
        job: Job,
    },
    /// Words that are not a job.
    NoJob {
        /// The number of the line.
        line: usize,
        /// The words.
        words: Text,
    },
    /// The end of a line.
    LineEnd {
        /// The number of the line.
        line: usize,
        /// The commands that the line expects for its jobs, if it has an arrow.
        wanted: Option<Text>,
    },
}

/// Returns the entry of these words in the line of this number: a job, or words that are not one.
fn entry_of(alloc: Global, line: usize, words: &str) -> Result<Entry, OutOfMemory>
    ensures { IfOk result (λ entry. entry ≡ entry_of line words.now) }
{
    let words = words.trim();
    match job_of(alloc, "Table", words)? {
        Some(job) => Ok(Entry::Told {
            words: text_of(alloc, words)?,
            job,
        }),
        None => Ok(Entry::NoJob {
            line,
            words: text_of(alloc, words)?,
        }),
    }
}

/// Adds the entries of the parts of the line of this number.
fn add_parts(
    alloc: Global,
    entries: &mut Vec<Entry>,
    line: usize,
    parts: &[&str],
) -> Result<(), OutOfMemory>
    ensures { OnOk result (entries.new.items
        ≡ entries.old.items ++ map (entry_of line) (map (λ part. part.now) parts.now)) }
{
    for part in parts {
        let entry = entry_of(alloc, line, part)?;
        entries.push(entry)?;
    }
    Ok(())
}

/// Adds the entries of words that are separated by semicolons, in the line of this number.
fn add_jobs(
    alloc: Global,
    entries: &mut Vec<Entry>,
    line: usize,
    words: &str,
) -> Result<(), OutOfMemory>
    ensures { OnOk result (entries.new.items ≡ entries.old.items ++ part_entries line words.now) }
{
    let parts = parts_at(alloc, words, ';')?;
    add_parts(alloc, entries, line, parts.as_slice())
}

/// Returns the commands that a line expects, if it has an arrow.
fn wanted_of(alloc: Global, wanted: Option<&str>) -> Result<Option<Text>, OutOfMemory>
    ensures { IfOk result (λ text. text ≡ option_map (λ words. words.now) wanted.entry) }
{
    match wanted {
        Some(words) => Ok(Some(text_of(alloc, words)?)),
        None => Ok(None),
    }
}

/// Adds the end of the line of this number.
fn add_end(
    alloc: Global,
    entries: &mut Vec<Entry>,
    line: usize,
    wanted: Option<&str>,
) -> Result<(), OutOfMemory>
    ensures { OnOk result (entries.new.items
        ≡ entries.old.items ++ line_end line (option_map (λ words. words.now) wanted.entry)) }
{
    let wanted = wanted_of(alloc, wanted)?;
    entries.push(Entry::LineEnd { line, wanted })?;
    Ok(())
}

/// Adds the entries of the line of this number, which is not blank.
fn add_sides(
    alloc: Global,
    entries: &mut Vec<Entry>,
    line: usize,
    words: &str,
) -> Result<(), OutOfMemory>
    ensures { OnOk result (entries.new.items ≡ entries.old.items ++ sides_entries line words.now) }
{
    match at_arrow(words) {
        Some((jobs, wanted)) => {
            add_jobs(alloc, entries, line, jobs)?;
            add_end(alloc, entries, line, Some(wanted.trim()))
        }
        None => {
            add_jobs(alloc, entries, line, words)?;
            add_end(alloc, entries, line, None)
        }
    }
}

/// Adds the entries of the line of this number; a blank line has none.
fn add_line(
    alloc: Global,
    entries: &mut Vec<Entry>,
    line: usize,
    words: &str,
) -> Result<(), OutOfMemory>
    ensures { OnOk result (entries.new.items ≡ entries.old.items ++ line_entries line words.now) }
{
    if words.trim().is_empty() {
        return Ok(());
    }
    add_sides(alloc, entries, line, words)
}

/// Returns the entries of these lines.
fn lines_entries(alloc: Global, lines: &[&str]) -> Result<Vec<Entry>, OutOfMemory>
    ensures { IfOk result (λ entries.
        entries.items ≡ numbered place_entries 0 (map (λ line. line.now) lines.now)) }
{
    let mut entries = Vec::new(alloc);
    for (place, line) in lines.iter().enumerate() {
        add_line(alloc, &mut entries, place + 1, line)?;
    }
    Ok(entries)
}

/// Returns the entries of a scenario.
pub(crate) fn scenario_entries(alloc: Global, scenario: &str) -> Result<Vec<Entry>, OutOfMemory>
    ensures { IfOk result (λ entries. entries.items ≡ scenario_entries scenario.now) }
{
    let lines = lines_of(alloc, scenario)?;
    lines_entries(alloc, lines.as_slice())
}
