//! Reads the rows of a table.
ghost use Rattle.std.specs.Prelude.{◌≡◌, map, option_map};
ghost use Rattle.serde_json.specs.View.{view};
ghost use Rattle.wh_row_rules.specs.Outcome.{Gives, all_of};
ghost use Rattle.wh_table_text.specs.Phrases.{pattern_shown};
ghost use Rattle.wh_table_text.specs.Reading.{cell, job_at, is_short_list, or_same, row_at, rows_from};
ghost use Rattle.wh_table_text.specs.Reading.{few_phrases, templates_at, conditions_at, effects_at};
ghost use Rattle.wh_table_text.specs.RowParts.{row_with};

use crate::copies::{pattern_copy, text_pair};
use crate::counters::NamedCounter;
use crate::fault::{ReadResult, RowFault, TableFault};
use crate::lists::{each_condition, each_effect, each_template, in_row, phrases_at};
use crate::phrases::pattern_of;
use crate::verbs::job_verb;
use crate::words::PhraseWords;
use serde_json::Value;
use std::alloc::Global;
use wh_events::{Items, Text};
use wh_json::list_in;
use wh_row_rules::{OrMemory, OwnedRow};
use wh_rows::{CommandTemplate, Condition, JobPattern, RowEffect, RowOf};

/// The most conditions, and the most marks, of a row.
const MOST_PHRASES: usize = 16;

/// Returns the text of a member of a row, empty if it is omitted.
#[tactic(auto, unfolding(crate::specs::Reading::cell))]
fn cell(row: u64, index: usize, value: &Value) -> ReadResult<&str>
    ensures { Gives (λ text. text.now) result (cell row index (view value.now)) }
{
    let Some(member) = value.get(index) else {
        return Ok("");
    };
    match member.as_str() {
        Some(text) => Ok(text),
        None => Err(OrMemory::Fault(in_row(row, RowFault::NotText))),
    }
}

/// Returns the jobs that a text describes.
#[tactic(auto, unfolding(crate::specs::Reading::job_at))]
fn job_at(row: u64, text: &str) -> ReadResult<JobPattern<&str>>
    ensures { Gives pattern_shown result (job_at row text.now) }
{
    let phrase = PhraseWords::of(text);
    let Some(verb) = job_verb(phrase.verb) else {
        return Err(OrMemory::Fault(in_row(row, RowFault::UnknownJob)));
    };
    match pattern_of(verb, &phrase) {
        Some(pattern) => Ok(pattern),
        None => Err(OrMemory::Fault(in_row(row, RowFault::UnknownJob))),
    }
}

/// Returns the jobs that a text describes, for the row of this number. `UnknownJob` of that row if
/// it describes none, or `OutOfMemory`.
pub fn own_job_at(
    alloc: Global,
    row: u64,
    text: &str,
) -> Result<JobPattern<Text>, OrMemory<TableFault>>
    ensures { Gives (λ pattern. pattern) result (job_at row text.now) }
{
    let pattern = job_at(row, text)?;
    pattern_copy(alloc, &pattern)
}

/// Returns the commands of a row.
#[tactic(auto, unfolding(crate::specs::Reading::templates_at))]
fn templates_at(
    alloc: Global,
    row: u64,
    value: Option<&Value>,
) -> ReadResult<Vec<CommandTemplate<Text>>>
    ensures { Gives (λ given. given.items) result (templates_at row (option_map (λ v. view v.now) value.entry)) }
{
    let texts = phrases_at(alloc, in_row(row, RowFault::NotText), value)?;
    each_template(alloc, row, texts.as_slice())
}

/// Returns the phrases of the conditions, or of the marks, of a row.
#[tactic(auto, unfolding(crate::specs::Reading::few_phrases))]
fn few_phrases(alloc: Global, row: u64, value: Option<&Value>) -> ReadResult<Vec<Text>>
    ensures { Gives (λ texts. texts.items) result (few_phrases row (option_map (λ v. view v.now) value.entry)) }
{
    let texts = phrases_at(alloc, in_row(row, RowFault::NotText), value)?;
    if MOST_PHRASES < texts.len() {
        return Err(OrMemory::Fault(in_row(row, RowFault::TooManyPhrases)));
    }
    Ok(texts)
}

/// Returns the conditions of a row.
#[tactic(auto, unfolding(crate::specs::Reading::conditions_at))]
fn conditions_at(
    alloc: Global,
    row: u64,
    names: &[NamedCounter],
    value: Option<&Value>,
) -> ReadResult<Vec<Condition>>
    ensures { Gives (λ given. given.items) result
        (conditions_at names.now row (option_map (λ v. view v.now) value.entry)) }
{
    let texts = few_phrases(alloc, row, value)?;
    each_condition(alloc, row, names, texts.as_slice())
}

/// Returns the marks of a row.
#[tactic(auto, unfolding(crate::specs::Reading::effects_at))]
fn effects_at(
    alloc: Global,
    row: u64,
    names: &[NamedCounter],
    value: Option<&Value>,
) -> ReadResult<Vec<RowEffect>>
    ensures { Gives (λ given. given.items) result
        (effects_at names.now row (option_map (λ v. view v.now) value.entry)) }
{
    let texts = few_phrases(alloc, row, value)?;
    each_effect(alloc, row, names, texts.as_slice())
}

/// Returns whether the value is a list of at most six members.
fn is_short_list(value: &Value) -> bool
    ensures { result ≡ is_short_list (view value.now) }
{
    match list_in(value) {
        Some(values) => values.len() <= 6,
        None => false,
    }
}

/// Returns the name of the next state: the text, or `same` if it is empty.
fn or_same(text: &str) -> &str
    ensures { result.now ≡ or_same text.now }
{
    if text.is_empty() { "same" } else { text }
}

/// Returns the row that a value describes, with this number, state and job.
fn row_with(
    alloc: Global,
    row: u64,
    names: &[NamedCounter],
    value: &Value,
    state: &str,
    job: JobPattern<Text>,
) -> ReadResult<OwnedRow>
    ensures { Gives (λ row. row) result (row_with names.now row (view value.now) state.now job) }
{
    let conditions = conditions_at(alloc, row, names, value.get(2usize))?;
    let gives = templates_at(alloc, row, value.get(3usize))?;
    let next = cell(row, 4, value)?;
    let effects = effects_at(alloc, row, names, value.get(5usize))?;
    let (state, next) = text_pair(alloc, state, or_same(next))?;
    Ok(RowOf {
        state,
        job,
        conditions: Items::new(conditions),
        gives: Items::new(gives),
        effects: Items::new(effects),
        next,
    })
}

/// Returns the row that a value describes, with this number.
#[tactic(auto, unfolding(crate::specs::Reading::row_at))]
pub(crate) fn row_at(
    alloc: Global,
    row: u64,
    names: &[NamedCounter],
    value: &Value,
) -> ReadResult<OwnedRow>
    ensures { Gives (λ row. row) result (row_at names.now row (view value.now)) }
{
    if !is_short_list(value) {
        return Err(OrMemory::Fault(in_row(row, RowFault::NotARow)));
    }
    let state = cell(row, 0, value)?;
    let job = own_job_at(alloc, row, cell(row, 1, value)?)?;
    row_with(alloc, row, names, value, state, job)
}

/// Returns the rows that the values of a list describe, numbered from 1.
pub(crate) fn each_row(
    alloc: Global,
    names: &[NamedCounter],
    values: &[Value],
) -> ReadResult<Vec<OwnedRow>>
    ensures { Gives (λ rows. rows.items) result (all_of (rows_from names.now 1 (map view values.now))) }
{
    let mut rows = Vec::new(alloc);
    for (index, value) in values.iter().enumerate() {
        let row = row_at(alloc, index as u64 + 1, names, value)?;
        rows.push(row)?;
    }
    Ok(rows)
}
