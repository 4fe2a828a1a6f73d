//! The promises of a table, and whether it keeps them.
ghost use Rattle.std.specs.Prelude.{◌≡◌, IfOk, Some, option_map};
ghost use Rattle.wh_row_rules.specs.Broken.{definition};
ghost use Rattle.serde_json.specs.View.{view};
ghost use Rattle.wh_promise_check.specs.Findings.{phrases_of, IsFound, AreFound, IsOutcome, IsDecided, AreDecided, AreFindingsOf};

use crate::reading::promise_in;
use serde_json::Value;
use std::alloc::Global;
use wh_events::{Items, OutOfMemory, Text};
use wh_json::field;
use wh_row_rules::{OrMemory, OwnedTable, PhraseFinding, PromiseFinding, PromiseFindings};
use wh_table_promises::{TablePromise, decide};
use wh_table_text::{TableFault, TableReading, phrases_at};

/// The most promises that a table may have.
pub const MOST_PROMISES: usize = 50;

/// The phrases of the member `promises` of a value. `None` if it is neither a text nor a list of
/// texts.
fn phrases_of(alloc: Global, value: &Value) -> Result<Option<Vec<Text>>, OutOfMemory>
    ensures { IfOk result (λ found. option_map (λ texts. texts.items) found ≡ phrases_of (view value.now)) }
{
    match phrases_at(alloc, TableFault::NoRows, field(Some(value), "promises")) {
        Ok(phrases) => Ok(Some(phrases)),
        Err(OrMemory::OutOfMemory) => Err(OutOfMemory),
        Err(OrMemory::Fault(_)) => Ok(None),
    }
}

/// What is found of a phrase that says a promise.
fn finding_of_promise(
    alloc: Global,
    table: &OwnedTable,
    promise: &TablePromise,
) -> Result<PhraseFinding, OutOfMemory>
    ensures { IfOk result (λ outcome. IsOutcome (definition table.now) (Some promise.now) outcome) }
{
    let verdict = decide(alloc, table, promise)?;
    Ok(PhraseFinding::Decided(verdict))
}

/// What is found if a phrase says this promise, or none.
fn outcome_by(
    alloc: Global,
    table: &OwnedTable,
    promise: Option<TablePromise>,
) -> Result<PhraseFinding, OutOfMemory>
    ensures { IfOk result (λ outcome. IsOutcome (definition table.now) promise outcome) }
{
    match promise {
        None => Ok(PhraseFinding::NoPromise),
        Some(promise) => {
            let outcome = finding_of_promise(alloc, table, &promise);
            drop(promise);
            outcome
        }
    }
}

/// What is found of a phrase.
fn outcome_of(alloc: Global, table: &OwnedTable, phrase: &str) -> Result<PhraseFinding, OutOfMemory>
    ensures { IfOk result (λ outcome. IsDecided (definition table.now) phrase.now outcome) }
{
    let promise = promise_in(alloc, phrase)?;
    outcome_by(alloc, table, promise)
}

/// The same, with the phrase.
fn finding_of(
    alloc: Global,
    table: &OwnedTable,
    phrase: &Text,
) -> Result<PromiseFinding, OutOfMemory>
    ensures { IfOk result (λ finding. IsFound (definition table.now) phrase.now finding) }
{
    let outcome = outcome_of(alloc, table, phrase.get())?;
    Ok(PromiseFinding {
        phrase: phrase.try_copy()?,
        outcome,
    })
}

/// What is found of each phrase.
fn findings_of(
    alloc: Global,
    table: &OwnedTable,
    phrases: &[Text],
) -> Result<Vec<PromiseFinding>, OutOfMemory>
    ensures { IfOk result (λ list. AreFound (definition table.now) phrases.now list.items) }
{
    let mut list = Vec::new(alloc);
    for phrase in phrases {
        let finding = finding_of(alloc, table, phrase)?;
        list.push(finding)?;
    }
    Ok(list)
}

/// Decides each promise of a table, of which a value in JSON (RFC 8259) has the member `promises`:
/// a phrase or a list of phrases. A table without the member has no promise. `OutOfMemory` if an
/// allocation was refused; nothing is left then.
pub fn check_promises(
    alloc: Global,
    value: &Value,
    table: &OwnedTable,
) -> Result<PromiseFindings, OutOfMemory>
    ensures { IfOk result (λ found. AreDecided (definition table.now) (phrases_of (view value.now)) found) }
{
    let Some(phrases) = phrases_of(alloc, value)? else {
        return Ok(PromiseFindings::NoPhrases);
    };
    if MOST_PROMISES < phrases.len() {
        return Ok(PromiseFindings::TooMany);
    }
    let list = findings_of(alloc, table, phrases.as_slice())?;
    Ok(PromiseFindings::Each(Items::new(list)))
}

/// Returns what is found of the promises of a table in a file that was read. If the file has a
/// fault as a table, there are none. `OutOfMemory` if an allocation was refused; nothing is left then.
pub fn promise_findings(
    alloc: Global,
    reading: &TableReading,
) -> Result<PromiseFindings, OutOfMemory>
    ensures { IfOk result (AreFindingsOf reading.now.table (option_map view reading.now.value)) }
{
    let Some(table) = &reading.table else {
        return Ok(PromiseFindings::Each(Items::new(Vec::new(alloc))));
    };
    match &reading.value {
        Some(value) => check_promises(alloc, value, table),
        None => Ok(PromiseFindings::NoPhrases),
    }
}
