//! Leaves out the warnings that a table allows.
ghost use Rattle.std.specs.Prelude.{◌≡◌, ◌++◌, not, IfOk, OnOk, codes, filter, map, option_map, string_bytes};
ghost use Rattle.std.specs.List.{list_any};
ghost use Rattle.serde_json.specs.View.{view};
ghost use Rattle.wh_table_check.specs.Allowed.{up_to_most, allowed_texts, place_words, has_text, is_allowed, is_stale, stale_finding, stale_findings, not_allowed, allowing, allowing_none, after_allowing};

use crate::finding::{TableFinding, finding_about};
use serde_json::Value;
use std::alloc::{AllocError, Global};
use wh_events::{OutOfMemory, Text};
use wh_json::field;
use wh_row_rules::OrMemory;
use wh_table_text::{TableFault, phrases_at};

/// The most warnings that a table may allow.
const MOST_ALLOWED: usize = 50;

/// Returns the texts, unless there are too many.
fn up_to_most(texts: Vec<Text>) -> Option<Vec<Text>>
    ensures { option_map (λ few. few.items) result ≡ up_to_most texts.items }
{
    if MOST_ALLOWED < texts.len() {
        None
    } else {
        Some(texts)
    }
}

/// Returns the warnings that a table with this value allows, each as `check` words it without the
/// number of its row. `None` if they are neither a text nor a list of texts, or too many.
fn allowed_texts(alloc: Global, value: Option<&Value>) -> Result<Option<Vec<Text>>, OutOfMemory>
    ensures { IfOk result (λ found. option_map (λ texts. texts.items) found
        ≡ allowed_texts (option_map (λ v. view v.now) value.entry)) }
{
    match phrases_at(alloc, TableFault::NoRows, field(value, "allow")) {
        Ok(texts) => Ok(up_to_most(texts)),
        Err(OrMemory::OutOfMemory) => Err(OutOfMemory),
        Err(OrMemory::Fault(_)) => Ok(None),
    }
}

/// Returns what a finding's text begins with: the number of its row, if it is about one.
fn place_words(alloc: Global, row: Option<u64>) -> Result<String, AllocError>
    ensures { IfOk result (λ text. string_bytes text ≡ place_words row) }
{
    match row {
        Some(row) => format!(in alloc; "row {row}: "),
        None => Ok(String::new(alloc)),
    }
}

/// Returns whether the finding is worded so, in whichever row.
fn has_text(alloc: Global, text: &Text, found: &TableFinding) -> Result<bool, AllocError>
    ensures { IfOk result (λ is. is ≡ has_text text.now found.now) }
{
    let place = place_words(alloc, found.row)?;
    let words = text.get();
    let whole = format!(in alloc; "{place}{words}")?;
    Ok(found.text.get() == whole.as_str())
}

/// Returns whether one of the texts allows the finding.
fn is_allowed(alloc: Global, texts: &[Text], found: &TableFinding) -> Result<bool, AllocError>
    ensures { IfOk result (λ is. is ≡ is_allowed texts.now found.now) }
{
    for text in texts {
        if has_text(alloc, text, found)? {
            return Ok(true);
        }
    }
    Ok(false)
}

/// Returns whether no finding is worded so.
fn is_stale(alloc: Global, all: &[TableFinding], text: &Text) -> Result<bool, AllocError>
    ensures { IfOk result (λ is. is ≡ is_stale all.now text.now) }
{
    for found in all {
        if has_text(alloc, text, found)? {
            return Ok(false);
        }
    }
    Ok(true)
}

/// Adds the warning for a text that allows none of the findings.
fn add_stale(
    alloc: Global,
    stale: &mut Vec<TableFinding>,
    all: &[TableFinding],
    text: &Text,
) -> Result<(), OutOfMemory>
    ensures { OnOk result (stale.new.items ≡ stale.old.items ++ stale_finding all.now text.now) }
{
    if is_stale(alloc, all, text)? {
        let one = finding_about(alloc, "there is no warning to allow: ", text.get())?;
        stale.push(one)?;
    }
    Ok(())
}

/// Returns the warnings for the texts that allow none of the findings.
fn stale_findings(
    alloc: Global,
    all: &[TableFinding],
    texts: &[Text],
) -> Result<Vec<TableFinding>, OutOfMemory>
    ensures { IfOk result (λ stale. stale.items ≡ stale_findings all.now texts.now) }
{
    let mut stale = Vec::new(alloc);
    for text in texts {
        add_stale(alloc, &mut stale, all, text)?;
    }
    Ok(stale)
}

/// Returns the findings that no text allows.
fn not_allowed(
    alloc: Global,
    all: Vec<TableFinding>,
    texts: &[Text],
) -> Result<Vec<TableFinding>, OutOfMemory>
    ensures { IfOk result (λ left. left.items ≡ not_allowed texts.now all.items) }
{
    let mut left = Vec::new(alloc);
    for found in all {
        let allowed = is_allowed(alloc, texts, &found)?;
        if !allowed {
            left.push(found)?;
        }
    }
    Ok(left)
}

/// Returns the findings that these texts do not allow, and a warning for each text that allows none.
fn allowing(
    alloc: Global,
    all: Vec<TableFinding>,
    texts: &[Text],
) -> Result<Vec<TableFinding>, OutOfMemory>
    ensures { IfOk result (λ left. left.items ≡ allowing texts.now all.items) }
{
    let mut stale = stale_findings(alloc, all.as_slice(), texts)?;
    let mut left = not_allowed(alloc, all, texts)?;
    left.append(&mut stale)?;
    Ok(left)
}

/// Returns all findings, and that none can be allowed.
fn allowing_none(alloc: Global, all: Vec<TableFinding>) -> Result<Vec<TableFinding>, OutOfMemory>
    ensures { IfOk result (λ left. left.items ≡ allowing_none all.items) }
{
    let mut all = all;
    let words = "allow is neither a text nor a list of at most 50 texts";
    let one = finding_about(alloc, words, "")?;
    all.push(one)?;
    Ok(all)
}

/// Returns the warnings that the table with this value does not allow, and a warning for each text of
/// its member `allow` that allows none. `OutOfMemory` if an allocation was refused; nothing is left
/// then.
pub(crate) fn after_allowing(
    alloc: Global,
    value: Option<&Value>,
    all: Vec<TableFinding>,
) -> Result<Vec<TableFinding>, OutOfMemory>
    ensures { IfOk result (λ left.
        left.items ≡ after_allowing (allowed_texts (option_map (λ v. view v.now) value.entry)) all.items) }
{
    match allowed_texts(alloc, value)? {
        Some(texts) => allowing(alloc, all, texts.as_slice()),
        None => allowing_none(alloc, all),
    }
}
