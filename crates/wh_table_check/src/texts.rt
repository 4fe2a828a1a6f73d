//! Writes the findings about tables as text and as JSON.
ghost use Rattle.std.specs.Prelude.{◌≡◌, ◌++◌, IfOk, OnOk, string_bytes};
ghost use Rattle.std.specs.List.{flat_map};
ghost use Rattle.wh_table_check.specs.Checks.{is_good};
ghost use Rattle.wh_table_check.specs.Texts.{finding_line, finding_lines, verdict_word, rows_line, verdict_lines, checked_text};
ghost use Rattle.wh_table_check.specs.Texts.{row_member, finding_object, after_commas, finding_list};
ghost use Rattle.wh_table_check.specs.Texts.{object_head, list_member, checked_object, checked_as, totals_as};

use crate::checking::TableCheck;
use crate::finding::TableFinding;
use crate::promise_texts::{findings_text, promises_member};
use std::alloc::{AllocError, Global};
use wh_console::Format;
use wh_row_rules::are_kept;
use wh_tester::{EscapedName, Shown};

/// Returns whether a table has no fault, and each of its promises is kept.
pub fn is_good(own: &TableCheck) -> bool
    ensures { result ≡ is_good own.now }
{
    own.faults.get().is_empty() && are_kept(&own.promises)
}

/// Returns the word for a table: `ok` if it is good, and else `fault`.
pub fn verdict_word(own: &TableCheck) -> &'static str
    ensures { result.now ≡ verdict_word own.now }
{
    if is_good(own) { "ok" } else { "fault" }
}

/// Returns the line of a finding, with these words before it.
fn finding_line(
    alloc: Global,
    name: &str,
    words: &str,
    found: &TableFinding,
) -> Result<String, AllocError>
    ensures { IfOk result (λ text. string_bytes text ≡ finding_line name.now words.now found.now) }
{
    let name = Shown(name);
    let text = Shown(found.text.get());
    format!(in alloc; "{name}: {words}{text}\n")
}

/// Returns the lines of findings, with these words before each.
fn finding_lines(
    alloc: Global,
    name: &str,
    words: &str,
    list: &[TableFinding],
) -> Result<String, AllocError>
    ensures { IfOk result (λ text. string_bytes text ≡ finding_lines name.now words.now list.now) }
{
    let mut text = String::new(alloc);
    for found in list {
        let line = finding_line(alloc, name, words, found)?;
        text.push_str(line.as_str())?;
    }
    Ok(text)
}

/// Returns the line of a table that breaks no rule.
fn rows_line(alloc: Global, own: &TableCheck) -> Result<String, AllocError>
    ensures { IfOk result (λ text. string_bytes text ≡ rows_line own.now) }
{
    let name = Shown(own.name.get());
    let verdict = verdict_word(own);
    let rows = own.rows;
    format!(in alloc; "{name}: {verdict}, {rows} rows\n")
}

/// Returns the line of a table that breaks no rule, or the lines of the faults.
fn verdict_lines(alloc: Global, own: &TableCheck) -> Result<String, AllocError>
    ensures { IfOk result (λ text. string_bytes text ≡ verdict_lines own.now) }
{
    if own.faults.get().is_empty() {
        rows_line(alloc, own)
    } else {
        finding_lines(alloc, own.name.get(), "", own.faults.get())
    }
}

/// Returns the lines of a file.
fn checked_text(alloc: Global, own: &TableCheck) -> Result<String, AllocError>
    ensures { IfOk result (λ text. string_bytes text ≡ checked_text own.now) }
{
    let mut text = verdict_lines(alloc, own)?;
    let warnings = finding_lines(alloc, own.name.get(), "warning, ", own.warnings.get())?;
    text.push_str(warnings.as_str())?;
    let promises = findings_text(alloc, own.name.get(), &own.promises)?;
    text.push_str(promises.as_str())?;
    Ok(text)
}

/// Returns the row of a finding, as the first member of an object.
fn row_member(alloc: Global, row: Option<u64>) -> Result<String, AllocError>
    ensures { IfOk result (λ text. string_bytes text ≡ row_member row) }
{
    match row {
        Some(row) => format!(in alloc; "\"row\":{row},"),
        None => Ok(String::new(alloc)),
    }
}

/// Returns the object of a finding.
fn finding_object(alloc: Global, found: &TableFinding) -> Result<String, AllocError>
    ensures { IfOk result (λ text. string_bytes text ≡ finding_object found.now) }
{
    let row = row_member(alloc, found.row)?;
    let text = EscapedName(found.text.get());
    format!(in alloc; "{{{row}\"text\":\"{text}\"}}")
}

/// Returns the objects of findings, each with a comma before it.
fn after_commas(alloc: Global, list: &[TableFinding]) -> Result<String, AllocError>
    ensures { IfOk result (λ text. string_bytes text ≡ after_commas list.now) }
{
    let mut text = String::new(alloc);
    for found in list {
        let own = finding_object(alloc, found)?;
        text.push_str(",")?;
        text.push_str(own.as_str())?;
    }
    Ok(text)
}

/// Returns the objects of findings, separated by commas.
fn finding_list(alloc: Global, list: &[TableFinding]) -> Result<String, AllocError>
    ensures { IfOk result (λ text. string_bytes text ≡ finding_list list.now) }
{
    let [first, others @ ..] = list else {
        return Ok(String::new(alloc));
    };
    let mut text = finding_object(alloc, first)?;
    let more = after_commas(alloc, others)?;
    text.push_str(more.as_str())?;
    Ok(text)
}

/// Returns the beginning of the object of a file: its name, its verdict, and its number of rows.
fn object_head(alloc: Global, own: &TableCheck) -> Result<String, AllocError>
    ensures { IfOk result (λ text. string_bytes text ≡ object_head own.now) }
{
    let name = EscapedName(own.name.get());
    let verdict = verdict_word(own);
    let rows = own.rows;
    format!(in alloc; "{{\"file\":\"{name}\",\"verdict\":\"{verdict}\",\"rows\":{rows}")
}

/// Returns a list of findings, as a member after others.
fn list_member(alloc: Global, key: &str, list: &[TableFinding]) -> Result<String, AllocError>
    ensures { IfOk result (λ text. string_bytes text ≡ list_member key.now list.now) }
{
    let list = finding_list(alloc, list)?;
    format!(in alloc; ",\"{key}\":[{list}]")
}

/// Returns the object of a file, on a line.
fn checked_object(alloc: Global, own: &TableCheck) -> Result<String, AllocError>
    ensures { IfOk result (λ text. string_bytes text ≡ checked_object own.now) }
{
    let mut text = object_head(alloc, own)?;
    let faults = list_member(alloc, "faults", own.faults.get())?;
    text.push_str(faults.as_str())?;
    let warnings = list_member(alloc, "warnings", own.warnings.get())?;
    text.push_str(warnings.as_str())?;
    let promises = promises_member(alloc, &own.promises)?;
    text.push_str(promises.as_str())?;
    text.push_str("}\n")?;
    Ok(text)
}

/// Returns a file's part of the report.
pub(crate) fn checked_as(
    alloc: Global,
    own: &TableCheck,
    format: Format,
) -> Result<String, AllocError>
    ensures { IfOk result (λ text. string_bytes text ≡ checked_as format own.now) }
{
    match format {
        Format::Text => checked_text(alloc, own),
        Format::Json => checked_object(alloc, own),
    }
}

/// Returns the last line of the report: the number of files and of good tables.
pub(crate) fn totals_as(
    alloc: Global,
    files: usize,
    good: usize,
    format: Format,
) -> Result<String, AllocError>
    ensures { IfOk result (λ text. string_bytes text ≡ totals_as format files good) }
{
    match format {
        Format::Text => format!(in alloc; "{files} files, {good} ok\n"),
        Format::Json => format!(in alloc; "{{\"files\":{files},\"ok\":{good}}}\n"),
    }
}
