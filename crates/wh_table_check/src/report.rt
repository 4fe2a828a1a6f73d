//! The report of a check of tables in files, and its status.
ghost use Rattle.std.specs.Prelude.{◌≡◌, ◌++◌, Err, IfOk, OnOk, string_bytes};
ghost use Rattle.std.specs.List.{flat_map, list_all};
ghost use Rattle.std.specs.Io.KnownBytes.{Appends};
ghost use Rattle.wh_table_check.specs.Checks.{is_good, status_of};
ghost use Rattle.wh_table_check.specs.Texts.{checked_as, good_count, report_as};

use crate::checking::TableCheck;
use crate::texts::{checked_as, is_good, totals_as};
use std::alloc::{AllocError, Global};
use std::io::Write;
use wh_console::Format;
use wh_file_faults::CommandFault;

/// Returns how many tables are good.
fn good_count(files: &[TableCheck]) -> usize
    ensures { result ≡ good_count files.now }
{
    let mut count = 0;
    for own in files {
        if is_good(own) {
            count += 1;
        }
    }
    count
}

/// Returns whether each table is good.
fn are_good(files: &[TableCheck]) -> bool
    ensures { result ≡ list_all is_good files.now }
{
    files.iter().all(|own| is_good(own))
}

/// Returns the status of a check: 0 if each table is good, and else 1. Warnings don't change it.
pub fn status_of(files: &[TableCheck]) -> u8
    ensures { result ≡ status_of files.now }
{
    if are_good(files) { 0 } else { 1 }
}

/// Returns the report of these files without the totals.
fn all_as(alloc: Global, files: &[TableCheck], format: Format) -> Result<String, AllocError>
    ensures { IfOk result (λ text. string_bytes text ≡ flat_map (checked_as format) files.now) }
{
    let mut text = String::new(alloc);
    for own in files {
        let one = checked_as(alloc, own, format)?;
        text.push_str(one.as_str())?;
    }
    Ok(text)
}

/// Returns the report of these files.
fn report_as(alloc: Global, files: &[TableCheck], format: Format) -> Result<String, AllocError>
    ensures { IfOk result (λ text. string_bytes text ≡ report_as format files.now) }
{
    let mut text = all_as(alloc, files, format)?;
    let totals = totals_as(alloc, files.len(), good_count(files), format)?;
    text.push_str(totals.as_str())?;
    Ok(text)
}

/// Writes the report of these files. As text, a good table has the line `NAME: ok, N rows`, with
/// `fault` instead of `ok` if it breaks no rule but not each of its promises is kept; a table that
/// breaks rules has a line `NAME: FAULT` for each fault that does not follow from an earlier one.
/// Then come a line `NAME: warning, WARNING` for each warning, and a line for each promise,
/// `NAME: promise N, PHRASE: VERDICT`, with the lines of a scenario below a broken one, or one line
/// `NAME: promises: WHY` if they can't be read; at the end the number of files and of good ones.
///
/// As JSON (RFC 8259), each file has an object on a line, with `file`, `verdict` (`ok` or `fault`),
/// `rows`, `faults` and `warnings`, which are lists of objects with `text` and, if it is about a
/// row, `row`. If it has promises, `promises` is a list of objects with `promise`, `text` and
/// `verdict`, with `shortest` and `scenario` of a broken one and `reason` of one that is not
/// decided, or a text that says why they can't be read. The last object has `files` and `ok`. Names
/// and texts are escaped as the report of `replay` escapes names.
///
/// `Output` if the writer failed; part of the report may be written then. `OutOfMemory` if an
/// allocation was refused; nothing is written then.
pub fn write_checked<O: Write>(
    alloc: Global,
    files: &[TableCheck],
    format: Format,
    writer: &mut O,
) -> Result<(), CommandFault>
    ensures written { OnOk result (Appends (O.contents writer.old) (O.contents writer.new)
        (report_as format files.now)) }
    ensures unwritten { result ≡ Err CommandFault.OutOfMemory → writer.new ≡ writer.old }
{
    let Ok(text) = report_as(alloc, files, format) else {
        return Err(CommandFault::OutOfMemory);
    };
    match writer.write_all(text.as_str().as_bytes()) {
        Ok(()) => Ok(()),
        Err(_) => Err(CommandFault::Output),
    }
}
