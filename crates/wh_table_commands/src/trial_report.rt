//! The report of trials of tables in files, and their status.

ghost use Rattle.std.specs.Prelude.{◌≡◌, IfErr, IfOk, string_bytes};
ghost use Rattle.std.specs.List.{list_all};
ghost use Rattle.wh_console.specs.Consoles.{Reported};
ghost use Rattle.wh_diagnostics.specs.Failures.{IsWriteFailure};
ghost use Rattle.wh_diagnostics.specs.Printing.{IsRefused};
ghost use Rattle.wh_table_check.specs.Texts.{totals_as};
ghost use Rattle.wh_table_commands.specs.TrialReports.{HasReported, end_as, good_count, has_totals, is_good, lack_lines, lacks_all};
ghost use Rattle.wh_table_commands.specs.TrialReports.{parts_as, report_as, status_of};
ghost use Rattle.wh_table_trial.specs.Objects.{trial_as};

use crate::trying::TableTrial;
use std::alloc::{AllocError, Global};
use std::io::Write;
use wh_console::{Console, Format};
use wh_diagnostics::{Failure, print, status_with};
use wh_table_trial::trial_as;

/// Returns whether there is one table alone, and it has no scenario.
fn lacks_all(all: &[TableTrial]) -> bool
    ensures { result ≡ lacks_all all.now }
{
    match all {
        [only] => only.lack.is_some(),
        _ => false,
    }
}

/// Returns whether nothing differs in a trial.
fn is_good(own: &TableTrial) -> bool
    ensures { result ≡ is_good own.now }
{
    own.own.is_good()
}

/// Returns whether nothing differs in any of the trials.
fn are_good(all: &[TableTrial]) -> bool
    ensures { result ≡ list_all is_good all.now }
{
    all.iter().all(|own| is_good(own))
}

/// Returns in how many trials nothing differs.
fn good_count(all: &[TableTrial]) -> usize
    ensures { result ≡ good_count all.now }
{
    let mut count = 0;
    for own in all {
        if is_good(own) {
            count += 1;
        }
    }
    count
}

/// Returns the status of trials.
fn status_of(all: &[TableTrial], lacks: bool) -> u8
    ensures { result ≡ status_of lacks all.now }
{
    if lacks_all(all) {
        2
    } else {
        status_with(lacks, if are_good(all) { 0 } else { 1 })
    }
}

/// Returns a file's part of the report.
fn part_as(alloc: Global, own: &TableTrial, format: Format) -> Result<String, AllocError>
    ensures { IfOk result (λ text. string_bytes text ≡ trial_as format own.now.name own.now.own) }
{
    trial_as(alloc, own.name.get(), &own.own, format)
}

/// Returns the parts of the files.
fn parts_as(alloc: Global, all: &[TableTrial], format: Format) -> Result<String, AllocError>
    ensures { IfOk result (λ text. string_bytes text ≡ parts_as format all.now) }
{
    let mut text = String::new(alloc);
    for own in all {
        let part = part_as(alloc, own, format)?;
        text.push_str(part.as_str())?;
    }
    Ok(text)
}

/// Returns the number of files, and of those in which nothing differs.
fn totals_as(alloc: Global, files: usize, good: usize, format: Format) -> Result<String, AllocError>
    ensures { IfOk result (λ text. string_bytes text ≡ totals_as format files good) }
{
    match format {
        Format::Text => format!(in alloc; "{files} files, {good} ok\n"),
        Format::Json => format!(in alloc; "{{\"files\":{files},\"ok\":{good}}}\n"),
    }
}

/// Returns whether the report of so many files ends in totals.
fn has_totals(files: usize, format: Format) -> bool
    ensures { result ≡ has_totals format files }
{
    match format {
        Format::Text => files != 1,
        Format::Json => true,
    }
}

/// Returns the end of the report.
fn end_as(alloc: Global, files: usize, good: usize, format: Format) -> Result<String, AllocError>
    ensures { IfOk result (λ text. string_bytes text ≡ end_as format files good) }
{
    if has_totals(files, format) {
        totals_as(alloc, files, good, format)
    } else {
        Ok(String::new(alloc))
    }
}

/// Returns the report of trials.
fn report_as(alloc: Global, all: &[TableTrial], format: Format) -> Result<String, AllocError>
    ensures { IfOk result (λ text. string_bytes text ≡ report_as format all.now) }
{
    if lacks_all(all) {
        return Ok(String::new(alloc));
    }
    let mut text = parts_as(alloc, all, format)?;
    let end = end_as(alloc, all.len(), good_count(all), format)?;
    text.push_str(end.as_str())?;
    Ok(text)
}

/// Reports why tables have no scenario, in their order.
fn report_lacks<O: Write, E: Write>(all: Vec<TableTrial>, console: &mut Console<'_, O, E>)
    ensures { Reported console.old console.new (lack_lines all.items) }
{
    for own in all {
        console.report(own);
    }
}

/// Writes the report of trials, and once it is out, reports why tables have no scenario.
pub(crate) fn report_trials<O: Write, E: Write>(
    alloc: Global,
    all: Vec<TableTrial>,
    format: Format,
    lacks: bool,
    console: &mut Console<'_, O, E>,
) -> Result<u8, Failure>
    ensures reported { IfOk result (HasReported all.items format lacks console.old console.new) }
    ensures refused { IfErr result (IsRefused console.old console.new) }
    ensures why { IfErr result IsWriteFailure }
{
    let status = status_of(all.as_slice(), lacks);
    let Ok(text) = report_as(alloc, all.as_slice(), format) else {
        return Err(Failure::OutOfMemory);
    };
    print(text.as_str(), console)?;
    report_lacks(all, console);
    Ok(status)
}
