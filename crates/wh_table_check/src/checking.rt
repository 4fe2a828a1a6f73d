//! The result of checking the table in a file.
ghost use Rattle.std.specs.Prelude.{◌≡◌, IfOk, option_map};
ghost use Rattle.serde_json.specs.View.{view};
ghost use Rattle.wh_table_check.specs.Checks.{count_of, raised, warnings, warnings_of, table_check};

use crate::allowed::after_allowing;
use crate::causes::fault_findings;
use crate::counters::add_counters;
use crate::finding::TableFinding;
use crate::promised::add_promises;
use crate::stuck::{StuckFinding, add_doubt, add_stuck};
use crate::warning::add_rows;
use serde_json::Value;
use std::alloc::Global;
use wh_events::{Items, OutOfMemory, Text};
use wh_row_rules::{OwnedTable, PromiseFindings};
use wh_table_text::TableReading;

/// The result of checking the table in a file.
#[derive(Drop)]
pub struct TableCheck {
    /// The name of the file.
    pub name: Text,
    /// The number of rows of the table, or 0 if it breaks a rule.
    pub rows: usize,
    /// The faults of the table, without those that may follow from an earlier one.
    pub faults: Items<TableFinding>,
    /// The warnings: what the author may not have meant, and does not allow. There are none if the table
    /// breaks a rule.
    pub warnings: Items<TableFinding>,
    /// What is found of its promises.
    pub promises: PromiseFindings,
}

/// Returns the number of rows of a table, 0 without one.
fn count_of(table: &Option<OwnedTable>) -> usize
    ensures { result ≡ count_of table.now }
{
    match table {
        Some(table) => table.rows.get().len(),
        None => 0,
    }
}

/// Returns the warnings for a table that a value describes, of whose promises this is found.
fn raised(
    alloc: Global,
    table: &OwnedTable,
    value: Option<&Value>,
    promises: &PromiseFindings,
    stuck: &StuckFinding,
) -> Result<Vec<TableFinding>, OutOfMemory>
    ensures { IfOk result (λ found. found.items
        ≡ raised table.now (option_map (λ v. view v.now) value.entry) promises.now stuck.now) }
{
    let mut found = Vec::new(alloc);
    add_rows(alloc, &mut found, &table.name, table.rows.get())?;
    add_counters(alloc, &mut found, value)?;
    add_promises(alloc, &mut found, table.rows.get(), promises)?;
    add_doubt(alloc, &mut found, stuck)?;
    Ok(found)
}

/// Returns those that the table does not allow.
fn warnings(
    alloc: Global,
    table: &OwnedTable,
    value: Option<&Value>,
    promises: &PromiseFindings,
    stuck: &StuckFinding,
) -> Result<Vec<TableFinding>, OutOfMemory>
    ensures { IfOk result (λ found. found.items
        ≡ warnings table.now (option_map (λ v. view v.now) value.entry) promises.now stuck.now) }
{
    let all = raised(alloc, table, value, promises, stuck)?;
    after_allowing(alloc, value, all)
}

/// Returns the warnings for what was read of a file; none without a table.
fn warnings_of(
    alloc: Global,
    reading: &TableReading,
    promises: &PromiseFindings,
    stuck: &StuckFinding,
) -> Result<Vec<TableFinding>, OutOfMemory>
    ensures { IfOk result (λ found. found.items ≡ warnings_of reading.now promises.now stuck.now) }
{
    match &reading.table {
        Some(table) => warnings(alloc, table, reading.value.as_ref(), promises, stuck),
        None => Ok(Vec::new(alloc)),
    }
}

/// Returns the result of checking the table in a file of this name, by what one reading of it
/// found, with this as what is found of its promises and of whether it gets stuck. `OutOfMemory` if
/// an allocation was refused.
pub fn table_check(
    alloc: Global,
    name: &Text,
    reading: &TableReading,
    promises: PromiseFindings,
    stuck: &StuckFinding,
) -> Result<TableCheck, OutOfMemory>
    ensures { IfOk result (λ own. own ≡ table_check name.now reading.now promises stuck.now) }
{
    let mut faults = fault_findings(alloc, reading.value.as_ref(), reading.faults.get())?;
    add_stuck(alloc, &mut faults, stuck)?;
    let warnings = warnings_of(alloc, reading, &promises, stuck)?;
    Ok(TableCheck {
        name: name.try_copy()?,
        rows: count_of(&reading.table),
        faults: Items::new(faults),
        warnings: Items::new(warnings),
        promises,
    })
}
