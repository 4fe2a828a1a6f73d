//! Lists all faults of a JSON value as a table.
ghost use Rattle.std.specs.Prelude.{◌≡◌, ◌<◌, ◌+◌, ◌^◌, ◌++◌, codes, map, option_to_list, IfOk, OnOk, Ok, Some};
ghost use Rattle.serde_json.specs.View.{view};
ghost use Rattle.wh_json.specs.Fields.{field};
ghost use Rattle.wh_table_text.specs.Numbered.{numbered};
ghost use Rattle.wh_table_text.specs.Reading.{naming_at, row_at, rows_in, shape_of};
ghost use Rattle.wh_table_text.specs.Faults.{fault_in, is_none, counters_in, few_rows, part_faults, unread, unread_rows, rows_listed};
ghost use Rattle.wh_table_text.specs.Faults.{shape_faults, breaks, rule_faults, value_faults};

use crate::counters::NamedCounter;
use crate::fault::{RowFault, TableFault};
use crate::reading::{MOST_ROWS, counters_at, is_known, naming_at, rows_in, shape_of};
use crate::rows::row_at;
use serde_json::Value;
use std::alloc::Global;
use wh_events::OutOfMemory;
use wh_json::field;
use wh_row_rules::{OrMemory, OwnedRow, OwnedTable, RowsFault, row_rule, table_fault};

/// Returns whether there is no fault.
fn is_none(faults: &[TableFault]) -> bool
    ensures { result ≡ is_none faults.now }
{
    matches!(faults, [])
}

/// Returns a list of this one fault.
pub(crate) fn only(alloc: Global, fault: TableFault) -> Result<Vec<TableFault>, OutOfMemory>
    ensures { IfOk result (λ faults. faults.items ≡ option_to_list (Some fault)) }
{
    let mut faults = Vec::new(alloc);
    faults.push(fault)?;
    Ok(faults)
}

/// Adds a fault to the list, if there is one.
fn add(faults: &mut Vec<TableFault>, fault: Option<TableFault>) -> Result<(), OutOfMemory>
    ensures { OnOk result (faults.new.items ≡ faults.old.items ++ option_to_list fault) }
{
    if let Some(fault) = fault {
        faults.push(fault)?;
    }
    Ok(())
}

/// Returns the fault of the member `rows`, if it is not a list or too long.
fn list_fault(value: &Value) -> Option<TableFault>
    ensures { result ≡ fault_in (few_rows (rows_in (view value.now))) }
{
    match rows_in(value) {
        Some(values) => {
            if MOST_ROWS < values.len() {
                Some(TableFault::TooManyRows)
            } else {
                None
            }
        }
        None => Some(TableFault::NoRows),
    }
}

/// Returns the fault of the counters, if there is one.
fn counters_fault(alloc: Global, value: &Value) -> Result<Option<TableFault>, OutOfMemory>
    ensures { IfOk result (λ fault. fault ≡ fault_in (counters_in (view value.now))) }
{
    match counters_at(alloc, field(Some(value), "counters")) {
        Ok(_) => Ok(None),
        Err(OrMemory::OutOfMemory) => Err(OutOfMemory),
        Err(OrMemory::Fault(fault)) => Ok(Some(fault)),
    }
}

/// Returns the fault of the member `name`, if there is one.
fn name_fault(alloc: Global, value: &Value) -> Result<Option<TableFault>, OutOfMemory>
    ensures { IfOk result (λ fault. fault ≡ fault_in (naming_at (field (codes "name") (Some (view value.now))))) }
{
    match naming_at(alloc, field(Some(value), "name")) {
        Ok(_) => Ok(None),
        Err(OrMemory::OutOfMemory) => Err(OutOfMemory),
        Err(OrMemory::Fault(fault)) => Ok(Some(fault)),
    }
}

/// Returns the faults of all members of an object but those within its rows.
fn part_faults(alloc: Global, value: &Value) -> Result<Vec<TableFault>, OutOfMemory>
    ensures { IfOk result (λ faults. faults.items ≡ part_faults (view value.now)) }
{
    let mut faults = Vec::new(alloc);
    add(&mut faults, list_fault(value))?;
    let counters = counters_fault(alloc, value)?;
    add(&mut faults, counters)?;
    let name = name_fault(alloc, value)?;
    add(&mut faults, name)?;
    Ok(faults)
}

/// Returns the fault of the row of this number, if it can't be read.
fn row_fault(
    alloc: Global,
    row: u64,
    names: &[NamedCounter],
    value: &Value,
) -> Result<Option<TableFault>, OutOfMemory>
    ensures { IfOk result (λ fault. fault ≡ fault_in (row_at names.now row (view value.now))) }
{
    match row_at(alloc, row, names, value) {
        Ok(_) => Ok(None),
        Err(OrMemory::OutOfMemory) => Err(OutOfMemory),
        Err(OrMemory::Fault(fault)) => Ok(Some(fault)),
    }
}

/// Returns the faults of rows that can't be read.
fn row_faults(
    alloc: Global,
    names: &[NamedCounter],
    values: &[Value],
) -> Result<Vec<TableFault>, OutOfMemory>
    ensures { IfOk result (λ faults. faults.items ≡ numbered (unread names.now) 0 (map view values.now)) }
{
    let mut faults = Vec::new(alloc);
    for (place, value) in values.iter().enumerate() {
        let fault = row_fault(alloc, place as u64 + 1, names, value)?;
        add(&mut faults, fault)?;
    }
    Ok(faults)
}

/// Returns the faults of the rows of an object that can't be read, with these counters.
fn named_row_faults(
    alloc: Global,
    names: &[NamedCounter],
    value: &Value,
) -> Result<Vec<TableFault>, OutOfMemory>
    ensures { IfOk result (λ faults. faults.items
        ≡ unread_rows (Ok names.now) (rows_listed (rows_in (view value.now)))) }
{
    match rows_in(value) {
        Some(values) => row_faults(alloc, names, values),
        None => Ok(Vec::new(alloc)),
    }
}

/// Returns the faults of the rows of an object that can't be read. There are none if its counters
/// can't be read.
fn unread_rows(alloc: Global, value: &Value) -> Result<Vec<TableFault>, OutOfMemory>
    ensures { IfOk result (λ faults. faults.items
        ≡ unread_rows (counters_in (view value.now)) (rows_listed (rows_in (view value.now)))) }
{
    match counters_at(alloc, field(Some(value), "counters")) {
        Ok(names) => named_row_faults(alloc, names.as_slice(), value),
        Err(OrMemory::OutOfMemory) => Err(OutOfMemory),
        Err(OrMemory::Fault(_)) => Ok(Vec::new(alloc)),
    }
}

/// Returns the faults of a value that can't be read as a table.
fn shape_faults(alloc: Global, value: &Value) -> Result<Vec<TableFault>, OutOfMemory>
    ensures { IfOk result (λ faults. faults.items ≡ shape_faults (view value.now)) }
{
    if !is_known(field(Some(value), "version")) {
        return only(alloc, TableFault::UnknownVersion);
    }
    let faults = part_faults(alloc, value)?;
    if is_none(faults.as_slice()) {
        unread_rows(alloc, value)
    } else {
        Ok(faults)
    }
}

/// Returns the fault of a row, if it breaks a rule; `place` rows come before it.
fn broken_row(table: &OwnedTable, place: usize, row: &OwnedRow) -> Option<TableFault>
    requires { place + 1 < 2 ^ 64 }
    ensures { option_to_list result ≡ breaks table.now place row.now }
{
    match row_rule(table, place, row) {
        Some(rule) => Some(TableFault::InRow {
            row: place as u64 + 1,
            fault: RowFault::Breaks(rule),
        }),
        None => None,
    }
}

/// Returns the faults of the rows of a table that break a rule.
fn broken_rows(
    alloc: Global,
    table: &OwnedTable,
    rows: &[OwnedRow],
) -> Result<Vec<TableFault>, OutOfMemory>
    ensures { IfOk result (λ faults. faults.items ≡ numbered (breaks table.now) 0 rows.now) }
{
    let mut faults = Vec::new(alloc);
    for (place, row) in rows.iter().enumerate() {
        add(&mut faults, broken_row(table, place, row))?;
    }
    Ok(faults)
}

/// Returns the faults of a table that break a rule.
fn rule_faults(alloc: Global, table: &OwnedTable) -> Result<Vec<TableFault>, OutOfMemory>
    ensures { IfOk result (λ faults. faults.items ≡ rule_faults (Ok table.now)) }
{
    match table_fault(table) {
        None => Ok(Vec::new(alloc)),
        Some(RowsFault::BeginsNowhere) => only(alloc, TableFault::BeginsNowhere),
        Some(RowsFault::InRow { .. }) => broken_rows(alloc, table, table.rows.get()),
    }
}

/// Returns the rules that the table of a JSON value breaks. There are none if it can't be read as a
/// table.
fn broken_rules(alloc: Global, value: &Value) -> Result<Vec<TableFault>, OutOfMemory>
    ensures { IfOk result (λ faults. faults.items ≡ rule_faults (shape_of (view value.now))) }
{
    match shape_of(alloc, value) {
        Ok(table) => rule_faults(alloc, &table),
        Err(OrMemory::OutOfMemory) => Err(OutOfMemory),
        Err(OrMemory::Fault(_)) => Ok(Vec::new(alloc)),
    }
}

/// Returns the faults of a JSON value as a table, in order. If its version is not known, that is
/// the only one. Else they are the first fault of each member; if there are none, that of each row
/// that can't be read; and if all can be read, the first rule that each row breaks.
pub(crate) fn value_faults(alloc: Global, value: &Value) -> Result<Vec<TableFault>, OutOfMemory>
    ensures { IfOk result (λ faults. faults.items ≡ value_faults (view value.now)) }
{
    let faults = shape_faults(alloc, value)?;
    if is_none(faults.as_slice()) {
        broken_rules(alloc, value)
    } else {
        Ok(faults)
    }
}
