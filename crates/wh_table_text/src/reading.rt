//! Reads a table from JSON.
ghost use Rattle.std.specs.Prelude.{◌≡◌, map, option_map};
ghost use Rattle.serde_json.specs.View.{view};
ghost use Rattle.wh_json.specs.Events.{document_within};
ghost use Rattle.wh_row_rules.specs.Outcome.{Gives};
ghost use Rattle.wh_table_text.specs.Reading.{or_not_json, is_known, counters_at, naming_at, rows_in, first_state, shape_of, table_from, table_of};

use crate::copies::{naming_copy, text_copy};
use crate::counters::{NamedCounter, bounds_of};
use crate::fault::{ReadResult, TableFault, of_rows};
use crate::lists::{each_counter, phrases_at};
use crate::phrases::naming_of;
use crate::rows::each_row;
use crate::words::PhraseWords;
use serde_json::Value;
use std::alloc::Global;
use wh_events::{Items, Text};
use wh_json::{ReadFault, field, list_in, read_document};
use wh_row_rules::{OrMemory, OwnedRow, OwnedTable, table_fault};
use wh_rows::Naming;

/// The most rows that a table may have.
pub(crate) const MOST_ROWS: usize = 200;

/// The most counters that a table may have.
const MOST_COUNTERS: usize = 4;

/// Returns the value of a JSON text, or `NotJson`.
pub(crate) fn document(alloc: Global, bytes: &[u8]) -> ReadResult<Value>
    ensures { Gives view result (or_not_json (document_within bytes.now)) }
{
    match read_document(alloc, bytes) {
        Ok(value) => Ok(value),
        Err(ReadFault::OutOfMemory) => Err(OrMemory::OutOfMemory),
        Err(_) => Err(OrMemory::Fault(TableFault::NotJson)),
    }
}

/// Returns whether the version is the number 1.
pub(crate) fn is_known(value: Option<&Value>) -> bool
    ensures { result ≡ is_known (option_map (λ v. view v.now) value.entry) }
{
    let Some(value) = value else {
        return false;
    };
    match value.as_i64() {
        Some(number) => number == 1,
        None => false,
    }
}

/// Returns the counters of a table.
#[tactic(auto, unfolding(crate::specs::Reading::counters_at))]
pub(crate) fn counters_at(alloc: Global, value: Option<&Value>) -> ReadResult<Vec<NamedCounter>>
    ensures { Gives (λ names. names.items) result (counters_at (option_map (λ v. view v.now) value.entry)) }
{
    let texts = phrases_at(alloc, TableFault::BadCounters, value)?;
    if MOST_COUNTERS < texts.len() {
        return Err(OrMemory::Fault(TableFault::BadCounters));
    }
    each_counter(alloc, texts.as_slice())
}

/// Returns how the runs of a table are named.
#[tactic(auto, unfolding(crate::specs::Reading::naming_at))]
pub(crate) fn naming_at(alloc: Global, value: Option<&Value>) -> ReadResult<Naming<Text>>
    ensures { Gives (λ naming. naming) result (naming_at (option_map (λ v. view v.now) value.entry)) }
{
    let Some(value) = value else {
        return Ok(Naming::Nameless);
    };
    let Some(text) = value.as_str() else {
        return Err(OrMemory::Fault(TableFault::BadName));
    };
    match naming_of(&PhraseWords::of(text)) {
        Some(naming) => naming_copy(alloc, &naming),
        None => Err(OrMemory::Fault(TableFault::BadName)),
    }
}

/// Returns the list `rows` of an object.
pub(crate) fn rows_in(value: &Value) -> Option<&[Value]>
    ensures { option_map (λ values. map view values.now) result ≡ rows_in (view value.now) }
{
    list_in(field(Some(value), "rows")?)
}

/// Returns the state of the first row, empty if there is none.
fn first_state(alloc: Global, rows: &[OwnedRow]) -> ReadResult<Text>
    ensures { Gives (λ text. text) result (Ok (first_state rows.now)) }
{
    match rows {
        [first, ..] => text_copy(alloc, first.state.get()),
        [] => text_copy(alloc, ""),
    }
}

/// Returns the table of a JSON value. Its rows may still break a rule.
#[tactic(auto, unfolding(crate::specs::Reading::shape_of))]
pub(crate) fn shape_of(alloc: Global, value: &Value) -> ReadResult<OwnedTable>
    ensures { Gives (λ table. table) result (shape_of (view value.now)) }
{
    if !is_known(field(Some(value), "version")) {
        return Err(OrMemory::Fault(TableFault::UnknownVersion));
    }
    let Some(values) = rows_in(value) else {
        return Err(OrMemory::Fault(TableFault::NoRows));
    };
    if MOST_ROWS < values.len() {
        return Err(OrMemory::Fault(TableFault::TooManyRows));
    }
    let names = counters_at(alloc, field(Some(value), "counters"))?;
    let name = naming_at(alloc, field(Some(value), "name"))?;
    let rows = each_row(alloc, names.as_slice(), values)?;
    Ok(OwnedTable {
        first: first_state(alloc, rows.as_slice())?,
        name,
        bounds: bounds_of(names.as_slice()),
        rows: Items::new(rows),
    })
}

/// Returns the table of a JSON value, or its first fault.
#[tactic(auto, unfolding(crate::specs::Reading::table_from))]
pub(crate) fn table_from(alloc: Global, value: &Value) -> ReadResult<OwnedTable>
    ensures { Gives (λ table. table) result (table_from (view value.now)) }
{
    let table = shape_of(alloc, value)?;
    match table_fault(&table) {
        Some(fault) => Err(OrMemory::Fault(of_rows(fault))),
        None => Ok(table),
    }
}

/// Reads a table from a JSON text (RFC 8259), or returns its first fault. `table_of` in `specs`
/// defines what the text means, and a table that is returned breaks no rule. Of members of an
/// object with the same name the last one applies, and a member that is null is absent. Instead of
/// any result the error can be `OutOfMemory`. After an error nothing is left of the table.
#[tactic(auto, unfolding(crate::specs::Reading::table_of, crate::specs::Reading::table_from))]
pub fn read_table(alloc: Global, bytes: &[u8]) -> Result<OwnedTable, OrMemory<TableFault>>
    ensures { Gives (λ table. table) result (table_of bytes.now) }
{
    let value = document(alloc, bytes)?;
    table_from(alloc, &value)
}
