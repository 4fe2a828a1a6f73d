//! What the page of a table shows.
ghost use Rattle.std.specs.Prelude.{◌≡◌, IfOk, map, option_map};
ghost use Rattle.serde_json.specs.View.{view};
ghost use Rattle.wh_table_picture.specs.Drawings.{row_values, lines_by, title_by, table_rows, reading_lines, drawing_of};

use crate::cells::title_of;
use crate::layout::{PictureRow, lines_of};
use crate::paths::{RowPath, paths_of};
use serde_json::Value;
use std::alloc::Global;
use wh_events::{Items, OutOfMemory, Text};
use wh_json::{field, list_in};
use wh_row_rules::{OwnedRow, OwnedTable};
use wh_table_check::TableCheck;
use wh_table_text::TableReading;
use wh_workflow::text_of;

/// What the page of a table shows.
#[derive(Drop)]
pub struct Drawing {
    /// What is found of the table.
    pub checked: TableCheck,
    /// The text of its member `title`, if it has one.
    pub title: Text,
    /// Its rows. There are none if it breaks a rule.
    pub lines: Items<PictureRow>,
    /// The rows that a run takes on the way to each broken promise.
    pub paths: Items<RowPath>,
}

/// The list of rows of a value.
fn row_values(value: &Value) -> &[Value]
    ensures { map view result.now ≡ row_values (view value.now) }
{
    let Some(rows) = field(Some(value), "rows") else {
        return &[];
    };
    match list_in(rows) {
        Some(values) => values,
        None => &[],
    }
}

/// The title of a table, of which a value has the words; empty without one.
fn title_by(value: &Option<Value>) -> &str
    ensures { result.now ≡ title_by (option_map view value.now) }
{
    match value {
        Some(value) => title_of(value),
        None => "",
    }
}

/// The rows of a table.
fn table_rows(table: &Option<OwnedTable>) -> &[OwnedRow]
    ensures { result.now ≡ table_rows table.now }
{
    match table {
        Some(table) => table.rows.get(),
        None => &[],
    }
}

/// The rows of a table as the page shows them, of which a value has the words; none without one.
fn lines_by(
    alloc: Global,
    rows: &[OwnedRow],
    value: &Option<Value>,
) -> Result<Vec<PictureRow>, OutOfMemory>
    ensures { IfOk result (λ lines. lines.items ≡ lines_by rows.now (option_map view value.now)) }
{
    match value {
        Some(value) => lines_of(alloc, rows, row_values(value)),
        None => Ok(Vec::new(alloc)),
    }
}

/// The rows of a table as the page shows them, by what one reading of its file found.
pub(crate) fn reading_lines(
    alloc: Global,
    reading: &TableReading,
) -> Result<Vec<PictureRow>, OutOfMemory>
    ensures { IfOk result (λ lines. lines.items ≡ reading_lines reading.now) }
{
    lines_by(alloc, table_rows(&reading.table), &reading.value)
}

/// What the page of a table shows, by what one reading of its file found and the result of its
/// check. `OutOfMemory` if an allocation was refused.
pub fn drawing_of(
    alloc: Global,
    reading: &TableReading,
    checked: TableCheck,
) -> Result<Drawing, OutOfMemory>
    ensures { IfOk result (λ drawing. drawing ≡ drawing_of reading.now checked) }
{
    let title = text_of(alloc, title_by(&reading.value))?;
    let lines = reading_lines(alloc, reading)?;
    let paths = paths_of(alloc, &checked.promises)?;
    Ok(Drawing {
        checked,
        title,
        lines: Items::new(lines),
        paths: Items::new(paths),
    })
}
