//! Rows with numbers in place of states.
ghost use Rattle.std.specs.Prelude.{◌≡◌, IfOk, map};
ghost use Rattle.wh_rows.specs.Deciding.{place, next_number, line, lines};
ghost use Rattle.wh_table_lines.specs.Lines.{line_seen};

use std::alloc::Global;
use wh_events::{OutOfMemory, Text};
use wh_row_rules::{OwnedRow, some_closes, text_eq};

/// A row with numbers in place of states.
#[derive(Clone, Copy)]
pub struct IndexedRow<'a> {
    /// The row.
    pub row: &'a OwnedRow,
    /// It is for each state.
    pub any: bool,
    /// The number of the state that it is for.
    pub state: usize,
    /// It closes the run.
    pub closes: bool,
    /// The number of the state after it, unless it is the same.
    pub next: Option<usize>,
}

/// Returns the number of a state: how many rows stand before the first one for it.
pub fn place(name: &Text, rows: &[OwnedRow]) -> usize
    ensures { result ≡ place name.now rows.now }
{
    for (index, row) in rows.iter().enumerate() {
        if text_eq(&row.state, name) {
            return index;
        }
    }
    rows.len()
}

/// The number of a state after a row.
fn next_number(name: &Text, rows: &[OwnedRow]) -> Option<usize>
    ensures { result ≡ next_number name.now rows.now }
{
    if name.get() == "same" {
        None
    } else {
        Some(place(name, rows))
    }
}

/// A row of a table with numbers.
fn line_of<'a>(rows: &[OwnedRow], row: &'a OwnedRow) -> IndexedRow<'a>
    ensures { line_seen result ≡ line rows.now row.now }
{
    IndexedRow {
        row,
        any: row.state.get() == "any",
        state: place(&row.state, rows),
        closes: some_closes(row.gives.get()),
        next: next_number(&row.next, rows),
    }
}

/// Returns the rows of a table with numbers in place of states. `OutOfMemory` if there is no memory for
/// them.
pub fn lines_of<'a>(alloc: Global, rows: &'a [OwnedRow]) -> Result<Vec<IndexedRow<'a>>, OutOfMemory>
    ensures { IfOk result (λ all. map line_seen all.items ≡ lines rows.now rows.now) }
{
    let mut all = Vec::new(alloc);
    for row in rows {
        all.push(line_of(rows, row))?;
    }
    Ok(all)
}
