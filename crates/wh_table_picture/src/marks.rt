//! What is marked in the picture of a table.
ghost use Rattle.std.specs.Prelude.{◌≡◌, bytes_eq, IfOk};
ghost use Rattle.std.specs.List.{list_any};
ghost use Rattle.wh_table_picture.specs.Drawings.{table_lines};
ghost use Rattle.wh_table_picture.specs.Marking.{is_last, state_mark, marked_line, marked};

use crate::drawing::reading_lines;
use crate::layout::{PictureRow, StateMark, has_row};
use std::alloc::Global;
use wh_events::{Items, OutOfMemory, Text};
use wh_table_text::table_reading;

/// What is marked in the picture of a table: a path through its rows.
#[derive(Drop)]
pub struct Marks {
    /// The numbers of the rows that were taken, counted from 1.
    pub rows: Items<usize>,
    /// The names of the states that were passed.
    pub states: Items<Text>,
    /// The name of the last one. `None` if the path leads to the end.
    pub last: Option<Text>,
}

/// Whether the state is among those that were passed.
fn is_passed(states: &[Text], name: &Text) -> bool
    ensures { result ≡ list_any (bytes_eq name.now) states.now }
{
    for state in states {
        if name.get() == state.get() {
            return true;
        }
    }
    false
}

/// Whether the state is the last one.
fn is_last(last: &Option<Text>, name: &Text) -> bool
    ensures { result ≡ is_last last.now name.now }
{
    match last {
        Some(last) => last.get() == name.get(),
        None => false,
    }
}

/// How a state is marked.
fn state_mark(marks: &Marks, name: &Text) -> StateMark
    ensures { result ≡ state_mark marks.now name.now }
{
    if is_last(&marks.last, name) {
        StateMark::Last
    } else if is_passed(marks.states.get(), name) {
        StateMark::Passed
    } else {
        StateMark::Unmarked
    }
}

/// A row with its marks.
fn marked_line(marks: &Marks, line: PictureRow) -> PictureRow
    ensures { result ≡ marked_line marks.now line }
{
    let taken = has_row(marks.rows.get(), line.number);
    let mark = state_mark(marks, &line.state);
    PictureRow {
        taken,
        mark,
        ..line
    }
}

/// Rows with their marks.
fn marked_rows(
    alloc: Global,
    marks: &Marks,
    lines: Vec<PictureRow>,
) -> Result<Items<PictureRow>, OutOfMemory>
    ensures { IfOk result (λ all. all ≡ marked marks.now lines.items) }
{
    let mut all = Vec::new(alloc);
    for line in lines {
        let line = marked_line(marks, line);
        all.push(line)?;
    }
    Ok(Items::new(all))
}

/// The rows of the table that a JSON text is, with their marks; none if it is no table.
/// `OutOfMemory` if an allocation was refused.
pub fn marked_table(
    alloc: Global,
    bytes: &[u8],
    marks: &Marks,
) -> Result<Items<PictureRow>, OutOfMemory>
    ensures { IfOk result (λ lines. lines ≡ marked marks.now (table_lines bytes.now)) }
{
    let reading = table_reading(alloc, bytes)?;
    let lines = reading_lines(alloc, &reading)?;
    marked_rows(alloc, marks, lines)
}
