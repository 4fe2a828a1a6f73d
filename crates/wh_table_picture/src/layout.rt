//! Where the rows of a table stand in its picture, and where they lead to.
ghost use Rattle.std.specs.Prelude.{◌≡◌, ◌==◌, ◌<◌, ◌+◌, ◌^◌, ◌++◌, nat_lt, count_by, IfOk, OnOk, map, option_to_list};
ghost use Rattle.std.specs.Option.{option_map};
ghost use Rattle.serde_json.specs.View.{view};
ghost use Rattle.wh_table_text.specs.Numbered.{numbered};
ghost use Rattle.wh_table_picture.specs.Cells.{words_at};
ghost use Rattle.wh_table_picture.specs.Layout.{first_of, firsts_of, has_row, leads_to, rows_above, place_of, state_count, way_to, index_in};
ghost use Rattle.wh_table_picture.specs.Layout.{line_of, line_at, lines_of};

use crate::cells::words_at;
use serde_json::Value;
use std::alloc::Global;
use wh_events::{OutOfMemory, Text};
use wh_html::first_items;
use wh_row_rules::{OwnedRow, some_closes, text_eq};

/// How a state is marked in a picture.
#[derive(Clone, Copy)]
pub enum StateMark {
    /// It is not.
    Unmarked,
    /// It was passed.
    Passed,
    /// It is the last one.
    Last,
}

/// Where a row leads to.
#[derive(Clone, Copy)]
pub struct RowWay {
    /// The place of the first row of the state, or the number of rows if it closes the run.
    pub place: usize,
    /// How many states begin above that one: the lane of the picture that leads there.
    pub lane: usize,
    /// Whether it closes the run.
    pub closes: bool,
}

/// A row of a table as its picture has it.
#[derive(Drop)]
pub struct PictureRow {
    /// Its place in the picture, counted from 0: the rows of a state stand together there, in their
    /// order.
    pub place: usize,
    /// Its number, counted from 1.
    pub number: usize,
    /// Whether it is the first one for its state.
    pub begins: bool,
    /// Its state.
    pub state: Text,
    /// The words of its job.
    pub job: Text,
    /// Those of its conditions.
    pub conditions: Text,
    /// Those of its commands.
    pub gives: Text,
    /// The name of its next state, which is empty if it stays.
    pub next: Text,
    /// The words of its marks.
    pub marks: Text,
    /// Where it leads to. `None` if it stays in its state.
    pub way: Option<RowWay>,
    /// Whether the row is marked as one that was taken.
    pub taken: bool,
    /// How its state is marked.
    pub mark: StateMark,
}

/// Whether one of these is the row of this number.
pub(crate) fn has_row(rows: &[usize], number: usize) -> bool
    ensures { result ≡ has_row rows.now number }
{
    for row in rows {
        if *row == number {
            return true;
        }
    }
    false
}

/// The index of the first row for the state, or the number of rows if there is none.
fn first_of(name: &Text, rows: &[OwnedRow]) -> usize
    ensures { result ≡ first_of name.now rows.now }
{
    let mut place = 0;
    for row in rows {
        if text_eq(&row.state, name) {
            return place;
        }
        place += 1;
    }
    place
}

/// The index of the first row of the state that a row leads to, or the number of rows if it closes
/// the run. `None` if it stays in its state.
fn leads_to(rows: &[OwnedRow], row: &OwnedRow) -> Option<usize>
    ensures { result ≡ leads_to rows.now row.now }
{
    if some_closes(row.gives.get()) {
        Some(rows.len())
    } else if row.next.get() == "same" || text_eq(&row.next, &row.state) {
        None
    } else {
        Some(first_of(&row.next, rows))
    }
}

/// For each row the index of the first row for its state.
fn firsts_of(alloc: Global, rows: &[OwnedRow]) -> Result<Vec<usize>, OutOfMemory>
    ensures { IfOk result (λ firsts. firsts.items ≡ firsts_of rows.now) }
{
    let mut firsts = Vec::new(alloc);
    for row in rows {
        firsts.push(first_of(&row.state, rows))?;
    }
    Ok(firsts)
}

/// How many rows stand above those of a state: the rows of the states that begin before it.
fn rows_above(firsts: &[usize], first: usize) -> usize
    ensures { result ≡ rows_above firsts.now first }
{
    firsts.iter().filter(|other| **other < first).count()
}

/// How many of the rows are of the state that begins with the row at this index.
fn rows_of(firsts: &[usize], first: usize) -> usize
    ensures { result ≡ count_by (λ other. other == first) firsts.now }
{
    firsts.iter().filter(|other| **other == first).count()
}

/// The place in the picture of the row at an index, whose state begins with the row at `first`.
fn place_of(firsts: &[usize], index: usize, first: usize) -> usize
    ensures { result ≡ place_of firsts.now index first }
{
    rows_above(firsts, first) + rows_of(first_items(firsts, index), first)
}

/// How many states begin with one of these rows, which are the first of a table.
fn state_count(firsts: &[usize]) -> usize
    ensures { result ≡ state_count firsts.now }
{
    let mut count: usize = 0;
    for (index, first) in firsts.iter().enumerate() {
        if *first == index {
            count += 1;
        }
    }
    count
}

/// The way to the state that begins with the row at an index, or to the end.
fn way_to(firsts: &[usize], target: usize) -> RowWay
    ensures { result ≡ way_to firsts.now target }
{
    RowWay {
        place: rows_above(firsts, target),
        lane: state_count(first_items(firsts, target)),
        closes: target == firsts.len(),
    }
}

/// The way of a row, unless it stays in its state.
fn way_of(firsts: &[usize], target: Option<usize>) -> Option<RowWay>
    ensures { result ≡ option_map (way_to firsts.now) target }
{
    match target {
        Some(target) => Some(way_to(firsts, target)),
        None => None,
    }
}

/// The index at a place of the list; 0 if there is none.
fn index_in(firsts: &[usize], place: usize) -> usize
    ensures { result ≡ index_in firsts.now place }
{
    match firsts.get(place) {
        Some(first) => *first,
        None => 0,
    }
}

/// The words of a member of a row.
fn text_at(alloc: Global, value: &Value, index: usize) -> Result<Text, OutOfMemory>
    ensures { IfOk result (λ text. text ≡ words_at index (view value.now)) }
{
    Ok(Text::new(words_at(alloc, value, index)?))
}

/// The row at an index.
fn line_of(
    alloc: Global,
    rows: &[OwnedRow],
    firsts: &[usize],
    index: usize,
    row: &OwnedRow,
    value: &Value,
) -> Result<PictureRow, OutOfMemory>
    requires { index + 1 < 2 ^ 64 }
    ensures { IfOk result (λ line. line ≡ line_of rows.now firsts.now index row.now (view value.now)) }
{
    let first = index_in(firsts, index);
    Ok(PictureRow {
        place: place_of(firsts, index, first),
        number: index + 1,
        begins: first == index,
        state: row.state.try_copy()?,
        job: text_at(alloc, value, 1)?,
        conditions: text_at(alloc, value, 2)?,
        gives: text_at(alloc, value, 3)?,
        next: text_at(alloc, value, 4)?,
        marks: text_at(alloc, value, 5)?,
        way: way_of(firsts, leads_to(rows, row)),
        taken: false,
        mark: StateMark::Unmarked,
    })
}

/// The row at an index, if there is one.
fn line_at(
    alloc: Global,
    rows: &[OwnedRow],
    firsts: &[usize],
    index: usize,
    value: &Value,
) -> Result<Option<PictureRow>, OutOfMemory>
    requires { index + 1 < 2 ^ 64 }
    ensures { IfOk result (λ line. option_to_list line ≡ line_at rows.now firsts.now index (view value.now)) }
{
    match rows.get(index) {
        Some(row) => Ok(Some(line_of(alloc, rows, firsts, index, row, value)?)),
        None => Ok(None),
    }
}

/// Adds a row, if there is one.
fn add(lines: &mut Vec<PictureRow>, line: Option<PictureRow>) -> Result<(), OutOfMemory>
    ensures { OnOk result (lines.new.items ≡ lines.old.items ++ option_to_list line) }
{
    if let Some(line) = line {
        lines.push(line)?;
    }
    Ok(())
}

/// The rows of a table, each with the index of the first row for its state.
fn lines_with(
    alloc: Global,
    rows: &[OwnedRow],
    firsts: &[usize],
    values: &[Value],
) -> Result<Vec<PictureRow>, OutOfMemory>
    ensures { IfOk result (λ lines. lines.items ≡ numbered (line_at rows.now firsts.now) 0 (map view values.now)) }
{
    let mut lines = Vec::new(alloc);
    for (place, value) in values.iter().enumerate() {
        let line = line_at(alloc, rows, firsts, place, value)?;
        add(&mut lines, line)?;
    }
    Ok(lines)
}

/// The rows of a table, with the words that a list of JSON has for them.
pub(crate) fn lines_of(
    alloc: Global,
    rows: &[OwnedRow],
    values: &[Value],
) -> Result<Vec<PictureRow>, OutOfMemory>
    ensures { IfOk result (λ lines. lines.items ≡ lines_of rows.now (map view values.now)) }
{
    let firsts = firsts_of(alloc, rows)?;
    lines_with(alloc, rows, firsts.as_slice(), values)
}
