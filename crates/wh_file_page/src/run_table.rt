//! The table of a run, with the path that the run took through its rows.
ghost use Rattle.std.specs.Prelude.{◌≡◌, ℕ, Bool, IfOk, List, Some};
ghost use Rattle.std.specs.Option.{option_map};
ghost use Rattle.wh_explain.specs.Reading.{IsReadOf};
ghost use Rattle.wh_html.specs.Html.{bytes};
ghost use Rattle.wh_file_page.specs.Readings.{IsReadAs};
ghost use Rattle.wh_file_page.specs.RunTables.{IsTableIn, IsTableOf, lines_of, marks_of, run_table};
ghost use Rattle.wh_file_page.specs.RunTables.{closed_words, section_html, standing_html, table_html};

use crate::following::way_of;
use crate::way::Way;
use std::alloc::Global;
use std::fmt;
use wh_events::{Event, Items, OutOfMemory, Payload, Text};
use wh_html::Escaped;
use wh_json::ReadFault;
use wh_table_picture::{MarkedPicture, Marks, PictureRow, marked_table};
use wh_workflow::text_of;

/// The table of a run, with the path that the run took through its rows.
#[derive(Drop)]
pub struct RunTable {
    /// Its rows, with their marks.
    pub(crate) lines: Items<PictureRow>,
    /// For how many jobs the run took a row.
    pub(crate) taken: usize,
    /// The state that it stands in after its last replayed task.
    pub(crate) state: Text,
    /// Whether it is closed then.
    pub(crate) closed: bool,
}

/// Returns what is marked of a path.
fn marks_of(alloc: Global, way: &Way) -> Result<Marks, OutOfMemory>
    ensures { IfOk result (λ marks. marks ≡ marks_of way.now) }
{
    let mut rows = Vec::new(alloc);
    let mut states = Vec::new(alloc);
    for turn in way.turns.get() {
        let state = turn.state.try_copy()?;
        rows.push(turn.row)?;
        states.push(state)?;
    }
    let last = if way.left.run.closed {
        None
    } else {
        Some(text_of(alloc, way.left.run.at.get())?)
    };
    Ok(Marks {
        rows: Items::new(rows),
        states: Items::new(states),
        last,
    })
}

/// The rows of the table that came in the first payload, with their marks.
fn lines_of(
    alloc: Global,
    marks: &Marks,
    payloads: &[Payload],
) -> Result<Items<PictureRow>, OutOfMemory>
    ensures { IfOk result (λ lines. lines ≡ lines_of marks.now payloads.now) }
{
    match payloads {
        [first, ..] => marked_table(alloc, first.content.get(), marks),
        [] => Ok(Items::new(Vec::new(alloc))),
    }
}

/// Returns the table of a run with this path.
fn run_table(alloc: Global, way: &Way) -> Result<RunTable, OutOfMemory>
    ensures { IfOk result (λ table. table ≡ run_table way.now) }
{
    let marks = marks_of(alloc, way)?;
    Ok(RunTable {
        lines: lines_of(alloc, &marks, way.left.payload.get())?,
        taken: way.turns.get().len(),
        state: text_of(alloc, way.left.run.at.get())?,
        closed: way.left.run.closed,
    })
}

/// Returns the table of the run of a history file, from the result of reading it, if it brings one
/// and a workflow task of it was started.
fn table_in(
    alloc: Global,
    read: &Result<Vec<Event>, ReadFault>,
) -> Result<Option<RunTable>, OutOfMemory>
    ensures { (bytes : List ℕ) → IsReadOf bytes read.now → IfOk result (IsTableIn bytes) }
{
    match way_of(alloc, read)? {
        Some(way) => Ok(Some(run_table(alloc, &way)?)),
        None => Ok(None),
    }
}

/// Returns the same, but `None` of a history that was not read.
pub(crate) fn table_as(
    alloc: Global,
    read: &Option<Result<Vec<Event>, ReadFault>>,
) -> Result<Option<RunTable>, OutOfMemory>
    ensures { (only_recorded : Bool) (bytes : List ℕ) → IsReadAs only_recorded bytes read.now
        → IfOk result (IsTableOf only_recorded bytes) }
{
    match read {
        Some(read) => table_in(alloc, read),
        None => Ok(None),
    }
}

/// Returns what is said of a run after its state, if it is closed.
fn closed_words(closed: bool) -> &'static str
    ensures { result.now ≡ closed_words closed }
{
    if closed { "; the run is closed" } else { "" }
}

/// Where a run stands after its last replayed task.
#[derive(Drop)]
struct RunStanding<'a>(&'a RunTable);

impl fmt::Display for RunStanding<'_> {
    ghost output = { λ own. Some (bytes (standing_html own.0.now)) };

    fn fmt<W: fmt::Write>(&self, f: &mut fmt::Formatter<W>) -> fmt::Result {
        let state = Escaped {
            text: &self.0.state,
            most: 100,
        };
        let closed = closed_words(self.0.closed);
        write!(
            f,
            "After its last replayed task it stands in the state <strong>{state}</strong>{closed}."
        )
    }
}

/// The section of the table of a run.
#[derive(Drop)]
struct Section<'a>(&'a RunTable);

impl fmt::Display for Section<'_> {
    ghost output = { λ own. Some (bytes (section_html own.0.now)) };

    fn fmt<W: fmt::Write>(&self, f: &mut fmt::Formatter<W>) -> fmt::Result {
        let taken = self.0.taken;
        let standing = RunStanding(self.0);
        let picture = MarkedPicture {
            lines: self.0.lines.get(),
            ended: self.0.closed,
        };
        write!(
            f,
            "<section>\n<h2 id=\"way\">The table of this run</h2>\n<p>Jobs for which the run took a row: {taken}. {standing}</p>\n{picture}</section>\n"
        )
    }
}

/// The section of the table of a run, if there is one.
#[derive(Drop)]
pub(crate) struct TablePart<'a>(pub(crate) &'a Option<RunTable>);

impl fmt::Display for TablePart<'_> {
    ghost output = { λ own. Some (bytes (table_html own.0.now)) };

    fn fmt<W: fmt::Write>(&self, f: &mut fmt::Formatter<W>) -> fmt::Result {
        match self.0 {
            Some(table) => {
                let section = Section(table);
                write!(f, "{section}")
            }
            None => Ok(()),
        }
    }
}
