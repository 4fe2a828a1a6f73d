//! The rows that a run takes on the way to a broken promise.
ghost use Rattle.std.specs.Prelude.{◌≡◌, ◌++◌, IfOk, OnOk};
ghost use Rattle.wh_table_picture.specs.Paths.{rows_of, promise_text, path_of, paths_from, paths_of};

use std::alloc::Global;
use wh_events::{Items, OutOfMemory, Text};
use wh_row_rules::{
    Breach, PhraseFinding, PromiseFinding, PromiseFindings, PromiseVerdict, WayStep,
};
use wh_tester::Shown;

/// Rows that a run follows; a picture of the table marks them.
#[derive(Drop)]
pub struct RowPath {
    /// The text about the marks.
    pub text: Text,
    /// The numbers of the rows, counted from 1, in the order in which the run follows them.
    pub rows: Items<usize>,
}

/// The rows that a path takes.
fn rows_of(alloc: Global, way: &[WayStep]) -> Result<Vec<usize>, OutOfMemory>
    ensures { IfOk result (λ rows. rows.items ≡ rows_of way.now) }
{
    let mut rows = Vec::new(alloc);
    for step in way {
        if let Some(row) = step.row {
            rows.push(row)?;
        }
    }
    Ok(rows)
}

/// Which promise a path breaks.
fn promise_text(alloc: Global, number: usize, phrase: &Text) -> Result<Text, OutOfMemory>
    ensures { IfOk result (λ text. text ≡ promise_text number phrase.now) }
{
    let phrase = Shown(phrase.get());
    let text = format!(in alloc; "promise {number}, {phrase}")?;
    Ok(Text::new(text))
}

/// The rows of the path that breaks a promise of this number.
fn path_by(
    alloc: Global,
    number: usize,
    phrase: &Text,
    breach: &Breach,
) -> Result<RowPath, OutOfMemory>
    ensures text { IfOk result (λ path. path.text ≡ promise_text number phrase.now) }
    ensures rows { IfOk result (λ path. path.rows ≡ rows_of breach.now.way.items) }
{
    let text = promise_text(alloc, number, phrase)?;
    let rows = rows_of(alloc, breach.way.as_slice())?;
    Ok(RowPath {
        text,
        rows: Items::new(rows),
    })
}

/// Adds the rows of the path that breaks a promise of this number, if it is broken.
fn add_path(
    alloc: Global,
    paths: &mut Vec<RowPath>,
    number: usize,
    finding: &PromiseFinding,
) -> Result<(), OutOfMemory>
    ensures { OnOk result (paths.new.items ≡ paths.old.items ++ path_of number finding.now.phrase finding.now.outcome) }
{
    if let PhraseFinding::Decided(PromiseVerdict::Broken(breach)) = &finding.outcome {
        let path = path_by(alloc, number, &finding.phrase, breach)?;
        paths.push(path)?;
    }
    Ok(())
}

/// The rows of the paths that break promises.
fn each_path(alloc: Global, list: &[PromiseFinding]) -> Result<Vec<RowPath>, OutOfMemory>
    ensures { IfOk result (λ paths. paths.items ≡ paths_from 1 list.now) }
{
    let mut paths = Vec::new(alloc);
    for (index, finding) in list.iter().enumerate() {
        add_path(alloc, &mut paths, index + 1, finding)?;
    }
    Ok(paths)
}

/// Those of the promises of a table.
pub(crate) fn paths_of(alloc: Global, found: &PromiseFindings) -> Result<Vec<RowPath>, OutOfMemory>
    ensures { IfOk result (λ paths. paths.items ≡ paths_of found.now) }
{
    match found {
        PromiseFindings::Each(list) => each_path(alloc, list.get()),
        _ => Ok(Vec::new(alloc)),
    }
}
