//! The explanation of one file.

ghost use Rattle.std.specs.Prelude.{◌≡◌, ◌≢◌, ◌∷◌, ◌++◌, [], Err, IfErr, IfOk, OnOk, string_bytes};
ghost use Rattle.std.specs.Io.KnownBytes.{Appends};
ghost use Rattle.wh_tester.specs.UnknownTypes.{is_no_code};
ghost use Rattle.wh_explain_report.specs.Explained.{IsExplained, IsViewedIf, explained_as, explanation_as, line_as, status_of, view_as, viewed_as};

use crate::json_lines::{write_json_explanation, write_last};
use crate::showing::write_explanation;
use std::alloc::Global;
use std::io;
use std::io::Write;
use wh_console::Format;
use wh_events::Text;
use wh_explain::{Explanation, Pairing, explain};
use wh_file_faults::CommandFault;
use wh_tester::{Line, Verdict, is_good, is_no_code, write_line};
use wh_view::{View, view_of};
use wh_view_json::write_json_view;
use wh_view_report::{Selection, write_view};
use wh_workflow::Workflow;

/// Writes an explanation. After an error some of it may have been written.
fn write_as<O: Write>(
    explanation: &Explanation,
    selection: Option<Selection>,
    format: Format,
    writer: &mut O,
) -> io::Result<()>
    ensures { let text = explanation_as selection format explanation.now in
        OnOk result (Appends (O.contents writer.old) (O.contents writer.new) text) }
{
    match format {
        Format::Json => write_json_explanation(explanation, selection, writer),
        Format::Text => write_explanation(explanation, selection, writer),
    }
}

/// Writes the line of a file in the report of replay. As JSON it has the difference that the tasks
/// end in, if they do. After an error some of it may have been written.
fn write_line_as<O: Write>(
    line: &Line,
    difference: &Option<Pairing>,
    format: Format,
    writer: &mut O,
) -> io::Result<()>
    ensures { let text = line_as format line.now difference.now in
        OnOk result (Appends (O.contents writer.old) (O.contents writer.new) text) }
{
    match format {
        Format::Json => write_last(line, difference, writer),
        Format::Text => write_line(line, writer),
    }
}

/// Writes a view as text or as lines of JSON: the tasks that are selected, or else all tasks, in the
/// text of which those that repeat others are folded. After an error some of it may have been
/// written.
pub fn write_view_as<O: Write>(
    view: &View,
    selection: Option<Selection>,
    format: Format,
    writer: &mut O,
) -> io::Result<()>
    ensures { OnOk result
        (Appends (O.contents writer.old) (O.contents writer.new) (view_as selection format view.now)) }
{
    match format {
        Format::Json => write_json_view(view, selection.unwrap_or(Selection::All), writer),
        Format::Text => write_view(view, selection, writer),
    }
}

/// What is recorded in a file, if its workflow type is not registered.
fn view_unregistered(
    alloc: Global,
    verdict: &Verdict,
    bytes: &[u8],
) -> Result<Option<View>, CommandFault>
    ensures viewed { IfOk result (IsViewedIf (is_no_code verdict.now) bytes.now) }
    ensures memory { IfErr result (λ fault. fault ≡ CommandFault.OutOfMemory) }
{
    if !is_no_code(verdict) {
        return Ok(None);
    }
    match view_of(alloc, bytes) {
        Ok(view) => Ok(Some(view)),
        Err(_) => Err(CommandFault::OutOfMemory),
    }
}

/// Writes a view, if there is one.
fn write_viewed<O: Write>(
    view: &Option<View>,
    selection: Option<Selection>,
    format: Format,
    writer: &mut O,
) -> io::Result<()>
    ensures { let text = viewed_as selection format view.now in
        OnOk result (Appends (O.contents writer.old) (O.contents writer.new) text) }
{
    match view {
        Some(view) => write_view_as(view, selection, format, writer),
        None => Ok(()),
    }
}

/// Writes the line of a file, and a view after it, if there is one.
fn write_end<O: Write>(
    line: &Line,
    difference: &Option<Pairing>,
    view: &Option<View>,
    selection: &Option<Selection>,
    format: Format,
    writer: &mut O,
) -> io::Result<()>
    ensures { let text = line_as format line.now difference.now ++ viewed_as selection.now format view.now in
        OnOk result (Appends (O.contents writer.old) (O.contents writer.new) text) }
{
    write_line_as(line, difference, format, writer)?;
    write_viewed(view, *selection, format, writer)
}

/// Writes an explanation, and after it the line of the file of this name and a view, if there is
/// one. Returns that line.
fn write_explained<O: Write>(
    name: String,
    explanation: Explanation,
    view: Option<View>,
    selection: Option<Selection>,
    format: Format,
    writer: &mut O,
) -> Result<Line, CommandFault>
    ensures written { IfOk result (λ line. let text = explained_as selection format explanation line view in
        Appends (O.contents writer.old) (O.contents writer.new) text) }
    ensures named { IfOk result (λ line. line.name ≡ string_bytes name) }
    ensures verdict { IfOk result (λ line. line.verdict ≡ explanation.verdict) }
    ensures memory { result ≢ Err CommandFault.OutOfMemory }
{
    let Ok(()) = write_as(&explanation, selection, format, writer) else {
        return Err(CommandFault::Output);
    };
    let Explanation {
        verdict,
        difference,
        ..
    } = explanation;
    let line = Line {
        name: Text::new(name),
        verdict,
    };
    match write_end(&line, &difference, &view, &selection, format, writer) {
        Ok(()) => Ok(line),
        Err(_) => Err(CommandFault::Output),
    }
}

/// Writes the explanation of a history file, of the tasks that are selected, or if nothing is of
/// those that matter, as `write_explanation` or `write_json_explanation` does, and then the line of
/// the file in the report of replay, as JSON with the members of the difference, if there is one.
/// If its workflow type is not registered, what is recorded in it follows, as `write_view_as` writes
/// it. The answer is that line. The history is
/// replayed once. Nothing is written if the answer is `OutOfMemory`.
pub fn explain_file<W: Workflow, O: Write>(
    alloc: Global,
    name: String,
    bytes: &[u8],
    selection: Option<Selection>,
    format: Format,
    writer: &mut O,
) -> Result<Line, CommandFault>
    ensures explained { IfOk result (IsExplained W.program (string_bytes name) bytes.now selection format
        (O.contents writer.old) (O.contents writer.new)) }
    ensures unwritten { result ≡ Err CommandFault.OutOfMemory → writer.new ≡ writer.old }
{
    let Ok(explanation) = explain::<W>(alloc, bytes) else {
        return Err(CommandFault::OutOfMemory);
    };
    let view = view_unregistered(alloc, &explanation.verdict, bytes)?;
    write_explained(name, explanation, view, selection, format, writer)
}

/// The status of the report of one file with this line.
pub fn line_status(line: &Line) -> u8
    ensures { result ≡ status_of (line.now ∷ []) }
{
    if is_good(&line.verdict) { 0 } else { 1 }
}
