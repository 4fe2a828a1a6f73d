//! Writes a view as text.

ghost use Rattle.std.specs.Prelude.{◌≡◌, OnOk};
ghost use Rattle.std.specs.Io.KnownBytes.{Appends};
ghost use Rattle.wh_view_report.specs.Views.{text_of};

use crate::folding::write_folded;
use crate::text::{span_of, write_span};
use std::io;
use std::io::Write;
use wh_console::Selection;
use wh_view::View;

/// Writes a view as text. The first lines have
/// - the workflow type and the counts;
/// - the workflow id, the run id, the Task Queue and the parent of the run, as far as its first
///   event tells them;
/// - `Running`, or how the run was closed, by which event, and after how long.
///
/// If tasks around an event are selected and no event has its number, the next line says so. Then
/// each event of the selected tasks, or of all if none are selected, has a line, in the order of the
/// history, except `WorkflowTaskScheduled` and `WorkflowTaskStarted`:
/// - `  told TYPE ..` for an event that becomes an activation job of the next task,
/// - `task N: WorkflowTaskCompleted ..` for the completion of a task,
/// - `  gives TYPE ..` for an event that records what the workflow did in that task.
///
/// After the type come the id and the type of the event's thing, or what a marker of an SDK records
/// (`local activity TYPE`, `side effect ID`, `mutable side effect ID`, `version ID VERSION`, `patch
/// ID`), then the event's number as `(event N)`, its time as the history writes it, the events that
/// started, canceled, ended or opened the thing, how long the thing waited for its start or took
/// from there to its end, the attempt, also that of a local activity, `deprecated` of a patch, the
/// run id of a child that has started, the duration of a timer, why something failed, with the
/// causes of that, and what is wrong with the event. Each
/// value of the event follows on a line of its own. Of a text the first 80 characters are shown; if
/// it is longer, the number of its characters follows.
///
/// If tasks are selected, the next line says how many events belong to other tasks, if there are
/// some. If tasks around an event are selected and no event has its number, these are all events but
/// those of tasks that were completed before the first one. If none are selected, a task that is
/// like one of the four before it is not written, and in place of tasks next to each other that are
/// not, a line says how many tasks and events they are, and which is the last. Two tasks are alike if
/// they have the same events about the same things, which have come equally far or failed for the
/// same reason, but for ids, digits, times, lengths of time and values.
///
/// Then each type, or name of markers, that the reader of histories does not support has a line,
/// with the number of its events and the number of the first one. If the run is open, the next line
/// says what it waits for. The last lines are of the types of its activities and child workflows,
/// and one of its timers, in the order of the first of each: how many there are, how many of them
/// failed and how many are open, the median of their times from opening to end, the longest of
/// these, and by what event that one was opened. All these are of the whole run, whichever tasks are
/// selected.
///
/// After an error some of the text may have been written.
pub fn write_view<O: Write>(
    view: &View,
    selection: Option<Selection>,
    writer: &mut O,
) -> io::Result<()>
    ensures { OnOk result
        (Appends (O.contents writer.old) (O.contents writer.new) (text_of view.now selection)) }
{
    match selection {
        Some(selection) => {
            let span = span_of(view, &selection);
            write_span(view, &selection, span, writer)
        }
        None => write_folded(view, writer),
    }
}
