//! What an overview of histories shows of a run and of all runs, as text or as lines of JSON.

ghost use Rattle.std.specs.Prelude.{◌≡◌, OnOk};
ghost use Rattle.std.specs.Io.KnownBytes.{Appends};
ghost use Rattle.wh_explain_report.specs.Overviews.{counts_as, run_as};

use crate::run_counts::{write_counts_line, write_counts_object};
use crate::run_line::write_run_line;
use crate::run_object::write_run_object;
use std::io;
use std::io::Write;
use wh_console::Format;
use wh_view::{RunStatus, View};

/// Writes the line of the run in a file of this name, as text or as JSON (RFC 8259). After the name
/// it has, as far as the history tells it:
/// - the workflow type and the workflow id;
/// - whether the run is open, or how it was closed (Temporal documentation, "Workflow Execution");
/// - when it started, as the history writes it, and how long it took, if it is closed;
/// - the highest attempt of an activity, in text if that is not the first;
/// - the first cause for which it was closed: of a failure and its causes the last one that is
///   viewed, and else the reason that the closing event gives.
///
/// As JSON it is an object with `file`, `type`, `workflowId`, `runId`, `status`, `started`,
/// `seconds`, `attempts`, `cause` and `causeType`, as far as they are told. The name of the file is
/// shown as in the report of replay, other texts as the report of one history shows them: their
/// first 80 characters, as JSON the first 1,000. After an error some of the line may have been
/// written.
pub fn write_run_as<O: Write>(
    name: &str,
    view: &View,
    format: Format,
    writer: &mut O,
) -> io::Result<()>
    ensures { OnOk result
        (Appends (O.contents writer.old) (O.contents writer.new) (run_as format name.now view.now)) }
{
    match format {
        Format::Json => write_run_object(name, view, writer),
        Format::Text => write_run_line(name, view, writer),
    }
}

/// Writes the line of how many runs have each status, from the statuses of the runs in files, where
/// `None` stands for a file that has no run that can be told. In text a status that no run has is
/// left out; as JSON it is an object with `runs`, and under the name of each status and under
/// `unreadable` a number. After an error some of the line may have been written.
pub fn write_counts_as<O: Write>(
    statuses: &[Option<RunStatus>],
    format: Format,
    writer: &mut O,
) -> io::Result<()>
    ensures { OnOk result
        (Appends (O.contents writer.old) (O.contents writer.new) (counts_as format statuses.now)) }
{
    match format {
        Format::Json => write_counts_object(statuses, writer),
        Format::Text => write_counts_line(statuses, writer),
    }
}
