//! The rows of the report of a service, and the report.

ghost use Rattle.std.specs.Prelude.{◌≡◌, ◌++◌, OnOk, codes};
ghost use Rattle.std.specs.List.{flat_map};
ghost use Rattle.std.specs.Io.KnownBytes.{Appends};
ghost use Rattle.wh_tester.specs.Report.{shown};
ghost use Rattle.wh_service.specs.Services.{are_good, is_good_outcome};
ghost use Rattle.wh_service.specs.Texts.{counts_text, row_text, service_text};

use std::io;
use std::io::Write;
use wh_events::Text;
use wh_host::Totals;
use wh_json::ReadFault;
use wh_tester::{Line, Shown, Verdict, write_line};

/// How many tasks of a file were polled, and how they ended.
#[derive(Clone, Copy)]
pub struct FileCounts {
    /// Tasks that were polled.
    pub tasks: u64,
    /// Tasks to which `Complete` was sent.
    pub completed: u64,
    /// The other tasks.
    pub failed: u64,
}

/// A file by its name, with what came of its tasks, or why it cannot be read.
#[derive(Drop)]
pub struct FileRow {
    /// The name of the file.
    pub name: Text,
    /// Its counts, or the fault of reading it.
    pub outcome: Result<FileCounts, ReadFault>,
}

/// Writes the line of a file that was served.
fn write_counts<O: Write>(name: &str, counts: FileCounts, writer: &mut O) -> io::Result<()>
    ensures { OnOk result (Appends (O.contents writer.old) (O.contents writer.new)
        (shown name.now ++ (codes ": " ++ counts_text counts))) }
{
    let name = Shown(name);
    let FileCounts {
        tasks,
        completed,
        failed,
    } = counts;
    write!(
        writer,
        "{name}: {tasks} tasks, {completed} completed, {failed} failed\n"
    )
}

/// Writes the line of a file.
fn write_row<O: Write>(row: FileRow, writer: &mut O) -> io::Result<()>
    ensures { OnOk result (Appends (O.contents writer.old) (O.contents writer.new) (row_text row)) }
{
    let FileRow { name, outcome } = row;
    match outcome {
        Ok(counts) => write_counts(name.get(), counts, writer),
        Err(fault) => {
            let line = Line {
                name,
                verdict: Verdict::Unreadable(fault),
            };
            write_line(&line, writer)
        }
    }
}

/// Writes a line for each file, in the order given.
fn write_rows<O: Write>(rows: Vec<FileRow>, writer: &mut O) -> io::Result<()>
    ensures { OnOk result (Appends (O.contents writer.old) (O.contents writer.new) (flat_map row_text rows.items)) }
{
    for row in rows {
        write_row(row, writer)?;
    }
    Ok(())
}

/// Writes a line for each file in the order given, then the totals. After an error some of the
/// report may have been written.
pub(crate) fn write_service<O: Write>(
    rows: Vec<FileRow>,
    totals: Totals,
    writer: &mut O,
) -> io::Result<()>
    ensures { OnOk result (Appends (O.contents writer.old) (O.contents writer.new) (service_text rows.items totals)) }
{
    write_rows(rows, writer)?;
    writeln!(writer, "{totals}")
}

/// Whether the file was read and none of its tasks failed.
fn is_good(row: &FileRow) -> bool
    ensures { result ≡ is_good_outcome row.now.outcome }
{
    match &row.outcome {
        Ok(counts) => counts.failed == 0,
        Err(_) => false,
    }
}

/// Whether each file was read and no task of theirs failed.
pub(crate) fn are_good(rows: &[FileRow]) -> bool
    ensures { result ≡ are_good rows.now }
{
    rows.iter().all(|row| is_good(row))
}
