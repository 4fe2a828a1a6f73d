//! The command `replay` over files that are there already.

ghost use Rattle.std.specs.Prelude.{◌≡◌, Err, IfOk, List, Ok};
ghost use Rattle.std.specs.List.{AllZip};
ghost use Rattle.std.specs.Io.KnownBytes.{Appends};
ghost use Rattle.wh_report.specs.Records.{IsRecordOf};
ghost use Rattle.wh_report.specs.Reports.{records_status, report_of};
ghost use Rattle.wh_report.specs.declared.records.Record.{Record as RecordView};

use crate::records::replay_inputs;
use crate::reports::report;
use std::alloc::Global;
use std::io::Write;
use std::thread::Threads;
use wh_console::{InputFault, ReplayOptions};
use wh_file_faults::CommandFault;
use wh_workflow::Workflow;

/// Replays files, given by name and bytes, and writes the report that options ask for: in their
/// format, and with the values that differ if values are strict. `require_files` and `progress`
/// change nothing here: who lists the files obeys them, as `replay_paths` of `wh_replay_command` does.
/// The status is 1 if a file is not good, and else 3 if values of one differ, and 0 if none do.
/// Nothing is written if the answer is `OutOfMemory`.
pub fn replay_command<W: Workflow + Send, R: Threads + Sync, O: Write>(
    rt: &R,
    alloc: Global,
    files: Vec<(String, Vec<u8>)>,
    options: ReplayOptions,
    writer: &mut O,
) -> Result<u8, CommandFault>
    ensures reported { IfOk result (λ status. (records : List RecordView)
        × AllZip (IsRecordOf options W.program) files.items records
        × Appends (O.contents writer.old) (O.contents writer.new) (report_of options records)
        × (status ≡ records_status records)) }
    ensures unwritten { result ≡ Err CommandFault.OutOfMemory → writer.new ≡ writer.old }
{
    let Ok(records) = replay_inputs::<W, _, _, _>(
        rt,
        alloc,
        files,
        options,
        |file: (String, Vec<u8>)| -> Result<(String, Vec<u8>), InputFault>
            ensures { IfOk result (λ own. own ≡ file) }
        { Ok(file) },
    ) else {
        return Err(CommandFault::OutOfMemory);
    };
    report(records.as_slice(), options, writer)
}
