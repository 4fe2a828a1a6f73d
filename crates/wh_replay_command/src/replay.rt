//! The command `replay`.

ghost use Rattle.std.specs.Prelude.{◌≡◌, IfErr, IfOk, OnOk};
ghost use Rattle.std.specs.List.{list_any};
ghost use Rattle.wh_console.specs.Consoles.{IsQuiet, Printed, Reported};
ghost use Rattle.wh_replay_command.specs.Batches.{faulty_of};
ghost use Rattle.wh_replay_command.specs.Replays.{HasNotReplayedPaths, HasReplayed, HasReplayedPaths, HasReported};
ghost use Rattle.wh_diagnostics.specs.Batches.{LacksReport};
ghost use Rattle.wh_tester.specs.UnknownTypes.{is_no_code};
ghost use Rattle.wh_diagnostics.specs.Readings.{IsReadAs};
ghost use Rattle.wh_report.specs.Notes.{records_lines};
ghost use Rattle.wh_report.specs.Records.{AreRecordsOf};
ghost use Rattle.wh_report.specs.Reports.{records_status, report_of};

use crate::batches::replay_in_batches;
use std::io::Write;
use std::rt::Runtime;
use std::thread::Threads;
use wh_console::{Console, Input, ReplayOptions};
use wh_diagnostics::{
    Failure, InputReader, KnownTypes, ProgressMode, all_inputs, flush_answer, progress_mode,
    status_with,
};
use wh_events::Text;
use wh_file_faults::CommandFault;
use wh_report::{Record, report};
use wh_tester::is_no_code;
use wh_workflow::Workflow;

/// Writes the report of records that options ask for, and returns its status.
fn print_report<O: Write, E: Write>(
    records: &[Record],
    options: ReplayOptions,
    console: &mut Console<'_, O, E>,
) -> Result<u8, CommandFault>
    ensures printed { OnOk result (Printed console.old console.new (report_of options records.now)) }
    ensures status { IfOk result (λ status. status ≡ records_status records.now) }
    ensures quiet { IsQuiet console.old console.new }
    ensures output { IfErr result (λ fault. fault ≡ CommandFault.Output) }
{
    report(records, options, &mut console.output)
}

/// Reports what stands beside the report of records, in their order.
fn report_records<O: Write, E: Write>(records: Vec<Record>, console: &mut Console<'_, O, E>)
    ensures { Reported console.old console.new (records_lines records.items) }
{
    for own in records {
        console.report(own);
    }
}

/// Writes the report of records, and once it is out, reports what is sent and what is recorded
/// where they differ, warnings, where files are no JSON, and which workflow types are not
/// registered.
fn end_report<O: Write, E: Write>(
    records: Vec<Record>,
    options: ReplayOptions,
    lacks: bool,
    console: &mut Console<'_, O, E>,
) -> Result<u8, Failure>
    ensures reported { IfOk result (HasReported records.items options lacks console.old console.new) }
    ensures cut { IfErr result (λ failure. (failure ≡ Failure.Output) × IsQuiet console.old console.new) }
{
    let answer = print_report(records.as_slice(), options, console);
    let status = flush_answer(answer, console)?;
    report_records(records, console);
    Ok(status_with(lacks, status))
}

/// Whether there is no code for the workflow type of a file.
fn lack_code(records: &[Record]) -> bool
    ensures { result ≡ list_any (λ own. is_no_code own.line.verdict) records.now }
{
    records.iter().any(|own| is_no_code(&own.line.verdict))
}

/// Replays inputs, reports progress between batches of them, writes the report of their records,
/// and once it is out, reports what stands beside it, and the registered workflow types if that of
/// a file is not registered.
fn replay<W: Workflow + Send, R: InputReader + AllocGlobal + Threads + Sync, O: Write, E: Write>(
    rt: &R,
    inputs: Vec<Input>,
    options: ReplayOptions,
    mode: ProgressMode,
    types: &str,
    lacks: bool,
    console: &mut Console<'_, O, E>,
) -> Result<u8, Failure>
    ensures replayed { IfOk result
        (HasReplayed R.gives options W.program types.now inputs.items mode lacks console.old console.new) }
    ensures stopped { IfErr result (LacksReport (AreRecordsOf options W.program (IsReadAs R.gives)) faulty_of
        mode inputs.items console.old console.new) }
{
    let records = replay_in_batches::<W, R, O, E>(rt, inputs, options, mode, console)?;
    let lacking = lack_code(records.as_slice());
    let status = match end_report(records, options, lacks, console) {
        Ok(status) => status,
        Err(failure) => return Err(failure),
    };
    console.report(KnownTypes { types, lacking });
    Ok(status)
}

/// Replays what is at paths, writes the report, and once it is out, reports what stands beside it.
/// What is left out of folders is reported first, and then progress, if the standard error is a
/// terminal or the options ask for it: after each batch of files but the last. The report and the
/// status are the same without it. If values are strict, those of good files that differ from what
/// is recorded stand beside the report. If the workflow type of a file is not registered, `types`
/// are reported, which are, unless they are empty. The status is 1 if a file is not good or one is
/// lacking, and else 3 if such values differ, and 0 if none do.
///
/// `Unreadable` if a path or one of the files can't be read; nothing is written then, as with
/// `OutOfMemory`. `Output` if the report can't be written. There is no other failure. After a
/// failure nothing was reported but what is left out, folders without a file, and progress.
pub fn replay_paths<
    W: Workflow + Send,
    R: Runtime + AllocGlobal + Threads + Sync,
    O: Write,
    E: Write,
>(
    rt: &R,
    first: Text,
    more: Vec<Text>,
    options: ReplayOptions,
    types: &str,
    console: &mut Console<'_, O, E>,
) -> Result<u8, Failure>
where
    R::File: Send,
    R::Dir: Send,
    ensures replayed { IfOk result
        (HasReplayedPaths W.program types.now first more.items options console.old console.new) }
    ensures stopped { IfErr result
        (HasNotReplayedPaths W.program first more.items options console.old console.new) }
{
    let listed = all_inputs(rt, first, more, console)?;
    let lacks = listed.lacks_files(options.require_files);
    let mode = progress_mode(rt, options.progress);
    replay::<W, R, O, E>(rt, listed.inputs, options, mode, types, lacks, console)
}
