//! Files are replayed batch by batch, and progress is reported between batches.

ghost use Rattle.std.specs.Prelude.{◌≡◌, IfErr, IfOk, OnOk, count_by, length};
ghost use Rattle.wh_console.specs.Consoles.{Reported};
ghost use Rattle.wh_replay_command.specs.Batches.{AddsRecords, faulty_of};
ghost use Rattle.wh_diagnostics.specs.Readings.{IsReadAs};
ghost use Rattle.wh_diagnostics.specs.Batches.{HasStopped, HasStoppedWhole, reports_after, reported_batches, reports_of};
ghost use Rattle.wh_diagnostics.specs.ProgressLines.{progress_of};
ghost use Rattle.wh_report.specs.Records.{AreRecordsOf};

use std::io::Write;
use std::thread::Threads;
use wh_console::{Console, Input, InputFault, ReplayOptions};
use wh_diagnostics::{
    InputReader, Progress, ProgressEnd, ProgressLine, ProgressMode, batch_size, file_from,
    reported_batches,
};
use wh_report::{Record, replay_inputs};
use wh_tester::is_good;
use wh_workflow::Workflow;

/// How many files have a fault.
fn fault_count(records: &[Record]) -> usize
    ensures { result ≡ count_by (λ own. own) (faulty_of records.now) }
{
    records
        .iter()
        .filter(|own| !is_good(&own.line.verdict))
        .count()
}

/// How far the replay of so many files has come.
fn progress_of(records: &[Record], total: usize) -> Progress
    ensures { result ≡ progress_of total (faulty_of records.now) }
{
    Progress {
        done: records.len(),
        total,
        faults: fault_count(records),
    }
}

/// Replays inputs, and adds their records to those before them.
fn replay_batch<W: Workflow + Send, R: InputReader + AllocGlobal + Threads + Sync>(
    rt: &R,
    inputs: Vec<Input>,
    options: ReplayOptions,
    records: &mut Vec<Record>,
) -> Result<(), InputFault>
    ensures { OnOk result
        (AddsRecords options W.program (IsReadAs R.gives) inputs.items records.old.items records.new.items) }
{
    let mut own = replay_inputs::<W, R, _, _>(
        rt,
        rt.alloc(),
        inputs,
        options,
        |input: Input| -> Result<(String, Vec<u8>), InputFault>
            ensures { IfOk result (IsReadAs R.gives input) }
        { file_from(rt, input) },
    )?;
    match records.append(&mut own) {
        Ok(()) => Ok(()),
        Err(_) => Err(InputFault::OutOfMemory),
    }
}

/// Replays inputs batch by batch, and returns their records in their order. Progress is reported
/// after each batch but the last; if an input can't be read, after some of those before it at most.
fn replay_batches<
    W: Workflow + Send,
    R: InputReader + AllocGlobal + Threads + Sync,
    O: Write,
    E: Write,
>(
    rt: &R,
    inputs: Vec<Input>,
    options: ReplayOptions,
    mode: ProgressMode,
    console: &mut Console<'_, O, E>,
) -> Result<Vec<Record>, InputFault>
    ensures found { IfOk result (λ records.
        AreRecordsOf options W.program (IsReadAs R.gives) inputs.items records.items) }
    ensures told { let total = length inputs.items in IfOk result (λ records. Reported console.old console.new
        (reports_after mode total (faulty_of records.items) (reported_batches mode total))) }
    ensures stopped { IfErr result (λ _. HasStopped (AreRecordsOf options W.program (IsReadAs R.gives)) faulty_of
        mode inputs.items console.old console.new) }
{
    let total = inputs.len();
    let size = batch_size(total);
    let mut records = Vec::new(rt.alloc());
    let mut left = inputs;
    for _batch in 0..reported_batches(mode, total) {
        let Ok(later) = left.split_off(size) else {
            return Err(InputFault::OutOfMemory);
        };
        replay_batch::<W, R>(rt, left, options, &mut records)?;
        left = later;
        let progress = progress_of(records.as_slice(), total);
        console.report(ProgressLine { mode, progress });
    }
    replay_batch::<W, R>(rt, left, options, &mut records)?;
    Ok(records)
}

/// Replays inputs, and returns their records in their order. Progress is reported between batches,
/// and then what erases a line of it that is written over itself, also if an input can't be read.
pub(crate) fn replay_in_batches<
    W: Workflow + Send,
    R: InputReader + AllocGlobal + Threads + Sync,
    O: Write,
    E: Write,
>(
    rt: &R,
    inputs: Vec<Input>,
    options: ReplayOptions,
    mode: ProgressMode,
    console: &mut Console<'_, O, E>,
) -> Result<Vec<Record>, InputFault>
    ensures found { IfOk result (λ records.
        AreRecordsOf options W.program (IsReadAs R.gives) inputs.items records.items) }
    ensures told { IfOk result (λ records.
        Reported console.old console.new (reports_of mode (faulty_of records.items))) }
    ensures stopped { IfErr result (λ _. HasStoppedWhole (AreRecordsOf options W.program (IsReadAs R.gives)) faulty_of
        mode inputs.items console.old console.new) }
{
    let lines = reported_batches(mode, inputs.len());
    let records = replay_batches::<W, R, O, E>(rt, inputs, options, mode, console);
    console.report(ProgressEnd { mode, lines });
    records
}
