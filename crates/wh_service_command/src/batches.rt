//! Files are read batch by batch, and progress is reported between batches.

ghost use Rattle.std.specs.Prelude.{◌≡◌, IfErr, IfOk, OnOk, length};
ghost use Rattle.wh_console.specs.Consoles.{Reported};
ghost use Rattle.wh_diagnostics.specs.Batches.{HasStopped, reports_after, reported_batches};
ghost use Rattle.wh_diagnostics.specs.ProgressLines.{progress_of};
ghost use Rattle.wh_diagnostics.specs.Readings.{IsReadAs};
ghost use Rattle.wh_service.specs.Readings.{AddsRead, HasRead};
ghost use Rattle.wh_service_command.specs.Commands.{faulty_in};

use std::io::Write;
use std::thread::Threads;
use wh_console::{Console, Input, InputFault};
use wh_diagnostics::{
    InputReader, Progress, ProgressLine, ProgressMode, batch_size, file_from, reported_batches,
};
use wh_service::{ReadFiles, read_inputs};
use wh_workflow::Workflow;

/// How far the reading of so many files has come.
fn progress_of(read: &ReadFiles, total: usize) -> Progress
    ensures { result ≡ progress_of total (faulty_in read.now) }
{
    Progress {
        done: read.count(),
        total,
        faults: read.unread_count(),
    }
}

/// Reads inputs, and adds what is read of them to what was read before.
fn read_batch<W: Workflow + Send, R: InputReader + AllocGlobal + Threads + Sync>(
    rt: &R,
    inputs: Vec<Input>,
    read: &mut ReadFiles,
) -> Result<(), InputFault>
    ensures { OnOk result (AddsRead (IsReadAs R.gives) W.program inputs.items read.old read.new) }
{
    let own = read_inputs::<W, R, _, _>(
        rt,
        rt.alloc(),
        inputs,
        |input: Input| -> Result<(String, Vec<u8>), InputFault>
            ensures { IfOk result (IsReadAs R.gives input) }
        { file_from(rt, input) },
    )?;
    match read.append(own) {
        Ok(()) => Ok(()),
        Err(_) => Err(InputFault::OutOfMemory),
    }
}

/// Reads inputs batch by batch, and returns what was read of them in their order. Progress is
/// reported after each batch but the last; if an input can't be read, after some of those before it
/// at most.
pub(crate) fn read_batches<
    W: Workflow + Send,
    R: InputReader + AllocGlobal + Threads + Sync,
    O: Write,
    E: Write,
>(
    rt: &R,
    inputs: Vec<Input>,
    mode: ProgressMode,
    console: &mut Console<'_, O, E>,
) -> Result<ReadFiles, InputFault>
    ensures read { IfOk result (HasRead (IsReadAs R.gives) W.program inputs.items) }
    ensures reported { let total = length inputs.items in IfOk result (λ read. Reported console.old console.new
        (reports_after mode total (faulty_in read) (reported_batches mode total))) }
    ensures stopped { IfErr result (λ _. HasStopped (HasRead (IsReadAs R.gives) W.program)
        faulty_in mode inputs.items console.old console.new) }
{
    let total = inputs.len();
    let size = batch_size(total);
    let mut read = ReadFiles::new(rt.alloc());
    let mut left = inputs;
    for _batch in 0..reported_batches(mode, total) {
        let Ok(later) = left.split_off(size) else {
            return Err(InputFault::OutOfMemory);
        };
        read_batch::<W, R>(rt, left, &mut read)?;
        left = later;
        let progress = progress_of(&read, total);
        console.report(ProgressLine { mode, progress });
    }
    read_batch::<W, R>(rt, left, &mut read)?;
    Ok(read)
}
