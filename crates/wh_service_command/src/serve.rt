//! The command `serve`.

ghost use Rattle.std.specs.Prelude.{◌≡◌, IfErr, IfOk, vec_len};
ghost use Rattle.wh_command_line.specs.Options.{sizes_of};
ghost use Rattle.wh_console.specs.Consoles.{IsQuiet};
ghost use Rattle.wh_diagnostics.specs.Batches.{HasStopped, LacksReport};
ghost use Rattle.wh_diagnostics.specs.Failures.{IsReadFailure};
ghost use Rattle.wh_diagnostics.specs.Readings.{IsReadAs};
ghost use Rattle.wh_slots.specs.Sizes.{IsConfig};
ghost use Rattle.wh_service.specs.Readings.{HasRead};
ghost use Rattle.wh_service.specs.Services.{IsEndOf, IsHost, IsHosted, leaves};
ghost use Rattle.wh_service_command.specs.Commands.{HasFinished, HasNotServedFolder, HasServed, HasServedAll, HasServedFolder, faulty_in};

use crate::batches::read_batches;
use crate::diagnostics::{ServiceNotes, faults_lack_code};
use std::io::Write;
use std::rt::Runtime;
use std::sync::Wait;
use std::thread::Threads;
use wh_command_line::ServeOptions;
use wh_console::{Console, Input};
use wh_diagnostics::{
    Failure, InputReader, KnownTypes, ProgressEnd, ProgressMode, flush_answer, folder_of,
    progress_mode, reported_batches, status_with,
};
use wh_events::{OutOfMemory, Text};
use wh_host::Config;
use wh_service::{
    PendingReport, ServiceEnd, ServiceHost, ServiceSetup, host_of, report_served, serve_read,
};
use wh_workflow::Workflow;

/// Writes the report of what was served.
fn print_service<O: Write, E: Write>(
    served: PendingReport,
    console: &mut Console<'_, O, E>,
) -> Result<ServiceEnd, Failure>
    ensures quiet { IsQuiet console.old console.new }
    ensures written { IfOk result (IsEndOf served console.old.output console.new.output) }
    ensures output { IfErr result (λ failure. failure ≡ Failure.Output) }
{
    match report_served(served, &mut console.output) {
        Ok(end) => Ok(end),
        Err(_) => Err(Failure::Output),
    }
}

/// Writes the report of what was served, and once it is out, reports the rest. The status is that
/// of the service, and 1 if files are lacking.
fn finish<O: Write, E: Write>(
    served: PendingReport,
    types: &str,
    lacks: bool,
    console: &mut Console<'_, O, E>,
) -> Result<u8, Failure>
    ensures finished { IfOk result (HasFinished types.now served lacks console.old console.new) }
    ensures cut { IfErr result (λ failure. (failure ≡ Failure.Output) × IsQuiet console.old console.new) }
{
    let end = print_service(served, console)?;
    let status = flush_answer(Ok(end.status), console)?;
    let lacking = faults_lack_code(end.file_faults.as_slice());
    console.report(ServiceNotes { end });
    console.report(KnownTypes { types, lacking });
    Ok(status_with(lacks, status))
}

/// Reads inputs batch by batch, and serves their tasks by a host of these sizes.
fn read_and_serve<
    W: Workflow + Send,
    R: InputReader + AllocGlobal + Threads + Sync,
    F: Fn(Config, Vec<ServiceSetup>) -> Result<ServiceHost, OutOfMemory>,
    O: Write,
    E: Write,
>(
    rt: &R,
    inputs: Vec<Input>,
    config: Config,
    mode: ProgressMode,
    host: F,
    console: &mut Console<'_, O, E>,
) -> Result<PendingReport, Failure>
where
    F: Drop,
    requires sizes { IsConfig config }
    requires runs { IsHost (F.pre host) (leaves (F.post host)) }
    ensures served { IfOk result (HasServed R.gives W.program (leaves (F.post host)) config inputs.items mode
        console.old console.new) }
    ensures stopped { IfErr result (λ _. HasStopped (HasRead (IsReadAs R.gives) W.program) faulty_in mode
        inputs.items console.old console.new) }
    ensures why { IfErr result IsReadFailure }
{
    let read = read_batches::<W, R, O, E>(rt, inputs, mode, console)?;
    match serve_read(rt.alloc(), read, config, host) {
        Ok(served) => Ok(served),
        Err(OutOfMemory) => Err(Failure::OutOfMemory),
    }
}

/// Serves inputs, writes the report, and once it is out, reports the rest. Progress is reported
/// while the inputs are read. If it is shown in one line, that stays while the host runs; what
/// erases it is written before the report, or if there is none.
fn serve<
    W: Workflow + Send,
    R: InputReader + AllocGlobal + Threads + Sync,
    F: Fn(Config, Vec<ServiceSetup>) -> Result<ServiceHost, OutOfMemory>,
    O: Write,
    E: Write,
>(
    rt: &R,
    inputs: Vec<Input>,
    options: ServeOptions,
    mode: ProgressMode,
    types: &str,
    lacks: bool,
    host: F,
    console: &mut Console<'_, O, E>,
) -> Result<u8, Failure>
where
    F: Drop,
    requires { IsHost (F.pre host) (leaves (F.post host)) }
    ensures served { IfOk result (HasServedAll R.gives W.program types.now (leaves (F.post host))
        (sizes_of options) inputs.items mode lacks console.old console.new) }
    ensures stopped { IfErr result (LacksReport (HasRead (IsReadAs R.gives) W.program) faulty_in mode
        inputs.items console.old console.new) }
{
    let lines = reported_batches(mode, inputs.len());
    let config = options.config();
    let served = read_and_serve::<W, R, F, O, E>(rt, inputs, config, mode, host, console);
    console.report(ProgressEnd { mode, lines });
    match served {
        Ok(served) => finish(served, types, lacks, console),
        Err(failure) => Err(failure),
    }
}

/// Serves the files of a folder by a host of the sizes that the options ask for, writes the report,
/// and once it is out, reports the rest. What is left out of the folder is reported first, and then
/// progress, if the standard error is a terminal or `progress` asks for it: after each batch of
/// files that were read but the last, with the number of files of which no history can be read. The
/// report and the status are the same without it. The status is that of the service, and 1 if files
/// are lacking. If the workflow type of a file is not registered, `types` are reported last, which
/// are, unless they are empty.
///
/// `Unreadable` if the folder or one of its files can't be read; progress may have been reported
/// then, and nothing is written, as with `OutOfMemory`. `Output` if the report can't be written: all
/// files have been read then, and progress has been reported to its end. There is no other failure.
/// After a failure nothing was reported but what is left out, that the folder has no file, and
/// progress.
pub fn serve_folder<
    W: Workflow + Send,
    R: Runtime + AllocGlobal + Threads + Wait + Sync,
    O: Write,
    E: Write,
>(
    rt: &R,
    dir: Text,
    options: ServeOptions,
    require_files: bool,
    progress: bool,
    types: &str,
    console: &mut Console<'_, O, E>,
) -> Result<u8, Failure>
where
    R::File: Send,
    R::Dir: Send,
    ensures served { IfOk result (HasServedFolder W.program types.now dir (sizes_of options) require_files
        progress console.old console.new) }
    ensures stopped { IfErr result
        (HasNotServedFolder W.program dir progress console.old console.new) }
{
    let listed = folder_of(rt, dir, console)?;
    let lacks = listed.lacks_files(require_files);
    let mode = progress_mode(rt, progress);
    serve::<W, _, _, _, _>(
        rt,
        listed.inputs,
        options,
        mode,
        types,
        lacks,
        |config: Config, setups: Vec<ServiceSetup>| -> Result<ServiceHost, OutOfMemory>
            requires sizes { IsConfig config }
            requires seats { config.seats ≡ vec_len setups }
            ensures { IfOk result (IsHosted W.program config setups) }
        { host_of::<W, R>(rt, rt.alloc(), config, setups) },
        console,
    )
}
