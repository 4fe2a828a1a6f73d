//! The overview of several histories that `explain --recorded` writes: a line for each.

ghost use Rattle.std.specs.Prelude.{◌≡◌, IfErr, IfOk, None, OnOk, Some, is_some};
ghost use Rattle.std.specs.List.{list_all};
ghost use Rattle.std.specs.Io.KnownBytes.{Appends};
ghost use Rattle.wh_console.specs.Consoles.{IsQuiet, Printed};
ghost use Rattle.wh_diagnostics.specs.Failures.{IsWriteFailure};
ghost use Rattle.wh_diagnostics.specs.Printing.{HasPrinted, IsRefused, status_with};
ghost use Rattle.wh_explain_report.specs.Overviews.{counts_as, run_as};
ghost use Rattle.wh_diagnostics.specs.Walks.{IsTold};
ghost use Rattle.wh_file_commands.specs.Overviews.{TellsFile, TellsInput, no_history_as, overview_status, overviews, unread_as};
ghost use Rattle.wh_file_commands.specs.Private.Told.{IsToldFailure, IsUntoldFailure};
ghost use Rattle.wh_view.specs.Runs.{status_of};

use crate::view::view_failure;
use std::alloc::Global;
use std::io;
use std::io::Write;
use wh_console::{Console, Format, Input, InputFault, Reason};
use wh_diagnostics::{Failure, InputReader, Visitor, flush_answer, status_with};
use wh_events::Text;
use wh_explain_report::{write_counts_as, write_run_as};
use wh_file_faults::{CommandFault, FaultDetail, FaultDetailMembers};
use wh_json::ReadFault;
use wh_tester::{
    EscapedName, Line, Shown, Verdict, write_json_line, write_line, write_open_json_line,
};
use wh_view::{RunStatus, View, view_of};

/// Writes the line of a history, and returns the status of its run.
fn tell_history<O: Write, E: Write>(
    name: &str,
    view: &View,
    format: Format,
    console: &mut Console<'_, O, E>,
) -> Result<Option<RunStatus>, Failure>
    ensures printed { OnOk result (Printed console.old console.new (run_as format name.now view.now)) }
    ensures status { IfOk result (λ status. status ≡ Some (status_of view.now.events)) }
    ensures quiet { IsQuiet console.old console.new }
    ensures output { IfErr result (λ failure. failure ≡ Failure.Output) }
{
    match write_run_as(name, view, format, &mut console.output) {
        Ok(()) => Ok(Some(view.status())),
        Err(_) => Err(Failure::Output),
    }
}

/// Writes the line of a file that is no JSON.
fn write_not_json<O: Write>(
    file: Text,
    detail: FaultDetail,
    format: Format,
    writer: &mut O,
) -> io::Result<()>
    ensures { OnOk result (Appends (O.contents writer.old) (O.contents writer.new)
        (no_history_as format (Failure.NotJson file detail))) }
{
    match format {
        Format::Json => {
            let line = Line {
                name: file,
                verdict: Verdict::Unreadable(ReadFault::BadJson),
            };
            write_open_json_line(&line, writer)?;
            let members = FaultDetailMembers(Some(&detail));
            write!(writer, "{members}}}\n")
        }
        Format::Text => {
            let name = Shown(file.get());
            write!(writer, "{name}: {detail}\n")
        }
    }
}

/// Writes the line of a file that has no list of events for another reason.
fn write_not_viewed<O: Write>(
    file: Text,
    fault: ReadFault,
    format: Format,
    writer: &mut O,
) -> io::Result<()>
    ensures { OnOk result (Appends (O.contents writer.old) (O.contents writer.new)
        (no_history_as format (Failure.NotViewed file fault))) }
{
    let line = Line {
        name: file,
        verdict: Verdict::Unreadable(fault),
    };
    match format {
        Format::Json => write_json_line(&line, writer),
        Format::Text => write_line(&line, writer),
    }
}

/// Writes the line of a file that has no history, by why it is not shown.
fn tell_no_history<O: Write, E: Write>(
    failure: Failure,
    format: Format,
    console: &mut Console<'_, O, E>,
) -> Result<Option<RunStatus>, Failure>
    ensures told { IfOk result (IsToldFailure format failure console.old console.new) }
    ensures untold { IfErr result (IsUntoldFailure failure console.old console.new) }
{
    let written = match failure {
        Failure::NotJson { file, detail } => {
            write_not_json(file, detail, format, &mut console.output)
        }
        Failure::NotViewed { file, fault } => {
            write_not_viewed(file, fault, format, &mut console.output)
        }
        other => return Err(other),
    };
    match written {
        Ok(()) => Ok(None),
        Err(_) => Err(Failure::Output),
    }
}

/// Writes the line of a file that was read, and returns the status of its run, if it has a history.
fn tell_file<O: Write, E: Write>(
    alloc: Global,
    name: String,
    bytes: Vec<u8>,
    format: Format,
    console: &mut Console<'_, O, E>,
) -> Result<Option<RunStatus>, Failure>
    ensures told { IfOk result (IsTold (TellsFile (name, bytes) format) console.old console.new) }
    ensures refused { IfErr result (IsRefused console.old console.new) }
    ensures why { IfErr result IsWriteFailure }
{
    let seen = bytes.as_slice();
    match view_of(alloc, seen) {
        Ok(view) => tell_history(name.as_str(), &view, format, console),
        Err(fault) => {
            let failure = view_failure(alloc, Text::new(name), fault, seen);
            tell_no_history(failure, format, console)
        }
    }
}

/// Writes the line of what can't be read, as text or as JSON.
fn write_unread<O: Write>(
    name: &str,
    reason: Reason,
    format: Format,
    writer: &mut O,
) -> io::Result<()>
    ensures { OnOk result
        (Appends (O.contents writer.old) (O.contents writer.new) (unread_as format name.now reason)) }
{
    let why = reason.words();
    match format {
        Format::Json => {
            let name = EscapedName(name);
            let why = EscapedName(why);
            write!(
                writer,
                "{{\"file\":\"{name}\",\"verdict\":\"unreadable\",\"fault\":\"{why}\"}}\n"
            )
        }
        Format::Text => {
            let name = Shown(name);
            write!(writer, "{name}: unreadable, {why}\n")
        }
    }
}

/// Writes the line of an input that can't be read.
fn tell_unread<O: Write, E: Write>(
    name: &str,
    reason: Reason,
    format: Format,
    console: &mut Console<'_, O, E>,
) -> Result<Option<RunStatus>, Failure>
    ensures printed { OnOk result (Printed console.old console.new (unread_as format name.now reason)) }
    ensures status { IfOk result (λ status. status ≡ None) }
    ensures quiet { IsQuiet console.old console.new }
    ensures output { IfErr result (λ failure. failure ≡ Failure.Output) }
{
    match write_unread(name, reason, format, &mut console.output) {
        Ok(()) => Ok(None),
        Err(_) => Err(Failure::Output),
    }
}

/// Reads an input and writes its line. Returns the status of its run, if it is a history.
fn tell_input<R: InputReader + AllocGlobal, O: Write, E: Write>(
    rt: &R,
    input: Input,
    format: Format,
    console: &mut Console<'_, O, E>,
) -> Result<Option<RunStatus>, Failure>
    ensures told { IfOk result (IsTold (TellsInput R.gives input format) console.old console.new) }
    ensures refused { IfErr result (IsRefused console.old console.new) }
    ensures why { IfErr result IsWriteFailure }
{
    let Input { name, origin } = input;
    match rt.read(origin) {
        Ok(bytes) => tell_file(rt.alloc(), name, bytes, format, console),
        Err(InputFault::Unreadable { reason, .. }) => {
            tell_unread(name.as_str(), reason, format, console)
        }
        Err(InputFault::OutOfMemory) => Err(Failure::OutOfMemory),
    }
}

/// Returns whether a file has a run.
fn has_run(status: &Option<RunStatus>) -> bool
    ensures { result ≡ is_some status.now }
{
    status.is_some()
}

/// Returns whether each file has a run.
fn have_runs(statuses: &[Option<RunStatus>]) -> bool
    ensures { result ≡ list_all is_some statuses.now }
{
    statuses.iter().all(|status| has_run(status))
}

/// Returns the status of an overview: 0 if each file is a history, and else 1.
fn overview_status(statuses: &[Option<RunStatus>]) -> u8
    ensures { result ≡ overview_status statuses.now }
{
    if have_runs(statuses) { 0 } else { 1 }
}

/// Writes how many runs have each status, and returns the status of the command, which is 1 if
/// files are lacking.
fn print_counts<O: Write, E: Write>(
    statuses: &[Option<RunStatus>],
    lacks: bool,
    format: Format,
    console: &mut Console<'_, O, E>,
) -> Result<u8, CommandFault>
    ensures printed { OnOk result (Printed console.old console.new (counts_as format statuses.now)) }
    ensures status { IfOk result (λ status. status ≡ status_with lacks (overview_status statuses.now)) }
    ensures output { IfErr result (λ fault. fault ≡ CommandFault.Output) }
    ensures quiet { IsQuiet console.old console.new }
{
    match write_counts_as(statuses, format, &mut console.output) {
        Ok(()) => Ok(status_with(lacks, overview_status(statuses))),
        Err(_) => Err(CommandFault::Output),
    }
}

/// Writes how many runs have each status, and puts that out.
fn end_overview<O: Write, E: Write>(
    statuses: &[Option<RunStatus>],
    lacks: bool,
    format: Format,
    console: &mut Console<'_, O, E>,
) -> Result<u8, Failure>
    ensures printed { IfOk result (HasPrinted (counts_as format statuses.now)
        (status_with lacks (overview_status statuses.now)) console.old console.new) }
    ensures quiet { IsQuiet console.old console.new }
    ensures output { IfErr result (λ failure. failure ≡ Failure.Output) }
{
    let answer = print_counts(statuses, lacks, format, console);
    flush_answer(answer, console)
}

/// What `explain --recorded` writes of several histories: the line of each, in their order, and then
/// how many runs have each status. The status is 0 if each input is a history and no file is
/// lacking, and else 1.
#[derive(Clone, Copy)]
pub(crate) struct Overview {
    /// The form of the lines.
    pub(crate) format: Format,
}

impl Visitor for Overview {
    type Kept = Option<RunStatus>;

    ghost visits = { λ own. overviews own.format };

    fn visit<R: InputReader + AllocGlobal, O: Write, E: Write>(
        &self,
        rt: &R,
        input: Input,
        console: &mut Console<'_, O, E>,
    ) -> Result<Option<RunStatus>, Failure> {
        tell_input(rt, input, self.format, console)
    }

    fn finish<O: Write, E: Write>(
        &self,
        _alloc: Global,
        all: Vec<Option<RunStatus>>,
        lacks: bool,
        console: &mut Console<'_, O, E>,
    ) -> Result<u8, Failure>
        ensures ended { IfOk result (HasPrinted (counts_as self.now.format all.items)
            (status_with lacks (overview_status all.items)) console.old console.new) }
        ensures refused { IfErr result (IsRefused console.old console.new) }
        ensures why { IfErr result IsWriteFailure }
    {
        end_overview(all.as_slice(), lacks, self.format, console)
    }
}
