//! What `explain --recorded` shows of one history.

ghost use Rattle.std.specs.Prelude.{◌≡◌, IfErr, IfOk, OnOk};
ghost use Rattle.wh_console.specs.Consoles.{IsQuiet, Printed};
ghost use Rattle.wh_diagnostics.specs.Printing.{IsRefused};
ghost use Rattle.wh_file_commands.specs.Private.Refusals.{IsUnviewed, IsUnviewedJson};
ghost use Rattle.wh_diagnostics.specs.Readings.{IsReadAs};
ghost use Rattle.wh_file_commands.specs.Recorded.{HasNotShownInput};
ghost use Rattle.wh_file_commands.specs.Refusals.{IsUnshown};
ghost use Rattle.wh_file_commands.specs.Views.{HasViewed};
ghost use Rattle.wh_file_faults.specs.Faults.{File};
ghost use Rattle.wh_explain_report.specs.Explained.{view_as};

use std::alloc::Global;
use std::io::Write;
use wh_console::{Console, Format, Input};
use wh_diagnostics::{Failure, InputReader, file_from, flush_answer};
use wh_events::{OutOfMemory, Text};
use wh_explain_report::write_view_as;
use wh_file_faults::{CommandFault, json_detail};
use wh_json::ReadFault;
use wh_view::{View, view_of};
use wh_view_report::Selection;

/// Why the events in a file that is taken for no JSON can't be shown.
fn not_json(alloc: Global, file: Text, bytes: &[u8]) -> Failure
    ensures { IsUnviewedJson file bytes.now result }
{
    match json_detail(alloc, bytes) {
        Ok(Some(detail)) => Failure::NotJson { file, detail },
        Ok(None) => Failure::NotViewed {
            file,
            fault: ReadFault::BadJson,
        },
        Err(OutOfMemory) => Failure::OutOfMemory,
    }
}

/// Why the events in a file can't be shown.
pub(crate) fn view_failure(alloc: Global, file: Text, fault: ReadFault, bytes: &[u8]) -> Failure
    ensures { IsUnviewed file bytes.now fault result }
{
    match fault {
        ReadFault::OutOfMemory => Failure::OutOfMemory,
        ReadFault::BadJson => not_json(alloc, file, bytes),
        _ => Failure::NotViewed { file, fault },
    }
}

/// Writes a view.
fn print_view<O: Write, E: Write>(
    view: &View,
    selection: Option<Selection>,
    format: Format,
    console: &mut Console<'_, O, E>,
) -> Result<u8, CommandFault>
    ensures printed { OnOk result (Printed console.old console.new (view_as selection format view.now)) }
    ensures ends { IfOk result (λ status. status ≡ 0) }
    ensures quiet { IsQuiet console.old console.new }
    ensures output { IfErr result (λ fault. fault ≡ CommandFault.Output) }
{
    match write_view_as(view, selection, format, &mut console.output) {
        Ok(()) => Ok(0),
        Err(_) => Err(CommandFault::Output),
    }
}

/// Shows what is recorded in a file.
fn view<O: Write, E: Write>(
    alloc: Global,
    name: String,
    bytes: Vec<u8>,
    selection: Option<Selection>,
    format: Format,
    console: &mut Console<'_, O, E>,
) -> Result<u8, Failure>
    ensures viewed { IfOk result (HasViewed selection format (name, bytes) console.old console.new) }
    ensures refused { IfErr result (IsRefused console.old console.new) }
    ensures why { IfErr result (IsUnshown (name, bytes)) }
{
    let seen = bytes.as_slice();
    let view = match view_of(alloc, seen) {
        Ok(view) => view,
        Err(fault) => return Err(view_failure(alloc, Text::new(name), fault, seen)),
    };
    let answer = print_view(&view, selection, format, console);
    flush_answer(answer, console)
}

/// Shows what is recorded in the history that an input holds, with nothing replayed: the tasks that
/// are selected, or else all, in text with those that repeat others folded. The status is 0.
///
/// `Unreadable` if it can't be read. `NotJson` if it is not JSON, and `NotViewed` if it has no list
/// of events for another reason. `Output` if it has one, and the text can't be written. Other than
/// `OutOfMemory` there is no failure but these. After a failure nothing was reported, and nothing
/// was written unless it is `Output`.
pub(crate) fn view_input<R: InputReader + AllocGlobal, O: Write, E: Write>(
    rt: &R,
    input: Input,
    selection: Option<Selection>,
    format: Format,
    console: &mut Console<'_, O, E>,
) -> Result<u8, Failure>
    ensures viewed { IfOk result (λ status. (file : File) × IsReadAs R.gives input file
        × HasViewed selection format file console.old console.new status) }
    ensures stopped { IfErr result (HasNotShownInput R.gives input console.old console.new) }
{
    let (name, bytes) = file_from(rt, input)?;
    view(rt.alloc(), name, bytes, selection, format, console)
}
