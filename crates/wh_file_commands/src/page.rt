//! The command `explain --html`.

ghost use Rattle.std.specs.Prelude.{◌≡◌, ◌≢◌, ◌↔◌, Err, IfErr, IfOk, IsOk, string_bytes};
ghost use Rattle.std.specs.Io.KnownBytes.{Keeps};
ghost use Rattle.wh_console.specs.Consoles.{IsQuiet};
ghost use Rattle.wh_diagnostics.specs.Files.{HasCarriedOut, IsNotCarriedOut};
ghost use Rattle.wh_diagnostics.specs.Printing.{IsRefused};
ghost use Rattle.wh_file_commands.specs.Pages.{HasPaged};
ghost use Rattle.wh_file_commands.specs.Private.Refusals.{IsUnpaged};
ghost use Rattle.wh_file_commands.specs.Refusals.{IsUnshown};
ghost use Rattle.wh_file_page.specs.Pages.{IsPaged};
ghost use Rattle.wh_json.specs.declared.fault.ReadFault.{ReadFault};
ghost use Rattle.wh_view.specs.Views.{members_of};

use crate::view::view_failure;
use std::alloc::Global;
use std::io;
use std::io::Write;
use wh_console::{Console, Outlet};
use wh_diagnostics::{Failure, InputReader, file_at, flush_answer};
use wh_events::Text;
use wh_file_page::{PageFault, page_command};
use wh_workflow::Workflow;

/// Writes the page of a file, and returns its status.
fn print_page<W: Workflow, O: Write, E: Write>(
    alloc: Global,
    name: &str,
    bytes: &[u8],
    only_recorded: bool,
    console: &mut Console<'_, O, E>,
) -> Result<u8, PageFault>
    ensures quiet { IsQuiet console.old console.new }
    ensures paged { IfOk result (IsPaged W.program only_recorded name.now bytes.now
        console.old.output console.new.output) }
    ensures unwritten { IfErr result (λ fault. fault ≢ PageFault.Output
        → Keeps console.old.output console.new.output) }
    ensures unviewed { (fault : ReadFault) → result ≡ Err (PageFault.Unviewed fault)
        → members_of bytes.now ≡ Err fault }
    ensures output { result ≡ Err PageFault.Output → IsOk (members_of bytes.now) }
{
    page_command::<W, Outlet<O>>(alloc, name, bytes, only_recorded, &mut console.output)
}

/// Why there is no page of a file.
fn failure_of(alloc: Global, name: String, fault: PageFault, bytes: &[u8]) -> Failure
    ensures why { IsUnpaged (string_bytes name) bytes.now fault result }
    ensures output { (result ≡ Failure.Output) ↔ (fault ≡ PageFault.Output) }
{
    match fault {
        PageFault::Unviewed(fault) => view_failure(alloc, Text::new(name), fault, bytes),
        PageFault::Output => Failure::Output,
        PageFault::OutOfMemory => Failure::OutOfMemory,
    }
}

/// Writes the page of a file, and returns the status once it is out.
fn page<W: Workflow, O: Write, E: Write>(
    alloc: Global,
    name: String,
    bytes: Vec<u8>,
    only_recorded: bool,
    console: &mut Console<'_, O, E>,
) -> Result<u8, Failure>
    ensures paged { IfOk result (HasPaged W.program only_recorded (name, bytes) console.old console.new) }
    ensures refused { IfErr result (IsRefused console.old console.new) }
    ensures why { IfErr result (IsUnshown (name, bytes)) }
{
    let seen = bytes.as_slice();
    match print_page::<W, O, E>(alloc, name.as_str(), seen, only_recorded, console) {
        Ok(status) => flush_answer(Ok(status), console),
        Err(fault) => Err(failure_of(alloc, name, fault, seen)),
    }
}

/// Writes a page of the history at a path as HTML: with the verdict of its replay, whose status it
/// returns, or with nothing replayed if only what is recorded is to be shown, and then the status
/// is 0.
///
/// `Unreadable` if it can't be read. `NotJson` if it is not JSON, and `NotViewed` if it has no list
/// of events for another reason. `Output` if it has one, and the page can't be written. Other than
/// `OutOfMemory` there is no failure but these. After a failure nothing was reported, and nothing
/// was written unless it is `Output`.
pub fn page_path<W: Workflow, R: InputReader + io::Input + AllocGlobal, O: Write, E: Write>(
    rt: &R,
    path: Text,
    only_recorded: bool,
    console: &mut Console<'_, O, E>,
) -> Result<u8, Failure>
    ensures paged { IfOk result
        (HasCarriedOut R.gives (HasPaged W.program only_recorded) path console.old console.new) }
    ensures refused { IfErr result (IsRefused console.old console.new) }
    ensures why { IfErr result (IsNotCarriedOut R.gives IsUnshown path) }
{
    let (name, bytes) = file_at(rt, path)?;
    page::<W, O, E>(rt.alloc(), name, bytes, only_recorded, console)
}
