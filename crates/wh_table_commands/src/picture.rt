//! The command `check --html`.

ghost use Rattle.std.specs.Prelude.{◌≡◌, ◌∷◌, [], Err, IfErr, IfOk};
ghost use Rattle.wh_console.specs.Consoles.{IsQuiet, Printed};
ghost use Rattle.wh_diagnostics.specs.Failures.{IsWriteFailure};
ghost use Rattle.wh_diagnostics.specs.Files.{HasCarriedOut, IsNotCarriedOut};
ghost use Rattle.wh_diagnostics.specs.Printing.{IsRefused};
ghost use Rattle.wh_html.specs.Html.{bytes};
ghost use Rattle.wh_table_check.specs.Checks.{status_of};
ghost use Rattle.wh_table_commands.specs.Pictures.{IsDrawingOf, HasDrawn};
ghost use Rattle.wh_table_picture.specs.Pages.{page_html};

use crate::checking::read_and_check;
use crate::files::{TableFile, table_of};
use std::alloc::Global;
use std::io::Write;
use std::{io, slice};
use wh_console::{Console, Outlet};
use wh_diagnostics::{Failure, InputReader, file_at, flush_answer};
use wh_events::{OutOfMemory, Text};
use wh_file_faults::CommandFault;
use wh_table_check::status_of;
use wh_table_picture::{Drawing, drawing_of, write_page};

/// Reads and checks the table in a file. Returns what its page shows.
fn draw_table(alloc: Global, file: &TableFile) -> Result<Drawing, OutOfMemory>
    ensures { IfOk result (IsDrawingOf file.now) }
{
    let (reading, own) = read_and_check(alloc, file)?;
    drawing_of(alloc, &reading, own)
}

/// Reads and checks the table in a file, and writes its page.
fn print_picture<O: Write, E: Write>(
    alloc: Global,
    file: &TableFile,
    console: &mut Console<'_, O, E>,
) -> Result<Drawing, CommandFault>
    ensures drawn { IfOk result (IsDrawingOf file.now) }
    ensures printed { IfOk result (λ drawing. Printed console.old console.new (bytes (page_html drawing))) }
    ensures quiet { IsQuiet console.old console.new }
    ensures unwritten { result ≡ Err CommandFault.OutOfMemory → console.new.output ≡ console.old.output }
{
    let Ok(drawing) = draw_table(alloc, file) else {
        return Err(CommandFault::OutOfMemory);
    };
    match write_page::<Outlet<O>>(&drawing, &mut console.output) {
        Ok(()) => Ok(drawing),
        Err(_) => Err(CommandFault::Output),
    }
}

/// Returns the status of a page, which is that of the check of its table.
fn picture_status(drawing: &Drawing) -> u8
    ensures { result ≡ status_of (drawing.now.checked ∷ []) }
{
    status_of(slice::from_ref(&drawing.checked))
}

/// Checks the table in a file, writes its page, and returns the status after the output is flushed.
fn draw<O: Write, E: Write>(
    alloc: Global,
    file: (String, Vec<u8>),
    console: &mut Console<'_, O, E>,
) -> Result<u8, Failure>
    ensures drawn { IfOk result (HasDrawn file console.old console.new) }
    ensures refused { IfErr result (IsRefused console.old console.new) }
    ensures why { IfErr result IsWriteFailure }
{
    let table = table_of(file);
    let drawing = match print_picture::<O, E>(alloc, &table, console) {
        Ok(drawing) => drawing,
        Err(fault) => return flush_answer(Err(fault), console),
    };
    flush_answer(Ok(picture_status(&drawing)), console)
}

/// Checks the table in the file at this path, decides its promises, and writes an HTML page with
/// the findings and a picture of the table's states. The status is that of the check.
///
/// `Unreadable` if the file can't be read. `Output` if the page can't be written. Other than
/// `OutOfMemory` there is no failure but these. After a failure nothing was reported, and nothing
/// was written unless it is `Output`.
pub fn picture_path<R: InputReader + io::Input + AllocGlobal, O: Write, E: Write>(
    rt: &R,
    path: Text,
    console: &mut Console<'_, O, E>,
) -> Result<u8, Failure>
    ensures drawn { IfOk result (HasCarriedOut R.gives HasDrawn path console.old console.new) }
    ensures refused { IfErr result (IsRefused console.old console.new) }
    ensures why { IfErr result (IsNotCarriedOut R.gives (λ file. IsWriteFailure) path) }
{
    let file = file_at(rt, path)?;
    draw::<O, E>(rt.alloc(), file, console)
}
