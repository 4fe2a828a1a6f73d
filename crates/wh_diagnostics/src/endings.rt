//! How a program ends without a full report.

ghost use Rattle.std.specs.Prelude.{◌≡◌};
ghost use Rattle.std.specs.Process.{exit_status};
ghost use Rattle.wh_diagnostics.specs.Endings.{HasFailed, is_closed_pipe};

use crate::line::UNCALLED;
use crate::{Diagnostic, Failure};
use std::io;
use std::io::Write;
use std::process::ExitCode;
use wh_console::{Console, ErrorPrinter};

/// The status of a run that ends without a full report.
const FAILED: u8 = 2;

/// Whether the failure is that of a closed pipe: the standard output can't be written, since its
/// reader closed it.
fn is_closed_pipe(failure: &Failure, closed: bool) -> bool
    ensures { result ≡ is_closed_pipe failure.now closed }
{
    match failure {
        Failure::Output => closed,
        _ => false,
    }
}

/// Reports why there is no full report, unless the failure is that of a closed pipe, and returns
/// the status, which is 2.
pub fn fail<O: Write, E: Write>(failure: Failure, console: &mut Console<'_, O, E>) -> u8
    ensures { HasFailed failure console.old console.new result }
{
    if is_closed_pipe(&failure, console.is_closed()) {
        drop(failure);
    } else {
        console.report(Diagnostic::Failed { failure });
    }
    FAILED
}

/// Reports why there is nothing to do, under a name of the program, and returns the status, which
/// is 2.
pub fn fail_under<R: Eprint>(rt: &R, name: &str, failure: Failure) -> u8
    ensures { result ≡ 2 }
{
    let mut console = Console::new(name, io::sink(), ErrorPrinter::new(rt));
    fail(failure, &mut console)
}

/// Reports that there is no memory to begin with, and returns the status, which is 2.
pub fn no_memory<R: Eprint>(rt: &R) -> ExitCode
    ensures { exit_status result ≡ 2 }
{
    ExitCode::from(fail_under(rt, UNCALLED, Failure::OutOfMemory))
}
