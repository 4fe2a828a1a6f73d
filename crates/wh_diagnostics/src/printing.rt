//! Prints what a command writes, and returns its status.

ghost use Rattle.std.specs.Prelude.{◌≡◌, Err, IfErr, IfOk, Ok, OnOk};
ghost use Rattle.std.specs.Io.KnownBytes.{Keeps};
ghost use Rattle.wh_console.specs.Consoles.{IsQuiet, Printed};
ghost use Rattle.wh_diagnostics.specs.Failures.{IsWriteFailure};
ghost use Rattle.wh_diagnostics.specs.Printing.{HasPrinted, status_with, unflushed};

use crate::failures::Failure;
use std::io::Write;
use wh_console::Console;
use wh_file_faults::CommandFault;

/// Flushes what a command wrote, and returns its status. If the command had a fault, that is
/// returned; if the output can't be flushed, `Output`.
pub fn flush_answer<O: Write, E: Write>(
    answer: Result<u8, CommandFault>,
    console: &mut Console<'_, O, E>,
) -> Result<u8, Failure>
    ensures status { IfOk result (λ status. answer ≡ Ok status) }
    ensures memory { answer ≡ Err CommandFault.OutOfMemory → result ≡ Err Failure.OutOfMemory }
    ensures output { answer ≡ Err CommandFault.Output → result ≡ Err Failure.Output }
    ensures failure { IfErr result (λ failure. failure ≡ unflushed answer) }
    ensures why { IfErr result IsWriteFailure }
    ensures quiet { IsQuiet console.old console.new }
    ensures kept { Keeps console.old.output console.new.output }
{
    let status = match answer {
        Ok(status) => status,
        Err(CommandFault::Output) => return Err(Failure::Output),
        Err(CommandFault::OutOfMemory) => return Err(Failure::OutOfMemory),
    };
    match console.output.flush() {
        Ok(()) => Ok(status),
        Err(_) => Err(Failure::Output),
    }
}

/// Writes a text.
fn print_text<O: Write, E: Write>(
    text: &str,
    console: &mut Console<'_, O, E>,
) -> Result<u8, CommandFault>
    ensures printed { OnOk result (Printed console.old console.new text.now) }
    ensures ends { IfOk result (λ status. status ≡ 0) }
    ensures output { IfErr result (λ fault. fault ≡ CommandFault.Output) }
    ensures quiet { IsQuiet console.old console.new }
{
    match write!(console.output, "{text}") {
        Ok(()) => Ok(0),
        Err(_) => Err(CommandFault::Output),
    }
}

/// Prints a text that the command line asks for, and returns status 0. Nothing is reported. Returns
/// `Output` if the text can't be written; part of it may have been written. There is no other
/// failure.
pub fn print<O: Write, E: Write>(text: &str, console: &mut Console<'_, O, E>) -> Result<u8, Failure>
    ensures printed { IfOk result (HasPrinted text.now 0 console.old console.new) }
    ensures output { IfErr result (λ failure. failure ≡ Failure.Output) }
    ensures quiet { IsQuiet console.old console.new }
{
    let answer = print_text(text, console);
    flush_answer(answer, console)
}

/// Returns the status of a command: 1 if files are missing, and `status` otherwise.
pub fn status_with(lacks: bool, status: u8) -> u8
    ensures status { result ≡ status_with lacks status }
{
    if lacks { 1 } else { status }
}
