//! The command `check`.

ghost use Rattle.std.specs.Prelude.{◌≡◌, Err, IfErr, IfOk, OnOk};
ghost use Rattle.wh_console.specs.Consoles.{IsQuiet, Printed};
ghost use Rattle.wh_console.specs.Inputs.{IsReadFrom};
ghost use Rattle.wh_diagnostics.specs.Failures.{IsWriteFailure};
ghost use Rattle.wh_diagnostics.specs.Listings.{AtPaths, FailsAtPaths};
ghost use Rattle.wh_diagnostics.specs.Printing.{HasPrinted, IsRefused, status_with};
ghost use Rattle.wh_diagnostics.specs.Walks.{HasBrokenOff, HasWalked};
ghost use Rattle.wh_table_check.specs.Checks.{status_of};
ghost use Rattle.wh_table_check.specs.Texts.{report_as};
ghost use Rattle.wh_table_commands.specs.Checks.{checks};

use crate::checking::check_input;
use std::alloc::Global;
use std::io::Write;
use std::rt::Runtime;
use wh_console::{Console, Format, Input, Outlet};
use wh_diagnostics::{Failure, InputReader, Visitor, flush_answer, status_with, walk_paths};
use wh_events::Text;
use wh_file_faults::CommandFault;
use wh_table_check::{TableCheck, status_of, write_checked};

/// The command `check`.
#[derive(Clone, Copy)]
struct Check {
    /// The form of the report.
    format: Format,
}

/// Writes the report of checks, and returns their status.
fn print_checks<O: Write, E: Write>(
    alloc: Global,
    all: &[TableCheck],
    format: Format,
    lacks: bool,
    console: &mut Console<'_, O, E>,
) -> Result<u8, CommandFault>
    ensures printed { OnOk result (Printed console.old console.new (report_as format all.now)) }
    ensures status { IfOk result (λ status. status ≡ status_with lacks (status_of all.now)) }
    ensures quiet { IsQuiet console.old console.new }
    ensures unwritten { result ≡ Err CommandFault.OutOfMemory → console.new.output ≡ console.old.output }
{
    write_checked::<Outlet<O>>(alloc, all, format, &mut console.output)?;
    Ok(status_with(lacks, status_of(all)))
}

/// Writes the report of checks, and returns their status after the output is flushed.
fn report_checks<O: Write, E: Write>(
    alloc: Global,
    all: &[TableCheck],
    format: Format,
    lacks: bool,
    console: &mut Console<'_, O, E>,
) -> Result<u8, Failure>
    ensures printed { IfOk result (HasPrinted (report_as format all.now) (status_with lacks (status_of all.now))
        console.old console.new) }
    ensures refused { IfErr result (IsRefused console.old console.new) }
    ensures why { IfErr result IsWriteFailure }
{
    let answer = print_checks(alloc, all, format, lacks, console);
    flush_answer(answer, console)
}

impl Visitor for Check {
    type Kept = TableCheck;

    ghost visits = { λ own. checks own.format };

    fn visit<R: InputReader + AllocGlobal, O: Write, E: Write>(
        &self,
        rt: &R,
        input: Input,
        _console: &mut Console<'_, O, E>,
    ) -> Result<TableCheck, Failure> {
        check_input(rt, input)
    }

    fn finish<O: Write, E: Write>(
        &self,
        alloc: Global,
        all: Vec<TableCheck>,
        lacks: bool,
        console: &mut Console<'_, O, E>,
    ) -> Result<u8, Failure>
        ensures ended { IfOk result (HasPrinted (report_as self.now.format all.items)
            (status_with lacks (status_of all.items)) console.old console.new) }
        ensures refused { IfErr result (IsRefused console.old console.new) }
        ensures why { IfErr result IsWriteFailure }
    {
        report_checks(alloc, all.as_slice(), self.format, lacks, console)
    }
}

/// Checks the tables in the files at these paths, decides their promises, and writes the report.
/// What is left out of folders is reported first, or that one has no file. The status is 0 if each
/// table is good and no file is skipped, and else 1.
///
/// `Unreadable` if a path or one of the files can't be read. `Output` if the report can't be
/// written. Other than `OutOfMemory` there is no failure but these. After a failure nothing was
/// reported but what is left out and folders without a file, and nothing was written unless it is
/// `Output`.
pub fn check_paths<R: Runtime + AllocGlobal, O: Write, E: Write>(
    rt: &R,
    first: Text,
    more: Vec<Text>,
    format: Format,
    console: &mut Console<'_, O, E>,
) -> Result<u8, Failure>
    ensures checked { IfOk result (AtPaths (HasWalked (checks format) IsReadFrom) first more.items
        console.old console.new) }
    ensures stopped { IfErr result (FailsAtPaths (HasBrokenOff (checks format) IsReadFrom) first more.items
        console.old console.new) }
{
    walk_paths(&Check { format }, rt, first, more, console)
}
