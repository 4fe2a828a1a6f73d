//! The command `try`.

ghost use Rattle.std.specs.Prelude.{IfErr, IfOk};
ghost use Rattle.wh_console.specs.Inputs.{IsReadFrom};
ghost use Rattle.wh_diagnostics.specs.Failures.{IsWriteFailure};
ghost use Rattle.wh_diagnostics.specs.Listings.{AtPaths, FailsAtPaths};
ghost use Rattle.wh_diagnostics.specs.Printing.{IsRefused};
ghost use Rattle.wh_diagnostics.specs.Walks.{HasBrokenOff, HasWalked};
ghost use Rattle.wh_table_commands.specs.TrialReports.{HasReported};
ghost use Rattle.wh_table_commands.specs.Trials.{trials};

use crate::trial_report::report_trials;
use crate::trying::{TableTrial, try_input};
use std::alloc::Global;
use std::io::Write;
use std::rt::Runtime;
use wh_console::{Console, Format, Input};
use wh_diagnostics::{Failure, InputReader, Visitor, walk_paths};
use wh_events::Text;

/// The command `try`.
#[derive(Drop)]
struct Trials {
    /// The scenario that is given, if one is.
    scenario: Option<Text>,
    /// The form of the report.
    format: Format,
}

impl Visitor for Trials {
    type Kept = TableTrial;

    ghost visits = { λ own. trials own.scenario own.format };

    fn visit<R: InputReader + AllocGlobal, O: Write, E: Write>(
        &self,
        rt: &R,
        input: Input,
        _console: &mut Console<'_, O, E>,
    ) -> Result<TableTrial, Failure> {
        try_input(rt, input, &self.scenario)
    }

    fn finish<O: Write, E: Write>(
        &self,
        alloc: Global,
        all: Vec<TableTrial>,
        lacks: bool,
        console: &mut Console<'_, O, E>,
    ) -> Result<u8, Failure>
        ensures ended { IfOk result (HasReported all.items self.now.format lacks console.old console.new) }
        ensures refused { IfErr result (IsRefused console.old console.new) }
        ensures why { IfErr result IsWriteFailure }
    {
        report_trials::<O, E>(alloc, all, self.format, lacks, console)
    }
}

/// Tries the tables in the files at these paths, each on the scenario that is given, or else on the
/// one in the file beside it, which has `.txt` instead of `.json` at its end, and writes the
/// report. What is left out of folders is reported first, or that one has no file. As text, more
/// files or fewer than one have a last line with their number and how many of them are ok.
///
/// If the scenario beside a table can't be read or is not UTF-8, that is reported, the table counts
/// as one that is not ok, and the others are tried none the less. The status is 0 if nothing
/// differs and no file is skipped, and else 1. If there is one table alone and it has no scenario,
/// nothing is written, and the status is 2.
///
/// `Unreadable` if a path or the file of a table can't be read. `Output` if the report can't be
/// written. Other than `OutOfMemory` there is no failure but these. After a failure nothing was
/// reported but what is left out and folders without a file, and nothing was written unless it is
/// `Output`.
pub fn try_paths<R: Runtime + AllocGlobal, O: Write, E: Write>(
    rt: &R,
    first: Text,
    more: Vec<Text>,
    scenario: Option<Text>,
    format: Format,
    console: &mut Console<'_, O, E>,
) -> Result<u8, Failure>
    ensures tried { IfOk result (AtPaths (HasWalked (trials scenario format) IsReadFrom) first more.items
        console.old console.new) }
    ensures stopped { IfErr result (FailsAtPaths (HasBrokenOff (trials scenario format) IsReadFrom) first more.items
        console.old console.new) }
{
    let trials = Trials { scenario, format };
    walk_paths(&trials, rt, first, more, console)
}
