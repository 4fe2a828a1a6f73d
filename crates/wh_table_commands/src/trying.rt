//! Tries the table in a file on its scenario.

ghost use Rattle.std.specs.Prelude.{◌≡◌, ◌≢◌, IfErr, IfOk};
ghost use Rattle.wh_diagnostics.specs.Readings.{IsUnread};
ghost use Rattle.wh_table_commands.specs.Trials.{IsTrialOf, IsTried, trial_lacking, trial_on};

use crate::files::{TableFile, table_file};
use crate::scenario::{input_beside, scenario_of};
use std::alloc::Global;
use std::io;
use std::io::Write;
use wh_console::{Input, Message};
use wh_diagnostics::{Diagnostic, Failure, InputReader};
use wh_events::Text;
use wh_table_trial::{Trial, try_table};

/// What came of the trial of the table in a file.
#[derive(Drop)]
pub struct TableTrial {
    /// The name of the file.
    pub name: Text,
    /// The trial.
    pub own: Trial,
    /// Why the table has no scenario, if it has none.
    pub lack: Option<Failure>,
}

impl TableTrial {
    /// Returns why the table has no scenario, if it has none.
    fn into_lack(self) -> Option<Failure>
        ensures { result ≡ self.lack }
    {
        let TableTrial { name, own, lack } = self;
        drop(name);
        drop(own);
        lack
    }
}

impl Message for TableTrial {
    ghost use Rattle.wh_table_commands.specs.TrialReports.{lack_line};

    ghost text = { λ own. lack_line own.lack };

    fn write<E: Write>(self, name: &str, writer: &mut E) -> io::Result<()> {
        match self.into_lack() {
            Some(failure) => Diagnostic::Failed { failure }.write(name, writer),
            None => Ok(()),
        }
    }
}

/// Tries the table in a file on a scenario.
fn try_on(alloc: Global, file: TableFile, scenario: &str) -> Result<TableTrial, Failure>
    ensures tried { IfOk result (λ own. own ≡ trial_on file scenario.now) }
    ensures memory { IfErr result (λ failure. failure ≡ Failure.OutOfMemory) }
{
    let TableFile { name, bytes } = file;
    let Ok(own) = try_table(alloc, bytes.get(), scenario) else {
        return Err(Failure::OutOfMemory);
    };
    Ok(TableTrial {
        name,
        own,
        lack: None,
    })
}

/// Returns what comes of the table in a file that has no scenario, unless there was no memory.
fn without_scenario(alloc: Global, file: TableFile, lack: Failure) -> Result<TableTrial, Failure>
    ensures lacking { IfOk result (λ own. own ≡ trial_lacking file lack) }
    ensures other { IfOk result (λ _. lack ≢ Failure.OutOfMemory) }
    ensures memory { IfErr result (λ failure. failure ≡ Failure.OutOfMemory) }
{
    let TableFile { name, bytes } = file;
    drop(bytes);
    match lack {
        Failure::OutOfMemory => Err(Failure::OutOfMemory),
        lack => Ok(TableTrial {
            name,
            own: Trial::without_scenario(alloc),
            lack: Some(lack),
        }),
    }
}

/// Tries the table in a file on the scenario that is given, or else on the one beside it.
fn try_file<R: InputReader + AllocGlobal>(
    rt: &R,
    file: TableFile,
    beside: Input,
    given: &Option<Text>,
) -> Result<TableTrial, Failure>
    ensures tried { IfOk result (IsTrialOf R.gives given.now file beside) }
    ensures memory { IfErr result (λ failure. failure ≡ Failure.OutOfMemory) }
{
    match scenario_of(rt, beside, given) {
        Ok(scenario) => try_on(rt.alloc(), file, scenario.get()),
        Err(lack) => without_scenario(rt.alloc(), file, lack),
    }
}

/// Reads an input as the file of a table, and tries that on the scenario that is given, or else on
/// the one beside it. A table without a scenario gives a result none the less.
///
/// `Unreadable` if the file of the table can't be read. Other than `OutOfMemory` there is no failure
/// but this.
pub(crate) fn try_input<R: InputReader + AllocGlobal>(
    rt: &R,
    input: Input,
    given: &Option<Text>,
) -> Result<TableTrial, Failure>
    ensures tried { IfOk result (IsTried R.gives given.now input) }
    ensures why { IfErr result (IsUnread input) }
{
    let Ok(beside) = input_beside(rt.alloc(), &input) else {
        return Err(Failure::OutOfMemory);
    };
    let file = table_file(rt, input)?;
    try_file(rt, file, beside, given)
}
