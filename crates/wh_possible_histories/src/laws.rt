//! What holds for the histories of tables. Each law is the contract of a function without a body.
ghost use Rattle.std.specs.Prelude.{List};
ghost use Rattle.wh_possible_runs.specs.Situations.{ThingName};
ghost use Rattle.wh_possible_histories.specs.BroughtTables.{BroughtTablesNeverStick, CheckedTablesNeverStick};
ghost use Rattle.wh_possible_histories.specs.NeverSticks.{HistoriesNeverStick};
ghost use Rattle.wh_possible_histories.specs.NextTasks.{NextTasksCome};
ghost use Rattle.wh_possible_histories.specs.Records.{RecordsAreKept};
ghost use Rattle.wh_possible_histories.specs.Tellings.{ActivationsNeverStick};

use wh_rows::Table;

/// Between two cuts of a history in place, things become what the commands of the first one's
/// activation made of them, apart from those that end: what a server lets the next task begin with.
pub fn records_are_kept()
    ensures { RecordsAreKept }
{}

/// If a server may give the jobs of a cut, and whatever it does from there, no command of a run of
/// the table is at fault, then the activation at the cut does not fail with `IdInUse`, `IdReused`,
/// `NotOpen` or `AlreadyCancelling`.
pub fn activations_never_stick<T: Table>()
    ensures { (names : List ThingName) → ActivationsNeverStick T.table names }
{}

/// After a cut of a history in place whose activation had no command at fault, and whose record has
/// the commands, a server begins the next task, and may give it the jobs of the next cut.
pub fn next_tasks_come()
    ensures { NextTasksCome }
{}

/// If no run of the table that a server can make gets stuck, replay of no history of it that a
/// server can make finds a task that fails with `IdInUse`, `IdReused`, `NotOpen` or
/// `AlreadyCancelling`.
pub fn histories_never_stick<T: Table>()
    ensures { HistoriesNeverStick T.table }
{}

/// So it is of a history of the workflow `Table` whose input begins with such a table.
pub fn brought_tables_never_stick()
    ensures { BroughtTablesNeverStick }
{}

/// If `check` is right that a table in a file never gets stuck, replay of no history that a server
/// can make, and whose input begins with the bytes of that file, finds a task that fails so.
pub fn checked_tables_never_stick()
    ensures { CheckedTablesNeverStick }
{}
