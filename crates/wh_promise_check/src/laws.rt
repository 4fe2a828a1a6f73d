//! What holds for the histories of all tables with promises, and of all runs that get their table
//! with their input. Each law is the contract of a function without a body.
ghost use Rattle.wh_promise_check.specs.BroughtTables.{BroughtHistoriesAreCourses, BroughtTablesKeep, CheckedTablesKeep};
ghost use Rattle.wh_promise_check.specs.Kept.{HistoriesAreCourses, HistoriesKeep, RunsKeep};

use wh_rows::Promising;

/// A history that replay accepts is one of a run of the table. The jobs of its tasks, some followed
/// by versions, begin with the only start. The commands issued, except version markers, are those
/// that the run gives to these jobs. The run keeps each promise of the table.
pub fn histories_keep_promises<T: Promising>()
    ensures courses { HistoriesAreCourses T.table }
    ensures kept { HistoriesKeep T.table T.promises }
{}

/// A run that a host holds keeps each promise of its table at the jobs of its tasks. The host's run
/// shows what replay of its events returns (`IsReplayed` of `wh_replay`).
pub fn runs_keep_promises<T: Promising>()
    ensures { RunsKeep T.table T.promises }
{}

/// A history of the workflow `Table` that replay accepts, and whose input begins with a table, is
/// one of a run of that table. The jobs of its tasks, some followed by versions, begin with the
/// only start. The commands issued, except version markers, are those that the table gives to these
/// jobs, with the table added where they continue as a new run of it. The run keeps each promise
/// that the table keeps whatever jobs come.
pub fn brought_tables_keep_promises()
    ensures courses { BroughtHistoriesAreCourses }
    ensures kept { BroughtTablesKeep }
{}

/// If `check` finds that a table keeps each promise of its member `promises`, each history that
/// replay accepts and whose input begins with that table keeps them at its jobs.
pub fn checked_promises_are_kept()
    ensures { CheckedTablesKeep }
{}
