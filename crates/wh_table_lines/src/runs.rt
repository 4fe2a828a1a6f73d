//! Runs of a table that was read, job by job.
ghost use Rattle.std.specs.Prelude.{◌≡◌, IfOk, OnOk};
ghost use Rattle.wh_rows.specs.Rows.{initial, seen_by, rows_give, after_rows};
ghost use Rattle.wh_row_rules.specs.Broken.{definition};

use std::alloc::Global;
use wh_events::OutOfMemory;
use wh_row_rules::OwnedTable;
use wh_rows::{RowsState, StateName, UNCOUNTED, answer, take_start};
use wh_workflow::{Command, Job, no_payloads, text_of};

/// Returns the state in which a run of a table begins. `OutOfMemory` if there is no memory for it.
pub fn initial_run(alloc: Global, table: &OwnedTable) -> Result<RowsState, OutOfMemory>
    ensures { IfOk result (λ run. run ≡ initial (definition table.now)) }
{
    Ok(RowsState {
        at: StateName::from_text(table.first.try_copy()?),
        closed: false,
        name: text_of(alloc, "")?,
        input: no_payloads(alloc),
        kept: no_payloads(alloc),
        counts: UNCOUNTED,
    })
}

/// Lets a run see a job, before rows answer it: a start brings its name and its input. `OutOfMemory`
/// if there is no memory for them: then the run must not be used any more.
pub fn see_job(
    alloc: Global,
    table: &OwnedTable,
    run: &mut RowsState,
    job: &Job,
) -> Result<(), OutOfMemory>
    ensures { OnOk result (run.new ≡ seen_by (definition table.now) run.old job.now) }
{
    take_start(alloc, &table.name, run, job)
}

/// Returns the commands that the rows give to a job that the run has seen, and changes the run by it.
/// `OutOfMemory` if there is no memory for them: then the run must not be used any more.
pub fn answer_job(
    alloc: Global,
    table: &OwnedTable,
    run: &mut RowsState,
    job: &Job,
) -> Result<Vec<Command>, OutOfMemory>
    ensures commands { IfOk result (λ given. given.items ≡ rows_give table.now.rows run.old job.now) }
    ensures state { OnOk result (run.new ≡ after_rows table.now.rows table.now.bounds run.old job.now) }
{
    answer(alloc, table.rows.get(), table.bounds, run, job)
}
