//! Steps a run that follows its table.
ghost use Rattle.std.specs.Prelude.{◌≡◌, IfOk, OnOk};
ghost use Rattle.wh_rows.specs.Rows.{gives, after};
ghost use Rattle.wh_row_rules.specs.Broken.{definition};
ghost use Rattle.wh_table.specs.Program.{given, followed};

use crate::carrying::commands_with_table;
use crate::state::TableState;
use std::alloc::Global;
use wh_events::OutOfMemory;
use wh_row_rules::OwnedTable;
use wh_rows::{RowsState, answer, take_start};
use wh_workflow::{Command, Job};

/// Returns the commands that the rows of a table give to a job, and changes the run by it.
fn answer_rows(
    alloc: Global,
    table: &OwnedTable,
    run: &mut RowsState,
    job: &Job,
) -> Result<Vec<Command>, OutOfMemory>
    ensures commands { IfOk result (λ commands. commands.items ≡ gives (definition table.now) run.old job.now) }
    ensures state { OnOk result (run.new ≡ after (definition table.now) run.old job.now) }
{
    take_start(alloc, &table.name, run, job)?;
    answer(alloc, table.rows.get(), table.bounds, run, job)
}

/// Returns the commands that a run gives to a job, and changes its state by it.
pub(crate) fn follow(
    alloc: Global,
    state: &mut TableState,
    job: &Job,
) -> Result<Vec<Command>, OutOfMemory>
    ensures commands { IfOk result (λ commands. commands.items ≡ given state.old job.now) }
    ensures state { OnOk result (state.new ≡ followed state.old job.now) }
{
    let commands = answer_rows(alloc, &state.table, &mut state.run, job)?;
    commands_with_table(alloc, &state.kind, state.payload.get(), commands)
}
