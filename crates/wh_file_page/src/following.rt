//! Follows a run through the rows of its table.
ghost use Rattle.std.specs.Prelude.{◌≡◌, ◌++◌, ◌↔◌, ℕ, IfOk, IsSome, List, Ok, OnOk};
ghost use Rattle.wh_explain.specs.Reading.{IsReadOf};
ghost use Rattle.wh_json.specs.Events.{history};
ghost use Rattle.wh_workflow.specs.ActivationScripts.{state_after};
ghost use Rattle.wh_rows.specs.Rows.{initial};
ghost use Rattle.wh_row_rules.specs.Broken.{definition};
ghost use Rattle.wh_table.specs.Program.{program};
ghost use Rattle.wh_file_page.specs.Ways.{IsWayOf, before_start, left_by, number_for, turn_at, turn_to};
ghost use Rattle.wh_file_page.specs.Ways.{turns_of, turns_over, way_over, way_to};
ghost use Rattle.wh_file_page.specs.Brought.{BringsTable};

use crate::choosing::number_for;
use crate::way::{Turn, Way};
use std::alloc::Global;
use wh_events::{Event, Items, OutOfMemory};
use wh_explain::{ExplainedTask, Step, explain_read};
use wh_json::ReadFault;
use wh_replay::workflow_of;
use wh_row_rules::OwnedTable;
use wh_rows::{RowsState, StateName};
use wh_table::{TableState, TableWorkflow};
use wh_workflow::{Job, Meter, Workflow, text_of};

/// Adds the row of a number, if one was taken, in the state of that name.
fn add_turn(
    alloc: Global,
    turns: &mut Vec<Turn>,
    name: &str,
    number: Option<usize>,
) -> Result<(), OutOfMemory>
    ensures { OnOk result (turns.new.items ≡ turns.old.items ++ turn_to name.now number) }
{
    if let Some(row) = number {
        let state = text_of(alloc, name)?;
        turns.push(Turn { state, row })?;
    }
    Ok(())
}

/// A run that has not started.
fn before_start(alloc: Global) -> Result<TableState, OutOfMemory>
    ensures { IfOk result (λ state. state ≡ before_start) }
{
    TableWorkflow::begin(alloc, "Table")
}

/// Where a run of a table begins.
fn first_run(alloc: Global, table: &OwnedTable) -> Result<RowsState, OutOfMemory>
    ensures { IfOk result (λ run. run ≡ initial (definition table.now)) }
{
    let TableState { mut run, .. } = before_start(alloc)?;
    run.at = StateName::from_text(table.first.try_copy()?);
    Ok(run)
}

/// Notes the row that a run of a table takes at its start.
fn note_start(
    alloc: Global,
    table: &OwnedTable,
    job: &Job,
    turns: &mut Vec<Turn>,
) -> Result<(), OutOfMemory>
    ensures { let number = number_for table.now.rows (initial (definition table.now)) job.now in
        OnOk result (turns.new.items ≡ turns.old.items ++ turn_to table.now.first number) }
{
    let run = first_run(alloc, table)?;
    let number = number_for(table.rows.get(), &run, job);
    add_turn(alloc, turns, table.first.get(), number)
}

/// Gives a run a job.
fn give(alloc: Global, state: &mut TableState, job: &Job) -> Result<(), OutOfMemory>
    ensures { OnOk result (state.new ≡ program.after state.old job.now) }
{
    let mut given = Vec::new(alloc);
    let mut meter = Meter::new();
    TableWorkflow::step(alloc, state, job, &mut given, &mut meter)
}

/// Gives a run a job, and notes the row that it takes.
fn follow_job(
    alloc: Global,
    state: &mut TableState,
    job: &Job,
    turns: &mut Vec<Turn>,
) -> Result<(), OutOfMemory>
    ensures turns { OnOk result (turns.new.items ≡ turns.old.items ++ turn_at state.old job.now) }
    ensures state { OnOk result (state.new ≡ program.after state.old job.now) }
{
    if let Job::Start { .. } = job {
        give(alloc, state, job)?;
        return note_start(alloc, &state.table, job, turns);
    }
    let number = number_for(state.table.rows.get(), &state.run, job);
    add_turn(alloc, turns, state.run.at.get(), number)?;
    give(alloc, state, job)
}

/// Gives a run the jobs of steps, and notes the rows that it takes.
fn follow_steps(
    alloc: Global,
    state: &mut TableState,
    steps: &[Step],
    turns: &mut Vec<Turn>,
) -> Result<(), OutOfMemory>
    ensures turns { OnOk result (turns.new.items ≡ turns.old.items ++ turns_over state.old steps.now) }
    ensures state { OnOk result (state.new ≡ state_after program state.old steps.now) }
{
    for step in steps {
        follow_job(alloc, state, step.job(), turns)?;
    }
    Ok(())
}

/// Gives a run the jobs of tasks, and notes the rows that it takes.
fn follow_tasks(
    alloc: Global,
    state: &mut TableState,
    tasks: &[ExplainedTask],
    turns: &mut Vec<Turn>,
) -> Result<(), OutOfMemory>
    ensures turns { OnOk result (turns.new.items ≡ turns.old.items ++ turns_of state.old tasks.now) }
    ensures state { OnOk result (state.new ≡ left_by state.old tasks.now) }
{
    for task in tasks {
        follow_steps(alloc, state, task.steps.get(), turns)?;
    }
    Ok(())
}

/// Returns the path to where a run stands, if it has a table.
fn way_to(left: TableState, turns: Vec<Turn>) -> Option<Way>
    ensures { result ≡ way_to left turns.items }
{
    if left.table.rows.get().is_empty() {
        return None;
    }
    Some(Way {
        turns: Items::new(turns),
        left,
    })
}

/// Returns the path of a run over its tasks, if it has a table.
fn way_over(alloc: Global, tasks: &[ExplainedTask]) -> Result<Option<Way>, OutOfMemory>
    ensures { IfOk result (λ way. way ≡ way_over tasks.now) }
{
    let mut state = before_start(alloc)?;
    let mut turns = Vec::new(alloc);
    follow_tasks(alloc, &mut state, tasks, &mut turns)?;
    Ok(way_to(state, turns))
}

/// Follows the run of a history, with or without a table. It is replayed only if its type is that of
/// tables.
fn follow_events(alloc: Global, events: &[Event]) -> Result<Option<Way>, OutOfMemory>
    ensures { (bytes : List ℕ) → history bytes ≡ Ok events.now → IfOk result (IsWayOf bytes) }
{
    if !TableWorkflow::handles(workflow_of(events)) {
        return Ok(None);
    }
    let copy = events.to_vec(alloc)?;
    let explanation = explain_read::<TableWorkflow>(alloc, Ok(copy))?;
    way_over(alloc, explanation.tasks.get())
}

/// Follows the run of a history file, if there was memory to read it.
fn follow(alloc: Global, read: &Result<Vec<Event>, ReadFault>) -> Result<Option<Way>, OutOfMemory>
    ensures { (bytes : List ℕ) → IsReadOf bytes read.now → IfOk result (IsWayOf bytes) }
{
    match read {
        Ok(events) => follow_events(alloc, events.as_slice()),
        Err(ReadFault::OutOfMemory) => Err(OutOfMemory),
        Err(_) => Ok(None),
    }
}

/// Returns the path of the run of a history file through the rows of its table, from the result of
/// reading it: the rows that it takes at the jobs that replay gives it, in order, and where it
/// stands after them. Where the replay stops at a fault, it is the path up to there. The history is
/// replayed once if its workflow type is `Table` or `Table:NAME`, and else not at all.
///
/// `None` exactly when the file can't be read, an event is not in place, the workflow type is not
/// `Table` or `Table:NAME`, no workflow task was started, or the first payload of the start's input
/// is no table: a run takes rows only at the jobs of its workflow tasks. `OutOfMemory` if an
/// allocation was refused, now or when the file was read.
pub fn way_of(
    alloc: Global,
    read: &Result<Vec<Event>, ReadFault>,
) -> Result<Option<Way>, OutOfMemory>
    ensures way { (bytes : List ℕ) → IsReadOf bytes read.now → IfOk result (IsWayOf bytes) }
    ensures there { (bytes : List ℕ) → IsReadOf bytes read.now
        → IfOk result (λ way. IsSome way ↔ BringsTable bytes) }
{
    follow(alloc, read)
}
