//! Applies a row to the state of a run.
ghost use Rattle.std.specs.Prelude.{◌≡◌, IfOk, OnOk};
ghost use Rattle.wh_rows.specs.Tables.{naming_by, row_by, rows_by};
ghost use Rattle.wh_rows.specs.Naming.{name_by};
ghost use Rattle.wh_rows.specs.Rows.{raised, with_count, after_one, after_effects, next_state};
ghost use Rattle.wh_rows.specs.Rows.{after_row, after_rows, rows_give, started};

use crate::choose::{count_of, row_for};
use crate::command::{commands, job_payloads, some_closes};
use crate::naming::name_by;
use crate::parts::{RowList, RowText};
use crate::row::{
    CommandTemplate, Condition, Counter, Counters, Naming, RowEffect, RowOf, RowsState,
};
use std::alloc::Global;
use wh_events::OutOfMemory;
use wh_workflow::{Command, Job};

/// Returns one more than the count, or the bound if that is less.
pub fn increment(count: u64, bound: u64) -> u64
    ensures { result ≡ raised count bound }
{
    if count < bound { count + 1 } else { bound }
}

/// Returns the counts with this value for one counter.
pub fn with_count(counter: Counter, counts: Counters, value: u64) -> Counters
    ensures { result ≡ with_count counter counts value }
{
    match counter {
        Counter::A => Counters { a: value, ..counts },
        Counter::B => Counters { b: value, ..counts },
        Counter::C => Counters { c: value, ..counts },
        Counter::D => Counters { d: value, ..counts },
    }
}

/// Applies one effect to the state.
fn apply_one(
    alloc: Global,
    effect: RowEffect,
    bounds: Counters,
    state: &mut RowsState,
    job: &Job,
) -> Result<(), OutOfMemory>
    ensures { OnOk result (state.new ≡ after_one effect bounds state.old job.now) }
{
    match effect {
        RowEffect::Up(counter) => {
            let count = increment(count_of(counter, state.counts), count_of(counter, bounds));
            state.counts = with_count(counter, state.counts, count);
        }
        RowEffect::Zero(counter) => state.counts = with_count(counter, state.counts, 0),
        RowEffect::Keep => state.kept = job_payloads(alloc, job)?,
    }
    Ok(())
}

/// Applies all effects of a row, in their order.
#[tactic(auto, unfolding(crate::specs::Rows::after_effects))]
fn apply(
    alloc: Global,
    effects: &[RowEffect],
    bounds: Counters,
    state: &mut RowsState,
    job: &Job,
) -> Result<(), OutOfMemory>
    ensures { OnOk result (state.new ≡ after_effects effects.now bounds state.old job.now) }
{
    for effect in effects {
        apply_one(alloc, *effect, bounds, state, job)?;
    }
    Ok(())
}

/// Sets the state to that of the name, unless the name is `same`.
fn go_on<T: RowText>(state: &mut RowsState, next: &T) -> Result<(), OutOfMemory>
    ensures { OnOk result (state.new ≡ record state.old { at = next_state (T.bytes next.now) state.old.at }) }
{
    if next.text() != "same" {
        state.at = next.state_name()?;
    }
    Ok(())
}

/// Applies the effects of a row, closes the run if a command does so, and sets the next state.
fn follow<T: RowText, C: RowList<Condition>, G: RowList<CommandTemplate<T>>, E: RowList<RowEffect>>(
    alloc: Global,
    row: &RowOf<T, C, G, E>,
    bounds: Counters,
    state: &mut RowsState,
    job: &Job,
) -> Result<(), OutOfMemory>
    ensures { OnOk result (state.new
        ≡ after_row (row_by T.bytes C.list G.list E.list row.now) bounds state.old job.now) }
{
    apply(alloc, row.effects.list(), bounds, state, job)?;
    state.closed = some_closes(row.gives.list());
    go_on(state, &row.next)
}

/// Returns the commands that the rows give to a job, and changes the state by it. The first row
/// that fits applies; if none does, there are no commands and no change. `OutOfMemory` if there is
/// no memory for a command or for what is kept: then the state must not be used any more.
pub fn answer<
    T: RowText,
    C: RowList<Condition>,
    G: RowList<CommandTemplate<T>>,
    E: RowList<RowEffect>,
>(
    alloc: Global,
    rows: &[RowOf<T, C, G, E>],
    bounds: Counters,
    state: &mut RowsState,
    job: &Job,
) -> Result<Vec<Command>, OutOfMemory>
    ensures commands { IfOk result (λ given.
        given.items ≡ rows_give (rows_by T.bytes C.list G.list E.list rows.now) state.old job.now) }
    ensures state { OnOk result (state.new
        ≡ after_rows (rows_by T.bytes C.list G.list E.list rows.now) bounds state.old job.now) }
{
    match row_for(rows, state, job) {
        Some(row) => {
            let given = commands(alloc, row.gives.list(), state, job)?;
            follow(alloc, row, bounds, state, job)?;
            Ok(given)
        }
        None => Ok(Vec::new(alloc)),
    }
}

/// Sets the input and the name of the run if the job starts it. `OutOfMemory` if there is no memory
/// for them: then the state must not be used any more.
pub fn take_start<T: RowText>(
    alloc: Global,
    naming: &Naming<T>,
    state: &mut RowsState,
    job: &Job,
) -> Result<(), OutOfMemory>
    ensures { OnOk result (state.new ≡ started (name_by (naming_by T.bytes naming.now)) state.old job.now) }
{
    if let Job::Start { input, .. } = job {
        state.name = name_by(alloc, naming, input)?;
        state.input = input.try_copy()?;
    }
    Ok(())
}
