//! Starts a run, which gets its table with its input.
ghost use Rattle.std.specs.Prelude.{◌≡◌, [], IfOk, Err, Ok};
ghost use Rattle.wh_workflow.specs.declared.job.Job.TheVariants as jobs;
ghost use Rattle.wh_rows.specs.Rows.{initial};
ghost use Rattle.wh_row_rules.specs.Broken.{definition};
ghost use Rattle.wh_row_rules.specs.Outcome.{Gives};
ghost use Rattle.wh_table.specs.Program.{front, tail, table_in, no_table, begun, failed, opened, opening};

use crate::following::follow;
use crate::state::TableState;
use std::alloc::Global;
use wh_events::{Items, OutOfMemory, Payload, Text};
use wh_row_rules::{OrMemory, OwnedTable};
use wh_rows::{Naming, RowsState, StateName, UNCOUNTED};
use wh_table_text::{TableFault, fault_text, read_table};
use wh_workflow::{Command, Job, no_payloads, text_of};

/// Returns all payloads but the first.
fn tail(alloc: Global, payloads: &[Payload]) -> Result<Items<Payload>, OutOfMemory>
    ensures { IfOk result (λ rest. rest ≡ tail payloads.now) }
{
    let mut rest = Vec::new(alloc);
    if let [_, others @ ..] = payloads {
        for payload in others {
            let copy = payload.try_copy()?;
            rest.push(copy)?;
        }
    }
    Ok(Items::new(rest))
}

/// Returns the first payload, if there is one.
fn front(alloc: Global, payloads: &[Payload]) -> Result<Items<Payload>, OutOfMemory>
    ensures { IfOk result (λ first. first ≡ front payloads.now) }
{
    let mut kept = Vec::new(alloc);
    if let [first, ..] = payloads {
        let copy = first.try_copy()?;
        kept.push(copy)?;
    }
    Ok(Items::new(kept))
}

/// Returns the table in the first payload, or the fault if it is not a table.
fn table_in(alloc: Global, payloads: &[Payload]) -> Result<OwnedTable, OrMemory<TableFault>>
    ensures { Gives (λ table. table) result (table_in payloads.now) }
{
    match payloads {
        [first, ..] => read_table(alloc, first.content.get()),
        [] => Err(OrMemory::Fault(TableFault::NoTable)),
    }
}

/// Returns a table without rows, for a run that has none.
fn no_table(alloc: Global) -> Result<OwnedTable, OutOfMemory>
    ensures { IfOk result (λ table. table ≡ no_table) }
{
    Ok(OwnedTable {
        first: text_of(alloc, "")?,
        name: Naming::Nameless,
        bounds: UNCOUNTED,
        rows: Items::new(Vec::new(alloc)),
    })
}

/// Returns the state in which a run of a table begins, or the same but closed.
fn first_run(alloc: Global, table: &OwnedTable, closed: bool) -> Result<RowsState, OutOfMemory>
    ensures { IfOk result (λ run. run ≡ record (initial (definition table.now)) { closed = closed }) }
{
    Ok(RowsState {
        at: StateName::from_text(table.first.try_copy()?),
        closed,
        name: text_of(alloc, "")?,
        input: no_payloads(alloc),
        kept: no_payloads(alloc),
        counts: UNCOUNTED,
    })
}

/// Returns a run of this type, with this payload and table.
fn initial_state(
    alloc: Global,
    kind: Text,
    payload: Items<Payload>,
    table: OwnedTable,
) -> Result<TableState, OutOfMemory>
    ensures { IfOk result (λ state. state ≡ begun kind payload table) }
{
    Ok(TableState {
        run: first_run(alloc, &table, false)?,
        kind,
        payload,
        table,
    })
}

/// Returns a run that has not started.
pub(crate) fn not_started(alloc: Global, kind: &str) -> Result<TableState, OutOfMemory>
    ensures { IfOk result (λ state. state ≡ begun kind.now [] no_table) }
{
    initial_state(
        alloc,
        text_of(alloc, kind)?,
        no_payloads(alloc),
        no_table(alloc)?,
    )
}

/// Returns a run that failed at its start and is closed.
fn failed_start(
    alloc: Global,
    kind: Text,
    payload: Items<Payload>,
) -> Result<TableState, OutOfMemory>
    ensures { IfOk result (λ state. state ≡ failed kind payload) }
{
    let table = no_table(alloc)?;
    Ok(TableState {
        run: first_run(alloc, &table, true)?,
        kind,
        payload,
        table,
    })
}

/// A run that has just started, and what it gives.
pub(crate) struct Opened {
    /// The run.
    pub state: TableState,
    /// Its commands.
    pub given: Vec<Command>,
}

/// Starts a run with a table.
fn follow_table(
    alloc: Global,
    kind: Text,
    payload: Items<Payload>,
    table: OwnedTable,
    job: &Job,
) -> Result<Opened, OutOfMemory>
    ensures state { IfOk result (λ o. o.state ≡ opened kind payload (Ok table) job.now) }
    ensures given { IfOk result (λ o. o.given.items ≡ opening kind payload (Ok table) job.now) }
{
    let mut state = initial_state(alloc, kind, payload, table)?;
    let given = follow(alloc, &mut state, job)?;
    Ok(Opened { state, given })
}

/// Fails a run whose first payload is not a table, with the reason.
fn refuse(
    alloc: Global,
    kind: Text,
    payload: Items<Payload>,
    fault: TableFault,
    job: &Job,
) -> Result<Opened, OutOfMemory>
    ensures state { IfOk result (λ o. o.state ≡ opened kind payload (Err fault) job.now) }
    ensures given { IfOk result (λ o. o.given.items ≡ opening kind payload (Err fault) job.now) }
{
    let mut given = Vec::new(alloc);
    let message = fault_text(alloc, fault)?;
    given.push(Command::Fail { message })?;
    Ok(Opened {
        state: failed_start(alloc, kind, payload)?,
        given,
    })
}

/// Starts a run by its first job: with the table in its first payload, or by failing it.
fn start_with(
    alloc: Global,
    workflow: &Text,
    input: &Items<Payload>,
    job: &Job,
) -> Result<Opened, OutOfMemory>
    ensures state { IfOk result (λ o. o.state
        ≡ opened workflow.now (front input.now) (table_in input.now) job.now) }
    ensures given { IfOk result (λ o. o.given.items
        ≡ opening workflow.now (front input.now) (table_in input.now) job.now) }
{
    let kind = workflow.try_copy()?;
    let payload = front(alloc, input.get())?;
    match table_in(alloc, input.get()) {
        Ok(table) => follow_table(alloc, kind, payload, table, job),
        Err(OrMemory::OutOfMemory) => Err(OutOfMemory),
        Err(OrMemory::Fault(fault)) => refuse(alloc, kind, payload, fault, job),
    }
}

/// Starts a run: with the table in its first payload, or by failing it.
pub(crate) fn start(
    alloc: Global,
    workflow: &Text,
    input: &Items<Payload>,
) -> Result<Opened, OutOfMemory>
    ensures state { IfOk result (λ o. o.state
        ≡ opened workflow.now (front input.now) (table_in input.now)
        (jobs.Start workflow.now (tail input.now))) }
    ensures given { IfOk result (λ o. o.given.items
        ≡ opening workflow.now (front input.now) (table_in input.now)
        (jobs.Start workflow.now (tail input.now))) }
{
    let job = Job::Start {
        workflow: workflow.try_copy()?,
        input: tail(alloc, input.get())?,
    };
    start_with(alloc, workflow, input, &job)
}
