//! Queries at a run and at a history.
ghost use Rattle.std.specs.Prelude.{◌≡◌, Ok, IfOk, map};
ghost use Rattle.wh_replay.specs.Outcomes.{Answers, replayed_tasks};
ghost use Rattle.wh_query.specs.Queries.{query_at};

use std::alloc::Global;
use wh_events::{Event, OutOfMemory, Payload};
use wh_replay::{ReplayedHistory, ReplayedTasks, Run, RunFault, replay_to_end};
use wh_workflow::{Query, QueryResult, Queryable, query_state};

/// Returns the result of a query at a run, which stays as it is. Returns `OutOfMemory` if there was
/// no memory for the result.
#[tactic(auto, using(crate::proofs::States::query_in_state))]
pub fn query_run<W: Queryable>(
    alloc: Global,
    run: &Run<W>,
    query_type: &str,
    input: &[Payload],
) -> Result<QueryResult, OutOfMemory>
    ensures { IfOk result (λ given.
        query_at W.program W.queries run.now.events query_type.now input.now ≡ Ok given) }
{
    query_state::<W>(alloc, run.state(), query_type, input)
}

/// Returns the results of these queries at a run, in their order. The run stays as it is. Returns
/// `OutOfMemory` if there was no memory for the results.
pub fn query_each<W: Queryable>(
    alloc: Global,
    run: &Run<W>,
    queries: &[Query],
) -> Result<Vec<QueryResult>, OutOfMemory>
    ensures { IfOk result (λ given. map Ok given.items
        ≡ map (λ query. query_at W.program W.queries run.now.events query.query_type query.input) queries.now) }
{
    let mut results = Vec::new(alloc);
    for query in queries {
        let given = query_run(alloc, run, query.query_type.get(), query.input.get())?;
        results.push(given)?;
    }
    Ok(results)
}

/// Returns the result of a query at a replayed history, as a cache keeps it. The history stays as
/// it is. Returns `OutOfMemory` if there was no memory for the result.
#[tactic(auto, using(crate::proofs::States::query_in_state))]
pub fn query_replayed<W: Queryable>(
    alloc: Global,
    history: &ReplayedHistory<W>,
    query_type: &str,
    input: &[Payload],
) -> Result<QueryResult, OutOfMemory>
    ensures { IfOk result (λ given.
        query_at W.program W.queries history.now.events query_type.now input.now ≡ Ok given) }
{
    query_state::<W>(alloc, history.state(), query_type, input)
}

/// Returns the result of a query at a history, by one replay from its first event, and what that
/// replay finds, or its fault. The history may end anywhere: the workflow does not get what comes
/// after its last task. Returns `OutOfMemory` if there was no memory.
pub fn query_history<W: Queryable>(
    alloc: Global,
    events: Vec<Event>,
    query_type: &str,
    input: &[Payload],
) -> Result<(QueryResult, ReplayedTasks), RunFault>
    ensures given { Answers result
        (query_at W.program W.queries events.items query_type.now input.now) (λ told. told.0) }
    ensures replayed_tasks { Answers result (replayed_tasks W.program events.items) (λ told. told.1) }
{
    let (state, found) = replay_to_end::<W>(alloc, events)?;
    let given = query_state::<W>(alloc, &state, query_type, input);
    drop(state);
    Ok((given?, found))
}
