//! The results of queries.

ghost use Rattle.std.specs.Prelude.{◌≡◌, IfOk};
ghost use Rattle.serde_json.specs.View.{members_view, view};
ghost use Rattle.wh_live_queries.specs.Results as spec;

use crate::answer::result_value;
use crate::metadata::{is_metadata, query_metadata};
use crate::polled::query_of;
use crate::states::{result_in, state_or_fault};
use serde_json::{Map, Value};
use std::alloc::Global;
use wh_commands::Members;
use wh_events::{Event, OutOfMemory, Text};
use wh_json::{field, text_of};
use wh_replay::workflow_of;
use wh_workflow::{Query, QueryResult, Queryable};

/// Whether a query asks what the type of its run's workflow declares.
fn asks_metadata(query: &Value) -> bool
    ensures { result ≡ spec.asks_metadata (view query.now) }
{
    is_metadata(text_of(field(Some(query), "queryType")))
}

/// Returns the result of a query that can't be read.
fn unreadable_result(alloc: Global) -> Result<QueryResult, OutOfMemory>
    ensures { IfOk result (λ given. given ≡ spec.unreadable) }
{
    let text = String::from_str(alloc, "the query can't be read")?;
    Ok(QueryResult::Failed(Text::new(text)))
}

/// Returns the result of a query in a state, if it could be read.
fn result_or_unreadable<W: Queryable>(
    alloc: Global,
    left: &Result<W::State, Text>,
    query: Option<Query>,
) -> Result<QueryResult, OutOfMemory>
    ensures { IfOk result (λ given. given ≡ spec.result_or_unreadable W.queries left.now query) }
{
    match query {
        Some(query) => result_in::<W>(alloc, left, &query),
        None => unreadable_result(alloc),
    }
}

/// Returns the result of a query of a run of a workflow type in a state.
fn result_of<W: Queryable>(
    alloc: Global,
    kind: &str,
    left: &Result<W::State, Text>,
    query: &Value,
) -> Result<QueryResult, OutOfMemory>
    ensures { IfOk result (λ given.
        given ≡ spec.result_of W.queries W.definitions kind.now left.now (view query.now)) }
{
    if asks_metadata(query) {
        return query_metadata::<W>(alloc, kind);
    }
    let query = query_of(alloc, Some(query))?;
    result_or_unreadable::<W>(alloc, left, query)
}

/// Writes the result of a query of a run of a workflow type in a state.
fn written_result<W: Queryable>(
    alloc: Global,
    kind: &str,
    left: &Result<W::State, Text>,
    query: &Value,
) -> Result<Value, OutOfMemory>
    ensures { IfOk result (λ written.
        view written ≡ spec.written_result W.queries W.definitions kind.now left.now (view query.now)) }
{
    let given = result_of::<W>(alloc, kind, left, query)?;
    result_value(alloc, &given)
}

/// Writes the results of queries of a run of a workflow type in a state, each under its query's id.
fn results_in<W: Queryable>(
    alloc: Global,
    kind: &str,
    left: &Result<W::State, Text>,
    queries: &Members,
) -> Result<Members, OutOfMemory>
    ensures { IfOk result (λ results. members_view results.entries
        ≡ spec.results_in W.queries W.definitions kind.now left.now (members_view queries.now.entries)) }
{
    let mut results = Map::new(alloc);
    for (id, query) in queries.iter() {
        let name = id.clone()?;
        let written = written_result::<W>(alloc, kind, left, query)?;
        drop(results.insert(name, written)?);
    }
    Ok(results)
}

/// Writes the results of the queries that came with a workflow task, each under its query's id
/// (Temporal's `WorkflowQueryResult`), in the state in which the events of the run leave its
/// workflow: those up to the task's start, so its commands have been given. Each query is answered as
/// if it had come alone (Temporal documentation, "Queries"): `__temporal_workflow_metadata` from the
/// code alone, one that can't be read as failed, and so each if the events can't be replayed.
///
/// The workflow is replayed once, from a copy of the events. `OutOfMemory` if there was no memory
/// for that or for the results.
pub fn results_beside<W: Queryable>(
    alloc: Global,
    events: &[Event],
    queries: &Members,
) -> Result<Members, OutOfMemory>
    ensures { IfOk result (λ results. members_view results.entries
        ≡ spec.results_beside W.program W.queries W.definitions events.now (members_view queries.now.entries)) }
{
    let left = state_or_fault::<W>(alloc, events)?;
    let results = results_in::<W>(alloc, workflow_of(events), &left, queries);
    drop(left);
    results
}
