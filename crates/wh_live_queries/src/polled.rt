//! Reads a query that a poll returns.

ghost use Rattle.std.specs.Prelude.{◌≡◌, IfOk, option_map};
ghost use Rattle.serde_json.specs.View.{view};
ghost use Rattle.wh_live_queries.specs.Polled as spec;
ghost use Rattle.wh_live_queries.specs.Polled.{query_seen};

use serde_json::Value;
use std::alloc::Global;
use wh_events::{Items, OutOfMemory, RunKey, Text};
use wh_json::{ReadFault, field, number_of, payloads_at};
use wh_messages::{history_page, required_text, run_in};
use wh_workflow::Query;

/// A query that came alone, as a poll returns it (Temporal's `PollWorkflowTaskQueueResponse` with a
/// `query`).
#[derive(Debug, Drop)]
pub struct PolledQuery {
    /// The Task Token with which it is answered.
    pub token: Text,
    /// The run that is queried.
    pub run: RunKey,
    /// Its type and arguments.
    pub query: Query,
    /// The number of the event that started the last completed task of the run, 0 if there is none.
    pub previous: u64,
    /// The events that it comes with, as JSON values: from the first one, or none if the run should
    /// be cached.
    pub members: Vec<Value>,
    /// The token of the page with the events that follow, empty if there are none.
    pub next_page: Text,
}

/// Reads the type and the arguments of a query (Temporal's `WorkflowQuery`). `None` if the type is
/// missing or the arguments are malformed. `OutOfMemory` if there was no memory for them.
#[tactic(auto, unfolding(crate::specs::Polled::query_of))]
pub fn query_of(alloc: Global, value: Option<&Value>) -> Result<Option<Query>, OutOfMemory>
    ensures { IfOk result (λ query. query ≡ spec.query_of (option_map (λ v. view v.now) value.entry)) }
{
    let Some(query_type) = required_text(alloc, field(value, "queryType"))? else {
        return Ok(None);
    };
    match payloads_at(alloc, 0, field(value, "queryArgs")) {
        Ok(input) => Ok(Some(Query {
            query_type,
            input: Items::new(input),
        })),
        Err(ReadFault::OutOfMemory) => Err(OutOfMemory),
        Err(_) => Ok(None),
    }
}

/// Returns a value as a number, 0 if it is missing.
fn number_or_zero(value: Option<&Value>) -> Option<u64>
    ensures { result ≡ spec.number_or_zero (option_map (λ v. view v.now) value.entry) }
{
    match value {
        None => Some(0),
        Some(value) => number_of(value),
    }
}

/// Reads the query of a token from the response to a poll. The events are those of the response,
/// not copies. `None` if an id of the run or the type of the query is missing, or a field is
/// malformed. `OutOfMemory` if there was no memory for its texts and payloads.
#[tactic(auto, unfolding(crate::specs::Polled::query_in))]
pub fn polled_query(
    alloc: Global,
    token: Text,
    value: Value,
) -> Result<Option<PolledQuery>, OutOfMemory>
    ensures { IfOk result (λ polled. option_map query_seen polled ≡ spec.query_in token (view value)) }
{
    let Some(run) = run_in(alloc, field(Some(&value), "workflowExecution"))? else {
        return Ok(None);
    };
    let Some(query) = query_of(alloc, field(Some(&value), "query"))? else {
        return Ok(None);
    };
    let Some(previous) = number_or_zero(field(Some(&value), "previousStartedEventId")) else {
        return Ok(None);
    };
    let Some(page) = history_page(alloc, value)? else {
        return Ok(None);
    };
    Ok(Some(PolledQuery {
        token,
        run,
        query,
        previous,
        members: page.members,
        next_page: page.next_page,
    }))
}
