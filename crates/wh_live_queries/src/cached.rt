//! Answers queries from a host's cached runs.
ghost use Rattle.std.specs.Prelude.{IfOk, IfSome};
ghost use Rattle.wh_live_queries.specs.Polled.{query_seen};
ghost use Rattle.wh_live_queries.specs.DeskAnswers.{IsCachedResult, IsResultIn};

use crate::polled::PolledQuery;
use std::alloc::Global;
use std::sync::Wait;
use std::sync::ledger::Ledger;
use wh_events::OutOfMemory;
use wh_host::{Host, HostState};
use wh_query::query_replayed;
use wh_workflow::{QueryResult, Queryable};

/// Returns the result of a query from the run that the host has cached under its key, if there is
/// one that ends in the last completed task of the query's run. The state of the host does not
/// change. `OutOfMemory` if there was no memory for the result.
fn query_in<W: Queryable, T: Ledger, C: Ledger, F: Ledger>(
    alloc: Global,
    state: &HostState<W, T, C, F>,
    polled: &PolledQuery,
) -> Result<Option<QueryResult>, OutOfMemory>
    ensures { IfOk result (λ found. IfSome found (IsResultIn W.program W.queries state.now (query_seen polled.now))) }
{
    let Some(history) = state.cached_history(&polled.run) else {
        return Ok(None);
    };
    if history.len() as u64 != polled.previous {
        return Ok(None);
    }
    let query = &polled.query;
    let given = query_replayed(alloc, history, query.query_type.get(), query.input.get())?;
    Ok(Some(given))
}

/// Returns the result of a query from the run that a host has cached under its key, if there is one
/// that ends in the last completed task of the query's run: a cached run may have advanced
/// meanwhile. No slot is used, nothing is counted, and the cache does not change (Temporal
/// documentation, "Sticky Execution"). `OutOfMemory` if there was no memory for the result.
pub fn query_cached<R: Wait, W: Queryable, T: Ledger, C: Ledger, F: Ledger>(
    rt: &R,
    alloc: Global,
    host: &Host<W, T, C, F>,
    polled: &PolledQuery,
) -> Result<Option<QueryResult>, OutOfMemory>
    ensures { IfOk result (λ found. IfSome found (IsCachedResult W.program W.queries (query_seen polled.now))) }
{
    let state = host.lock(rt);
    let found = query_in(alloc, &*state, polled);
    drop(state);
    found
}
