//! Answers queries.
ghost use Rattle.std.specs.Prelude.{◌≡◌, Result, IfOk};
ghost use Rattle.serde_json.specs.View.{view};
ghost use Rattle.wh_workflow.specs.declared.queryable.QueryResult.{QueryResult};
ghost use Rattle.wh_replay.specs.Outcomes.{Answers};
ghost use Rattle.wh_replay.specs.declared.fault.Fault.{Fault};
ghost use Rattle.wh_live_queries.specs.Metadata.{metadata_asked};
ghost use Rattle.wh_live_queries.specs.Polled.{query_in, query_seen};
ghost use Rattle.wh_live_queries.specs.DeskAnswers.{AnswersPoll, IsGiven, IsQueryResult, IsSettled};
ghost use Rattle.wh_live_queries.specs.Results.{settled};

use crate::answer::query_completed;
use crate::cached::query_cached;
use crate::events::run_events;
use crate::metadata::{metadata_asked, query_metadata};
use crate::polled::{PolledQuery, polled_query};
use crate::reasons::reason_of;
use std::alloc::Global;
use std::sync::Wait;
use std::sync::ledger::Ledger;
use wh_client::{AskFault, Client, Connection, Request};
use wh_events::{OutOfMemory, Text};
use wh_host::Host;
use wh_messages::QueryPoll;
use wh_query::query_fetched;
use wh_replay::RunFault;
use wh_tester::ReplayFaultText;
use wh_workflow::{QueryResult, Queryable};

/// Returns the answer to send for a query's result, with a fault of replay in words.
fn answer_to_send(
    alloc: Global,
    given: Result<QueryResult, RunFault>,
) -> Result<QueryResult, OutOfMemory>
    ensures { (defined : Result QueryResult Fault) → Answers given defined (λ given. given) →
        IfOk result (λ sent. sent ≡ settled defined) }
{
    match given {
        Ok(given) => Ok(given),
        Err(RunFault::Fault(fault)) => {
            let fault = ReplayFaultText(fault);
            let text = format!(in alloc; "{fault}")?;
            Ok(QueryResult::Failed(Text::new(text)))
        }
        Err(RunFault::OutOfMemory) => Err(OutOfMemory),
    }
}

/// Returns the answer to a query by replay of its run's history.
fn query_by_replay<W: Queryable, L: Connection>(
    client: &Client<'_, L>,
    polled: PolledQuery,
) -> Result<QueryResult, AskFault>
    ensures { IfOk result (IsQueryResult L.gives client.now.options.now.names W.program W.queries (query_seen polled)) }
{
    let PolledQuery {
        run,
        query,
        members,
        next_page,
        ..
    } = polled;
    let events = run_events(client, &run, next_page, members)?;
    let alloc = client.allocator();
    let given = query_fetched::<W>(alloc, events, query.query_type.get(), query.input.get());
    Ok(answer_to_send(alloc, given)?)
}

/// Returns the answer to a query from the run that the host has cached for it, or else by replay.
fn query_polled<R: Wait, W: Queryable, T: Ledger, C: Ledger, F: Ledger, L: Connection>(
    rt: &R,
    host: &Host<W, T, C, F>,
    client: &Client<'_, L>,
    polled: PolledQuery,
) -> Result<QueryResult, AskFault>
    ensures { IfOk result (IsQueryResult L.gives client.now.options.now.names W.program W.queries (query_seen polled)) }
{
    if let Some(given) = query_cached(rt, client.allocator(), host, &polled)? {
        return Ok(given);
    }
    query_by_replay::<W, L>(client, polled)
}

/// Reads a query and returns its result.
fn query_read<R: Wait, W: Queryable, T: Ledger, C: Ledger, F: Ledger, L: Connection>(
    rt: &R,
    host: &Host<W, T, C, F>,
    client: &Client<'_, L>,
    poll: QueryPoll,
) -> Result<QueryResult, AskFault>
    ensures { IfOk result (IsSettled L.gives client.now.options.now.names W.program W.queries
        (query_in poll.token (view poll.result))) }
{
    let QueryPoll { token, result } = poll;
    match polled_query(client.allocator(), token, result)? {
        Some(polled) => query_polled(rt, host, client, polled),
        None => Err(AskFault::Unreadable),
    }
}

/// Returns what the workflow type declares if a query asks for that, and otherwise its result.
fn query_given<R: Wait, W: Queryable, T: Ledger, C: Ledger, F: Ledger, L: Connection>(
    rt: &R,
    host: &Host<W, T, C, F>,
    client: &Client<'_, L>,
    poll: QueryPoll,
) -> Result<QueryResult, AskFault>
    ensures { IfOk result (IsGiven L.gives client.now.options.now.names W.program W.queries W.definitions
        (metadata_asked (view poll.result)) (query_in poll.token (view poll.result))) }
{
    let alloc = client.allocator();
    match metadata_asked(alloc, &poll.result) {
        Ok(None) => query_read(rt, host, client, poll),
        Ok(Some(kind)) => {
            drop(poll);
            Ok(query_metadata::<W>(alloc, kind.get())?)
        }
        Err(OutOfMemory) => {
            drop(poll);
            Err(AskFault::OutOfMemory)
        }
    }
}

/// Writes the request that answers a query, with its token: with its result in the state after the
/// last completed task of its run, from the cached run or by replay of its history (Temporal
/// documentation, "Queries"); or with the reason why it has no result. A query of the type
/// `__temporal_workflow_metadata`, which Temporal's Web UI asks, is answered with what the type of
/// the run's workflow declares, without the run. The host does not change. `OutOfMemory` if there
/// was no memory for the request.
pub fn query_answer<R: Wait, W: Queryable, T: Ledger, C: Ledger, F: Ledger, L: Connection>(
    rt: &R,
    host: &Host<W, T, C, F>,
    client: &Client<'_, L>,
    poll: QueryPoll,
) -> Result<Request, OutOfMemory>
    ensures { IfOk result (AnswersPoll L.gives client.now.options.now.names W.program W.queries W.definitions
        poll.token (view poll.result)) }
{
    let alloc = client.allocator();
    let token = poll.token.try_copy()?;
    let given = match query_given(rt, host, client, poll) {
        Ok(given) => given,
        Err(fault) => QueryResult::Failed(Text::new(reason_of(alloc, &fault)?)),
    };
    let params = query_completed(alloc, &client.options.names, token.get(), &given)?;
    Ok(Request {
        method: "RespondQueryTaskCompleted",
        params,
    })
}
