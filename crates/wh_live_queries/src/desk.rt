//! Answers queries in a thread beside the workers.
ghost use Rattle.std.specs.Prelude.{IfOk};
ghost use Rattle.serde_json.specs.View.{view};
ghost use Rattle.wh_live_queries.specs.DeskAnswers.{AcceptsAnswer};

use crate::answering::query_answer;
use crate::queue::QueryQueue;
use std::sync::Wait;
use std::sync::ledger::Ledger;
use std::time::Clock;
use wh_client::{AskFault, Client, Connection};
use wh_host::Host;
use wh_messages::QueryPoll;
use wh_workflow::Queryable;

/// Answers a query, and waits until the server accepts the answer. The error says why it did not, as
/// far as that is known; `OutOfMemory` also if nothing was sent.
pub fn answer_query<R: Wait, W: Queryable, T: Ledger, C: Ledger, F: Ledger, L: Connection>(
    rt: &R,
    host: &Host<W, T, C, F>,
    client: &Client<'_, L>,
    query: QueryPoll,
) -> Result<(), AskFault>
    ensures { IfOk result (λ _. AcceptsAnswer L.gives client.now.options.now.names W.program W.queries W.definitions
        query.token (view query.result)) }
{
    let request = query_answer(rt, host, client, query)?;
    match client.send(request) {
        Ok(_discarded) => Ok(()),
        Err(fault) => Err(fault),
    }
}

/// Answers the queries of a queue one after another, until the workers have ended and none is left.
/// Errors are ignored: a query without an answer times out.
pub fn answer_queries<
    R: Wait + Clock,
    W: Queryable,
    T: Ledger,
    C: Ledger,
    F: Ledger,
    L: Connection,
>(rt: &R, host: &Host<W, T, C, F>, client: &Client<'_, L>, queue: &QueryQueue) {
    for _round in rt.forever() {
        let Some(query) = queue.next(rt) else {
            break;
        };
        let _ = answer_query(rt, host, client, query);
    }
}
