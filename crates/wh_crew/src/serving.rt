//! Runs a host of a server's tasks.

ghost use Rattle.std.specs.Prelude.{◌≡◌, ◌+◌, ◌↔◌, Err, IfOk, vec_len};
ghost use Rattle.wh_crew.specs.Serving.{HasServed};
ghost use Rattle.wh_crew.specs.TaskQueries.{AnswersByReplay};
ghost use Rattle.wh_slots.specs.Sizes.{IsConfig};

use crate::bridge_connection::BridgeConnection;
use crate::crews::{setups_of, total_counts, total_tally};
use crate::hosting::run_host_answering;
use crate::source_observer::SourceObserver;
use crate::task_queries::ByClosure;
use std::alloc::Global;
use std::io::BufReader;
use std::sync::{Arc, Wait};
use std::thread::Threads;
use std::time::Clock;
use wh_client::{Client, LiveOptions};
use wh_commands::Members;
use wh_events::Event;
use wh_host::{Companion, Config, OpenFault, Totals};
use wh_live::{LiveSource, QueryHandler};
use wh_live_queries::{QueryQueue, results_beside};
use wh_notes::{SourceCounts, Tally};
use wh_poll::{ActivityHandler, Observer};
use wh_rpc::{Caller, read_lines};
use wh_tasks::ActivityCell;
use wh_tester::Shown;
use wh_workflow::Queryable;

/// What a host of a server's tasks has counted when it has ended.
#[derive(Clone, Copy, Debug)]
pub struct LiveEnd {
    /// What its workers counted.
    pub totals: Totals,
    /// How often their sources failed.
    pub tally: Tally,
    /// What their sources have done.
    pub sources: SourceCounts,
}

/// Reads what the bridge writes, until it ends, and delivers each response to the call that waits
/// for it. Once the input has ended, or if it can't be read, all calls are closed. Skipped lines
/// are reported on standard error, each after the program's name.
///
/// It runs in a thread beside `serve_live`, which needs the responses to its last calls too. A
/// program that ends while its input is still open does not join that thread.
pub fn read_input<R: Wait + Input + Eprint, C: Caller>(
    rt: &R,
    alloc: Global,
    name: &str,
    calls: &C,
) {
    match BufReader::new(alloc, rt.reader()) {
        Ok(input) => read_lines(rt, alloc, &Shown(name), input, calls),
        Err(_) => calls.close(rt),
    }
}

/// Returns the client of a process, which runs no activity itself.
fn client_of<'x, L>(connection: &'x L, options: &'x LiveOptions) -> Client<'x, L> {
    Client {
        connection,
        options,
        cell: None,
    }
}

/// Does what `serve_live` says, with this handler of the queries that come with tasks.
fn serve_with<
    'x,
    W: Queryable + Send,
    R: Threads + Wait + Clock + Eprint + Sync,
    C: Caller + Sync,
    A: ActivityHandler + Send + Drop,
    O: Observer + Send + Drop,
    P: Companion + Sync,
    Q: QueryHandler + Sync,
    N: SourceObserver + Sync,
>(
    rt: &'x R,
    alloc: Global,
    name: &'x str,
    config: Config,
    calls: &'x C,
    options: &'x LiveOptions,
    workers: usize,
    crew: Vec<(A, O)>,
    cells: &'x [Arc<ActivityCell>],
    companion: Option<&P>,
    query_handler: &'x Q,
    observer: &'x N,
) -> Result<LiveEnd, OpenFault>
    requires ready { Q.ready query_handler.now }
    requires answers { AnswersByReplay (Q.gives_results query_handler.now) W.program W.queries W.definitions }
    ensures bad { (result ≡ Err OpenFault.BadConfig) ↔ (¬ (IsConfig config × (config.seats ≡ vec_len crew))) }
    ensures served { IfOk result (HasServed W.program A.may O.hears config options.now workers crew.items) }
    ensures balanced { IfOk result (λ end.
        end.totals.taken ≡ end.totals.completed + end.totals.failed + end.totals.in_hand) }
{
    if config.seats != crew.len() || !config.is_within() {
        return Err(OpenFault::BadConfig);
    }
    let connection = &BridgeConnection {
        rt,
        calls,
        observer,
        name,
        queries: QueryQueue::new(alloc),
    };
    let client = client_of(connection, options);
    let setups = setups_of(
        alloc,
        connection,
        query_handler,
        options,
        workers,
        crew,
        cells,
    )?;
    let end = run_host_answering::<
        W,
        R,
        LiveSource<'_, BridgeConnection<R, C, N>, Q>,
        A,
        O,
        P,
        BridgeConnection<R, C, N>,
    >(
        rt,
        alloc,
        config,
        setups,
        companion,
        &client,
        &connection.queries,
        cells,
    )?;
    let _ = client.give_up_queue();
    Ok(LiveEnd {
        totals: end.totals,
        tally: total_tally(end.workers.as_slice()),
        sources: total_counts(end.workers.as_slice()),
    })
}

/// Opens a host of these sizes, runs a worker in a thread of its own for each member of the crew,
/// over the calls of a server, and closes the host once all have ended: when the calls are closed,
/// or when no later poll can succeed.
///
/// The first members poll for workflow tasks, as many as there are workflow workers; the others
/// poll for activity tasks. With a cache, one workflow worker in five, and at least one, polls the
/// queue that all workers poll, and the others poll the sticky queue of this process, which is
/// given up at the end; without a cache all poll the first. So a single workflow worker does not
/// poll the sticky queue: with it `options.sticky` must be `None`, or the tasks of its runs wait
/// there in vain.
///
/// The cells are those of the crew's members, in their order: by its cell a handler's
/// `LiveHeartbeat` knows which task it runs. A member without one never learns that its activity is
/// to be canceled. A timer in a thread of its own sends what the heartbeats hold in the cells, once
/// the interval since the last one that was sent is over (Temporal documentation, "Activity
/// Heartbeat").
///
/// Queries that come alone are answered in one more thread, from a cached run or by replay of the
/// run's history: they take no slot, and change no count (Temporal documentation, "Queries"). Those
/// that come with a task are answered with it, by replay of the run's events.
///
/// The companion, if there is one, runs beside the workers in one more thread, as `run_beside` of
/// `wh_poll` says. The observer hears of the polls of the workers, and of the answers that they
/// sent. Faults are reported on standard error, after the program's name.
///
/// `BadConfig` if a size is out of its range, or there are not as many seats as members of the
/// crew; `OutOfMemory` if there was no memory. After an error the crew is dropped. (Temporal
/// documentation, "Workers": a Worker Process.)
pub fn serve_live<
    'x,
    W: Queryable + Send,
    R: Threads + Wait + Clock + Eprint + Sync,
    C: Caller + Sync,
    A: ActivityHandler + Send + Drop,
    O: Observer + Send + Drop,
    P: Companion + Sync,
    N: SourceObserver + Sync,
>(
    rt: &'x R,
    alloc: Global,
    name: &'x str,
    config: Config,
    calls: &'x C,
    options: &'x LiveOptions,
    workers: usize,
    crew: Vec<(A, O)>,
    cells: &'x [Arc<ActivityCell>],
    companion: Option<&P>,
    observer: &'x N,
) -> Result<LiveEnd, OpenFault>
    ensures bad { (result ≡ Err OpenFault.BadConfig) ↔ (¬ (IsConfig config × (config.seats ≡ vec_len crew))) }
    ensures served { IfOk result (HasServed W.program A.may O.hears config options.now workers crew.items) }
    ensures balanced { IfOk result (λ end.
        end.totals.taken ≡ end.totals.completed + end.totals.failed + end.totals.in_hand) }
{
    let query_handler = ByClosure {
        answer: |alloc: Global, events: &[Event], queries: &Members| {
            results_beside::<W>(alloc, events, queries)
        },
    };
    serve_with::<W, R, C, A, O, P, _, N>(
        rt,
        alloc,
        name,
        config,
        calls,
        options,
        workers,
        crew,
        cells,
        companion,
        &query_handler,
        observer,
    )
}
