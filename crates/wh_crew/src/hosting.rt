//! Runs a host with desks that answer queries, and a timer of heartbeats, beside its workers.

ghost use Rattle.std.specs.Prelude.{◌≡◌, ◌≤◌, ◌+◌, ◌↔◌, IfOk, Err, vec_len};
ghost use denote.Param.Send.{IsSend};
ghost use Rattle.wh_slots.specs.Sizes.{IsConfig};
ghost use Rattle.wh_poll.specs.Ends.{IsHostEnd};

use crate::timer::send_held;
use std::alloc::Global;
use std::marker::Brand;
use std::sync::ledger::{Blank, Ledger};
use std::sync::{Arc, Wait};
use std::thread;
use std::thread::Threads;
use std::time::Clock;
use wh_client::{Client, Connection};
use wh_host::{
    Companion, Config, EndSignal, Host, OpenFault, Seat, accompany, put_spare, take_spare,
    with_spare,
};
use wh_live_queries::{QueryQueue, answer_queries};
use wh_poll::{
    ActivityHandler, HostEnd, Observer, TaskSource, WorkerSetup, close_host, run_beside,
};
use wh_tasks::ActivityCell;
use wh_workflow::Queryable;

/// The same as `run_host` of `wh_poll`, with what runs beside the workers, each in a thread of its
/// own: the companion, if there is one; two desks, which answer the queries of a queue over the
/// calls of a client; and a timer, which sends what the heartbeats of the workers hold in their
/// cells over the same calls. None changes the host. It is opened with a seat for the companion,
/// which counts nothing, unless the workers take all seats that a host may have.
pub(crate) fn run_host_answering<
    W: Queryable + Send,
    R: Threads + Wait + Clock + Sync,
    S: TaskSource + Send + Drop,
    A: ActivityHandler + Send + Drop,
    O: Observer + Send + Drop,
    P: Companion + Sync,
    L: Connection + Sync,
>(
    rt: &R,
    alloc: Global,
    config: Config,
    setups: Vec<WorkerSetup<S, A, O>>,
    companion: Option<&P>,
    client: &Client<'_, L>,
    queries: &QueryQueue,
    cells: &[Arc<ActivityCell>],
) -> Result<HostEnd<S, A, O>, OpenFault>
    ensures bad { (result ≡ Err OpenFault.BadConfig) ↔ (¬ (IsConfig config × (config.seats ≡ vec_len setups))) }
    ensures end { IfOk result (IsHostEnd W.program S.fetches S.delivers S.answers S.failures S.comes_from
        A.may O.hears config setups) }
{
    if config.seats != setups.len() {
        return Err(OpenFault::BadConfig);
    }
    let opened = with_spare(config, companion.is_some());
    let parts = opened.seats as u64;
    let end = run_with::<W, R, S, A, O, P, L, Brand, Brand, Brand>(
        rt,
        alloc,
        opened,
        setups,
        companion,
        client,
        queries,
        cells,
        Blank::new(parts),
        Blank::new(parts),
        Blank::new(parts),
    )?;
    Ok(HostEnd { config, ..end })
}

/// Opens a host of these sizes over these ledgers, runs its workers, with all that runs beside them,
/// and closes it. There may be one seat more than workers.
fn run_with<
    W: Queryable + Send,
    R: Threads + Wait + Clock + Sync,
    S: TaskSource + Send + Drop,
    A: ActivityHandler + Send + Drop,
    O: Observer + Send + Drop,
    P: Companion + Sync,
    L: Connection + Sync,
    T: Ledger + Send,
    C: Ledger + Send,
    F: Ledger + Send,
>(
    rt: &R,
    alloc: Global,
    config: Config,
    setups: Vec<WorkerSetup<S, A, O>>,
    companion: Option<&P>,
    client: &Client<'_, L>,
    queries: &QueryQueue,
    cells: &[Arc<ActivityCell>],
    taken: Blank,
    completed: Blank,
    failed: Blank,
) -> Result<HostEnd<S, A, O>, OpenFault>
    requires seats { (vec_len setups ≤ config.seats) × (config.seats ≤ vec_len setups + 1) }
    requires taken { (taken.name ≡ T.name) × (taken.parts ≡ T.parts) × (taken.parts ≡ config.seats) }
    requires completed { (completed.name ≡ C.name) × (completed.parts ≡ C.parts)
        × (completed.parts ≡ config.seats) }
    requires failed { (failed.name ≡ F.name) × (failed.parts ≡ F.parts) × (failed.parts ≡ config.seats) }
    ensures bad { (result ≡ Err OpenFault.BadConfig) ↔ (¬ IsConfig config) }
    ensures end { IfOk result (IsHostEnd W.program S.fetches S.delivers S.answers S.failures S.comes_from
        A.may O.hears config setups) }
{
    let (host, mut seats) = Host::<W, T, C, F>::open(alloc, config, taken, completed, failed)?;
    let spare = take_spare(&mut seats, setups.len());
    let lent = &host;
    let signal = &EndSignal::new();
    let beside = move || -> Option<Seat<T, C, F>>
        requires { IsSend W.row × IsSend W.State.row }
        ensures { result ≡ spare }
    { attend(rt, lent, spare, companion, client, queries, cells, signal) };
    let (spare, ended) = run_beside(rt, alloc, lent, seats, setups, signal, beside);
    let (mut seats, workers) = ended?;
    put_spare(&mut seats, spare);
    let totals = close_host(host, seats);
    Ok(HostEnd {
        config,
        workers,
        totals,
    })
}

/// Answers the queries of the queue in two threads, until the queue has ended, so that a history
/// that can't be fetched holds up one of them. If there is no second thread, one answers them all.
fn run_query_desks<
    R: Threads + Wait + Clock + Sync,
    W: Queryable + Send,
    T: Ledger + Send,
    C: Ledger + Send,
    F: Ledger + Send,
    L: Connection + Sync,
>(rt: &R, host: &Host<W, T, C, F>, client: &Client<'_, L>, queries: &QueryQueue) {
    let ((), ()) = thread::join(
        rt,
        move || answer_queries(rt, host, client, queries),
        move || answer_queries(rt, host, client, queries),
    );
}

/// Answers the queries of the queue and sends what is held in the cells, in threads of their own,
/// until the workers have ended. If there is no thread for the queries, they are answered then.
fn run_desks<
    R: Threads + Wait + Clock + Sync,
    W: Queryable + Send,
    T: Ledger + Send,
    C: Ledger + Send,
    F: Ledger + Send,
    L: Connection + Sync,
>(
    rt: &R,
    host: &Host<W, T, C, F>,
    client: &Client<'_, L>,
    queries: &QueryQueue,
    cells: &[Arc<ActivityCell>],
    signal: &EndSignal,
) {
    queries.begin(rt);
    let ((), ()) = thread::join(
        rt,
        move ||
            requires { IsSend W.row × IsSend W.State.row }
        { run_query_desks(rt, host, client, queries) },
        move || {
            send_held(rt, client, cells, signal);
            queries.end(rt);
        },
    );
}

/// Runs all that runs beside the workers, until they have ended. The companion's seat is returned
/// unchanged.
fn attend<
    R: Threads + Wait + Clock + Sync,
    W: Queryable + Send,
    T: Ledger + Send,
    C: Ledger + Send,
    F: Ledger + Send,
    P: Companion + Sync,
    L: Connection + Sync,
>(
    rt: &R,
    host: &Host<W, T, C, F>,
    spare: Option<Seat<T, C, F>>,
    companion: Option<&P>,
    client: &Client<'_, L>,
    queries: &QueryQueue,
    cells: &[Arc<ActivityCell>],
    signal: &EndSignal,
) -> Option<Seat<T, C, F>>
    ensures { result ≡ spare }
{
    let Some(companion) = companion else {
        run_desks(rt, host, client, queries, cells, signal);
        return spare;
    };
    let ((), spare) = thread::join(
        rt,
        move ||
            requires { IsSend W.row × IsSend W.State.row }
        { run_desks(rt, host, client, queries, cells, signal) },
        move || -> Option<Seat<T, C, F>>
            requires { IsSend W.row × IsSend W.State.row }
            ensures { result ≡ spare }
        { accompany(rt, host, spare, signal, companion) },
    );
    spare
}
