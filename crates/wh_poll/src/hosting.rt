//! Workers on an open host, and a host that is opened, run and closed in one call.
ghost use Rattle.std.specs.Prelude.{◌≡◌, ◌+◌, ◌↔◌, IfOk, Err, map, vec_capacity, vec_len};
ghost use denote.Param.Send.{IsSend};
ghost use Rattle.wh_host.specs.Shares.{sums_of};
ghost use Rattle.wh_host.specs.Machine.{totals_of};
ghost use Rattle.wh_slots.specs.Sizes.{IsConfig};
ghost use Rattle.wh_poll.specs.Ends.{AreEnds, IsHostEnd};

use crate::observer::Observer;
use crate::pairs::{unzip_pairs, zip_lists};
use crate::setup::{WorkerEnd, WorkerSetup};
use crate::workers::run_in_threads;
use std::alloc::Global;
use std::marker::Brand;
use std::sync::Wait;
use std::sync::ledger::{Blank, Ledger};
use std::thread;
use std::thread::Threads;
use wh_events::OutOfMemory;
use wh_host::{Config, EndSignal, Host, OpenFault, Seat, Totals};
use wh_tasks::{ActivityHandler, TaskSource};
use wh_workflow::Workflow;

/// The seats of workers that have ended, and what each of them leaves.
type Ended<T, C, F, S, A, O> = (Vec<Seat<T, C, F>>, Vec<WorkerEnd<S, A, O>>);

/// Runs a worker in a thread of its own for each setup, on a host that the caller keeps. Another
/// thread may lock the host meanwhile, to evict runs or to drain it. The caller closes it with the
/// seats that are returned. There is a seat for each setup, in their order.
///
/// Returns the seats and what the workers leave, in the order of the setups. The list of the seats
/// keeps its capacity. Each worker leaves what its turns made of its setup, with its handler and
/// its observer, which was notified of each turn. Its source comes from the one of the setup, with
/// the same `delivers` and `fetches`, and was sent at most as many answers as the worker took
/// tasks.
///
/// Returns `OutOfMemory` if there was no memory. The seats and the setups are lost then, so the
/// host can't be closed any more. What workers did until then is done.
pub fn run_on_host<
    R: Threads + Wait + Sync,
    W: Workflow + Send,
    T: Ledger + Send,
    C: Ledger + Send,
    F: Ledger + Send,
    S: TaskSource + Send + Drop,
    A: ActivityHandler + Send + Drop,
    O: Observer + Send + Drop,
>(
    rt: &R,
    alloc: Global,
    host: &Host<W, T, C, F>,
    mut seats: Vec<Seat<T, C, F>>,
    setups: Vec<WorkerSetup<S, A, O>>,
) -> Result<(Vec<Seat<T, C, F>>, Vec<WorkerEnd<S, A, O>>), OutOfMemory>
    requires seats { vec_len seats ≡ vec_len setups }
    ensures seats { IfOk result (λ ended. vec_len ended.0 ≡ vec_len setups) }
    ensures room { IfOk result (λ ended. vec_capacity ended.0 ≡ vec_capacity seats) }
    ensures count { IfOk result (λ ended. vec_len ended.1 ≡ vec_len setups) }
    ensures counted { IfOk result (λ ended. ended.0.items ≡ map (λ end. end.counted) ended.1.items) }
    ensures ends { IfOk result (λ ended. AreEnds W.program S.fetches S.delivers S.answers S.failures S.comes_from
        A.may O.hears seats.items setups.items ended.1.items) }
{
    let mut ends = Vec::new(alloc);
    ends.reserve(setups.len())?;
    let pairs = zip_lists(alloc, &mut seats, setups)?;
    let ended = run_in_threads(rt, alloc, host, pairs)?;
    Ok(unzip_pairs(ended, (seats, ends)))
}

/// Does the same as `run_on_host`, and calls `beside` in one more thread meanwhile. The signal ends
/// when the workers have ended; `beside` is to return then. If there is no thread for it, it is
/// called after that. Also returns what `beside` returned.
pub fn run_beside<
    R: Threads + Wait + Sync,
    W: Workflow + Send,
    T: Ledger + Send,
    C: Ledger + Send,
    F: Ledger + Send,
    S: TaskSource + Send + Drop,
    A: ActivityHandler + Send + Drop,
    O: Observer + Send + Drop,
    X: Send,
    B: FnOnce() -> X + Send,
>(
    rt: &R,
    alloc: Global,
    host: &Host<W, T, C, F>,
    seats: Vec<Seat<T, C, F>>,
    setups: Vec<WorkerSetup<S, A, O>>,
    signal: &EndSignal,
    beside: B,
) -> (X, Result<Ended<T, C, F, S, A, O>, OutOfMemory>)
    requires seats { vec_len seats ≡ vec_len setups }
    requires beside { B.pre beside }
    ensures beside { B.post beside result.0 }
    ensures seats { IfOk result.1 (λ ended. vec_len ended.0 ≡ vec_len setups) }
    ensures room { IfOk result.1 (λ ended. vec_capacity ended.0 ≡ vec_capacity seats) }
    ensures count { IfOk result.1 (λ ended. vec_len ended.1 ≡ vec_len setups) }
    ensures counted { IfOk result.1 (λ ended. ended.0.items ≡ map (λ end. end.counted) ended.1.items) }
    ensures ends { IfOk result.1 (λ ended. AreEnds W.program S.fetches S.delivers S.answers S.failures S.comes_from
        A.may O.hears seats.items setups.items ended.1.items) }
{
    thread::join(
        rt,
        beside,
        move || -> Result<Ended<T, C, F, S, A, O>, OutOfMemory>
            requires { IsSend W.row × IsSend W.State.row × (vec_len seats ≡ vec_len setups) }
            ensures seats { IfOk result (λ ended. vec_len ended.0 ≡ vec_len setups) }
            ensures room { IfOk result (λ ended. vec_capacity ended.0 ≡ vec_capacity seats) }
            ensures count { IfOk result (λ ended. vec_len ended.1 ≡ vec_len setups) }
            ensures counted { IfOk result (λ ended. ended.0.items ≡ map (λ end. end.counted) ended.1.items) }
            ensures ends { IfOk result (λ ended. AreEnds W.program S.fetches S.delivers S.answers S.failures
                S.comes_from A.may O.hears seats.items setups.items ended.1.items) }
        {
            let ended = run_on_host(rt, alloc, host, seats, setups);
            signal.end(rt);
            ended
        },
    )
}

/// What is left of a host whose workers have ended.
#[derive(Drop)]
pub struct HostEnd<S, A, O> {
    /// The sizes that were asked for.
    pub config: Config,
    /// What each worker left, in the order of their setups.
    pub workers: Vec<WorkerEnd<S, A, O>>,
    /// What all of them counted.
    pub totals: Totals,
}

/// Opens a host of these sizes, runs a worker in a thread of its own for each setup, and closes the
/// host once all have ended. The host has a seat for each setup.
///
/// Each worker leaves what its turns made of its setup, with its handler and its observer, which
/// was notified of each turn. Its source comes from the one of the setup, with the same `delivers`
/// and `fetches`, and was sent at most as many answers as the worker took tasks. The totals are the
/// sums of what the workers counted, and the sizes are those that were asked for.
///
/// Returns `BadConfig` if a size is not within its range, or if there are not as many seats as
/// setups, and `OutOfMemory` if there was no memory. The setups are lost then. (Temporal
/// documentation, "Workers": a Worker Process.)
pub fn run_host<
    W: Workflow + Send,
    R: Threads + Wait + Sync,
    S: TaskSource + Send + Drop,
    A: ActivityHandler + Send + Drop,
    O: Observer + Send + Drop,
>(
    rt: &R,
    alloc: Global,
    config: Config,
    setups: Vec<WorkerSetup<S, A, O>>,
) -> Result<HostEnd<S, A, O>, OpenFault>
    ensures bad { (result ≡ Err OpenFault.BadConfig) ↔ (¬ (IsConfig config × (config.seats ≡ vec_len setups))) }
    ensures end { IfOk result (IsHostEnd W.program S.fetches S.delivers S.answers S.failures S.comes_from
        A.may O.hears config setups) }
{
    if config.seats != setups.len() {
        return Err(OpenFault::BadConfig);
    }
    let parts = config.seats as u64;
    run_with::<W, R, S, A, O, Brand, Brand, Brand>(
        rt,
        alloc,
        config,
        setups,
        Blank::new(parts),
        Blank::new(parts),
        Blank::new(parts),
    )
}

/// Opens a host of these sizes over these ledgers, runs its workers, and closes it.
fn run_with<
    W: Workflow + Send,
    R: Threads + Wait + Sync,
    S: TaskSource + Send + Drop,
    A: ActivityHandler + Send + Drop,
    O: Observer + Send + Drop,
    T: Ledger + Send,
    C: Ledger + Send,
    F: Ledger + Send,
>(
    rt: &R,
    alloc: Global,
    config: Config,
    setups: Vec<WorkerSetup<S, A, O>>,
    taken: Blank,
    completed: Blank,
    failed: Blank,
) -> Result<HostEnd<S, A, O>, OpenFault>
    requires seats { config.seats ≡ vec_len setups }
    requires taken { (taken.name ≡ T.name) × (taken.parts ≡ T.parts) × (taken.parts ≡ config.seats) }
    requires completed { (completed.name ≡ C.name) × (completed.parts ≡ C.parts)
        × (completed.parts ≡ config.seats) }
    requires failed { (failed.name ≡ F.name) × (failed.parts ≡ F.parts) × (failed.parts ≡ config.seats) }
    ensures bad { (result ≡ Err OpenFault.BadConfig) ↔ (¬ IsConfig config) }
    ensures end { IfOk result (IsHostEnd W.program S.fetches S.delivers S.answers S.failures S.comes_from
        A.may O.hears config setups) }
{
    let (host, fresh) = Host::<W, T, C, F>::open(alloc, config, taken, completed, failed)?;
    let (seats, workers) = run_on_host(rt, alloc, &host, fresh, setups)?;
    let totals = close_host(host, seats);
    Ok(HostEnd {
        config,
        workers,
        totals,
    })
}

/// Closes a host with all of its seats, and returns what they counted.
pub fn close_host<W: Workflow, T: Ledger, C: Ledger, F: Ledger>(
    host: Host<W, T, C, F>,
    seats: Vec<Seat<T, C, F>>,
) -> Totals
    requires { T.parts ≡ vec_len seats }
    ensures gathered { result ≡ totals_of (sums_of seats.items) }
    ensures balanced { result.taken ≡ result.completed + result.failed + result.in_hand }
{
    let Ok(totals) = host.close(seats) else {
        unreachable!()
    };
    totals
}
