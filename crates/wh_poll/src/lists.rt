//! Workers without observers: one alone, or one in a thread of its own for each place of equally
//! long lists of seats, sources, handlers and turns.
ghost use Rattle.std.specs.Prelude.{◌≡◌, ◌≤◌, ◌+◌, [], IfOk, length, map, vec_capacity, vec_len};
ghost use Rattle.std.specs.List.{AllZip};
ghost use Rattle.wh_tasks.specs.Source.{KeepsOrigin, RoseIfFailed, SameTasks};
ghost use Rattle.wh_poll.specs.Lists.{worker_of, IsWorkOf, AreWorkOf, WithinTurns, AllRoseIfFailed, AllAnsweredWithin};

use crate::observer::NoObserver;
use crate::pairs::zip_lists;
use crate::setup::{WorkerEnd, WorkerSetup};
use crate::workers::{EndedWorker, run_in_threads, run_worker};
use std::alloc::Global;
use std::sync::Wait;
use std::sync::ledger::Ledger;
use std::thread::Threads;
use wh_events::OutOfMemory;
use wh_host::{Host, Seat};
use wh_tasks::{ActivityHandler, SourceFault, TaskSource};
use wh_workflow::Workflow;

/// What a worker returns when it ends.
#[derive(Drop)]
pub struct Worker<T: Ledger, C: Ledger, F: Ledger, S> {
    /// Its seat, with what it counted.
    pub seat: Seat<T, C, F>,
    /// Its source, with the answers that it was sent.
    pub source: S,
    /// The first fault of its source, if there was one.
    pub fault: Option<SourceFault>,
}

/// Runs a worker: serves at most one task each turn, workflow and activity tasks alternately,
/// workflow tasks first. When a kind is closed, each later turn goes to the other kind. The worker
/// ends when both kinds are closed, when the host drains, or after `turns` turns. It keeps the
/// first fault of the source, and goes on.
///
/// Returns what the turns led to, each of them a call of `serve_one`. The returned source comes
/// from the one that was passed in, with the same `delivers` and `fetches`, and was sent at most as
/// many answers as the seat took tasks.
pub fn work<
    R: Wait,
    W: Workflow,
    T: Ledger,
    C: Ledger,
    F: Ledger,
    S: TaskSource,
    A: ActivityHandler + Drop,
>(
    rt: &R,
    alloc: Global,
    host: &Host<W, T, C, F>,
    seat: Seat<T, C, F>,
    source: S,
    handler: A,
    turns: u64,
) -> Worker<T, C, F, S>
    ensures taken { result.seat.taken ≤ seat.taken + turns }
    ensures fault { RoseIfFailed result.fault (S.failures source) (S.failures result.source) }
    ensures same { SameTasks (S.delivers source) (S.fetches source)
        (S.delivers result.source) (S.fetches result.source) }
    ensures origin { KeepsOrigin S.comes_from source result.source }
    ensures answered { length (S.answers result.source) + seat.taken ≤ length (S.answers source) + result.seat.taken }
    ensures work { IsWorkOf W.program S.fetches S.delivers S.answers S.failures S.comes_from A.may
        seat source handler turns result }
{
    let setup = WorkerSetup {
        source,
        handler,
        observer: NoObserver,
        turns,
    };
    worker_of(run_worker(rt, alloc, host, seat, setup))
}

/// Returns what a worker returns, from what it leaves.
fn worker_of<T: Ledger, C: Ledger, F: Ledger, S, A: Drop>(
    ended: EndedWorker<T, C, F, S, A, NoObserver>,
) -> Worker<T, C, F, S>
    ensures { result ≡ worker_of ended }
{
    let (seat, end) = ended;
    let WorkerEnd { source, fault, .. } = end;
    Worker {
        seat,
        source,
        fault,
    }
}

/// Runs a worker in a thread of its own for each seat, with the source, the handler and the turns
/// of the same place. The four lists are equally long. Returns the workers in the order of the
/// seats. The taken share of each has risen by at most its turns, and if one kept a fault, its own
/// source has failed. Each is what its turns led to, as in `work`: its source comes from the one of
/// its place, and was sent at most as many answers as its seat took tasks. Returns `OutOfMemory` if
/// there was no memory. The seats are lost then. (Temporal documentation, "Workers": a Worker
/// Process runs many task executors.)
pub fn run_workers<
    R: Threads + Wait + Sync,
    W: Workflow + Send,
    T: Ledger + Send,
    C: Ledger + Send,
    F: Ledger + Send,
    S: TaskSource + Send + Drop,
    A: ActivityHandler + Send + Drop,
>(
    rt: &R,
    alloc: Global,
    host: &Host<W, T, C, F>,
    mut seats: Vec<Seat<T, C, F>>,
    sources: Vec<S>,
    handlers: Vec<A>,
    turns: Vec<u64>,
) -> Result<Vec<Worker<T, C, F, S>>, OutOfMemory>
    requires sources { vec_len sources ≡ vec_len seats }
    requires handlers { vec_len handlers ≡ vec_len seats }
    requires turns { vec_len turns ≡ vec_len seats }
    ensures turns { IfOk result (λ workers.
        WithinTurns seats.items turns.items (map (λ worker. worker.seat) workers.items)) }
    ensures faults { IfOk result (λ workers. AllRoseIfFailed (map (λ source. S.failures source) sources.items)
        (map (λ worker. worker.fault) workers.items) (map (λ worker. S.failures worker.source) workers.items)) }
    ensures origins { IfOk result (λ workers.
        AllZip (KeepsOrigin S.comes_from) sources.items (map (λ worker. worker.source) workers.items)) }
    ensures answered { IfOk result (λ workers.
        AllAnsweredWithin (map (λ source. length (S.answers source)) sources.items) seats.items
        (map (λ worker. length (S.answers worker.source)) workers.items) (map (λ worker. worker.seat) workers.items)) }
    ensures work { IfOk result (λ workers.
        AreWorkOf W.program S.fetches S.delivers S.answers S.failures S.comes_from A.may
        seats.items sources.items handlers.items turns.items workers.items) }
{
    let setups = setups_of(alloc, sources, handlers, turns)?;
    let pairs = zip_lists(alloc, &mut seats, setups)?;
    let mut room = Vec::new(alloc);
    room.reserve(pairs.len())?;
    let ended = run_in_threads(rt, alloc, host, pairs)?;
    Ok(workers_of(ended, room))
}

/// Lists what the workers return, from what they leave, in an empty list with room for it.
fn workers_of<T: Ledger, C: Ledger, F: Ledger, S: Drop, A: Drop>(
    mut ended: Vec<EndedWorker<T, C, F, S, A, NoObserver>>,
    mut workers: Vec<Worker<T, C, F, S>>,
) -> Vec<Worker<T, C, F, S>>
    requires empty { workers.items ≡ [] }
    requires room { vec_len ended ≤ vec_capacity workers }
    ensures { result.items ≡ map worker_of ended.items }
{
    while let Some(end) = ended.pop() {
        workers.push_reserved(worker_of(end));
    }
    workers.reverse();
    workers
}

/// Makes a setup for each source, with the handler and the turns of its place, and no observer.
fn setups_of<S: Drop, A: Drop>(
    alloc: Global,
    mut sources: Vec<S>,
    mut handlers: Vec<A>,
    mut turns: Vec<u64>,
) -> Result<Vec<WorkerSetup<S, A, NoObserver>>, OutOfMemory>
    requires handlers { vec_len handlers ≡ vec_len sources }
    requires turns { vec_len turns ≡ vec_len sources }
    ensures count { IfOk result (λ setups. vec_len setups ≡ vec_len sources) }
    ensures sources { IfOk result (λ setups. map (λ setup. setup.source) setups.items ≡ sources.items) }
    ensures handlers { IfOk result (λ setups. map (λ setup. setup.handler) setups.items ≡ handlers.items) }
    ensures turns { IfOk result (λ setups. map (λ setup. setup.turns) setups.items ≡ turns.items) }
{
    let mut setups = Vec::new(alloc);
    setups.reserve(sources.len())?;
    while let Some(source) = sources.pop() {
        let Some(handler) = handlers.pop() else {
            unreachable!()
        };
        let Some(turns) = turns.pop() else {
            unreachable!()
        };
        setups.push_reserved(WorkerSetup {
            source,
            handler,
            observer: NoObserver,
            turns,
        });
    }
    setups.reverse();
    Ok(setups)
}
