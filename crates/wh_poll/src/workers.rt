//! The turns of a worker, one after the other, and workers in threads of their own.
ghost use Rattle.std.specs.Prelude.{◌≡◌, ◌≤◌, ◌<◌, ◌+◌, ℕ, IfOk, not, length, vec_len, slice_index_or};
ghost use Rattle.std.specs.Bool.{OnTrue};
ghost use denote.Param.Send.{IsSend};
ghost use Rattle.wh_poll.specs.Workers.{first_fault, first_rota, other, is_last, next_rota};
ghost use Rattle.wh_poll.specs.Turns.{IsTurn};
ghost use Rattle.wh_poll.specs.Ends.{IsWorked};

use crate::observer::Observer;
use crate::serve::{Served, serve_one};
use crate::setup::{WorkerEnd, WorkerSetup};
use std::alloc::{AllocError, Global};
use std::sync::Wait;
use std::sync::ledger::Ledger;
use std::thread;
use std::thread::Threads;
use wh_host::{Host, Seat};
use wh_slots::SlotKind;
use wh_tasks::{ActivityHandler, SourceFault, TaskSource};
use wh_workflow::Workflow;

/// A seat with the setup of its worker.
pub(crate) type SeatedWorker<T, C, F, S, A, O> = (Seat<T, C, F>, WorkerSetup<S, A, O>);

/// A seat with what its worker leaves.
pub(crate) type EndedWorker<T, C, F, S, A, O> = (Seat<T, C, F>, WorkerEnd<S, A, O>);

/// Which kind of task a worker serves next, and whether the other kind is closed.
#[derive(Clone, Copy)]
struct Rota {
    kind: SlotKind,
    other_closed: bool,
}

impl Rota {
    /// Returns the rota of the first turn, which is for a workflow task.
    fn first() -> Rota
        ensures { result ≡ first_rota }
    {
        Rota {
            kind: SlotKind::Workflow,
            other_closed: false,
        }
    }

    /// Goes on after a turn that served this: to the other kind, unless that one is closed. Returns
    /// whether another turn follows.
    fn goes_on(&mut self, served: Result<Served, SourceFault>) -> bool
        ensures ends { result ≡ not (is_last self.old.other_closed served) }
        ensures next { OnTrue result (self.new ≡ next_rota self.old served) }
    {
        let is_closed = matches!(served, Ok(Served::Closed));
        if matches!(served, Ok(Served::Draining)) || (is_closed && self.other_closed) {
            return false;
        }
        if !self.other_closed {
            self.kind = other(self.kind);
            self.other_closed = is_closed;
        }
        true
    }
}

/// Returns the other kind.
fn other(kind: SlotKind) -> SlotKind
    ensures { result ≡ other kind }
{
    match kind {
        SlotKind::Workflow => SlotKind::Activity,
        SlotKind::Activity => SlotKind::Workflow,
    }
}

impl<S: TaskSource, A: ActivityHandler, O: Observer> WorkerEnd<S, A, O> {
    /// Takes one more turn, from what the worker would leave before it: serves one task of the kind
    /// with the worker's seat, keeps the fault of the source, if it is the first, and notifies the
    /// observer.
    fn take_turn<R: Wait, W: Workflow, T: Ledger, C: Ledger, F: Ledger>(
        &mut self,
        rt: &R,
        alloc: Global,
        host: &Host<W, T, C, F>,
        seat: &mut Seat<T, C, F>,
        kind: SlotKind,
    ) -> Result<Served, SourceFault>
        requires { seat.old ≡ self.old.counted }
        ensures counted { seat.new ≡ self.new.counted }
        ensures taken { seat.new.taken ≤ seat.old.taken + 1 }
        ensures answered { length (S.answers self.new.source) + seat.old.taken
            ≤ length (S.answers self.old.source) + seat.new.taken }
        ensures turn { IsTurn W.program S.fetches S.delivers S.answers S.failures S.comes_from A.may O.hears
            kind self.old result self.new }
    {
        let source = &mut self.source;
        let served = serve_one(rt, alloc, host, seat, source, &mut self.handler, kind);
        self.counted = seat.share();
        self.fault = first_fault(self.fault, served);
        self.observer.observe(served);
        served
    }
}

/// Returns the fault that a worker keeps after a turn: the first.
fn first_fault(
    kept: Option<SourceFault>,
    served: Result<Served, SourceFault>,
) -> Option<SourceFault>
    ensures { result ≡ first_fault kept served }
{
    match (kept, served) {
        (None, Err(fault)) => Some(fault),
        _ => kept,
    }
}

/// Runs a worker from its setup to its end, with at most one task each turn.
pub(crate) fn run_worker<
    R: Wait,
    W: Workflow,
    T: Ledger,
    C: Ledger,
    F: Ledger,
    S: TaskSource,
    A: ActivityHandler,
    O: Observer,
>(
    rt: &R,
    alloc: Global,
    host: &Host<W, T, C, F>,
    mut seat: Seat<T, C, F>,
    setup: WorkerSetup<S, A, O>,
) -> EndedWorker<T, C, F, S, A, O>
    ensures { IsWorked W.program S.fetches S.delivers S.answers S.failures S.comes_from A.may O.hears
        (seat, setup) result }
{
    let WorkerSetup {
        source,
        handler,
        observer,
        turns,
    } = setup;
    let mut end = WorkerEnd {
        counted: seat.share(),
        source,
        handler,
        observer,
        fault: None,
    };
    let mut rota = Rota::first();
    for _turn in 0..turns {
        let served = end.take_turn(rt, alloc, host, &mut seat, rota.kind);
        if !rota.goes_on(served) {
            break;
        }
    }
    (seat, end)
}

/// Runs a worker in a thread of its own for each pair of a seat and a setup.
pub(crate) fn run_in_threads<
    R: Threads + Wait + Sync,
    W: Workflow + Send,
    T: Ledger + Send,
    C: Ledger + Send,
    F: Ledger + Send,
    S: TaskSource + Send + Drop,
    A: ActivityHandler + Send + Drop,
    O: Observer + Send + Drop,
>(
    rt: &R,
    alloc: Global,
    host: &Host<W, T, C, F>,
    pairs: Vec<SeatedWorker<T, C, F, S, A, O>>,
) -> Result<Vec<EndedWorker<T, C, F, S, A, O>>, AllocError>
    ensures count { IfOk result (λ ended. vec_len ended ≡ vec_len pairs) }
    ensures each { IfOk result (λ ended. (i : ℕ) (seated : _) (end : _) → i < vec_len pairs →
        IsWorked W.program S.fetches S.delivers S.answers S.failures S.comes_from A.may O.hears
        (slice_index_or pairs.items i seated) (slice_index_or ended.items i end)) }
{
    thread::map_vec(
        rt,
        pairs,
        &|seated: SeatedWorker<T, C, F, S, A, O>| -> EndedWorker<T, C, F, S, A, O>
            requires { IsSend W.row × IsSend W.State.row }
            ensures { IsWorked W.program S.fetches S.delivers S.answers S.failures S.comes_from A.may O.hears
                seated result }
        {
            let (seat, setup) = seated;
            run_worker(rt, alloc, host, seat, setup)
        },
    )
}
