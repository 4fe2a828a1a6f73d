//! One turn of a worker.
ghost use Rattle.std.specs.Prelude.{◌≡◌, ◌≤◌, IfErr, IfOk, IfSome, MatchOption, MatchResult};
ghost use Rattle.wh_tasks.specs.Source.{KeepsSource, SameMay, FailsOnly};
ghost use Rattle.wh_tasks.specs.Source.{Workflow as WorkflowDelivery, Activity as ActivityDelivery};
ghost use Rattle.wh_tasks.specs.Tasks.{FailsOnlySource};
ghost use Rattle.wh_poll.specs.Serve.{Serves, ServesWorkflow, ServesActivity};
ghost use Rattle.wh_poll.specs.Private.Serve.{Sends};
ghost use Rattle.wh_host.specs.Machine.{with_taken};
ghost use Rattle.wh_poll.specs.Serve.{Counts, MayCount};
ghost use Rattle.wh_poll.specs.Private.Serve.{ended, unanswered};
ghost use Rattle.wh_poll.specs.Private.Serve.{served_workflow, served_activity, unreserved, HasNoTask};
ghost use Rattle.wh_poll.specs.Private.Serve.{IsRefused, Starts};

use crate::answer::{Answered, Reply, answer_by_handler, answer_by_replay};
use std::alloc::Global;
use std::sync::Wait;
use std::sync::ledger::Ledger;
use wh_host::{Host, Outcome, Seat};
use wh_replay::Run;
use wh_slots::{Held, Permit, ReserveFault, SlotKind, TaskName};
use wh_tasks::{
    ActivityHandler, ActivityTask, Polled, SourceFault, StepFault, TaskSource, WorkflowTask,
};
use wh_workflow::Workflow;

/// What one turn of a worker did.
#[derive(Clone, Copy, PartialEq, Eq, Debug)]
pub enum Served {
    /// A workflow task was answered.
    Workflow {
        /// The task's name.
        name: TaskName,
        /// Whether a cached run was used.
        hit: bool,
        /// The steps that replay counted.
        steps: u64,
        /// `Completed` if `Complete` was sent, `Failed` if `Fail` was.
        outcome: Outcome,
    },
    /// An activity task was answered.
    Activity {
        /// The task's name.
        name: TaskName,
        /// `Completed` if the activity's result was sent, `Failed` if its failure was.
        outcome: Outcome,
    },
    /// There was no memory, and the task was not answered.
    NoMemory {
        /// The task's name.
        name: TaskName,
    },
    /// A task of this name is being processed already, and the task was not answered again.
    Repeated {
        /// The task's name.
        name: TaskName,
    },
    /// The source has no task now.
    Idle,
    /// The source has no task now or later.
    Closed,
    /// No slot of the kind is free, and the source was not polled.
    NoSlot,
    /// The host drains, and the source was not polled.
    Draining,
    /// All numbers of slots were given out, and the source was not polled.
    NumbersSpent,
}

/// How a turn goes on after its poll.
#[derive(Drop)]
enum TurnStart<T> {
    /// With this task.
    Task(T),
    /// Not at all: there is no task, and the turn has this result.
    Over(Result<Served, SourceFault>),
}

/// Serves one task of the kind, if there is one: reserves a slot, polls the source, starts
/// processing the task, replays or runs it, sends its answer, gives the run back to the cache, and
/// finishes the task. The host is locked only for each of its own steps. Its lock is not held while
/// the source is called, workflow code is stepped or an activity is run.
///
/// Returns `Workflow` or `Activity` if exactly one answer was sent, under the name of a task that
/// the source delivers: that of `replay_task`, with no run or one of the task's key, or that of the
/// handler. With every other result nothing was sent. A task that was answered, repeated, or lost
/// for want of memory is one of the kind asked for that the source delivers.
///
/// The seat's taken share rises by one if the turn started processing a task, and its completed or
/// failed share by at most one, as the task's outcome says. A returned fault is that of the source.
/// No slot is left reserved or held by this turn then. (Temporal documentation, "Workers", "Task
/// Queues", "Sticky Execution".)
pub fn serve_one<
    R: Wait,
    W: Workflow,
    T: Ledger,
    C: Ledger,
    F: Ledger,
    S: TaskSource,
    A: ActivityHandler,
>(
    rt: &R,
    alloc: Global,
    host: &Host<W, T, C, F>,
    seat: &mut Seat<T, C, F>,
    source: &mut S,
    handler: &mut A,
    kind: SlotKind,
) -> Result<Served, SourceFault>
    ensures serves { Serves kind W.program (S.fetches source.old) (S.delivers source.old) (A.may handler.old)
        (S.answers source.old) (S.answers source.new) result }
    ensures counts { Counts seat.old seat.new result }
    ensures failures { FailsOnly result (S.failures source.old) (S.failures source.new) }
    ensures keeps { KeepsSource S.delivers S.fetches S.comes_from source.old source.new }
    ensures may { SameMay (A.may handler.old) (A.may handler.new) }
{
    let reserved = host.lock(rt).reserve(kind);
    let permit = match reserved {
        Ok(permit) => permit,
        Err(fault) => return Ok(no_slot(fault)),
    };
    match kind {
        SlotKind::Workflow => serve_workflow(rt, alloc, host, seat, source, permit),
        SlotKind::Activity => serve_activity(rt, host, seat, source, handler, permit),
    }
}

/// Returns the result of a turn that got no slot.
fn no_slot(fault: ReserveFault) -> Served
    ensures { result ≡ unreserved fault }
{
    match fault {
        ReserveFault::NoSlot => Served::NoSlot,
        ReserveFault::Draining => Served::Draining,
        ReserveFault::NumbersSpent => Served::NumbersSpent,
    }
}

/// Serves a workflow task under the permit.
#[tactic(auto, using(crate::proofs::Turns::counts_sent, crate::proofs::Turns::fails_sent))]
fn serve_workflow<R: Wait, W: Workflow, T: Ledger, C: Ledger, F: Ledger, S: TaskSource>(
    rt: &R,
    alloc: Global,
    host: &Host<W, T, C, F>,
    seat: &mut Seat<T, C, F>,
    source: &mut S,
    permit: Permit,
) -> Result<Served, SourceFault>
    ensures serves { ServesWorkflow W.program (S.fetches source.old) (S.delivers source.old)
        (S.answers source.old) (S.answers source.new) result }
    ensures counts { Counts seat.old seat.new result }
    ensures failures { FailsOnly result (S.failures source.old) (S.failures source.new) }
    ensures keeps { KeepsSource S.delivers S.fetches S.comes_from source.old source.new }
{
    let task = match start_workflow(source) {
        TurnStart::Task(task) => task,
        TurnStart::Over(served) => return end_without_task(rt, host, permit, served),
    };
    let name = task.name;
    let (held, cached) = match take_workflow(rt, host, permit, &task, seat) {
        Ok(taken) => taken,
        Err(served) => {
            drop(task);
            return Ok(served);
        }
    };
    let sent = answer_held(rt, alloc, host, &held, cached, task, source);
    finish(rt, host, held, outcome_of(sent), seat);
    result_of_workflow(name, sent)
}

/// Polls a workflow task. If there is none, the turn ends with the result of the poll.
fn start_workflow<S: TaskSource>(source: &mut S) -> TurnStart<WorkflowTask>
    ensures task { Starts (λ task. S.delivers source.old (WorkflowDelivery task)) HasNoTask result }
    ensures answers { S.answers source.new ≡ S.answers source.old }
    ensures failures { Starts (λ _. S.failures source.old ≤ S.failures source.new)
        (λ served. FailsOnly served (S.failures source.old) (S.failures source.new)) result }
    ensures keeps { KeepsSource S.delivers S.fetches S.comes_from source.old source.new }
{
    match source.poll_workflow() {
        Ok(Polled::Task(task)) => TurnStart::Task(task),
        Ok(Polled::Nothing) => TurnStart::Over(Ok(Served::Idle)),
        Ok(Polled::Closed) => TurnStart::Over(Ok(Served::Closed)),
        Err(fault) => TurnStart::Over(Err(fault)),
    }
}

/// Answers a workflow task, with the run that was cached, if one was. Gives the run of the replay
/// to the cache if the source allows the run of this task to be cached.
fn answer_held<R: Wait, W: Workflow, T: Ledger, C: Ledger, F: Ledger, S: TaskSource>(
    rt: &R,
    alloc: Global,
    host: &Host<W, T, C, F>,
    held: &Held,
    cached: Option<Run<W>>,
    task: WorkflowTask,
    source: &mut S,
) -> Result<Reply, StepFault>
    requires { IfSome cached (λ run. run.key ≡ task.run) }
    ensures sends { Sends W.program (S.fetches source.old) cached task
        (S.answers source.old) (S.answers source.new) result }
    ensures failures { FailsOnlySource result (S.failures source.old) (S.failures source.new) }
    ensures keeps { KeepsSource S.delivers S.fetches S.comes_from source.old source.new }
{
    let Answered { run, sent } = answer_by_replay(alloc, cached, task, source);
    give_back(rt, host, held, run);
    sent
}

/// Serves an activity task under the permit.
fn serve_activity<
    R: Wait,
    W: Workflow,
    T: Ledger,
    C: Ledger,
    F: Ledger,
    S: TaskSource,
    A: ActivityHandler,
>(
    rt: &R,
    host: &Host<W, T, C, F>,
    seat: &mut Seat<T, C, F>,
    source: &mut S,
    handler: &mut A,
    permit: Permit,
) -> Result<Served, SourceFault>
    ensures serves { ServesActivity (A.may handler.old) (S.delivers source.old)
        (S.answers source.old) (S.answers source.new) result }
    ensures counts { Counts seat.old seat.new result }
    ensures failures { FailsOnly result (S.failures source.old) (S.failures source.new) }
    ensures keeps { KeepsSource S.delivers S.fetches S.comes_from source.old source.new }
    ensures may { SameMay (A.may handler.old) (A.may handler.new) }
{
    let task = match start_activity(source) {
        TurnStart::Task(task) => task,
        TurnStart::Over(served) => return end_without_task(rt, host, permit, served),
    };
    let name = task.name;
    let Some(held) = take_activity(rt, host, permit, name, seat) else {
        drop(task);
        return Ok(Served::Repeated { name });
    };
    let sent = answer_by_handler(&task, source, handler);
    drop(task);
    finish(rt, host, held, sent.unwrap_or(Outcome::Failed), seat);
    result_of_activity(name, sent)
}

/// Polls an activity task. If there is none, the turn ends with the result of the poll.
fn start_activity<S: TaskSource>(source: &mut S) -> TurnStart<ActivityTask>
    ensures task { Starts (λ task. S.delivers source.old (ActivityDelivery task)) HasNoTask result }
    ensures answers { S.answers source.new ≡ S.answers source.old }
    ensures failures { Starts (λ _. S.failures source.old ≤ S.failures source.new)
        (λ served. FailsOnly served (S.failures source.old) (S.failures source.new)) result }
    ensures keeps { KeepsSource S.delivers S.fetches S.comes_from source.old source.new }
{
    match source.poll_activity() {
        Ok(Polled::Task(task)) => TurnStart::Task(task),
        Ok(Polled::Nothing) => TurnStart::Over(Ok(Served::Idle)),
        Ok(Polled::Closed) => TurnStart::Over(Ok(Served::Closed)),
        Err(fault) => TurnStart::Over(Err(fault)),
    }
}

/// Returns the result of serving a workflow task, by what was sent.
fn result_of_workflow(name: TaskName, sent: Result<Reply, StepFault>) -> Result<Served, SourceFault>
    ensures { result ≡ served_workflow name sent }
{
    match sent {
        Ok(reply) => Ok(Served::Workflow {
            name,
            hit: reply.hit,
            steps: reply.steps,
            outcome: reply.outcome,
        }),
        Err(fault) => nothing_sent(name, fault),
    }
}

/// Returns the result of serving an activity task, by what was sent.
fn result_of_activity(
    name: TaskName,
    sent: Result<Outcome, StepFault>,
) -> Result<Served, SourceFault>
    ensures { result ≡ served_activity name sent }
{
    match sent {
        Ok(outcome) => Ok(Served::Activity { name, outcome }),
        Err(fault) => nothing_sent(name, fault),
    }
}

/// Returns the result of serving a task if nothing was sent.
fn nothing_sent(name: TaskName, fault: StepFault) -> Result<Served, SourceFault>
    ensures { result ≡ unanswered name fault }
{
    match fault {
        StepFault::OutOfMemory => Ok(Served::NoMemory { name }),
        StepFault::Source(fault) => Err(fault),
    }
}

/// Returns how a workflow task ends, by what was sent.
fn outcome_of(sent: Result<Reply, StepFault>) -> Outcome
    ensures { result ≡ ended sent }
{
    match sent {
        Ok(reply) => reply.outcome,
        Err(_) => Outcome::Failed,
    }
}

/// Starts processing a workflow task, with the run that is cached for its key, if one is. If there
/// is no memory for the key, or the host refuses, releases the permit, and returns the result of
/// the turn.
fn take_workflow<R: Wait, W: Workflow, T: Ledger, C: Ledger, F: Ledger>(
    rt: &R,
    host: &Host<W, T, C, F>,
    permit: Permit,
    task: &WorkflowTask,
    seat: &mut Seat<T, C, F>,
) -> Result<(Held, Option<Run<W>>), Served>
    ensures own { IfOk result (λ taken. IfSome taken.1 (λ run. run.key ≡ task.now.run)) }
    ensures refused { IfErr result (IsRefused task.now.name) }
    ensures seat { MatchResult result (λ _. seat.new ≡ with_taken seat.old) (λ _. seat.new ≡ seat.old) }
{
    let name = task.name;
    let Ok(key) = task.run.try_copy() else {
        release_permit(rt, host, permit);
        return Err(Served::NoMemory { name });
    };
    let used = host.lock(rt).use_workflow(permit, name, key, seat);
    match used {
        Ok(used) => Ok(used),
        Err((permit, _key, _fault)) => {
            release_permit(rt, host, permit);
            Err(Served::Repeated { name })
        }
    }
}

/// Starts processing an activity task. If the host refuses, releases the permit and returns `None`.
fn take_activity<R: Wait, W: Workflow, T: Ledger, C: Ledger, F: Ledger>(
    rt: &R,
    host: &Host<W, T, C, F>,
    permit: Permit,
    name: TaskName,
    seat: &mut Seat<T, C, F>,
) -> Option<Held>
    ensures { MatchOption result (seat.new ≡ seat.old) (λ _. seat.new ≡ with_taken seat.old) }
{
    let used = host.lock(rt).use_activity(permit, name, seat);
    match used {
        Ok(held) => Some(held),
        Err((permit, _fault)) => {
            release_permit(rt, host, permit);
            None
        }
    }
}

/// Releases a permit that was not used.
fn release_permit<R: Wait, W: Workflow, T: Ledger, C: Ledger, F: Ledger>(
    rt: &R,
    host: &Host<W, T, C, F>,
    permit: Permit,
) {
    let _released = host.lock(rt).release(permit);
}

/// Releases a permit that was not used, and returns the result of the turn.
fn end_without_task<R: Wait, W: Workflow, T: Ledger, C: Ledger, F: Ledger>(
    rt: &R,
    host: &Host<W, T, C, F>,
    permit: Permit,
    served: Result<Served, SourceFault>,
) -> Result<Served, SourceFault>
    ensures { result ≡ served }
{
    release_permit(rt, host, permit);
    served
}

/// Gives the run of the replay, if there is one, to the cache.
fn give_back<R: Wait, W: Workflow, T: Ledger, C: Ledger, F: Ledger>(
    rt: &R,
    host: &Host<W, T, C, F>,
    held: &Held,
    run: Option<Run<W>>,
) {
    let Some(run) = run else {
        return;
    };
    let given = host.lock(rt).give_run(held, run);
    drop(given);
}

/// Frees the held place, and counts the outcome.
fn finish<R: Wait, W: Workflow, T: Ledger, C: Ledger, F: Ledger>(
    rt: &R,
    host: &Host<W, T, C, F>,
    held: Held,
    outcome: Outcome,
    seat: &mut Seat<T, C, F>,
)
    ensures { MayCount seat.old seat.new outcome }
{
    let _finished = host.lock(rt).finish(held, outcome, seat);
}
