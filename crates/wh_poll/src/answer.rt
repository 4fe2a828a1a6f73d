//! Replays workflow tasks and runs activity tasks, and sends the answers.
ghost use Rattle.std.specs.Prelude.{◌≡◌, None, Err, IfOk, IfSome};
ghost use Rattle.wh_tasks.specs.Source.{KeepsSource, SameMay};
ghost use Rattle.wh_tasks.specs.Tasks.{IsAnswer, HasAnswer, FailsOnlySource};
ghost use Rattle.wh_tasks.specs.declared.source.RunUse.{RunUse};
ghost use Rattle.wh_poll.specs.Serve.{outcome_of, activity_outcome};
ghost use Rattle.wh_poll.specs.Private.Serve.{held_by, outcome_if_sent, RunsOnce, Sends, SendsAnswer, SendsActivity};
ghost use Rattle.wh_poll.specs.Private.Serve.{Shows};

use std::alloc::Global;
use wh_events::{Event, OutOfMemory};
use wh_host::Outcome;
use wh_replay::{Answer, Fault, Run};
use wh_slots::TaskName;
use wh_tasks::{
    ActivityAnswer, ActivityHandler, ActivityTask, RunUse, SourceFault, StepFault, Stepped,
    TaskSource, WorkflowTask, replay_task,
};
use wh_workflow::{Meter, Workflow};

/// How a workflow task was answered.
#[derive(Clone, Copy)]
pub(crate) struct Reply {
    /// Whether a cached run was used.
    pub(crate) hit: bool,
    /// The steps that replay took.
    pub(crate) steps: u64,
    /// How the task ended.
    pub(crate) outcome: Outcome,
}

/// The result of replaying a workflow task and sending the answer.
#[derive(Drop)]
pub(crate) struct Answered<W: Workflow> {
    /// The run that may be cached, if there is one.
    pub(crate) run: Option<Run<W>>,
    /// How the task was answered, or why nothing was sent.
    pub(crate) sent: Result<Reply, StepFault>,
}

/// How a workflow task ends once its answer was to be sent, and what becomes of its run.
#[derive(Clone, Copy)]
struct TaskEnd {
    outcome: Result<Outcome, StepFault>,
    run: RunUse,
}

/// Replays a workflow task with a new meter, and sends the answer. Returns the run of the replay if
/// the source allows the run of this task to be cached, also if sending failed.
pub(crate) fn answer_by_replay<W: Workflow, S: TaskSource>(
    alloc: Global,
    run: Option<Run<W>>,
    task: WorkflowTask,
    source: &mut S,
) -> Answered<W>
    requires { IfSome run (λ run. run.key ≡ task.run) }
    ensures sends { Sends W.program (S.fetches source.old) run task
        (S.answers source.old) (S.answers source.new) result.sent }
    ensures run { IfSome result.run (λ _. S.caches source.new task.name) }
    ensures failures { FailsOnlySource result.sent (S.failures source.old) (S.failures source.new) }
    ensures keeps { KeepsSource S.delivers S.fetches S.comes_from source.old source.new }
{
    if let Some(run) = &run {
        // Made for the proof: its contract says that the run is replayed.
        run.invariant();
    }
    let WorkflowTask {
        name,
        run: key,
        events,
    } = task;
    let mut meter = Meter::new();
    let stepped = replay_task(alloc, run, &key, events.into_inner(), source, &mut meter);
    drop(key);
    let Stepped { run, fault, hit } = match stepped {
        Ok(stepped) => stepped,
        Err(fault) => return not_answered(fault),
    };
    let steps = meter.count();
    let end = send_answer(alloc, name, &run, fault, steps, source);
    let sent = match end.outcome {
        Ok(outcome) => Ok(Reply {
            hit,
            steps,
            outcome,
        }),
        Err(fault) => Err(fault),
    };
    let run = run_to_cache(run, end.run);
    Answered { run, sent }
}

/// Returns the run if it may be cached.
fn run_to_cache<W: Workflow>(run: Option<Run<W>>, run_use: RunUse) -> Option<Run<W>>
    ensures kept { IfSome result (λ _. run_use ≡ RunUse.Cache) }
    ensures same { run_use ≡ RunUse.Cache → result ≡ run }
{
    match run_use {
        RunUse::Cache => run,
        RunUse::Discard => None,
    }
}

/// Returns the result of a task when nothing was sent: the fault, and no run.
fn not_answered<W: Workflow>(fault: StepFault) -> Answered<W>
    ensures sent { result.sent ≡ Err fault }
    ensures run { result.run ≡ None }
{
    Answered {
        run: None,
        sent: Err(fault),
    }
}

/// Sends the answer to a workflow task that was replayed in this number of steps, with the events of
/// the run that replay returned. If there is no memory for the answer, the source decides what
/// becomes of a run without an answer.
fn send_answer<W: Workflow, S: TaskSource>(
    alloc: Global,
    name: TaskName,
    run: &Option<Run<W>>,
    fault: Option<Fault>,
    steps: u64,
    source: &mut S,
) -> TaskEnd
    requires { HasAnswer run.now fault }
    ensures sends { SendsAnswer run.now fault name (S.answers source.old) (S.answers source.new) result.outcome }
    ensures shows { Shows (λ answer events. S.hears source.old name answer events steps)
        run.now fault source.new result.outcome }
    ensures run { result.run ≡ RunUse.Cache → S.caches source.new name }
    ensures failures { FailsOnlySource result.outcome (S.failures source.old) (S.failures source.new) }
    ensures keeps { KeepsSource S.delivers S.fetches S.comes_from source.old source.new }
{
    let Ok(answer) = answer_of(alloc, run, fault) else {
        return TaskEnd {
            outcome: Err(StepFault::OutOfMemory),
            run: source.without_answer(),
        };
    };
    let outcome = outcome_of(&answer);
    let acceptance = source.answer_replayed(name, answer, events_of(run), steps);
    TaskEnd {
        outcome: outcome_if_sent(acceptance.sent, outcome),
        run: acceptance.run,
    }
}

/// Returns the outcome of a task if the source accepted its answer, else why it did not.
fn outcome_if_sent(sent: Result<(), SourceFault>, outcome: Outcome) -> Result<Outcome, StepFault>
    ensures { result ≡ outcome_if_sent sent outcome }
{
    match sent {
        Ok(()) => Ok(outcome),
        Err(fault) => Err(StepFault::Source(fault)),
    }
}

/// Returns the events that an answer was replayed from: those of the run that replay returned, and
/// none if it returned no run.
fn events_of<W: Workflow>(run: &Option<Run<W>>) -> &[Event]
    ensures { result.now ≡ held_by run.now }
{
    match run {
        Some(run) => run.events(),
        None => &[],
    }
}

/// Returns `Fail` of the fault, else `Complete` with the commands of the run.
fn answer_of<W: Workflow>(
    alloc: Global,
    run: &Option<Run<W>>,
    fault: Option<Fault>,
) -> Result<Answer, OutOfMemory>
    requires { HasAnswer run.now fault }
    ensures { IfOk result (IsAnswer run.now fault) }
{
    if let Some(fault) = fault {
        return Ok(Answer::Fail(fault));
    }
    let Some(run) = run else { unreachable!() };
    run.answer(alloc)
}

/// Returns how a workflow task ends with this answer.
fn outcome_of(answer: &Answer) -> Outcome
    ensures { result ≡ outcome_of answer.now }
{
    match answer {
        Answer::Complete(_) => Outcome::Completed,
        Answer::Fail(_) => Outcome::Failed,
    }
}

/// Runs an activity task once, and sends the handler's answer.
pub(crate) fn answer_by_handler<S: TaskSource, A: ActivityHandler>(
    task: &ActivityTask,
    source: &mut S,
    handler: &mut A,
) -> Result<Outcome, StepFault>
    ensures sends { SendsActivity (A.may handler.old) task.now (S.answers source.old) (S.answers source.new) result }
    ensures once { RunsOnce (A.runs handler.old task.now) handler.new result }
    ensures failures { FailsOnlySource result (S.failures source.old) (S.failures source.new) }
    ensures keeps { KeepsSource S.delivers S.fetches S.comes_from source.old source.new }
    ensures may { SameMay (A.may handler.old) (A.may handler.new) }
{
    let answer = match handler.run(task) {
        Ok(answer) => answer,
        Err(_) => return Err(StepFault::OutOfMemory),
    };
    let outcome = activity_outcome(&answer);
    let sent = source.answer_activity(task.name, answer);
    outcome_if_sent(sent, outcome)
}

/// Returns how an activity task ends with this answer.
fn activity_outcome(answer: &ActivityAnswer) -> Outcome
    ensures { result ≡ activity_outcome answer.now }
{
    match answer {
        ActivityAnswer::Completed(_) => Outcome::Completed,
        ActivityAnswer::Failed(_) => Outcome::Failed,
    }
}
