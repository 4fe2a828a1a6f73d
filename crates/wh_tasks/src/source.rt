//! Sources of tasks: workers poll them, and send them the answers.
ghost use Rattle.std.specs.Prelude.{◌≡◌, ◌++◌, ◌∷◌, [], ℕ, List, IfOk, OnOk, OnErr};

use crate::failure::ActivityFailure;
use wh_events::{Event, Items, OutOfMemory, Payload, RunKey, Text};
use wh_replay::Answer;
use wh_slots::TaskName;

/// A workflow task, as a poll of a Task Queue returns it (Temporal documentation, "Workers" and
/// "Task Queues").
#[derive(Drop, Debug)]
pub struct WorkflowTask {
    /// The source's name of the task, under which it is answered.
    pub name: TaskName,
    /// The run that the task belongs to.
    pub run: RunKey,
    /// Events of the run's history: all of them from the first, or those since the last task
    /// ("Sticky Execution").
    pub events: Items<Event>,
}

/// An activity task, as a poll returns it.
#[derive(Drop, Debug)]
pub struct ActivityTask {
    /// The source's name of the task, under which it is answered.
    pub name: TaskName,
    /// The run that asked for the activity.
    pub run: RunKey,
    /// The id of the activity in its run.
    pub id: Text,
    /// The type of the activity.
    pub activity: Text,
    /// The input of the activity.
    pub input: Items<Payload>,
}

/// The result of a poll.
#[derive(Drop, Debug)]
pub enum Polled<T> {
    /// A task.
    Task(T),
    /// No task now; there may be one later.
    Nothing,
    /// No task now or later.
    Closed,
}

/// The answer to an activity task.
#[derive(Drop, Debug)]
pub enum ActivityAnswer {
    /// The activity's result.
    Completed(Items<Payload>),
    /// Why the activity failed.
    Failed(ActivityFailure),
}

impl ActivityAnswer {
    /// Returns an equal answer, or `OutOfMemory` if there was no memory for the copy.
    pub fn try_copy(&self) -> Result<ActivityAnswer, OutOfMemory>
        ensures { IfOk result (λ copy. copy ≡ self.now) }
    {
        match self {
            ActivityAnswer::Completed(result) => Ok(ActivityAnswer::Completed(result.try_copy()?)),
            ActivityAnswer::Failed(failure) => Ok(ActivityAnswer::Failed(failure.try_copy()?)),
        }
    }
}

/// An answer to a task of either kind, as a source may store it.
#[derive(Drop, Debug)]
pub enum Sent {
    /// The answer to a workflow task.
    Workflow(Answer),
    /// The answer to an activity task.
    Activity(ActivityAnswer),
}

/// Why a call of a source returned or sent nothing.
#[derive(Clone, Copy, PartialEq, Eq, Debug)]
pub enum SourceFault {
    /// The source failed. Its count of failures rose in that call.
    Source,
    /// There was no memory.
    OutOfMemory,
}

/// Whether the run that replay of a workflow task returned may be cached (Temporal documentation,
/// "Sticky Execution").
#[derive(Clone, Copy, PartialEq, Eq, Debug)]
pub enum RunUse {
    /// The run may be cached, so that a later task can go on from it.
    Cache,
    /// The run is dropped: the history may go on differently.
    Discard,
}

/// The result of sending the answer to a workflow task.
#[derive(Clone, Copy, PartialEq, Eq, Debug)]
pub struct Acceptance {
    /// Whether the source accepted the answer. After a fault it has not accepted it.
    pub sent: Result<(), SourceFault>,
    /// Whether the run of the task may be cached.
    pub run: RunUse,
}

/// A source of tasks, one for each worker: the worker polls it, and sends it the answers. Contracts
/// see of a source:
/// - the answers that it accepted (`answers`);
/// - a count of its failures, which no call lowers (`failures`);
/// - which tasks it delivers, and which histories it may fetch, which no call changes (`delivers`,
///   `fetches`);
/// - which sources it comes from, and goes on to come from after each call (`comes_from`);
/// - which tasks' runs may be cached (`caches`). A task that was just polled is not one of them,
///   unless the runs of all tasks may be cached;
/// - with which events it is sent an answer (`hears`).
///
/// That its histories are the true ones is the source's own promise.
pub trait TaskSource {
    ghost use Rattle.wh_slots.specs.declared.TaskName.{TaskName};
    ghost use Rattle.wh_events.specs.declared.event.Event.{Event};
    ghost use Rattle.wh_events.specs.declared.key.RunKey.{RunKey};
    ghost use Rattle.wh_replay.specs.declared.run.Answer.{Answer};
    ghost use Rattle.wh_tasks.specs.declared.source.Acceptance.{Acceptance};
    ghost use Rattle.wh_tasks.specs.declared.source.Sent.{Sent};
    ghost use Rattle.wh_tasks.specs.declared.source.RunUse.{RunUse};
    ghost use Rattle.wh_tasks.specs.declared.source.Sent.TheVariants.{Workflow as OfWorkflow, Activity as OfActivity};
    ghost use Rattle.wh_tasks.specs.Source.{Delivery, Workflow, Activity, IfTask, FailsOnly, KeepsSource};
    ghost use Rattle.wh_tasks.specs.Source.{CachesAll, CachesNoMore};

    /// The answers that the source accepted, with their tasks' names.
    ghost answers: { Self → List (TaskName × Sent) };

    /// How often a call of the source failed.
    ghost failures: { Self → ℕ };

    /// Which tasks the polls may return. No call changes it.
    ghost delivers: { Self → Delivery → Type 0 };

    /// Which histories `whole` may return for a run's key and a number. No call changes it.
    ghost fetches: { Self → RunKey → ℕ → List Event → Type 0 };

    /// Which sources this one comes from: the earlier sources that calls may have made it of. It
    /// comes from them after each further call too, so this relation says what the calls keep.
    ghost comes_from: { Self → Self → Type 0 };

    /// Which tasks' runs may be cached.
    ghost caches: { Self → TaskName → Type 0 };

    /// How the answer to a workflow task, with the events and the steps of its replay, may change the
    /// source, by what becomes of it. A source that leaves it out says nothing of it.
    ghost hears: { Self → TaskName → Answer → List Event → ℕ → Acceptance → Self → Type 0 } = { λ old name answer events steps acceptance new. Unit {0} };

    /// Polls the next workflow task, if there is one. Its run may not be cached before the task is
    /// answered, unless the runs of all tasks may be cached. A fault returns no task. Nothing is
    /// sent.
    fn poll_workflow(&mut self) -> Result<Polled<WorkflowTask>, SourceFault>
        ensures task { IfOk result (IfTask (λ task. delivers self.old (Workflow task))) }
        ensures run { IfOk result (IfTask (λ task. caches self.new task.name → CachesAll caches self.new)) }
        ensures answers { answers self.new ≡ answers self.old }
        ensures failures { FailsOnly result (failures self.old) (failures self.new) }
        ensures keeps { KeepsSource delivers fetches comes_from self.old self.new };

    /// Polls the next activity task, if there is one. A fault returns no task. Nothing is sent.
    fn poll_activity(&mut self) -> Result<Polled<ActivityTask>, SourceFault>
        ensures task { IfOk result (IfTask (λ task. delivers self.old (Activity task))) }
        ensures answers { answers self.new ≡ answers self.old }
        ensures failures { FailsOnly result (failures self.old) (failures self.new) }
        ensures keeps { KeepsSource delivers fetches comes_from self.old self.new };

    /// Fetches the history of a run from its first event up to the one of a number. Afterwards no
    /// more runs may be cached than before. A fault returns no history. Nothing is sent.
    fn whole(&mut self, key: &RunKey, up_to: u64) -> Result<Vec<Event>, SourceFault>
        ensures fetched { IfOk result (λ history. fetches self.old key.now up_to history.items) }
        ensures runs { CachesNoMore caches self.old self.new }
        ensures answers { answers self.new ≡ answers self.old }
        ensures failures { FailsOnly result (failures self.old) (failures self.new) }
        ensures keeps { KeepsSource delivers fetches comes_from self.old self.new };

    /// Sends the answer to the workflow task of a name. After a fault it was not accepted.
    fn answer_workflow(&mut self, name: TaskName, answer: Answer) -> Result<(), SourceFault>
        ensures sent { OnOk result (answers self.new ≡ answers self.old ++ (name, OfWorkflow answer) ∷ []) }
        ensures unsent { OnErr result (answers self.new ≡ answers self.old) }
        ensures failures { FailsOnly result (failures self.old) (failures self.new) }
        ensures keeps { KeepsSource delivers fetches comes_from self.old self.new };

    /// Sends the answer to the workflow task of a name, with the events of the run that replay
    /// returned, none if it returned no run, and the number of steps that replay took. Returns
    /// whether the answer was sent, and whether the run may be cached, also if sending failed. The
    /// run may not be cached if the answer does not count, because the history may then go on
    /// differently.
    ///
    /// A source needs the events for the number of the event that scheduled a canceled activity. One
    /// that needs neither them nor the steps calls `answer_workflow`.
    fn answer_replayed(
        &mut self,
        name: TaskName,
        answer: Answer,
        events: &[Event],
        steps: u64,
    ) -> Acceptance
        ensures hears { hears self.old name answer events.now steps result self.new }
        ensures sent { OnOk result.sent (answers self.new ≡ answers self.old ++ (name, OfWorkflow answer) ∷ []) }
        ensures unsent { OnErr result.sent (answers self.new ≡ answers self.old) }
        ensures run { result.run ≡ RunUse.Cache → caches self.new name }
        ensures failures { FailsOnly result.sent (failures self.old) (failures self.new) }
        ensures keeps { KeepsSource delivers fetches comes_from self.old self.new };

    /// Returns what becomes of the run of a workflow task whose answer was never sent, as when
    /// there was no memory for it. Returns `Cache` only if the runs of all tasks may be cached.
    fn without_answer(&self) -> RunUse
        ensures { result ≡ RunUse.Cache → CachesAll caches self.now };

    /// Sends the answer to the activity task of a name. After a fault it was not accepted.
    fn answer_activity(&mut self, name: TaskName, answer: ActivityAnswer) -> Result<(), SourceFault>
        ensures sent { OnOk result (answers self.new ≡ answers self.old ++ (name, OfActivity answer) ∷ []) }
        ensures unsent { OnErr result (answers self.new ≡ answers self.old) }
        ensures failures { FailsOnly result (failures self.old) (failures self.new) }
        ensures keeps { KeepsSource delivers fetches comes_from self.old self.new };
}
