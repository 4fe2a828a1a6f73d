//! A source of tasks in memory.
ghost use Rattle.std.specs.Prelude.{◌≡◌, ◌++◌, ◌∷◌, [], IfOk, OnOk};
ghost use Rattle.order.specs.Inbox.{events_up_to, told};

use std::alloc::Global;
use wh_events::{Event, OutOfMemory, RunKey};
use wh_poll::{
    Acceptance, ActivityAnswer, ActivityTask, Polled, RunUse, Sent, SourceFault, TaskSource,
    WorkflowTask,
};
use wh_replay::Answer;
use wh_slots::TaskName;

/// A source that delivers the tasks that were put into it, in their order, and keeps their answers.
/// After the last task of a kind it is closed. No call fails unless memory runs out.
///
/// A workflow task has the events of its run since the task before, as a server sends them to a
/// worker that is expected to have cached the run.
#[derive(Drop)]
pub(crate) struct Inbox {
    alloc: Global,
    workflow_tasks: Vec<WorkflowTask>,
    activity_tasks: Vec<ActivityTask>,
    next_workflow: usize,
    next_activity: usize,
    answers: Vec<(TaskName, Sent)>,
}

impl Inbox {
    /// Returns a source without tasks.
    pub(crate) fn new(alloc: Global) -> Inbox {
        Inbox {
            alloc,
            workflow_tasks: Vec::new(alloc),
            activity_tasks: Vec::new(alloc),
            next_workflow: 0,
            next_activity: 0,
            answers: Vec::new(alloc),
        }
    }

    /// Adds a workflow task after the others.
    pub(crate) fn add_workflow(&mut self, task: WorkflowTask) -> Result<(), OutOfMemory> {
        self.workflow_tasks.push(task)?;
        Ok(())
    }

    /// Adds an activity task after the others.
    pub(crate) fn add_activity(&mut self, task: ActivityTask) -> Result<(), OutOfMemory> {
        self.activity_tasks.push(task)?;
        Ok(())
    }

    /// Returns how many turns a worker needs: one for each task, and one more for each kind, in
    /// which it learns that there are no more.
    pub(crate) fn turns(&self) -> u64 {
        let tasks = self.workflow_tasks.len() as u64 + self.activity_tasks.len() as u64;
        tasks.saturating_add(2)
    }

    /// Returns how many answers it was sent.
    pub(crate) fn count_answers(&self) -> usize {
        self.answers.len()
    }
}

/// Copies a workflow task.
fn copy_workflow(task: &WorkflowTask) -> Result<WorkflowTask, OutOfMemory>
    ensures { IfOk result (λ copy. copy ≡ task.now) }
{
    Ok(WorkflowTask {
        name: task.name,
        run: task.run.try_copy()?,
        events: task.events.try_copy()?,
    })
}

/// Copies an activity task.
fn copy_activity(task: &ActivityTask) -> Result<ActivityTask, OutOfMemory>
    ensures { IfOk result (λ copy. copy ≡ task.now) }
{
    Ok(ActivityTask {
        name: task.name,
        run: task.run.try_copy()?,
        id: task.id.try_copy()?,
        activity: task.activity.try_copy()?,
        input: task.input.try_copy()?,
    })
}

/// Appends copies of the events up to a number. After an error some of them may have been appended.
fn append_up_to(history: &mut Vec<Event>, events: &[Event], up_to: u64) -> Result<(), OutOfMemory>
    ensures { OnOk result (history.new.items ≡ history.old.items ++ events_up_to up_to events.now) }
{
    for event in events {
        if event.number.get() <= up_to {
            history.push(event.try_copy()?)?;
        }
    }
    Ok(())
}

/// Returns the history of a run up to a number: the events of its tasks, one after the other.
fn history_of(
    alloc: Global,
    tasks: &[WorkflowTask],
    key: &RunKey,
    up_to: u64,
) -> Result<Vec<Event>, OutOfMemory>
    ensures { IfOk result (λ history. history.items ≡ told key.now up_to tasks.now) }
{
    let mut history = Vec::new(alloc);
    for task in tasks {
        if task.run == *key {
            append_up_to(&mut history, task.events.get(), up_to)?;
        }
    }
    Ok(history)
}

impl TaskSource for Inbox {
    ghost use Rattle.order.specs.Inbox.{Gives, told};

    ghost answers = { λ inbox. inbox.answers.items };

    ghost failures = { λ inbox. 0 };

    ghost delivers = { λ inbox. Gives inbox.workflow_tasks.items inbox.activity_tasks.items };

    ghost fetches = { λ inbox key up_to history. history ≡ told key up_to inbox.workflow_tasks.items };

    ghost comes_from = { λ later first. Unit {0} };

    // Every history continues as in the tasks that were put in.
    ghost caches = { λ inbox name. Unit {0} };

    fn poll_workflow(&mut self) -> Result<Polled<WorkflowTask>, SourceFault> {
        let Some(task) = self.workflow_tasks.get(self.next_workflow) else {
            return Ok(Polled::Closed);
        };
        let Ok(task) = copy_workflow(task) else {
            return Err(SourceFault::OutOfMemory);
        };
        self.next_workflow += 1;
        Ok(Polled::Task(task))
    }

    fn poll_activity(&mut self) -> Result<Polled<ActivityTask>, SourceFault> {
        let Some(task) = self.activity_tasks.get(self.next_activity) else {
            return Ok(Polled::Closed);
        };
        let Ok(task) = copy_activity(task) else {
            return Err(SourceFault::OutOfMemory);
        };
        self.next_activity += 1;
        Ok(Polled::Task(task))
    }

    fn whole(&mut self, key: &RunKey, up_to: u64) -> Result<Vec<Event>, SourceFault> {
        match history_of(self.alloc, self.workflow_tasks.as_slice(), key, up_to) {
            Ok(history) => Ok(history),
            Err(_) => Err(SourceFault::OutOfMemory),
        }
    }

    fn answer_workflow(&mut self, name: TaskName, answer: Answer) -> Result<(), SourceFault> {
        match self.answers.push((name, Sent::Workflow(answer))) {
            Ok(()) => Ok(()),
            Err(_) => Err(SourceFault::OutOfMemory),
        }
    }

    fn answer_replayed(
        &mut self,
        name: TaskName,
        answer: Answer,
        _events: &[Event],
        _steps: u64,
    ) -> Acceptance {
        Acceptance {
            sent: self.answer_workflow(name, answer),
            run: RunUse::Cache,
        }
    }

    fn without_answer(&self) -> RunUse {
        RunUse::Cache
    }

    fn answer_activity(
        &mut self,
        name: TaskName,
        answer: ActivityAnswer,
    ) -> Result<(), SourceFault> {
        match self.answers.push((name, Sent::Activity(answer))) {
            Ok(()) => Ok(()),
            Err(_) => Err(SourceFault::OutOfMemory),
        }
    }
}
