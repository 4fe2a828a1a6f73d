//! Histories of long runs whose tasks are all alike.
use crate::notation::{append, signal, start};
use std::alloc::Global;
use wh_events::{Event, EventKind, OutOfMemory, RunKey, Text};
use wh_replay::Run;
use wh_workflow::{Meter, Workflow, texts_of};

/// A run that gets a signal in each task but the first, and starts so many timers in each.
#[derive(Clone, Copy)]
pub(crate) struct LongRun {
    /// Its workflow type.
    pub(crate) workflow: &'static str,
    /// How many timers each task starts.
    pub(crate) timers: u64,
}

impl LongRun {
    /// Returns how many events come before the task that starts after so many completed ones: for
    /// each of those its completion, its timers, a signal and the start of the next, and the first
    /// three of the run.
    fn events_before(self, tasks: u64) -> u64 {
        tasks
            .saturating_mul(self.timers.saturating_add(4))
            .saturating_add(3)
    }

    /// Appends the events that complete a task, counted from 0, and the next one up to its start,
    /// to events that come after so many others.
    fn append_task(
        self,
        alloc: Global,
        events: &mut Vec<Event>,
        after: u64,
        task: u64,
    ) -> Result<(), OutOfMemory> {
        append(events, after, EventKind::WorkflowTaskCompleted)?;
        let first = task.saturating_mul(self.timers);
        for timer in first..first.saturating_add(self.timers) {
            append_timer(alloc, events, after, timer)?;
        }
        append_start(events, after, signal(alloc, "more")?)
    }

    /// Returns so many completed tasks, and one more that is started.
    fn first_tasks(self, alloc: Global, tasks: u64) -> Result<Vec<Event>, OutOfMemory> {
        let mut events = Vec::new(alloc);
        append_start(&mut events, 0, start(alloc, self.workflow)?)?;
        for task in 0..tasks {
            self.append_task(alloc, &mut events, 0, task)?;
        }
        Ok(events)
    }

    /// Returns the events that complete the task after so many, and the next one up to its start.
    pub(crate) fn next_task(self, alloc: Global, tasks: u64) -> Result<Vec<Event>, OutOfMemory> {
        let mut events = Vec::new(alloc);
        self.append_task(alloc, &mut events, self.events_before(tasks), tasks)?;
        Ok(events)
    }

    /// Returns the run of so many completed tasks. `None` if it can't be made.
    pub(crate) fn replayed<W: Workflow>(
        self,
        alloc: Global,
        tasks: u64,
        meter: &mut Meter,
    ) -> Option<Run<W>> {
        let (key, events) = key(alloc).ok().zip(self.first_tasks(alloc, tasks).ok())?;
        Run::<W>::from_first(alloc, key, events, meter).ok()
    }
}

/// Appends a task up to its start: its signal or start event, and that it is scheduled and started.
fn append_start(events: &mut Vec<Event>, after: u64, told: EventKind) -> Result<(), OutOfMemory> {
    append(events, after, told)?;
    append(events, after, EventKind::WorkflowTaskScheduled)?;
    append(events, after, EventKind::WorkflowTaskStarted)
}

/// Appends the start of a timer, whose id is the number.
fn append_timer(
    alloc: Global,
    events: &mut Vec<Event>,
    after: u64,
    timer: u64,
) -> Result<(), OutOfMemory> {
    let id = Text::new(format!(in alloc; "{timer}")?);
    append(events, after, EventKind::TimerStarted { id })
}

/// The key of the runs.
fn key(alloc: Global) -> Result<RunKey, OutOfMemory> {
    let (workflow_id, run_id) = texts_of(alloc, "long", "first")?;
    Ok(RunKey {
        workflow_id,
        run_id,
    })
}
