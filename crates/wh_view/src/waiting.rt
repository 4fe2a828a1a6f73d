//! What a run waits for.

ghost use Rattle.std.specs.Prelude.{◌≡◌};
ghost use Rattle.wh_view.specs.Waiting as waiting;

use crate::view::{OpenTask, View, ViewedEvent};
use wh_events::EventKind;

/// Returns the open workflow task, after a worker has started it at the index.
fn started_at(current: Option<OpenTask>, index: usize) -> Option<OpenTask>
    ensures { result ≡ waiting.started_at current index }
{
    match current {
        Some(task) => Some(OpenTask {
            scheduled: task.scheduled,
            started: Some(index),
            failed: task.failed,
        }),
        None => None,
    }
}

/// Returns the open workflow task, after it failed or timed out at the index.
fn failed_at(current: Option<OpenTask>, index: usize) -> Option<OpenTask>
    ensures { result ≡ waiting.failed_at current index }
{
    match current {
        Some(task) => Some(OpenTask {
            scheduled: task.scheduled,
            started: None,
            failed: Some(index),
        }),
        None => None,
    }
}

/// Returns the open workflow task after an event of the kind at the index.
fn task_after(current: Option<OpenTask>, index: usize, kind: &Option<EventKind>) -> Option<OpenTask>
    ensures { result ≡ waiting.task_after current index kind.now }
{
    match kind {
        Some(EventKind::WorkflowTaskScheduled) => Some(OpenTask {
            scheduled: index,
            started: None,
            failed: None,
        }),
        Some(EventKind::WorkflowTaskStarted) => started_at(current, index),
        Some(EventKind::WorkflowTaskCompleted) => None,
        Some(EventKind::WorkflowTaskFailed | EventKind::WorkflowTaskTimedOut) => {
            failed_at(current, index)
        }
        _ => current,
    }
}

/// Returns the workflow task that is open after all events.
#[tactic(auto, unfolding(crate::specs::Waiting::open_from))]
fn open_task(events: &[ViewedEvent]) -> Option<OpenTask>
    ensures { result ≡ waiting.open_task events.now }
{
    let mut current = None;
    for (index, event) in events.iter().enumerate() {
        current = task_after(current, index, &event.read.kind);
    }
    current
}

impl View {
    ghost use Rattle.std.specs.Prelude.{◌≡◌};
    ghost use Rattle.wh_view.specs.Waiting.{open_task};

    /// Returns the workflow task that was scheduled last, if it is not completed. One that failed
    /// or timed out is open, since the server tries it again.
    pub fn open_task(&self) -> Option<OpenTask>
        ensures { result ≡ open_task self.now.events }
    {
        open_task(self.events.get())
    }
}
