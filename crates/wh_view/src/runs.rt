//! Reads the names of a run, and says whether it is open.

ghost use Rattle.std.specs.Prelude.{◌≡◌, IfOk, map, option_map};
ghost use Rattle.serde_json.specs.View.{view};
ghost use Rattle.wh_view.specs.Runs as runs;

use crate::attributes::{copy_inner, copy_member};
use crate::view::{RunNames, RunStatus, View, ViewedEvent};
use serde_json::Value;
use std::alloc::Global;
use wh_events::{EventKind, OutOfMemory};
use wh_json::field;

/// Returns the attributes with which the first of the members starts a run.
fn start_in(members: &[Value]) -> Option<&Value>
    ensures { option_map (λ v. view v.now) result ≡ runs.start_in (map view members.now) }
{
    match members {
        [first, ..] => field(Some(first), "workflowExecutionStartedEventAttributes"),
        [] => None,
    }
}

/// Returns the names of the run that these attributes start.
fn names_of(alloc: Global, start: Option<&Value>) -> Result<RunNames, OutOfMemory>
    ensures { IfOk result (λ names. names ≡ runs.names_of (option_map (λ v. view v.now) start.entry)) }
{
    let workflow_id = copy_member(alloc, start, "workflowId")?;
    let run_id = copy_member(alloc, start, "originalExecutionRunId")?;
    let task_queue = copy_inner(alloc, start, "taskQueue", "name")?;
    let parent_workflow_id = copy_inner(alloc, start, "parentWorkflowExecution", "workflowId")?;
    let parent_run_id = copy_inner(alloc, start, "parentWorkflowExecution", "runId")?;
    let previous_run_id = copy_member(alloc, start, "continuedExecutionRunId")?;
    Ok(RunNames {
        workflow_id,
        run_id,
        task_queue,
        parent_workflow_id,
        parent_run_id,
        previous_run_id,
    })
}

/// Returns the names of the run whose events the members are.
pub(crate) fn run_of(alloc: Global, members: &[Value]) -> Result<RunNames, OutOfMemory>
    ensures { IfOk result (λ names. names ≡ runs.run_of (map view members.now)) }
{
    names_of(alloc, start_in(members))
}

/// Returns the status of a run that an event of the kind closes; `None` if it closes none.
fn status_by(kind: &EventKind) -> Option<RunStatus>
    ensures { result ≡ runs.status_by kind.now }
{
    match kind {
        EventKind::WorkflowExecutionCompleted => Some(RunStatus::Completed),
        EventKind::WorkflowExecutionFailed => Some(RunStatus::Failed),
        EventKind::WorkflowExecutionCanceled => Some(RunStatus::Canceled),
        EventKind::WorkflowExecutionTerminated => Some(RunStatus::Terminated),
        EventKind::WorkflowExecutionTimedOut => Some(RunStatus::TimedOut),
        EventKind::WorkflowExecutionContinuedAsNew => Some(RunStatus::ContinuedAsNew),
        _ => None,
    }
}

impl ViewedEvent {
    ghost use Rattle.std.specs.Prelude.{◌≡◌};
    ghost use Rattle.wh_view.specs.Runs.{closes_as};

    /// Returns the status of the run that the event closes; `None` if it closes none.
    pub fn closes_as(&self) -> Option<RunStatus>
        ensures { result ≡ closes_as self.now }
    {
        match &self.read.kind {
            Some(kind) => status_by(kind),
            None => None,
        }
    }
}

/// Returns whether an event closes the run.
fn closes_run(event: &ViewedEvent) -> bool
    ensures { result ≡ runs.closes_run event.now }
{
    event.closes_as().is_some()
}

/// Returns the first of the events that closes the run.
#[tactic(auto, unfolding(crate::specs::Runs::closing_in))]
fn closing_in(events: &[ViewedEvent]) -> Option<&ViewedEvent>
    ensures { option_map (λ event. event.now) result ≡ runs.closing_in events.now }
{
    for event in events {
        if closes_run(event) {
            return Some(event);
        }
    }
    None
}

impl View {
    ghost use Rattle.std.specs.Prelude.{◌≡◌, option_map};
    ghost use Rattle.wh_view.specs.Runs.{closing_in, status_of};

    /// Returns the first event that closes the run; `None` if it is open.
    pub fn closing_event(&self) -> Option<&ViewedEvent>
        ensures { option_map (λ event. event.now) result ≡ closing_in self.now.events }
    {
        closing_in(self.events.get())
    }

    /// Returns whether the run is open, or how it was closed.
    pub fn status(&self) -> RunStatus
        ensures { result ≡ status_of self.now.events }
    {
        match self.closing_event() {
            Some(event) => event.closes_as().unwrap_or(RunStatus::Running),
            None => RunStatus::Running,
        }
    }
}
