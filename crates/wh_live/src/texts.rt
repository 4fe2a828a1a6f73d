//! Describes faults in words.

use crate::tasks::OpenTask;
use std::alloc::{AllocError, Global};
use wh_client::AskFault;
use wh_commands::RequestFault;
use wh_notes::fault_text;
use wh_replay::Fault;
use wh_tester::ReplayFaultText;

/// What becomes of a task whose history could not be fetched or read.
const TASK_LOSS: &str = "its task is given up, and comes again";

/// Describes why the history of a task has no usable result, with the run of the task, and what is
/// lost. A refusal has these words from the bridge.
pub(crate) fn lost_text(
    alloc: Global,
    task: &OpenTask,
    fault: &AskFault,
) -> Result<String, AllocError> {
    let text = fault_text(alloc, fault)?;
    let what = match fault {
        AskFault::Refused { .. } => text,
        AskFault::OutOfMemory => format!(in alloc; "{text}; {TASK_LOSS}")?,
        _ => format!(in alloc; "GetWorkflowExecutionHistory: {text}; {TASK_LOSS}")?,
    };
    task.describe(alloc, what.as_str())
}

/// Describes why the completion of a task with the results of its queries is too large, and what
/// follows.
pub(crate) fn oversized_text(alloc: Global, fault: &AskFault) -> Result<String, AllocError> {
    let text = fault_text(alloc, fault)?;
    format!(in alloc; "{text}; it is sent again without the results of queries")
}

/// Describes a fault of replay.
pub(crate) fn replay_text(alloc: Global, fault: &Fault) -> Result<String, AllocError> {
    let fault = ReplayFaultText(*fault);
    format!(in alloc; "{fault}")
}

/// Describes why an answer can't be written.
pub(crate) fn request_text(alloc: Global, fault: &RequestFault) -> Result<String, AllocError> {
    match fault {
        RequestFault::TooLong { timer_id } => {
            let id = timer_id.get();
            format!(in alloc; "the timer {id} runs too long")
        }
        RequestFault::NotScheduled { activity_id } => {
            let id = activity_id.get();
            format!(in alloc; "the activity {id} is canceled and was not scheduled")
        }
        RequestFault::NeverSent { change_id } => {
            let id = change_id.get();
            format!(in alloc; "the version of {id} is asked for after the end")
        }
        RequestFault::OutOfMemory => String::from_str(alloc, "out of memory"),
    }
}
