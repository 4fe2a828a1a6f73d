//! The keys of jobs, commands and events in JSON, in Temporal's words.

ghost use Rattle.std.specs.Prelude.{◌≡◌};
ghost use Rattle.wh_phrases.specs.Json.{keyed, job_keys, command_keys, kind_keys};
ghost use Rattle.wh_phrases.specs.Private.Json.{keys_seen};

use wh_events::EventKind;
use wh_workflow::{Command, Job};

/// The keys of the two words of a phrase: of its id, and of its type, its signal or its end. The
/// second is empty if a phrase has one word, and both are empty if it has none.
#[derive(Clone, Copy)]
pub(crate) struct Keys {
    /// The key of the id.
    pub(crate) id: &'static str,
    /// The key of the type, the signal or the end.
    pub(crate) name: &'static str,
}

/// Returns these two keys.
fn keys_of(id: &'static str, name: &'static str) -> Keys
    ensures { keys_seen result ≡ keyed id.now name.now }
{
    Keys { id, name }
}

/// Returns the keys of a job.
pub(crate) fn job_keys(job: &Job) -> Keys
    ensures { keys_seen result ≡ job_keys job.now }
{
    match job {
        Job::Time(_) | Job::CancelRequested => keys_of("", ""),
        Job::Start { .. } => keys_of("workflowType", ""),
        Job::Signal { .. } => keys_of("signalName", ""),
        Job::Activity { .. } => keys_of("activityId", "status"),
        Job::TimerFired { .. } => keys_of("timerId", ""),
        Job::ChildStarted { .. } | Job::CancelSent { .. } | Job::CancelFailed { .. } => keys_of(
            "workflowId",
            "",
        ),
        Job::Child { .. } => keys_of("workflowId", "status"),
        Job::SignalSent { .. } | Job::SignalFailed { .. } => keys_of("workflowId", "signalName"),
        Job::Version { .. } => keys_of("changeId", ""),
    }
}

/// Returns the keys of a command.
pub(crate) fn command_keys(command: &Command) -> Keys
    ensures { keys_seen result ≡ command_keys command.now }
{
    match command {
        Command::StartActivity { .. } => keys_of("activityId", "activityType"),
        Command::CancelActivity { .. } => keys_of("activityId", ""),
        Command::StartTimer { .. } | Command::CancelTimer { .. } => keys_of("timerId", ""),
        Command::StartChild { .. } => keys_of("workflowId", "workflowType"),
        Command::CancelChild { .. } => keys_of("workflowId", ""),
        Command::SignalExternal { .. } => keys_of("workflowId", "signalName"),
        Command::Ask { .. } | Command::Marker { .. } => keys_of("changeId", ""),
        Command::Complete { .. } | Command::Cancel => keys_of("", ""),
        Command::Fail { .. } => keys_of("message", ""),
        Command::ContinueAsNew { .. } => keys_of("workflowType", ""),
    }
}

/// Returns the keys of an event of this kind.
pub(crate) fn kind_keys(kind: &EventKind) -> Keys
    ensures { keys_seen result ≡ kind_keys kind.now }
{
    match kind {
        EventKind::ActivityTaskScheduled { .. } => keys_of("activityId", "activityType"),
        EventKind::ActivityTaskCancelRequested { .. } => keys_of("activityId", ""),
        EventKind::TimerStarted { .. } | EventKind::TimerCanceled { .. } => keys_of("timerId", ""),
        EventKind::StartChildWorkflowExecutionInitiated { .. } => keys_of(
            "workflowId",
            "workflowType",
        ),
        EventKind::RequestCancelExternalWorkflowExecutionInitiated { .. } => keys_of(
            "workflowId",
            "",
        ),
        EventKind::SignalExternalWorkflowExecutionInitiated { .. } => keys_of(
            "workflowId",
            "signalName",
        ),
        EventKind::MarkerRecorded { .. } => keys_of("changeId", ""),
        _ => keys_of("", ""),
    }
}
