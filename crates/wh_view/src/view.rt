//! The view of a history.

use wh_events::{EventNo, Items, Text};
use wh_json::PartialEvent;
use wh_markers::RecordedMarker;
use wh_times::TypeSum;

/// An event of a history, which may hold anything.
#[derive(Drop)]
pub struct ViewedEvent {
    /// Its place in the history, counted from 1.
    pub place: u64,
    /// Its number, time, type and kind, and why the reader of histories refuses it, if it does.
    pub read: PartialEvent,
    /// When it happened, as the history writes it (`eventTime`); empty if that is no text.
    pub moment: Text,
    /// `attempt` of its attributes; 0 if there is none.
    pub attempt: u64,
    /// Why something failed: the first text of its attributes' `failure.message`,
    /// `lastFailure.message`, `reason` and `cause` that is not empty; empty if there is none.
    pub failure: Text,
    /// The duration of a timer (`startToFireTimeout`), as the history writes it; empty if there is
    /// none.
    pub duration: Text,
    /// The values of the first that its attributes have of `input`, `result`, `details`, the
    /// arguments of an update, its result, and the search attributes or the memo that it changes.
    /// Of each payload the content if it is a text in UTF-8, what its bytes are if its encoding is
    /// one of bytes (`binary/encrypted, 300 bytes`), or else the payload as JSON. What has a name,
    /// as the details of a marker, stands after it.
    pub payloads: Items<Text>,
    /// What else its attributes say.
    pub details: EventDetails,
    /// The whole event as JSON, with no spaces between its parts, and the members of each object in
    /// the order of their names.
    pub json: Text,
}

/// What the attributes of an event say of the workflow task that it comes from, of an update, of a
/// failure, of a marker, and of another workflow. Texts are empty if absent, as they are written
/// otherwise.
#[derive(Drop)]
pub struct EventDetails {
    /// The number of the event that completed the workflow task in which the workflow gave this one
    /// (`workflowTaskCompletedEventId`); 0 if it names none.
    pub task_event: u64,
    /// The update that it tells of.
    pub update: UpdateName,
    /// What failed: the failure (`failure`, or else `lastFailure`, or else that of the outcome of
    /// an update), its cause, the cause of that one and so on, but no more than `MOST_FAILURES`.
    pub failures: Items<ViewedFailure>,
    /// Why it ended, or was not tried again.
    pub ending: Ending,
    /// What a marker records, by `markerName` and `details`.
    pub marker: RecordedMarker,
    /// The run id of the other workflow that it tells of (`runId` of `workflowExecution`), such as
    /// a child that has started.
    pub execution_run_id: Text,
}

/// The id and the name of an update, as far as an event of it tells them.
#[derive(Drop)]
pub struct UpdateName {
    /// Its id (`updateId` of its metadata).
    pub id: Text,
    /// Its name (`name` of its input).
    pub name: Text,
}

/// A failure (Temporal documentation, "Failures").
#[derive(Drop)]
pub struct ViewedFailure {
    /// Its type: that of an Application Failure, or else the type of a timeout.
    pub kind: Text,
    /// Its message.
    pub message: Text,
    /// Its stack trace, which may have many lines.
    pub stack_trace: Text,
}

/// Why something ended, in the words of Temporal's enumerations, and the run that goes on.
#[derive(Drop)]
pub struct Ending {
    /// Why it was not tried again (`retryState`).
    pub retry_state: Text,
    /// Which timeout a workflow task ran into (`timeoutType`).
    pub timeout_type: Text,
    /// Why a workflow task, or a request to another workflow, failed (`cause`).
    pub cause: Text,
    /// The run in which the workflow goes on (`newExecutionRunId`).
    pub next_run_id: Text,
}

/// A step of an update (Temporal documentation, "Updates").
#[derive(Clone, Copy, Debug)]
pub enum UpdateStep {
    /// It was admitted, and waits for a workflow task.
    Admitted,
    /// The workflow accepted it.
    Accepted,
    /// The workflow rejected it.
    Rejected,
    /// The workflow completed it.
    Completed,
}

/// The names of a run, as its first event tells them. Each is empty if absent.
#[derive(Drop)]
pub struct RunNames {
    /// Its workflow id.
    pub workflow_id: Text,
    /// Its run id (`originalExecutionRunId`).
    pub run_id: Text,
    /// Its Task Queue.
    pub task_queue: Text,
    /// The workflow id of its parent.
    pub parent_workflow_id: Text,
    /// The run id of its parent.
    pub parent_run_id: Text,
    /// The run that it goes on from (`continuedExecutionRunId`).
    pub previous_run_id: Text,
}

/// Whether a run is open, or how it was closed (Temporal documentation, "Workflow Execution").
#[derive(Clone, Copy, Debug)]
pub enum RunStatus {
    /// No event closes it.
    Running,
    /// It completed.
    Completed,
    /// It failed.
    Failed,
    /// It was canceled.
    Canceled,
    /// It was terminated.
    Terminated,
    /// It timed out.
    TimedOut,
    /// It goes on in another run.
    ContinuedAsNew,
}

/// A workflow task that was scheduled, and is not completed. The server tries one that failed or
/// timed out again, and records further attempts only with the one that completes it, or where
/// other events came in between (Temporal documentation, "Events").
#[derive(Clone, Copy, Debug)]
pub struct OpenTask {
    /// The index of the event that scheduled it.
    pub scheduled: usize,
    /// The index of the event that says that a worker has started it, since it last failed or timed
    /// out.
    pub started: Option<usize>,
    /// The index of the last event that says that it failed or timed out.
    pub failed: Option<usize>,
}

/// The kind of a thing.
#[derive(Clone, Copy, Debug)]
pub enum ThingKind {
    /// An activity.
    Activity,
    /// A timer.
    Timer,
    /// A child workflow.
    Child,
    /// A request to cancel another workflow.
    CancelRequest,
    /// A request to send a signal to another workflow.
    SignalRequest,
    /// A signal that the workflow received.
    Signal,
    /// A marker.
    Marker,
}

/// Something that an event of a history opened, such as an activity, and the indices of the events
/// that changed it.
#[derive(Clone, Copy, Debug)]
pub struct ViewedThing {
    /// Its kind.
    pub kind: ThingKind,
    /// The number of the event that opened it, if it has one.
    pub number: Option<EventNo>,
    /// The index of the event that opened it.
    pub opened: usize,
    /// The index of the first event that says that it has started.
    pub started: Option<usize>,
    /// The index of the first event that requests its cancellation.
    pub cancelling: Option<usize>,
    /// The index of the first event that ends it. A signal and a marker end with the event that
    /// opened them.
    pub ended: Option<usize>,
}

/// A type of events, or a name of markers, that the reader of histories refuses because it does not
/// support it.
#[derive(Clone, Copy, Debug)]
pub struct UnsupportedKind {
    /// The index of the first such event.
    pub first: usize,
    /// How many events it refuses for that reason.
    pub count: usize,
}

/// What a history holds: its events, the things that they opened, and its workflow tasks.
#[derive(Drop)]
pub struct View {
    /// The names of its run.
    pub run: RunNames,
    /// Its events, each once and in their order.
    pub events: Items<ViewedEvent>,
    /// The things that they opened, in the order of the events that opened them.
    pub things: Items<ViewedThing>,
    /// For each event, the index in `things` of the thing that it opened, started, canceled or
    /// ended, if there is one.
    pub links: Items<Option<usize>>,
    /// For each event, the workflow task to which it belongs, counted from 1: an event that records
    /// what the workflow did in a task belongs to the last task that was completed before it (to 0
    /// if none was), and any other event to the next one that is completed.
    pub tasks: Items<usize>,
    /// What the reader of histories does not support of it: each type and each name of markers
    /// once, in the order of their first events.
    pub unsupported: Items<UnsupportedKind>,
    /// What the activities, the timers and the child workflows of each type come to, in the order
    /// of the first of each. All timers are of one type.
    pub sums: Items<TypeSum>,
}
