//! Writes requests.

ghost use Rattle.std.specs.Prelude.{◌≡◌, IfOk, OnOk, map};
ghost use Rattle.serde_json.specs.View.{view, members_view};
ghost use Rattle.wh_commands.specs.CarryingOver.{carried_seen};
ghost use Rattle.wh_commands.specs.Outcome.{Writes};
ghost use Rattle.wh_messages.specs.Requests as spec;

use serde_json::{Map, Value, json, put};
use std::alloc::{AllocError, Global};
use wh_commands::{
    CarriedOver, Members, RequestFault, WorkerNames, commands_value, put_duration, put_failure,
    put_payloads, put_text, put_typed_failure,
};
use wh_events::{Event, OutOfMemory, Payload, Text};
use wh_policies::Policies;
use wh_workflow::Command;

/// Why a workflow task failed (Temporal's `WorkflowTaskFailedCause`).
#[derive(Clone, Copy, PartialEq, Eq, Debug)]
pub enum FailedCause {
    /// The commands of the workflow do not match its history.
    Nondeterministic,
    /// The server refuses the answer because it is larger than a message may be.
    TooLarge,
    /// Any other fault of the worker.
    Unhandled,
}

impl FailedCause {
    /// Returns its name.
    fn name(self) -> &'static str
        ensures { result.now ≡ spec.cause_name self }
    {
        match self {
            FailedCause::Nondeterministic => "WORKFLOW_TASK_FAILED_CAUSE_NON_DETERMINISTIC_ERROR",
            FailedCause::TooLarge => "WORKFLOW_TASK_FAILED_CAUSE_GRPC_MESSAGE_TOO_LARGE",
            FailedCause::Unhandled =>
                "WORKFLOW_TASK_FAILED_CAUSE_WORKFLOW_WORKER_UNHANDLED_FAILURE",
        }
    }
}

/// Writes the Task Queue that all workers poll.
fn normal_queue(alloc: Global, names: &WorkerNames) -> Result<Value, AllocError>
    ensures { IfOk result (λ queue. view queue ≡ spec.normal_queue names.now) }
{
    json!(in alloc; {"name": names.task_queue.get(), "kind": "TASK_QUEUE_KIND_NORMAL"})
}

/// Writes the sticky queue of this process.
fn sticky_queue(alloc: Global, names: &WorkerNames) -> Result<Value, AllocError>
    ensures { IfOk result (λ queue. view queue ≡ spec.sticky_queue names.now) }
{
    json!(in alloc; {
        "name": names.sticky_queue.get(),
        "kind": "TASK_QUEUE_KIND_STICKY",
        "normalName": names.task_queue.get(),
    })
}

/// Writes a poll of a queue.
fn poll(alloc: Global, names: &WorkerNames, queue: Value) -> Result<Value, AllocError>
    ensures { IfOk result (λ params. view params ≡ spec.poll names.now (view queue)) }
{
    let mut params = Map::new(alloc);
    put_text(&mut params, alloc, "namespace", names.namespace.get())?;
    put(&mut params, alloc, "taskQueue", queue)?;
    put_text(&mut params, alloc, "identity", names.identity.get())?;
    Ok(Value::Object(params))
}

/// Writes the request of `PollWorkflowTaskQueue`, for the sticky queue or for the one that all
/// workers poll. `OutOfMemory` if there was no memory for it.
pub fn poll_workflow(alloc: Global, names: &WorkerNames, sticky: bool) -> Result<Value, OutOfMemory>
    ensures { IfOk result (λ params. view params ≡ spec.poll_workflow names.now sticky) }
{
    let queue = if sticky {
        sticky_queue(alloc, names)
    } else {
        normal_queue(alloc, names)
    };
    Ok(poll(alloc, names, queue?)?)
}

/// Writes the request of `PollActivityTaskQueue`. `OutOfMemory` if there was no memory for it.
pub fn poll_activity(alloc: Global, names: &WorkerNames) -> Result<Value, OutOfMemory>
    ensures { IfOk result (λ params. view params ≡ spec.poll_activity names.now) }
{
    let queue = normal_queue(alloc, names)?;
    Ok(poll(alloc, names, queue)?)
}

/// Writes the execution that is a run of a workflow.
fn execution(alloc: Global, workflow_id: &str, run_id: &str) -> Result<Value, AllocError>
    ensures { IfOk result (λ run. view run ≡ spec.execution workflow_id.now run_id.now) }
{
    json!(in alloc; {"workflowId": workflow_id, "runId": run_id})
}

/// Adds the token of a page, unless it is empty.
fn put_page(members: &mut Members, alloc: Global, page: &str) -> Result<(), AllocError>
    ensures { OnOk result (members_view members.new.entries
        ≡ spec.with_page page.now (members_view members.old.entries)) }
{
    if page.is_empty() {
        return Ok(());
    }
    put_text(members, alloc, "nextPageToken", page)
}

/// Writes the request of `GetWorkflowExecutionHistory` for the page of a token, or for the first
/// page if the token is empty. `OutOfMemory` if there was no memory for it.
pub fn history(
    alloc: Global,
    names: &WorkerNames,
    workflow_id: &str,
    run_id: &str,
    next_page_token: &str,
) -> Result<Value, OutOfMemory>
    ensures { IfOk result (λ params.
        view params ≡ spec.history names.now workflow_id.now run_id.now next_page_token.now) }
{
    let mut params = Map::new(alloc);
    put_text(&mut params, alloc, "namespace", names.namespace.get())?;
    put(
        &mut params,
        alloc,
        "execution",
        execution(alloc, workflow_id, run_id)?,
    )?;
    put_page(&mut params, alloc, next_page_token)?;
    Ok(Value::Object(params))
}

/// Returns the members that say who answers which task.
pub(crate) fn answer_of(
    alloc: Global,
    names: &WorkerNames,
    token: &str,
) -> Result<Members, AllocError>
    ensures { IfOk result (λ members. members_view members.entries ≡ spec.answer_of names.now token.now) }
{
    let mut members = Map::new(alloc);
    put_text(&mut members, alloc, "namespace", names.namespace.get())?;
    put_text(&mut members, alloc, "identity", names.identity.get())?;
    put_text(&mut members, alloc, "taskToken", token)?;
    Ok(members)
}

/// Writes where the run's next task goes first, and after how many seconds it goes to the queue of
/// all workers.
fn sticky_attributes(alloc: Global, names: &WorkerNames, timeout: u32) -> Result<Value, AllocError>
    ensures { IfOk result (λ attributes. view attributes ≡ spec.sticky_attributes names.now timeout) }
{
    let mut attributes = Map::new(alloc);
    put(
        &mut attributes,
        alloc,
        "workerTaskQueue",
        sticky_queue(alloc, names)?,
    )?;
    put_duration(
        &mut attributes,
        alloc,
        "scheduleToStartTimeout",
        timeout as u64,
    )?;
    Ok(Value::Object(attributes))
}

/// Adds the sticky queue, if the run is kept for its next task.
fn put_sticky(
    members: &mut Members,
    alloc: Global,
    names: &WorkerNames,
    sticky: Option<u32>,
) -> Result<(), AllocError>
    ensures { OnOk result (members_view members.new.entries
        ≡ spec.with_sticky names.now sticky (members_view members.old.entries)) }
{
    let Some(timeout) = sticky else {
        return Ok(());
    };
    let attributes = sticky_attributes(alloc, names, timeout)?;
    put(members, alloc, "stickyAttributes", attributes)
}

/// The error message for a query that came alone, where nothing answers queries.
pub const NO_QUERIES: &str = "this worker answers no queries";

/// Adds the results of queries, if there are any.
fn put_results(members: &mut Members, alloc: Global, results: Members) -> Result<(), AllocError>
    ensures { OnOk result (members_view members.new.entries
        ≡ spec.with_results (members_view results.entries) (members_view members.old.entries)) }
{
    if results.is_empty() {
        return Ok(());
    }
    put(members, alloc, "queryResults", Value::Object(results))
}

/// Writes the completion of a workflow task with written commands.
fn completed_with(
    alloc: Global,
    names: &WorkerNames,
    token: &str,
    results: Members,
    sticky: Option<u32>,
    commands: Vec<Value>,
) -> Result<Value, AllocError>
    ensures { IfOk result (λ params. view params ≡ spec.completed_with names.now token.now
        (members_view results.entries) sticky (map view commands.items)) }
{
    let mut members = answer_of(alloc, names, token)?;
    put(&mut members, alloc, "commands", Value::Array(commands))?;
    put_results(&mut members, alloc, results)?;
    put_sticky(&mut members, alloc, names, sticky)?;
    Ok(Value::Object(members))
}

/// Writes the request of `RespondWorkflowTaskCompleted`, with the commands, after these events of
/// the history, and the results of the queries that came with the task, each under its query's id
/// (Temporal's `WorkflowQueryResult`). If `sticky` is a number of seconds, the run is kept for its
/// next task, which waits that long in the sticky queue. What the run carries over is only used in a
/// Continue-As-New. The options of a command are those of the policy of its name.
///
/// The error is that of the first command that can't be written: `TooLong` for a timer,
/// `NotScheduled` for the cancellation of an activity, `NeverSent` for an `Ask`. `OutOfMemory` can
/// replace each of them.
pub fn workflow_completed(
    alloc: Global,
    names: &WorkerNames,
    token: &str,
    commands: &[Command],
    events: &[Event],
    results: Members,
    sticky: Option<u32>,
    policies: &Policies,
    carried: &CarriedOver,
) -> Result<Value, RequestFault>
    ensures { Writes result
        (spec.workflow_completed names.now token.now commands.now events.now (members_view results.entries)
        sticky policies.now (carried_seen carried.now)) }
{
    let commands = commands_value(alloc, names, policies, carried, events, commands)?;
    let params = completed_with(alloc, names, token, results, sticky, commands)?;
    Ok(params)
}

/// Writes the request of `RespondWorkflowTaskFailed`, with a message that says what went wrong.
/// `OutOfMemory` if there was no memory for it.
pub fn workflow_failed(
    alloc: Global,
    names: &WorkerNames,
    token: &str,
    cause: FailedCause,
    message: &str,
) -> Result<Value, OutOfMemory>
    ensures { IfOk result (λ params. view params ≡ spec.workflow_failed names.now token.now cause message.now) }
{
    let mut members = answer_of(alloc, names, token)?;
    put_text(&mut members, alloc, "cause", cause.name())?;
    put_failure(&mut members, alloc, message)?;
    Ok(Value::Object(members))
}

/// Writes the request of `RespondQueryTaskCompleted` for a query that is not answered, with the
/// reason. `OutOfMemory` if there was no memory for it.
pub fn query_failed(
    alloc: Global,
    names: &WorkerNames,
    token: &str,
    message: &str,
) -> Result<Value, OutOfMemory>
    ensures { IfOk result (λ params. view params ≡ spec.query_failed names.now token.now message.now) }
{
    let mut params = Map::new(alloc);
    put_text(&mut params, alloc, "namespace", names.namespace.get())?;
    put_text(&mut params, alloc, "taskToken", token)?;
    put_text(
        &mut params,
        alloc,
        "completedType",
        "QUERY_RESULT_TYPE_FAILED",
    )?;
    put_text(&mut params, alloc, "errorMessage", message)?;
    Ok(Value::Object(params))
}

/// Writes the request of `RespondActivityTaskCompleted`, with the activity's result. `OutOfMemory`
/// if there was no memory for it.
pub fn activity_completed(
    alloc: Global,
    names: &WorkerNames,
    token: &str,
    outcome: &[Payload],
) -> Result<Value, OutOfMemory>
    ensures { IfOk result (λ params. view params ≡ spec.activity_completed names.now token.now outcome.now) }
{
    answer_with(alloc, names, token, "result", outcome)
}

/// Writes an answer to an activity task with these payloads under a name.
pub(crate) fn answer_with(
    alloc: Global,
    names: &WorkerNames,
    token: &str,
    name: &str,
    payloads: &[Payload],
) -> Result<Value, OutOfMemory>
    ensures { IfOk result (λ params. view params ≡ spec.answer_with names.now token.now name.now payloads.now) }
{
    let mut members = answer_of(alloc, names, token)?;
    put_payloads(&mut members, alloc, name, payloads)?;
    Ok(Value::Object(members))
}

/// Writes the request of `RespondActivityTaskFailed`, with the reason, the failure's type, if it has
/// one, and whether the activity may be retried. `OutOfMemory` if there was no memory for it.
pub fn activity_failed(
    alloc: Global,
    names: &WorkerNames,
    token: &str,
    message: &str,
    failure_type: &Option<Text>,
    retryable: bool,
) -> Result<Value, OutOfMemory>
    ensures { IfOk result (λ params. view params
        ≡ spec.activity_failed names.now token.now message.now failure_type.now retryable) }
{
    let mut members = answer_of(alloc, names, token)?;
    put_typed_failure(&mut members, alloc, message, failure_type, retryable)?;
    Ok(Value::Object(members))
}

/// Writes the request of `ShutdownWorker`, which gives up the sticky queue. `OutOfMemory` if there
/// was no memory for it.
pub fn shutdown(alloc: Global, names: &WorkerNames) -> Result<Value, OutOfMemory>
    ensures { IfOk result (λ params. view params ≡ spec.shutdown names.now) }
{
    let params = json!(in alloc; {
        "namespace": names.namespace.get(),
        "stickyTaskQueue": names.sticky_queue.get(),
        "identity": names.identity.get(),
    })?;
    Ok(params)
}
