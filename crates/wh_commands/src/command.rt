//! Writes commands.

ghost use Rattle.std.specs.Prelude.{◌≡◌, ◌≢◌, [], IfOk, OnOk, Ok, codes};
ghost use Rattle.serde_json.specs.Data.{object, put, string};
ghost use Rattle.serde_json.specs.View.{view, members_view};
ghost use Rattle.wh_events.specs.Machines.{last_named, opens};
ghost use Rattle.wh_commands.specs.Outcome.{Writes, WritesAll};
ghost use Rattle.wh_commands.specs.Commands as spec;
ghost use Rattle.wh_commands.specs.Commands.{cancel_scheduled, carried_asked, command_form};
ghost use Rattle.wh_commands.specs.Commands.{start_timer_within, written, written_after};
ghost use Rattle.wh_commands.specs.CarryingOver.{carried_seen};
ghost use Rattle.wh_commands.specs.Durations.{delay_text};
ghost use Rattle.wh_commands.specs.Objects.{put_given};

use crate::carrying::CarriedOver;
use crate::fault::RequestFault;
use crate::names::WorkerNames;
use crate::object::{
    Members, failure_with, put_copy, put_duration, put_named, put_payloads, put_text,
};
use crate::payload::json_payloads;
use crate::policies::{
    failure_info, put_activity, put_child, put_continued, queue_asked, retry_written,
};
use serde_json::{Map, Value, json, put};
use std::alloc::{AllocError, Global};
use wh_events::{Event, EventNo, Items, Payload, Role, Text, Thing};
use wh_policies::{ActivityPolicy, ChildPolicy, ContinuePolicy, FailurePolicy, Policies};
use wh_workflow::Command;

/// The longest duration of protobuf, in seconds.
const LONGEST_DURATION: u64 = 315_576_000_000;

/// Writes a command of a type, with its attributes under their name.
fn command_form(
    alloc: Global,
    kind: &str,
    name: &str,
    attributes: Members,
) -> Result<Value, RequestFault>
    ensures { Writes result (Ok (command_form kind.now name.now (object (members_view attributes.entries)))) }
{
    let mut command = Map::new(alloc);
    put_text(&mut command, alloc, "commandType", kind)?;
    put(&mut command, alloc, name, Value::Object(attributes))?;
    Ok(Value::Object(command))
}

/// Writes the command that starts an activity.
fn start_activity(
    alloc: Global,
    names: &WorkerNames,
    policy: &ActivityPolicy,
    id: &Text,
    activity: &Text,
    input: &Items<Payload>,
) -> Result<Value, RequestFault>
    ensures { Writes result (Ok (spec.start_activity names.now policy.now id.now activity.now input.now)) }
{
    let queue = queue_asked(names, &policy.task_queue);
    let mut attributes = Map::new(alloc);
    put_text(&mut attributes, alloc, "activityId", id.get())?;
    put_named(&mut attributes, alloc, "activityType", activity.get())?;
    put_named(&mut attributes, alloc, "taskQueue", queue)?;
    put_payloads(&mut attributes, alloc, "input", input.get())?;
    put_duration(
        &mut attributes,
        alloc,
        "startToCloseTimeout",
        policy.start_to_close as u64,
    )?;
    let retry = retry_written(alloc, &policy.retry)?;
    put(&mut attributes, alloc, "retryPolicy", retry)?;
    put_activity(&mut attributes, alloc, policy)?;
    command_form(
        alloc,
        "COMMAND_TYPE_SCHEDULE_ACTIVITY_TASK",
        "scheduleActivityTaskCommandAttributes",
        attributes,
    )
}

/// Returns whether the event schedules an activity under the id.
fn schedules(event: &Event, id: &str) -> bool
    ensures { result ≡ opens Thing.Activity id.now event.now }
{
    match event.role() {
        Role::Opens {
            thing: Thing::Activity,
            id: other,
        } => id == other,
        _ => false,
    }
}

/// Returns the number of the last event that scheduled an activity under the id.
fn last_scheduled(events: &[Event], id: &str) -> Option<EventNo>
    ensures { result ≡ last_named events.now Thing.Activity id.now }
{
    let mut found = None;
    for event in events {
        if schedules(event, id) {
            found = Some(event.number);
        }
    }
    found
}

/// Writes the command that cancels an activity, by the number of the event that scheduled it.
fn cancel_scheduled(alloc: Global, scheduled: EventNo) -> Result<Value, RequestFault>
    ensures { Writes result (Ok (spec.cancel_activity scheduled)) }
{
    let number = scheduled.get();
    let number = format!(in alloc; "{number}")?;
    let mut attributes = Map::new(alloc);
    put(
        &mut attributes,
        alloc,
        "scheduledEventId",
        Value::String(number),
    )?;
    command_form(
        alloc,
        "COMMAND_TYPE_REQUEST_CANCEL_ACTIVITY_TASK",
        "requestCancelActivityTaskCommandAttributes",
        attributes,
    )
}

/// Writes the command that cancels the activity last scheduled under the id. `NotScheduled` if
/// there is none.
fn cancel_activity(alloc: Global, events: &[Event], id: &Text) -> Result<Value, RequestFault>
    ensures { Writes result (cancel_scheduled id.now (last_named events.now Thing.Activity id.now)) }
{
    let Some(scheduled) = last_scheduled(events, id.get()) else {
        return Err(RequestFault::NotScheduled {
            activity_id: id.try_copy()?,
        });
    };
    cancel_scheduled(alloc, scheduled)
}

/// What is sent for a timer of 0 seconds, a millisecond: servers refuse a timer without a duration,
/// and some take 0 for none.
const LEAST_DELAY: &str = "0.001s";

/// Adds the time after which a timer fires.
fn put_delay(members: &mut Members, alloc: Global, seconds: u64) -> Result<(), AllocError>
    ensures { OnOk result (members_view members.new.entries
        ≡ put (codes "startToFireTimeout") (string (delay_text seconds)) (members_view members.old.entries)) }
{
    if seconds == 0 {
        return put_text(members, alloc, "startToFireTimeout", LEAST_DELAY);
    }
    put_duration(members, alloc, "startToFireTimeout", seconds)
}

/// Writes the command that starts a timer. `TooLong` above `LONGEST_DURATION`.
fn start_timer(alloc: Global, id: &Text, seconds: u64) -> Result<Value, RequestFault>
    ensures { Writes result (start_timer_within id.now seconds) }
{
    if LONGEST_DURATION < seconds {
        return Err(RequestFault::TooLong {
            timer_id: id.try_copy()?,
        });
    }
    let mut attributes = Map::new(alloc);
    put_text(&mut attributes, alloc, "timerId", id.get())?;
    put_delay(&mut attributes, alloc, seconds)?;
    command_form(
        alloc,
        "COMMAND_TYPE_START_TIMER",
        "startTimerCommandAttributes",
        attributes,
    )
}

/// Writes the command that cancels a timer.
fn cancel_timer(alloc: Global, id: &Text) -> Result<Value, RequestFault>
    ensures { Writes result (Ok (spec.cancel_timer id.now)) }
{
    let mut attributes = Map::new(alloc);
    put_text(&mut attributes, alloc, "timerId", id.get())?;
    command_form(
        alloc,
        "COMMAND_TYPE_CANCEL_TIMER",
        "cancelTimerCommandAttributes",
        attributes,
    )
}

/// Writes the command that starts a child workflow.
fn start_child(
    alloc: Global,
    names: &WorkerNames,
    policy: &ChildPolicy,
    workflow_id: &Text,
    workflow: &Text,
    input: &Items<Payload>,
) -> Result<Value, RequestFault>
    ensures { Writes result
        (Ok (spec.start_child names.now policy.now workflow_id.now workflow.now input.now)) }
{
    let queue = queue_asked(names, &policy.task_queue);
    let mut attributes = Map::new(alloc);
    put_text(&mut attributes, alloc, "namespace", names.namespace.get())?;
    put_text(&mut attributes, alloc, "workflowId", workflow_id.get())?;
    put_named(&mut attributes, alloc, "workflowType", workflow.get())?;
    put_named(&mut attributes, alloc, "taskQueue", queue)?;
    put_payloads(&mut attributes, alloc, "input", input.get())?;
    put_child(&mut attributes, alloc, policy)?;
    command_form(
        alloc,
        "COMMAND_TYPE_START_CHILD_WORKFLOW_EXECUTION",
        "startChildWorkflowExecutionCommandAttributes",
        attributes,
    )
}

/// Writes the command that cancels a child workflow.
fn cancel_child(
    alloc: Global,
    names: &WorkerNames,
    workflow_id: &Text,
) -> Result<Value, RequestFault>
    ensures { Writes result (Ok (spec.cancel_child names.now workflow_id.now)) }
{
    let mut attributes = Map::new(alloc);
    put_text(&mut attributes, alloc, "namespace", names.namespace.get())?;
    put_text(&mut attributes, alloc, "workflowId", workflow_id.get())?;
    put(
        &mut attributes,
        alloc,
        "childWorkflowOnly",
        Value::Bool(true),
    )?;
    command_form(
        alloc,
        "COMMAND_TYPE_REQUEST_CANCEL_EXTERNAL_WORKFLOW_EXECUTION",
        "requestCancelExternalWorkflowExecutionCommandAttributes",
        attributes,
    )
}

/// Writes the execution of a workflow id, without a run id: the workflow's current run.
fn execution(alloc: Global, workflow_id: &str) -> Result<Value, AllocError>
    ensures { IfOk result (λ execution. view execution ≡ spec.execution workflow_id.now) }
{
    json!(in alloc; {"workflowId": workflow_id})
}

/// Writes the command that signals an external workflow.
fn signal_external(
    alloc: Global,
    names: &WorkerNames,
    workflow_id: &Text,
    signal: &Text,
    input: &Items<Payload>,
) -> Result<Value, RequestFault>
    ensures { Writes result (Ok (spec.signal_external names.now workflow_id.now signal.now input.now)) }
{
    let mut attributes = Map::new(alloc);
    put_text(&mut attributes, alloc, "namespace", names.namespace.get())?;
    put(
        &mut attributes,
        alloc,
        "execution",
        execution(alloc, workflow_id.get())?,
    )?;
    put_text(&mut attributes, alloc, "signalName", signal.get())?;
    put_payloads(&mut attributes, alloc, "input", input.get())?;
    command_form(
        alloc,
        "COMMAND_TYPE_SIGNAL_EXTERNAL_WORKFLOW_EXECUTION",
        "signalExternalWorkflowExecutionCommandAttributes",
        attributes,
    )
}

/// Writes the details of a Version marker.
fn details(alloc: Global, change_id: &str, version: i32) -> Result<Value, AllocError>
    ensures { IfOk result (λ details. view details ≡ spec.details change_id.now version) }
{
    let mut details = Map::new(alloc);
    let change = Value::try_from_str(alloc, change_id)?;
    put(
        &mut details,
        alloc,
        "change-id",
        json_payloads(alloc, &change)?,
    )?;
    let version = Value::from(version);
    put(
        &mut details,
        alloc,
        "version",
        json_payloads(alloc, &version)?,
    )?;
    Ok(Value::Object(details))
}

/// Writes the command that records the version of a change.
fn marker(alloc: Global, change_id: &Text, version: i32) -> Result<Value, RequestFault>
    ensures { Writes result (Ok (spec.marker change_id.now version)) }
{
    let mut attributes = Map::new(alloc);
    put_text(&mut attributes, alloc, "markerName", "Version")?;
    put(
        &mut attributes,
        alloc,
        "details",
        details(alloc, change_id.get(), version)?,
    )?;
    command_form(
        alloc,
        "COMMAND_TYPE_RECORD_MARKER",
        "recordMarkerCommandAttributes",
        attributes,
    )
}

/// Writes the command that completes the run.
fn complete(alloc: Global, outcome: &Items<Payload>) -> Result<Value, RequestFault>
    ensures { Writes result (Ok (spec.complete outcome.now)) }
{
    let mut attributes = Map::new(alloc);
    put_payloads(&mut attributes, alloc, "result", outcome.get())?;
    command_form(
        alloc,
        "COMMAND_TYPE_COMPLETE_WORKFLOW_EXECUTION",
        "completeWorkflowExecutionCommandAttributes",
        attributes,
    )
}

/// Writes the command that fails the run.
fn fail(alloc: Global, policy: &FailurePolicy, message: &Text) -> Result<Value, RequestFault>
    ensures { Writes result (Ok (spec.fail policy.now message.now)) }
{
    let mut attributes = Map::new(alloc);
    let info = failure_info(alloc, &policy.failure_type, policy.retryable)?;
    let failure = failure_with(alloc, info, message.get())?;
    put(&mut attributes, alloc, "failure", failure)?;
    command_form(
        alloc,
        "COMMAND_TYPE_FAIL_WORKFLOW_EXECUTION",
        "failWorkflowExecutionCommandAttributes",
        attributes,
    )
}

/// Writes the command that closes the run as canceled.
fn cancel(alloc: Global) -> Result<Value, RequestFault>
    ensures { Writes result (Ok spec.cancel) }
{
    command_form(
        alloc,
        "COMMAND_TYPE_CANCEL_WORKFLOW_EXECUTION",
        "cancelWorkflowExecutionCommandAttributes",
        Map::new(alloc),
    )
}

/// Adds what a run carries over to the one that continues it.
fn put_carried(
    members: &mut Members,
    alloc: Global,
    carried: &CarriedOver,
) -> Result<(), AllocError>
    ensures { OnOk result (members_view members.new.entries
        ≡ put_given (carried_asked (carried_seen carried.now)) (members_view members.old.entries)) }
{
    put_copy(members, alloc, "memo", &carried.memo)?;
    put_copy(
        members,
        alloc,
        "searchAttributes",
        &carried.search_attributes,
    )?;
    put_copy(members, alloc, "retryPolicy", &carried.retry_policy)
}

/// Writes the command that continues the run as a new one.
fn continue_as_new(
    alloc: Global,
    names: &WorkerNames,
    policy: &ContinuePolicy,
    carried: &CarriedOver,
    workflow: &Text,
    input: &Items<Payload>,
) -> Result<Value, RequestFault>
    ensures { Writes result
        (Ok (spec.continue_as_new names.now policy.now (carried_seen carried.now) workflow.now input.now)) }
{
    let queue = queue_asked(names, &policy.task_queue);
    let mut attributes = Map::new(alloc);
    put_named(&mut attributes, alloc, "workflowType", workflow.get())?;
    put_named(&mut attributes, alloc, "taskQueue", queue)?;
    put_payloads(&mut attributes, alloc, "input", input.get())?;
    put_carried(&mut attributes, alloc, carried)?;
    put_continued(&mut attributes, alloc, policy)?;
    command_form(
        alloc,
        "COMMAND_TYPE_CONTINUE_AS_NEW_WORKFLOW_EXECUTION",
        "continueAsNewWorkflowExecutionCommandAttributes",
        attributes,
    )
}

/// Returns the fault of an `Ask`, which is never sent.
fn never_sent(change_id: &Text) -> RequestFault
    ensures { result ≢ RequestFault.OutOfMemory → result ≡ RequestFault.NeverSent change_id.now }
{
    match change_id.try_copy() {
        Ok(change_id) => RequestFault::NeverSent { change_id },
        Err(refused) => RequestFault::from(refused),
    }
}

/// Writes a command, after these events of the history.
fn command_value(
    alloc: Global,
    names: &WorkerNames,
    policies: &Policies,
    carried: &CarriedOver,
    events: &[Event],
    command: &Command,
) -> Result<Value, RequestFault>
    ensures { Writes result (written names.now policies.now (carried_seen carried.now) events.now command.now) }
{
    match command {
        Command::StartActivity {
            id,
            activity,
            input,
        } => {
            let policy = policies.activities.policy_of(activity.get());
            start_activity(alloc, names, policy, id, activity, input)
        }
        Command::CancelActivity { id } => cancel_activity(alloc, events, id),
        Command::StartTimer { id, seconds } => start_timer(alloc, id, *seconds),
        Command::CancelTimer { id } => cancel_timer(alloc, id),
        Command::StartChild {
            workflow_id,
            workflow,
            input,
        } => {
            let policy = policies.children.policy_of(workflow.get());
            start_child(alloc, names, policy, workflow_id, workflow, input)
        }
        Command::CancelChild { workflow_id } => cancel_child(alloc, names, workflow_id),
        Command::SignalExternal {
            workflow_id,
            signal,
            input,
        } => signal_external(alloc, names, workflow_id, signal, input),
        Command::Ask { change_id, .. } => Err(never_sent(change_id)),
        Command::Marker { change_id, version } => marker(alloc, change_id, *version),
        Command::Complete { result } => complete(alloc, result),
        Command::Fail { message } => {
            fail(alloc, policies.failures.policy_of(message.get()), message)
        }
        Command::Cancel => cancel(alloc),
        Command::ContinueAsNew { workflow, input } => {
            let policy = policies.continued.policy_of(workflow.get());
            continue_as_new(alloc, names, policy, carried, workflow, input)
        }
    }
}

/// Writes commands, in order, with the options that the policies set, after these events of the
/// history. After an error, which is that of the first command with a fault, nothing is written.
pub fn commands_value(
    alloc: Global,
    names: &WorkerNames,
    policies: &Policies,
    carried: &CarriedOver,
    events: &[Event],
    commands: &[Command],
) -> Result<Vec<Value>, RequestFault>
    ensures { WritesAll result
        (written_after (written names.now policies.now (carried_seen carried.now) events.now) [] commands.now) }
{
    let mut values = Vec::new(alloc);
    for command in commands {
        let value = command_value(alloc, names, policies, carried, events, command)?;
        values.push(value)?;
    }
    Ok(values)
}
