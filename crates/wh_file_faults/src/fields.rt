//! Finds the field that an event lacks.

ghost use Rattle.std.specs.Prelude.{◌≡◌, IfOk, map, option_and_then, option_map};
ghost use Rattle.serde_json.specs.View.{view};
ghost use Rattle.wh_events.specs.Machines.{or_else};
ghost use Rattle.wh_file_faults.specs.Fields.{field_of_kind, field_of_member, if_empty, lacks_at, lacks_in};
ghost use Rattle.wh_file_faults.specs.Fields.{lacks};
ghost use Rattle.wh_json.specs.Events.{document_within};

use crate::detail::FaultDetail;
use serde_json::Value;
use std::alloc::Global;
use wh_events::{EventKind, OutOfMemory, Text};
use wh_json::{ReadFault, events_in, field, partial_event, read_document, text_of};

/// Returns the name of a text if the text is empty.
fn if_empty(text: &str, name: &'static str) -> Option<&'static str>
    ensures { option_map (λ n. n.now) result ≡ if_empty text.now name.now }
{
    if text.is_empty() { Some(name) } else { None }
}

/// Returns the first name if there is one, or else the second.
fn either(first: Option<&'static str>, second: Option<&'static str>) -> Option<&'static str>
    ensures { option_map (λ n. n.now) result
        ≡ or_else (option_map (λ n. n.now) first.entry) (option_map (λ n. n.now) second.entry) }
{
    match first {
        Some(name) => Some(name),
        None => second,
    }
}

/// Returns the first empty one of the texts that an event of this kind needs, by its path within
/// the attributes of the event.
fn field_of_kind(kind: &EventKind) -> Option<&'static str>
    ensures { option_map (λ n. n.now) result ≡ field_of_kind kind.now }
{
    match kind {
        EventKind::WorkflowExecutionStarted { workflow, .. } => {
            if_empty(workflow.get(), "workflowType.name")
        }
        EventKind::ActivityTaskScheduled { id, activity } => either(
            if_empty(id.get(), "activityId"),
            if_empty(activity.get(), "activityType.name"),
        ),
        EventKind::TimerStarted { id } => if_empty(id.get(), "timerId"),
        EventKind::StartChildWorkflowExecutionInitiated {
            workflow_id,
            workflow,
        } => either(
            if_empty(workflow_id.get(), "workflowId"),
            if_empty(workflow.get(), "workflowType.name"),
        ),
        EventKind::RequestCancelExternalWorkflowExecutionInitiated { workflow_id } => {
            if_empty(workflow_id.get(), "workflowExecution.workflowId")
        }
        EventKind::SignalExternalWorkflowExecutionInitiated {
            workflow_id,
            signal,
        } => either(
            if_empty(workflow_id.get(), "workflowExecution.workflowId"),
            if_empty(signal.get(), "signalName"),
        ),
        EventKind::WorkflowExecutionSignaled { name, .. } => if_empty(name.get(), "signalName"),
        _ => None,
    }
}

/// Returns the first empty one of the texts that a kind needs, if there is a kind.
fn field_of(kind: &Option<EventKind>) -> Option<&'static str>
    ensures { option_map (λ n. n.now) result ≡ option_and_then field_of_kind kind.now }
{
    match kind {
        Some(kind) => field_of_kind(kind),
        None => None,
    }
}

/// Returns the first of the texts that the event at a place needs and lacks, if it lacks one.
fn field_of_member(
    alloc: Global,
    member: &Value,
    at: u64,
) -> Result<Option<&'static str>, OutOfMemory>
    ensures { IfOk result (λ field. option_map (λ n. n.now) field ≡ field_of_member at (view member.now)) }
{
    let time = if_empty(text_of(field(Some(member), "eventTime")), "eventTime");
    let event = partial_event(alloc, at, None, member)?;
    Ok(either(time, field_of(&event.kind)))
}

/// Returns what the event at a place lacks, if there is one and it lacks something.
fn lacks_at(alloc: Global, members: &[Value], at: u64) -> Result<Option<FaultDetail>, OutOfMemory>
    ensures { IfOk result (λ found. found ≡ lacks_at (map view members.now) at) }
{
    let Some(member) = members.get(at.saturating_sub(1) as usize) else {
        return Ok(None);
    };
    let Some(field) = field_of_member(alloc, member, at)? else {
        return Ok(None);
    };
    let field = Text::new(String::from_str(alloc, field)?);
    Ok(Some(FaultDetail::Lacks { at, field }))
}

/// Returns what the event at a place of a document lacks.
fn lacks_in(alloc: Global, value: &Value, at: u64) -> Result<Option<FaultDetail>, OutOfMemory>
    ensures { IfOk result (λ found. found ≡ lacks_in (view value.now) at) }
{
    match events_in(value) {
        Some(members) => lacks_at(alloc, members, at),
        None => Ok(None),
    }
}

/// Returns what the event at a place of a history lacks, by its bytes.
pub(crate) fn lacks(
    alloc: Global,
    bytes: &[u8],
    at: u64,
) -> Result<Option<FaultDetail>, OutOfMemory>
    ensures { IfOk result (λ found. found ≡ lacks (document_within bytes.now) at) }
{
    match read_document(alloc, bytes) {
        Ok(value) => lacks_in(alloc, &value, at),
        Err(ReadFault::OutOfMemory) => Err(OutOfMemory),
        Err(_) => Ok(None),
    }
}
