//! Writes heartbeats of activities, and answers for canceled activities.

ghost use Rattle.std.specs.Prelude.{◌≡◌, IfOk};
ghost use Rattle.serde_json.specs.View.{view};
ghost use Rattle.wh_messages.specs.Heartbeats as spec;

use crate::request::{answer_of, answer_with};
use serde_json::{Value, put};
use std::alloc::Global;
use wh_commands::{WorkerNames, json_payloads};
use wh_events::{OutOfMemory, Payload};

/// Writes the request of `RecordActivityTaskHeartbeat`: the activity of the task is still running,
/// with details that a later attempt may be given. `OutOfMemory` if there was no memory for it.
pub fn activity_heartbeat(
    alloc: Global,
    names: &WorkerNames,
    token: &str,
    details: &[Payload],
) -> Result<Value, OutOfMemory>
    ensures { IfOk result (λ params. view params ≡ spec.activity_heartbeat names.now token.now details.now) }
{
    answer_with(alloc, names, token, "details", details)
}

/// Writes the request of `RespondActivityTaskCanceled`, with the reason as its details, a JSON
/// string. `OutOfMemory` if there was no memory for it.
pub fn activity_canceled(
    alloc: Global,
    names: &WorkerNames,
    token: &str,
    reason: &str,
) -> Result<Value, OutOfMemory>
    ensures { IfOk result (λ params. view params ≡ spec.activity_canceled names.now token.now reason.now) }
{
    let reason = Value::try_from_str(alloc, reason)?;
    let details = json_payloads(alloc, &reason)?;
    let mut members = answer_of(alloc, names, token)?;
    put(&mut members, alloc, "details", details)?;
    Ok(Value::Object(members))
}
