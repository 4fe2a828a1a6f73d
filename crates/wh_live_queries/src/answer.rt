//! Writes the answers to queries.

ghost use Rattle.std.specs.Prelude.{◌≡◌, IfOk};
ghost use Rattle.serde_json.specs.View.{view};
ghost use Rattle.wh_live_queries.specs.Answers as spec;

use serde_json::{Map, Value, json};
use std::alloc::{AllocError, Global};
use wh_commands::{WorkerNames, put_payloads, put_text};
use wh_events::{OutOfMemory, Payload};
use wh_messages::query_failed;
use wh_workflow::QueryResult;

/// Writes the answer to a query that has a result.
fn answer_with_result(
    alloc: Global,
    names: &WorkerNames,
    token: &str,
    payloads: &[Payload],
) -> Result<Value, OutOfMemory>
    ensures { IfOk result (λ params. view params ≡ spec.query_answered names.now token.now payloads.now) }
{
    let mut params = Map::new(alloc);
    put_text(&mut params, alloc, "namespace", names.namespace.get())?;
    put_text(&mut params, alloc, "taskToken", token)?;
    put_text(
        &mut params,
        alloc,
        "completedType",
        "QUERY_RESULT_TYPE_ANSWERED",
    )?;
    put_payloads(&mut params, alloc, "queryResult", payloads)?;
    Ok(Value::Object(params))
}

/// Writes the request of `RespondQueryTaskCompleted` with the result of the query of a token:
/// payloads, or why there are none. `OutOfMemory` if there was no memory for it.
pub fn query_completed(
    alloc: Global,
    names: &WorkerNames,
    token: &str,
    given: &QueryResult,
) -> Result<Value, OutOfMemory>
    ensures { IfOk result (λ params. view params ≡ spec.query_completed names.now token.now given.now) }
{
    match given {
        QueryResult::Answered(payloads) => answer_with_result(alloc, names, token, payloads.get()),
        QueryResult::Failed(reason) => query_failed(alloc, names, token, reason.get()),
    }
}

/// Writes the result of a query that has one.
fn answered_value(alloc: Global, payloads: &[Payload]) -> Result<Value, AllocError>
    ensures { IfOk result (λ value. view value ≡ spec.answered_written payloads.now) }
{
    let mut members = Map::new(alloc);
    put_text(
        &mut members,
        alloc,
        "resultType",
        "QUERY_RESULT_TYPE_ANSWERED",
    )?;
    put_payloads(&mut members, alloc, "answer", payloads)?;
    Ok(Value::Object(members))
}

/// Writes why a query has no result.
fn failed_value(alloc: Global, reason: &str) -> Result<Value, AllocError>
    ensures { IfOk result (λ value. view value ≡ spec.failed_written reason.now) }
{
    json!(in alloc; {"resultType": "QUERY_RESULT_TYPE_FAILED", "errorMessage": reason})
}

/// Writes the result of a query that came with a workflow task, as the completion of the task has it
/// (Temporal's `WorkflowQueryResult`): payloads, or why there are none. `OutOfMemory` if there was no
/// memory for it.
pub fn result_value(alloc: Global, given: &QueryResult) -> Result<Value, OutOfMemory>
    ensures { IfOk result (λ value. view value ≡ spec.result_written given.now) }
{
    let value = match given {
        QueryResult::Answered(payloads) => answered_value(alloc, payloads.get()),
        QueryResult::Failed(reason) => failed_value(alloc, reason.get()),
    };
    Ok(value?)
}
