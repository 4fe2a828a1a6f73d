//! Reads what calls say of runs and tasks.

ghost use Rattle.std.specs.Prelude.{◌≡◌, bytes_eq, codes, map, option_and_then, option_map};
ghost use Rattle.serde_json.specs.View.{view};
ghost use Rattle.wh_payload_metadata.specs.Messages.{token_of, is_query, polls_activities, brings_workflow_task, polled_place, fetched_run, fetches};
ghost use Rattle.wh_payload_metadata.specs.Messages.{history_in, queries_in};
ghost use Rattle.wh_payload_metadata.specs.Messages.{responds, beats, closes, closes_run, last};
ghost use Rattle.wh_json.specs.Fields.{list_in};

use serde_json::Value;
use wh_json::{at_path, field, list_in, text_of};

/// The token of the task that the result of a poll has, or the params of a call name. It is empty
/// if there is none.
pub(crate) fn token_of(value: &Value) -> &str
    ensures { result.now ≡ token_of (view value.now) }
{
    text_of(field(Some(value), "taskToken"))
}

/// Whether polls of this method bring activity tasks.
fn polls_activities(method: &str) -> bool
    ensures { result ≡ polls_activities method.now }
{
    method == "PollActivityTaskQueue"
}

/// Whether a poll brought a query that came alone.
pub(crate) fn is_query(polled: &Value) -> bool
    ensures { result ≡ is_query (view polled.now) }
{
    field(Some(polled), "query").is_some()
}

/// Whether a poll of this method brought a workflow task, so that what came with it is kept after its
/// answer.
pub(crate) fn brings_workflow_task(method: &str, polled: &Value) -> bool
    ensures { result ≡ brings_workflow_task method.now (view polled.now) }
{
    !polls_activities(method) && !is_query(polled)
}

/// The name under which it is kept what a poll brought: the id of the run, and of an activity task
/// its token.
pub(crate) fn polled_place<'v>(method: &str, polled: &'v Value) -> &'v str
    ensures { result.now ≡ polled_place method.now (view polled.now) }
{
    if polls_activities(method) {
        token_of(polled)
    } else {
        text_of(at_path(Some(polled), &["workflowExecution", "runId"]))
    }
}

/// The history that a poll brought with a workflow task, or a call for a page of it.
pub(crate) fn history_in(brought: &Value) -> Option<&Value>
    ensures { option_map (λ v. view v.now) result ≡ history_in (view brought.now) }
{
    field(Some(brought), "history")
}

/// The queries that a poll brought with a workflow task.
pub(crate) fn queries_in(task: &Value) -> Option<&Value>
    ensures { option_map (λ v. view v.now) result ≡ queries_in (view task.now) }
{
    field(Some(task), "queries")
}

/// The id of the run whose history a call asks for.
pub(crate) fn fetched_run(params: &Value) -> &str
    ensures { result.now ≡ fetched_run (view params.now) }
{
    text_of(at_path(Some(params), &["execution", "runId"]))
}

/// Whether a call of this method asks for a history.
pub(crate) fn fetches(method: &str) -> bool
    ensures { result ≡ fetches method.now }
{
    method == "GetWorkflowExecutionHistory"
}

/// Whether a call of this method answers a task or a query.
pub(crate) fn responds(method: &str) -> bool
    ensures { result ≡ responds method.now }
{
    method.starts_with("Respond")
}

/// Whether a call of this method answers a query that came alone.
pub(crate) fn answers_query(method: &str) -> bool
    ensures { result ≡ bytes_eq method.now (codes "RespondQueryTaskCompleted") }
{
    method == "RespondQueryTaskCompleted"
}

/// Whether a call of this method is a heartbeat.
pub(crate) fn beats(method: &str) -> bool
    ensures { result ≡ beats method.now }
{
    method == "RecordActivityTaskHeartbeat"
}

/// Whether a command of this type closes its run.
#[tactic(auto, unfolding(crate::specs::Messages::closes))]
fn closes(kind: &str) -> bool
    ensures { result ≡ closes kind.now }
{
    kind == "COMMAND_TYPE_COMPLETE_WORKFLOW_EXECUTION"
        || kind == "COMMAND_TYPE_FAIL_WORKFLOW_EXECUTION"
        || kind == "COMMAND_TYPE_CANCEL_WORKFLOW_EXECUTION"
        || kind == "COMMAND_TYPE_CONTINUE_AS_NEW_WORKFLOW_EXECUTION"
}

/// The last of these values, if there is one.
fn last_in(values: &[Value]) -> Option<&Value>
    ensures { option_map (λ v. view v.now) result ≡ last (map view values.now) }
{
    values.last()
}

/// The last of these values, if there is one.
fn last_of<'v>(values: Option<&'v [Value]>) -> Option<&'v Value>
    ensures { option_map (λ v. view v.now) result
        ≡ option_and_then last (option_map (λ values. map view values.now) values.entry) }
{
    match values {
        Some(values) => last_in(values),
        None => None,
    }
}

/// The values of a list.
pub(crate) fn values_of<'v>(value: Option<&'v Value>) -> Option<&'v [Value]>
    ensures { option_map (λ values. map view values.now) result
        ≡ option_and_then list_in (option_map (λ v. view v.now) value.entry) }
{
    list_in(value?)
}

/// Whether the last command of a call closes its run.
pub(crate) fn closes_run(params: &Value) -> bool
    ensures { result ≡ closes_run (view params.now) }
{
    let last = last_of(values_of(field(Some(params), "commands")));
    closes(text_of(field(last, "commandType")))
}
