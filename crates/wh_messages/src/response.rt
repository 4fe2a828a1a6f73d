//! Reads the responses to polls and history requests.

ghost use Rattle.std.specs.Prelude.{◌≡◌, IfOk, IfErr, map, option_map, codes, Some, None, Option};
ghost use Rattle.std.specs.Result.{result_ok};
ghost use Rattle.serde_json.specs.Find.{as_object, get};
ghost use Rattle.serde_json.specs.View.{view, members_view};
ghost use Rattle.wh_json.specs.Fields.{field, list_in, unless_null};
ghost use Rattle.wh_json.specs.Payloads.{payloads_at};
ghost use Rattle.wh_commands.specs.ReadBack.{text_or_empty};
ghost use Rattle.wh_messages.specs.Responses as spec;
ghost use Rattle.wh_messages.specs.Responses.{page_seen, poll_seen, task_seen};

use crate::times::times_in;
use serde_json::{Map, Value};
use std::alloc::Global;
use wh_commands::Members;
use wh_events::{Items, OutOfMemory, Payload, RunKey, Text};
use wh_json::{ReadFault, field, number_of, payloads_at, text_of};
use wh_tasks::ActivityInfo;

/// A page of a run's history.
#[derive(Debug, Drop)]
pub struct HistoryPage {
    /// Its events, as JSON values.
    pub members: Vec<Value>,
    /// The token of the next page, empty on the last one.
    pub next_page: Text,
}

/// A workflow task, as a poll returns it.
#[derive(Debug, Drop)]
pub struct PolledTask {
    /// The Task Token with which it is answered.
    pub token: Text,
    /// Its run.
    pub run: RunKey,
    /// Which attempt of the task this is, counted from 1.
    pub attempt: u64,
    /// The events that it comes with, as JSON values: from the first one, or those since the last
    /// task.
    pub members: Vec<Value>,
    /// The token of the page with the events that follow, empty if there are none.
    pub next_page: Text,
    /// The queries that came with it, each under its id: a `WorkflowQuery` in its JSON form.
    pub queries: Members,
}

/// A query that came alone, as a poll returns it.
#[derive(Debug, Drop)]
pub struct QueryPoll {
    /// The Task Token with which it is answered.
    pub token: Text,
    /// The whole response to the poll.
    pub result: Value,
}

/// What a response to `PollWorkflowTaskQueue` means.
#[derive(Debug, Drop)]
pub enum WorkflowPoll {
    /// There was no task.
    Nothing,
    /// A task.
    Task(PolledTask),
    /// A query that came alone.
    Query(QueryPoll),
    /// A malformed task.
    Unreadable,
}

/// An activity task, as a poll returns it.
#[derive(Debug, Drop)]
pub struct PolledActivity {
    /// The Task Token with which it is answered.
    pub token: Text,
    /// The run that scheduled the activity.
    pub run: RunKey,
    /// The id of the activity in its run.
    pub id: Text,
    /// The type of the activity.
    pub activity: Text,
    /// The input of the activity.
    pub input: Items<Payload>,
    /// Which attempt it is, the details of an earlier one, and the times of the task.
    pub info: ActivityInfo,
}

/// What a response to `PollActivityTaskQueue` means.
#[derive(Debug, Drop)]
pub enum ActivityPoll {
    /// There was no task.
    Nothing,
    /// A task.
    Task(PolledActivity),
    /// A malformed task.
    Unreadable,
}

/// Returns a value as a text, empty if it is missing; `None` if it is not a string.
fn text_or_empty<'v>(value: Option<&'v Value>) -> Option<&'v str>
    ensures { option_map (λ text. text.now) result
        ≡ text_or_empty (option_map (λ v. view v.now) value.entry) }
{
    match value {
        Some(value) => value.as_str(),
        None => Some(""),
    }
}

/// Copies a value as a text. `None` if it is not a string, or is empty. `OutOfMemory` if there was
/// no memory for it.
pub fn required_text(alloc: Global, value: Option<&Value>) -> Result<Option<Text>, OutOfMemory>
    ensures { IfOk result (λ text. text ≡ spec.needed (option_map (λ v. view v.now) value.entry)) }
{
    let text = text_of(value);
    if text.is_empty() {
        return Ok(None);
    }
    Ok(Some(Text::new(String::from_str(alloc, text)?)))
}

/// Reads the run of a task. `None` if one of its ids is missing. `OutOfMemory` if there was no
/// memory for them.
#[tactic(auto, unfolding(crate::specs::Responses::run_in))]
pub fn run_in(alloc: Global, value: Option<&Value>) -> Result<Option<RunKey>, OutOfMemory>
    ensures { IfOk result (λ run. run ≡ spec.run_in (option_map (λ v. view v.now) value.entry)) }
{
    let Some(workflow_id) = required_text(alloc, field(value, "workflowId"))? else {
        return Ok(None);
    };
    let Some(run_id) = required_text(alloc, field(value, "runId"))? else {
        return Ok(None);
    };
    Ok(Some(RunKey {
        workflow_id,
        run_id,
    }))
}

/// Returns the member of a name.
fn take_member(value: Value, name: &str) -> Option<Value>
    ensures { option_map view result ≡ get name.now (view value) }
{
    match value {
        Value::Object(mut members) => members.remove(name),
        _ => None,
    }
}

/// Returns the value, unless it is null.
fn unless_null(value: Option<Value>) -> Option<Value>
    ensures { option_map view result ≡ unless_null (option_map view value) }
{
    let value = value?;
    if value.is_null() {
        drop(value);
        return None;
    }
    Some(value)
}

/// Returns the member of a name. A member that is null counts as missing.
#[tactic(auto, unfolding(wh_json::specs::Fields::field))]
fn take_present(value: Option<Value>, name: &str) -> Option<Value>
    ensures { option_map view result ≡ field name.now (option_map view value) }
{
    unless_null(take_member(value?, name))
}

/// Returns the members of a list.
#[tactic(auto, unfolding(wh_json::specs::Fields::list_in))]
fn into_list(value: Value) -> Option<Vec<Value>>
    ensures { option_map (λ values. map view values.items) result ≡ list_in (view value) }
{
    match value {
        Value::Array(values) => Some(values),
        _ => None,
    }
}

/// Returns the members of a list, none if it is missing.
fn list_or_empty(alloc: Global, value: Option<Value>) -> Option<Vec<Value>>
    ensures { option_map (λ values. map view values.items) result ≡ spec.list_or_empty (option_map view value) }
{
    match value {
        None => Some(Vec::new(alloc)),
        Some(value) => into_list(value),
    }
}

/// Returns the members of the history's list of events, none if it is missing.
fn events_in(alloc: Global, value: Value) -> Option<Vec<Value>>
    ensures { option_map (λ events. map view events.items) result ≡ spec.events_in (view value) }
{
    let history = take_present(Some(value), "history");
    list_or_empty(alloc, take_present(history, "events"))
}

/// Reads a page of events and the token of the next one.
#[tactic(auto, unfolding(crate::specs::Responses::page_in))]
fn page_in(alloc: Global, value: Value) -> Result<Option<HistoryPage>, OutOfMemory>
    ensures { IfOk result (λ page. option_map page_seen page ≡ spec.page_in (view value)) }
{
    let Some(next_page) = text_or_empty(field(Some(&value), "nextPageToken")) else {
        return Ok(None);
    };
    let next_page = Text::new(String::from_str(alloc, next_page)?);
    let Some(members) = events_in(alloc, value) else {
        return Ok(None);
    };
    Ok(Some(HistoryPage { members, next_page }))
}

/// Reads a response to `GetWorkflowExecutionHistory`: a page of the history, which may be empty.
/// Its events are those of the response, not copies. `None` if the events are not a list or the
/// token is not a string. `OutOfMemory` if there was no memory for the token.
pub fn history_page(alloc: Global, value: Value) -> Result<Option<HistoryPage>, OutOfMemory>
    ensures { IfOk result (λ page. option_map page_seen page ≡ spec.page_in (view value)) }
{
    page_in(alloc, value)
}

/// Returns a value as a number, 1 if it is missing.
fn number_or_one(value: Option<&Value>) -> Option<u64>
    ensures { result ≡ spec.number_or_one (option_map (λ v. view v.now) value.entry) }
{
    match value {
        None => Some(1),
        Some(value) => number_of(value),
    }
}

/// Returns the members of an object.
fn into_members(value: Value) -> Option<Members>
    ensures { option_map (λ members. members_view members.entries) result ≡ as_object (view value) }
{
    match value {
        Value::Object(members) => Some(members),
        _ => None,
    }
}

/// Copies the members of an object, none if it is missing.
fn copied_members(alloc: Global, value: Option<&Value>) -> Result<Option<Members>, OutOfMemory>
    ensures { IfOk result (λ copied. option_map (λ members. members_view members.entries) copied
        ≡ spec.members_or_none (option_map (λ v. view v.now) value.entry)) }
{
    match value {
        None => Ok(Some(Map::new(alloc))),
        Some(value) => Ok(into_members(value.clone()?)),
    }
}

/// Copies the Task Token, empty if it is missing.
fn token_in(alloc: Global, value: &Value) -> Result<Option<Text>, OutOfMemory>
    ensures { IfOk result (λ token. token ≡ spec.token_in (view value.now)) }
{
    let Some(token) = text_or_empty(field(Some(value), "taskToken")) else {
        return Ok(None);
    };
    Ok(Some(Text::new(String::from_str(alloc, token)?)))
}

/// Reads the workflow task of a token.
#[tactic(auto, unfolding(crate::specs::Responses::task_in))]
fn task_in(alloc: Global, token: Text, value: Value) -> Result<Option<PolledTask>, OutOfMemory>
    ensures { IfOk result (λ task. option_map task_seen task ≡ spec.task_in token (view value)) }
{
    let Some(attempt) = number_or_one(field(Some(&value), "attempt")) else {
        return Ok(None);
    };
    let Some(run) = run_in(alloc, field(Some(&value), "workflowExecution"))? else {
        return Ok(None);
    };
    let Some(queries) = copied_members(alloc, field(Some(&value), "queries"))? else {
        return Ok(None);
    };
    let Some(page) = page_in(alloc, value)? else {
        return Ok(None);
    };
    Ok(Some(PolledTask {
        token,
        run,
        attempt,
        members: page.members,
        next_page: page.next_page,
        queries,
    }))
}

/// Reads a response to `PollWorkflowTaskQueue`. Without a token it is an empty poll, otherwise a
/// query that came alone, or a task. The events of the task are those of the response, not copies.
/// A task without the ids of its run, or with a malformed field, is `Unreadable`. `OutOfMemory` if
/// there was no memory for its texts.
pub fn workflow_poll(alloc: Global, value: Value) -> Result<WorkflowPoll, OutOfMemory>
    ensures { IfOk result (λ poll. poll_seen poll ≡ spec.workflow_poll (view value)) }
{
    let Some(token) = token_in(alloc, &value)? else {
        return Ok(WorkflowPoll::Unreadable);
    };
    if token.get().is_empty() {
        return Ok(WorkflowPoll::Nothing);
    }
    if field(Some(&value), "query").is_some() {
        return Ok(WorkflowPoll::Query(QueryPoll {
            token,
            result: value,
        }));
    }
    match task_in(alloc, token, value)? {
        Some(task) => Ok(WorkflowPoll::Task(task)),
        None => Ok(WorkflowPoll::Unreadable),
    }
}

/// Reads payloads, none if they are missing.
fn payloads_in(alloc: Global, value: Option<&Value>) -> Result<Option<Items<Payload>>, OutOfMemory>
    ensures { IfOk result (λ payloads. payloads
        ≡ result_ok (payloads_at 0 (option_map (λ v. view v.now) value.entry))) }
{
    match payloads_at(alloc, 0, value) {
        Ok(payloads) => Ok(Some(Items::new(payloads))),
        Err(ReadFault::OutOfMemory) => Err(OutOfMemory),
        Err(_) => Ok(None),
    }
}

/// Reads the type of an activity.
#[tactic(auto, unfolding(crate::specs::Responses::activity_type))]
fn activity_type(alloc: Global, value: &Value) -> Result<Option<Text>, OutOfMemory>
    ensures { IfOk result (λ activity. activity ≡ spec.activity_type (view value.now)) }
{
    let named = field(Some(value), "activityType");
    required_text(alloc, field(named, "name"))
}

/// Returns the number of an attempt, 1 if it is missing or 0.
fn attempt_in(value: Option<&Value>) -> Option<u64>
    ensures { result ≡ spec.attempt_in (option_map (λ v. view v.now) value.entry) }
{
    Some(u64::max(number_or_one(value)?, 1))
}

/// Reads the details of a heartbeat, if there are any. The outer `None` stands for malformed ones.
fn details_in(
    alloc: Global,
    value: Option<&Value>,
) -> Result<Option<Option<Items<Payload>>>, OutOfMemory>
    ensures { IfOk result (λ details. details ≡ spec.details_in (option_map (λ v. view v.now) value.entry)) }
{
    let Some(value) = value else {
        return Ok(Some(None));
    };
    match payloads_in(alloc, Some(value))? {
        Some(details) => Ok(Some(Some(details))),
        None => Ok(None),
    }
}

/// Reads what a response says of an activity task beside what is to be done.
#[tactic(auto, unfolding(crate::specs::Responses::info_in))]
fn info_in(alloc: Global, value: &Value) -> Result<Option<ActivityInfo>, OutOfMemory>
    ensures { IfOk result (λ info. info ≡ spec.info_in (view value.now)) }
{
    let Some(attempt) = attempt_in(field(Some(value), "attempt")) else {
        return Ok(None);
    };
    let Some(heartbeat_details) = details_in(alloc, field(Some(value), "heartbeatDetails"))? else {
        return Ok(None);
    };
    Ok(Some(ActivityInfo {
        attempt,
        heartbeat_details,
        times: times_in(value),
    }))
}

/// Reads the activity task of a token.
#[tactic(auto, unfolding(crate::specs::Responses::activity_in))]
fn activity_in(
    alloc: Global,
    token: Text,
    value: &Value,
) -> Result<Option<PolledActivity>, OutOfMemory>
    ensures { IfOk result (λ task. task ≡ spec.activity_in token (view value.now)) }
{
    let Some(run) = run_in(alloc, field(Some(value), "workflowExecution"))? else {
        return Ok(None);
    };
    let Some(id) = required_text(alloc, field(Some(value), "activityId"))? else {
        return Ok(None);
    };
    let Some(activity) = activity_type(alloc, value)? else {
        return Ok(None);
    };
    let Some(input) = payloads_in(alloc, field(Some(value), "input"))? else {
        return Ok(None);
    };
    let Some(info) = info_in(alloc, value)? else {
        return Ok(None);
    };
    Ok(Some(PolledActivity {
        token,
        run,
        id,
        activity,
        input,
        info,
    }))
}

/// Reads a response to `PollActivityTaskQueue`. Without a token it is an empty poll, otherwise a
/// task. A task without the ids of its run and of its activity, without a type, or with a malformed
/// field, is `Unreadable`. `OutOfMemory` if there was no memory for its texts and payloads.
pub fn activity_poll(alloc: Global, value: &Value) -> Result<ActivityPoll, OutOfMemory>
    ensures { IfOk result (λ poll. poll ≡ spec.activity_poll (view value.now)) }
{
    let Some(token) = token_in(alloc, value)? else {
        return Ok(ActivityPoll::Unreadable);
    };
    if token.get().is_empty() {
        return Ok(ActivityPoll::Nothing);
    }
    match activity_in(alloc, token, value)? {
        Some(task) => Ok(ActivityPoll::Task(task)),
        None => Ok(ActivityPoll::Unreadable),
    }
}
