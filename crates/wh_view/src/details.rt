//! Reads from the JSON of an event what replay does not need.

ghost use Rattle.std.specs.Prelude.{◌≡◌, [], ◌∷◌, Some, codes, option_map, option_and_then, IfOk, map};
ghost use Rattle.serde_json.specs.View.{view};
ghost use Rattle.serde_json.specs.Find.{as_object};
ghost use Rattle.wh_view.specs.Details.{IsJsonOf, IsValueOf, AreMembersOr, ArePayloadsOr, AreValuesOf, AreValuesIn};
ghost use Rattle.wh_json.specs.Fields.{field, list_in};
ghost use Rattle.wh_view.specs.Details.{attempt_of, first_text, message_of, failure_of, duration_of};
ghost use Rattle.wh_view.specs.Values.{changes_of, outcome_or_changes, update_values, values_of};
ghost use Rattle.wh_markers.specs.Payloads.{payload_list};
ghost use Rattle.wh_view.specs.EventDetails.{task_event, details_of};
ghost use Rattle.wh_view.specs.Each.{Each};

use crate::attributes::{copy_inner, inner};
use crate::failures::{ending_of, failures_of};
use crate::members::member_texts;
use crate::updates::{arguments_in, update_of};
use crate::view::EventDetails;
use serde_json::Value;
use std::alloc::Global;
use wh_events::{Items, OutOfMemory, Text};
use wh_json::{field, list_in, number_of, text_of};
use wh_markers::{marker_of, payload_list, payload_text};

/// Returns the attempt in an event's attributes, 0 if they have none.
pub(crate) fn attempt_of(attributes: Option<&Value>) -> u64
    ensures { result ≡ attempt_of (option_map (λ v. view v.now) attributes.entry) }
{
    match field(attributes, "attempt") {
        Some(value) => number_of(value).unwrap_or(0),
        None => 0,
    }
}

/// Returns the text, or the other one if it is empty.
#[tactic(auto, unfolding(crate::specs::Details::first_text))]
pub(crate) fn first_text<'v>(text: &'v str, other: &'v str) -> &'v str
    ensures { result.now ≡ first_text text.now other.now }
{
    if text.is_empty() { other } else { text }
}

/// Returns the message of the failure under a member's name.
fn message_of<'v>(attributes: Option<&'v Value>, name: &str) -> &'v str
    ensures { result.now ≡ message_of (option_map (λ v. view v.now) attributes.entry) name.now }
{
    text_of(field(field(attributes, name), "message"))
}

/// Returns why something failed, as far as the attributes say it.
pub(crate) fn failure_of<'v>(attributes: Option<&'v Value>) -> &'v str
    ensures { result.now ≡ failure_of (option_map (λ v. view v.now) attributes.entry) }
{
    let message = message_of(attributes, "failure");
    let last = message_of(attributes, "lastFailure");
    let reason = text_of(field(attributes, "reason"));
    let cause = text_of(field(attributes, "cause"));
    first_text(message, first_text(last, first_text(reason, cause)))
}

/// Returns the duration of a timer.
pub(crate) fn duration_of<'v>(attributes: Option<&'v Value>) -> &'v str
    ensures { result.now ≡ duration_of (option_map (λ v. view v.now) attributes.entry) }
{
    text_of(field(attributes, "startToFireTimeout"))
}

/// Returns the member that holds the search attributes or the memo that an event changes.
fn changes_of<'v>(attributes: Option<&'v Value>) -> Option<&'v Value>
    ensures { option_map (λ v. view v.now) result ≡ changes_of (option_map (λ v. view v.now) attributes.entry) }
{
    match inner(attributes, "searchAttributes", "indexedFields") {
        Some(value) => Some(value),
        None => inner(attributes, "upsertedMemo", "fields"),
    }
}

/// Returns the member that holds the result of an update, or else what an event changes.
fn outcome_or_changes<'v>(attributes: Option<&'v Value>) -> Option<&'v Value>
    ensures { option_map (λ v. view v.now) result
        ≡ outcome_or_changes (option_map (λ v. view v.now) attributes.entry) }
{
    match inner(attributes, "outcome", "success") {
        Some(value) => Some(value),
        None => changes_of(attributes),
    }
}

/// Returns the member that holds the arguments or the result of an update, or else what an event
/// changes.
fn update_values<'v>(attributes: Option<&'v Value>) -> Option<&'v Value>
    ensures { option_map (λ v. view v.now) result ≡ update_values (option_map (λ v. view v.now) attributes.entry) }
{
    match arguments_in(attributes) {
        Some(value) => Some(value),
        None => outcome_or_changes(attributes),
    }
}

/// Returns the member that holds the values of an event.
pub(crate) fn values_of<'v>(attributes: Option<&'v Value>) -> Option<&'v Value>
    ensures { option_map (λ v. view v.now) result ≡ values_of (option_map (λ v. view v.now) attributes.entry) }
{
    match field(attributes, "input") {
        Some(value) => Some(value),
        None => match field(attributes, "result") {
            Some(value) => Some(value),
            None => match field(attributes, "details") {
                Some(value) => Some(value),
                None => update_values(attributes),
            },
        },
    }
}

/// Returns a value as JSON.
pub(crate) fn json_of(alloc: Global, value: &Value) -> Result<Text, OutOfMemory>
    ensures { IfOk result (λ text. IsJsonOf (view value.now) text) }
{
    Ok(Text::new(value.to_string(alloc)?))
}

/// Returns a value as text: a payload as `payload_text` has it, or else the value as JSON.
pub(crate) fn value_text(alloc: Global, shorthand: bool, value: &Value) -> Result<Text, OutOfMemory>
    ensures { IfOk result (λ text. IsValueOf shorthand (view value.now) text) }
{
    if !shorthand {
        if let Some(text) = payload_text(alloc, value)? {
            return Ok(text);
        }
    }
    json_of(alloc, value)
}

/// Returns each of the values as text.
pub(crate) fn value_texts(
    alloc: Global,
    shorthand: bool,
    values: &[Value],
) -> Result<Vec<Text>, OutOfMemory>
    ensures { IfOk result (λ texts. Each (λ _. IsValueOf shorthand) 0 (map view values.now) texts.items) }
{
    let mut texts = Vec::new(alloc);
    for value in values {
        let text = value_text(alloc, shorthand, value)?;
        texts.push(text)?;
    }
    Ok(texts)
}

/// Returns a list of one value, as text.
fn lone_text(alloc: Global, value: &Value) -> Result<Vec<Text>, OutOfMemory>
    ensures { IfOk result (λ texts. Each (λ _. IsJsonOf) 0 (view value.now ∷ []) texts.items) }
{
    let text = json_of(alloc, value)?;
    let mut texts = Vec::new(alloc);
    texts.push(text)?;
    Ok(texts)
}

/// Returns the members of an object as texts; a value that is none is returned itself.
fn members_in(alloc: Global, value: &Value) -> Result<Vec<Text>, OutOfMemory>
    ensures { IfOk result (λ texts. AreMembersOr (as_object (view value.now)) (view value.now) texts.items) }
{
    match value.as_object() {
        Some(members) => member_texts(alloc, members),
        None => lone_text(alloc, value),
    }
}

/// Returns the payloads that a value holds, as texts; if it has no list of them, its members.
fn payloads_in(alloc: Global, value: &Value) -> Result<Vec<Text>, OutOfMemory>
    ensures { IfOk result (λ texts. ArePayloadsOr (payload_list (view value.now)) (view value.now) texts.items) }
{
    match payload_list(value) {
        Some(values) => value_texts(alloc, false, values),
        None => members_in(alloc, value),
    }
}

/// Returns the values that a value holds, as texts: the items of a list, or of the list `payloads`
/// of an object, or the members of an object that has none; a value of another form is returned
/// itself.
fn values_in(alloc: Global, value: &Value) -> Result<Vec<Text>, OutOfMemory>
    ensures { IfOk result (λ texts. AreValuesIn (view value.now) texts.items) }
{
    match list_in(value) {
        Some(values) => value_texts(alloc, true, values),
        None => payloads_in(alloc, value),
    }
}

/// Returns the values of an event from its attributes, as texts.
pub(crate) fn payload_texts(
    alloc: Global,
    attributes: Option<&Value>,
) -> Result<Vec<Text>, OutOfMemory>
    ensures { IfOk result (λ texts.
        AreValuesOf (values_of (option_map (λ v. view v.now) attributes.entry)) texts.items) }
{
    match values_of(attributes) {
        Some(value) => values_in(alloc, value),
        None => Ok(Vec::new(alloc)),
    }
}

/// Returns the number of the event that completed the task in which the workflow gave an event; 0
/// if its attributes name none.
fn task_event(attributes: Option<&Value>) -> u64
    ensures { result ≡ task_event (option_map (λ v. view v.now) attributes.entry) }
{
    match field(attributes, "workflowTaskCompletedEventId") {
        Some(value) => number_of(value).unwrap_or(0),
        None => 0,
    }
}

/// Returns what else the attributes of an event say.
pub(crate) fn details_of(
    alloc: Global,
    attributes: Option<&Value>,
) -> Result<EventDetails, OutOfMemory>
    ensures { IfOk result (λ details. details ≡ details_of (option_map (λ v. view v.now) attributes.entry)) }
{
    let update = update_of(alloc, attributes)?;
    let failures = Items::new(failures_of(alloc, attributes)?);
    let ending = ending_of(alloc, attributes)?;
    let marker = marker_of(alloc, attributes)?;
    let execution_run_id = copy_inner(alloc, attributes, "workflowExecution", "runId")?;
    Ok(EventDetails {
        task_event: task_event(attributes),
        update,
        failures,
        ending,
        marker,
        execution_run_id,
    })
}
