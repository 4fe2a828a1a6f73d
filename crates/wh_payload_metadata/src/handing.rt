//! Hands metadata and a header on with a request.

ghost use Rattle.std.specs.Prelude.{◌≡◌, IfOk, Some, option_map};
ghost use Rattle.serde_json.specs.View.{view, items_view, members_view};
ghost use Rattle.serde_json.specs.Find.{get_member};
ghost use Rattle.wh_payload_metadata.specs.Handed.{of_encoding, metadata_for, with_member, with_metadata};
ghost use Rattle.wh_payload_metadata.specs.Handed.{each_with_metadata, list_with_metadata, takes_header, with_header};
ghost use Rattle.wh_payload_metadata.specs.Handed.{handed_on, items_handed_on, members_handed_on};

use crate::payload::{data_of, encoding_in, is_payloads, metadata_of};
use serde_json::{Map, Value, put};
use std::alloc::{AllocError, Global};

/// The metadata, if they name this encoding.
fn of_encoding<'v>(encoding: &str, metadata: Option<&'v Value>) -> Option<&'v Value>
    ensures { option_map (λ v. view v.now) result
        ≡ of_encoding encoding.now (option_map (λ v. view v.now) metadata.entry) }
{
    match metadata {
        Some(metadata) if encoding_in(Some(metadata)) == encoding => Some(metadata),
        _ => None,
    }
}

/// The metadata that were seen last at the data of a payload, if they name its encoding.
fn metadata_for<'v>(seen: &'v Map<String, Value>, payload: &Value) -> Option<&'v Value>
    ensures { option_map (λ v. view v.now) result
        ≡ metadata_for (members_view seen.now.entries) (view payload.now) }
{
    let encoding = encoding_in(metadata_of(payload));
    of_encoding(encoding, member_of(seen, data_of(payload)))
}

/// The member of this name.
fn member_of<'v>(members: &'v Map<String, Value>, name: &str) -> Option<&'v Value>
    ensures { option_map (λ v. view v.now) result
        ≡ get_member name.now (members_view members.now.entries) }
{
    members.get(name)
}

/// The value with this member, if it is an object.
fn with_member(alloc: Global, name: &str, member: &Value, value: Value) -> Result<Value, AllocError>
    ensures { IfOk result (λ v. view v ≡ with_member name.now (Some (view member.now)) (view value)) }
{
    match value {
        Value::Object(mut members) => {
            let copy = member.clone()?;
            put(&mut members, alloc, name, copy)?;
            Ok(Value::Object(members))
        }
        Value::Array(items) => Ok(Value::Array(items)),
        Value::Null => Ok(Value::Null),
        Value::Bool(b) => Ok(Value::Bool(b)),
        Value::Number(n) => Ok(Value::Number(n)),
        Value::String(text) => Ok(Value::String(text)),
    }
}

/// A payload with the metadata that were seen.
fn with_metadata(
    alloc: Global,
    seen: &Map<String, Value>,
    payload: &Value,
) -> Result<Value, AllocError>
    ensures { IfOk result (λ v. view v ≡ with_metadata (members_view seen.now.entries) (view payload.now)) }
{
    let copy = payload.clone()?;
    match metadata_for(seen, payload) {
        Some(metadata) => with_member(alloc, "metadata", metadata, copy),
        None => Ok(copy),
    }
}

/// The payloads with the metadata that were seen.
fn each_with_metadata(
    alloc: Global,
    seen: &Map<String, Value>,
    payloads: &Vec<Value>,
) -> Result<Vec<Value>, AllocError>
    ensures { IfOk result (λ v. items_view v.items
        ≡ each_with_metadata (members_view seen.now.entries) (items_view payloads.now.items)) }
{
    let mut handed = Vec::with_capacity(alloc, payloads.len())?;
    for payload in payloads {
        handed.push(with_metadata(alloc, seen, payload)?)?;
    }
    Ok(handed)
}

/// A list of payloads with the metadata that were seen.
fn list_with_metadata(
    alloc: Global,
    seen: &Map<String, Value>,
    value: &Value,
) -> Result<Value, AllocError>
    ensures { IfOk result (λ v. view v ≡ list_with_metadata (members_view seen.now.entries) (view value.now)) }
{
    match value.as_array() {
        Some(payloads) => Ok(Value::Array(each_with_metadata(alloc, seen, payloads)?)),
        None => value.clone(),
    }
}

/// Whether a member of this name takes the header: the attributes of a command that schedules an
/// activity or starts a child.
fn takes_header(name: &str) -> bool
    ensures { result ≡ takes_header name.now }
{
    name == "scheduleActivityTaskCommandAttributes"
        || name == "startChildWorkflowExecutionCommandAttributes"
}

/// The value of a member, with the header if its name is one that takes it.
fn with_header(
    alloc: Global,
    header: Option<&Value>,
    name: &str,
    value: Value,
) -> Result<Value, AllocError>
    ensures { IfOk result (λ v. view v
        ≡ with_header (option_map (λ h. view h.now) header.entry) name.now (view value)) }
{
    match header {
        Some(header) if takes_header(name) => with_member(alloc, "header", header, value),
        _ => Ok(value),
    }
}

/// A value in which each payload has the metadata that were seen, and each command that takes it
/// has the header.
#[cycle(hand_on)]
pub(crate) fn hand_on(
    alloc: Global,
    seen: &Map<String, Value>,
    header: Option<&Value>,
    value: &Value,
) -> Result<Value, AllocError>
    ensures { IfOk result (λ v. view v
        ≡ handed_on (members_view seen.now.entries) (option_map (λ h. view h.now) header.entry)
        (view value.now)) }
{
    match value {
        Value::Array(items) => Ok(Value::Array(hand_items_on(alloc, seen, header, items)?)),
        Value::Object(members) => {
            Ok(Value::Object(hand_members_on(alloc, seen, header, members)?))
        }
        Value::Null => Ok(Value::Null),
        Value::Bool(b) => Ok(Value::Bool(*b)),
        Value::Number(n) => Ok(Value::Number(*n)),
        Value::String(text) => Ok(Value::String(text.clone()?)),
    }
}

#[cycle(hand_on)]
fn hand_items_on(
    alloc: Global,
    seen: &Map<String, Value>,
    header: Option<&Value>,
    items: &Vec<Value>,
) -> Result<Vec<Value>, AllocError>
    ensures { IfOk result (λ v. items_view v.items
        ≡ items_handed_on (members_view seen.now.entries) (option_map (λ h. view h.now) header.entry)
        (items_view items.now.items)) }
{
    let mut handed = Vec::with_capacity(alloc, items.len())?;
    for item in items {
        handed.push(hand_on(alloc, seen, header, item)?)?;
    }
    Ok(handed)
}

#[cycle(hand_on)]
fn hand_members_on(
    alloc: Global,
    seen: &Map<String, Value>,
    header: Option<&Value>,
    members: &Map<String, Value>,
) -> Result<Map<String, Value>, AllocError>
    ensures { IfOk result (λ m. members_view m.entries
        ≡ members_handed_on (members_view seen.now.entries) (option_map (λ h. view h.now) header.entry)
        (members_view members.now.entries)) }
{
    let mut handed = Map::new(alloc);
    for (name, value) in members.iter() {
        let copy = name.clone()?;
        let member = if is_payloads(name.as_str()) {
            list_with_metadata(alloc, seen, value)?
        } else {
            let plain = hand_on(alloc, seen, header, value)?;
            with_header(alloc, header, name.as_str(), plain)?
        };
        drop(handed.insert(copy, member)?);
    }
    Ok(handed)
}
