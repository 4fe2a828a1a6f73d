//! Notes the metadata of the payloads of a value.

ghost use Rattle.std.specs.Prelude.{◌≡◌, OnErr, OnOk, Some};
ghost use Rattle.serde_json.specs.View.{view, items_view, members_view};
ghost use Rattle.wh_json.specs.Fields.{list_of};
ghost use Rattle.wh_payload_metadata.specs.Payloads.{payloads_in, payloads_of, payloads_of_items, payloads_of_members};
ghost use Rattle.wh_payload_metadata.specs.Seen.{noted, noted_metadata, all_noted, AreNotedFirst};

use crate::payload::{data_of, have_more, is_payloads, metadata_of};
use serde_json::{Map, Value, put};
use std::alloc::{AllocError, Global};

/// Notes metadata under the data of their payload, if they have more than an encoding. After an
/// error all is as it was.
fn note_metadata(
    alloc: Global,
    seen: &mut Map<String, Value>,
    data: &str,
    metadata: &Value,
) -> Result<(), AllocError>
    ensures noted { OnOk result (members_view seen.new.entries
        ≡ noted_metadata data.now (Some (view metadata.now)) (members_view seen.old.entries)) }
    ensures unnoted { OnErr result (seen.new.entries ≡ seen.old.entries) }
{
    if !have_more(metadata) {
        return Ok(());
    }
    let copy = metadata.clone()?;
    put(seen, alloc, data, copy)
}

/// Notes a payload. After an error all is as it was.
fn note_payload(
    alloc: Global,
    seen: &mut Map<String, Value>,
    payload: &Value,
) -> Result<(), AllocError>
    ensures noted { OnOk result (members_view seen.new.entries
        ≡ noted (view payload.now) (members_view seen.old.entries)) }
    ensures unnoted { OnErr result (seen.new.entries ≡ seen.old.entries) }
{
    match metadata_of(payload) {
        Some(metadata) => note_metadata(alloc, seen, data_of(payload), metadata),
        None => Ok(()),
    }
}

/// Notes the payloads of a list. After an error some were noted, from the first one on.
fn note_list(
    alloc: Global,
    seen: &mut Map<String, Value>,
    payloads: &Vec<Value>,
) -> Result<(), AllocError>
    ensures noted { OnOk result (members_view seen.new.entries
        ≡ all_noted (list_of (items_view payloads.now.items)) (members_view seen.old.entries)) }
    ensures some { OnErr result (AreNotedFirst (list_of (items_view payloads.now.items))
        (members_view seen.old.entries) (members_view seen.new.entries)) }
{
    for payload in payloads {
        note_payload(alloc, seen, payload)?;
    }
    Ok(())
}

/// Notes the payloads of what is a list of them, if it is a list. After an error some were noted,
/// from the first one on.
fn note_payloads(
    alloc: Global,
    seen: &mut Map<String, Value>,
    value: &Value,
) -> Result<(), AllocError>
    ensures noted { OnOk result (members_view seen.new.entries
        ≡ all_noted (payloads_in (view value.now)) (members_view seen.old.entries)) }
    ensures some { OnErr result (AreNotedFirst (payloads_in (view value.now))
        (members_view seen.old.entries) (members_view seen.new.entries)) }
{
    match value.as_array() {
        Some(payloads) => note_list(alloc, seen, payloads),
        None => Ok(()),
    }
}

/// Notes all payloads of a value. After an error some were noted, from the first one on.
#[cycle(note)]
pub(crate) fn note(
    alloc: Global,
    seen: &mut Map<String, Value>,
    value: &Value,
) -> Result<(), AllocError>
    ensures noted { OnOk result (members_view seen.new.entries
        ≡ all_noted (payloads_of (view value.now)) (members_view seen.old.entries)) }
    ensures some { OnErr result (AreNotedFirst (payloads_of (view value.now))
        (members_view seen.old.entries) (members_view seen.new.entries)) }
{
    match value {
        Value::Array(items) => note_items(alloc, seen, items),
        Value::Object(members) => note_members(alloc, seen, members),
        Value::Null => Ok(()),
        Value::Bool(_) => Ok(()),
        Value::Number(_) => Ok(()),
        Value::String(_) => Ok(()),
    }
}

#[cycle(note)]
fn note_items(
    alloc: Global,
    seen: &mut Map<String, Value>,
    items: &Vec<Value>,
) -> Result<(), AllocError>
    ensures noted { OnOk result (members_view seen.new.entries
        ≡ all_noted (payloads_of_items (items_view items.now.items)) (members_view seen.old.entries)) }
    ensures some { OnErr result (AreNotedFirst (payloads_of_items (items_view items.now.items))
        (members_view seen.old.entries) (members_view seen.new.entries)) }
{
    for item in items {
        note(alloc, seen, item)?;
    }
    Ok(())
}

#[cycle(note)]
fn note_members(
    alloc: Global,
    seen: &mut Map<String, Value>,
    members: &Map<String, Value>,
) -> Result<(), AllocError>
    ensures noted { OnOk result (members_view seen.new.entries
        ≡ all_noted (payloads_of_members (members_view members.now.entries)) (members_view seen.old.entries)) }
    ensures some { OnErr result (AreNotedFirst (payloads_of_members (members_view members.now.entries))
        (members_view seen.old.entries) (members_view seen.new.entries)) }
{
    for (name, value) in members.iter() {
        if is_payloads(name.as_str()) {
            note_payloads(alloc, seen, value)?;
        } else {
            note(alloc, seen, value)?;
        }
    }
    Ok(())
}
