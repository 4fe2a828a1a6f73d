//! Reads objects whose members are payloads, such as the details of a marker.

ghost use Rattle.std.specs.Prelude.{◌≡◌, ◌∷◌, ◌++◌, [], false, codes, IfOk, OnOk, string_bytes};
ghost use Rattle.std.specs.List.{flat_map};
ghost use Rattle.serde_json.specs.View.{view, members_view};
ghost use Rattle.wh_json.specs.Fields.{list_in};
ghost use Rattle.wh_view.specs.Details.{IsValueOf, AreTheirs, AreNamedOr, IsNamedText, AreMembers};
ghost use Rattle.wh_markers.specs.Payloads.{payload_list};
ghost use Rattle.wh_view.specs.Details.{named_text};
ghost use Rattle.wh_view.specs.Each.{Each};

use crate::details::{value_text, value_texts};
use serde_json::{Map, Value};
use std::alloc::{AllocError, Global};
use wh_events::{OutOfMemory, Text};
use wh_json::list_in;
use wh_markers::payload_list;

/// Returns a list of one payload, as text.
fn lone_payload(alloc: Global, value: &Value) -> Result<Vec<Text>, OutOfMemory>
    ensures { IfOk result (λ texts. Each (λ _. IsValueOf false) 0 (view value.now ∷ []) texts.items) }
{
    let text = value_text(alloc, false, value)?;
    let mut texts = Vec::new(alloc);
    texts.push(text)?;
    Ok(texts)
}

/// Returns the payloads that a value under a name holds, as texts.
fn payloads_under(alloc: Global, value: &Value) -> Result<Vec<Text>, OutOfMemory>
    ensures { IfOk result (λ texts. AreTheirs (payload_list (view value.now)) (view value.now) texts.items) }
{
    match payload_list(value) {
        Some(values) => value_texts(alloc, false, values),
        None => lone_payload(alloc, value),
    }
}

/// Returns the values under a name, as texts.
fn values_under(alloc: Global, value: &Value) -> Result<Vec<Text>, OutOfMemory>
    ensures { IfOk result (λ texts. AreNamedOr (list_in (view value.now)) (view value.now) texts.items) }
{
    match list_in(value) {
        Some(values) => value_texts(alloc, true, values),
        None => payloads_under(alloc, value),
    }
}

/// Adds each value after a space.
fn push_values(text: &mut String, values: &[Text]) -> Result<(), AllocError>
    ensures { OnOk result (string_bytes text.new
        ≡ string_bytes text.old ++ flat_map (λ value. codes " " ++ value) values.now) }
{
    for value in values {
        text.push_str(" ")?;
        text.push_str(value.get())?;
    }
    Ok(())
}

/// Returns a name, and each value after it.
fn named_text(alloc: Global, name: &str, values: &[Text]) -> Result<Text, OutOfMemory>
    ensures { IfOk result (λ text. text ≡ named_text name.now values.now) }
{
    let mut text = String::from_str(alloc, name)?;
    push_values(&mut text, values)?;
    Ok(Text::new(text))
}

/// Returns a name and the values under it.
fn member_text(alloc: Global, name: &str, value: &Value) -> Result<Text, OutOfMemory>
    ensures { IfOk result (IsNamedText name.now (view value.now)) }
{
    let values = values_under(alloc, value)?;
    named_text(alloc, name, values.as_slice())
}

/// Returns the members of an object as texts, each with its name.
pub(crate) fn member_texts(
    alloc: Global,
    members: &Map<String, Value>,
) -> Result<Vec<Text>, OutOfMemory>
    ensures { IfOk result (λ texts. AreMembers (members_view members.now.entries) texts.items) }
{
    let mut texts = Vec::new(alloc);
    for (name, value) in members.iter() {
        let text = member_text(alloc, name.as_str(), value)?;
        texts.push(text)?;
    }
    Ok(texts)
}
