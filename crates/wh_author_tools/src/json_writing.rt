//! Writes values as payloads.

ghost use Rattle.std.specs.Prelude.{◌≡◌, ◌∷◌, [], ◌≤◌, false, Some, IfOk};
ghost use Rattle.serde_json.specs.Data.{boolean, depth, number, string};
ghost use Rattle.serde_json.specs.Find.{of_integer};
ghost use Rattle.serde_json.specs.Read.{max_depth};
ghost use Rattle.serde_json.specs.View.{view};
ghost use Rattle.serde_json.specs.Written.{has_float};
ghost use Rattle.wh_author_tools.specs.Values.{flag_in, json_value, number_in, payload_written, text_in};

use serde_json::Value;
use std::alloc::Global;
use wh_events::{Items, OutOfMemory, Payload};

/// Returns the payload of a JSON value: its text without whitespace, with the encoding
/// `json/plain`. No number in the value may have a point or an exponent. `OutOfMemory` if there is
/// no memory for it.
pub fn value_payload(alloc: Global, value: &Value) -> Result<Payload, OutOfMemory>
    requires { has_float (view value.now) ≡ false }
    ensures written { IfOk result (λ payload. payload ≡ payload_written (view value.now)) }
    ensures read { IfOk result (λ payload. depth (view value.now) ≤ max_depth →
        json_value (payload ∷ []) 0 ≡ Some (view value.now)) }
{
    let encoding = String::from_str(alloc, "json/plain")?;
    let content = value.to_string(alloc)?;
    Ok(Payload {
        encoding: Items::new(encoding.into_bytes()),
        content: Items::new(content.into_bytes()),
    })
}

/// Returns an input or a result of this one payload. `OutOfMemory` if there is no memory for the
/// list.
pub fn one_payload(alloc: Global, payload: Payload) -> Result<Items<Payload>, OutOfMemory>
    ensures { IfOk result (λ payloads. payloads ≡ payload ∷ []) }
{
    Ok(Items::new(vec![in alloc; payload]?))
}

/// Returns the payload of a string. `json_text` reads it as that string. `OutOfMemory` if there is
/// no memory for it.
pub fn text_payload(alloc: Global, text: &str) -> Result<Payload, OutOfMemory>
    ensures written { IfOk result (λ payload. payload ≡ payload_written (string text.now)) }
    ensures read { IfOk result (λ payload. text_in (json_value (payload ∷ []) 0) ≡ Some text.now) }
{
    let value = Value::try_from_str(alloc, text)?;
    value_payload(alloc, &value)
}

/// Returns the payload of a whole number. `json_number` reads it as that number. `OutOfMemory` if
/// there is no memory for it.
pub fn number_payload(alloc: Global, whole: i64) -> Result<Payload, OutOfMemory>
    ensures written { IfOk result (λ payload. payload ≡ payload_written (number (of_integer whole))) }
    ensures read { IfOk result (λ payload. number_in (json_value (payload ∷ []) 0) ≡ Some whole) }
{
    let value = Value::from(whole);
    value_payload(alloc, &value)
}

/// Returns the payload of true or false. `json_flag` reads it as that. `OutOfMemory` if there is no
/// memory for it.
pub fn flag_payload(alloc: Global, flag: bool) -> Result<Payload, OutOfMemory>
    ensures written { IfOk result (λ payload. payload ≡ payload_written (boolean flag)) }
    ensures read { IfOk result (λ payload. flag_in (json_value (payload ∷ []) 0) ≡ Some flag) }
{
    let value = Value::Bool(flag);
    value_payload(alloc, &value)
}
