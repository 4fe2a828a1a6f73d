//! Writes payloads.

ghost use Rattle.std.specs.Prelude.{◌≡◌, IfOk, codes, false, string_bytes};
ghost use Rattle.serde_json.specs.View.{view};
ghost use Rattle.serde_json.specs.Written.{compact_text, has_float};
ghost use Rattle.wh_commands.specs.Payloads.{encoded, payloads_written, json_payload, json_payloads};

use base64::engine::general_purpose::STANDARD;
use serde_json::{Value, json};
use std::alloc::{AllocError, Global};
use wh_events::Payload;

/// Writes a payload with this encoding and content.
fn encode_payload(alloc: Global, encoding: &[u8], content: &[u8]) -> Result<Value, AllocError>
    ensures { IfOk result (λ value. view value ≡ encoded encoding.now content.now) }
{
    let encoding = STANDARD.encode(alloc, encoding)?;
    let content = STANDARD.encode(alloc, content)?;
    json!(in alloc; {"metadata": {"encoding": encoding}, "data": content})
}

/// Writes a list of payloads.
pub(crate) fn payloads_value(alloc: Global, payloads: &[Payload]) -> Result<Value, AllocError>
    ensures { IfOk result (λ value. view value ≡ payloads_written payloads.now) }
{
    let mut written = Vec::new(alloc);
    for payload in payloads {
        written.push(encode_payload(alloc, payload.encoding.get(), payload.content.get())?)?;
    }
    json!(in alloc; {"payloads": written})
}

/// Returns the compact text of a JSON value.
fn compact_json(alloc: Global, value: &Value) -> Result<String, AllocError>
    requires { has_float (view value.now) ≡ false }
    ensures { IfOk result (λ text. string_bytes text ≡ compact_text (view value.now)) }
{
    value.to_string(alloc)
}

/// Writes a JSON text as a payload.
fn encoded_json(alloc: Global, text: &str) -> Result<Value, AllocError>
    ensures { IfOk result (λ payload. view payload ≡ encoded (codes "json/plain") text.now) }
{
    encode_payload(alloc, "json/plain".as_bytes(), text.as_bytes())
}

/// Writes a JSON value as a payload.
fn json_payload(alloc: Global, value: &Value) -> Result<Value, AllocError>
    requires { has_float (view value.now) ≡ false }
    ensures { IfOk result (λ payload. view payload ≡ json_payload (view value.now)) }
{
    let text = compact_json(alloc, value)?;
    encoded_json(alloc, text.as_str())
}

/// Writes a JSON value as the only payload of a list. The value has no number with a point or an
/// exponent.
pub fn json_payloads(alloc: Global, value: &Value) -> Result<Value, AllocError>
    requires { has_float (view value.now) ≡ false }
    ensures { IfOk result (λ written. view written ≡ json_payloads (view value.now)) }
{
    let payload = json_payload(alloc, value)?;
    json!(in alloc; {"payloads": [payload]})
}
