//! Reads a line of the bridge.

ghost use Rattle.std.specs.Prelude.{◌≡◌, ◌≢◌, ◌↔◌, codes, option_map, IfOk, IfErr, Some, None, is_some};
ghost use Rattle.std.specs.Prelude.{Err, IsSome, IsTrue};
ghost use Rattle.std.specs.Option.{ok_or};
ghost use Rattle.serde_json.specs.Find.{get};
ghost use Rattle.serde_json.specs.Read.{read};
ghost use Rattle.serde_json.specs.View.{view};
ghost use Rattle.wh_rpc.specs.Responses.{Gives, answer_seen, response_seen, line_seen};
ghost use Rattle.wh_rpc.specs.Responses.{refusal_of, outcome_of, has_two, response_of, notice_by};
ghost use Rattle.wh_rpc.specs.Responses.{said_by, meaning, id_of, json_of, text_of, value_of};

use crate::bad_line::BadLine;
use json::{Reader, Scratch};
use serde_json::Value;
use serde_json::error::Category;
use std::alloc::{AllocError, Global};

/// The maximum length of a line in bytes: 128 MiB.
pub const MAX_LINE: usize = 134_217_728;

/// How deep lists and objects may nest.
const MAX_DEPTH: usize = 127;

/// How the bridge answers a call.
#[derive(Debug, Drop)]
pub enum CallResult {
    /// The call succeeded, with this result.
    Given(Value),
    /// The call failed.
    Refused {
        /// The error code.
        code: i64,
        /// The error message.
        message: String,
    },
}

/// The response to a call.
#[derive(Debug, Drop)]
pub struct Response {
    /// The id of the call.
    pub id: u64,
    /// How the bridge answers it.
    pub outcome: CallResult,
}

/// What a line of the bridge says.
#[derive(Debug, Drop)]
pub enum RpcMessage {
    /// The response to a call.
    Response(Response),
    /// The bridge shuts down.
    Shutdown,
}

/// Reads the member `error`.
#[tactic(auto, unfolding(crate::specs::Responses::refusal_of))]
fn refusal_in(alloc: Global, error: &Value) -> Result<CallResult, BadLine>
    ensures { Gives answer_seen result (refusal_of (view error.now)) }
{
    let Some(code) = error.get("code").and_then(Value::as_i64) else {
        return Err(BadLine::BadError);
    };
    let Some(message) = error.get("message").and_then(Value::as_str) else {
        return Err(BadLine::BadError);
    };
    let message = String::from_str(alloc, message)?;
    Ok(CallResult::Refused { code, message })
}

/// Returns the member `result`, if there is one.
fn result_in(value: Value) -> Option<Value>
    ensures { option_map view result ≡ get (codes "result") (view value) }
{
    match value {
        Value::Object(mut members) => members.remove("result"),
        _other => None,
    }
}

/// Reads the outcome of a response: its error, or else its result.
#[tactic(auto, unfolding(crate::specs::Responses::outcome_of))]
fn outcome_in(alloc: Global, value: Value) -> Result<CallResult, BadLine>
    ensures { Gives answer_seen result (outcome_of (view value)) }
{
    if let Some(error) = value.get("error") {
        return refusal_in(alloc, error);
    }
    match result_in(value) {
        Some(result) => Ok(CallResult::Given(result)),
        None => Err(BadLine::NoOutcome),
    }
}

/// Returns whether an object has both a result and an error.
fn has_two(value: &Value) -> bool
    ensures { result ≡ has_two (view value.now) }
{
    value.get("result").is_some() && value.get("error").is_some()
}

/// Reads the id of a response.
fn id_in(value: &Value) -> Result<u64, BadLine>
    ensures { Gives (λ id. id) result (ok_or (id_of (view value.now)) BadLine.BadId) }
{
    match value.get("id").and_then(Value::as_u64) {
        Some(id) => Ok(id),
        None => Err(BadLine::BadId),
    }
}

/// Reads an object as a response.
#[tactic(auto, unfolding(crate::specs::Responses::response_of))]
fn response_in(alloc: Global, value: Value) -> Result<Response, BadLine>
    ensures { Gives response_seen result (response_of (view value)) }
{
    if has_two(&value) {
        return Err(BadLine::TwoOutcomes);
    }
    let id = id_in(&value)?;
    let outcome = outcome_in(alloc, value)?;
    Ok(Response { id, outcome })
}

/// Reads a notice, by the name of its method.
fn notice_in(name: Option<&str>) -> Result<RpcMessage, BadLine>
    ensures { Gives line_seen result (notice_by (option_map (λ name. name.now) name.entry)) }
{
    match name {
        Some(name) if name == "shutdown" => Ok(RpcMessage::Shutdown),
        _ => Err(BadLine::NotResponse),
    }
}

/// Reads the value of a line.
#[tactic(auto, unfolding(crate::specs::Responses::said_by))]
fn line_in(alloc: Global, value: Value) -> Result<RpcMessage, BadLine>
    ensures { Gives line_seen result (said_by (view value)) }
{
    if value.as_object().is_none() {
        return Err(BadLine::NotObject);
    }
    if let Some(method) = value.get("method") {
        return notice_in(method.as_str());
    }
    let response = response_in(alloc, value)?;
    Ok(RpcMessage::Response(response))
}

/// Returns bytes as text.
fn text_in(bytes: &[u8]) -> Result<&str, BadLine>
    ensures { Gives (λ text. text.now) result (text_of bytes.now) }
{
    match simdutf8::compat::from_utf8(bytes) {
        Ok(text) => Ok(text),
        Err(_) => Err(BadLine::NotUtf8),
    }
}

/// Returns whether a text is JSON, however large its numbers are.
fn is_json(alloc: Global, text: &str) -> Result<bool, AllocError>
    ensures { IfOk result (λ valid. IsTrue valid ↔ IsSome (json_of text.now)) }
{
    let mut scratch = Scratch::new(alloc);
    let mut reader = Reader::new(text, &mut scratch)?;
    Ok(reader.skip_value(MAX_DEPTH).is_ok() && reader.next().is_none())
}

/// Returns why a text has no value.
fn no_value(alloc: Global, text: &str) -> BadLine
    requires { read text.now ≡ None }
    ensures { result ≢ BadLine.OutOfMemory → value_of text.now ≡ Err result }
{
    match is_json(alloc, text) {
        Ok(true) => BadLine::NumberOutOfRange,
        Ok(false) => BadLine::NotJson,
        Err(_) => BadLine::OutOfMemory,
    }
}

/// Parses a text as JSON.
fn value_in(alloc: Global, text: &str) -> Result<Value, BadLine>
    ensures { Gives view result (value_of text.now) }
{
    match Value::from_str(alloc, text) {
        Ok(value) => Ok(value),
        Err(e) => match e.classify() {
            Category::Memory => Err(BadLine::OutOfMemory),
            _ => Err(no_value(alloc, text)),
        },
    }
}

/// Reads a line, which is given without its end. Returns what the line says, or the first reason
/// why it is malformed. `OutOfMemory` can replace both, except the first two reasons.
#[tactic(auto, unfolding(crate::specs::Responses::meaning))]
pub fn read_line(alloc: Global, bytes: &[u8]) -> Result<RpcMessage, BadLine>
    ensures { Gives line_seen result (meaning bytes.now) }
{
    if MAX_LINE < bytes.len() {
        return Err(BadLine::TooLong);
    }
    let text = text_in(bytes)?;
    let value = value_in(alloc, text)?;
    line_in(alloc, value)
}
