//! The result of a query as text and as JSON.

ghost use Rattle.std.specs.Prelude.{◌≡◌, ◌++◌, IfOk, OnOk, string_bytes};
ghost use Rattle.wh_file_commands.specs.QueryTexts.{after_commas, encoded_payload, is_on_one_line, is_plain, payload_lines, payload_list, payload_text, result_as};

use crate::query_inputs::is_json;
use base64::engine::general_purpose::STANDARD;
use std::alloc::Global;
use wh_console::Format;
use wh_events::{OutOfMemory, Payload};
use wh_tester::{EscapedName, Shown};
use wh_workflow::QueryResult;

/// Whether a text is on one line.
fn is_on_one_line(text: &[u8]) -> bool
    ensures { result ≡ is_on_one_line text.now }
{
    !text.contains(&b'\n')
}

/// Whether a payload is a JSON text under the encoding `json/plain`, on one line.
fn is_plain(alloc: Global, payload: &Payload) -> Result<bool, OutOfMemory>
    ensures { IfOk result (λ found. found ≡ is_plain payload.now) }
{
    let content = payload.content.get();
    if payload.encoding.get() == "json/plain".as_bytes() && is_on_one_line(content) {
        is_json(alloc, content)
    } else {
        Ok(false)
    }
}

/// The object that has the encoding and the content of a payload in base64.
fn encoded_payload(alloc: Global, payload: &Payload) -> Result<String, OutOfMemory>
    ensures { IfOk result (λ text. string_bytes text ≡ encoded_payload payload.now) }
{
    let encoding = STANDARD.encode(alloc, payload.encoding.get())?;
    let content = STANDARD.encode(alloc, payload.content.get())?;
    Ok(format!(in alloc;
        "{{\"data\":\"{content}\",\"metadata\":{{\"encoding\":\"{encoding}\"}}}}"
    )?)
}

/// A payload as JSON: as it is, or as an object with its encoding and its content in base64.
fn payload_text(alloc: Global, payload: &Payload) -> Result<Vec<u8>, OutOfMemory>
    ensures { IfOk result (λ text. text.items ≡ payload_text payload.now) }
{
    if is_plain(alloc, payload)? {
        return Ok(Vec::from_slice(alloc, payload.content.get())?);
    }
    let text = encoded_payload(alloc, payload)?;
    Ok(text.into_bytes())
}

/// Adds a payload as JSON.
fn add_payload(alloc: Global, text: &mut Vec<u8>, payload: &Payload) -> Result<(), OutOfMemory>
    ensures { OnOk result (text.new.items ≡ text.old.items ++ payload_text payload.now) }
{
    let own = payload_text(alloc, payload)?;
    text.extend_from_slice(own.as_slice())?;
    Ok(())
}

/// Payloads on a line each.
fn payload_lines(alloc: Global, payloads: &[Payload]) -> Result<Vec<u8>, OutOfMemory>
    ensures { IfOk result (λ text. text.items ≡ payload_lines payloads.now) }
{
    let mut text = Vec::new(alloc);
    for payload in payloads {
        add_payload(alloc, &mut text, payload)?;
        text.push(b'\n')?;
    }
    Ok(text)
}

/// Payloads with a comma in front of each.
fn after_commas(alloc: Global, payloads: &[Payload]) -> Result<Vec<u8>, OutOfMemory>
    ensures { IfOk result (λ text. text.items ≡ after_commas payloads.now) }
{
    let mut text = Vec::new(alloc);
    for payload in payloads {
        text.push(b',')?;
        add_payload(alloc, &mut text, payload)?;
    }
    Ok(text)
}

/// Payloads with a comma between them.
fn payload_list(alloc: Global, payloads: &[Payload]) -> Result<Vec<u8>, OutOfMemory>
    ensures { IfOk result (λ text. text.items ≡ payload_list payloads.now) }
{
    let [first, others @ ..] = payloads else {
        return Ok(Vec::new(alloc));
    };
    let mut text = payload_text(alloc, first)?;
    let more = after_commas(alloc, others)?;
    text.extend_from_slice(more.as_slice())?;
    Ok(text)
}

/// The object of the payloads that a query gave.
fn answered_object(alloc: Global, payloads: &[Payload]) -> Result<Vec<u8>, OutOfMemory>
    ensures { IfOk result (λ text. text.items ≡ result_as Format.Json (QueryResult.Answered payloads.now)) }
{
    let mut text = Vec::from_slice(alloc, "{\"queryResult\":[".as_bytes())?;
    let list = payload_list(alloc, payloads)?;
    text.extend_from_slice(list.as_slice())?;
    text.extend_from_slice("]}\n".as_bytes())?;
    Ok(text)
}

/// The line of a query that failed.
fn failed_text(alloc: Global, reason: &str) -> Result<Vec<u8>, OutOfMemory>
    ensures { IfOk result (λ text. text.items ≡ result_as Format.Text (QueryResult.Failed reason.now)) }
{
    let reason = Shown(reason);
    let text = format!(in alloc; "query failed, {reason}\n")?;
    Ok(text.into_bytes())
}

/// The object of a query that failed.
fn failed_object(alloc: Global, reason: &str) -> Result<Vec<u8>, OutOfMemory>
    ensures { IfOk result (λ text. text.items ≡ result_as Format.Json (QueryResult.Failed reason.now)) }
{
    let reason = EscapedName(reason);
    let text = format!(in alloc; "{{\"queryFailed\":\"{reason}\"}}\n")?;
    Ok(text.into_bytes())
}

/// The result of a query, in a form.
pub(crate) fn result_as(
    alloc: Global,
    given: &QueryResult,
    format: Format,
) -> Result<Vec<u8>, OutOfMemory>
    ensures { IfOk result (λ text. text.items ≡ result_as format given.now) }
{
    match (format, given) {
        (Format::Text, QueryResult::Answered(payloads)) => payload_lines(alloc, payloads.get()),
        (Format::Text, QueryResult::Failed(reason)) => failed_text(alloc, reason.get()),
        (Format::Json, QueryResult::Answered(payloads)) => answered_object(alloc, payloads.get()),
        (Format::Json, QueryResult::Failed(reason)) => failed_object(alloc, reason.get()),
    }
}
