//! The arguments of a query.

ghost use Rattle.std.specs.Prelude.{◌≡◌, IfOk, map, option_map};
ghost use Rattle.std.specs.List.{list_all};
ghost use Rattle.wh_workflow.specs.Queries.{json_payload};
ghost use Rattle.wh_file_commands.specs.QueryInputs.{is_json, query_of};

use serde_json::Value;
use serde_json::error::Category;
use std::alloc::Global;
use wh_events::{Items, OutOfMemory, Payload, Text};
use wh_workflow::Query;

/// Whether bytes are a JSON text in UTF-8 (RFC 8259).
pub(crate) fn is_json(alloc: Global, bytes: &[u8]) -> Result<bool, OutOfMemory>
    ensures { IfOk result (λ found. found ≡ is_json bytes.now) }
{
    let Err(error) = Value::from_slice(alloc, bytes) else {
        return Ok(true);
    };
    match error.classify() {
        Category::Memory => Err(OutOfMemory),
        _ => Ok(false),
    }
}

/// Whether each word is a JSON text.
fn are_json(alloc: Global, words: &[Text]) -> Result<bool, OutOfMemory>
    ensures { IfOk result (λ found. found ≡ list_all is_json words.now) }
{
    for word in words {
        if !is_json(alloc, word.get().as_bytes())? {
            return Ok(false);
        }
    }
    Ok(true)
}

/// The payload of a JSON text: its bytes under the encoding `json/plain`.
fn json_payload(alloc: Global, word: &str) -> Result<Payload, OutOfMemory>
    ensures { IfOk result (λ payload. payload ≡ json_payload word.now) }
{
    let encoding = String::from_str(alloc, "json/plain")?;
    let content = String::from_str(alloc, word)?;
    Ok(Payload {
        encoding: Items::new(encoding.into_bytes()),
        content: Items::new(content.into_bytes()),
    })
}

/// The payloads of JSON texts, in their order.
fn json_payloads(alloc: Global, words: &[Text]) -> Result<Vec<Payload>, OutOfMemory>
    ensures { IfOk result (λ payloads. payloads.items ≡ map json_payload words.now) }
{
    let mut payloads = Vec::new(alloc);
    for word in words {
        payloads.push(json_payload(alloc, word.get())?)?;
    }
    Ok(payloads)
}

/// The query of a type with words of the command line as its arguments: each is a payload with its
/// bytes under the encoding `json/plain`. `None` if one of them is no JSON text (RFC 8259).
/// `OutOfMemory` if there was no memory for the payloads.
pub fn query_of(
    alloc: Global,
    query_type: Text,
    words: &[Text],
) -> Result<Option<Query>, OutOfMemory>
    ensures { IfOk result (λ query. query ≡ query_of query_type words.now) }
{
    if !are_json(alloc, words)? {
        return Ok(None);
    }
    let input = Items::new(json_payloads(alloc, words)?);
    Ok(Some(Query { query_type, input }))
}
