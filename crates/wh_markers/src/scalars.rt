//! What the payloads in the details of a marker hold, as far as that is a word of JSON.

ghost use Rattle.std.specs.Prelude.{◌≡◌, Some, IfOk, map, option_map, option_and_then};
ghost use Rattle.std.specs.Result.{result_ok};
ghost use Rattle.serde_json.specs.View.{view};
ghost use Rattle.serde_json.specs.Find.{as_number, as_i64, as_bool};
ghost use Rattle.wh_json.specs.Events.{document_within};
ghost use Rattle.wh_markers.specs.Scalars as scalars;

use crate::payloads::{copy_text, decoded_text, payload_list};
use serde_json::Value;
use std::alloc::Global;
use wh_events::{OutOfMemory, Text};
use wh_json::{ReadFault, field, list_in, read_document};

/// A value of JSON (RFC 8259), as far as it is one word.
#[derive(Drop)]
pub(crate) enum Scalar {
    /// A text.
    Word(Text),
    /// A whole number, from -2^63 to 2^63 - 1.
    Number(i64),
    /// A truth value.
    Flag(bool),
    /// Another value, or none.
    Nothing,
}

/// Returns what a value that is no text is.
fn plain_scalar(value: &Value) -> Scalar
    ensures { result ≡ scalars.plain_scalar (option_and_then as_i64 (as_number (view value.now)))
        (as_bool (view value.now)) }
{
    match value.as_i64() {
        Some(number) => Scalar::Number(number),
        None => match value.as_bool() {
            Some(flag) => Scalar::Flag(flag),
            None => Scalar::Nothing,
        },
    }
}

/// Returns what a value is.
fn scalar_of(alloc: Global, value: &Value) -> Result<Scalar, OutOfMemory>
    ensures { IfOk result (λ scalar. scalar ≡ scalars.scalar_of (view value.now)) }
{
    match value.as_str() {
        Some(text) => Ok(Scalar::Word(copy_text(alloc, text)?)),
        None => Ok(plain_scalar(value)),
    }
}

/// Returns the member of a value with the name, or the value itself if the name is empty.
fn member_of<'v>(value: &'v Value, member: &str) -> Option<&'v Value>
    ensures { option_map (λ v. view v.now) result ≡ scalars.member_of member.now (view value.now) }
{
    if member.is_empty() {
        Some(value)
    } else {
        field(Some(value), member)
    }
}

/// Returns what a value is, or its member with the name.
fn scalar_in(alloc: Global, value: &Value, member: &str) -> Result<Scalar, OutOfMemory>
    ensures { IfOk result (λ scalar. scalar ≡ scalars.scalar_in member.now (view value.now)) }
{
    match member_of(value, member) {
        Some(value) => scalar_of(alloc, value),
        None => Ok(Scalar::Nothing),
    }
}

/// Returns the JSON value of a text, if it is one.
fn parsed(alloc: Global, text: &str) -> Result<Option<Value>, OutOfMemory>
    ensures { IfOk result (λ value. option_map view value ≡ result_ok (document_within text.now)) }
{
    match read_document(alloc, text.as_bytes()) {
        Ok(value) => Ok(Some(value)),
        Err(ReadFault::OutOfMemory) => Err(OutOfMemory),
        Err(_) => Ok(None),
    }
}

/// Returns what the JSON value of a text is, or its member with the name.
fn scalar_in_text(alloc: Global, text: &str, member: &str) -> Result<Scalar, OutOfMemory>
    ensures { IfOk result (λ scalar.
        scalar ≡ scalars.scalar_held member.now (result_ok (document_within text.now))) }
{
    match parsed(alloc, text)? {
        Some(value) => scalar_in(alloc, &value, member),
        None => Ok(Scalar::Nothing),
    }
}

/// Returns what the JSON value of a payload is, or its member with the name.
fn scalar_in_payload(alloc: Global, payload: &Value, member: &str) -> Result<Scalar, OutOfMemory>
    ensures { IfOk result (λ scalar.
        scalar ≡ scalars.scalar_held member.now (scalars.held_value (view payload.now))) }
{
    match decoded_text(alloc, payload)? {
        Some(text) => scalar_in_text(alloc, text.get(), member),
        None => Ok(Scalar::Nothing),
    }
}

/// Returns the first of some values.
fn first_of(values: &[Value]) -> Option<&Value>
    ensures { option_map (λ v. view v.now) result ≡ scalars.first_of (map view values.now) }
{
    match values {
        [first, ..] => Some(first),
        [] => None,
    }
}

/// Returns the first payload of a value with a list of them, or else the value itself.
fn payload_in(detail: &Value) -> Option<&Value>
    ensures { option_map (λ v. view v.now) result ≡ scalars.payload_in (view detail.now) }
{
    match payload_list(detail) {
        Some(payloads) => first_of(payloads),
        None => Some(detail),
    }
}

/// Returns what the first payload of a value holds, or the member of that with the name.
fn scalar_in_payloads(alloc: Global, detail: &Value, member: &str) -> Result<Scalar, OutOfMemory>
    ensures { IfOk result (λ scalar. scalar ≡ scalars.scalar_held member.now
        (option_and_then scalars.held_value (scalars.payload_in (view detail.now)))) }
{
    match payload_in(detail) {
        Some(payload) => scalar_in_payload(alloc, payload, member),
        None => Ok(Scalar::Nothing),
    }
}

/// Returns what the first of some values is, or its member with the name.
fn scalar_in_list(alloc: Global, values: &[Value], member: &str) -> Result<Scalar, OutOfMemory>
    ensures { IfOk result (λ scalar.
        scalar ≡ scalars.scalar_held member.now (scalars.first_of (map view values.now))) }
{
    match first_of(values) {
        Some(value) => scalar_in(alloc, value, member),
        None => Ok(Scalar::Nothing),
    }
}

/// Returns what the value of a detail is, or its member with the name.
fn scalar_in_detail(alloc: Global, detail: &Value, member: &str) -> Result<Scalar, OutOfMemory>
    ensures { IfOk result (λ scalar.
        scalar ≡ scalars.scalar_held member.now (scalars.detail_value (view detail.now))) }
{
    match list_in(detail) {
        Some(values) => scalar_in_list(alloc, values, member),
        None => scalar_in_payloads(alloc, detail, member),
    }
}

/// Returns what the value of the detail with the key is, or the member of that value with the
/// name. If the key is empty, it is nothing.
pub(crate) fn scalar_at(
    alloc: Global,
    details: &Value,
    detail: &str,
    member: &str,
) -> Result<Scalar, OutOfMemory>
    ensures { IfOk result (λ scalar. scalar ≡ scalars.scalar_at detail.now member.now (view details.now)) }
{
    if detail.is_empty() {
        return Ok(Scalar::Nothing);
    }
    match field(Some(details), detail) {
        Some(value) => scalar_in_detail(alloc, value, member),
        None => Ok(Scalar::Nothing),
    }
}
