//! Reads payloads as text.

ghost use Rattle.std.specs.Prelude.{◌≡◌, Some, codes, IfOk, length, map, option_map, option_and_then};
ghost use Rattle.std.specs.Result.{result_ok};
ghost use Rattle.base64.specs.Engines.{standard};
ghost use Rattle.base64.specs.GeneralPurpose.{decode_of};
ghost use Rattle.serde_json.specs.View.{view};
ghost use Rattle.wh_json.specs.Fields.{field};
ghost use Rattle.wh_markers.specs.Payloads.{if_text, decoded, decoded_text, metadata_text, is_binary, size_in, spaced};
ghost use Rattle.wh_markers.specs.Payloads.{binary_text, payload_text, payload_list};

use base64::DecodeAllocError;
use base64::engine::general_purpose::STANDARD;
use serde_json::Value;
use std::alloc::Global;
use std::fmt;
use wh_events::{OutOfMemory, Text};
use wh_json::{field, list_in};

/// Copies a text. Fails with `OutOfMemory` if there was no memory for it.
pub fn copy_text(alloc: Global, text: &str) -> Result<Text, OutOfMemory>
    ensures { IfOk result (λ copy. copy ≡ text.now) }
{
    Ok(Text::new(String::from_str(alloc, text)?))
}

/// Returns the bytes as text, if they are UTF-8.
fn text_in(bytes: Vec<u8>) -> Option<Text>
    ensures { result ≡ if_text bytes.items }
{
    match String::from_utf8(bytes) {
        Ok(text) => Some(Text::new(text)),
        Err(_) => None,
    }
}

/// Decodes base64, and returns the text that it holds, if it holds one.
fn base64_text(alloc: Global, content: &str) -> Result<Option<Text>, OutOfMemory>
    ensures { IfOk result (λ text. text ≡ decoded content.now) }
{
    match STANDARD.decode(alloc, content.as_bytes()) {
        Ok(bytes) => Ok(text_in(bytes)),
        Err(DecodeAllocError::OutOfMemory) => Err(OutOfMemory),
        Err(DecodeAllocError::DecodeError(_)) => Ok(None),
    }
}

/// Returns the content of a payload, if it is a text.
pub(crate) fn decoded_text(alloc: Global, payload: &Value) -> Result<Option<Text>, OutOfMemory>
    ensures { IfOk result (λ text. text ≡ decoded_text (view payload.now)) }
{
    let Some(content) = field(Some(payload), "data") else {
        return Ok(None);
    };
    match content.as_str() {
        Some(content) => base64_text(alloc, content),
        None => Ok(None),
    }
}

/// Returns the text of a member of a payload's metadata; empty if it is absent, or no text.
fn metadata_text(alloc: Global, payload: &Value, name: &str) -> Result<Text, OutOfMemory>
    ensures { IfOk result (λ text. text ≡ metadata_text (view payload.now) name.now) }
{
    let metadata = field(Some(payload), "metadata");
    let Some(value) = field(metadata, name) else {
        return copy_text(alloc, "");
    };
    let Some(content) = value.as_str() else {
        return copy_text(alloc, "");
    };
    match base64_text(alloc, content)? {
        Some(text) => Ok(text),
        None => copy_text(alloc, ""),
    }
}

/// Returns whether an encoding is of bytes that are no text.
fn is_binary(encoding: &str) -> bool
    ensures { result ≡ is_binary encoding.now }
{
    encoding.as_bytes().starts_with(b"binary/".as_slice())
}

/// Returns how many bytes a text in base64 encodes.
fn decoded_size(alloc: Global, content: &str) -> Result<Option<usize>, OutOfMemory>
    ensures { IfOk result (λ size. size ≡ option_map length (result_ok (decode_of standard content.now))) }
{
    match STANDARD.decode(alloc, content.as_bytes()) {
        Ok(bytes) => Ok(Some(bytes.len())),
        Err(DecodeAllocError::OutOfMemory) => Err(OutOfMemory),
        Err(DecodeAllocError::DecodeError(_)) => Ok(None),
    }
}

/// Returns how many bytes the data of a payload encode; `None` if they are no base64.
fn size_in(alloc: Global, content: Option<&Value>) -> Result<Option<usize>, OutOfMemory>
    ensures { IfOk result (λ size. size ≡ size_in (option_map (λ v. view v.now) content.entry)) }
{
    let Some(value) = content else {
        return Ok(Some(0));
    };
    match value.as_str() {
        Some(content) => decoded_size(alloc, content),
        None => Ok(None),
    }
}

/// A text after a space; nothing if it is empty.
#[derive(Drop)]
struct AfterSpace<'a>(&'a str);

impl fmt::Display for AfterSpace<'_> {
    ghost output = { λ s. Some (spaced s.0.now) };

    fn fmt<W: fmt::Write>(&self, f: &mut fmt::Formatter<W>) -> fmt::Result {
        if self.0.is_empty() {
            return Ok(());
        }
        let text = self.0;
        write!(f, " {text}")
    }
}

/// Returns what a payload of so many bytes is.
fn binary_text(
    alloc: Global,
    encoding: &str,
    message_type: &str,
    size: usize,
) -> Result<Text, OutOfMemory>
    ensures { IfOk result (λ text. text ≡ binary_text encoding.now message_type.now size) }
{
    let kind = AfterSpace(message_type);
    Ok(Text::new(format!(in alloc; "{encoding}{kind}, {size} bytes")?))
}

/// Returns what a payload of bytes is, if their number is known.
fn sized_text(
    alloc: Global,
    encoding: &str,
    message_type: &str,
    size: Option<usize>,
) -> Result<Option<Text>, OutOfMemory>
    ensures { IfOk result (λ text. text ≡ option_map (binary_text encoding.now message_type.now) size) }
{
    match size {
        Some(size) => Ok(Some(binary_text(alloc, encoding, message_type, size)?)),
        None => Ok(None),
    }
}

/// Returns what a payload of bytes is, if they are base64.
fn bytes_text(alloc: Global, encoding: &str, payload: &Value) -> Result<Option<Text>, OutOfMemory>
    ensures { IfOk result (λ text. text
        ≡ option_map (binary_text encoding.now (metadata_text (view payload.now) (codes "messageType")))
        (size_in (field (codes "data") (Some (view payload.now))))) }
{
    let message_type = metadata_text(alloc, payload, "messageType")?;
    let size = size_in(alloc, field(Some(payload), "data"))?;
    sized_text(alloc, encoding, message_type.get(), size)
}

/// Returns a payload as text: its content if that is a text, or else what its bytes are, such as
/// `binary/encrypted, 300 bytes`. `None` if it is no payload, or its content is no text although
/// its encoding is none of bytes. Fails with `OutOfMemory` if there was no memory for the text.
pub fn payload_text(alloc: Global, payload: &Value) -> Result<Option<Text>, OutOfMemory>
    ensures { IfOk result (λ text. text ≡ payload_text (view payload.now)) }
{
    let encoding = metadata_text(alloc, payload, "encoding")?;
    if is_binary(encoding.get()) {
        bytes_text(alloc, encoding.get(), payload)
    } else {
        decoded_text(alloc, payload)
    }
}

/// Returns the items of the list `payloads` of a value; `None` if it has no such list.
pub fn payload_list(value: &Value) -> Option<&[Value]>
    ensures { option_map (λ values. map view values.now) result ≡ payload_list (view value.now) }
{
    list_in(field(Some(value), "payloads")?)
}
