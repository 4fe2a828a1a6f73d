//! Payloads as text.

ghost use Rattle.std.specs.Prelude.{◌≡◌, ◌++◌, IfOk, OnOk, false, string_bytes};
ghost use Rattle.std.specs.List.{flat_map};
ghost use Rattle.wh_phrases.specs.ValueSides.{after_comma, bytes_text, encoding_text, look_alike, payload_text, side_text};

use base64::engine::general_purpose::STANDARD;
use std::alloc::Global;
use wh_events::{OutOfMemory, Payload, Text};

/// Adds bytes: as they are if they are a text in UTF-8, and else in base64.
fn add_bytes(text: &mut String, bytes: &[u8]) -> Result<(), OutOfMemory>
    ensures { OnOk result (string_bytes text.new ≡ string_bytes text.old ++ bytes_text bytes.now) }
{
    match std::str::from_utf8(bytes) {
        Ok(own) => Ok(text.push_str(own)?),
        Err(_) => Ok(STANDARD.encode_string(bytes, text)?),
    }
}

/// Adds an encoding in parentheses.
fn add_encoding(text: &mut String, encoding: &[u8]) -> Result<(), OutOfMemory>
    ensures { OnOk result (string_bytes text.new ≡ string_bytes text.old ++ encoding_text encoding.now) }
{
    if encoding.is_empty() {
        return Ok(text.push_str(" (no encoding)")?);
    }
    text.push_str(" (")?;
    add_bytes(text, encoding)?;
    Ok(text.push_str(")")?)
}

/// Adds a payload, with its encoding if encodings are shown.
fn add_payload(text: &mut String, encoded: bool, payload: &Payload) -> Result<(), OutOfMemory>
    ensures { OnOk result (string_bytes text.new ≡ string_bytes text.old ++ payload_text encoded payload.now) }
{
    add_bytes(text, payload.content.get())?;
    if encoded {
        add_encoding(text, payload.encoding.get())
    } else {
        Ok(())
    }
}

/// Adds payloads, each after a comma.
fn add_others(text: &mut String, encoded: bool, payloads: &[Payload]) -> Result<(), OutOfMemory>
    ensures { let others = flat_map (after_comma encoded) payloads.now in
        OnOk result (string_bytes text.new ≡ string_bytes text.old ++ others) }
{
    for payload in payloads {
        text.push_str(", ")?;
        add_payload(text, encoded, payload)?;
    }
    Ok(())
}

/// Returns payloads with commas between them, each by its content if that is a text, and else by
/// its content in base64, and with its encoding if encodings are shown; `nothing` if there is
/// none.
pub(crate) fn side_text(
    alloc: Global,
    encoded: bool,
    payloads: &[Payload],
) -> Result<Text, OutOfMemory>
    ensures { IfOk result (λ text. text ≡ side_text encoded payloads.now) }
{
    let [first, others @ ..] = payloads else {
        return Ok(Text::new(String::from_str(alloc, "nothing")?));
    };
    let mut text = String::new(alloc);
    add_payload(&mut text, encoded, first)?;
    add_others(&mut text, encoded, others)?;
    Ok(Text::new(text))
}

/// Whether the payloads of two sides have one text if no encoding is shown.
pub(crate) fn look_alike(
    alloc: Global,
    one: &[Payload],
    other: &[Payload],
) -> Result<bool, OutOfMemory>
    ensures { IfOk result (λ alike. alike ≡ look_alike one.now other.now) }
{
    let one = side_text(alloc, false, one)?;
    let other = side_text(alloc, false, other)?;
    Ok(one.get() == other.get())
}
