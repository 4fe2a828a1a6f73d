//! Reads values from payloads.

ghost use Rattle.std.specs.Prelude.{◌≡◌, IfOk, map, option_map};
ghost use Rattle.serde_json.specs.View.{view};
ghost use Rattle.wh_author_tools.specs.Values.{document, flag_in, json_value, member, number_in, text_in};

use serde_json::Value;
use serde_json::error::Category;
use std::alloc::Global;
use wh_events::{OutOfMemory, Payload, Text};
use wh_workflow::text_in as utf8_text;

/// Returns the value of a JSON text, or `None` if the bytes are not one.
#[tactic(auto, unfolding(crate::specs::Values::document))]
fn document(alloc: Global, bytes: &[u8]) -> Result<Option<Value>, OutOfMemory>
    ensures { IfOk result (λ value. option_map view value ≡ document bytes.now) }
{
    let Some(text) = utf8_text(bytes) else {
        return Ok(None);
    };
    match Value::from_str(alloc, text) {
        Ok(value) => Ok(Some(value)),
        Err(fault) => match fault.classify() {
            Category::Memory => Err(OutOfMemory),
            _ => Ok(None),
        },
    }
}

/// Returns a copy of the value's text, if it is a string.
fn text_in(alloc: Global, value: Option<&Value>) -> Result<Option<Text>, OutOfMemory>
    ensures { IfOk result (λ text. text ≡ text_in (option_map (λ v. view v.now) value.entry)) }
{
    match value.and_then(Value::as_str) {
        Some(text) => Ok(Some(Text::new(String::from_str(alloc, text)?))),
        None => Ok(None),
    }
}

/// Returns the value's number, if it is a whole number of 64 bits.
fn number_in(value: Option<&Value>) -> Option<i64>
    ensures { result ≡ number_in (option_map (λ v. view v.now) value.entry) }
{
    value?.as_i64()
}

/// Returns the value, if it is true or false.
fn flag_in(value: Option<&Value>) -> Option<bool>
    ensures { result ≡ flag_in (option_map (λ v. view v.now) value.entry) }
{
    value?.as_bool()
}

/// Returns the member of this name, if the value is an object that has it.
fn member<'v>(value: Option<&'v Value>, name: &str) -> Option<&'v Value>
    ensures { option_map (λ v. view v.now) result
        ≡ member name.now (option_map (λ v. view v.now) value.entry) }
{
    value?.get(name)
}

/// Returns the JSON value of the payload of this number, counted from 0. `None` if there is no such
/// payload, or its content is not JSON in UTF-8 or nests deeper than 127. Its encoding is not
/// checked. `OutOfMemory` if there is no memory for the value.
pub fn json_value(
    alloc: Global,
    input: &[Payload],
    number: usize,
) -> Result<Option<Value>, OutOfMemory>
    ensures { IfOk result (λ value. option_map view value ≡ json_value input.now number) }
{
    match input.get(number) {
        Some(payload) => document(alloc, payload.content.get()),
        None => Ok(None),
    }
}

/// Returns the string that is the JSON value of the payload of this number, with its escapes
/// resolved. `None` if there is no such value (`json_value`), or it is not a string. `OutOfMemory`
/// if there is no memory.
pub fn json_text(
    alloc: Global,
    input: &[Payload],
    number: usize,
) -> Result<Option<Text>, OutOfMemory>
    ensures { IfOk result (λ text. text ≡ text_in (json_value input.now number)) }
{
    let value = json_value(alloc, input, number)?;
    text_in(alloc, value.as_ref())
}

/// Returns the number that is the JSON value of the payload of this number. `None` if there is no
/// such value (`json_value`), or it is not a whole number from -2^63 to 2^63 - 1 without point and
/// exponent. `OutOfMemory` if there is no memory to read it.
pub fn json_number(
    alloc: Global,
    input: &[Payload],
    number: usize,
) -> Result<Option<i64>, OutOfMemory>
    ensures { IfOk result (λ whole. whole ≡ number_in (json_value input.now number)) }
{
    let value = json_value(alloc, input, number)?;
    Ok(number_in(value.as_ref()))
}

/// Returns the true or false that is the JSON value of the payload of this number. `None` if there
/// is no such value (`json_value`), or it is neither. `OutOfMemory` if there is no memory to read
/// it.
pub fn json_flag(
    alloc: Global,
    input: &[Payload],
    number: usize,
) -> Result<Option<bool>, OutOfMemory>
    ensures { IfOk result (λ flag. flag ≡ flag_in (json_value input.now number)) }
{
    let value = json_value(alloc, input, number)?;
    Ok(flag_in(value.as_ref()))
}

/// Returns the string that a member has in the object of the payload of this number. `None` if
/// there is no such object or member, or it is not a string; of several members of that name the
/// last one applies. `OutOfMemory` if there is no memory.
pub fn member_text(
    alloc: Global,
    input: &[Payload],
    number: usize,
    name: &str,
) -> Result<Option<Text>, OutOfMemory>
    ensures { IfOk result (λ text. text ≡ text_in (member name.now (json_value input.now number))) }
{
    let value = json_value(alloc, input, number)?;
    text_in(alloc, member(value.as_ref(), name))
}

/// Returns the number that a member has in the object of the payload of this number. `None` if
/// there is no such object or member, or it is not a number as `json_number` reads it; of several
/// members of that name the last one applies. `OutOfMemory` if there is no memory to read it.
pub fn member_number(
    alloc: Global,
    input: &[Payload],
    number: usize,
    name: &str,
) -> Result<Option<i64>, OutOfMemory>
    ensures { IfOk result (λ whole. whole ≡ number_in (member name.now (json_value input.now number))) }
{
    let value = json_value(alloc, input, number)?;
    Ok(number_in(member(value.as_ref(), name)))
}

/// Returns the true or false that a member has in the object of the payload of this number. `None`
/// if there is no such object or member, or it is neither; of several members of that name the last
/// one applies. `OutOfMemory` if there is no memory to read it.
pub fn member_flag(
    alloc: Global,
    input: &[Payload],
    number: usize,
    name: &str,
) -> Result<Option<bool>, OutOfMemory>
    ensures { IfOk result (λ flag. flag ≡ flag_in (member name.now (json_value input.now number))) }
{
    let value = json_value(alloc, input, number)?;
    Ok(flag_in(member(value.as_ref(), name)))
}
