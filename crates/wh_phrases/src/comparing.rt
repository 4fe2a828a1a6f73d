//! Compares the values of a command with what its event records.

ghost use Rattle.std.specs.Prelude.{◌≡◌, IfOk, Ok, option_map, string_bytes};
ghost use Rattle.std.specs.Cmp.Lexicographic.{pointwise};
ghost use Rattle.serde_json.specs.View.{view};
ghost use Rattle.wh_phrases.specs.Values as values;

use crate::value_sides::{look_alike, side_text};
use serde_json::Value;
use std::alloc::Global;
use wh_events::{EventNo, OutOfMemory, Payload, Text};
use wh_json::{ReadFault, field, payloads_at, text_of};
use wh_workflow::Command;

/// Which value of a command differs from what its event records.
#[derive(Clone, Copy, Debug)]
pub enum ValueKind {
    /// The input of an activity, a child, a signal or a new run.
    Input,
    /// The result of the run.
    Result,
    /// How long a timer is to take.
    Duration,
    /// The message of the run's failure.
    Failure,
}

/// A value of a command that differs from what its event records. Payloads stand in it with commas
/// between them, each by its content if that is a text in UTF-8, and else by its content in base64
/// (RFC 4648); `nothing` stands for no payload. If both sides have one text so, the encoding of
/// each payload follows it in parentheses, as `1 (json/plain)`, or `(no encoding)`.
#[derive(Drop)]
pub struct OtherValue {
    /// The number of the event.
    pub event: EventNo,
    /// Which value it is.
    pub kind: ValueKind,
    /// What is sent.
    pub sent: Text,
    /// What is recorded.
    pub recorded: Text,
}

/// Whether two payloads have the same encoding and the same content.
fn same_payload(one: &Payload, other: &Payload) -> bool
    ensures { result ≡ values.same_payload one.now other.now }
{
    one.encoding.get() == other.encoding.get() && one.content.get() == other.content.get()
}

/// Whether two lists of payloads are the same.
fn same_payloads(one: &[Payload], other: &[Payload]) -> bool
    ensures { result ≡ pointwise values.same_payload one.now other.now }
{
    if one.len() != other.len() {
        return false;
    }
    for (index, payload) in one.iter().enumerate() {
        if !same_payload(payload, &other[index]) {
            return false;
        }
    }
    true
}

/// Whether a text is the recorded one, if there is one.
fn is_recorded(sent: &str, recorded: &str) -> bool
    ensures { result ≡ values.is_recorded sent.now recorded.now }
{
    recorded.is_empty() || sent == recorded
}

/// The payloads, with their encodings if both sides look alike without them, unless they are those
/// that were read.
fn read_value(
    alloc: Global,
    number: EventNo,
    kind: ValueKind,
    sent: &[Payload],
    recorded: &[Payload],
) -> Result<Option<OtherValue>, OutOfMemory>
    ensures { IfOk result (λ value. value ≡ values.read_value number kind sent.now (Ok recorded.now)) }
{
    if same_payloads(sent, recorded) {
        return Ok(None);
    }
    let encoded = look_alike(alloc, sent, recorded)?;
    let sent = side_text(alloc, encoded, sent)?;
    let recorded = side_text(alloc, encoded, recorded)?;
    Ok(Some(OtherValue {
        event: number,
        kind,
        sent,
        recorded,
    }))
}

/// The payloads, unless attributes have them under a name. Such as can't be read are not compared.
fn payloads_value(
    alloc: Global,
    number: EventNo,
    kind: ValueKind,
    sent: &[Payload],
    name: &str,
    attributes: Option<&Value>,
) -> Result<Option<OtherValue>, OutOfMemory>
    ensures { let recorded = option_map (λ v. view v.now) attributes.entry in
        IfOk result (λ value. value ≡ values.payloads_value number kind sent.now name.now recorded) }
{
    match payloads_at(alloc, 0, field(attributes, name)) {
        Ok(recorded) => read_value(alloc, number, kind, sent, recorded.as_slice()),
        Err(ReadFault::OutOfMemory) => Err(OutOfMemory),
        Err(_) => Ok(None),
    }
}

/// A text, unless it is the recorded one or none is recorded.
fn text_value(
    alloc: Global,
    number: EventNo,
    kind: ValueKind,
    sent: &str,
    recorded: &str,
) -> Result<Option<OtherValue>, OutOfMemory>
    ensures { IfOk result (λ value. value ≡ values.text_value number kind sent.now recorded.now) }
{
    if is_recorded(sent, recorded) {
        return Ok(None);
    }
    let sent = Text::new(String::from_str(alloc, sent)?);
    let recorded = Text::new(String::from_str(alloc, recorded)?);
    Ok(Some(OtherValue {
        event: number,
        kind,
        sent,
        recorded,
    }))
}

/// How long a timer of so many seconds is to take, as a history writes it.
fn seconds_text(alloc: Global, seconds: u64) -> Result<String, OutOfMemory>
    ensures { IfOk result (λ text. string_bytes text ≡ values.seconds_text seconds) }
{
    Ok(format!(in alloc; "{seconds}s")?)
}

/// The duration, unless a timer of so many seconds is to take as long as attributes have it.
fn duration_value(
    alloc: Global,
    number: EventNo,
    seconds: u64,
    attributes: Option<&Value>,
) -> Result<Option<OtherValue>, OutOfMemory>
    ensures { let recorded = option_map (λ v. view v.now) attributes.entry in
        IfOk result (λ value. value ≡ values.duration_value number seconds recorded) }
{
    let sent = seconds_text(alloc, seconds)?;
    let recorded = text_of(field(attributes, "startToFireTimeout"));
    text_value(alloc, number, ValueKind::Duration, sent.as_str(), recorded)
}

/// The failure, unless attributes have this message of it.
fn failure_value(
    alloc: Global,
    number: EventNo,
    message: &str,
    attributes: Option<&Value>,
) -> Result<Option<OtherValue>, OutOfMemory>
    ensures { let recorded = option_map (λ v. view v.now) attributes.entry in
        IfOk result (λ value. value ≡ values.failure_value number message.now recorded) }
{
    let recorded = text_of(field(field(attributes, "failure"), "message"));
    text_value(alloc, number, ValueKind::Failure, message, recorded)
}

/// The value of a command that differs from what the attributes of its event, of this number,
/// record, if there is one.
pub(crate) fn value_of(
    alloc: Global,
    number: EventNo,
    command: &Command,
    attributes: Option<&Value>,
) -> Result<Option<OtherValue>, OutOfMemory>
    ensures { IfOk result (λ value. value
        ≡ values.value_of number command.now (option_map (λ v. view v.now) attributes.entry)) }
{
    match command {
        Command::StartActivity { input, .. }
        | Command::StartChild { input, .. }
        | Command::SignalExternal { input, .. }
        | Command::ContinueAsNew { input, .. } => payloads_value(
            alloc,
            number,
            ValueKind::Input,
            input.get(),
            "input",
            attributes,
        ),
        Command::Complete { result } => payloads_value(
            alloc,
            number,
            ValueKind::Result,
            result.get(),
            "result",
            attributes,
        ),
        Command::StartTimer { id: _, seconds } => {
            duration_value(alloc, number, *seconds, attributes)
        }
        Command::Fail { message } => failure_value(alloc, number, message.get(), attributes),
        Command::CancelActivity { .. }
        | Command::CancelTimer { .. }
        | Command::CancelChild { .. }
        | Command::Ask { .. }
        | Command::Marker { .. }
        | Command::Cancel => Ok(None),
    }
}
