//! Reads what can be read of an event, whatever it lacks.

ghost use Rattle.std.specs.Prelude.{◌≡◌, option_map, IfOk};
ghost use Rattle.serde_json.specs.View.{view};
ghost use Rattle.wh_json.specs.Events.{rule_for};
ghost use Rattle.wh_json.specs.Types.{rule_of};
ghost use Rattle.wh_json.specs.Partial.{attributes_in, first_text, partial_fields, partial_kind, name_of};
ghost use Rattle.wh_json.specs.Partial.{partial_event};
ghost use Rattle.wh_json.specs.Private.PartialEvents.{time_in, whole_event, faulty_event};

use crate::events::{event_number, event_under, number_or_zero, read_path, row_for, type_name};
use crate::fault::ReadFault;
use crate::fields::{field, text_of, time_of};
use crate::types::{Fields, TypeRow, is_marker, kind_of};
use serde_json::Value;
use std::alloc::Global;
use wh_events::{Event, EventKind, EventNo, Items, OutOfMemory, Text};

/// What can be read of an event, whatever the history holds in its place.
#[derive(Drop)]
pub struct PartialEvent {
    /// Its number, if it is one from 1 to 2^63 - 1.
    pub number: Option<EventNo>,
    /// When it happened, in nanoseconds since 1970-01-01T00:00:00Z, if `eventTime` is an instant.
    pub time: Option<i128>,
    /// The plain name of its type, such as `TimerStarted`. If the type is not read, the name that
    /// the event gives; empty if it gives none.
    pub name: Text,
    /// What happened, if its type is read. In an event with a fault an absent text is empty, a
    /// reference is 0 if it is absent or no number, and there are no payloads; a marker has its
    /// name in place of a change id, and the version 0.
    pub kind: Option<EventKind>,
    /// Why `read_members` refuses the event after the one before it, if it does. The place `at` in
    /// it is the one that was given.
    pub fault: Option<ReadFault>,
}

/// Returns the attributes of an event whose type is read, if they are present and not null.
pub fn attributes_in(member: &Value) -> Option<&Value>
    ensures { option_map (λ v. view v.now) result ≡ attributes_in (view member.now) }
{
    let row = row_for(member)?;
    field(Some(member), row.attributes)
}

/// Copies a text. Fails with `OutOfMemory` if there was no memory for it.
fn copy_text(alloc: Global, text: &str) -> Result<Text, OutOfMemory>
    ensures { IfOk result (λ copy. copy ≡ text.now) }
{
    Ok(Text::new(String::from_str(alloc, text)?))
}

/// Returns the name of a marker, or the first text of an event of another type. Returns the empty
/// text if it is absent.
fn first_text<'v>(row: &TypeRow, attributes: Option<&'v Value>) -> &'v str
    ensures { result.now ≡ first_text (rule_of row.now) (option_map (λ v. view v.now) attributes.entry) }
{
    if is_marker(row.event_type) {
        text_of(field(attributes, "markerName"))
    } else {
        text_of(read_path(attributes, row.first))
    }
}

/// Returns what is read of an event by the row of its type.
fn partial_fields(
    alloc: Global,
    row: &TypeRow,
    attributes: Option<&Value>,
) -> Result<Fields, OutOfMemory>
    ensures { IfOk result (λ fields.
        fields ≡ partial_fields (rule_of row.now) (option_map (λ v. view v.now) attributes.entry)) }
{
    let reference = number_or_zero(read_path(attributes, row.reference)).unwrap_or(0);
    let first = copy_text(alloc, first_text(row, attributes))?;
    let second = copy_text(alloc, text_of(read_path(attributes, row.second)))?;
    Ok(Fields {
        reference,
        first,
        second,
        payloads: Items::new(Vec::new(alloc)),
        version: 0,
    })
}

/// Returns the kind of an event by the row of its type, if the type is read.
fn partial_kind(
    alloc: Global,
    member: &Value,
    known: Option<&'static TypeRow>,
) -> Result<Option<EventKind>, OutOfMemory>
    ensures { IfOk result (λ kind. kind
        ≡ option_map (partial_kind (view member.now)) (option_map (λ row. rule_of row.now) known.entry)) }
{
    let Some(row) = known else {
        return Ok(None);
    };
    let fields = partial_fields(alloc, row, field(Some(member), row.attributes))?;
    Ok(Some(kind_of(row.event_type, fields)))
}

/// Returns the plain name of a type that is read, or else the name that the event gives.
fn name_of<'v>(member: &'v Value, known: Option<&'static TypeRow>) -> &'v str
    ensures { option_map (λ row. rule_of row.now) known.entry ≡ rule_for (view member.now)
        → result.now ≡ name_of (view member.now) }
{
    match known {
        Some(row) => row.name,
        None => type_name(member),
    }
}

/// Returns when an event happened, if it says so.
fn time_in(member: &Value) -> Option<i128>
    ensures { result ≡ time_in (view member.now) }
{
    time_of(text_of(field(Some(member), "eventTime")))
}

/// Returns what can be read of an event that the reader refuses for this fault.
fn faulty_event(
    alloc: Global,
    member: &Value,
    known: Option<&'static TypeRow>,
    name: Text,
    fault: ReadFault,
) -> Result<PartialEvent, OutOfMemory>
    ensures { IfOk result (λ event. event
        ≡ faulty_event (view member.now) (option_map (λ row. rule_of row.now) known.entry) name fault) }
{
    let kind = partial_kind(alloc, member, known)?;
    Ok(PartialEvent {
        number: event_number(member),
        time: time_in(member),
        name,
        kind,
        fault: Some(fault),
    })
}

/// Returns what is read of an event that has no fault.
fn whole_event(name: Text, event: Event) -> PartialEvent
    ensures { result ≡ whole_event name event }
{
    PartialEvent {
        number: Some(event.number),
        time: Some(event.time),
        name,
        kind: Some(event.body),
        fault: None,
    }
}

/// Returns what can be read of the event at a place of a history, counted from 1, after an event
/// with the number `before`, if that one has a number. Fails with `OutOfMemory` if there was no
/// memory for it.
pub fn partial_event(
    alloc: Global,
    at: u64,
    before: Option<EventNo>,
    member: &Value,
) -> Result<PartialEvent, OutOfMemory>
    ensures { IfOk result (λ event. event ≡ partial_event at before (view member.now)) }
{
    let known = row_for(member);
    let name = copy_text(alloc, name_of(member, known))?;
    match event_under(alloc, at, before, member, known) {
        Ok(event) => Ok(whole_event(name, event)),
        Err(ReadFault::OutOfMemory) => Err(OutOfMemory),
        Err(fault) => faulty_event(alloc, member, known, name, fault),
    }
}
