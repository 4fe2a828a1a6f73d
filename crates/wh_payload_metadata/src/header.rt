//! The header of a run: the fields that its start and its signals set.

ghost use Rattle.std.specs.Prelude.{◌≡◌, IfOk, OnOk, OnErr, [], is_none, option_and_then, option_map, map, unwrap_or};
ghost use Rattle.serde_json.specs.Find.{as_object};
ghost use Rattle.serde_json.specs.View.{view, members_view};
ghost use Rattle.wh_payload_metadata.specs.Header.{attributes_of, brought_fields, number_in, events_in, no_fields};
ghost use Rattle.wh_payload_metadata.specs.Header.{is_set_later, field_set, fields_set, fields_after_event};
ghost use Rattle.wh_payload_metadata.specs.Header.{fields_after, fields_of, members_of, header_of};
ghost use Rattle.wh_payload_metadata.specs.Header.{IsEachAfterFirst, IsEachOldOrSet};

use crate::messages::values_of;
use serde_json::{Map, Value, put};
use std::alloc::{AllocError, Global};
use std::collections::BTreeMap;
use wh_json::{at_path, field, number_of};

/// A field of a header: its value, and the number of the event that set it.
#[derive(Drop)]
pub(crate) struct Field {
    number: u64,
    value: Value,
}

/// The header of a run: its fields by their names. Each has the value that the last event in the
/// history gives it, of those that came, whatever the order in which they came and however often.
#[derive(Drop)]
pub(crate) struct Header {
    fields: BTreeMap<String, Field>,
}

/// The attributes of an event that may bring a header: the start of a run, or a signal.
#[tactic(auto, unfolding(crate::specs::Header::attributes_of))]
fn attributes_of(event: &Value) -> Option<&Value>
    ensures { option_map (λ v. view v.now) result ≡ attributes_of (view event.now) }
{
    match field(Some(event), "workflowExecutionStartedEventAttributes") {
        Some(attributes) => Some(attributes),
        None => field(Some(event), "workflowExecutionSignaledEventAttributes"),
    }
}

/// The members of the value, if it is an object.
fn members_in<'v>(value: Option<&'v Value>) -> Option<&'v Map<String, Value>>
    ensures { option_map (λ members. members_view members.now.entries) result
        ≡ option_and_then as_object (option_map (λ v. view v.now) value.entry) }
{
    value?.as_object()
}

/// The fields of the header that an event brings.
fn brought_fields(event: &Value) -> Option<&Map<String, Value>>
    ensures { option_map (λ members. members_view members.now.entries) result ≡ brought_fields (view event.now) }
{
    members_in(at_path(attributes_of(event), &["header", "fields"]))
}

/// The number of an event, or 0 if it has none.
fn number_in(event: &Value) -> u64
    ensures { result ≡ number_in (view event.now) }
{
    match field(Some(event), "eventId") {
        Some(id) => number_of(id).unwrap_or(0),
        None => 0,
    }
}

/// The events of a history.
fn events_in(history: &Value) -> Option<&[Value]>
    ensures { unwrap_or (option_map (λ events. map view events.now) result) [] ≡ events_in (view history.now) }
{
    values_of(field(Some(history), "events"))
}

impl Header {
    /// No field is set.
    pub(crate) fn new(alloc: Global) -> Header
        ensures { fields_of result ≡ no_fields }
    {
        Header {
            fields: BTreeMap::new(alloc),
        }
    }

    /// Whether no field is set.
    pub(crate) fn is_empty(&self) -> bool
        ensures { result ≡ is_none (header_of self.now) }
    {
        self.fields.len() == 0
    }

    /// Whether an event after that of this number set the field.
    fn is_set_later(&self, name: &str, number: u64) -> bool
        ensures { result ≡ is_set_later (fields_of self.now name.now) number }
    {
        match self.fields.get(name) {
            Some(field) => number < field.number,
            None => false,
        }
    }

    /// Sets a field by the event of this number, unless a later one set it. After an error all fields
    /// are as they were.
    fn set(
        &mut self,
        alloc: Global,
        number: u64,
        name: &str,
        value: &Value,
    ) -> Result<(), AllocError>
        ensures set { OnOk result (fields_of self.new
            ≡ field_set number name.now (view value.now) (fields_of self.old)) }
        ensures unset { OnErr result (fields_of self.new ≡ fields_of self.old) }
    {
        if self.is_set_later(name, number) {
            return Ok(());
        }
        let key = String::from_str(alloc, name)?;
        let value = value.clone()?;
        let displaced = self.fields.insert(key, Field { number, value })?;
        drop(displaced);
        Ok(())
    }

    /// Sets all these fields by the event of this number. After an error some may have been set.
    fn set_all(
        &mut self,
        alloc: Global,
        number: u64,
        fields: &Map<String, Value>,
    ) -> Result<(), AllocError>
        ensures set { OnOk result (fields_of self.new
            ≡ fields_set number (members_view fields.now.entries) (fields_of self.old)) }
        ensures some { OnErr result (IsEachOldOrSet (fields_of self.old)
            (fields_set number (members_view fields.now.entries) (fields_of self.old)) (fields_of self.new)) }
    {
        for (name, value) in fields.iter() {
            self.set(alloc, number, name.as_str(), value)?;
        }
        Ok(())
    }

    /// Sets the fields that an event brings. After an error some may have been set.
    fn keep_event(&mut self, alloc: Global, event: &Value) -> Result<(), AllocError>
        ensures set { OnOk result (fields_of self.new ≡ fields_after_event (view event.now) (fields_of self.old)) }
        ensures some { OnErr result (IsEachOldOrSet (fields_of self.old)
            (fields_after_event (view event.now) (fields_of self.old)) (fields_of self.new)) }
    {
        match brought_fields(event) {
            Some(fields) => self.set_all(alloc, number_in(event), fields),
            None => Ok(()),
        }
    }

    /// Sets the fields that these events bring. After an error each field is as some of the events
    /// leave it, from the first one on.
    fn keep_events(&mut self, alloc: Global, events: &[Value]) -> Result<(), AllocError>
        ensures set { OnOk result (fields_of self.new ≡ fields_after (map view events.now) (fields_of self.old)) }
        ensures some { OnErr result
            (IsEachAfterFirst (map view events.now) (fields_of self.old) (fields_of self.new)) }
    {
        for event in events {
            self.keep_event(alloc, event)?;
        }
        Ok(())
    }

    /// Sets the fields that the events of a history bring. `AllocError` if there was no memory:
    /// then each field is as some of the events leave it, from the first one on.
    pub(crate) fn keep(&mut self, alloc: Global, history: &Value) -> Result<(), AllocError>
        ensures set { OnOk result (fields_of self.new
            ≡ fields_after (events_in (view history.now)) (fields_of self.old)) }
        ensures some { OnErr result
            (IsEachAfterFirst (events_in (view history.now)) (fields_of self.old) (fields_of self.new)) }
    {
        match events_in(history) {
            Some(events) => self.keep_events(alloc, events),
            None => Ok(()),
        }
    }

    /// The values of all fields.
    fn members(&self, alloc: Global) -> Result<Map<String, Value>, AllocError>
        ensures { IfOk result (λ members. members_view members.entries ≡ members_of self.now.fields.entries) }
    {
        let mut members = Map::new(alloc);
        for (name, field) in self.fields.iter() {
            let copy = field.value.clone()?;
            put(&mut members, alloc, name.as_str(), copy)?;
        }
        Ok(members)
    }

    /// The header as it goes out, if a field is set.
    pub(crate) fn to_value(&self, alloc: Global) -> Result<Option<Value>, AllocError>
        ensures { IfOk result (λ value. option_map view value ≡ header_of self.now) }
    {
        if self.is_empty() {
            return Ok(None);
        }
        let members = self.members(alloc)?;
        let mut header = Map::new(alloc);
        put(&mut header, alloc, "fields", Value::Object(members))?;
        Ok(Some(Value::Object(header)))
    }
}
