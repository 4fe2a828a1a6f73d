//! What was seen of the payloads of a run.

ghost use Rattle.std.specs.Prelude.{◌≡◌, IfOk, OnOk, OnErr};
ghost use Rattle.serde_json.specs.Data.{no_members};
ghost use Rattle.serde_json.specs.View.{view};
ghost use Rattle.serde_json.specs.Events.{members_len};
ghost use Rattle.wh_payload_metadata.specs.Payloads.{payloads_of};
ghost use Rattle.wh_payload_metadata.specs.Header.{IsEachAfterFirst, events_in, no_fields, fields_after};
ghost use Rattle.wh_payload_metadata.specs.Seen.{AreNotedFirst, all_noted, metadata_seen, fields_seen, header_seen, is_nothing};
ghost use Rattle.wh_payload_metadata.specs.Handed.{handed_on};

use crate::handing::hand_on;
use crate::header::Header;
use crate::noting::note;
use serde_json::{Map, Value};
use std::alloc::{AllocError, Global};

/// What was seen of a run: the metadata of payloads that have more than an encoding, and the fields
/// of the run's header. Other payloads take no memory.
#[derive(Drop)]
pub struct SeenPayloads {
    metadata: Map<String, Value>,
    header: Header,
}

impl SeenPayloads {
    /// Nothing was seen.
    pub fn new(alloc: Global) -> SeenPayloads
        ensures metadata { metadata_seen result ≡ no_members }
        ensures header { fields_seen result ≡ no_fields }
    {
        SeenPayloads {
            metadata: Map::new(alloc),
            header: Header::new(alloc),
        }
    }

    /// Returns how many payloads were seen that have different data, and metadata with more than an
    /// encoding.
    pub fn len(&self) -> usize
        ensures { result ≡ members_len (metadata_seen self.now) }
    {
        self.metadata.len()
    }

    /// Returns whether nothing was seen: neither such metadata nor a field of a header.
    pub fn is_empty(&self) -> bool
        ensures { result ≡ is_nothing (metadata_seen self.now) (header_seen self.now) }
    {
        self.header.is_empty() && self.len() == 0
    }

    /// Notes the payloads of a value that came. Of the same data the metadata that come last are
    /// kept. `AllocError` if there was no memory: then some of these payloads have been noted, from
    /// the first one on, and nothing else.
    pub fn keep_payloads(&mut self, alloc: Global, value: &Value) -> Result<(), AllocError>
        ensures metadata { OnOk result (metadata_seen self.new
            ≡ all_noted (payloads_of (view value.now)) (metadata_seen self.old)) }
        ensures some { OnErr result
            (AreNotedFirst (payloads_of (view value.now)) (metadata_seen self.old) (metadata_seen self.new)) }
        ensures header { fields_seen self.new ≡ fields_seen self.old }
    {
        note(alloc, &mut self.metadata, value)
    }

    /// Keeps the fields of the headers that the events of a history bring: those of the run's start
    /// and of its signals, in proto3 JSON. Of the same field the value is kept that the event with
    /// the highest number brings, whatever the order in which the events come and however often.
    /// `AllocError` if there was no memory: then each field has the value that some of these events
    /// leave it, from the first one on.
    pub fn keep_header(&mut self, alloc: Global, history: &Value) -> Result<(), AllocError>
        ensures header { OnOk result (fields_seen self.new
            ≡ fields_after (events_in (view history.now)) (fields_seen self.old)) }
        ensures some { OnErr result
            (IsEachAfterFirst (events_in (view history.now)) (fields_seen self.old) (fields_seen self.new)) }
        ensures metadata { metadata_seen self.new ≡ metadata_seen self.old }
    {
        self.header.keep(alloc, history)
    }

    /// Returns a request with what was seen: each of its payloads has the metadata that were seen
    /// last with its data, if they name its encoding, and each command that schedules an activity
    /// or starts a child has the header, if a field of it was seen. `AllocError` if there was no
    /// memory.
    pub fn hand_on(&self, alloc: Global, request: &Value) -> Result<Value, AllocError>
        ensures { IfOk result (λ v. view v
            ≡ handed_on (metadata_seen self.now) (header_seen self.now) (view request.now)) }
    {
        let header = self.header.to_value(alloc)?;
        hand_on(alloc, &self.metadata, header.as_ref(), request)
    }
}
