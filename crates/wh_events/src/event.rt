//! The events of a history, and the values that were sent with them.

ghost use Rattle.std.specs.Prelude.{◌≡◌, IfOk};
ghost use Rattle.wh_events.specs.Kinds.{class_of, closes_run_of, role_of, role_seen, reference_of};
ghost use Rattle.wh_events.specs.Machines.{opened_id, role_at};

use crate::kind::{Class, EventKind, Role};
use crate::lists::Items;
use crate::memory::OutOfMemory;
use crate::number::EventNo;
use std::alloc::AllocError;

/// A value as it was sent (Temporal documentation, "Payload").
#[derive(Debug, Drop)]
pub struct Payload {
    /// The name of the encoding, such as `json/plain`; empty if none was given.
    pub encoding: Items<u8>,
    /// The bytes of the value in that encoding.
    pub content: Items<u8>,
}

impl Payload {
    /// Returns a copy with the same content, or `OutOfMemory` if there was no memory for it.
    pub fn try_copy(&self) -> Result<Self, OutOfMemory>
        ensures { IfOk result (λ copy. copy ≡ self.now) }
    {
        Ok(Payload {
            encoding: self.encoding.try_copy()?,
            content: self.content.try_copy()?,
        })
    }
}

impl Clone for Payload {
    ghost is_clone = { λ payload copy. copy ≡ payload };

    fn clone(&self) -> Result<Self, AllocError> {
        self.try_copy().map_err(|_| AllocError)
    }
}

/// One event of a history (Temporal documentation, "Event History").
#[derive(Debug, Drop)]
pub struct Event {
    /// Its number in the history, which counts from 1.
    pub number: EventNo,
    /// When it happened, in nanoseconds since 1970-01-01T00:00:00Z; below 0 before that.
    pub time: i128,
    /// What happened.
    pub body: EventKind,
}

impl Event {
    /// Returns what the event is to a worker.
    pub fn class(&self) -> Class
        ensures { result ≡ class_of self.now.body }
    {
        self.body.class()
    }

    /// Returns whether the event closes the run, as completed, failed, canceled, continued as new,
    /// timed out or terminated.
    pub fn closes_run(&self) -> bool
        ensures { result ≡ closes_run_of self.now.body }
    {
        self.body.closes_run()
    }

    /// Returns what the event does to the things of its history.
    pub fn role(&self) -> Role<'_>
        ensures { role_seen result ≡ role_of self.now.body }
    {
        self.body.role()
    }

    /// Returns the number of the event that this one refers to. Returns `None` if it names none by
    /// number, as an event that names a child by its workflow id, and if the number is 0 or above
    /// `EventNo::LAST`.
    pub fn refers_to(&self) -> Option<EventNo>
        ensures { result ≡ reference_of self.now.body }
    {
        self.body.refers_to()
    }

    /// Returns a copy with the same content, or `OutOfMemory` if there was no memory for it.
    pub fn try_copy(&self) -> Result<Self, OutOfMemory>
        ensures { IfOk result (λ copy. copy ≡ self.now) }
    {
        Ok(Event {
            number: self.number,
            time: self.time,
            body: self.body.try_copy()?,
        })
    }
}

impl Clone for Event {
    ghost is_clone = { λ event copy. copy ≡ event };

    fn clone(&self) -> Result<Self, AllocError> {
        self.try_copy().map_err(|_| AllocError)
    }
}

/// Returns the id under which the event with the number, counted from 1, opened something (for the
/// kinds of events see <https://docs.temporal.io/references/events>). Returns the empty text if
/// there is no such event or it opened nothing.
pub fn opened_id(events: &[Event], number: u64) -> &str
    ensures { result.now ≡ opened_id (role_at events.now number) }
{
    match events.get(number.saturating_sub(1) as usize) {
        Some(event) => opened_under(event.role()),
        None => "",
    }
}

/// Returns the id under which an event of the role opens something, or the empty text if it opens
/// nothing.
fn opened_under(role: Role<'_>) -> &str
    ensures { result.now ≡ opened_id (role_seen role.entry) }
{
    match role {
        Role::Opens { id, .. } => id,
        Role::CancelsChild { workflow_id } => workflow_id,
        Role::Refers { .. } | Role::Plain => "",
    }
}
