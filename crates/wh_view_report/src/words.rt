//! The words of a report for an event of a view.

ghost use Rattle.std.specs.Prelude.{◌≡◌, Some};
ghost use Rattle.wh_view_report.specs.Words.{number_text, reference_text, ended_text, link_text};
ghost use Rattle.wh_view_report.specs.Words.{fault_words, mark_words, marker_name, told_mark, attempt_text, start_text};
ghost use Rattle.wh_view.specs.Unsupported.{is_unsupported};

use std::fmt;
use wh_json::ReadFault;
use wh_view::{EventUse, View, ViewedEvent};

/// The number of an event, or its place if it has no number.
#[derive(Drop)]
pub(crate) struct Number<'a>(pub(crate) &'a ViewedEvent);

impl fmt::Display for Number<'_> {
    ghost output = { λ n. Some (number_text n.0.now) };

    fn fmt<W: fmt::Write>(&self, f: &mut fmt::Formatter<W>) -> fmt::Result {
        match self.0.read.number {
            Some(number) => {
                let number = number.get();
                write!(f, "(event {number})")
            }
            None => {
                let place = self.0.place;
                write!(f, "(place {place})")
            }
        }
    }
}

/// A label and a reference to the event at an index; nothing if there is none.
#[derive(Drop)]
pub(crate) struct Reference<'a>(
    pub(crate) &'static str,
    pub(crate) &'a View,
    pub(crate) Option<usize>,
);

impl fmt::Display for Reference<'_> {
    ghost output = { λ r. Some (reference_text r.0.now r.1.now r.2) };

    fn fmt<W: fmt::Write>(&self, f: &mut fmt::Formatter<W>) -> fmt::Result {
        let Some(index) = self.2 else {
            return Ok(());
        };
        match self.1.events.get().get(index) {
            Some(event) => {
                let label = self.0;
                let number = Number(event);
                write!(f, "{label}{number}")
            }
            None => Ok(()),
        }
    }
}

/// The event, by its index, that ends a thing; for a line of the event at a place.
#[derive(Drop)]
struct Ended<'a>(&'a View, u64, Option<usize>);

impl fmt::Display for Ended<'_> {
    ghost output = { λ e. Some (ended_text e.0.now e.1 e.2) };

    fn fmt<W: fmt::Write>(&self, f: &mut fmt::Formatter<W>) -> fmt::Result {
        match self.2 {
            None => write!(f, ", not ended"),
            Some(index) => {
                if index as u64 == self.1.saturating_sub(1) {
                    return Ok(());
                }
                let reference = Reference(", ended ", self.0, Some(index));
                write!(f, "{reference}")
            }
        }
    }
}

/// How an event is linked with its thing and the other events of that thing.
#[derive(Drop)]
pub(crate) struct Link<'a>(pub(crate) &'a View, pub(crate) &'a ViewedEvent);

impl fmt::Display for Link<'_> {
    ghost output = { λ l. Some (link_text l.0.now l.1.now) };

    fn fmt<W: fmt::Write>(&self, f: &mut fmt::Formatter<W>) -> fmt::Result {
        let Some(thing) = self.0.thing_of(self.1) else {
            return Ok(());
        };
        if thing.opened == self.1.index() {
            let started = Reference(", started ", self.0, thing.started);
            let cancelling = Reference(", to be canceled ", self.0, thing.cancelling);
            let ended = Ended(self.0, self.1.place, thing.ended);
            write!(f, "{started}{cancelling}{ended}")
        } else {
            let opened = Reference(", opened ", self.0, Some(thing.opened));
            write!(f, "{opened}")
        }
    }
}

/// Returns the words for what the reader of histories refuses.
fn fault_words(fault: &ReadFault) -> &'static str
    ensures { result.now ≡ fault_words fault.now }
{
    match fault {
        ReadFault::BadNumber { at: _ } => "bad number",
        ReadFault::OutOfOrder { at: _ } => "out of order",
        ReadFault::UnsupportedEvent { at: _, name: _ } => "not supported",
        ReadFault::MissingField { at: _ } => "lacks a field",
        ReadFault::BadTime { at: _ } => "bad time",
        ReadFault::BadPayload { at: _ } => "bad payload",
        ReadFault::ShorthandPayload { at: _ } => "shorthand payload",
        ReadFault::UnsupportedMarker { at: _, name: _ } => "marker not supported",
        ReadFault::TooLong | ReadFault::BadJson | ReadFault::NoEvents | ReadFault::OutOfMemory =>
            "",
    }
}

/// Returns what is wrong with an event: what the reader of histories refuses in it, or that no
/// event opened the thing to which it refers; empty if nothing is wrong.
pub fn mark_of(view: &View, event: &ViewedEvent) -> &'static str
    ensures { result.now ≡ mark_words view.now event.now }
{
    match &event.read.fault {
        Some(fault) => fault_words(fault),
        None => if view.lacks_thing(event) {
            "opened by no event"
        } else {
            ""
        },
    }
}

/// Returns the name of a marker whose name is not supported; empty for an event of another type
/// that is not.
pub fn marker_name(event: &ViewedEvent) -> &str
    ensures { result.now ≡ marker_name event.now }
{
    match &event.read.kind {
        Some(_) => event.id(),
        None => "",
    }
}

/// Returns whether the reader of histories refuses an event for its type, or the name of a marker.
fn is_unsupported(fault: &Option<ReadFault>) -> bool
    ensures { result ≡ is_unsupported fault.now }
{
    matches!(
        fault,
        Some(ReadFault::UnsupportedEvent { .. } | ReadFault::UnsupportedMarker { .. })
    )
}

/// Returns what is wrong with an event, as its line tells it: not that its type is not supported,
/// which concerns replay alone.
pub(crate) fn told_mark(view: &View, event: &ViewedEvent) -> &'static str
    ensures { result.now ≡ told_mark view.now event.now }
{
    if is_unsupported(&event.read.fault) {
        ""
    } else {
        mark_of(view, event)
    }
}

/// The attempt of an event, after other words; nothing if it is 0, which means that it names none.
#[derive(Clone, Copy)]
pub struct Attempt(pub u64);

impl fmt::Display for Attempt {
    ghost output = { λ a. Some (attempt_text a.0) };

    fn fmt<W: fmt::Write>(&self, f: &mut fmt::Formatter<W>) -> fmt::Result {
        let attempt = self.0;
        if attempt == 0 {
            return Ok(());
        }
        write!(f, ", attempt {attempt}")
    }
}

/// How an event concerns its workflow, before its type.
#[derive(Drop)]
pub(crate) struct Start<'a>(pub(crate) &'a View, pub(crate) &'a ViewedEvent);

impl fmt::Display for Start<'_> {
    ghost output = { λ s. Some (start_text s.0.now s.1.now) };

    fn fmt<W: fmt::Write>(&self, f: &mut fmt::Formatter<W>) -> fmt::Result {
        match self.1.word() {
            EventUse::Completes => {
                let task = self.0.task_of(self.1);
                write!(f, "task {task}: ")
            }
            EventUse::Gives => write!(f, "  gives "),
            EventUse::Told => write!(f, "  told "),
            EventUse::Other => write!(f, "  has "),
        }
    }
}
