//! A thing that was opened, and what changed it.

ghost use Rattle.std.specs.Prelude.{◌≡◌};
ghost use Rattle.wh_machines.specs.Private.Changes.{new_opening, with_effect};
ghost use Rattle.wh_machines.specs.Private.Openings.{status_up_to, up_to};

use wh_events::{Effect, EventNo, Status};

/// A thing that an event opened, and the numbers of the first events that changed it.
#[derive(Clone, Copy)]
pub(crate) struct Opening {
    /// The number of the event that opened the thing.
    pub(crate) number: EventNo,
    /// The first event that started it.
    pub(crate) started: Option<EventNo>,
    /// The first event that asked for it to be canceled.
    pub(crate) cancelling: Option<EventNo>,
    /// The first event that closed it.
    pub(crate) closed: Option<EventNo>,
    /// The thing of the same kind that was opened under the same id before.
    pub(crate) previous: Option<EventNo>,
}

impl Opening {
    /// Returns the thing that the event of the number opened, with no later event. `previous` is
    /// the opening of its kind and id before it.
    pub(crate) fn new(number: EventNo, previous: Option<EventNo>) -> Self
        ensures { result ≡ new_opening number previous }
    {
        Opening {
            number,
            started: None,
            cancelling: None,
            closed: None,
            previous,
        }
    }

    /// Keeps the event of the number, if it is the first one with this effect.
    pub(crate) fn mark(&mut self, effect: Effect, by: EventNo)
        ensures { self.new ≡ with_effect effect by self.old }
    {
        match effect {
            Effect::Starts => self.started = self.started.or(Some(by)),
            Effect::Cancels => self.cancelling = self.cancelling.or(Some(by)),
            Effect::Closes => self.closed = self.closed.or(Some(by)),
        }
    }

    /// Returns the status of the thing after the event at the place.
    pub(crate) fn status_up_to(&self, place: u64) -> Status
        ensures { result ≡ status_up_to place self.now }
    {
        if let Some(by) = kept_up_to(place, self.closed) {
            Status::Closed { by }
        } else if kept_up_to(place, self.cancelling).is_some() {
            Status::Cancelling
        } else if kept_up_to(place, self.started).is_some() {
            Status::Started
        } else {
            Status::Open
        }
    }
}

/// Returns the number, if it is not past the place.
fn kept_up_to(place: u64, number: Option<EventNo>) -> Option<EventNo>
    ensures { result ≡ up_to place number }
{
    match number {
        Some(number) if number.get() <= place => Some(number),
        _ => None,
    }
}
