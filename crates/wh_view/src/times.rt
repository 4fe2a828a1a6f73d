//! The times of events and things, in milliseconds.

ghost use Rattle.std.specs.Prelude.{◌≡◌};
ghost use Rattle.wh_view.specs.Times as times;

use crate::view::{View, ViewedEvent, ViewedThing};
use wh_times::duration_in;

/// The latest moment that is told: the end of the year 9999, in milliseconds from
/// 1970-01-01T00:00:00Z.
pub const LAST_MOMENT: u64 = 253_402_300_799_999;

/// Returns a time in nanoseconds as one in milliseconds from 1970-01-01T00:00:00Z.
fn millis_of(time: i128) -> u64
    ensures { result ≡ times.millis_of time }
{
    if time < 0 {
        0
    } else {
        (time.unsigned_abs() / 1_000_000).min(LAST_MOMENT as u128) as u64
    }
}

impl ViewedEvent {
    ghost use Rattle.std.specs.Prelude.{◌≡◌};
    ghost use Rattle.wh_view.specs.Times.{moment_of};

    /// Returns when the event happened, in milliseconds from 1970-01-01T00:00:00Z, rounded down; an
    /// earlier time as 0, and one after the year 9999 as `LAST_MOMENT`. `None` if its time is not
    /// known.
    pub fn moment_millis(&self) -> Option<u64>
        ensures { result ≡ moment_of self.now }
    {
        match self.read.time {
            Some(time) => Some(millis_of(time)),
            None => None,
        }
    }
}

impl View {
    ghost use Rattle.std.specs.Prelude.{◌≡◌};
    ghost use Rattle.wh_view.specs.Times.{moment_at, span_between, queue_time, work_time, whole_time, due_time};

    /// Returns when the event at the index happened, in milliseconds from 1970-01-01T00:00:00Z.
    /// `None` if there is none, or its time is not known.
    pub fn moment_at(&self, index: Option<usize>) -> Option<u64>
        ensures { result ≡ moment_at self.now index }
    {
        self.events.get().get(index?)?.moment_millis()
    }

    /// Returns the milliseconds from the event at an index to that at another, 0 if that one was
    /// not later. `None` if one is absent, or its time is not known.
    pub fn span_between(&self, from: Option<usize>, to: Option<usize>) -> Option<u64>
        ensures { result ≡ span_between self.now from to }
    {
        let begin = self.moment_at(from)?;
        let end = self.moment_at(to)?;
        Some(end.saturating_sub(begin))
    }

    /// Returns the milliseconds from the opening of a thing to its start: how long an activity
    /// waited for a worker, with all attempts before the last. `None` if it has not started.
    pub fn queue_time(&self, thing: &ViewedThing) -> Option<u64>
        ensures { result ≡ queue_time self.now thing.now }
    {
        self.span_between(Some(thing.opened), thing.started)
    }

    /// Returns the milliseconds from the start of a thing to its end. `None` if it has not started,
    /// or not ended.
    pub fn work_time(&self, thing: &ViewedThing) -> Option<u64>
        ensures { result ≡ work_time self.now thing.now }
    {
        self.span_between(thing.started, thing.ended)
    }

    /// Returns the milliseconds from the opening of a thing to its end. `None` if it has not ended.
    pub fn whole_time(&self, thing: &ViewedThing) -> Option<u64>
        ensures { result ≡ whole_time self.now thing.now }
    {
        self.span_between(Some(thing.opened), thing.ended)
    }

    /// Returns when a timer is due: the time of its start, and its duration after it, but
    /// `LAST_MOMENT` at the latest. `None` if one of them is not known.
    pub fn due_time(&self, thing: &ViewedThing) -> Option<u64>
        ensures { result ≡ due_time self.now thing.now }
    {
        let event = self.events.get().get(thing.opened)?;
        let begin = event.moment_millis()?;
        let duration = duration_in(event.duration.get())?;
        Some(begin.saturating_add(duration).min(LAST_MOMENT))
    }
}
