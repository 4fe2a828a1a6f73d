//! The times of the events of a history.

ghost use Rattle.std.specs.Prelude.{◌≡◌, get_or, IfOk, option_map};
ghost use Rattle.wh_run_page.specs.Moments as moments;

use std::alloc::Global;
use wh_events::{EventNo, OutOfMemory};
use wh_html::{LAST_TIME, Moment};
use wh_json::ReadFault;
use wh_view::ViewedEvent;

/// The moment of no event.
const NO_MOMENT: Moment = Moment {
    event: 0,
    millis: 0,
};

/// Returns a time in nanoseconds as one in milliseconds from 1970-01-01T00:00:00Z: an earlier time
/// as 0, and a time after the year 9999 as the end of that year.
fn millis_of(time: i128) -> u64
    ensures { result ≡ moments.millis_of time }
{
    if time < 0 {
        0
    } else {
        (time.unsigned_abs() / 1_000_000).min(LAST_TIME as u128) as u64
    }
}

/// Returns the time of an event in milliseconds, or else `other`.
fn time_or(other: u64, time: Option<i128>) -> u64
    ensures { result ≡ moments.time_or other time }
{
    match time {
        Some(time) => millis_of(time),
        None => other,
    }
}

/// Returns the first time that an event has; 0 if none has one.
#[tactic(auto, unfolding(crate::specs::Moments::first_time))]
fn first_time(events: &[ViewedEvent]) -> u64
    ensures { result ≡ moments.first_time events.now }
{
    for event in events {
        if let Some(time) = event.read.time {
            return millis_of(time);
        }
    }
    0
}

/// Returns the times of all events. An event without a time has that of the event before.
#[tactic(auto, unfolding(crate::specs::Moments::times_from))]
pub(crate) fn times_of(alloc: Global, events: &[ViewedEvent]) -> Result<Vec<u64>, OutOfMemory>
    ensures { IfOk result (λ times. times.items ≡ moments.times_of events.now) }
{
    let mut times = Vec::new(alloc);
    let mut before = first_time(events);
    for event in events {
        before = time_or(before, event.read.time);
        times.push(before)?;
    }
    Ok(times)
}

/// Returns the number of an event, or its place if it has no number.
fn number_or(place: u64, number: Option<EventNo>) -> u64
    ensures { result ≡ moments.number_or place number }
{
    match number {
        Some(number) => number.get(),
        None => place,
    }
}

/// Returns whether the number of an event does not follow that of the event before.
fn is_out_of_order(fault: &Option<ReadFault>) -> bool
    ensures { result ≡ moments.is_out_of_order fault.now }
{
    matches!(fault, Some(ReadFault::OutOfOrder { .. }))
}

/// Returns the number of an event. If it has none, or one that does not follow that of the event
/// before, its place is returned, as in the fault of such an event.
pub(crate) fn number_of(event: &ViewedEvent) -> u64
    ensures { result ≡ moments.number_of event.now }
{
    if is_out_of_order(&event.read.fault) {
        event.place
    } else {
        number_or(event.place, event.read.number)
    }
}

/// Returns the time at an index; 0 if there is none.
fn time_at(times: &[u64], index: usize) -> u64
    ensures { result ≡ get_or times.now index 0 }
{
    match times.get(index) {
        Some(time) => *time,
        None => 0,
    }
}

/// Returns an event with its time.
pub(crate) fn moment_of(times: &[u64], event: &ViewedEvent) -> Moment
    ensures { result ≡ moments.moment_of times.now event.now }
{
    Moment {
        event: number_of(event),
        millis: time_at(times, event.index()),
    }
}

/// Returns the moment of an event, or that of no event.
pub(crate) fn moment_or(times: &[u64], event: Option<&ViewedEvent>) -> Moment
    ensures { result ≡ moments.moment_or times.now (option_map (λ e. e.now) event.entry) }
{
    match event {
        Some(event) => moment_of(times, event),
        None => NO_MOMENT,
    }
}

/// Returns the moment of an event, if there is one.
pub(crate) fn moment_if(times: &[u64], event: Option<&ViewedEvent>) -> Option<Moment>
    ensures { result ≡ option_map (moments.moment_of times.now) (option_map (λ e. e.now) event.entry) }
{
    match event {
        Some(event) => Some(moment_of(times, event)),
        None => None,
    }
}

/// Returns the event at an index, if there is one.
pub(crate) fn event_at<'v>(
    events: &'v [ViewedEvent],
    index: Option<usize>,
) -> Option<&'v ViewedEvent>
    ensures { option_map (λ e. e.now) result ≡ moments.event_at events.now index }
{
    events.get(index?)
}

/// Returns the index of a place that is counted from 1.
pub(crate) fn index_at(place: Option<u64>) -> Option<usize>
    ensures { result ≡ moments.index_at place }
{
    match place {
        Some(place) => Some(place.saturating_sub(1) as usize),
        None => None,
    }
}
