//! Histories that a fixed generator of pseudo-random numbers makes.
use crate::notation::{LETTERS, append, push};
use rand_core::utils::NextWord;
use rand_pcg::Pcg32;
use std::alloc::Global;
use wh_events::{Event, OutOfMemory};

/// The most events after the start of a history of letters.
const MOST_EVENTS: usize = 14;

/// A number below the bound, or 0 if the bound is 0.
fn below(random: &mut Pcg32, bound: usize) -> usize {
    random.next_word() as usize % bound.max(1)
}

/// Appends the start of a history of letters, and some events after it.
fn push_letters(
    alloc: Global,
    random: &mut Pcg32,
    events: &mut Vec<Event>,
) -> Result<(), OutOfMemory> {
    let first = if below(random, 4) == 0 { b'R' } else { b'B' };
    push(alloc, events, first, 0)?;
    for _event in 0..below(random, MOST_EVENTS) {
        let most = if below(random, 3) == 0 {
            LETTERS.len()
        } else {
            10
        };
        let Some(letter) = LETTERS.get(below(random, most)) else {
            return Err(OutOfMemory);
        };
        push(alloc, events, *letter, below(random, 9) as u64)?;
    }
    Ok(())
}

/// A history of letters, mostly those of tasks and timers, with small references.
pub(crate) fn of_letters(alloc: Global, random: &mut Pcg32) -> Result<Vec<Event>, OutOfMemory> {
    let mut events = Vec::new(alloc);
    let pushed = push_letters(alloc, random, &mut events);
    pushed.and(Ok(events))
}

/// Appends what an event says, with the next number.
fn append_copy(events: &mut Vec<Event>, event: &Event) -> Result<(), OutOfMemory> {
    append(events, 0, event.body.try_copy()?)
}

/// Appends the events of a history with one omitted, one replaced by that of another place, or that
/// one added after it.
fn push_changed(
    random: &mut Pcg32,
    events: &mut Vec<Event>,
    history: &[Event],
) -> Result<(), OutOfMemory> {
    let at = below(random, history.len());
    let from = below(random, history.len());
    let change = below(random, 3);
    for (place, event) in history.iter().enumerate() {
        if place != at || change == 1 {
            append_copy(events, event)?;
        }
        if place == at
            && change != 0
            && let Some(other) = history.get(from)
        {
            append_copy(events, other)?;
        }
    }
    Ok(())
}

/// A history with a change.
pub(crate) fn changed(
    alloc: Global,
    random: &mut Pcg32,
    history: &[Event],
) -> Result<Vec<Event>, OutOfMemory> {
    let mut events = Vec::new(alloc);
    let pushed = push_changed(random, &mut events, history);
    pushed.and(Ok(events))
}
