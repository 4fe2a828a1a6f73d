//! The counters of a table.
ghost use Rattle.std.specs.Prelude.{◌≡◌};
ghost use Rattle.wh_table_text.specs.Words.{phrase_seen};
ghost use Rattle.wh_table_text.specs.Counters.{counter_of, counter_at, named_from, bound_at, bounds_of};
ghost use Rattle.wh_row_rules.specs.Outcome.{Gives};

use crate::copies::text_copy;
use crate::fault::{ReadResult, TableFault};
use crate::numbers::number_in;
use crate::words::PhraseWords;
use std::alloc::Global;
use wh_events::Text;
use wh_row_rules::OrMemory;
use wh_rows::{Counter, Counters};

/// A counter with its name in the table.
#[derive(Drop)]
pub(crate) struct NamedCounter {
    /// The name.
    pub name: Text,
    /// The bound: the counter rises no further.
    pub bound: u64,
}

/// Returns the counter at a place, of four.
fn counter_at(place: usize) -> Option<Counter>
    ensures { result ≡ counter_at place }
{
    if place == 0 {
        Some(Counter::A)
    } else if place == 1 {
        Some(Counter::B)
    } else if place == 2 {
        Some(Counter::C)
    } else if place == 3 {
        Some(Counter::D)
    } else {
        None
    }
}

/// Returns the counter of this name.
pub(crate) fn counter_named(names: &[NamedCounter], word: &str) -> Option<Counter>
    ensures { result ≡ named_from 0 names.now word.now }
{
    for (index, counter) in names.iter().enumerate() {
        if counter.name.get() == word {
            return counter_at(index);
        }
    }
    None
}

/// Returns the bound of the counter at a place: 0 if there is no such counter.
fn bound_at(names: &[NamedCounter], place: usize) -> u64
    ensures { result ≡ bound_at place names.now }
{
    if place < names.len() {
        let counter = &names[place];
        counter.bound
    } else {
        0
    }
}

/// Returns the bound of each counter.
pub(crate) fn bounds_of(names: &[NamedCounter]) -> Counters
    ensures { result ≡ bounds_of names.now }
{
    Counters {
        a: bound_at(names, 0),
        b: bound_at(names, 1),
        c: bound_at(names, 2),
        d: bound_at(names, 3),
    }
}

/// Returns the counter of a phrase, its name and its bound.
pub(crate) fn counter_of(alloc: Global, phrase: &PhraseWords) -> ReadResult<NamedCounter>
    ensures { Gives (λ counter. counter) result (counter_of (phrase_seen phrase.now)) }
{
    if !phrase.is_named() {
        return Err(OrMemory::Fault(TableFault::BadCounters));
    }
    match number_in(phrase.first) {
        Some(bound) => Ok(NamedCounter {
            name: text_copy(alloc, phrase.verb)?,
            bound,
        }),
        None => Err(OrMemory::Fault(TableFault::BadCounters)),
    }
}
