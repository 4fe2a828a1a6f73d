//! What the things of each type come to: how many there are, and how long they took.

ghost use Rattle.std.specs.Prelude.{◌≡◌, ◌++◌, ℕ, List, [], IfOk, OnOk, IsPermutation, IsSorted, slice_get, option_map, count_by};
ghost use Rattle.std.specs.BTreeMap.{get_by_text};
ghost use Rattle.std.specs.Option.{option_map_or};
ghost use Rattle.std.specs.Ordering.{nat_cmp};
ghost use Rattle.wh_times.specs.Sums as sums;

use std::alloc::Global;
use std::collections::BTreeMap;
use wh_events::{OutOfMemory, Text};

/// How something that a run did has ended.
#[derive(Clone, Copy, Debug)]
pub enum Outcome {
    /// It has not.
    Open,
    /// It failed, timed out, was terminated, or could not be started.
    Failed,
    /// It ended otherwise.
    Ended,
}

/// Something that a run did.
#[derive(Clone, Copy, Debug)]
pub struct TimedThing {
    /// The index of the event that opened it.
    pub opened: usize,
    /// How it has ended.
    pub outcome: Outcome,
    /// How long it took, in milliseconds. `None` if it has not ended, or a time is not known.
    pub millis: Option<u64>,
}

/// Something that a run did, and its type.
#[derive(Drop)]
pub struct TypedThing {
    /// Its type.
    pub type_name: Text,
    /// How it went.
    pub thing: TimedThing,
}

/// The first of the things that took the longest.
#[derive(Clone, Copy, Debug)]
pub struct Slowest {
    /// How long it took, in milliseconds.
    pub millis: u64,
    /// The index of the event that opened it.
    pub opened: usize,
}

/// How long the things of a type took.
#[derive(Clone, Copy, Debug)]
pub struct Lengths {
    /// The middle one of their times in order, or of two the shorter one, in milliseconds.
    pub median: u64,
    /// The first of those that took the longest.
    pub slowest: Slowest,
}

/// What the things of a type come to.
#[derive(Clone, Copy, Debug)]
pub struct TypeSum {
    /// The index of the event that opened the first of them.
    pub first: usize,
    /// How many there are.
    pub times: usize,
    /// How many of them failed.
    pub failed: usize,
    /// How many of them have not ended.
    pub still_open: usize,
    /// How long those took whose time is known; `None` if there is none.
    pub lengths: Option<Lengths>,
}

/// The things of each type.
type Groups = BTreeMap<String, Vec<TimedThing>>;

/// Returns the things by their types, in their order.
fn groups_of(alloc: Global, things: &[TypedThing]) -> Result<Groups, OutOfMemory>
    ensures { IfOk result (λ groups. (name : List ℕ) →
        option_map_or (λ g. g.items) (get_by_text groups name) [] ≡ sums.of_type name things.now) }
{
    let mut groups: Groups = BTreeMap::new(alloc);
    for typed in things {
        let name = String::from_str(alloc, typed.type_name.get())?;
        groups.entry(name)?.or_default().push(typed.thing)?;
    }
    Ok(groups)
}

/// Returns the things of a type.
fn own_of<'g>(groups: &'g Groups, name: &str) -> &'g [TimedThing]
    ensures { result.now ≡ option_map_or (λ g. g.items) (get_by_text groups.now name.now) [] }
{
    match groups.get(name) {
        Some(own) => own.as_slice(),
        None => &[],
    }
}

/// Adds the time of a thing, if it is known.
fn push_time(times: &mut Vec<u64>, thing: &TimedThing) -> Result<(), OutOfMemory>
    ensures { OnOk result (times.new.items ≡ times.old.items ++ sums.known_time thing.now) }
{
    if let Some(millis) = thing.millis {
        times.push(millis)?;
    }
    Ok(())
}

/// Returns the times of things, as far as they are known, in order.
fn times_of(alloc: Global, own: &[TimedThing]) -> Result<Vec<u64>, OutOfMemory>
    ensures order { IfOk result (λ times. IsSorted nat_cmp times.items) }
    ensures all { IfOk result (λ times. IsPermutation (sums.known_times own.now) times.items) }
{
    let mut times = Vec::new(alloc);
    for thing in own {
        push_time(&mut times, thing)?;
    }
    times.sort_unstable();
    Ok(times)
}

/// Returns the middle one of the times, or of two the first one.
fn middle_of(times: &[u64]) -> Option<u64>
    ensures { result ≡ sums.middle_of times.now }
{
    times.get(times.len().saturating_sub(1) / 2).copied()
}

/// Returns the slowest so far, after one more thing.
fn slower(best: Option<Slowest>, thing: TimedThing) -> Option<Slowest>
    ensures { result ≡ sums.slower best thing }
{
    let Some(millis) = thing.millis else {
        return best;
    };
    let own = Slowest {
        millis,
        opened: thing.opened,
    };
    match best {
        Some(other) => if other.millis < millis {
            Some(own)
        } else {
            Some(other)
        },
        None => Some(own),
    }
}

/// Returns the slowest of the things whose time is known.
fn slowest_of(own: &[TimedThing]) -> Option<Slowest>
    ensures { result ≡ sums.slowest_of own.now }
{
    let mut best = None;
    for thing in own {
        best = slower(best, *thing);
    }
    best
}

/// Returns whether a thing failed.
fn has_failed(thing: &TimedThing) -> bool
    ensures { result ≡ sums.has_failed thing.now }
{
    matches!(thing.outcome, Outcome::Failed)
}

/// Returns whether a thing has not ended.
fn is_open(thing: &TimedThing) -> bool
    ensures { result ≡ sums.is_open thing.now }
{
    matches!(thing.outcome, Outcome::Open)
}

/// Returns how many of the things failed.
fn failed_count(own: &[TimedThing]) -> usize
    ensures { result ≡ count_by sums.has_failed own.now }
{
    own.iter().filter(|thing| has_failed(thing)).count()
}

/// Returns how many of the things have not ended.
fn open_count(own: &[TimedThing]) -> usize
    ensures { result ≡ count_by sums.is_open own.now }
{
    own.iter().filter(|thing| is_open(thing)).count()
}

/// Returns how long the things of a type took.
fn lengths_of(alloc: Global, own: &[TimedThing]) -> Result<Option<Lengths>, OutOfMemory>
    ensures { IfOk result (sums.AreLengths own.now) }
{
    let times = times_of(alloc, own)?;
    match (middle_of(times.as_slice()), slowest_of(own)) {
        (Some(median), Some(slowest)) => Ok(Some(Lengths { median, slowest })),
        _ => Ok(None),
    }
}

/// Returns what the things of a type come to, the first of which the event at an index opened.
fn sum_of(alloc: Global, first: usize, own: &[TimedThing]) -> Result<TypeSum, OutOfMemory>
    ensures { IfOk result (sums.IsSumOf first own.now) }
{
    let lengths = lengths_of(alloc, own)?;
    Ok(TypeSum {
        first,
        times: own.len(),
        failed: failed_count(own),
        still_open: open_count(own),
        lengths,
    })
}

/// Returns whether the event at an index opened the first of the things.
fn is_first(own: &[TimedThing], opened: usize) -> bool
    ensures { result ≡ sums.opens_first own.now opened }
{
    match own.first() {
        Some(thing) => thing.opened == opened,
        None => false,
    }
}

/// Returns what the things of each type come to, in the order of the first of each type.
pub fn sums_of(alloc: Global, things: &[TypedThing]) -> Result<Vec<TypeSum>, OutOfMemory>
    ensures { IfOk result (λ all. sums.AreSums things.now all.items) }
{
    let groups = groups_of(alloc, things)?;
    let mut all = Vec::new(alloc);
    for typed in things {
        let own = own_of(&groups, typed.type_name.get());
        if is_first(own, typed.thing.opened) {
            all.push(sum_of(alloc, typed.thing.opened, own)?)?;
        }
    }
    Ok(all)
}
