//! Chooses which things of a run its page shows.

ghost use Rattle.std.specs.Prelude.{◌≡◌, ◌<◌, ◌≤◌, ◌++◌, ◌∷◌, [], if◌then◌else◌, get_or, length, IfOk, OnOk};
ghost use Rattle.wh_run_page.specs.Choices as choices;
ghost use Rattle.wh_run_page.specs.Lanes.{is_index};

use crate::lanes::outcome_at;
use crate::moments::event_at;
use std::alloc::Global;
use wh_events::OutOfMemory;
use wh_html::ThingOutcome;
use wh_view::{View, ViewedThing};

/// The most things that a page shows.
const SHOWN: usize = 300;

/// The weight of a thing that has the event of the fault: more than that of any other.
const HIT: u64 = 4_611_686_018_427_387_904;

/// The weight of a thing that failed.
const FAILED: u64 = 4_611_686_018_427_387_903;

/// The weight of a thing that is open.
const PENDING: u64 = 4_611_686_018_427_387_902;

/// The most that a thing weighs by how long it took.
const SLOW: u64 = 4_611_686_018_427_387_901;

/// Returns whether there is an index and it is this one.
fn is_index(at: usize, index: Option<usize>) -> bool
    ensures { result ≡ is_index at index }
{
    match index {
        Some(index) => index == at,
        None => false,
    }
}

/// Returns whether the event of the fault opened, started or ended the thing.
fn is_hit(fault: Option<usize>, thing: &ViewedThing) -> bool
    ensures { result ≡ choices.is_hit fault thing.now }
{
    match fault {
        Some(at) => {
            let started = is_index(at, thing.started);
            let ended = is_index(at, thing.ended);
            thing.opened == at || started || ended
        }
        None => false,
    }
}

/// Returns the time at an index; 0 if there is none.
fn time_at(times: &[u64], index: usize) -> u64
    ensures { result ≡ get_or times.now index 0 }
{
    match times.get(index) {
        Some(time) => *time,
        None => 0,
    }
}

/// Returns how long a thing took until the event at an index, in milliseconds; 0 if there is none.
fn time_until(times: &[u64], opened: usize, ended: Option<usize>) -> u64
    ensures { result ≡ choices.time_until times.now opened ended }
{
    match ended {
        Some(ended) => time_at(times, ended).saturating_sub(time_at(times, opened)),
        None => 0,
    }
}

/// Returns what a thing of this outcome weighs that took so long.
fn outcome_weight(outcome: ThingOutcome, millis: u64) -> u64
    ensures { result ≡ choices.outcome_weight outcome millis }
{
    match outcome {
        ThingOutcome::Failed => FAILED,
        ThingOutcome::Open => PENDING,
        ThingOutcome::Done | ThingOutcome::Canceled => millis.min(SLOW),
    }
}

/// Returns what a thing weighs: the most if it has the event of the fault, the next if it failed,
/// the next if it is open, and else how long it took.
fn weight_of(view: &View, times: &[u64], fault: Option<usize>, thing: &ViewedThing) -> u64
    ensures { result ≡ choices.weight view.now times.now fault thing.now }
{
    let ending = event_at(view.events.get(), thing.ended);
    if is_hit(fault, thing) {
        HIT
    } else {
        let millis = time_until(times, thing.opened, thing.ended);
        outcome_weight(outcome_at(ending), millis)
    }
}

/// Returns how many of the things weigh so much or more.
fn count_from(
    view: &View,
    times: &[u64],
    fault: Option<usize>,
    least: u64,
    things: &[ViewedThing],
) -> usize
    ensures { let weigh = choices.weight view.now times.now fault in
        result ≡ choices.count_from weigh least things.now }
{
    things
        .iter()
        .filter(|thing| least <= weight_of(view, times, fault, thing))
        .count()
}

/// Returns the least weight of the 300 heaviest things.
fn least_of(view: &View, times: &[u64], fault: Option<usize>, things: &[ViewedThing]) -> u64
    requires { 300 < length things.now }
    ensures least { choices.IsLeast (choices.weight view.now times.now fault) things.now result }
    ensures most { result ≤ 4_611_686_018_427_387_904 }
{
    let mut low: u64 = 0;
    let mut high: u64 = HIT + 1;
    while low + 1 < high {
        let middle = low + (high - low) / 2;
        if SHOWN <= count_from(view, times, fault, middle, things) {
            low = middle;
        } else {
            high = middle;
        }
    }
    low
}

/// Returns whether a thing of this weight is shown, if there is room for so many that have the
/// least weight.
fn has_room(least: u64, room: usize, own: u64) -> bool
    ensures { result ≡ choices.has_room least room own }
{
    least < own || (own == least && 0 < room)
}

/// Returns for how many more there is room then.
fn room_after(least: u64, room: usize, own: u64) -> usize
    ensures { result ≡ choices.room_after least room own }
{
    if own == least {
        room.saturating_sub(1)
    } else {
        room
    }
}

/// Returns the things that weigh more than the least, and the first so many of those that weigh as
/// much.
fn heaviest(
    alloc: Global,
    view: &View,
    times: &[u64],
    fault: Option<usize>,
    least: u64,
    room: usize,
    things: &[ViewedThing],
) -> Result<Vec<ViewedThing>, OutOfMemory>
    ensures { let weigh = choices.weight view.now times.now fault in
        IfOk result (λ own. own.items ≡ choices.heaviest weigh least room things.now) }
{
    let mut own = Vec::new(alloc);
    let mut room = room;
    for thing in things {
        let weight = weight_of(view, times, fault, thing);
        if has_room(least, room, weight) {
            own.push(*thing)?;
        }
        room = room_after(least, room, weight);
    }
    Ok(own)
}

/// Returns the 300 heaviest of many things.
fn many_shown(
    alloc: Global,
    view: &View,
    times: &[u64],
    fault: Option<usize>,
    things: &[ViewedThing],
) -> Result<Vec<ViewedThing>, OutOfMemory>
    requires { 300 < length things.now }
    ensures { let weigh = choices.weight view.now times.now fault in
        IfOk result (λ own. choices.AreHeaviest weigh things.now own.items) }
{
    let least = least_of(view, times, fault, things);
    let room = SHOWN.saturating_sub(count_from(view, times, fault, least + 1, things));
    let own = heaviest(alloc, view, times, fault, least, room, things)?;
    Ok(own)
}

/// Returns all of these things.
fn all_shown(alloc: Global, things: &[ViewedThing]) -> Result<Vec<ViewedThing>, OutOfMemory>
    ensures { IfOk result (λ own. own.items ≡ things.now) }
{
    let mut own = Vec::new(alloc);
    for thing in things {
        own.push(*thing)?;
    }
    Ok(own)
}

/// Returns the things of a run that its page shows: all, or the 300 heaviest, in their order.
pub(crate) fn chosen_things(
    alloc: Global,
    view: &View,
    times: &[u64],
    fault: Option<usize>,
) -> Result<Vec<ViewedThing>, OutOfMemory>
    ensures { let weigh = choices.weight view.now times.now fault in
        IfOk result (λ own. choices.AreChosen weigh view.now.things own.items) }
{
    let things = view.things.get();
    if SHOWN < things.len() {
        let own = many_shown(alloc, view, times, fault, things)?;
        Ok(own)
    } else {
        let own = all_shown(alloc, things)?;
        Ok(own)
    }
}
