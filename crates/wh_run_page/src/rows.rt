//! Gives each thing of a page its row of the picture.

ghost use Rattle.std.specs.Prelude.{◌≡◌, ◌&&◌, count_by, get_or, position, IfOk};
ghost use Rattle.wh_run_page.specs.Rows as rows;

use crate::lanes::{id_at, lane_kind, outcome_at, type_at};
use crate::moments::event_at;
use std::alloc::Global;
use wh_events::OutOfMemory;
use wh_html::{RowPart, ThingOutcome, first_items};
use wh_view::{ThingKind, View, ViewedThing};

/// The most things that have a row each.
const EACH: usize = 40;

/// A thing with its row of the picture.
#[derive(Clone, Copy)]
pub(crate) struct PlacedThing {
    /// The thing.
    pub(crate) thing: ViewedThing,
    /// The row, counted from 0.
    pub(crate) row: usize,
    /// How it stands there.
    pub(crate) part: RowPart,
}

/// Returns whether things of the kind happen at once.
fn is_at_once(kind: ThingKind) -> bool
    ensures { result ≡ rows.is_at_once kind }
{
    matches!(kind, ThingKind::Signal | ThingKind::Marker)
}

/// Returns the type, or else the id.
fn type_or_id<'v>(type_name: &'v str, id: &'v str) -> &'v str
    ensures { result.now ≡ rows.type_or_id type_name.now id.now }
{
    if type_name.is_empty() { id } else { type_name }
}

/// Returns the name by which many things of a kind share a row: their type, or else that of what
/// happens at once.
fn shared_name<'v>(view: &'v View, thing: &ViewedThing) -> &'v str
    ensures { result.now ≡ rows.shared_name view.now thing.now }
{
    let opening = event_at(view.events.get(), Some(thing.opened));
    if is_at_once(thing.kind) {
        type_or_id(type_at(opening), id_at(opening))
    } else {
        type_at(opening)
    }
}

/// Returns whether things are of one kind, and share a name.
fn are_alike(view: &View, one: &ViewedThing, other: &ViewedThing) -> bool
    ensures { result ≡ rows.are_alike view.now one.now other.now }
{
    lane_kind(one.kind).word() == lane_kind(other.kind).word()
        && shared_name(view, one) == shared_name(view, other)
}

/// Returns whether things share a row: each has its own, or where there are many those that are
/// alike have one.
fn share_row(view: &View, many: bool, one: &ViewedThing, other: &ViewedThing) -> bool
    ensures { result ≡ rows.share_row view.now many one.now other.now }
{
    if many {
        are_alike(view, one, other)
    } else {
        one.opened == other.opened
    }
}

/// Returns whether there are so many things that those that are alike share a row.
fn are_many(all: &[ViewedThing]) -> bool
    ensures { result ≡ rows.are_many all.now }
{
    EACH < all.len()
}

/// Returns the index of the first of the things that shares its row with this one, if there is one.
fn first_place(view: &View, all: &[ViewedThing], thing: &ViewedThing) -> Option<usize>
    ensures { let many = rows.are_many all.now in
        result ≡ position (λ other. rows.share_row view.now many thing.now other) all.now }
{
    let many = are_many(all);
    all.iter()
        .position(|other| share_row(view, many, thing, other))
}

/// Returns the index of the first of the things that shares its row with this one.
fn first_of(view: &View, all: &[ViewedThing], thing: &ViewedThing) -> usize
    ensures { result ≡ rows.first_of view.now all.now thing.now }
{
    first_place(view, all, thing).unwrap_or(all.len())
}

/// Returns those of all things.
pub(crate) fn firsts_of(
    alloc: Global,
    view: &View,
    all: &[ViewedThing],
) -> Result<Vec<usize>, OutOfMemory>
    ensures { IfOk result (λ firsts. firsts.items ≡ rows.firsts_of view.now all.now) }
{
    let mut firsts = Vec::new(alloc);
    for thing in all {
        firsts.push(first_of(view, all, thing))?;
    }
    Ok(firsts)
}

/// Returns how many rows there are.
pub(crate) fn row_count(firsts: &[usize]) -> usize
    ensures { result ≡ rows.row_count firsts.now }
{
    let mut count: usize = 0;
    for (index, first) in firsts.iter().enumerate() {
        if *first == index {
            count += 1;
        }
    }
    count
}

/// Returns whether a thing failed.
fn is_failed(outcome: ThingOutcome) -> bool
    ensures { result ≡ rows.is_failed outcome }
{
    matches!(outcome, ThingOutcome::Failed)
}

/// Returns whether a thing is open.
fn is_open(outcome: ThingOutcome) -> bool
    ensures { result ≡ rows.is_open outcome }
{
    matches!(outcome, ThingOutcome::Open)
}

/// Returns the outcome of a thing.
fn outcome_of(view: &View, thing: &ViewedThing) -> ThingOutcome
    ensures { result ≡ rows.outcome_of view.now thing.now }
{
    outcome_at(event_at(view.events.get(), thing.ended))
}

/// Returns how many of the things share a row with this one.
fn sharer_count(
    view: &View,
    all: &[ViewedThing],
    thing: &ViewedThing,
    things: &[ViewedThing],
) -> usize
    ensures { let many = rows.are_many all.now in
        result ≡ count_by (λ other. rows.share_row view.now many thing.now other) things.now }
{
    let many = are_many(all);
    things
        .iter()
        .filter(|other| share_row(view, many, thing, other))
        .count()
}

/// Returns how many of the things that the run opened share a row with this one, and failed.
fn failed_count(view: &View, all: &[ViewedThing], thing: &ViewedThing) -> usize
    ensures { let many = rows.are_many all.now in result
        ≡ count_by (λ other. rows.share_row view.now many thing.now other
        && rows.is_failed (rows.outcome_of view.now other)) view.now.things }
{
    let many = are_many(all);
    let things = view.things.get();
    things
        .iter()
        .filter(|other| {
            share_row(view, many, thing, other) && is_failed(outcome_of(view, other))
        })
        .count()
}

/// Returns how many of the things that the run opened share a row with this one, and are open.
fn open_count(view: &View, all: &[ViewedThing], thing: &ViewedThing) -> usize
    ensures { let many = rows.are_many all.now in result
        ≡ count_by (λ other. rows.share_row view.now many thing.now other
        && rows.is_open (rows.outcome_of view.now other)) view.now.things }
{
    let many = are_many(all);
    let things = view.things.get();
    things
        .iter()
        .filter(|other| { share_row(view, many, thing, other) && is_open(outcome_of(view, other)) })
        .count()
}

/// Returns how the first of a row that is drawn stands there, in a row that tells of so many.
fn first_part(view: &View, all: &[ViewedThing], thing: &ViewedThing, count: usize) -> RowPart
    ensures { result ≡ rows.first_part view.now all.now thing.now count }
{
    if count == 1 {
        return RowPart::Alone;
    }
    RowPart::First {
        things: count,
        drawn: sharer_count(view, all, thing, all),
        failed: failed_count(view, all, thing),
        pending: open_count(view, all, thing),
    }
}

/// Returns how a thing at an index stands in its row, whose first thing has this index.
fn part_of(
    view: &View,
    all: &[ViewedThing],
    index: usize,
    first: usize,
    thing: &ViewedThing,
) -> RowPart
    ensures { result ≡ rows.part_of view.now all.now index first thing.now }
{
    if first == index {
        let count = sharer_count(view, all, thing, view.things.get());
        first_part(view, all, thing, count)
    } else {
        RowPart::Later
    }
}

/// Returns the index at a place of the list; 0 if there is none.
fn index_in(firsts: &[usize], place: usize) -> usize
    ensures { result ≡ get_or firsts.now place 0 }
{
    match firsts.get(place) {
        Some(first) => *first,
        None => 0,
    }
}

/// Returns a thing at an index with its row.
fn placed_at(
    view: &View,
    all: &[ViewedThing],
    firsts: &[usize],
    index: usize,
    thing: &ViewedThing,
) -> PlacedThing
    ensures { result ≡ rows.placed_at view.now all.now firsts.now index thing.now }
{
    let first = index_in(firsts, index);
    PlacedThing {
        thing: *thing,
        row: row_count(first_items(firsts, first)),
        part: part_of(view, all, index, first, thing),
    }
}

/// Returns things with their rows, by the first of each row.
pub(crate) fn placed_things(
    alloc: Global,
    view: &View,
    all: &[ViewedThing],
    firsts: &[usize],
) -> Result<Vec<PlacedThing>, OutOfMemory>
    ensures { IfOk result (λ placed. placed.items ≡ rows.placed_from view.now all.now firsts.now 0 all.now) }
{
    let mut placed = Vec::new(alloc);
    for (index, thing) in all.iter().enumerate() {
        placed.push(placed_at(view, all, firsts, index, thing))?;
    }
    Ok(placed)
}
