//! Gathers the things of a history, event by event.

ghost use Rattle.std.specs.Prelude.{◌≡◌, Option, Some, None, ℕ, IfOk, OnOk, OnErr, option_copied, slice_get};
ghost use Rattle.std.specs.BTreeMap as tree;
ghost use Rattle.std.specs.Ordering.{nat_cmp};
ghost use Rattle.wh_events.specs.Machines.{or_else};
ghost use Rattle.wh_view.specs.Private.Indices.{if_number};
ghost use Rattle.wh_view.specs.declared.parts.Part.{Part};
ghost use Rattle.wh_view.specs.Things as things;

use crate::parts::{Part, part_of, same_kind};
use crate::view::{ThingKind, ViewedEvent, ViewedThing};
use std::alloc::Global;
use std::collections::BTreeMap;
use std::marker::Model;
use wh_events::{Effect, EventNo, Items, OutOfMemory};

/// The things that the first events of a history opened. Contracts see the things, and for each
/// event the index of its thing.
#[derive(Drop)]
pub(crate) struct Gathering {
    things: Vec<ViewedThing>,
    links: Vec<Option<usize>>,
    /// For the number of each event that opened something, the index of the last thing it opened.
    indices: BTreeMap<u64, usize>,
}

impl Model for Gathering {
    ghost use Rattle.wh_view.specs.Things.{Gathered};
    ghost use Rattle.wh_view.specs.Private.Indices.{AreIndices};
    ghost use Rattle.std.specs.Ordering.{nat_cmp};
    ghost use Rattle.std.specs.BTreeMap as tree;

    ghost Value = { Gathered };

    ghost view = { λ g. record { things = g.things.items; links = g.links.items } };

    ghost invariant = { λ g. AreIndices g.things.items (λ number. tree.get nat_cmp g.indices number) };
}

/// Returns a thing that the event at the index has just opened.
fn opened_thing(kind: ThingKind, number: Option<EventNo>, at: usize) -> ViewedThing
    ensures { result ≡ things.opened_thing kind number at }
{
    ViewedThing {
        kind,
        number,
        opened: at,
        started: None,
        cancelling: None,
        ended: None,
    }
}

/// Returns a thing that the event at the index both opens and ends.
fn lone_thing(kind: ThingKind, number: Option<EventNo>, at: usize) -> ViewedThing
    ensures { result ≡ things.lone_thing kind number at }
{
    let mut thing = opened_thing(kind, number, at);
    thing.ended = Some(at);
    thing
}

/// Returns the thing as it is after the event at the index referred to it.
fn with_effect(effect: Effect, at: usize, thing: ViewedThing) -> ViewedThing
    ensures { result ≡ things.with_effect effect at thing }
{
    let mut changed = thing;
    match effect {
        Effect::Starts => changed.started = thing.started.or(Some(at)),
        Effect::Cancels => changed.cancelling = thing.cancelling.or(Some(at)),
        Effect::Closes => changed.ended = thing.ended.or(Some(at)),
    }
    changed
}

/// Stores the index of a new thing under the number of the event that opened it.
fn keep_index(
    indices: &mut BTreeMap<u64, usize>,
    number: Option<EventNo>,
    index: usize,
) -> Result<(), OutOfMemory>
    ensures ok { OnOk result ((other : ℕ) → tree.get nat_cmp indices.new other
        ≡ or_else (if_number other number index) (tree.get nat_cmp indices.old other)) }
    ensures err { OnErr result ((other : ℕ) → tree.get nat_cmp indices.new other
        ≡ tree.get nat_cmp indices.old other) }
{
    if let Some(number) = number {
        indices.insert(number.get(), index)?;
    }
    Ok(())
}

/// Changes the thing at `index`, to which the event at `at` refers.
fn change(list: &mut Vec<ViewedThing>, effect: Effect, at: usize, index: usize)
    ensures changed { list.new.items
        ≡ things.changed_at effect at index list.old.items (slice_get list.old.items index) }
    ensures same { (number : ℕ) → things.last_from number 0 list.new.items
        ≡ things.last_from number 0 list.old.items }
{
    if let Some(thing) = list.get(index) {
        let changed = with_effect(effect, at, *thing);
        list[index] = changed;
    }
}

impl Gathering {
    ghost use Rattle.wh_view.specs.Things.{nothing_gathered, with_thing, with_reference, with_part};
    ghost use Rattle.wh_view.specs.Things.{with_event, found, gathered};

    /// Returns a gathering of no events. It takes no memory.
    pub(crate) fn new(alloc: Global) -> Self
        ensures { result ≡ nothing_gathered }
    {
        Gathering {
            things: Vec::new(alloc),
            links: Vec::new(alloc),
            indices: BTreeMap::new(alloc),
        }
    }

    /// Returns the index of the thing to which a reference points.
    fn find(&self, kind: ThingKind, number: u64) -> Option<usize>
        ensures { result ≡ found kind number self.now.things }
    {
        let index = *self.indices.get(&number)?;
        match self.things.get(index) {
            Some(thing) if same_kind(kind, thing.kind) => Some(index),
            _ => None,
        }
    }

    /// Adds a thing, which the next event opened.
    fn add(&mut self, thing: ViewedThing) -> Result<(), OutOfMemory>
        ensures { IfOk result (λ _. self.new ≡ with_thing thing self.old) }
    {
        let index = self.things.len();
        self.things.reserve(1)?;
        keep_index(&mut self.indices, thing.number, index)?;
        self.things.push_reserved(thing);
        self.links.push(Some(index))?;
        Ok(())
    }

    /// Adds the next event, which refers to the thing at the index, or to none.
    fn refer(&mut self, effect: Effect, at: usize, index: Option<usize>) -> Result<(), OutOfMemory>
        ensures { IfOk result (λ _. self.new ≡ with_reference effect at index self.old) }
    {
        match index {
            Some(index) => {
                change(&mut self.things, effect, at, index);
                self.links.push(Some(index))?;
                Ok(())
            }
            None => {
                self.links.push(None)?;
                Ok(())
            }
        }
    }

    /// Adds the next event, which stands at index `at`.
    pub(crate) fn take(&mut self, at: usize, event: &ViewedEvent) -> Result<(), OutOfMemory>
        ensures { IfOk result (λ _. self.new ≡ with_event at event.now self.old) }
    {
        match part_of(event) {
            Part::Opens { kind } => self.add(opened_thing(kind, event.read.number, at)),
            Part::Happens { kind } => self.add(lone_thing(kind, event.read.number, at)),
            Part::Refers {
                kind,
                number,
                effect,
            } => {
                let index = self.find(kind, number);
                self.refer(effect, at, index)
            }
            Part::Other => {
                self.links.push(None)?;
                Ok(())
            }
        }
    }

    /// Returns the things, and for each event the index of its thing.
    pub(crate) fn into_parts(self) -> (Items<ViewedThing>, Items<Option<usize>>)
        ensures things { result.0 ≡ self.things }
        ensures links { result.1 ≡ self.links }
    {
        (Items::new(self.things), Items::new(self.links))
    }
}

/// Gathers the things of all events.
#[tactic(auto, unfolding(crate::specs::Things::gathered_from))]
pub(crate) fn gather_all(alloc: Global, events: &[ViewedEvent]) -> Result<Gathering, OutOfMemory>
    ensures { IfOk result (λ g. g ≡ things.gathered events.now) }
{
    let mut gathering = Gathering::new(alloc);
    for (at, event) in events.iter().enumerate() {
        gathering.take(at, event)?;
    }
    Ok(gathering)
}
