//! Task slots of one kind. Each place is free, reserved for one poll, or held by one named task. And
//! the sizes of a host, and the most that each may be.
//!
//! A worker has a fixed number of task slots, each with room for one task at a time (Temporal
//! documentation, "Worker performance", task slots). A place is reserved before the source is
//! polled. The task that the poll brings holds it until the task is finished. If the poll brings no
//! task, the place is released.
#![tactic(auto)]

ghost use Rattle.std.specs.Prelude.{◌≡◌, ◌+◌, ◌<◌, ◌≤◌, true, false, replicate, position, IfOk};
ghost use Rattle.std.specs.Prelude.{IfErr, OnOk, OnErr, IfSome, IfNone};
ghost use Rattle.wh_slots.specs.declared.Place.TheVariants.{Free};
ghost use Rattle.wh_slots.specs.Table.{table, is_free, is_reserved, is_held, is_named, IsTable};
ghost use Rattle.wh_slots.specs.Table.{IsPlaceOf, IsReserved, IsHeld, Reserves, Uses, Frees};
ghost use Rattle.wh_slots.specs.Table.{Releases, IsReserveFault, IsUseFault, count_of};

pub mod laws;
mod sizes;

pub use sizes::{Config, MOST_CACHED_EVENTS, MOST_RUNS, MOST_SEATS, MOST_SLOTS};
use std::alloc::Global;
use std::marker::Model;
use wh_events::OutOfMemory;

/// What a slot is for: workflow tasks or activity tasks.
#[derive(Clone, Copy, PartialEq, Eq, Debug)]
pub enum SlotKind {
    /// For a workflow task.
    Workflow,
    /// For an activity task.
    Activity,
}

/// The name under which a source knows a task, as Temporal's task token. Any number is a name.
#[derive(Clone, Copy, PartialEq, Eq, Debug)]
pub struct TaskName(pub u128);

/// One place, as contracts see it: free, reserved under a number, or held under a number by a named
/// task.
#[derive(Clone, Copy, Debug)]
pub enum Place {
    /// Nobody has it.
    Free,
    /// A poll has it, under this number.
    Reserved(u64),
    /// The named task has it, under this number.
    InHand(u64, TaskName),
}

/// Why no place was reserved. If several reasons apply, it is the first of them in this order.
#[derive(Clone, Copy, PartialEq, Eq, Debug)]
pub enum ReserveFault {
    /// The slots drain: no place is reserved any more.
    Draining,
    /// The last number was given out already.
    NumbersSpent,
    /// No place is free.
    NoSlot,
}

/// Why a permit was not used. If both reasons apply, it is the first.
#[derive(Clone, Copy, PartialEq, Eq, Debug)]
pub enum UseFault {
    /// The permit is of the other kind, or no place is reserved under its number.
    NotReserved,
    /// The task holds a place already.
    TaskInHand,
}

/// The error of a permit of the other kind, or of one under whose number no place is reserved.
#[derive(Clone, Copy, PartialEq, Eq, Debug)]
pub struct NotReserved;

/// The error of a right of the other kind, or of one under whose number no place is held.
#[derive(Clone, Copy, PartialEq, Eq, Debug)]
pub struct NotHeld;

/// How many places are free, reserved and held. The three numbers add up to all places of the kind.
#[derive(Clone, Copy, PartialEq, Eq, Debug)]
pub struct SlotCount {
    /// Places that nobody has.
    pub free: usize,
    /// Places that a poll has.
    pub reserved: usize,
    /// Places that a task has.
    pub held: usize,
}

/// The last number that a call gives out: 2^63 - 1.
pub const LAST_NUMBER: u64 = 0x7fff_ffff_ffff_ffff;

/// The right to use or to release one reserved place, once. It can't be copied. If it is dropped,
/// its place stays reserved. Contracts see its kind and its number.
#[derive(Debug, Drop)]
pub struct Permit {
    kind: SlotKind,
    number: u64,
}

impl Model for Permit {
    ghost use Rattle.std.specs.Prelude.{ℕ};
    ghost use Rattle.wh_slots.specs.declared.SlotKind.{SlotKind};

    ghost Value = { SlotKind × ℕ };

    ghost view = { λ p. (p.kind, p.number) };
}

impl Permit {
    /// Returns what the place is for.
    pub fn kind(&self) -> SlotKind
        ensures { result ≡ self.now.0 }
    {
        self.kind
    }

    /// Returns the number under which the place is reserved.
    pub fn number(&self) -> u64
        ensures { result ≡ self.now.1 }
    {
        self.number
    }
}

/// The right to free one held place, once. It can't be copied. If it is dropped, its place stays
/// held. Contracts see its kind and its number.
#[derive(Debug, Drop)]
pub struct Held {
    kind: SlotKind,
    number: u64,
}

impl Model for Held {
    ghost use Rattle.std.specs.Prelude.{ℕ};
    ghost use Rattle.wh_slots.specs.declared.SlotKind.{SlotKind};

    ghost Value = { SlotKind × ℕ };

    ghost view = { λ h. (h.kind, h.number) };
}

impl Held {
    /// Returns what the place is for.
    pub fn kind(&self) -> SlotKind
        ensures { result ≡ self.now.0 }
    {
        self.kind
    }

    /// Returns the number under which the place is held: that of the permit that was used.
    pub fn number(&self) -> u64
        ensures { result ≡ self.now.1 }
    {
        self.number
    }
}

/// The places of one kind, 1 to 1,000 of them. Contracts see the table of the places: different
/// places have different numbers and different names, and each number is below the next one.
#[derive(Drop)]
pub struct Slots {
    kind: SlotKind,
    places: Vec<Place>,
    next: u64,
    draining: bool,
}

impl Model for Slots {
    ghost use Rattle.wh_slots.specs.Table.{Table, table, IsTable};

    ghost Value = { Table };

    ghost view = { λ s. table s.kind s.places.items s.next s.draining };

    ghost invariant = { λ s. IsTable (table s.kind s.places.items s.next s.draining) };
}

impl Slots {
    /// Opens `places` free places, 1 to 1,000, with 1 for the first number. Returns `OutOfMemory`
    /// if there was no memory for them. No later call allocates.
    pub fn open(alloc: Global, kind: SlotKind, places: usize) -> Result<Slots, OutOfMemory>
        requires { (0 < places) × (places ≤ MOST_SLOTS) }
        ensures { IfOk result (λ slots. slots ≡ table kind (replicate places Free) 1 false) }
    {
        Slots::starting_at(alloc, kind, places, 1)
    }

    /// Opens `places` free places, 1 to 1,000, with `next` for the first number, 1 to 2^63 - 1.
    /// Returns `OutOfMemory` if there was no memory for them. No later call allocates.
    pub fn starting_at(
        alloc: Global,
        kind: SlotKind,
        places: usize,
        next: u64,
    ) -> Result<Slots, OutOfMemory>
        requires places { (0 < places) × (places ≤ MOST_SLOTS) }
        requires next { (0 < next) × (next ≤ LAST_NUMBER) }
        ensures { IfOk result (λ slots. slots ≡ table kind (replicate places Free) next false) }
    {
        let places = vec![in alloc; Place::Free; places]?;
        Ok(Slots {
            kind,
            places,
            next,
            draining: false,
        })
    }

    /// Reserves a free place under the next number, which is never given out again. It can be any
    /// of the free places. Errors are tried in the order of [`ReserveFault`] and change nothing.
    pub fn reserve(&mut self) -> Result<Permit, ReserveFault>
        ensures reserved { IfOk result (Reserves self.old self.new) }
        ensures refused { IfErr result (IsReserveFault self.old) }
        ensures unchanged { OnErr result (self.new ≡ self.old) }
    {
        if self.draining {
            return Err(ReserveFault::Draining);
        }
        if self.next > LAST_NUMBER {
            return Err(ReserveFault::NumbersSpent);
        }
        let Some(at) = find_free(self.places.as_slice()) else {
            return Err(ReserveFault::NoSlot);
        };
        let number = self.next;
        self.places[at] = Place::Reserved(number);
        self.next += 1;
        Ok(Permit {
            kind: self.kind,
            number,
        })
    }

    /// Lets the task hold the place that is reserved under the permit, under the same number.
    /// Errors are tried in the order of [`UseFault`]. They change nothing and return the permit.
    pub fn use_slot(&mut self, permit: Permit, name: TaskName) -> Result<Held, (Permit, UseFault)>
        ensures held { IfOk result (Uses self.old self.new permit name) }
        ensures refused { IfErr result (λ refused. IsUseFault self.old permit name refused.1) }
        ensures handed_back { IfErr result (λ refused. refused.0 ≡ permit) }
        ensures unchanged { OnErr result (self.new ≡ self.old) }
    {
        let number = permit.number;
        if permit.kind != self.kind {
            return Err((permit, UseFault::NotReserved));
        }
        let Some(at) = find_reserved(self.places.as_slice(), number) else {
            return Err((permit, UseFault::NotReserved));
        };
        if find_named(self.places.as_slice(), name).is_some() {
            return Err((permit, UseFault::TaskInHand));
        }
        self.places[at] = Place::InHand(number, name);
        Ok(Held {
            kind: permit.kind,
            number,
        })
    }

    /// Frees the held place. Returns `NotHeld` and the right if no place is held under it. Nothing
    /// changes then.
    pub fn free(&mut self, held: Held) -> Result<(), (Held, NotHeld)>
        ensures freed { OnOk result (Frees self.old self.new held) }
        ensures refused { OnErr result (¬ IsHeld self.old held) }
        ensures handed_back { IfErr result (λ refused. refused.0 ≡ held) }
        ensures unchanged { OnErr result (self.new ≡ self.old) }
    {
        if held.kind != self.kind {
            return Err((held, NotHeld));
        }
        let Some(at) = find_held(self.places.as_slice(), held.number) else {
            return Err((held, NotHeld));
        };
        self.places[at] = Place::Free;
        Ok(())
    }

    /// Frees a reserved place that was not used. Returns `NotReserved` and the permit if no place
    /// is reserved under it. Nothing changes then.
    pub fn release(&mut self, permit: Permit) -> Result<(), (Permit, NotReserved)>
        ensures released { OnOk result (Releases self.old self.new permit) }
        ensures refused { OnErr result (¬ IsReserved self.old permit) }
        ensures handed_back { IfErr result (λ refused. refused.0 ≡ permit) }
        ensures unchanged { OnErr result (self.new ≡ self.old) }
    {
        if permit.kind != self.kind {
            return Err((permit, NotReserved));
        }
        let Some(at) = find_reserved(self.places.as_slice(), permit.number) else {
            return Err((permit, NotReserved));
        };
        self.places[at] = Place::Free;
        Ok(())
    }

    /// Ends reserving. Places that are reserved or held can still be used, released and freed.
    pub fn drain(&mut self)
        ensures { self.new ≡ record self.old { draining = true } }
    {
        self.draining = true;
    }

    /// Returns the index of the place that is held under the right, counted from 0, or `None` if
    /// there is none. A place keeps its index while it is held, so a list beside the slots can keep
    /// something for each held place.
    pub fn place_of(&self, held: &Held) -> Option<usize>
        ensures found { IfSome result (IsPlaceOf self.now held.now) }
        ensures missing { IfNone result (¬ IsHeld self.now held.now) }
    {
        if held.kind != self.kind {
            return None;
        }
        find_held(self.places.as_slice(), held.number)
    }

    /// Counts the free, reserved and held places.
    pub fn count(&self) -> SlotCount
        ensures count { result ≡ count_of self.now }
        ensures table { IsTable self.now }
    {
        let mut count = SlotCount {
            free: 0,
            reserved: 0,
            held: 0,
        };
        for place in &self.places {
            match place {
                Place::Free => count.free += 1,
                Place::Reserved(_) => count.reserved += 1,
                Place::InHand(_, _) => count.held += 1,
            }
        }
        count
    }
}

/// Returns the index of the first free place.
fn find_free(places: &[Place]) -> Option<usize>
    ensures { result ≡ position is_free places.now }
{
    places.iter().position(|place| matches!(place, Place::Free))
}

/// Returns the index of the place that is reserved under the number.
fn find_reserved(places: &[Place], number: u64) -> Option<usize>
    ensures { result ≡ position (is_reserved number) places.now }
{
    places.iter().position(|place| match place {
        Place::Reserved(other) => *other == number,
        _ => false,
    })
}

/// Returns the index of the place that is held under the number.
fn find_held(places: &[Place], number: u64) -> Option<usize>
    ensures { result ≡ position (is_held number) places.now }
{
    places.iter().position(|place| match place {
        Place::InHand(other, _) => *other == number,
        _ => false,
    })
}

/// Returns the index of the place that the task holds.
fn find_named(places: &[Place], name: TaskName) -> Option<usize>
    ensures { result ≡ position (is_named name) places.now }
{
    places.iter().position(|place| match place {
        Place::InHand(_, other) => other.0 == name.0,
        _ => false,
    })
}
