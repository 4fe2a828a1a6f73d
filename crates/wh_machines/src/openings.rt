//! The table of the things that were opened.

ghost use Rattle.std.specs.Prelude.{◌≡◌, ℕ, Some, None, Option, IfSome, OnOk, OnErr, eqb, if◌then◌else◌};
ghost use Rattle.wh_machines.specs.Private.Changes.{with_opening, with_mark};

use crate::opening::Opening;
use slab::Slab;
use std::alloc::Global;
use std::collections::BTreeMap;
use wh_events::{Effect, EventNo, OutOfMemory};

/// The things that the events opened. Each is found by the number of its event.
#[derive(Drop)]
pub(crate) struct Openings {
    /// The things, each under a key.
    pub(crate) entries: Slab<Opening>,
    /// The key of the thing that the event of each number opened.
    pub(crate) keys: BTreeMap<u64, usize>,
}

impl Openings {
    ghost use Rattle.wh_machines.specs.Private.Tables.{IsSound, opening_in};

    /// Returns a table without things. It takes no memory.
    pub(crate) fn new(alloc: Global) -> Self
        ensures sound { IsSound result }
        ensures empty { (number : ℕ) → opening_in result number ≡ None }
    {
        Openings {
            entries: Slab::new(alloc),
            keys: BTreeMap::new(alloc),
        }
    }

    /// Returns the thing that the event of the number opened.
    pub(crate) fn find(&self, number: u64) -> Option<Opening>
        ensures { result ≡ opening_in self.now number }
    {
        let key = *self.keys.get(&number)?;
        self.entries.get(key).copied()
    }

    /// Enters an opening whose number is not in the table. After `OutOfMemory` the table is as it
    /// was.
    pub(crate) fn insert(&mut self, opening: Opening) -> Result<(), OutOfMemory>
        requires sound { IsSound self.old }
        requires unknown { opening_in self.old opening.number ≡ None }
        ensures sound { IsSound self.new }
        ensures ok { OnOk result ((number : ℕ) → opening_in self.new number
            ≡ with_opening (opening_in self.old) opening number) }
        ensures err { OnErr result ((number : ℕ) → opening_in self.new number ≡ opening_in self.old number) }
    {
        self.entries.reserve(1)?;
        let key = self.entries.vacant_key();
        self.keys.insert(opening.number.get(), key)?;
        self.entries.insert_reserved(opening);
        Ok(())
    }

    /// Removes the thing that the event of the number opened.
    pub(crate) fn remove(&mut self, number: u64)
        requires { IsSound self.old }
        ensures sound { IsSound self.new }
        ensures removed { (other : ℕ) → opening_in self.new other
            ≡ (if eqb number other then None else opening_in self.old other) }
    {
        if let Some(key) = self.keys.remove(&number) {
            let _ = self.entries.try_remove(key);
        }
    }

    /// Marks the thing that the event of the number opened, if there is one, with an effect.
    pub(crate) fn mark(&mut self, number: u64, effect: Effect, by: EventNo)
        requires { IsSound self.old }
        ensures sound { IsSound self.new }
        ensures marked { (other : ℕ) → opening_in self.new other
            ≡ with_mark (opening_in self.old) (Some number) effect by other }
    {
        let Some(key) = self.keys.get(&number).copied() else {
            return;
        };
        if let Some(opening) = self.entries.get_mut(key) {
            opening.mark(effect, by);
        }
    }
}
