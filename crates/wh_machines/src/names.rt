//! The last thing under each id.

ghost use Rattle.std.specs.Prelude.{◌≡◌, ℕ, List, None, OnOk, OnErr, string_bytes};
ghost use Rattle.std.specs.BTreeMap.{get_by_text};
ghost use Rattle.std.specs.Map.{update};
ghost use Rattle.std.specs.Str.{bytes_eq};
ghost use Rattle.wh_machines.specs.Private.Changes.{with_name};

use std::alloc::Global;
use std::collections::BTreeMap;
use wh_events::{EventNo, OutOfMemory, Thing};

/// The last thing that was opened under each id, for the kinds whose open things have different
/// ids.
#[derive(Drop)]
pub(crate) struct Names {
    /// The last activity under each id.
    pub(crate) activities: BTreeMap<String, EventNo>,
    /// The last timer under each id.
    pub(crate) timers: BTreeMap<String, EventNo>,
    /// The last child under each workflow id.
    pub(crate) children: BTreeMap<String, EventNo>,
}

/// Sets the last thing of an id. After `OutOfMemory` nothing has changed.
fn put(
    names: &mut BTreeMap<String, EventNo>,
    id: String,
    number: EventNo,
) -> Result<(), OutOfMemory>
    ensures ok { OnOk result ((other : List ℕ) → get_by_text names.new other
        ≡ update bytes_eq (get_by_text names.old) (string_bytes id) (Some number) other) }
    ensures err { OnErr result ((other : List ℕ) → get_by_text names.new other ≡ get_by_text names.old other) }
{
    names.insert(id, number)?;
    Ok(())
}

impl Names {
    ghost use Rattle.wh_machines.specs.Private.Tables.{named_in};

    /// Returns a table in which no id has a thing. It takes no memory.
    pub(crate) fn new(alloc: Global) -> Self
        ensures { (thing : Thing) (id : List ℕ) → named_in result thing id ≡ None }
    {
        Names {
            activities: BTreeMap::new(alloc),
            timers: BTreeMap::new(alloc),
            children: BTreeMap::new(alloc),
        }
    }

    /// Returns the last thing of a kind under an id, if the ids of the kind are kept.
    pub(crate) fn last(&self, thing: Thing, id: &str) -> Option<EventNo>
        ensures { result ≡ named_in self.now thing id.now }
    {
        match thing {
            Thing::Activity => self.activities.get(id).copied(),
            Thing::Timer => self.timers.get(id).copied(),
            Thing::Child => self.children.get(id).copied(),
            Thing::CancelRequest | Thing::SignalRequest => None,
        }
    }

    /// Sets the last thing of a kind under an id, if the ids of the kind are kept. After
    /// `OutOfMemory` nothing has changed.
    pub(crate) fn set(
        &mut self,
        alloc: Global,
        thing: Thing,
        id: &str,
        number: EventNo,
    ) -> Result<(), OutOfMemory>
        ensures ok { OnOk result ((other : Thing) (other_id : List ℕ) → named_in self.new other other_id
            ≡ with_name (named_in self.old) thing id.now number other other_id) }
        ensures err { OnErr result ((other : Thing) (other_id : List ℕ) → named_in self.new other other_id
            ≡ named_in self.old other other_id) }
    {
        match thing {
            Thing::Activity => put(&mut self.activities, String::from_str(alloc, id)?, number),
            Thing::Timer => put(&mut self.timers, String::from_str(alloc, id)?, number),
            Thing::Child => put(&mut self.children, String::from_str(alloc, id)?, number),
            Thing::CancelRequest | Thing::SignalRequest => Ok(()),
        }
    }
}
