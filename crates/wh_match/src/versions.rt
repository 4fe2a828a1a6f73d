//! The settled versions.
ghost use Rattle.std.specs.Prelude.{◌≡◌, [], OnOk, OnErr};
ghost use Rattle.wh_workflow.specs.Scripts.{lookup_version, with_version};

use std::alloc::Global;
use std::collections::BTreeMap;
use std::marker::Model;
use wh_events::{OutOfMemory, Text};

/// The settled versions by change id. A change keeps the version that its first ask got (Temporal
/// documentation, patching and `GetVersion`: <https://docs.temporal.io/patching>). Contracts see
/// the list of the pairs.
#[derive(Debug, Drop)]
pub struct Versions {
    entries: Vec<(Text, i32)>,
    /// The same versions, ordered by change id for the look-up.
    by_change: BTreeMap<String, i32>,
    alloc: Global,
}

impl Model for Versions {
    ghost use Rattle.std.specs.Prelude.{◌≡◌, ℕ, ℤ, List};
    ghost use Rattle.std.specs.BTreeMap.{get_by_text};
    ghost use Rattle.wh_workflow.specs.Scripts.{lookup_version};

    ghost Value = { List (List ℕ × ℤ) };

    ghost view = { λ v. v.entries.items };

    ghost invariant = { λ v. (change_id : List ℕ) →
        get_by_text v.by_change change_id ≡ lookup_version change_id v.entries.items };
}

impl Versions {
    /// Returns versions with none settled. They take no memory until the first is settled.
    pub fn new(alloc: Global) -> Self
        ensures { result ≡ [] }
    {
        Versions {
            entries: Vec::new(alloc),
            by_change: BTreeMap::new(alloc),
            alloc,
        }
    }

    /// Returns the settled version of a change, if there is one. Version -1 is the code before the
    /// change.
    pub fn get(&self, change_id: &str) -> Option<i32>
        ensures { result ≡ lookup_version change_id.now self.now }
    {
        self.by_change.get(change_id).copied()
    }

    /// Settles the version of a change, unless it is settled already. After `OutOfMemory` nothing
    /// has changed.
    pub(crate) fn settle(&mut self, change_id: &str, version: i32) -> Result<(), OutOfMemory>
        ensures ok { OnOk result (self.new ≡ with_version self.old change_id.now version) }
        ensures err { OnErr result (self.new ≡ self.old) }
    {
        if self.get(change_id).is_none() {
            self.entries.reserve(1)?;
            let text = Text::new(String::from_str(self.alloc, change_id)?);
            let key = String::from_str(self.alloc, change_id)?;
            self.by_change.insert(key, version)?;
            self.entries.push_reserved((text, version));
        }
        Ok(())
    }
}
