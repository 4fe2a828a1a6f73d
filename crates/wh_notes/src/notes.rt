//! What a source has noted.

ghost use Rattle.std.specs.Prelude.{◌≡◌, ◌++◌, ◌∷◌, [], List};
ghost use Rattle.wh_client.specs.declared.notes.SourceNote.{SourceNote};
ghost use Rattle.wh_notes.specs.Notes.{counts_of};

use crate::counts::SourceCounts;
use std::marker::Model;
use wh_client::{Connection, SourceNote};
use wh_events::GhostList;

/// What a source has noted of its polls and answers. Only the counts of that take memory.
#[derive(Drop)]
pub struct SourceNotes {
    notes: GhostList<SourceNote>,
    counts: SourceCounts,
}

impl Model for SourceNotes {
    ghost Value = { List SourceNote };

    ghost view = { λ s. s.notes.items };

    ghost invariant = { λ s. s.counts ≡ counts_of s.notes.items };
}

impl SourceNotes {
    /// Returns the notes of a source that has done nothing.
    pub fn new() -> SourceNotes
        ensures { result ≡ [] }
    {
        SourceNotes {
            notes: GhostList::new(),
            counts: SourceCounts::none(),
        }
    }

    /// Notes something, and tells it who counts at the connection.
    #[tactic(auto, using(crate::proofs::Counting::noted_next))]
    pub fn note<L: Connection>(&mut self, connection: &L, note: SourceNote)
        ensures { self.new ≡ self.old ++ note ∷ [] }
    {
        connection.note(note, &mut self.notes);
        self.counts.count(note);
    }

    /// Returns what is counted of them.
    pub fn counts(&self) -> SourceCounts
        ensures { result ≡ counts_of self.now }
    {
        self.counts
    }
}
