//! Results of the calls of a host.

ghost use Rattle.std.specs.Prelude.{Some};
ghost use Rattle.wh_host.specs.Texts.{totals_text};

use crate::cache::Put;
use std::fmt;
use wh_replay::Run;
use wh_slots::SlotCount;
use wh_workflow::Workflow;

/// How a task ended.
#[derive(Clone, Copy, PartialEq, Eq, Debug)]
pub enum Outcome {
    /// Its answer was sent, and was no failure.
    Completed,
    /// It was answered with a failure, or not at all.
    Failed,
}

/// What became of a run that was given back.
#[derive(Drop)]
pub enum Given<W: Workflow> {
    /// It was passed to the cache, with this result.
    Put(Put<W>),
    /// Its task's place is marked for eviction, so it is not cached.
    Marked(Run<W>),
    /// No workflow task with the run's key is held under the number.
    NotHeld(Run<W>),
}

/// What became of an evicted key.
#[derive(Clone, Copy, PartialEq, Eq, Debug)]
pub enum Evict {
    /// Its run was cached, and is not any more.
    Evicted,
    /// Its run was not cached, but a task of the key is being processed: its run won't be cached.
    Marked,
    /// Its run was not cached, and no task of the key is being processed.
    NotCached,
}

/// What a host counted since it was opened, and what it caches and holds now.
#[derive(Clone, Copy, PartialEq, Eq, Debug)]
pub struct Counts {
    /// Tasks taken, of both kinds.
    pub taken: u64,
    /// Tasks completed.
    pub completed: u64,
    /// Tasks failed.
    pub failed: u64,
    /// Tasks being processed now.
    pub in_hand: u64,
    /// Runs in the cache.
    pub cached: usize,
    /// The weight of the cached runs together: one for each held event, and one for each whole KiB
    /// of a run's input.
    pub cached_events: u64,
    /// Workflow slots by their use.
    pub workflow: SlotCount,
    /// Activity slots by their use.
    pub activity: SlotCount,
}

/// What all seats of a closed host counted. The tasks taken that were neither completed nor failed
/// are `in_hand`.
#[derive(Clone, Copy, PartialEq, Eq, Debug)]
pub struct Totals {
    /// Tasks that used a slot.
    pub taken: u64,
    /// Tasks that were finished as completed.
    pub completed: u64,
    /// Tasks that were finished as failed.
    pub failed: u64,
    /// Tasks that were not finished.
    pub in_hand: u64,
}

/// Writes the four counts in words, as the reports of `serve` and `work` have them.
impl fmt::Display for Totals {
    ghost output = { λ totals. Some (totals_text totals) };

    fn fmt<W: fmt::Write>(&self, f: &mut fmt::Formatter<W>) -> fmt::Result {
        let Totals {
            taken,
            completed,
            failed,
            in_hand,
        } = *self;
        write!(
            f,
            "taken {taken}, completed {completed}, failed {failed}, in hand {in_hand}"
        )
    }
}
