//! What counts the polls and the answers of workers while they work.

use std::sync::{Mutex, Wait};
use wh_client::SourceNote;
use wh_crew::SourceObserver;
use wh_notes::SourceCounts;

/// Counts what the sources of all workers note. Many threads share it, so contracts don't see what
/// it holds: each call takes the lock and does one thing with what it holds, which a contract pins.
#[derive(Drop)]
pub(crate) struct SourceCounter<'a, R> {
    rt: &'a R,
    counts: Mutex<SourceCounts>,
}

impl<'a, R: Wait> SourceCounter<'a, R> {
    /// Returns one that has counted nothing.
    pub(crate) fn new(rt: &'a R) -> SourceCounter<'a, R> {
        SourceCounter {
            rt,
            counts: Mutex::new(SourceCounts::none()),
        }
    }

    /// Returns what was counted so far.
    pub(crate) fn now(&self) -> SourceCounts {
        *self.counts.lock(self.rt)
    }
}

impl<R: Wait> SourceObserver for SourceCounter<'_, R> {
    fn note(&self, note: SourceNote) {
        self.counts.lock(self.rt).count(note);
    }
}
