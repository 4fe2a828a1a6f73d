//! Counts the turns of a worker.

use wh_poll::{Observer, Served, SourceFault};

/// Counts the workflow tasks that its worker has answered.
#[derive(Drop)]
pub(crate) struct HitCount {
    /// Those that were answered from a cached run.
    pub(crate) hits: u64,
    /// Those that were answered without one.
    pub(crate) misses: u64,
}

impl Observer for HitCount {
    ghost use Rattle.std.specs.Prelude.{◌≡◌};
    ghost use Rattle.bench_trials.specs.Hits.{heard};

    ghost hears = { λ old turn new. new ≡ heard old turn };

    fn observe(&mut self, turn: Result<Served, SourceFault>) {
        if let Ok(Served::Workflow { hit, .. }) = turn {
            if hit {
                self.hits = self.hits.saturating_add(1);
            } else {
                self.misses = self.misses.saturating_add(1);
            }
        }
    }
}
