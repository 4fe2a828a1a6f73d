//! What the turns of live workers are counted by.

use crate::progress::ProgressReporter;
use std::sync::Wait;
use wh_poll::{Observer, Served, SourceFault};

/// Counts the tasks of its worker, if they are counted.
#[derive(Drop)]
pub(crate) struct Watch<'p, 'a, 's, R>(pub(crate) Option<&'p ProgressReporter<'a, 's, R>>);

impl<R: Wait> Observer for Watch<'_, '_, '_, R> {
    ghost use Rattle.std.specs.Prelude.{◌≡◌};

    ghost hears = { λ old turn new. new ≡ old };

    fn observe(&mut self, turn: Result<Served, SourceFault>) {
        if let Some(progress) = self.0 {
            progress.count(turn);
        }
    }
}
