//! Notifications of the turns of a worker.

use crate::serve::Served;
use wh_tasks::SourceFault;

/// Is notified of what each turn of a worker did, for logs and metrics. Each worker has an observer
/// of its own. It is called after the turn, while no lock of the host is held.
pub trait Observer {
    ghost use Rattle.std.specs.Prelude.{Result};
    ghost use Rattle.wh_poll.specs.declared.serve.Served.{Served};
    ghost use Rattle.wh_tasks.specs.declared.source.SourceFault.{SourceFault};

    /// How the notification of a turn may change the observer.
    ghost hears: { Self → Result Served SourceFault → Self → Type 0 };

    /// Notifies the observer that a turn has ended, and what it did.
    fn observe(&mut self, turn: Result<Served, SourceFault>)
        ensures { hears self.old turn self.new };
}

/// The observer that does nothing.
#[derive(Drop)]
pub struct NoObserver;

impl Observer for NoObserver {
    ghost use Rattle.std.specs.Prelude.{◌≡◌};

    ghost hears = { λ old turn new. new ≡ old };

    fn observe(&mut self, _turn: Result<Served, SourceFault>) {}
}
