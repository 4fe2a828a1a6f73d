//! What a worker starts with, and what it leaves.

use wh_host::Shares;
use wh_tasks::SourceFault;

/// What a worker starts with, beside its seat.
#[derive(Drop)]
pub struct WorkerSetup<S, A, O> {
    /// The source that it polls and answers.
    pub source: S,
    /// Runs its activities.
    pub handler: A,
    /// Is notified of its turns.
    pub observer: O,
    /// The most turns that it takes.
    pub turns: u64,
}

/// What a worker leaves when it ends.
#[derive(Drop)]
pub struct WorkerEnd<S, A, O> {
    /// What its seat counted.
    pub counted: Shares,
    /// Its source, with the answers that it was sent.
    pub source: S,
    /// Its handler.
    pub handler: A,
    /// Its observer, which was notified of each turn.
    pub observer: O,
    /// The first fault of its source, if there was one.
    pub fault: Option<SourceFault>,
}
