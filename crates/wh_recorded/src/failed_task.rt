//! A task that failed.

use wh_replay::Fault;

/// A polled task that no answer completes.
#[derive(Clone, Copy, Debug, PartialEq, Eq)]
pub struct FailedTask {
    /// The number of the event that starts it.
    pub at: u64,
    /// The fault that it was answered with, or `None` if it was not answered.
    pub fault: Option<Fault>,
}
