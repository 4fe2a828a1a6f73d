//! The results of polls.

use std::alloc::AllocError;

/// The result of a poll.
#[derive(Debug, Drop)]
pub enum PollResult<T> {
    /// A task.
    Task(T),
    /// No task.
    Empty,
    /// Something other than a task to be delivered, which has been dealt with.
    Settled,
    /// A task that is given up, since its history could not be fetched or read: what is to be
    /// reported of it.
    Lost(Result<String, AllocError>),
}
