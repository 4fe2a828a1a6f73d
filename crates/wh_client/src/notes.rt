//! What a source notes, for who counts it.

use crate::answers::SentAnswer;

/// What a poll came to that got a result or an error.
#[derive(Clone, Copy, Debug)]
pub enum PollOutcome {
    /// It got an empty response.
    Empty,
    /// It got a task, or a query.
    Task,
    /// It got an error, or a result that can't be read.
    Failure,
}

/// A poll or an answer of a source.
#[derive(Clone, Copy, Debug)]
pub enum SourceNote {
    /// A poll that got a result or an error.
    Poll(PollOutcome),
    /// An answer to a task that was sent.
    Answer(SentAnswer),
}
