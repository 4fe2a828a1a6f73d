//! What is told of the polls and the answers of workers.

use wh_client::SourceNote;

/// Hears what the sources of a host note. Many workers share it.
pub trait SourceObserver {
    /// Notes a poll or an answer.
    fn note(&self, note: SourceNote);
}

/// The observer of sources that does nothing.
#[derive(Drop)]
pub(crate) struct NoSourceObserver;

impl SourceObserver for NoSourceObserver {
    fn note(&self, _note: SourceNote) {}
}
