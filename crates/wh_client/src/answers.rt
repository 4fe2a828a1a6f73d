//! The answers to tasks, as they are sent.

use crate::codes::Receipt;

/// Which answer to a task it is.
#[derive(Clone, Copy, PartialEq, Eq, Debug)]
pub enum AnswerKind {
    /// The completion of a workflow task.
    WorkflowCompletion,
    /// The failure of a workflow task.
    WorkflowFailure,
    /// The completion of an activity task, with the activity's result.
    ActivityCompletion,
    /// The failure of an activity task, or that its activity was canceled.
    ActivityFailure,
}

/// An answer to a task that was sent.
#[derive(Clone, Copy, Debug)]
pub struct SentAnswer {
    /// Which answer it is.
    pub kind: AnswerKind,
    /// What became of it.
    pub receipt: Receipt,
    /// How long the task was in hand until that was known, in microseconds: since its poll returned.
    pub microseconds: u64,
}
