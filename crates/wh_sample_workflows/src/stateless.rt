//! The state of workflows that need none.

/// The state of a workflow that needs none.
#[derive(Clone, Copy, Debug, PartialEq, Eq)]
pub struct NoState;
