//! A thing that a run opens under an id, as the run knows it in a task.

/// What a thing is in a task, by what happened before the task's commands.
#[derive(Clone, Copy)]
pub enum Phase {
    /// It is not open.
    Absent,
    /// It is open.
    Open,
    /// It is open, and was asked to cancel.
    AskedToCancel,
    /// It has ended since the task before, and the run is still to be told so.
    Ended,
    /// It has ended since the task before, and the run has been told so.
    EndTold,
}

/// What the commands of a task have done with a thing.
#[derive(Clone, Copy)]
pub enum Touch {
    /// Nothing.
    Untouched,
    /// They opened it.
    Opened,
    /// They opened it, and then canceled it.
    Withdrawn,
    /// They canceled what was open before them.
    Canceled,
}

/// The state of a thing in a task.
#[derive(Clone, Copy)]
pub struct ThingState {
    /// What it is.
    pub phase: Phase,
    /// What the commands of the task have done with it.
    pub touch: Touch,
    /// Whether it is a child that has started.
    pub started: bool,
}
