//! What is counted.

/// The task slots of a kind.
#[derive(Clone, Copy, PartialEq, Eq, Debug)]
pub struct TaskSlots {
    /// Those that a task has, or a poll.
    pub used: u64,
    /// Those that are free.
    pub available: u64,
}

/// How long tasks of a kind took, each from the response to the poll that gave it until the server
/// had acknowledged its answer.
#[derive(Clone, Copy, PartialEq, Eq, Debug)]
pub struct TaskTimes {
    /// How many tasks.
    pub count: u64,
    /// All of them together, in microseconds.
    pub sum: u64,
    /// The longest of them, in microseconds.
    pub longest: u64,
}

/// What a host holds now.
#[derive(Clone, Copy, PartialEq, Eq, Debug)]
pub struct Gauges {
    /// Tasks that are being processed, of both kinds.
    pub in_hand: u64,
    /// Runs in the sticky cache.
    pub cached: u64,
    /// Weight of the cached runs: one for each event and each whole KiB of a run's input.
    pub cached_events: u64,
    /// The slots of workflow tasks.
    pub workflow: TaskSlots,
    /// The slots of activity tasks.
    pub activity: TaskSlots,
}

/// What the workers of a host have counted since they began, and what the host holds now.
#[derive(Clone, Copy, PartialEq, Eq, Debug)]
pub struct Metrics {
    /// Tasks that were completed, and whose answer the server took.
    pub completed: u64,
    /// Tasks that failed: they were answered with a failure that the server took, or not at all.
    /// One that is given up as it comes is none of them.
    pub failed: u64,
    /// What the host holds, if that is known.
    pub held: Option<Gauges>,
    /// Workflow tasks that were answered from a cached run.
    pub hits: u64,
    /// Workflow tasks that were answered without one.
    pub misses: u64,
    /// Polls that got a result or an error.
    pub polls: u64,
    /// Polls that got an empty response.
    pub empty_polls: u64,
    /// Tasks that the server no longer had when they were answered.
    pub not_found: u64,
    /// Tasks whose answer the server refused for another reason, or did not respond to.
    pub refused: u64,
    /// How long workflow tasks took.
    pub workflow_times: TaskTimes,
    /// How long activity tasks took.
    pub activity_times: TaskTimes,
}
