//! The sizes of a host, and the most that each may be.

ghost use Rattle.std.specs.Prelude.{◌↔◌, IsTrue};
ghost use Rattle.wh_slots.specs.Sizes.{IsConfig};

/// The most slots of one kind.
pub const MOST_SLOTS: usize = 1000;

/// The most runs that a cache may hold.
pub const MOST_RUNS: usize = 10_000;

/// The largest bound on the weight of the cached runs together.
pub const MOST_CACHED_EVENTS: u64 = 512_000_000;

/// The most seats of a host, and so the most threads that share it.
pub const MOST_SEATS: usize = 64;

/// The sizes of a host.
#[derive(Clone, Copy, PartialEq, Eq, Debug)]
pub struct Config {
    /// How many workflow tasks may be processed at once: 1 to 1,000.
    pub workflow_slots: usize,
    /// How many activity tasks may be processed at once: 1 to 1,000.
    pub activity_slots: usize,
    /// How many runs may be cached: 0 to 10,000, where 0 turns the cache off.
    pub cache: usize,
    /// The most that all cached runs together may weigh, one for each held event and one for each
    /// whole KiB of a run's input: 1 to 512,000,000, or 0 for no such bound.
    pub cache_events: u64,
    /// How many threads count tasks, each at a seat of its own: 1 to 64.
    pub seats: usize,
}

impl Config {
    /// Whether each size is within its range, so that a host of these sizes can be opened.
    pub fn is_within(&self) -> bool
        ensures { IsTrue result ↔ IsConfig self.now }
    {
        0 < self.workflow_slots
            && self.workflow_slots <= MOST_SLOTS
            && 0 < self.activity_slots
            && self.activity_slots <= MOST_SLOTS
            && self.cache <= MOST_RUNS
            && self.cache_events <= MOST_CACHED_EVENTS
            && 0 < self.seats
            && self.seats <= MOST_SEATS
    }
}
