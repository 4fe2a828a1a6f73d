//! How often a source fails.

ghost use Rattle.std.specs.Prelude.{◌≡◌, Err};
ghost use Rattle.wh_tasks.specs.Source.{FailsOnly};
ghost use Rattle.wh_notes.specs.Tallies.{no_failures, sum_of, with_failure, with_lost_task};

use wh_tasks::SourceFault;

/// How often a source has failed. A count stops at 2^64 - 1.
#[derive(Clone, Copy, PartialEq, Eq, Debug)]
pub struct Tally {
    /// Calls of the source that failed, including those after the bridge had closed.
    pub failures: u64,
    /// Calls of the source that failed while the bridge was open, and tasks that it gave up, since
    /// their histories could not be fetched.
    pub faults: u64,
}

impl Tally {
    /// Returns a tally of zeros.
    pub fn new() -> Tally
        ensures { result ≡ no_failures }
    {
        Tally {
            failures: 0,
            faults: 0,
        }
    }

    /// Adds what another source has counted.
    pub fn add(&mut self, other: Tally)
        ensures { self.new ≡ sum_of self.old other }
    {
        self.failures = self.failures.saturating_add(other.failures);
        self.faults = self.faults.saturating_add(other.faults);
    }

    /// Counts a task that was given up.
    pub(crate) fn lose_task(&mut self)
        ensures { self.new ≡ with_lost_task self.old }
    {
        self.faults = self.faults.saturating_add(1);
    }

    /// Counts a failed call, and returns the error of the source: `OutOfMemory` if the count of
    /// failures is full.
    pub fn count_failure(&mut self, is_fault: bool) -> SourceFault
        ensures counted { self.new ≡ with_failure is_fault self.old }
        ensures failures { FailsOnly {A = Unit {0}} (Err result) self.old.failures self.new.failures }
    {
        if is_fault {
            self.faults = self.faults.saturating_add(1);
        }
        if self.failures == u64::MAX {
            return SourceFault::OutOfMemory;
        }
        self.failures += 1;
        SourceFault::Source
    }
}
