//! How long tasks take.

ghost use Rattle.std.specs.Prelude.{◌≡◌};
ghost use Rattle.wh_notes.specs.Times.{lasted, no_times, times_together};

use wh_metrics::TaskTimes;

/// Returns the times of no task.
pub(crate) fn no_times() -> TaskTimes
    ensures { result ≡ no_times }
{
    TaskTimes {
        count: 0,
        sum: 0,
        longest: 0,
    }
}

/// Counts a task that took so many microseconds.
pub(crate) fn add_time(times: &mut TaskTimes, microseconds: u64)
    ensures { times.new ≡ lasted microseconds times.old }
{
    times.count = times.count.saturating_add(1);
    times.sum = times.sum.saturating_add(microseconds);
    times.longest = times.longest.max(microseconds);
}

/// Adds the times of other tasks.
pub(crate) fn add_times(times: &mut TaskTimes, other: TaskTimes)
    ensures { times.new ≡ times_together times.old other }
{
    times.count = times.count.saturating_add(other.count);
    times.sum = times.sum.saturating_add(other.sum);
    times.longest = times.longest.max(other.longest);
}
