//! How far apart the heartbeats of an activity are sent.

ghost use Rattle.std.specs.Prelude.{◌≡◌, ◌≤◌};
ghost use Rattle.wh_tasks.specs.Pace.{interval_of, is_due};

use crate::activity_info::ActivityTimes;

/// The interval of an activity without a Heartbeat Timeout, in milliseconds.
const DEFAULT_INTERVAL: u64 = 30_000;

/// The Heartbeat Timeout of the longest interval, in milliseconds.
const LONGEST_TIMEOUT: u64 = 75_000;

/// Returns how many milliseconds there are at least from one heartbeat of an activity that is sent
/// to the next: four fifths of its Heartbeat Timeout, rounded down, at least 1 and at most 60,000.
/// 30,000 if no Heartbeat Timeout is told, or one of 0 (Temporal documentation, "Activity
/// Heartbeat", on throttling).
pub(crate) fn interval_of(times: &ActivityTimes) -> u64
    ensures { result ≡ interval_of times.now.heartbeat_timeout }
{
    match times.heartbeat_timeout {
        None | Some(0) => DEFAULT_INTERVAL,
        Some(timeout) => u64::max(1, u64::min(timeout, LONGEST_TIMEOUT) * 4 / 5),
    }
}

/// Returns whether a heartbeat is due `now`, by the time at which the last one was sent, both in
/// milliseconds of one clock: unless less than the interval has gone by. It is due too if there was
/// none, and if there was no time or the clock has gone back.
pub(crate) fn is_due(sent: Option<u64>, now: Option<u64>, interval: u64) -> bool
    ensures { result ≡ is_due sent now interval }
{
    match (sent, now) {
        (Some(sent), Some(now)) => now < sent || now - sent >= interval,
        _ => true,
    }
}
