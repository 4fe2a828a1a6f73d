//! Reads times, in milliseconds.

ghost use Rattle.std.specs.Prelude.{◌≡◌};
ghost use Rattle.serde_json.specs.View.{view};
ghost use Rattle.wh_messages.specs.Times as spec;

use jiff::Timestamp;
use serde_json::Value;
use wh_json::field;
use wh_tasks::ActivityTimes;
use wh_times::duration_in;

/// Returns the point in time that a text in the form of RFC 3339 denotes, in milliseconds since
/// 1970-01-01T00:00:00Z, rounded down. `None` for a text that `jiff` can't read as one, and for a
/// time a millisecond or more before that.
#[tactic(auto, unfolding(wh_json::specs::Fields::time_of))]
fn instant_of(text: &str) -> Option<u64>
    ensures { result ≡ spec.instant_of text.now }
{
    match text.parse::<Timestamp>() {
        Ok(time) => u64::try_from(time.as_millisecond()).ok(),
        Err(_) => None,
    }
}

/// Returns the point in time that the member of a name is. `None` if there is no such member.
fn instant_at(value: &Value, name: &str) -> Option<u64>
    ensures { result ≡ spec.instant_at name.now (view value.now) }
{
    instant_of(field(Some(value), name)?.as_str()?)
}

/// Returns the length of time that the member of a name is. `None` if there is no such member.
fn duration_at(value: &Value, name: &str) -> Option<u64>
    ensures { result ≡ spec.duration_at name.now (view value.now) }
{
    duration_in(field(Some(value), name)?.as_str()?)
}

/// Returns a timeout, unless it is 0, as a server writes one that is not set.
fn unless_zero(timeout: u64) -> Option<u64>
    ensures { result ≡ spec.unless_zero timeout }
{
    if timeout == 0 { None } else { Some(timeout) }
}

/// Returns the timeout that the member of a name is. `None` if there is no such member, or if it is
/// 0.
fn timeout_at(value: &Value, name: &str) -> Option<u64>
    ensures { result ≡ spec.timeout_at name.now (view value.now) }
{
    unless_zero(duration_at(value, name)?)
}

/// Returns the times that a response to `PollActivityTaskQueue` tells of its task.
pub(crate) fn times_in(value: &Value) -> ActivityTimes
    ensures { result ≡ spec.times_in (view value.now) }
{
    ActivityTimes {
        scheduled: instant_at(value, "scheduledTime"),
        attempt_scheduled: instant_at(value, "currentAttemptScheduledTime"),
        started: instant_at(value, "startedTime"),
        heartbeat_timeout: timeout_at(value, "heartbeatTimeout"),
        start_to_close: timeout_at(value, "startToCloseTimeout"),
        schedule_to_close: timeout_at(value, "scheduleToCloseTimeout"),
    }
}
