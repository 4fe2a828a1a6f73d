//! What the response to a poll says of an activity task, beside what is to be done.

ghost use Rattle.std.specs.Prelude.{◌≡◌, IfOk};
ghost use Rattle.wh_tasks.specs.Infos.{first_attempt, no_times};

use wh_events::{Items, OutOfMemory, Payload};

/// The times of an activity task, as far as the server tells them: points in time in milliseconds
/// since 1970-01-01T00:00:00Z, and timeouts in milliseconds, all rounded down. `None` is a time
/// that the server does not tell, or that can't be read, and a timeout that is not set (Temporal
/// documentation, "Detecting Activity failures").
#[derive(Clone, Copy, Debug)]
pub struct ActivityTimes {
    /// When the activity was scheduled, before its first attempt.
    pub scheduled: Option<u64>,
    /// When this attempt was scheduled.
    pub attempt_scheduled: Option<u64>,
    /// When this attempt was given to a worker.
    pub started: Option<u64>,
    /// The Heartbeat Timeout: the longest time between two heartbeats.
    pub heartbeat_timeout: Option<u64>,
    /// The Start-To-Close Timeout: the longest time that one attempt takes.
    pub start_to_close: Option<u64>,
    /// The Schedule-To-Close Timeout: the longest time that all attempts take together.
    pub schedule_to_close: Option<u64>,
}

impl ActivityTimes {
    /// Returns the times of a task of which none are told.
    pub fn unknown() -> ActivityTimes
        ensures { result ≡ no_times }
    {
        ActivityTimes {
            scheduled: None,
            attempt_scheduled: None,
            started: None,
            heartbeat_timeout: None,
            start_to_close: None,
            schedule_to_close: None,
        }
    }
}

/// What the response to a poll says of an activity task, beside what is to be done: so a handler
/// can go on where an earlier attempt was (Temporal documentation, "Activity Heartbeat").
#[derive(Debug, Drop)]
pub struct ActivityInfo {
    /// Which attempt of the activity this is, counted from 1.
    pub attempt: u64,
    /// The details of the last heartbeat of an earlier attempt. `None` if there was none.
    pub heartbeat_details: Option<Items<Payload>>,
    /// The times of the task.
    pub times: ActivityTimes,
}

/// Copies the details of a heartbeat, if there are any.
fn details_copy(details: &Option<Items<Payload>>) -> Result<Option<Items<Payload>>, OutOfMemory>
    ensures { IfOk result (λ copy. copy ≡ details.now) }
{
    match details {
        Some(details) => Ok(Some(details.try_copy()?)),
        None => Ok(None),
    }
}

impl ActivityInfo {
    /// Returns the info of a first attempt, of which no times are told.
    pub fn of_first_attempt() -> ActivityInfo
        ensures { result ≡ first_attempt }
    {
        ActivityInfo {
            attempt: 1,
            heartbeat_details: None,
            times: ActivityTimes::unknown(),
        }
    }

    /// Returns an equal info, or `OutOfMemory` if there was no memory for the copy.
    pub fn try_copy(&self) -> Result<ActivityInfo, OutOfMemory>
        ensures { IfOk result (λ copy. copy ≡ self.now) }
    {
        let heartbeat_details = details_copy(&self.heartbeat_details)?;
        Ok(ActivityInfo {
            attempt: self.attempt,
            heartbeat_details,
            times: self.times,
        })
    }
}
