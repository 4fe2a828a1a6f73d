//! Times of a policy that contradict each other.

ghost use Rattle.std.specs.Prelude.{◌≡◌};
ghost use Rattle.wh_policies.specs.Excesses as spec;
ghost use Rattle.wh_policies.specs.Excesses.{exceeds, excess_of_heartbeat, excess_of_retry, excess_of_retry_if_any};

use crate::policies::{ActivityPolicy, ChildPolicy, ContinuePolicy, RetryPolicy};

/// A time of a policy that is above another time of it, although a server refuses that or it has no
/// effect.
#[derive(Clone, Copy, Debug)]
pub(crate) enum Excess {
    /// The initial interval of retries is above the maximum one. A server refuses each command with
    /// such a policy.
    InitialInterval,
    /// The Heartbeat Timeout is above the Start-To-Close Timeout, so no heartbeat is ever missed.
    HeartbeatOfAttempt,
    /// The Heartbeat Timeout is above the Schedule-To-Close Timeout, so no heartbeat is ever
    /// missed.
    Heartbeat,
}

impl Excess {
    /// Returns the key of the time that is above another one, as policy files name it.
    pub(crate) fn time(self) -> &'static str
        ensures { result.now ≡ spec.time_of self }
    {
        match self {
            Excess::InitialInterval => "retry.initial_interval",
            Excess::HeartbeatOfAttempt | Excess::Heartbeat => "heartbeat",
        }
    }

    /// Returns the key of the other time, in the same table.
    pub(crate) fn limit(self) -> &'static str
        ensures { result.now ≡ spec.limit_of self }
    {
        match self {
            Excess::InitialInterval => "maximum_interval",
            Excess::HeartbeatOfAttempt => "start_to_close",
            Excess::Heartbeat => "schedule_to_close",
        }
    }
}

/// A policy, whose times may contradict each other.
pub(crate) trait Policy: Drop {
    ghost use Rattle.std.specs.Prelude.{◌≡◌, Option};
    ghost use Rattle.wh_policies.specs.declared.excess.Excess.{Excess};

    /// The first time that is above another one.
    ghost excess: { Self → Option Excess };

    /// Returns the first time that is above another one, if there is one.
    fn excess(&self) -> Option<Excess>
        ensures { result ≡ excess self.now };
}

/// Returns whether a time is above another one, if both are given.
fn exceeds(time: Option<u32>, limit: Option<u32>) -> bool
    ensures { result ≡ exceeds time limit }
{
    match (time, limit) {
        (Some(time), Some(limit)) => time > limit,
        _ => false,
    }
}

/// Returns the excess of a retry policy, if it has one.
fn excess_of_retry(retry: &RetryPolicy) -> Option<Excess>
    ensures { result ≡ excess_of_retry retry.now }
{
    if exceeds(retry.initial_interval, retry.maximum_interval) {
        Some(Excess::InitialInterval)
    } else {
        None
    }
}

/// Returns the excess of a retry policy, if there is a policy and it has one.
fn excess_of_retry_if_any(retry: &Option<RetryPolicy>) -> Option<Excess>
    ensures { result ≡ excess_of_retry_if_any retry.now }
{
    match retry {
        Some(retry) => excess_of_retry(retry),
        None => None,
    }
}

/// Returns the excess of an activity's Heartbeat Timeout, if it has one.
fn excess_of_heartbeat(policy: &ActivityPolicy) -> Option<Excess>
    ensures { result ≡ excess_of_heartbeat policy.now }
{
    if exceeds(policy.heartbeat, Some(policy.start_to_close)) {
        Some(Excess::HeartbeatOfAttempt)
    } else if exceeds(policy.heartbeat, policy.schedule_to_close) {
        Some(Excess::Heartbeat)
    } else {
        None
    }
}

impl Policy for ActivityPolicy {
    ghost use Rattle.wh_policies.specs.Excesses.{excess_of_activity};

    ghost excess = { excess_of_activity };

    fn excess(&self) -> Option<Excess> {
        match excess_of_heartbeat(self) {
            Some(excess) => Some(excess),
            None => excess_of_retry(&self.retry),
        }
    }
}

impl Policy for ChildPolicy {
    ghost use Rattle.wh_policies.specs.Excesses.{excess_of_child};

    ghost excess = { excess_of_child };

    fn excess(&self) -> Option<Excess> {
        excess_of_retry_if_any(&self.retry)
    }
}

impl Policy for ContinuePolicy {
    ghost use Rattle.wh_policies.specs.Excesses.{excess_of_continuation};

    ghost excess = { excess_of_continuation };

    fn excess(&self) -> Option<Excess> {
        excess_of_retry_if_any(&self.retry)
    }
}
