//! The options of each kind of command.

ghost use Rattle.std.specs.Prelude.{◌≡◌, [], None};
ghost use Rattle.wh_policies.specs.Defaults as plain;

use crate::table::PolicyTable;
use std::alloc::Global;
use wh_events::{Items, Text};

/// How a failed activity or workflow is retried (Temporal documentation, "Retry Policies").
#[derive(Debug, Drop)]
pub struct RetryPolicy {
    /// The maximum number of attempts; 0 leaves it to the server, which retries without limit.
    pub maximum_attempts: u32,
    /// The seconds before the second attempt.
    pub initial_interval: Option<u32>,
    /// The maximum seconds between two attempts.
    pub maximum_interval: Option<u32>,
    /// The factor by which each interval is longer than the one before: a finite number of at least
    /// 1.
    pub backoff_coefficient: Option<f64>,
    /// The types of failures that are not retried.
    pub non_retryable: Items<Text>,
}

/// The options of an activity (Temporal documentation, "Detecting Activity failures"). Each time is
/// in seconds.
#[derive(Debug, Drop)]
pub struct ActivityPolicy {
    /// The Task Queue that it is scheduled on; `None` for the worker's own.
    pub task_queue: Option<Text>,
    /// Schedule-To-Start Timeout: how long it may wait for a worker.
    pub schedule_to_start: Option<u32>,
    /// Start-To-Close Timeout: how long one attempt may take. The server needs this time or
    /// `schedule_to_close`, so this one is always sent.
    pub start_to_close: u32,
    /// Schedule-To-Close Timeout: how long it may take with all its attempts.
    pub schedule_to_close: Option<u32>,
    /// Heartbeat Timeout: how long it may take between two heartbeats.
    pub heartbeat: Option<u32>,
    /// How it is retried.
    pub retry: RetryPolicy,
}

/// What becomes of a child whose parent closes (Temporal documentation, "Parent Close Policy").
#[derive(Clone, Copy, PartialEq, Eq, Debug)]
pub enum ParentClosePolicy {
    /// It is terminated.
    Terminate,
    /// It keeps running.
    Abandon,
    /// It is asked to cancel.
    RequestCancel,
}

/// Whether a child may have the id of a closed run (Temporal documentation, "Workflow Id Reuse
/// Policy").
#[derive(Clone, Copy, PartialEq, Eq, Debug)]
pub enum IdReusePolicy {
    /// It may.
    AllowDuplicate,
    /// Only if that run did not complete.
    AllowDuplicateFailedOnly,
    /// It may not.
    RejectDuplicate,
}

/// The options of a child workflow (Temporal documentation, "Child Workflows"). Each time is in
/// seconds.
#[derive(Debug, Drop)]
pub struct ChildPolicy {
    /// The Task Queue of its tasks; `None` for the worker's own.
    pub task_queue: Option<Text>,
    /// Workflow Execution Timeout: how long it may take with all its runs.
    pub execution_timeout: Option<u32>,
    /// Workflow Run Timeout: how long one of its runs may take.
    pub run_timeout: Option<u32>,
    /// Workflow Task Timeout: how long one of its workflow tasks may take.
    pub task_timeout: Option<u32>,
    /// What becomes of it when its parent closes.
    pub parent_close: Option<ParentClosePolicy>,
    /// Whether it may have the id of a closed run.
    pub id_reuse: Option<IdReusePolicy>,
    /// How it is retried; `None` if it is not.
    pub retry: Option<RetryPolicy>,
}

/// The type of a run's failure (Temporal documentation, "Failures").
#[derive(Debug, Drop)]
pub struct FailurePolicy {
    /// Its type, which retry policies refer to.
    pub failure_type: Option<Text>,
    /// Whether the run may be retried, if its retry policy says so.
    pub retryable: bool,
}

/// The options of the run that continues another as new (Temporal documentation,
/// "Continue-As-New"). Each time is in seconds.
#[derive(Debug, Drop)]
pub struct ContinuePolicy {
    /// The Task Queue of its tasks; `None` for the worker's own.
    pub task_queue: Option<Text>,
    /// Workflow Run Timeout: how long it may take.
    pub run_timeout: Option<u32>,
    /// Workflow Task Timeout: how long one of its workflow tasks may take.
    pub task_timeout: Option<u32>,
    /// How it is retried; `None` for the retry policy of the run that it continues.
    pub retry: Option<RetryPolicy>,
}

/// The options of the commands of workflows.
#[derive(Debug, Drop)]
pub struct Policies {
    /// Those of activities, by activity type.
    pub activities: PolicyTable<ActivityPolicy>,
    /// Those of child workflows, by workflow type.
    pub children: PolicyTable<ChildPolicy>,
    /// Those of failures of runs, by message.
    pub failures: PolicyTable<FailurePolicy>,
    /// Those of runs that continue others as new, by workflow type.
    pub continued: PolicyTable<ContinuePolicy>,
}

/// Returns a table without rows.
fn table_of<P>(alloc: Global, otherwise: P) -> PolicyTable<P>
    ensures rows { result.rows ≡ [] }
    ensures otherwise { result.otherwise ≡ otherwise }
{
    PolicyTable {
        rows: Items::new(Vec::new(alloc)),
        otherwise,
    }
}

impl RetryPolicy {
    /// Returns a policy with a maximum number of attempts; the rest is left to the server.
    pub fn attempts(alloc: Global, maximum_attempts: u32) -> RetryPolicy
        ensures { result ≡ plain.retry maximum_attempts }
    {
        RetryPolicy {
            maximum_attempts,
            initial_interval: None,
            maximum_interval: None,
            backoff_coefficient: None,
            non_retryable: Items::new(Vec::new(alloc)),
        }
    }
}

impl ActivityPolicy {
    /// Returns a policy with a Start-To-Close Timeout in seconds and a maximum number of attempts;
    /// the rest is left to the server.
    pub fn plain(alloc: Global, start_to_close: u32, attempts: u32) -> ActivityPolicy
        ensures { result ≡ plain.activity start_to_close attempts }
    {
        ActivityPolicy {
            task_queue: None,
            schedule_to_start: None,
            start_to_close,
            schedule_to_close: None,
            heartbeat: None,
            retry: RetryPolicy::attempts(alloc, attempts),
        }
    }
}

impl ChildPolicy {
    /// Returns a policy that leaves everything to the server.
    pub fn plain() -> ChildPolicy
        ensures { result ≡ plain.child }
    {
        ChildPolicy {
            task_queue: None,
            execution_timeout: None,
            run_timeout: None,
            task_timeout: None,
            parent_close: None,
            id_reuse: None,
            retry: None,
        }
    }
}

impl FailurePolicy {
    /// Returns the policy of a failure without a type, after which the run may be retried.
    pub fn plain() -> FailurePolicy
        ensures { result ≡ plain.failure }
    {
        FailurePolicy {
            failure_type: None,
            retryable: true,
        }
    }
}

impl ContinuePolicy {
    /// Returns a policy that leaves everything to the server, or as in the run that is continued.
    pub fn plain() -> ContinuePolicy
        ensures { result ≡ plain.continued }
    {
        ContinuePolicy {
            task_queue: None,
            run_timeout: None,
            task_timeout: None,
            retry: None,
        }
    }
}

impl Policies {
    /// Returns policies without rows: a Start-To-Close Timeout in seconds and a maximum number of
    /// attempts for each activity; the rest is left to the server.
    pub fn plain(alloc: Global, start_to_close: u32, attempts: u32) -> Policies
        ensures { result ≡ plain.policies start_to_close attempts }
    {
        Policies {
            activities: table_of(
                alloc,
                ActivityPolicy::plain(alloc, start_to_close, attempts),
            ),
            children: table_of(alloc, ChildPolicy::plain()),
            failures: table_of(alloc, FailurePolicy::plain()),
            continued: table_of(alloc, ContinuePolicy::plain()),
        }
    }
}
