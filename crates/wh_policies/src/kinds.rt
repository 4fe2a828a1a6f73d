//! Reads the policies of each kind.

ghost use Rattle.std.specs.Prelude.{◌≡◌, IfOk, codes};
ghost use Rattle.toml.specs.Data.{get_member};
ghost use Rattle.toml.specs.View.{table_view};
ghost use Rattle.wh_policies.specs.Kinds.{GivesClose, GivesReuse, close_named, reuse_named};

use crate::fault::{KeyFault, bad_value};
use crate::fields::{number_at, queue_at, seconds_at, text_at, text_in, truth_at, value_at};
use crate::policies::{
    ActivityPolicy, ChildPolicy, ContinuePolicy, FailurePolicy, IdReusePolicy, ParentClosePolicy,
};
use crate::reading::FromTable;
use crate::retries::{retry_at, retry_if_any};
use std::alloc::Global;
use toml::Table;

impl FromTable for ActivityPolicy {
    ghost use Rattle.wh_policies.specs.Kinds.{GivesActivity, knows_activity};

    ghost known = { knows_activity };

    ghost gives = { GivesActivity };

    fn knows(key: &str) -> bool {
        key == "task_queue"
            || key == "schedule_to_start"
            || key == "start_to_close"
            || key == "schedule_to_close"
            || key == "heartbeat"
            || key == "retry"
    }

    fn read(
        alloc: Global,
        table: &Table,
        otherwise: &ActivityPolicy,
    ) -> Result<ActivityPolicy, KeyFault> {
        let to_start = seconds_at(
            alloc,
            table,
            "schedule_to_start",
            otherwise.schedule_to_start,
        )?;
        let attempt = number_at(
            alloc,
            table,
            "start_to_close",
            1,
            u32::MAX,
            otherwise.start_to_close,
        )?;
        let to_close = seconds_at(
            alloc,
            table,
            "schedule_to_close",
            otherwise.schedule_to_close,
        )?;
        let heartbeat = seconds_at(alloc, table, "heartbeat", otherwise.heartbeat)?;
        let task_queue = queue_at(alloc, table, &otherwise.task_queue)?;
        let retry = retry_at(alloc, table, &otherwise.retry)?;
        Ok(ActivityPolicy {
            task_queue,
            schedule_to_start: to_start,
            start_to_close: attempt,
            schedule_to_close: to_close,
            heartbeat,
            retry,
        })
    }
}

/// Returns the Parent Close Policy of a name.
fn close_named(text: &str) -> Option<ParentClosePolicy>
    ensures { result ≡ close_named text.now }
{
    match text {
        "terminate" => Some(ParentClosePolicy::Terminate),
        "abandon" => Some(ParentClosePolicy::Abandon),
        "request_cancel" => Some(ParentClosePolicy::RequestCancel),
        _ => None,
    }
}

/// Reads the Parent Close Policy, or returns `otherwise` if the table does not have the key.
fn close_at(
    alloc: Global,
    table: &Table,
    otherwise: Option<ParentClosePolicy>,
) -> Result<Option<ParentClosePolicy>, KeyFault>
    ensures { IfOk result (GivesClose otherwise (get_member (codes "parent_close") (table_view table.now))) }
{
    let Some(value) = value_at(table, "parent_close") else {
        return Ok(otherwise);
    };
    let Some(text) = text_in(value) else {
        return Err(bad_value(alloc, "parent_close"));
    };
    match close_named(text) {
        Some(policy) => Ok(Some(policy)),
        None => Err(bad_value(alloc, "parent_close")),
    }
}

/// Returns the Workflow Id Reuse Policy of a name.
fn reuse_named(text: &str) -> Option<IdReusePolicy>
    ensures { result ≡ reuse_named text.now }
{
    match text {
        "allow_duplicate" => Some(IdReusePolicy::AllowDuplicate),
        "allow_duplicate_failed_only" => Some(IdReusePolicy::AllowDuplicateFailedOnly),
        "reject_duplicate" => Some(IdReusePolicy::RejectDuplicate),
        _ => None,
    }
}

/// Reads the Workflow Id Reuse Policy, or returns `otherwise` if the table does not have the key.
fn reuse_at(
    alloc: Global,
    table: &Table,
    otherwise: Option<IdReusePolicy>,
) -> Result<Option<IdReusePolicy>, KeyFault>
    ensures { IfOk result (GivesReuse otherwise (get_member (codes "id_reuse") (table_view table.now))) }
{
    let Some(value) = value_at(table, "id_reuse") else {
        return Ok(otherwise);
    };
    let Some(text) = text_in(value) else {
        return Err(bad_value(alloc, "id_reuse"));
    };
    match reuse_named(text) {
        Some(policy) => Ok(Some(policy)),
        None => Err(bad_value(alloc, "id_reuse")),
    }
}

impl FromTable for ChildPolicy {
    ghost use Rattle.wh_policies.specs.Kinds.{GivesChild, knows_child};

    ghost known = { knows_child };

    ghost gives = { GivesChild };

    fn knows(key: &str) -> bool {
        key == "task_queue"
            || key == "execution_timeout"
            || key == "run_timeout"
            || key == "task_timeout"
            || key == "parent_close"
            || key == "id_reuse"
            || key == "retry"
    }

    fn read(
        alloc: Global,
        table: &Table,
        otherwise: &ChildPolicy,
    ) -> Result<ChildPolicy, KeyFault> {
        let execution = seconds_at(
            alloc,
            table,
            "execution_timeout",
            otherwise.execution_timeout,
        )?;
        let run = seconds_at(alloc, table, "run_timeout", otherwise.run_timeout)?;
        let task = seconds_at(alloc, table, "task_timeout", otherwise.task_timeout)?;
        let parent_close = close_at(alloc, table, otherwise.parent_close)?;
        let id_reuse = reuse_at(alloc, table, otherwise.id_reuse)?;
        let task_queue = queue_at(alloc, table, &otherwise.task_queue)?;
        let retry = retry_if_any(alloc, table, &otherwise.retry)?;
        Ok(ChildPolicy {
            task_queue,
            execution_timeout: execution,
            run_timeout: run,
            task_timeout: task,
            parent_close,
            id_reuse,
            retry,
        })
    }
}

impl FromTable for FailurePolicy {
    ghost use Rattle.wh_policies.specs.Kinds.{GivesFailure, knows_failure};

    ghost known = { knows_failure };

    ghost gives = { GivesFailure };

    fn knows(key: &str) -> bool {
        key == "type" || key == "retryable"
    }

    fn read(
        alloc: Global,
        table: &Table,
        otherwise: &FailurePolicy,
    ) -> Result<FailurePolicy, KeyFault> {
        let failure_type = text_at(alloc, table, "type", &otherwise.failure_type)?;
        let retryable = truth_at(alloc, table, "retryable", otherwise.retryable)?;
        Ok(FailurePolicy {
            failure_type,
            retryable,
        })
    }
}

impl FromTable for ContinuePolicy {
    ghost use Rattle.wh_policies.specs.Kinds.{GivesContinuation, knows_continuation};

    ghost known = { knows_continuation };

    ghost gives = { GivesContinuation };

    fn knows(key: &str) -> bool {
        key == "task_queue" || key == "run_timeout" || key == "task_timeout" || key == "retry"
    }

    fn read(
        alloc: Global,
        table: &Table,
        otherwise: &ContinuePolicy,
    ) -> Result<ContinuePolicy, KeyFault> {
        let run = seconds_at(alloc, table, "run_timeout", otherwise.run_timeout)?;
        let task = seconds_at(alloc, table, "task_timeout", otherwise.task_timeout)?;
        let task_queue = queue_at(alloc, table, &otherwise.task_queue)?;
        let retry = retry_if_any(alloc, table, &otherwise.retry)?;
        Ok(ContinuePolicy {
            task_queue,
            run_timeout: run,
            task_timeout: task,
            retry,
        })
    }
}
