//! Writes the options of a command.

ghost use Rattle.std.specs.Prelude.{◌≡◌, IfOk, OnOk, codes, map, option_map};
ghost use Rattle.serde_json.specs.Data.{string, put};
ghost use Rattle.serde_json.specs.View.{view, members_view};
ghost use Rattle.wh_commands.specs.Objects.{put_given, with_member};
ghost use Rattle.wh_commands.specs.Policies as spec;
ghost use Rattle.wh_commands.specs.Commands.{typed_failure};
ghost use Rattle.wh_commands.specs.Policies.{activity_asked, attempts_asked, child_asked, continued_asked, info_of};
ghost use Rattle.wh_commands.specs.Policies.{float_written, queue_asked, retry_written, seconds_written};
ghost use Rattle.wh_commands.specs.Policies.{texts_given};

use crate::names::WorkerNames;
use crate::object::{Members, failure_with, put_copy, put_duration, put_text};
use serde_json::{Map, Value, put};
use std::alloc::{AllocError, Global};
use wh_events::Text;
use wh_policies::{
    ActivityPolicy, ChildPolicy, ContinuePolicy, FailurePolicy, IdReusePolicy, ParentClosePolicy,
    RetryPolicy,
};

/// Returns the Task Queue that the policy sets, otherwise the one that all workers poll.
pub(crate) fn queue_asked<'a>(names: &'a WorkerNames, asked: &'a Option<Text>) -> &'a str
    ensures { result.now ≡ queue_asked names.now asked.now }
{
    match asked {
        Some(queue) => queue.get(),
        None => names.task_queue.get(),
    }
}

/// Adds a duration of whole seconds under a name, if there is one.
fn put_seconds(
    members: &mut Members,
    alloc: Global,
    name: &str,
    seconds: Option<u32>,
) -> Result<(), AllocError>
    ensures { OnOk result (members_view members.new.entries
        ≡ with_member name.now (option_map seconds_written seconds) (members_view members.old.entries)) }
{
    match seconds {
        Some(seconds) => put_duration(members, alloc, name, seconds as u64),
        None => Ok(()),
    }
}

/// Adds the maximum number of attempts, unless it is 0: that leaves it to the server.
fn put_attempts(members: &mut Members, alloc: Global, attempts: u32) -> Result<(), AllocError>
    ensures { OnOk result (members_view members.new.entries
        ≡ with_member (codes "maximumAttempts") (attempts_asked attempts) (members_view members.old.entries)) }
{
    if attempts == 0 {
        return Ok(());
    }
    put(members, alloc, "maximumAttempts", Value::from(attempts))
}

/// Adds the factor by which intervals grow, if it is set.
fn put_coefficient(
    members: &mut Members,
    alloc: Global,
    coefficient: Option<f64>,
) -> Result<(), AllocError>
    ensures { OnOk result (members_view members.new.entries
        ≡ with_member (codes "backoffCoefficient") (option_map float_written coefficient)
        (members_view members.old.entries)) }
{
    match coefficient {
        Some(coefficient) => put(
            members,
            alloc,
            "backoffCoefficient",
            Value::from(coefficient),
        ),
        None => Ok(()),
    }
}

/// Copies texts as JSON values.
fn texts_written(alloc: Global, texts: &[Text]) -> Result<Vec<Value>, AllocError>
    ensures { IfOk result (λ values. map view values.items ≡ map string texts.now) }
{
    let mut values = Vec::new(alloc);
    for text in texts {
        values.push(Value::try_from_str(alloc, text.get())?)?;
    }
    Ok(values)
}

/// Copies texts as a JSON list, or returns `None` if there are none.
fn texts_given(alloc: Global, texts: &[Text]) -> Result<Option<Value>, AllocError>
    ensures { IfOk result (λ list. option_map view list ≡ texts_given texts.now) }
{
    if texts.is_empty() {
        return Ok(None);
    }
    let texts = texts_written(alloc, texts)?;
    Ok(Some(Value::Array(texts)))
}

/// Writes a retry policy. What it does not set is absent.
pub(crate) fn retry_written(alloc: Global, retry: &RetryPolicy) -> Result<Value, AllocError>
    ensures { IfOk result (λ value. view value ≡ retry_written retry.now) }
{
    let mut members = Map::new(alloc);
    put_attempts(&mut members, alloc, retry.maximum_attempts)?;
    put_seconds(
        &mut members,
        alloc,
        "initialInterval",
        retry.initial_interval,
    )?;
    put_seconds(
        &mut members,
        alloc,
        "maximumInterval",
        retry.maximum_interval,
    )?;
    put_coefficient(&mut members, alloc, retry.backoff_coefficient)?;
    let types = texts_given(alloc, retry.non_retryable.get())?;
    put_copy(&mut members, alloc, "nonRetryableErrorTypes", &types)?;
    Ok(Value::Object(members))
}

/// Adds the retry policy, if it is set.
fn put_retry(
    members: &mut Members,
    alloc: Global,
    retry: &Option<RetryPolicy>,
) -> Result<(), AllocError>
    ensures { OnOk result (members_view members.new.entries
        ≡ with_member (codes "retryPolicy") (option_map retry_written retry.now) (members_view members.old.entries)) }
{
    match retry {
        Some(retry) => put(members, alloc, "retryPolicy", retry_written(alloc, retry)?),
        None => Ok(()),
    }
}

/// Adds the timeouts of an activity, except the Start-To-Close Timeout.
pub(crate) fn put_activity(
    members: &mut Members,
    alloc: Global,
    policy: &ActivityPolicy,
) -> Result<(), AllocError>
    ensures { OnOk result (members_view members.new.entries
        ≡ put_given (activity_asked policy.now) (members_view members.old.entries)) }
{
    put_seconds(
        members,
        alloc,
        "scheduleToStartTimeout",
        policy.schedule_to_start,
    )?;
    put_seconds(
        members,
        alloc,
        "scheduleToCloseTimeout",
        policy.schedule_to_close,
    )?;
    put_seconds(members, alloc, "heartbeatTimeout", policy.heartbeat)
}

/// Returns the name of a Parent Close Policy.
fn parent_close_name(policy: ParentClosePolicy) -> &'static str
    ensures { result.now ≡ spec.parent_close_name policy }
{
    match policy {
        ParentClosePolicy::Terminate => "PARENT_CLOSE_POLICY_TERMINATE",
        ParentClosePolicy::Abandon => "PARENT_CLOSE_POLICY_ABANDON",
        ParentClosePolicy::RequestCancel => "PARENT_CLOSE_POLICY_REQUEST_CANCEL",
    }
}

/// Adds the Parent Close Policy, if it is set.
fn put_parent_close(
    members: &mut Members,
    alloc: Global,
    policy: Option<ParentClosePolicy>,
) -> Result<(), AllocError>
    ensures { OnOk result (members_view members.new.entries
        ≡ with_member (codes "parentClosePolicy") (option_map (λ p. string (spec.parent_close_name p)) policy)
        (members_view members.old.entries)) }
{
    match policy {
        Some(policy) => put_text(
            members,
            alloc,
            "parentClosePolicy",
            parent_close_name(policy),
        ),
        None => Ok(()),
    }
}

/// Returns the name of a Workflow Id Reuse Policy.
fn id_reuse_name(policy: IdReusePolicy) -> &'static str
    ensures { result.now ≡ spec.id_reuse_name policy }
{
    match policy {
        IdReusePolicy::AllowDuplicate => "WORKFLOW_ID_REUSE_POLICY_ALLOW_DUPLICATE",
        IdReusePolicy::AllowDuplicateFailedOnly =>
            "WORKFLOW_ID_REUSE_POLICY_ALLOW_DUPLICATE_FAILED_ONLY",
        IdReusePolicy::RejectDuplicate => "WORKFLOW_ID_REUSE_POLICY_REJECT_DUPLICATE",
    }
}

/// Adds the Workflow Id Reuse Policy, if it is set.
fn put_id_reuse(
    members: &mut Members,
    alloc: Global,
    policy: Option<IdReusePolicy>,
) -> Result<(), AllocError>
    ensures { OnOk result (members_view members.new.entries
        ≡ with_member (codes "workflowIdReusePolicy") (option_map (λ p. string (spec.id_reuse_name p)) policy)
        (members_view members.old.entries)) }
{
    match policy {
        Some(policy) => put_text(
            members,
            alloc,
            "workflowIdReusePolicy",
            id_reuse_name(policy),
        ),
        None => Ok(()),
    }
}

/// Adds the options of a child workflow.
pub(crate) fn put_child(
    members: &mut Members,
    alloc: Global,
    policy: &ChildPolicy,
) -> Result<(), AllocError>
    ensures { OnOk result (members_view members.new.entries
        ≡ put_given (child_asked policy.now) (members_view members.old.entries)) }
{
    put_seconds(
        members,
        alloc,
        "workflowExecutionTimeout",
        policy.execution_timeout,
    )?;
    put_seconds(members, alloc, "workflowRunTimeout", policy.run_timeout)?;
    put_seconds(members, alloc, "workflowTaskTimeout", policy.task_timeout)?;
    put_parent_close(members, alloc, policy.parent_close)?;
    put_id_reuse(members, alloc, policy.id_reuse)?;
    put_retry(members, alloc, &policy.retry)
}

/// Adds the options of a run that continues another as new.
pub(crate) fn put_continued(
    members: &mut Members,
    alloc: Global,
    policy: &ContinuePolicy,
) -> Result<(), AllocError>
    ensures { OnOk result (members_view members.new.entries
        ≡ put_given (continued_asked policy.now) (members_view members.old.entries)) }
{
    put_seconds(members, alloc, "workflowRunTimeout", policy.run_timeout)?;
    put_seconds(members, alloc, "workflowTaskTimeout", policy.task_timeout)?;
    put_retry(members, alloc, &policy.retry)
}

/// Adds the type of a failure, if it has one.
fn put_type(
    members: &mut Members,
    alloc: Global,
    failure_type: &Option<Text>,
) -> Result<(), AllocError>
    ensures { OnOk result (members_view members.new.entries
        ≡ with_member (codes "type") (option_map string failure_type.now) (members_view members.old.entries)) }
{
    match failure_type {
        Some(failure_type) => put_text(members, alloc, "type", failure_type.get()),
        None => Ok(()),
    }
}

/// Returns the mark of a failure that is not retried, or `None` if it may be.
fn non_retryable(retryable: bool) -> Option<Value>
    ensures { option_map view result ≡ spec.non_retryable retryable }
{
    if retryable {
        None
    } else {
        Some(Value::Bool(true))
    }
}

/// Writes the `applicationFailureInfo` of a failure.
pub(crate) fn failure_info(
    alloc: Global,
    failure_type: &Option<Text>,
    retryable: bool,
) -> Result<Value, AllocError>
    ensures { IfOk result (λ value. view value ≡ info_of failure_type.now retryable) }
{
    let mut members = Map::new(alloc);
    put_type(&mut members, alloc, failure_type)?;
    put_copy(
        &mut members,
        alloc,
        "nonRetryable",
        &non_retryable(retryable),
    )?;
    Ok(Value::Object(members))
}

/// Adds a failure under the name `failure`: with its type, if it has one, and the mark
/// `nonRetryable` if it is not retried.
pub fn put_typed_failure(
    members: &mut Members,
    alloc: Global,
    message: &str,
    failure_type: &Option<Text>,
    retryable: bool,
) -> Result<(), AllocError>
    ensures { OnOk result (members_view members.new.entries ≡ put (codes "failure")
        (typed_failure message.now failure_type.now retryable) (members_view members.old.entries)) }
{
    let info = failure_info(alloc, failure_type, retryable)?;
    let failure = failure_with(alloc, info, message)?;
    put(members, alloc, "failure", failure)
}
