//! Reads failures, and what else attributes say of an ending.

ghost use Rattle.std.specs.Prelude.{◌≡◌, IfOk, option_map};
ghost use Rattle.serde_json.specs.View.{view};
ghost use Rattle.wh_view.specs.Failures as failures;

use crate::attributes::{copy_member, inner, inner_text};
use crate::details::first_text;
use crate::view::{Ending, ViewedFailure};
use serde_json::Value;
use std::alloc::Global;
use wh_events::OutOfMemory;
use wh_json::field;
use wh_markers::copy_text;

/// The most failures of an event that are viewed: what failed, and the causes of that.
pub const MOST_FAILURES: usize = 16;

/// Returns the type of a failure.
fn kind_of(failure: Option<&Value>) -> &str
    ensures { result.now ≡ failures.kind_of (option_map (λ v. view v.now) failure.entry) }
{
    let application = inner_text(failure, "applicationFailureInfo", "type");
    let timeout = inner_text(failure, "timeoutFailureInfo", "timeoutType");
    first_text(application, timeout)
}

/// Views a failure, without its cause.
fn failure_at(alloc: Global, failure: &Value) -> Result<ViewedFailure, OutOfMemory>
    ensures { IfOk result (λ viewed. viewed ≡ failures.failure_at (view failure.now)) }
{
    let kind = copy_text(alloc, kind_of(Some(failure)))?;
    let message = copy_member(alloc, Some(failure), "message")?;
    let stack_trace = copy_member(alloc, Some(failure), "stackTrace")?;
    Ok(ViewedFailure {
        kind,
        message,
        stack_trace,
    })
}

/// Views a failure and its causes, the outermost first.
#[tactic(auto, unfolding(crate::specs::Failures::failures_from))]
fn failures_from(
    alloc: Global,
    outermost: Option<&Value>,
) -> Result<Vec<ViewedFailure>, OutOfMemory>
    ensures { IfOk result (λ viewed. viewed.items
        ≡ failures.failures_from 16 (option_map (λ v. view v.now) outermost.entry)) }
{
    let mut viewed = Vec::new(alloc);
    let mut failure = outermost;
    for _depth in 0..MOST_FAILURES {
        let Some(current) = failure else {
            return Ok(viewed);
        };
        let one = failure_at(alloc, current)?;
        viewed.push(one)?;
        failure = field(Some(current), "cause");
    }
    Ok(viewed)
}

/// Returns the failure of an event, of its last attempt, or of an update.
fn outermost<'v>(attributes: Option<&'v Value>) -> Option<&'v Value>
    ensures { option_map (λ v. view v.now) result
        ≡ failures.outermost (option_map (λ v. view v.now) attributes.entry) }
{
    match field(attributes, "failure") {
        Some(failure) => Some(failure),
        None => match field(attributes, "lastFailure") {
            Some(failure) => Some(failure),
            None => inner(attributes, "outcome", "failure"),
        },
    }
}

/// Views the failure of an event and its causes.
pub(crate) fn failures_of(
    alloc: Global,
    attributes: Option<&Value>,
) -> Result<Vec<ViewedFailure>, OutOfMemory>
    ensures { IfOk result (λ viewed. viewed.items
        ≡ failures.failures_of (option_map (λ v. view v.now) attributes.entry)) }
{
    failures_from(alloc, outermost(attributes))
}

/// Returns why something ended, as far as its attributes say.
pub(crate) fn ending_of(alloc: Global, attributes: Option<&Value>) -> Result<Ending, OutOfMemory>
    ensures { IfOk result (λ ending. ending ≡ failures.ending_of (option_map (λ v. view v.now) attributes.entry)) }
{
    let retry_state = copy_member(alloc, attributes, "retryState")?;
    let timeout_type = copy_member(alloc, attributes, "timeoutType")?;
    let cause = copy_member(alloc, attributes, "cause")?;
    let next_run_id = copy_member(alloc, attributes, "newExecutionRunId")?;
    Ok(Ending {
        retry_state,
        timeout_type,
        cause,
        next_run_id,
    })
}
