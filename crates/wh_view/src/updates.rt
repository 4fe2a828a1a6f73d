//! Reads what events say of an update.

ghost use Rattle.std.specs.Prelude.{◌≡◌, IfOk, option_map};
ghost use Rattle.serde_json.specs.View.{view};
ghost use Rattle.wh_view.specs.Updates as updates;

use crate::attributes::{copy_inner, inner, inner_text};
use crate::details::first_text;
use crate::view::{UpdateName, UpdateStep};
use serde_json::Value;
use std::alloc::Global;
use wh_events::OutOfMemory;
use wh_json::field;
use wh_markers::copy_text;

/// Returns the step that a type of this name stands for, in either of its spellings.
#[tactic(auto, unfolding(crate::specs::Updates::step_named))]
pub(crate) fn step_named(name: &str) -> Option<UpdateStep>
    ensures { result ≡ updates.step_named name.now }
{
    if name == "WorkflowExecutionUpdateAccepted"
        || name == "EVENT_TYPE_WORKFLOW_EXECUTION_UPDATE_ACCEPTED"
    {
        Some(UpdateStep::Accepted)
    } else if name == "WorkflowExecutionUpdateCompleted"
        || name == "EVENT_TYPE_WORKFLOW_EXECUTION_UPDATE_COMPLETED"
    {
        Some(UpdateStep::Completed)
    } else if name == "WorkflowExecutionUpdateRejected"
        || name == "EVENT_TYPE_WORKFLOW_EXECUTION_UPDATE_REJECTED"
    {
        Some(UpdateStep::Rejected)
    } else if name == "WorkflowExecutionUpdateAdmitted"
        || name == "EVENT_TYPE_WORKFLOW_EXECUTION_UPDATE_ADMITTED"
    {
        Some(UpdateStep::Admitted)
    } else {
        None
    }
}

/// Returns the plain name of the type of a step.
pub(crate) fn name_of_step(step: UpdateStep) -> &'static str
    ensures { result.now ≡ updates.name_of_step step }
{
    match step {
        UpdateStep::Admitted => "WorkflowExecutionUpdateAdmitted",
        UpdateStep::Accepted => "WorkflowExecutionUpdateAccepted",
        UpdateStep::Rejected => "WorkflowExecutionUpdateRejected",
        UpdateStep::Completed => "WorkflowExecutionUpdateCompleted",
    }
}

/// Returns the request of an update that attributes hold.
pub(crate) fn request_in<'v>(attributes: Option<&'v Value>) -> Option<&'v Value>
    ensures { option_map (λ v. view v.now) result
        ≡ updates.request_in (option_map (λ v. view v.now) attributes.entry) }
{
    match field(attributes, "acceptedRequest") {
        Some(request) => Some(request),
        None => match field(attributes, "rejectedRequest") {
            Some(request) => Some(request),
            None => field(attributes, "request"),
        },
    }
}

/// Returns the arguments of an update that attributes hold.
#[tactic(auto, unfolding(crate::specs::Updates::arguments_in))]
pub(crate) fn arguments_in<'v>(attributes: Option<&'v Value>) -> Option<&'v Value>
    ensures { option_map (λ v. view v.now) result
        ≡ updates.arguments_in (option_map (λ v. view v.now) attributes.entry) }
{
    inner(request_in(attributes), "input", "args")
}

/// Returns the id of the update of which attributes tell that hold this request.
fn id_in<'v>(attributes: Option<&'v Value>, request: Option<&'v Value>) -> &'v str
    requires { option_map (λ v. view v.now) request
        ≡ updates.request_in (option_map (λ v. view v.now) attributes) }
    ensures { result.now ≡ updates.id_in (option_map (λ v. view v.now) attributes.entry) }
{
    let asked = inner_text(request, "meta", "updateId");
    let done = inner_text(attributes, "meta", "updateId");
    first_text(asked, done)
}

/// Returns the id and the name of the update of which attributes tell.
pub(crate) fn update_of(
    alloc: Global,
    attributes: Option<&Value>,
) -> Result<UpdateName, OutOfMemory>
    ensures { IfOk result (λ update. update ≡ updates.update_of (option_map (λ v. view v.now) attributes.entry)) }
{
    let request = request_in(attributes);
    let id = copy_text(alloc, id_in(attributes, request))?;
    let name = copy_inner(alloc, request, "input", "name")?;
    Ok(UpdateName { id, name })
}
