//! What a run carries over to the one that continues it.

ghost use Rattle.std.specs.Prelude.{◌≡◌, IfOk, Some, map, option_map, slice_get};
ghost use Rattle.std.specs.List.{list_any};
ghost use Rattle.serde_json.specs.View.{view};
ghost use Rattle.wh_json.specs.Fields.{field};
ghost use Rattle.wh_commands.specs.CarryingOver.{carried_by, carried_in, carried_seen, continues, nothing_carried};

use serde_json::Value;
use std::alloc::AllocError;
use wh_events::OutOfMemory;
use wh_json::field;
use wh_workflow::Command;

/// What a run carries over to the run that continues it (Temporal documentation,
/// "Continue-As-New"), each as in the event that started the run. These are JSON values that are
/// passed on unread.
#[derive(Debug, Drop)]
pub struct CarriedOver {
    /// Its memo.
    pub memo: Option<Value>,
    /// Its search attributes.
    pub search_attributes: Option<Value>,
    /// The retry policy of the run itself, and not that of its activities.
    pub retry_policy: Option<Value>,
}

impl CarriedOver {
    /// Returns the value that carries nothing over.
    pub fn nothing() -> CarriedOver
        ensures { carried_seen result ≡ nothing_carried }
    {
        CarriedOver {
            memo: None,
            search_attributes: None,
            retry_policy: None,
        }
    }
}

/// Copies the member of a name. A member that is null counts as missing.
fn member_copy(value: &Value, name: &str) -> Result<Option<Value>, AllocError>
    ensures { IfOk result (λ copy. option_map view copy ≡ field name.now (Some (view value.now))) }
{
    match field(Some(value), name) {
        Some(member) => Ok(Some(member.clone()?)),
        None => Ok(None),
    }
}

/// Returns what a run carries over, by the attributes of its first event.
fn carried_by(attributes: &Value) -> Result<CarriedOver, AllocError>
    ensures { IfOk result (λ carried. carried_seen carried ≡ carried_by (view attributes.now)) }
{
    let memo = member_copy(attributes, "memo")?;
    let search_attributes = member_copy(attributes, "searchAttributes")?;
    let retry_policy = member_copy(attributes, "retryPolicy")?;
    Ok(CarriedOver {
        memo,
        search_attributes,
        retry_policy,
    })
}

/// Returns the first of the members.
fn first_of(members: &[Value]) -> Option<&Value>
    ensures { option_map (λ v. view v.now) result ≡ slice_get (map view members.now) 0 }
{
    members.first()
}

/// Reads what a run carries over from the first event of its history. `None` if there is none, or
/// it is not the event that starts a run: it has no `workflowExecutionStartedEventAttributes`. A
/// value that is missing or null there is not carried over. `OutOfMemory` if there was no memory
/// for the copies.
pub fn carried_over(members: &[Value]) -> Result<Option<CarriedOver>, OutOfMemory>
    ensures { IfOk result (λ carried. option_map carried_seen carried ≡ carried_in (map view members.now)) }
{
    let attributes = field(first_of(members), "workflowExecutionStartedEventAttributes");
    match attributes {
        Some(attributes) => Ok(Some(carried_by(attributes)?)),
        None => Ok(None),
    }
}

/// Returns whether the command continues the run as a new one.
#[tactic(auto, unfolding(crate::specs::CarryingOver::continues))]
fn is_continue_as_new(command: &Command) -> bool
    ensures { result ≡ continues command.now }
{
    matches!(command, Command::ContinueAsNew { .. })
}

/// Returns whether one of the commands continues the run as a new one, so that `CarriedOver` is
/// needed.
pub fn continues_as_new(commands: &[Command]) -> bool
    ensures { result ≡ list_any continues commands.now }
{
    for command in commands {
        if is_continue_as_new(command) {
            return true;
        }
    }
    false
}
