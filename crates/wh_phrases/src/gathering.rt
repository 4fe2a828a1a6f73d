//! Gathers the values that differ of all tasks.

ghost use Rattle.std.specs.Prelude.{◌≡◌, ◌++◌, IfOk, OnOk, map, option_map, option_to_list};
ghost use Rattle.std.specs.List.{flat_map};
ghost use Rattle.serde_json.specs.View.{view};
ghost use Rattle.wh_phrases.specs.Gathered as gathered;

use crate::comparing::{OtherValue, value_of};
use serde_json::Value;
use std::alloc::Global;
use wh_events::{EventNo, OutOfMemory};
use wh_explained_tasks::{Ending, ExplainedTask, Pairing};
use wh_json::attributes_in;

/// The attributes of the event of a number.
fn attributes_at(members: &[Value], number: EventNo) -> Option<&Value>
    ensures { option_map (λ v. view v.now) result ≡ gathered.attributes_at (map view members.now) number }
{
    attributes_in(members.get(number.get().saturating_sub(1) as usize)?)
}

/// The value that differs of a command and the event that records it, if one does.
fn pairing_value(
    alloc: Global,
    members: &[Value],
    pairing: &Pairing,
) -> Result<Option<OtherValue>, OutOfMemory>
    ensures { IfOk result (λ value. value ≡ gathered.pairing_value (map view members.now) pairing.now) }
{
    let Pairing::Alike { command, event } = pairing else {
        return Ok(None);
    };
    let number = event.number;
    value_of(alloc, number, command, attributes_at(members, number))
}

/// Adds a value, if there is one.
fn push_value(values: &mut Vec<OtherValue>, value: Option<OtherValue>) -> Result<(), OutOfMemory>
    ensures { OnOk result (values.new.items ≡ values.old.items ++ option_to_list value) }
{
    if let Some(value) = value {
        values.push(value)?;
    }
    Ok(())
}

/// Adds the values that differ of pairings.
fn add_pairings(
    alloc: Global,
    members: &[Value],
    pairings: &[Pairing],
    values: &mut Vec<OtherValue>,
) -> Result<(), OutOfMemory>
    ensures { let more = flat_map (gathered.pairing_values (map view members.now)) pairings.now in
        OnOk result (values.new.items ≡ values.old.items ++ more) }
{
    for pairing in pairings {
        push_value(values, pairing_value(alloc, members, pairing)?)?;
    }
    Ok(())
}

/// Adds the values that differ of a task.
fn add_task(
    alloc: Global,
    members: &[Value],
    task: &ExplainedTask,
    values: &mut Vec<OtherValue>,
) -> Result<(), OutOfMemory>
    ensures { OnOk result
        (values.new.items ≡ values.old.items ++ gathered.task_values (map view members.now) task.now) }
{
    match &task.ending {
        Ending::Recorded { pairings } => add_pairings(alloc, members, pairings.get(), values),
        Ending::Refused | Ending::Live { .. } => Ok(()),
    }
}

/// Returns the values that differ of tasks, from the members of their history: inputs and results by
/// the encodings and the bytes of their payloads, durations of timers and messages of failures by
/// their texts. `OutOfMemory` if there was no memory for them.
pub fn values_in(
    alloc: Global,
    members: &[Value],
    tasks: &[ExplainedTask],
) -> Result<Vec<OtherValue>, OutOfMemory>
    ensures { IfOk result (λ values. values.items ≡ gathered.values_in (map view members.now) tasks.now) }
{
    let mut values = Vec::new(alloc);
    for task in tasks {
        add_task(alloc, members, task, &mut values)?;
    }
    Ok(values)
}
