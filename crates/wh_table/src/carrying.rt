//! Checks the commands of a step, and adds the table to the input of a new run.
ghost use Rattle.std.specs.Prelude.{◌≡◌, ◌++◌, IfOk, map};
ghost use Rattle.wh_workflow.specs.Law.{is_ask, is_marker, asks_last, records_none};
ghost use Rattle.wh_table.specs.Carrying.{is_answer, with_table, held};

use std::alloc::Global;
use wh_events::{Items, OutOfMemory, Payload, Text};
use wh_workflow::Command;

/// Returns whether the command asks for a version.
fn is_ask(command: &Command) -> bool
    ensures { result ≡ is_ask command.now }
{
    matches!(command, Command::Ask { .. })
}

/// Returns whether the command records a version.
fn is_marker(command: &Command) -> bool
    ensures { result ≡ is_marker command.now }
{
    matches!(command, Command::Marker { .. })
}

/// Returns whether no command but the last one asks for a version.
fn asks_last(commands: &[Command]) -> bool
    ensures { result ≡ asks_last commands.now }
{
    let mut asked = false;
    for command in commands {
        if asked {
            return false;
        }
        asked = is_ask(command);
    }
    true
}

/// Returns whether no command records a version.
fn records_none(commands: &[Command]) -> bool
    ensures { result ≡ records_none commands.now }
{
    for command in commands {
        if is_marker(command) {
            return false;
        }
    }
    true
}

/// Returns whether a step may return these commands: at most 64, none records a version, and only
/// the last may ask for one.
fn is_answer(commands: &[Command]) -> bool
    ensures { result ≡ is_answer commands.now }
{
    commands.len() <= 64 && (asks_last(commands) && records_none(commands))
}

/// Returns the payloads of both lists, one list after the other.
fn join_payloads(
    alloc: Global,
    front: &[Payload],
    back: Items<Payload>,
) -> Result<Items<Payload>, OutOfMemory>
    ensures { IfOk result (λ both. both ≡ front.now ++ back) }
{
    let mut both = Vec::new(alloc);
    for payload in front {
        let copy = payload.try_copy()?;
        both.push(copy)?;
    }
    let mut back = back.into_inner();
    both.append(&mut back)?;
    Ok(Items::new(both))
}

/// Returns the command; if it continues as a new run of the same table, with the run's type and
/// with the table before its input.
fn with_table(
    alloc: Global,
    kind: &Text,
    table: &[Payload],
    given: Command,
) -> Result<Command, OutOfMemory>
    ensures { IfOk result (λ carried. carried ≡ with_table kind.now table.now given) }
{
    match given {
        Command::ContinueAsNew { workflow, input } => {
            if workflow.get().is_empty() {
                Ok(Command::ContinueAsNew {
                    workflow: kind.try_copy()?,
                    input: join_payloads(alloc, table, input)?,
                })
            } else {
                Ok(Command::ContinueAsNew { workflow, input })
            }
        }
        given => Ok(given),
    }
}

/// Returns the commands; those that continue as a new run of the same table get the table before
/// their input.
fn carry(
    alloc: Global,
    kind: &Text,
    table: &[Payload],
    given: Vec<Command>,
) -> Result<Vec<Command>, OutOfMemory>
    ensures { IfOk result (λ carried. carried.items ≡ map (with_table kind.now table.now) given.items) }
{
    let mut carried = Vec::new(alloc);
    for command in given {
        let command = with_table(alloc, kind, table, command)?;
        carried.push(command)?;
    }
    Ok(carried)
}

/// Returns the commands with the table added, or none if a step may not return them.
pub(crate) fn commands_with_table(
    alloc: Global,
    kind: &Text,
    table: &[Payload],
    given: Vec<Command>,
) -> Result<Vec<Command>, OutOfMemory>
    ensures { IfOk result (λ carried. carried.items ≡ held kind.now table.now given.items) }
{
    if is_answer(given.as_slice()) {
        carry(alloc, kind, table, given)
    } else {
        Ok(Vec::new(alloc))
    }
}
