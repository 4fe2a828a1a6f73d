//! Commands that are sent beside the recorded events.
ghost use Rattle.std.specs.Prelude.{◌≡◌, ◌++◌, ◌∷◌, [], List, if◌then◌else◌, IfOk, OnOk, IsOkAnd};
ghost use Rattle.wh_events.specs.declared.event.Event.{Event};
ghost use Rattle.wh_events.specs.Cuts.{is_commanded, commanded};
ghost use Rattle.wh_explained_tasks.specs.declared.Pairing.TheVariants.{Alike, Different, CommandMissing, CommandExtra};
ghost use Rattle.wh_explain.specs.Pairings.{referred_id, recorded_event, pairing_of, pairings, differs};

use std::alloc::Global;
use wh_events::{Class, Event, OutOfMemory, Role, Text, opened_id};
use wh_explained_tasks::{Pairing, RecordedEvent};
use wh_workflow::Command;

/// Returns the id of what the event refers to by a number, or nothing if it refers to nothing so.
fn referred_id<'a>(history: &'a [Event], event: &Event) -> &'a str
    ensures { result.now ≡ referred_id history.now event.now }
{
    match event.role() {
        Role::Refers { number, .. } => opened_id(history, number),
        Role::Opens { .. } | Role::CancelsChild { .. } | Role::Plain => "",
    }
}

/// Returns a recorded event, with what is shown of it.
fn recorded_event(
    alloc: Global,
    history: &[Event],
    event: &Event,
) -> Result<RecordedEvent, OutOfMemory>
    ensures { IfOk result (λ recorded. recorded ≡ recorded_event history.now event.now) }
{
    let id = Text::new(String::from_str(alloc, referred_id(history, event))?);
    Ok(RecordedEvent {
        number: event.number,
        kind: event.body.try_copy()?,
        id,
    })
}

/// Pairs copies of a command and of the event in its place.
fn pair(
    alloc: Global,
    history: &[Event],
    command: &Command,
    event: &Event,
) -> Result<Pairing, OutOfMemory>
    ensures { IfOk result (λ pairing. pairing ≡ pairing_of history.now command.now event.now) }
{
    let alike = command.names(history, &event.body);
    let event = recorded_event(alloc, history, event)?;
    match command.try_copy() {
        Ok(command) => Ok(Pairing::of(alike, command, event)),
        Err(full) => {
            drop(event);
            Err(full)
        }
    }
}

/// Returns the pairing of an event for which no command is left.
fn unpaired_event(alloc: Global, history: &[Event], event: &Event) -> Result<Pairing, OutOfMemory>
    ensures { IfOk result (λ pairing. pairing ≡ CommandMissing (recorded_event history.now event.now)) }
{
    Ok(Pairing::CommandMissing {
        event: recorded_event(alloc, history, event)?,
    })
}

/// Adds a pairing to `paired`, if there was memory for it.
fn add(pairing: Result<Pairing, OutOfMemory>, paired: &mut Vec<Pairing>) -> Result<(), OutOfMemory>
    ensures { OnOk result (IsOkAnd pairing (λ pairing. paired.new.items ≡ paired.old.items ++ pairing ∷ [])) }
{
    match pairing {
        Ok(pairing) => Ok(paired.push(pairing)?),
        Err(full) => Err(full),
    }
}

/// Adds the first of the commands for which no event is left, if there is one, to `paired`.
fn add_extra(left: &[Command], paired: &mut Vec<Pairing>) -> Result<(), OutOfMemory>
    ensures { (history : List Event) →
        OnOk result (paired.new.items ≡ paired.old.items ++ pairings history left.now []) }
{
    match left.first() {
        Some(command) => add(Pairing::of_command(command), paired),
        None => Ok(()),
    }
}

/// Whether the event records a command.
fn is_commanded(event: &Event) -> bool
    ensures { result ≡ is_commanded event.now }
{
    matches!(event.class(), Class::Commanded)
}

/// Adds the commands that are sent beside the events that record commands, up to the first
/// difference, to `paired`.
fn add_pairs(
    alloc: Global,
    history: &[Event],
    sent: &[Command],
    events: &[Event],
    paired: &mut Vec<Pairing>,
) -> Result<(), OutOfMemory>
    ensures { let here = pairings history.now sent.now (commanded events.now) in
        OnOk result (paired.new.items ≡ paired.old.items ++ here) }
{
    let mut index = 0;
    for event in events {
        if !is_commanded(event) {
            continue;
        }
        if index == sent.len() {
            return add(unpaired_event(alloc, history, event), paired);
        }
        let command = &sent[index];
        add(pair(alloc, history, command, event), paired)?;
        if !command.names(history, &event.body) {
            return Ok(());
        }
        index += 1;
    }
    add_extra(&sent[index..], paired)
}

/// Pairs the commands that are sent with the events that record commands, up to the first
/// difference.
pub(crate) fn pair_up(
    alloc: Global,
    history: &[Event],
    sent: &[Command],
    events: &[Event],
) -> Result<Vec<Pairing>, OutOfMemory>
    ensures { IfOk result (λ paired. paired.items ≡ pairings history.now sent.now (commanded events.now)) }
{
    let mut paired = Vec::new(alloc);
    add_pairs(alloc, history, sent, events, &mut paired)?;
    Ok(paired)
}

/// Whether the command differs from the record in a pairing.
pub fn differs(pairing: &Pairing) -> bool
    ensures { result ≡ differs pairing.now }
{
    !matches!(pairing, Pairing::Alike { .. })
}
