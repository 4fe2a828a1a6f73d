//! Histories as letters, one for each event.
use std::alloc::Global;
use wh_events::{Event, EventKind, EventNo, OutOfMemory};
use wh_workflow::{no_payloads, text_of, texts_of};

/// The letters that `kind_of` knows, except those of starts.
pub(crate) const LETTERS: &[u8] = b"qscfngTUFCAarKkxmD";

/// Histories that a blinking workflow gives, and some that it can't give. An event that refers to
/// another refers to event 6.
pub(crate) const ROWS: [&[u8]; 15] = [
    b"",
    b"Bqs",
    b"BscscTFscT",
    b"BscscTscC",
    b"BscscTgscCTs",
    b"BsfscscTqs",
    b"BgggscT",
    b"OscscT",
    b"Bscsc",
    b"BscscU",
    b"BscscTD",
    b"BscscTDs",
    b"BscscTFF",
    b"BscscTT",
    b"BscF",
];

/// The start of a run of a workflow type.
pub(crate) fn start(alloc: Global, workflow: &str) -> Result<EventKind, OutOfMemory> {
    Ok(EventKind::WorkflowExecutionStarted {
        workflow: text_of(alloc, workflow)?,
        input: no_payloads(alloc),
    })
}

/// A signal.
pub(crate) fn signal(alloc: Global, name: &str) -> Result<EventKind, OutOfMemory> {
    Ok(EventKind::WorkflowExecutionSignaled {
        name: text_of(alloc, name)?,
        input: no_payloads(alloc),
    })
}

/// The start of a timer.
fn timer(alloc: Global, id: &str) -> Result<EventKind, OutOfMemory> {
    Ok(EventKind::TimerStarted {
        id: text_of(alloc, id)?,
    })
}

/// The scheduling of an activity.
fn activity(alloc: Global) -> Result<EventKind, OutOfMemory> {
    let (id, activity) = texts_of(alloc, "1", "race")?;
    Ok(EventKind::ActivityTaskScheduled { id, activity })
}

/// The start of a child.
fn child(alloc: Global) -> Result<EventKind, OutOfMemory> {
    let (workflow_id, workflow) = texts_of(alloc, "1", "Nap")?;
    Ok(EventKind::StartChildWorkflowExecutionInitiated {
        workflow_id,
        workflow,
    })
}

/// A request to cancel the child.
fn cancelling(alloc: Global) -> Result<EventKind, OutOfMemory> {
    Ok(EventKind::RequestCancelExternalWorkflowExecutionInitiated {
        workflow_id: text_of(alloc, "1")?,
    })
}

/// A marker of a change.
fn marker(alloc: Global) -> Result<EventKind, OutOfMemory> {
    Ok(EventKind::MarkerRecorded {
        change_id: text_of(alloc, "a")?,
        version: 1,
    })
}

/// The event without a text that a letter stands for, which refers to the event of this number, if
/// to any.
#[rattlefmt::skip]
fn plain_kind(letter: u8, number: u64) -> EventKind {
    match letter {
        b'q' => EventKind::WorkflowTaskScheduled,
        b's' => EventKind::WorkflowTaskStarted,
        b'c' => EventKind::WorkflowTaskCompleted,
        b'f' => EventKind::WorkflowTaskFailed,
        b'n' => EventKind::WorkflowTaskTimedOut,
        b'F' => EventKind::TimerFired { started: number },
        b'C' => EventKind::TimerCanceled { started: number },
        b'a' => EventKind::ActivityTaskStarted { scheduled: number },
        b'r' => EventKind::ActivityTaskCancelRequested { scheduled: number },
        b'x' => EventKind::ChildWorkflowExecutionCanceled { initiated: number },
        b'D' => EventKind::WorkflowExecutionCompleted,
        _ => EventKind::Inert,
    }
}

/// The event that a letter stands for, which refers to the event of this number, if to any.
fn kind_of(alloc: Global, letter: u8, number: u64) -> Result<EventKind, OutOfMemory> {
    match letter {
        b'B' => start(alloc, "Blink"),
        b'R' => start(alloc, "Racer"),
        b'O' => start(alloc, "Other"),
        b'g' => signal(alloc, "stop"),
        b'T' => timer(alloc, "t"),
        b'U' => timer(alloc, "u"),
        b'A' => activity(alloc),
        b'K' => child(alloc),
        b'k' => cancelling(alloc),
        b'm' => marker(alloc),
        _ => Ok(plain_kind(letter, number)),
    }
}

/// Appends the event that a letter stands for, which refers to the event of the number, if to any.
pub(crate) fn push(
    alloc: Global,
    events: &mut Vec<Event>,
    letter: u8,
    number: u64,
) -> Result<(), OutOfMemory> {
    append(events, 0, kind_of(alloc, letter, number)?)
}

/// Appends an event of the kind, with the next number, to events that come after so many others.
/// `OutOfMemory` also if the numbers end.
pub(crate) fn append(
    events: &mut Vec<Event>,
    after: u64,
    body: EventKind,
) -> Result<(), OutOfMemory> {
    let next = after.saturating_add(events.len() as u64).saturating_add(1);
    let Some(number) = EventNo::new(next) else {
        drop(body);
        return Err(OutOfMemory);
    };
    events.push(Event {
        number,
        time: 0,
        body,
    })?;
    Ok(())
}

/// Appends the events of a row.
fn push_row(alloc: Global, events: &mut Vec<Event>, row: &[u8]) -> Result<(), OutOfMemory> {
    for letter in row {
        push(alloc, events, *letter, 6)?;
    }
    Ok(())
}

/// The events of a row.
pub(crate) fn events_of(alloc: Global, row: &[u8]) -> Result<Vec<Event>, OutOfMemory> {
    let mut events = Vec::new(alloc);
    let pushed = push_row(alloc, &mut events, row);
    pushed.and(Ok(events))
}
