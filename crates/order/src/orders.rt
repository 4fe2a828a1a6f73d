//! The tasks of orders, as a server would send them.

ghost use Rattle.std.specs.Prelude.{◌≡◌, IfOk, string_bytes};
ghost use Rattle.order.specs.Payloads.{json};

use crate::inbox::Inbox;
use std::alloc::Global;
use wh_events::{Event, EventKind, EventNo, Items, OutOfMemory, Payload, RunKey, Text};
use wh_poll::{ActivityTask, WorkflowTask};
use wh_slots::TaskName;
use wh_workflow::{no_payloads, text_of};

/// The time of all events: 2024-05-01T10:00:00Z, in nanoseconds since 1970.
const TIME: i128 = 1_714_557_600_000_000_000;

/// Returns the run of an order.
fn run_of(alloc: Global, order: u64) -> Result<RunKey, OutOfMemory> {
    Ok(RunKey {
        workflow_id: Text::new(format!(in alloc; "order-{order}")?),
        run_id: text_of(alloc, "first")?,
    })
}

/// Returns a JSON text as a payload.
pub(crate) fn json(alloc: Global, text: String) -> Result<Payload, OutOfMemory>
    ensures { IfOk result (λ payload. payload ≡ json (string_bytes text)) }
{
    let encoding = String::from_str(alloc, "json/plain")?;
    Ok(Payload {
        encoding: Items::new(encoding.into_bytes()),
        content: Items::new(text.into_bytes()),
    })
}

/// Returns the input of an order and of its charge: a price in cents, and the name that its child's
/// id has.
fn input_of(alloc: Global, order: u64) -> Result<Items<Payload>, OutOfMemory> {
    let price = json(alloc, String::from_str(alloc, "{\"cents\":1999}")?)?;
    let name = json(alloc, format!(in alloc; "\"order-{order}\"")?)?;
    Ok(Items::new(vec![in alloc; price, name]?))
}

/// Returns the name of a task of an order, by the number of an event.
fn name_of(order: u64, number: u64) -> TaskName {
    TaskName(u128::from(order) * 0x1_0000_0000_0000_0000 + u128::from(number))
}

/// Appends an event of this number, if it is a valid one.
fn add(events: &mut Vec<Event>, number: u64, body: EventKind) -> Result<(), OutOfMemory> {
    if let Some(number) = EventNo::new(number) {
        events.push(Event {
            number,
            time: TIME,
            body,
        })?;
    }
    Ok(())
}

/// Returns the events with which the order comes in.
fn opening_events(alloc: Global, order: u64) -> Result<Vec<Event>, OutOfMemory> {
    let mut events = Vec::new(alloc);
    let start = EventKind::WorkflowExecutionStarted {
        workflow: text_of(alloc, "Order")?,
        input: input_of(alloc, order)?,
    };
    add(&mut events, 1, start)?;
    add(&mut events, 2, EventKind::WorkflowTaskScheduled)?;
    add(&mut events, 3, EventKind::WorkflowTaskStarted)?;
    Ok(events)
}

/// Returns the events with which the card is charged; the receipt is the input of the charge.
fn charge_events(alloc: Global, order: u64) -> Result<Vec<Event>, OutOfMemory> {
    let mut events = Vec::new(alloc);
    add(&mut events, 4, EventKind::WorkflowTaskCompleted)?;
    add(
        &mut events,
        5,
        EventKind::ActivityTaskScheduled {
            id: text_of(alloc, "charge")?,
            activity: text_of(alloc, "ChargeCard")?,
        },
    )?;
    add(
        &mut events,
        6,
        EventKind::ActivityTaskStarted { scheduled: 5 },
    )?;
    add(
        &mut events,
        7,
        EventKind::ActivityTaskCompleted {
            scheduled: 5,
            result: input_of(alloc, order)?,
        },
    )?;
    add(&mut events, 8, EventKind::WorkflowTaskScheduled)?;
    add(&mut events, 9, EventKind::WorkflowTaskStarted)?;
    Ok(events)
}

/// Returns the events with which the order is held, until the hold ends.
fn hold_events(alloc: Global, order: u64) -> Result<Vec<Event>, OutOfMemory> {
    let mut events = Vec::new(alloc);
    add(&mut events, 10, EventKind::WorkflowTaskCompleted)?;
    add(
        &mut events,
        11,
        EventKind::TimerStarted {
            id: text_of(alloc, "hold")?,
        },
    )?;
    add(&mut events, 12, hold_end(alloc, order)?)?;
    add(&mut events, 13, EventKind::WorkflowTaskScheduled)?;
    add(&mut events, 14, EventKind::WorkflowTaskStarted)?;
    Ok(events)
}

/// Returns the event that ends the hold of an order: its timer, but for every third order, which
/// the customer calls off.
fn hold_end(alloc: Global, order: u64) -> Result<EventKind, OutOfMemory> {
    if order % 3 != 0 {
        return Ok(EventKind::TimerFired { started: 11 });
    }
    Ok(EventKind::WorkflowExecutionSignaled {
        name: text_of(alloc, "cancel")?,
        input: no_payloads(alloc),
    })
}

/// Returns the workflow task whose events begin with a number.
fn workflow_task(
    alloc: Global,
    order: u64,
    first: u64,
    events: Vec<Event>,
) -> Result<WorkflowTask, OutOfMemory> {
    Ok(WorkflowTask {
        name: name_of(order, first),
        run: run_of(alloc, order)?,
        events: Items::new(events),
    })
}

/// Returns the activity task that charges for the order.
fn charge_task(alloc: Global, order: u64) -> Result<ActivityTask, OutOfMemory> {
    Ok(ActivityTask {
        name: name_of(order, 5),
        run: run_of(alloc, order)?,
        id: text_of(alloc, "charge")?,
        activity: text_of(alloc, "ChargeCard")?,
        input: input_of(alloc, order)?,
    })
}

/// Adds the tasks of an order: three workflow tasks, and one to charge for it. Every third order
/// is called off, and the others are shipped.
pub(crate) fn add_order(inbox: &mut Inbox, alloc: Global, order: u64) -> Result<(), OutOfMemory> {
    inbox.add_workflow(workflow_task(alloc, order, 1, opening_events(alloc, order)?)?)?;
    inbox.add_activity(charge_task(alloc, order)?)?;
    inbox.add_workflow(workflow_task(alloc, order, 4, charge_events(alloc, order)?)?)?;
    inbox.add_workflow(workflow_task(alloc, order, 10, hold_events(alloc, order)?)?)?;
    Ok(())
}
