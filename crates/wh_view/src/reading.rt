//! Reads a history into a view.

ghost use Rattle.std.specs.Prelude.{◌≡◌, ◌≢◌, ◌<◌, ◌^◌, IfOk, IfErr, map, None, Err};
ghost use Rattle.serde_json.specs.View.{view};
ghost use Rattle.wh_json.specs.Partial.{partial_event};
ghost use Rattle.wh_view.specs.Views as views;

use crate::attributes::attributes_of;
use crate::details::{attempt_of, details_of, duration_of, failure_of, json_of, payload_texts};
use crate::gathering::gather_all;
use crate::runs::run_of;
use crate::sums::type_sums;
use crate::unsupported::unsupported_kinds;
use crate::view::{View, ViewedEvent};
use serde_json::Value;
use std::alloc::Global;
use wh_events::{EventNo, Items, OutOfMemory};
use wh_json::{ReadFault, events_in, field, partial_event, read_document, text_of};
use wh_markers::copy_text;

/// Views one member of a history's list. `place` is its place, counted from 1, and `before` the
/// number of the member before.
fn event_of(
    alloc: Global,
    place: u64,
    before: Option<EventNo>,
    member: &Value,
) -> Result<ViewedEvent, OutOfMemory>
    ensures parts { IfOk result (views.IsEventOf place (view member.now)) }
    ensures read { IfOk result (λ event. event.read ≡ partial_event place before (view member.now)) }
{
    let attributes = attributes_of(member);
    let moment = copy_text(alloc, text_of(field(Some(member), "eventTime")))?;
    let failure = copy_text(alloc, failure_of(attributes))?;
    let duration = copy_text(alloc, duration_of(attributes))?;
    let payloads = Items::new(payload_texts(alloc, attributes)?);
    let details = details_of(alloc, attributes)?;
    let json = json_of(alloc, member)?;
    let read = partial_event(alloc, place, before, member)?;
    Ok(ViewedEvent {
        place,
        read,
        moment,
        attempt: attempt_of(attributes),
        failure,
        duration,
        payloads,
        details,
        json,
    })
}

/// Returns the number of an event, if it has one.
fn number_of(event: &ViewedEvent) -> Option<EventNo>
    ensures { result ≡ event.now.read.number }
{
    event.read.number
}

/// Views the members of a history's list as events.
fn events_of(alloc: Global, members: &[Value]) -> Result<Vec<ViewedEvent>, OutOfMemory>
    ensures parts { IfOk result (λ events. views.AreEventsOf (map view members.now) events.items) }
    ensures reads { IfOk result (λ events.
        views.reads_of events.items ≡ views.reads_from 1 None (map view members.now)) }
{
    let mut events = Vec::new(alloc);
    let mut before: Option<EventNo> = None;
    for (index, member) in members.iter().enumerate() {
        let event = event_of(alloc, index as u64 + 1, before, member)?;
        before = number_of(&event);
        events.push(event)?;
    }
    Ok(events)
}

/// Returns the number of the task to which an event belongs, if `completed` tasks were completed
/// before it.
fn task_of(completed: usize, event: &ViewedEvent) -> usize
    requires { completed < 2 ^ 63 }
    ensures { result ≡ views.task_of completed event.now }
{
    if event.is_commanded() {
        completed
    } else {
        completed + 1
    }
}

/// Returns the number of each event's task.
#[tactic(auto, unfolding(crate::specs::Views::tasks_from))]
fn tasks(alloc: Global, events: &[ViewedEvent]) -> Result<Vec<usize>, OutOfMemory>
    ensures { IfOk result (λ tasks. tasks.items ≡ views.tasks_from 0 events.now) }
{
    let mut tasks = Vec::new(alloc);
    let mut completed = 0;
    for event in events {
        tasks.push(task_of(completed, event))?;
        completed += usize::from(event.completes_task());
    }
    Ok(tasks)
}

/// Sets what the activities, timers and child workflows of each type come to.
fn with_sums(alloc: Global, view: View) -> Result<View, OutOfMemory>
    ensures { IfOk result (views.IsSummed view) }
{
    let sums = Items::new(type_sums(alloc, &view)?);
    Ok(View { sums, ..view })
}

/// Views the members of a history's list that are parsed already, as `view_of` views them. The list
/// may be empty.
pub fn view_members(alloc: Global, members: &[Value]) -> Result<View, OutOfMemory>
    ensures { IfOk result (views.IsViewOf (map view members.now)) }
{
    let run = run_of(alloc, members)?;
    let events = events_of(alloc, members)?;
    let tasks = tasks(alloc, events.as_slice())?;
    let unsupported = unsupported_kinds(alloc, events.as_slice())?;
    let (things, links) = gather_all(alloc, events.as_slice())?.into_parts();
    with_sums(
        alloc,
        View {
            run,
            events: Items::new(events),
            things,
            links,
            tasks: Items::new(tasks),
            unsupported: Items::new(unsupported),
            sums: Items::new(Vec::new(alloc)),
        },
    )
}

/// Views a workflow history in the JSON form of the Temporal CLI's export: an object with a list
/// `events`, or such a list. Its events may be of any type, lack fields, and stand in any order: if
/// the reader of histories would refuse an event, also one that is out of order, the reason is kept
/// with it (`PartialEvent::fault`), and the rest of the event is viewed as far as possible.
///
/// Each event of the list is viewed once and keeps its place. A thing is opened by an event, and
/// started, canceled and ended by the first later events that refer to that event's number. If
/// several events of that number opened something, the last one before counts.
///
/// Returns `TooLong`, `BadJson` or `NoEvents`, checked in that order, if there is no list of
/// events. `OutOfMemory` is returned in place of a view or of any of these but `TooLong` if memory
/// runs out.
pub fn view_of(alloc: Global, bytes: &[u8]) -> Result<View, ReadFault>
    ensures ok { IfOk result (views.IsViewIn bytes.now) }
    ensures err { IfErr result (λ e. e ≢ ReadFault.OutOfMemory → views.members_of bytes.now ≡ Err e) }
{
    let value = read_document(alloc, bytes)?;
    let Some(members) = events_in(&value) else {
        return Err(ReadFault::NoEvents);
    };
    match view_members(alloc, members) {
        Ok(view) => Ok(view),
        Err(OutOfMemory) => Err(ReadFault::OutOfMemory),
    }
}
