//! The cuts of a history, one after another and all at once.
ghost use Rattle.std.specs.Prelude.{◌≡◌, Some, drop, IfOk};
ghost use Rattle.wh_events.specs.Cuts.{cuts};
ghost use Rattle.wh_split.specs.Splits.{IsNumbered, first_of, next_cut, is_live, is_live_before};

use crate::cut;
use std::alloc::Global;
use wh_events::{Event, EventNo, OutOfMemory};

/// Returns the number of the first cut after the first `from` events. In a history whose event i
/// has number i, that is the first cut after the number `from`. Returns `None` if no cut follows.
/// The first cut of all is the one after 0.
///
/// A cut is the place of a WorkflowTaskStarted whose task is completed or that the history ends in:
/// the next event that is not inert is a WorkflowTaskCompleted, or there is none. A task that
/// failed or timed out is no cut; its events belong to the next one. See
/// <https://docs.temporal.io/tasks#workflow-task>.
///
/// It needs no memory, and reads only the events from `from` to the cut and the inert ones after
/// that.
pub fn next_cut(events: &[Event], from: u64) -> Option<EventNo>
    ensures next { result ≡ first_of (cuts (drop from events.now)) }

    // In a history whose event i has number i, it is the first cut with a greater number.
    ensures after { IsNumbered events.now → result ≡ next_cut events.now from }
{
    if from >= events.len() as u64 {
        return None;
    }
    first_cut(&events[from as usize..])
}

/// Returns whether the event at the place is a live cut: a WorkflowTaskStarted that only inert
/// events follow.
pub fn is_live(events: &[Event], cut: EventNo) -> bool
    ensures { result ≡ is_live events.now cut }
{
    let place = cut.get();
    if place > events.len() as u64 {
        return false;
    }
    is_live_before(&events[(place - 1) as usize], &events[place as usize..])
}

/// Returns whether the event is a live cut of a history that continues with the rest.
fn is_live_before(event: &Event, rest: &[Event]) -> bool
    ensures { result ≡ is_live_before (Some event.now) rest.now }
{
    cut::is_task_started(event) && cut::next_core(rest).is_none()
}

/// Returns the numbers of all cuts, in their order. Fails with `OutOfMemory` if there was no memory
/// for the list.
pub fn cuts(alloc: Global, events: &[Event]) -> Result<Vec<EventNo>, OutOfMemory>
    ensures { IfOk result (λ numbers. numbers.items ≡ cuts events.now) }
{
    let mut numbers = Vec::new(alloc);
    for (index, event) in events.iter().enumerate() {
        if cut::is_cut(event, &events[index + 1..]) {
            numbers.push(event.number)?;
        }
    }
    Ok(numbers)
}

/// Returns the number of the first cut.
fn first_cut(events: &[Event]) -> Option<EventNo>
    ensures { result ≡ first_of (cuts events.now) }
{
    for (index, event) in events.iter().enumerate() {
        if cut::is_cut(event, &events[index + 1..]) {
            return Some(event.number);
        }
    }
    None
}
