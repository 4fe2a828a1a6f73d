//! Queries at a fetched history.
ghost use Rattle.std.specs.Prelude.{◌≡◌, ◌≤◌, length, take};
ghost use Rattle.wh_replay.specs.Outcomes.{Answers};
ghost use Rattle.wh_query.specs.Queries.{query_at};
ghost use Rattle.wh_query.specs.Completed.{completed_part, extends};

use crate::querying::query_history;
use std::alloc::Global;
use wh_events::{Event, EventKind, Payload};
use wh_replay::RunFault;
use wh_workflow::{QueryResult, Queryable};

/// Whether the completed part of a history goes on with an event, by what is known so far:
/// `is_whole` says that all events before it are part of it. A completed task is, with all before
/// it. A started task is not yet.
fn extends(event: &Event, is_whole: bool) -> bool
    ensures { result ≡ extends event.now is_whole }
{
    match event.body {
        EventKind::WorkflowTaskCompleted => true,
        EventKind::WorkflowTaskStarted => false,
        _ => is_whole,
    }
}

/// Counts the events before the first started task after which no task is completed.
fn completed_len(events: &[Event]) -> usize
    ensures part { take result events.now ≡ completed_part events.now }
    ensures within { result ≤ length events.now }
{
    let mut end = 0;
    for place in 0..events.len() {
        if extends(&events[place], end == place) {
            end = place + 1;
        }
    }
    end
}

/// Returns the result of a query at a fetched history, by replay from its first event, or the fault
/// of that replay. The history may end anywhere: the query is answered in the state after its last
/// completed task, and the workflow does not get a task that is still being processed (Temporal
/// documentation, "Queries"). Returns `OutOfMemory` if there was no memory.
pub fn query_fetched<W: Queryable>(
    alloc: Global,
    events: Vec<Event>,
    query_type: &str,
    input: &[Payload],
) -> Result<QueryResult, RunFault>
    ensures { Answers result
        (query_at W.program W.queries (completed_part events.items) query_type.now input.now) (λ given. given) }
{
    let mut events = events;
    let completed = completed_len(events.as_slice());
    events.truncate(completed);
    let (given, _) = query_history::<W>(alloc, events, query_type, input)?;
    Ok(given)
}
