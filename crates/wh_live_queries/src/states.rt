//! The state in which a run is queried.

ghost use Rattle.std.specs.Prelude.{◌≡◌, IfOk};
ghost use Rattle.wh_live_queries.specs.Results as spec;
ghost use Rattle.wh_replay.specs.Outcomes.{state_after};

use std::alloc::Global;
use wh_events::{Event, OutOfMemory, Text};
use wh_replay::{Fault, RunFault, state_after};
use wh_tester::ReplayFaultText;
use wh_workflow::{Query, QueryResult, Queryable, query_state};

/// Copies events.
fn copy_events(alloc: Global, events: &[Event]) -> Result<Vec<Event>, OutOfMemory>
    ensures { IfOk result (λ copies. copies.items ≡ events.now) }
{
    let mut copies = Vec::new(alloc);
    for event in events {
        copies.push(event.try_copy()?)?;
    }
    Ok(copies)
}

/// Returns a fault of replay in words.
fn fault_text(alloc: Global, fault: Fault) -> Result<Text, OutOfMemory>
    ensures { IfOk result (λ text. text ≡ spec.fault_text fault) }
{
    let fault = ReplayFaultText(fault);
    let text = format!(in alloc; "{fault}")?;
    Ok(Text::new(text))
}

/// Returns the state in which replay of a run's events leaves its workflow, or the fault of replay
/// in words.
pub(crate) fn state_or_fault<W: Queryable>(
    alloc: Global,
    events: &[Event],
) -> Result<Result<W::State, Text>, OutOfMemory>
    ensures { IfOk result (λ left. left ≡ spec.state_or_fault (state_after W.program events.now)) }
{
    match state_after::<W>(alloc, copy_events(alloc, events)?) {
        Ok(state) => Ok(Ok(state)),
        Err(RunFault::Fault(fault)) => Ok(Err(fault_text(alloc, fault)?)),
        Err(RunFault::OutOfMemory) => Err(OutOfMemory),
    }
}

/// Returns the result of a query in a state, or the fault because of which there is no state.
pub(crate) fn result_in<W: Queryable>(
    alloc: Global,
    left: &Result<W::State, Text>,
    query: &Query,
) -> Result<QueryResult, OutOfMemory>
    ensures { IfOk result (λ given. given ≡ spec.result_in W.queries left.now query.now) }
{
    match left {
        Ok(state) => query_state::<W>(alloc, state, query.query_type.get(), query.input.get()),
        Err(text) => Ok(QueryResult::Failed(text.try_copy()?)),
    }
}
