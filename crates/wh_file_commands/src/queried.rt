//! What a query of a history file gives.

ghost use Rattle.std.specs.Prelude.{◌≡◌, IfOk, IfSome, string_bytes};
ghost use Rattle.std.specs.Result.{result_ok};
ghost use Rattle.wh_workflow.specs.declared.queryable.QueryResult.TheVariants.{Failed};
ghost use Rattle.wh_query.specs.Queries.{query_at};
ghost use Rattle.wh_replay.specs.Outcomes.{replayed_tasks};
ghost use Rattle.wh_report.specs.Records.{IsRecordOf};
ghost use Rattle.wh_tester.specs.Faults.{replay_fault_text};
ghost use Rattle.wh_tester.specs.Report.{fault_text};
ghost use Rattle.wh_file_commands.specs.GoodFiles.{tasks_in_file, good_record};
ghost use Rattle.wh_file_commands.specs.Queried.{IsQueried, file_result, replayed_result};

use crate::good_files::good_record;
use std::alloc::Global;
use wh_console::NO_OPTIONS;
use wh_events::{Event, OutOfMemory, Text};
use wh_json::{ReadFault, read_events};
use wh_query::query_history;
use wh_replay::{Fault, ReplayedTasks, RunFault};
use wh_report::{Record, record_of};
use wh_tester::{FaultText, ReplayFaultText};
use wh_workflow::{Query, QueryResult, Queryable, Workflow};

/// What came of a query of a history file.
#[derive(Drop)]
pub struct Queried {
    /// The record of the file in the report of replay.
    pub own: Record,
    /// What the query gave.
    pub given: QueryResult,
}

/// The result of a query of a file that can't be read.
fn unread_result(alloc: Global, fault: &ReadFault) -> Result<QueryResult, OutOfMemory>
    ensures { IfOk result (λ given. given ≡ Failed (fault_text fault.now)) }
{
    let fault = FaultText(fault);
    let text = format!(in alloc; "{fault}")?;
    Ok(QueryResult::Failed(Text::new(text)))
}

/// The result of a query of a history that can't be replayed.
fn unreplayed_result(alloc: Global, fault: Fault) -> Result<QueryResult, OutOfMemory>
    ensures { IfOk result (λ given. given ≡ Failed (replay_fault_text fault)) }
{
    let fault = ReplayFaultText(fault);
    let text = format!(in alloc; "{fault}")?;
    Ok(QueryResult::Failed(Text::new(text)))
}

/// What a query gives at a history, and what the replay for it finds, unless that has a fault.
fn query_events<W: Queryable>(
    alloc: Global,
    events: Vec<Event>,
    query: &Query,
) -> Result<(QueryResult, Option<ReplayedTasks>), OutOfMemory>
    ensures given { let at = query_at W.program W.queries events.items query.now.query_type query.now.input in
        IfOk result (λ told. told.0 ≡ replayed_result at) }
    ensures found { IfOk result (λ told. told.1 ≡ result_ok (replayed_tasks W.program events.items)) }
{
    match query_history::<W>(alloc, events, query.query_type.get(), query.input.get()) {
        Ok((given, found)) => Ok((given, Some(found))),
        Err(RunFault::OutOfMemory) => Err(OutOfMemory),
        Err(RunFault::Fault(fault)) => Ok((unreplayed_result(alloc, fault)?, None)),
    }
}

/// What a query gives at the history of bytes, and what the replay for it finds, unless the bytes
/// have no history or its replay has a fault.
fn query_bytes<W: Queryable>(
    alloc: Global,
    bytes: &[u8],
    query: &Query,
) -> Result<(QueryResult, Option<ReplayedTasks>), OutOfMemory>
    ensures given { IfOk result (λ told. told.0 ≡ file_result W.program W.queries bytes.now query.now) }
    ensures found { IfOk result (λ told. told.1 ≡ tasks_in_file W.program bytes.now) }
{
    match read_events(alloc, bytes) {
        Ok(events) => query_events::<W>(alloc, events, query),
        Err(ReadFault::OutOfMemory) => Err(OutOfMemory),
        Err(fault) => Ok((unread_result(alloc, &fault)?, None)),
    }
}

/// The record of a file of which a replay found this. It is replayed once more only if nothing was
/// found, for what stands beside its fault.
fn record_by<W: Workflow>(
    alloc: Global,
    file: (String, Vec<u8>),
    found: Option<ReplayedTasks>,
) -> Record
    requires { found ≡ tasks_in_file W.program file.1.items }
    ensures own { IsRecordOf NO_OPTIONS W.program file result }
    ensures good { IfSome found (λ found. result ≡ good_record (string_bytes file.0) found) }
{
    match found {
        Some(found) => {
            let (name, bytes) = file;
            drop(bytes);
            good_record(alloc, name, found)
        }
        None => record_of::<W>(alloc, NO_OPTIONS, file),
    }
}

/// Queries a history file, given by name and bytes, with the code of `W`, at the state that its
/// last task leaves, whether or not that is completed or the run is closed. If the file can't be
/// read or replayed the query fails with the text of that fault. It is read and replayed once,
/// unless it has a fault.
///
/// `OutOfMemory` if an allocation was refused; of a file that has a fault it may also be the
/// verdict of the record.
pub fn query_file<W: Queryable>(
    alloc: Global,
    file: (String, Vec<u8>),
    query: &Query,
) -> Result<Queried, OutOfMemory>
    ensures { IfOk result (IsQueried W.program W.queries file query.now) }
{
    let (given, found) = query_bytes::<W>(alloc, file.1.as_slice(), query)?;
    let own = record_by::<W>(alloc, file, found);
    Ok(Queried { own, given })
}
