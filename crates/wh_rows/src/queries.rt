//! How runs of tables answer queries.
ghost use Rattle.std.specs.Prelude.{◌≡◌, IfOk, string_bytes};
ghost use Rattle.wh_rows.specs.Queries.{state_json, row_definition, row_query};

use crate::row::RowsState;
use crate::table::{Rows, Table};
use serde_json::Value;
use std::alloc::Global;
use wh_events::{OutOfMemory, Payload};
use wh_workflow::{QueryResult, Queryable, WorkflowDefinition, json_result, unknown_query};

/// Returns the name of the run's state, as a JSON string.
fn state_json(alloc: Global, state: &RowsState) -> Result<String, OutOfMemory>
    ensures { IfOk result (λ json. string_bytes json ≡ state_json state.now) }
{
    let name = Value::String(String::from_str(alloc, state.at.get())?);
    Ok(name.to_string(alloc)?)
}

/// Answers a query of a run that follows a table. The query type `state` returns the name of the
/// run's state as a JSON string (RFC 8259); for a closed run, the state after the row that closed
/// it. Every other type fails as an unknown one. `OutOfMemory` if there is no memory for the
/// result.
pub fn row_query(
    alloc: Global,
    state: &RowsState,
    query_type: &str,
) -> Result<QueryResult, OutOfMemory>
    ensures { IfOk result (λ given. given ≡ row_query state.now query_type.now) }
{
    match query_type {
        "state" => json_result(alloc, state_json(alloc, state)?),
        _ => unknown_query(alloc, query_type, "state"),
    }
}

/// Returns what a table declares: the query `state`. Its signals are not among it. `OutOfMemory` if
/// there is no memory for it.
pub fn row_definition(alloc: Global) -> Result<WorkflowDefinition, OutOfMemory>
    ensures { IfOk result (λ given. given ≡ row_definition) }
{
    WorkflowDefinition::nothing(alloc).with_query(alloc, "state")
}

impl<T: Table> Queryable for Rows<T> {
    ghost use Rattle.wh_rows.specs.Queries.{row_definitions, row_queries};

    ghost queries = { row_queries };

    fn query(
        alloc: Global,
        state: &RowsState,
        query_type: &str,
        _input: &[Payload],
    ) -> Result<QueryResult, OutOfMemory> {
        row_query(alloc, state, query_type)
    }

    ghost definitions = { row_definitions };

    fn definition(alloc: Global, _kind: &str) -> Result<WorkflowDefinition, OutOfMemory> {
        row_definition(alloc)
    }
}
