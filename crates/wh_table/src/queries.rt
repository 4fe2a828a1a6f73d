//! How runs that got their table with their input answer queries.

use crate::state::TableState;
use crate::workflow::TableWorkflow;
use std::alloc::Global;
use wh_events::{OutOfMemory, Payload};
use wh_rows::{row_definition, row_query};
use wh_workflow::{QueryResult, Queryable, WorkflowDefinition};

impl Queryable for TableWorkflow {
    ghost use Rattle.wh_rows.specs.Queries.{row_definitions};
    ghost use Rattle.wh_table.specs.Queries.{table_queries};

    ghost queries = { table_queries };

    fn query(
        alloc: Global,
        state: &TableState,
        query_type: &str,
        _input: &[Payload],
    ) -> Result<QueryResult, OutOfMemory> {
        row_query(alloc, &state.run, query_type)
    }

    ghost definitions = { row_definitions };

    fn definition(alloc: Global, _kind: &str) -> Result<WorkflowDefinition, OutOfMemory> {
        row_definition(alloc)
    }
}
