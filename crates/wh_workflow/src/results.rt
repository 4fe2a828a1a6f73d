//! Results of queries.
ghost use Rattle.std.specs.Prelude.{◌≡◌, IfOk, string_bytes};
ghost use Rattle.wh_workflow.specs.Queries.{built_in_query, json_result, unknown_query};

use crate::queryable::QueryResult;
use std::alloc::Global;
use wh_events::{Items, OutOfMemory, Payload, Text};

/// The answer to the query `__stack_trace`, a JSON text.
const STACK_TRACE: &str =
    "\"There is no stack trace: this worker runs a workflow as steps of a state, without coroutines.\"";

/// Returns the result of a query of a type that is built into Temporal's SDKs: that of
/// `__stack_trace` is a sentence, and any other has none here. `OutOfMemory` if there was no memory
/// for its text.
pub(crate) fn built_in_query(alloc: Global, query_type: &str) -> Result<QueryResult, OutOfMemory>
    ensures { IfOk result (λ given. given ≡ built_in_query query_type.now) }
{
    if query_type == "__stack_trace" {
        return json_result(alloc, String::from_str(alloc, STACK_TRACE)?);
    }
    let text = format!(in alloc; "built-in query types are not supported: {query_type}")?;
    Ok(QueryResult::Failed(Text::new(text)))
}

/// Returns the result of a query of an unknown type, with the names of the known ones, or
/// `OutOfMemory` if there was no memory for its text.
pub fn unknown_query(
    alloc: Global,
    query_type: &str,
    known: &str,
) -> Result<QueryResult, OutOfMemory>
    ensures { IfOk result (λ given. given ≡ unknown_query query_type.now known.now) }
{
    let text = format!(in alloc; "unknown query type {query_type}; known: {known}")?;
    Ok(QueryResult::Failed(Text::new(text)))
}

/// Returns the result that is one payload: the text, which should be JSON (RFC 8259), under the
/// encoding `json/plain`. The text is not checked. Returns `OutOfMemory` if there was no memory for
/// the payload.
pub fn json_result(alloc: Global, json: String) -> Result<QueryResult, OutOfMemory>
    ensures { IfOk result (λ given. given ≡ json_result (string_bytes json)) }
{
    let encoding = String::from_str(alloc, "json/plain")?;
    let payload = Payload {
        encoding: Items::new(encoding.into_bytes()),
        content: Items::new(json.into_bytes()),
    };
    Ok(QueryResult::Answered(Items::new(vec![in alloc; payload]?)))
}
