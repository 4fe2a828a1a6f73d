//! Answers what Temporal's Web UI asks of a workflow type.

ghost use Rattle.std.specs.Prelude.{◌≡◌, IfOk, false, map, option_map, string_bytes};
ghost use Rattle.serde_json.specs.View.{view};
ghost use Rattle.serde_json.specs.Written.{compact_text, has_float};
ghost use Rattle.wh_commands.specs.Commands.{named};
ghost use Rattle.wh_live_queries.specs.Metadata as spec;

use serde_json::{Value, json};
use std::alloc::{AllocError, Global};
use wh_events::{OutOfMemory, Text};
use wh_json::{field, text_of};
use wh_workflow::{QueryResult, Queryable, WorkflowDefinition, json_result};

/// Returns the text at the end of two names, or the empty text if there is none.
#[tactic(auto, unfolding(crate::specs::Metadata::text_at))]
fn text_at<'v>(value: &'v Value, name: &str, own: &str) -> &'v str
    ensures { result.now ≡ spec.text_at name.now own.now (view value.now) }
{
    let named = field(Some(value), name);
    text_of(field(named, own))
}

/// Whether a query of the type asks what the type of a workflow declares:
/// `__temporal_workflow_metadata`.
pub fn is_metadata(query_type: &str) -> bool
    ensures { result ≡ spec.is_metadata query_type.now }
{
    query_type == "__temporal_workflow_metadata"
}

/// Returns the type of the workflow that the response to a poll names, if its query asks what that
/// declares. The type is empty if it is missing. `OutOfMemory` if there was no memory for it.
#[tactic(auto, unfolding(crate::specs::Metadata::metadata_asked))]
pub fn metadata_asked(alloc: Global, value: &Value) -> Result<Option<Text>, OutOfMemory>
    ensures { IfOk result (λ kind. kind ≡ spec.metadata_asked (view value.now)) }
{
    if !is_metadata(text_at(value, "query", "queryType")) {
        return Ok(None);
    }
    let kind = text_at(value, "workflowType", "name");
    Ok(Some(Text::new(String::from_str(alloc, kind)?)))
}

/// Writes names, as objects with a name each.
fn named_values(alloc: Global, names: &[Text]) -> Result<Vec<Value>, AllocError>
    ensures { IfOk result (λ written. map view written.items ≡ map named names.now) }
{
    let mut written = Vec::new(alloc);
    for name in names {
        written.push(json!(in alloc; {"name": name.get()})?)?;
    }
    Ok(written)
}

/// Writes the metadata of a workflow type.
fn metadata_value(
    alloc: Global,
    kind: &str,
    definition: &WorkflowDefinition,
) -> Result<Value, AllocError>
    ensures { IfOk result (λ value. view value ≡ spec.metadata_written kind.now definition.now) }
{
    let queries = named_values(alloc, definition.queries.get())?;
    let signals = named_values(alloc, definition.signals.get())?;
    json!(in alloc; {
        "definition": {"type": kind, "queryDefinitions": queries, "signalDefinitions": signals}
    })
}

/// Returns the compact text of a JSON value.
fn compact_json(alloc: Global, value: &Value) -> Result<String, AllocError>
    requires { has_float (view value.now) ≡ false }
    ensures { IfOk result (λ text. string_bytes text ≡ compact_text (view value.now)) }
{
    value.to_string(alloc)
}

/// Returns the answer to a query for the metadata of a workflow type that declares this.
#[tactic(auto, using(crate::proofs::Declaring::metadata_has_no_float))]
fn metadata_result(
    alloc: Global,
    kind: &str,
    definition: &WorkflowDefinition,
) -> Result<QueryResult, OutOfMemory>
    ensures { IfOk result (λ given. given ≡ spec.metadata_result kind.now definition.now) }
{
    let value = metadata_value(alloc, kind, definition)?;
    let text = compact_json(alloc, &value)?;
    json_result(alloc, text)
}

/// Returns the answer to a query for the metadata of a workflow type: a payload `json/plain` with
/// Temporal's `WorkflowMetadata` in its JSON form, which has the names of the queries and signals
/// that the type declares. `OutOfMemory` if there was no memory for it.
pub fn query_metadata<W: Queryable>(alloc: Global, kind: &str) -> Result<QueryResult, OutOfMemory>
    ensures { IfOk result (λ given. given ≡ spec.metadata_result kind.now (W.definitions kind.now)) }
{
    let definition = W::definition(alloc, kind)?;
    metadata_result(alloc, kind, &definition)
}
