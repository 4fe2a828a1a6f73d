//! Queries, their results, and workflows that answer them.
ghost use Rattle.std.specs.Prelude.{◌≡◌, IfOk, false};
ghost use Rattle.wh_workflow.specs.Queries.{is_built_in, result_in};

use crate::Workflow;
use crate::definition::WorkflowDefinition;
use crate::results::built_in_query;
use std::alloc::Global;
use wh_events::{Items, OutOfMemory, Payload, Text};

/// A question on the state of a workflow.
#[derive(Debug, Drop)]
pub struct Query {
    /// The query type: the name under which the workflow knows the question.
    pub query_type: Text,
    /// The arguments.
    pub input: Items<Payload>,
}

/// The result of a query.
#[derive(Debug, Drop)]
pub enum QueryResult {
    /// The query was answered with these payloads.
    Answered(Items<Payload>),
    /// The query failed for this reason.
    Failed(Text),
}

impl QueryResult {
    /// Returns an equal result, or `OutOfMemory` if an allocation was refused.
    pub fn try_copy(&self) -> Result<Self, OutOfMemory>
        ensures { IfOk result (λ copy. copy ≡ self.now) }
    {
        match self {
            QueryResult::Answered(payloads) => Ok(QueryResult::Answered(payloads.try_copy()?)),
            QueryResult::Failed(text) => Ok(QueryResult::Failed(text.try_copy()?)),
        }
    }
}

/// A workflow with query handlers. `NoQueries` makes one of a workflow that has none.
pub trait Queryable: Workflow {
    ghost use Rattle.wh_workflow.specs.Definitions.{Definitions};
    ghost use Rattle.wh_workflow.specs.Queries.{Queries, is_built_in};

    /// The results of its query handlers, as a function of the state, the query type and the input.
    ghost queries: { Queries Self.State };

    /// Runs the query handler of a type in a state. The type doesn't begin with two underscores;
    /// `query_state` takes any type. Returns `OutOfMemory` if there was no memory for the result.
    fn query(
        alloc: Global,
        state: &Self::State,
        query_type: &str,
        input: &[Payload],
    ) -> Result<QueryResult, OutOfMemory>
        requires { is_built_in query_type.now ≡ false }
        ensures { IfOk result (λ given. given ≡ queries state.now query_type.now input.now) };

    /// What each workflow type declares.
    ghost definitions: { Definitions };

    /// Returns what a workflow type declares, as far as it is known without a run. Temporal's Web UI
    /// offers these names to its user. Returns `OutOfMemory` if there was no memory for them.
    fn definition(alloc: Global, kind: &str) -> Result<WorkflowDefinition, OutOfMemory>
        ensures { IfOk result (λ given. given ≡ definitions kind.now) };
}

/// Whether the query type is one that Temporal's SDKs reserve, as `__stack_trace`: it begins with
/// two underscores.
pub fn is_built_in(query_type: &str) -> bool
    ensures { result ≡ is_built_in query_type.now }
{
    query_type.starts_with("__")
}

/// Returns the result of a query in a state: that of the workflow's query handlers. A type that
/// begins with two underscores is never the workflow's own: `__stack_trace` is answered with a
/// sentence, as a JSON text, and any other is `Failed`. Returns `OutOfMemory` if there was no memory
/// for it.
pub fn query_state<W: Queryable>(
    alloc: Global,
    state: &W::State,
    query_type: &str,
    input: &[Payload],
) -> Result<QueryResult, OutOfMemory>
    ensures { IfOk result (λ given. given ≡ result_in W.queries state.now query_type.now input.now) }
{
    if is_built_in(query_type) {
        return built_in_query(alloc, query_type);
    }
    W::query(alloc, state, query_type, input)
}
