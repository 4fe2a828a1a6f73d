//! Query handlers of two workflows as one.

use crate::definition::WorkflowDefinition;
use crate::queryable::{QueryResult, Queryable};
use crate::{Either, Pair};
use std::alloc::Global;
use wh_events::{OutOfMemory, Payload};

impl<A: Queryable, B: Queryable> Queryable for Pair<A, B> {
    ghost use Rattle.wh_workflow.specs.Definitions.{pair_definitions};
    ghost use Rattle.wh_workflow.specs.Queries.{pair_queries};

    ghost queries = { pair_queries A.queries B.queries };

    fn query(
        alloc: Global,
        state: &Self::State,
        query_type: &str,
        input: &[Payload],
    ) -> Result<QueryResult, OutOfMemory> {
        match state {
            Either::First(first) => A::query(alloc, first, query_type, input),
            Either::Second(second) => B::query(alloc, second, query_type, input),
        }
    }

    ghost definitions = { pair_definitions A.program.knows A.definitions B.definitions };

    fn definition(alloc: Global, kind: &str) -> Result<WorkflowDefinition, OutOfMemory> {
        if A::handles(kind) {
            A::definition(alloc, kind)
        } else {
            B::definition(alloc, kind)
        }
    }
}
