//! Workflows without query handlers.

use crate::definition::WorkflowDefinition;
use crate::queryable::{QueryResult, Queryable};
use crate::results::unknown_query;
use crate::{Command, Job, Meter, Workflow};
use std::alloc::Global;
use std::marker::PhantomData;
use wh_events::{OutOfMemory, Payload};

/// The workflow `W` without query handlers: each query fails as one of an unknown type.
pub struct NoQueries<W> {
    workflow: PhantomData<W>,
}

impl<W: Workflow> Workflow for NoQueries<W> {
    type State = W::State;

    ghost program = { W.program };

    ghost lawful = { W.lawful };

    fn handles(kind: &str) -> bool {
        W::handles(kind)
    }

    fn begin(alloc: Global, kind: &str) -> Result<Self::State, OutOfMemory> {
        W::begin(alloc, kind)
    }

    fn step(
        alloc: Global,
        state: &mut Self::State,
        job: &Job,
        out: &mut Vec<Command>,
        meter: &mut Meter,
    ) -> Result<(), OutOfMemory> {
        W::step(alloc, state, job, out, meter)
    }
}

impl<W: Workflow> Queryable for NoQueries<W> {
    ghost use Rattle.wh_workflow.specs.Definitions.{no_definitions};
    ghost use Rattle.wh_workflow.specs.Queries.{no_queries};

    ghost queries = { no_queries };

    fn query(
        alloc: Global,
        _state: &Self::State,
        query_type: &str,
        _input: &[Payload],
    ) -> Result<QueryResult, OutOfMemory> {
        unknown_query(alloc, query_type, "none")
    }

    ghost definitions = { no_definitions };

    fn definition(alloc: Global, _kind: &str) -> Result<WorkflowDefinition, OutOfMemory> {
        Ok(WorkflowDefinition::nothing(alloc))
    }
}
