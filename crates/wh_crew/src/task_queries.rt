//! Answers the queries that come with tasks, by a closure that knows the workflow.

use std::alloc::Global;
use wh_commands::Members;
use wh_events::{Event, OutOfMemory};
use wh_live::QueryHandler;

/// A query handler that is a closure.
#[derive(Drop)]
pub(crate) struct ByClosure<F> {
    pub(crate) answer: F,
}

impl<F: Fn(Global, &[Event], &Members) -> Result<Members, OutOfMemory>> QueryHandler
    for ByClosure<F> {
    ghost use Rattle.wh_crew.specs.TaskQueries.{ComesTo};

    ghost ready = { λ handler. F.IsAlwaysCallable handler.answer };

    ghost gives_results = { λ handler events queries results. ComesTo F.Fn handler.answer events queries results };

    fn answer_queries(
        &self,
        alloc: Global,
        events: &[Event],
        queries: &Members,
    ) -> Result<Members, OutOfMemory> {
        (self.answer)(alloc, events, queries)
    }
}
