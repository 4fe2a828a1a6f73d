//! What answers the queries that come with workflow tasks.

use std::alloc::Global;
use wh_commands::Members;
use wh_events::{Event, OutOfMemory};

/// Answers the queries that come with workflow tasks, in the state in which a task leaves its run
/// (Temporal documentation, "Queries"). Many workers share it.
///
/// An implementation says which results it may give. It may ask for something before it is called.
pub trait QueryHandler {
    ghost use Rattle.std.specs.Prelude.{List, MatchResult, None, Option, Some};
    ghost use Rattle.serde_json.specs.Data.{Members};
    ghost use Rattle.serde_json.specs.View.{members_view};
    ghost use Rattle.wh_events.specs.declared.event.Event.{Event};

    /// What has to hold before it is called. No call changes it.
    ghost ready: { Self → Type 0 };

    /// Which results it may give to the queries of a task, by the events of its run. `None` says that
    /// there was no memory for them.
    ghost gives_results: { Self → List Event → Members → Option Members → Type 0 };

    /// Returns the results of the queries that came with a task of a run, each under its query's id
    /// (Temporal's `WorkflowQueryResult`). The events are those from the first one of the run up to
    /// the start of the task. `OutOfMemory` if there was no memory for the results.
    fn answer_queries(
        &self,
        alloc: Global,
        events: &[Event],
        queries: &Members,
    ) -> Result<Members, OutOfMemory>
        requires { ready self.now }
        ensures { MatchResult result
            (λ results. gives_results self.now events.now (members_view queries.now.entries)
            (Some (members_view results.entries)))
            (λ _. gives_results self.now events.now (members_view queries.now.entries) None) };
}
