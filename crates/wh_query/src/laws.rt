//! Laws of queries, of every workflow.
ghost use Rattle.wh_query.specs.Laws.{QueriesAgree};
ghost use Rattle.wh_query.specs.Completed.{HasCompletedTasks};

use wh_workflow::Queryable;

/// A query gives the same result at a cached run as by replay of its whole history, if the new
/// events confirm those that the run holds, all events are in place, and none of the new ones is a
/// task's start at which replay stops.
pub fn queries_agree<W: Queryable>()
    ensures { QueriesAgree W.program W.queries }
{}

/// The part of a fetched history that is queried has each task that the history completes, and no
/// task that is still being processed.
pub fn fetched_tasks_are_completed()
    ensures { HasCompletedTasks }
{}
