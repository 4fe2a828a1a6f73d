//! How queries and their answers are read, and what those that come with a task get. Each law is the
//! contract of a function that does nothing.
ghost use Rattle.wh_live_queries.specs.Answers.{AnswersAreRead, AnswersDiffer, ResultsAreRead, ResultsDiffer};
ghost use Rattle.wh_live_queries.specs.Laws.{EachHasItsResult, SameAsAlone};
ghost use Rattle.wh_live_queries.specs.Polled.{QueryIsRead, QueryWithTaskIsRead};

use wh_workflow::Queryable;

/// A query that comes alone is read as the server writes it: under its own token, with its own run,
/// type, arguments and events. One that comes with a task is, too: with its own type and arguments.
pub fn queries_are_read()
    ensures alone { QueryIsRead }
    ensures with_task { QueryWithTaskIsRead }
{}

/// A server reads an answer as it was written, for the query of the token, from the worker's
/// namespace. So no two different answers are written alike.
pub fn query_answers_are_read()
    ensures read { AnswersAreRead }
    ensures apart { AnswersDiffer }
{}

/// A server reads the result of a query that came with a task as it was written. So no two different
/// results are written alike.
pub fn query_results_are_read()
    ensures read { ResultsAreRead }
    ensures apart { ResultsDiffer }
{}

/// Each query of a task has a result under its id, that of the query, and nothing else has one.
pub fn each_query_has_its_result<W: Queryable>()
    ensures { EachHasItsResult W.program W.queries W.definitions }
{}

/// A query that comes with a task gets the result that it gets alone once the history records the
/// task's completion, if that confirms what the workflow did, all events are in place and no further
/// task has begun.
pub fn queries_with_tasks_agree<W: Queryable>()
    ensures { SameAsAlone W.program W.queries }
{}
