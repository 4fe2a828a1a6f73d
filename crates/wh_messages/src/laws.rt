//! What holds for all requests and responses, each law as the contract of a function that does
//! nothing.
ghost use Rattle.wh_messages.specs.Apart.{CompletionsDiffer, FailuresDiffer};
ghost use Rattle.wh_messages.specs.Apart.{ResultsDiffer, ActivityFailuresDiffer, FailureIsNoResult};
ghost use Rattle.wh_messages.specs.CancelRequests.{CancelIsRead};
ghost use Rattle.wh_messages.specs.Completions.{DiscardIsRead};
ghost use Rattle.wh_messages.specs.Heartbeats.{CanceledIsApart, HeartbeatsAreRead};
ghost use Rattle.wh_messages.specs.Served.{PageIsRead, TaskIsRead, ActivityIsRead, EmptyIsNothing};
ghost use Rattle.wh_messages.specs.ServerReads.{CompletionIsRead, EndIsRead, FailuresAreRead};
ghost use Rattle.wh_messages.specs.ServerReads.{HistoryIsRead, PollsAreRead, QueryFailedIsRead};
ghost use Rattle.wh_messages.specs.Times.{TimesAreRead};

/// No two completions of workflow tasks with different tokens, commands or results of queries are
/// written alike, and no two different failures are.
pub fn workflow_answers_are_apart()
    ensures completed { CompletionsDiffer }
    ensures failed { FailuresDiffer }
{}

/// No two different answers to activity tasks are written alike: neither two results, nor two
/// failures, nor a failure and a result.
pub fn activity_answers_are_apart()
    ensures completed { ResultsDiffer }
    ensures failed { ActivityFailuresDiffer }
    ensures either { FailureIsNoResult }
{}

/// What a server reads from a poll, a history request and a worker's shutdown, by the names of
/// their fields: the namespace and the identity of the worker, the queue with its kind, the run and
/// the page.
pub fn requests_are_read()
    ensures polls { PollsAreRead }
    ensures history { HistoryIsRead }
    ensures end { EndIsRead }
{}

/// What a server reads from an answer: who sends it, for which task, whether the run is kept for
/// the process's own queue and for how long, the results of queries, and of a failed activity why
/// it failed, the failure's type, and whether it may be retried.
pub fn answers_are_read()
    ensures completed { CompletionIsRead }
    ensures others { FailuresAreRead }
    ensures query { QueryFailedIsRead }
{}

/// What a server reads from a heartbeat: who sends it, for which task, and the details; and from
/// the answer for a canceled activity: who sends it and for which task.
pub fn heartbeats_are_read()
    ensures { HeartbeatsAreRead }
{}

/// The answer for a canceled activity is never written like that for a failed one, nor like one
/// with a result.
pub fn canceled_activities_are_apart()
    ensures { CanceledIsApart }
{}

/// A server's response is read as what it holds: a page of a history with its events, a workflow
/// task under its own token with its own run, events and queries, an activity task likewise. An
/// empty response is an empty poll.
pub fn results_are_read()
    ensures page { PageIsRead }
    ensures task { TaskIsRead }
    ensures activity { ActivityIsRead }
    ensures empty { EmptyIsNothing }
{}

/// Whether an activity is to be canceled is read as the server writes it, and is false if the
/// server omits it.
pub fn cancels_are_read()
    ensures { CancelIsRead }
{}

/// Whether a workflow task was discarded is read as the server writes it, is false if the server
/// omits it, and true if what is written can't be read.
pub fn discards_are_read()
    ensures { DiscardIsRead }
{}

/// The times of an activity task are read from the members that a server writes them to, and are
/// not told if it omits them. A timeout is read in milliseconds, rounded down, as proto3 JSON
/// writes it, and one of 0 is none.
pub fn times_are_read()
    ensures { TimesAreRead }
{}
