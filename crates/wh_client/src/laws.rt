//! What the status codes of refused calls mean, each law as the contract of a function that does
//! nothing.
ghost use Rattle.wh_client.specs.Codes.{AcceptedAnswers, AnswersByCode, NoRunByCode, PollsByCode, RunsByReceipt};

/// Polling ends when a poll is canceled, and fails for good when the worker is not let in; after
/// any other code a poll is tried again. A refused answer counts as taken exactly if its task is
/// over or the server has failed the task, and its run is never cached: a run is cached exactly if
/// the server acknowledged the answer and did not discard the task.
pub fn codes_are_said()
    ensures no_run { NoRunByCode }
    ensures polls { PollsByCode }
    ensures answers { AnswersByCode }
    ensures accepted { AcceptedAnswers }
    ensures runs { RunsByReceipt }
{}
