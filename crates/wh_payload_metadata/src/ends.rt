//! What tasks come to by the calls that are made of them.

ghost use Rattle.std.specs.Prelude.{◌≡◌};
ghost use Rattle.wh_payload_metadata.specs.Messages.{end_after, end_by, is_given, is_taken};

use crate::messages::responds;
use wh_rpc::{CallFault, CallResult};

/// What a task has come to by a call.
#[derive(Clone, Copy, PartialEq, Eq)]
pub(crate) enum TaskEnd {
    /// It may be answered, once more if it was: no answer of it was taken.
    GoesOn,
    /// The server took an answer, after which its run goes on.
    Answered,
    /// The server took an answer that closes the run.
    Closed,
}

/// Whether the server took what a call says, by its result.
fn is_given(outcome: &CallResult) -> bool
    ensures { result ≡ is_given outcome.now }
{
    match outcome {
        CallResult::Given(_) => true,
        CallResult::Refused { .. } => false,
    }
}

/// Whether the server took what a call says.
fn is_taken(response: &Result<(u64, CallResult), CallFault>) -> bool
    ensures { result ≡ is_taken response.now }
{
    match response {
        Ok((_id, result)) => is_given(result),
        Err(_) => false,
    }
}

/// What a task comes to by an answer that the server took, and that closes its run or does not.
fn end_by(closes: bool) -> TaskEnd
    ensures { result ≡ end_by closes }
{
    if closes {
        TaskEnd::Closed
    } else {
        TaskEnd::Answered
    }
}

/// What a task comes to by a call of this method, whose last command closes the run or does not,
/// with this response.
pub(crate) fn end_after(
    method: &str,
    closes: bool,
    response: &Result<(u64, CallResult), CallFault>,
) -> TaskEnd
    ensures { result ≡ end_after method.now closes response.now }
{
    if responds(method) && is_taken(response) {
        end_by(closes)
    } else {
        TaskEnd::GoesOn
    }
}
