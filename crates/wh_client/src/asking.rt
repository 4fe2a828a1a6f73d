//! Makes calls and returns their results.

ghost use Rattle.std.specs.Prelude.{◌≡◌, ◌↔◌, true, IfErr, IfOk, Ok};
ghost use Rattle.serde_json.specs.View.{view};
ghost use Rattle.wh_rpc.specs.declared.response.CallResult.TheVariants.{Given};
ghost use Rattle.wh_client.specs.Refusals.{HasItsStatus, IsFaultBy, IsFaultOf, IsTooLarge, unanswered};
ghost use Rattle.wh_client.specs.declared.asking.AskFault.TheVariants.{OutOfMemory as NoMemory};

use crate::codes::{StatusCode, status_of};
use crate::connection::Connection;
use serde_json::Value;
use std::alloc::AllocError;
use wh_events::OutOfMemory;
use wh_json::ReadFault;
use wh_messages::is_too_large;
use wh_rpc::{CallFault, CallResult};

/// Why a call has no usable result.
#[derive(Debug, Drop)]
pub enum AskFault {
    /// No response will come.
    Closed,
    /// The request could not be written.
    Output,
    /// The server refused it, with an error.
    Refused {
        /// The status of its code.
        status: StatusCode,
        /// Its code (gRPC, "Status codes").
        code: i64,
        /// Its message.
        message: String,
    },
    /// The result is malformed.
    Unreadable,
    /// A history has more than 1,000,000 pages.
    TooManyPages,
    /// The events of a history are malformed.
    History(ReadFault),
    /// There was no memory.
    OutOfMemory,
}

impl From<AllocError> for AskFault {
    ghost from_gives = { λ _ fault. fault ≡ NoMemory };

    fn from(_refused: AllocError) -> AskFault {
        AskFault::OutOfMemory
    }
}

impl From<OutOfMemory> for AskFault {
    ghost from_gives = { λ _ fault. fault ≡ NoMemory };

    fn from(_refused: OutOfMemory) -> AskFault {
        AskFault::OutOfMemory
    }
}

impl AskFault {
    /// Returns whether the call was refused because its request is larger than the server accepts.
    pub fn is_too_large(&self) -> bool
        ensures { (result ≡ true) ↔ IsTooLarge self.now }
    {
        match self {
            AskFault::Refused { code, message, .. } => is_too_large(*code, message.as_str()),
            AskFault::Closed
            | AskFault::Output
            | AskFault::Unreadable
            | AskFault::TooManyPages
            | AskFault::History(_)
            | AskFault::OutOfMemory => false,
        }
    }
}

/// Returns the fault of a call that got no response.
fn fault_of_call(why: CallFault) -> AskFault
    ensures { result ≡ unanswered why }
{
    match why {
        CallFault::Closed => AskFault::Closed,
        CallFault::Output => AskFault::Output,
        CallFault::OutOfMemory => AskFault::OutOfMemory,
    }
}

/// Returns the id and the result of a call, or its fault: the code and the message of a refusal,
/// with the status of the code, or why there was no response.
fn result_of(response: Result<(u64, CallResult), CallFault>) -> Result<(u64, Value), AskFault>
    ensures given { IfOk result (λ given. response ≡ Ok (given.0, Given given.1)) }
    ensures refused { IfErr result (IsFaultOf response) }
{
    match response {
        Ok((id, CallResult::Given(value))) => Ok((id, value)),
        Ok((_id, CallResult::Refused { code, message })) => Err(AskFault::Refused {
            status: status_of(code),
            code,
            message,
        }),
        Err(why) => Err(fault_of_call(why)),
    }
}

/// Makes a call and returns its id and result. A refusal has the status of its code.
#[tactic(auto, using(crate::proofs::Statuses::has_its_status))]
pub(crate) fn ask<L: Connection>(
    connection: &L,
    method: &str,
    params: Value,
) -> Result<(u64, Value), AskFault>
    ensures given { IfOk result (λ given. L.gives method.now (view params) (view given.1)) }
    ensures failed { IfErr result (IsFaultBy (L.fails method.now (view params))) }
    ensures refused { IfErr result HasItsStatus }
{
    result_of(connection.call(method, params))
}

/// Makes a poll and returns its id and result. A refusal has the status of its code.
#[tactic(auto, using(crate::proofs::Statuses::has_its_status))]
pub(crate) fn ask_poll<L: Connection>(
    connection: &L,
    method: &str,
    params: Value,
) -> Result<(u64, Value), AskFault>
    ensures given { IfOk result (λ given. L.gives method.now (view params) (view given.1)) }
    ensures failed { IfErr result (IsFaultBy (L.fails method.now (view params))) }
    ensures refused { IfErr result HasItsStatus }
{
    result_of(connection.poll(method, params))
}
