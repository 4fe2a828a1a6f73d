//! Why a call got no response.

ghost use Rattle.std.specs.Prelude.{◌≡◌};
ghost use Rattle.wh_rpc.specs.declared.call_fault.CallFault.TheVariants.{OutOfMemory};

use std::alloc::AllocError;
use thiserror::Error;

/// Why a call got no response.
#[derive(Clone, Copy, PartialEq, Eq, Debug, Error)]
pub enum CallFault {
    /// No more responses will come: the bridge has closed the connection, or an earlier request
    /// could not be written. For a poll also: the bridge is shutting down.
    #[error("the bridge has closed")]
    Closed,
    /// The request could not be written. Part of it may have been, so no request is written after
    /// it.
    #[error("cannot write to the bridge")]
    Output,
    /// An allocation failed. No byte of the request was written.
    #[error("out of memory")]
    OutOfMemory,
}

impl From<AllocError> for CallFault {
    ghost from_gives = { λ _ fault. fault ≡ OutOfMemory };

    fn from(_refused: AllocError) -> CallFault {
        CallFault::OutOfMemory
    }
}
