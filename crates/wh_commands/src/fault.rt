//! Why a request could not be written.

use std::alloc::{AllocError, AllocFailed};
use wh_events::{OutOfMemory, Text};

/// Why a request could not be written: the fault of the first command that has one.
#[derive(Debug, Drop)]
pub enum RequestFault {
    /// The timer of this id is longer than the longest duration of protobuf, 315,576,000,000
    /// seconds.
    TooLong { timer_id: Text },
    /// The activity of this id is to be canceled, and no event has scheduled it.
    NotScheduled { activity_id: Text },
    /// The command asks for the version of this change. Such commands are never sent.
    NeverSent { change_id: Text },
    /// There was no memory. This can replace every request and every other fault.
    OutOfMemory,
}

impl From<AllocError> for RequestFault {
    ghost use Rattle.std.specs.Prelude.{◌≡◌};
    ghost use Rattle.wh_commands.specs.declared.fault.RequestFault.TheVariants.{OutOfMemory as NoMemory};

    ghost from_gives = { λ _ fault. fault ≡ NoMemory };

    fn from(_refused: AllocError) -> RequestFault {
        RequestFault::OutOfMemory
    }
}

impl<T: Drop> From<AllocFailed<T>> for RequestFault {
    ghost use Rattle.std.specs.Prelude.{◌≡◌};
    ghost use Rattle.wh_commands.specs.declared.fault.RequestFault.TheVariants.{OutOfMemory as NoMemory};

    ghost from_gives = { λ _ fault. fault ≡ NoMemory };

    fn from(_refused: AllocFailed<T>) -> RequestFault {
        RequestFault::OutOfMemory
    }
}

impl From<OutOfMemory> for RequestFault {
    ghost use Rattle.std.specs.Prelude.{◌≡◌};
    ghost use Rattle.wh_commands.specs.declared.fault.RequestFault.TheVariants.{OutOfMemory as NoMemory};

    ghost from_gives = { λ _ fault. fault ≡ NoMemory };

    fn from(_refused: OutOfMemory) -> RequestFault {
        RequestFault::OutOfMemory
    }
}
