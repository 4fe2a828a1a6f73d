//! Why a host was not opened.

ghost use Rattle.std.specs.Prelude.{◌≡◌};

use std::alloc::AllocError;
use wh_events::OutOfMemory;

/// Why a host was not opened. Nothing is left of it.
#[derive(Clone, Copy, PartialEq, Eq, Debug)]
pub enum OpenFault {
    /// A size is not within its range.
    BadConfig,
    /// There was no memory.
    OutOfMemory,
}

impl From<AllocError> for OpenFault {
    ghost use Rattle.wh_host.specs.declared.open_fault.OpenFault.TheVariants.{OutOfMemory as NoMemory};

    ghost from_gives = { λ error fault. fault ≡ NoMemory };

    fn from(_error: AllocError) -> Self {
        OpenFault::OutOfMemory
    }
}

impl From<OutOfMemory> for OpenFault {
    ghost use Rattle.wh_host.specs.declared.open_fault.OpenFault.TheVariants.{OutOfMemory as NoMemory};

    ghost from_gives = { λ error fault. fault ≡ NoMemory };

    fn from(_error: OutOfMemory) -> Self {
        OpenFault::OutOfMemory
    }
}
