//! A fault, or want of memory.

use std::alloc::{AllocError, AllocFailed};
use wh_events::OutOfMemory;

/// Why a call gave no value.
#[derive(Debug, Drop)]
pub enum OrMemory<F> {
    /// The fault of what the call was given.
    Fault(F),
    /// An allocation was refused. It can replace any other result, and does not depend on what the
    /// call was given.
    OutOfMemory,
}

impl<F: Drop> From<AllocError> for OrMemory<F> {
    ghost use Rattle.std.specs.Prelude.{◌≡◌};
    ghost use Rattle.wh_row_rules.specs.declared.or_memory.OrMemory.TheVariants.{OutOfMemory as NoMemory};

    ghost from_gives = { λ _ fault. fault ≡ NoMemory };

    fn from(_refused: AllocError) -> OrMemory<F> {
        OrMemory::OutOfMemory
    }
}

impl<T: Drop, F: Drop> From<AllocFailed<T>> for OrMemory<F> {
    ghost use Rattle.std.specs.Prelude.{◌≡◌};
    ghost use Rattle.wh_row_rules.specs.declared.or_memory.OrMemory.TheVariants.{OutOfMemory as NoMemory};

    ghost from_gives = { λ _ fault. fault ≡ NoMemory };

    fn from(_refused: AllocFailed<T>) -> OrMemory<F> {
        OrMemory::OutOfMemory
    }
}

impl<F: Drop> From<OutOfMemory> for OrMemory<F> {
    ghost use Rattle.std.specs.Prelude.{◌≡◌};
    ghost use Rattle.wh_row_rules.specs.declared.or_memory.OrMemory.TheVariants.{OutOfMemory as NoMemory};

    ghost from_gives = { λ _ fault. fault ≡ NoMemory };

    fn from(_refused: OutOfMemory) -> OrMemory<F> {
        OrMemory::OutOfMemory
    }
}
