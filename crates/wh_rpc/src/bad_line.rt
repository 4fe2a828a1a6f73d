//! Why a line of the bridge is malformed.

ghost use Rattle.std.specs.Prelude.{◌≡◌};
ghost use Rattle.wh_rpc.specs.declared.bad_line.BadLine.TheVariants.{OutOfMemory};

use std::alloc::AllocError;
use thiserror::Error;

/// Why a line is neither a response nor a notice. If several reasons apply, it is the first of them
/// in this order.
#[derive(Clone, Copy, PartialEq, Eq, Debug, Error)]
pub enum BadLine {
    /// It has more than `MAX_LINE` bytes.
    #[error("it is too long")]
    TooLong,
    /// Its bytes are not UTF-8.
    #[error("it is no UTF-8")]
    NotUtf8,
    /// Its text is not JSON (RFC 8259), or nests deeper than 127.
    #[error("it is no JSON")]
    NotJson,
    /// A number in it is out of the range of a float, such as `1e400`.
    #[error("a number in it is out of range")]
    NumberOutOfRange,
    /// Its value is not an object.
    #[error("it is no object")]
    NotObject,
    /// It has a `method` other than `shutdown`.
    #[error("it is neither a response nor a shutdown")]
    NotResponse,
    /// It has both a `result` and an `error`.
    #[error("it has both a result and an error")]
    TwoOutcomes,
    /// Its `id` is missing, or is not a whole number below 2^64.
    #[error("its id is no whole number below 2^64")]
    BadId,
    /// It has neither a `result` nor an `error`.
    #[error("it has neither a result nor an error")]
    NoOutcome,
    /// Its `error` has no `code` that is a signed 64-bit number, or no `message` that is a string.
    #[error("its error has no code of 64 bits, or no message")]
    BadError,
    /// An allocation failed. This can replace every reason but the first two.
    #[error("out of memory")]
    OutOfMemory,
}

impl From<AllocError> for BadLine {
    ghost from_gives = { λ _ fault. fault ≡ OutOfMemory };

    fn from(_refused: AllocError) -> BadLine {
        BadLine::OutOfMemory
    }
}
