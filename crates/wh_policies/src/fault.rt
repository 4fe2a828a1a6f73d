//! Why a text is no policy file.

use crate::excess::Excess;
use std::alloc::{AllocError, AllocFailed, Global};
use wh_events::{OutOfMemory, Text};

/// Why a text is no policy file. Lines are counted from 1.
#[derive(Debug, Drop)]
pub enum PolicyFault {
    /// It has more than 65,536 bytes.
    TooLong,
    /// It is not UTF-8.
    NoText,
    /// It is not TOML.
    NoToml {
        /// The line of the syntax error.
        line: u64,
        /// What is wrong there.
        reason: Text,
    },
    /// A key is unknown.
    UnknownKey {
        /// The key with the keys of its tables before it, separated by points.
        key: Text,
        /// The line in which the key's value ends.
        line: u64,
    },
    /// The value of a key has the wrong type, or is out of range.
    BadValue {
        /// The key with the keys of its tables before it, separated by points.
        key: Text,
        /// The line in which the key's value ends.
        line: u64,
    },
    /// A time is above another one of its table, which a server refuses or which has no effect
    /// there: the initial interval of retries above the maximum one, or a Heartbeat Timeout above
    /// the time of an attempt or of all attempts.
    Above {
        /// The key of the time with the keys of its tables before it, separated by points.
        key: Text,
        /// The key of the other time.
        limit: Text,
        /// The line from which on that is so.
        line: u64,
    },
    /// There was no memory. This can replace the policies and every other fault.
    OutOfMemory,
}

/// Why a table can't be read.
#[derive(Debug, Drop)]
pub(crate) enum KeyFault {
    /// One of its keys is unknown.
    Unknown { key: Text },
    /// The value of one of its keys has the wrong type, or is out of range.
    Bad { key: Text },
    /// The time of one of its keys is above another one.
    Above { key: Text, limit: Text },
    /// There was no memory. This can replace every other fault.
    OutOfMemory,
}

impl From<AllocError> for KeyFault {
    ghost use Rattle.std.specs.Prelude.{◌≡◌};
    ghost use Rattle.wh_policies.specs.declared.fault.KeyFault.TheVariants.{OutOfMemory as NoMemory};

    ghost from_gives = { λ _ fault. fault ≡ NoMemory };

    fn from(_refused: AllocError) -> KeyFault {
        KeyFault::OutOfMemory
    }
}

impl<T: Drop> From<AllocFailed<T>> for KeyFault {
    ghost use Rattle.std.specs.Prelude.{◌≡◌};
    ghost use Rattle.wh_policies.specs.declared.fault.KeyFault.TheVariants.{OutOfMemory as NoMemory};

    ghost from_gives = { λ _ fault. fault ≡ NoMemory };

    fn from(_refused: AllocFailed<T>) -> KeyFault {
        KeyFault::OutOfMemory
    }
}

impl From<OutOfMemory> for KeyFault {
    ghost use Rattle.std.specs.Prelude.{◌≡◌};
    ghost use Rattle.wh_policies.specs.declared.fault.KeyFault.TheVariants.{OutOfMemory as NoMemory};

    ghost from_gives = { λ _ fault. fault ≡ NoMemory };

    fn from(_refused: OutOfMemory) -> KeyFault {
        KeyFault::OutOfMemory
    }
}

/// Returns a key with the key of its table before it.
fn below(alloc: Global, table: &str, key: &str) -> Result<Text, AllocError> {
    Ok(Text::new(format!(in alloc; "{table}.{key}")?))
}

/// Returns the fault of an unknown key.
pub(crate) fn unknown_key(alloc: Global, key: &str) -> KeyFault {
    match String::from_str(alloc, key) {
        Ok(key) => KeyFault::Unknown {
            key: Text::new(key),
        },
        Err(_) => KeyFault::OutOfMemory,
    }
}

/// Returns the fault of a key with a bad value.
pub(crate) fn bad_value(alloc: Global, key: &str) -> KeyFault {
    match String::from_str(alloc, key) {
        Ok(key) => KeyFault::Bad {
            key: Text::new(key),
        },
        Err(_) => KeyFault::OutOfMemory,
    }
}

/// Returns the fault of a time that is above another one.
pub(crate) fn above(alloc: Global, excess: Excess) -> KeyFault {
    let Ok(key) = String::from_str(alloc, excess.time()) else {
        return KeyFault::OutOfMemory;
    };
    match String::from_str(alloc, excess.limit()) {
        Ok(limit) => KeyFault::Above {
            key: Text::new(key),
            limit: Text::new(limit),
        },
        Err(_) => KeyFault::OutOfMemory,
    }
}

/// Adds the key of a table to the fault of one of the table's keys.
pub(crate) fn within(alloc: Global, table: &str, fault: KeyFault) -> KeyFault {
    match fault {
        KeyFault::Unknown { key } => match below(alloc, table, key.get()) {
            Ok(key) => KeyFault::Unknown { key },
            Err(_) => KeyFault::OutOfMemory,
        },
        KeyFault::Bad { key } => match below(alloc, table, key.get()) {
            Ok(key) => KeyFault::Bad { key },
            Err(_) => KeyFault::OutOfMemory,
        },
        KeyFault::Above { key, limit } => match below(alloc, table, key.get()) {
            Ok(key) => KeyFault::Above { key, limit },
            Err(_) => KeyFault::OutOfMemory,
        },
        KeyFault::OutOfMemory => KeyFault::OutOfMemory,
    }
}
