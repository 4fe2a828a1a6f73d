//! Why a command has no status.

use thiserror::Error;

/// Why a command has no status.
#[derive(Debug, Drop, Error)]
pub enum CommandFault {
    /// The writer failed. Part of the report may be written.
    #[error("cannot write")]
    Output,
    /// An allocation was refused. Nothing is written.
    #[error("out of memory")]
    OutOfMemory,
}
