//! What is found of a table.

use crate::fault::StuckCommand;
use crate::moves::ServerMove;

/// Why it is not decided whether a table gets stuck.
#[derive(Clone, Copy, Debug)]
pub enum StuckDoubt {
    /// A row names a thing, a signal or a change by `@`, the name of the run.
    ByName,
    /// The rows open or cancel more than 64 things, more than 14 of them may be open at once, or the
    /// search came to 200,000 configurations or to 1,000,000 steps between them.
    TooMany,
    /// The run that was found has a version, which the host may not answer so, or a second cancel
    /// request, which no server records.
    UnsureJobs,
    /// What the search found was not confirmed.
    Unconfirmed,
}

/// How a table gets stuck.
#[derive(Drop)]
pub struct StuckRun {
    /// Moves that a server can make, with no version and at most one cancel request. The last one
    /// gives the job at which a command is at fault.
    pub moves: Vec<ServerMove>,
    /// The first command that is at fault then.
    pub command: StuckCommand,
}

/// Whether a table gets stuck.
#[derive(Drop)]
pub enum StuckVerdict {
    /// No run that a server can make has a command at fault.
    NeverStuck,
    /// A server can make moves after which a command is at fault.
    GetsStuck(StuckRun),
    /// It is not decided.
    NotDecided(StuckDoubt),
}
