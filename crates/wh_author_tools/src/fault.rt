//! Why a scenario fails.
ghost use Rattle.std.specs.Prelude.{◌≡◌};

use std::alloc::AllocError;
use std::fmt;
use std::fmt::Debug;
use wh_events::{OutOfMemory, Text};

/// Why a scenario fails. Lines are counted from 1.
#[derive(Drop)]
pub enum ScenarioFault {
    /// The workflow type is not registered.
    UnknownWorkflow,
    /// The line has no arrow (`=>`).
    NoArrow {
        /// The number of the line.
        line: usize,
    },
    /// The line has words before its arrow that are not a job.
    NoJob {
        /// The number of the line.
        line: usize,
        /// The words.
        words: Text,
    },
    /// The run gives other commands to the jobs of the line.
    Differs {
        /// The number of the line.
        line: usize,
        /// The commands that it gives.
        given: Text,
        /// The commands that the line expects.
        wanted: Text,
    },
    /// An allocation was refused.
    OutOfMemory,
}

impl Debug for ScenarioFault {
    fn fmt<W: fmt::Write>(&self, f: &mut fmt::Formatter<W>) -> fmt::Result {
        match self {
            ScenarioFault::UnknownWorkflow => f.write_str("no code for the workflow type"),
            ScenarioFault::NoArrow { line } => write!(f, "line {line}: there is no arrow"),
            ScenarioFault::NoJob { line, words } => {
                let words = words.get();
                write!(f, "line {line}: no job is written `{words}`")
            }
            ScenarioFault::Differs {
                line,
                given,
                wanted,
            } => {
                let given = given.get();
                let wanted = wanted.get();
                write!(f, "line {line}: given `{given}`, wanted `{wanted}`")
            }
            ScenarioFault::OutOfMemory => f.write_str("out of memory"),
        }
    }
}

impl From<AllocError> for ScenarioFault {
    ghost use Rattle.wh_author_tools.specs.declared.fault.ScenarioFault.TheVariants.{OutOfMemory};

    ghost from_gives = { λ _ fault. fault ≡ OutOfMemory };

    fn from(_error: AllocError) -> ScenarioFault {
        ScenarioFault::OutOfMemory
    }
}

impl From<OutOfMemory> for ScenarioFault {
    ghost use Rattle.wh_author_tools.specs.declared.fault.ScenarioFault.TheVariants.{OutOfMemory};

    ghost from_gives = { λ _ fault. fault ≡ OutOfMemory };

    fn from(_error: OutOfMemory) -> ScenarioFault {
        ScenarioFault::OutOfMemory
    }
}
