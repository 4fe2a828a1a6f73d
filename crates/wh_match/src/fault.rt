//! Why a script refuses a command.
use std::alloc::AllocError;
use wh_events::OutOfMemory;
use wh_workflow::WorkflowFault;

/// Why a script refused a command. The script, and the versions that were passed, are as they were
/// before; the command is dropped.
#[derive(Clone, Copy, Debug, PartialEq, Eq)]
pub enum ScriptFault {
    /// The command is invalid after those before it; this is the least fault that it has.
    Workflow(WorkflowFault),
    /// The command is valid, but the allocator refused memory.
    OutOfMemory,
}

impl From<AllocError> for ScriptFault {
    ghost use Rattle.std.specs.Prelude.{◌≡◌};
    ghost use Rattle.wh_match.specs.declared.fault.ScriptFault.{ScriptFault};

    ghost from_gives = { λ _ fault. fault ≡ ScriptFault.OutOfMemory };

    fn from(_error: AllocError) -> Self {
        ScriptFault::OutOfMemory
    }
}

impl From<OutOfMemory> for ScriptFault {
    ghost use Rattle.std.specs.Prelude.{◌≡◌};
    ghost use Rattle.wh_match.specs.declared.fault.ScriptFault.{ScriptFault};

    ghost from_gives = { λ _ fault. fault ≡ ScriptFault.OutOfMemory };

    fn from(_error: OutOfMemory) -> Self {
        ScriptFault::OutOfMemory
    }
}
