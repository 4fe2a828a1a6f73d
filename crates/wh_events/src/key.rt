//! The names of runs.

ghost use Rattle.std.specs.Prelude.{◌≡◌, IfOk};
ghost use Rattle.std.specs.Cmp.{partial_equiv_from_equiv};
ghost use Rattle.std.specs.Hash as fed;

use crate::lists::Text;
use crate::memory::OutOfMemory;
use std::hash::{Hash, Hasher};

/// The name of one run of a workflow (Temporal documentation, "Workflow Id and Run Id"). Keys are
/// compared and hashed by their texts.
#[derive(Debug, Drop)]
pub struct RunKey {
    /// The id of the workflow, which its runs share.
    pub workflow_id: Text,
    /// The id of this run of the workflow.
    pub run_id: Text,
}

impl RunKey {
    /// Returns a copy with the same content, or `OutOfMemory` if there was no memory for it.
    pub fn try_copy(&self) -> Result<Self, OutOfMemory>
        ensures { IfOk result (λ copy. copy ≡ self.now) }
    {
        Ok(RunKey {
            workflow_id: self.workflow_id.try_copy()?,
            run_id: self.run_id.try_copy()?,
        })
    }
}

impl PartialEq for RunKey {
    ghost use Rattle.wh_events.specs.Keys.{same_key, same_key-equiv};

    ghost eq = { same_key };

    ghost laws = { partial_equiv_from_equiv same_key-equiv };

    fn eq(&self, other: &RunKey) -> bool {
        self.workflow_id == other.workflow_id && self.run_id == other.run_id
    }
}

impl Eq for RunKey {
    ghost use Rattle.wh_events.specs.Keys.{same_key-equiv};

    ghost laws = { same_key-equiv };
}

impl Hash for RunKey {
    ghost use Rattle.std.specs.Prelude.{◌++◌};
    ghost use Rattle.wh_events.specs.Keys.{same_key-true};
    ghost use Rattle.std.proofs.Common.{ap};

    ghost hash_input = { λ k. fed.str k.workflow_id ++ fed.str k.run_id };

    ghost respects_eq = { λ x y e. ap (λ k. fed.str k.workflow_id ++ fed.str k.run_id) (same_key-true x y e) };

    fn hash<H: Hasher>(&self, state: &mut H) {
        self.workflow_id.hash(state);
        self.run_id.hash(state);
    }
}
