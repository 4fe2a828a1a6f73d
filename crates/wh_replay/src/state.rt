//! What the tasks of a history leave.
ghost use Rattle.std.specs.Prelude.{◌≡◌, ℕ, true, [], IfOk};
ghost use Rattle.wh_replay.specs.Replays.{start};
ghost use Rattle.wh_replay.specs.Outcomes.{replay_result};
ghost use Rattle.wh_replay.specs.Views.{replay_result_of};

use std::alloc::Global;
use wh_events::OutOfMemory;
use wh_match::Versions;
use wh_workflow::{Command, Workflow};

/// What the tasks of a history leave. Contracts see it, with a meter, as a `ReplayResult`.
#[derive(Drop)]
pub struct ReplayState<S> {
    /// The state of the workflow.
    pub state: S,
    /// The versions that are settled.
    pub versions: Versions,
    /// The commands of the last task, if that task is live.
    pub unsent: Vec<Command>,
}

/// Returns what tasks leave if nothing is unsent.
pub fn sent_state<S>(alloc: Global, state: S, versions: Versions) -> ReplayState<S>
    ensures { (meter : ℕ) → replay_result_of result meter ≡ replay_result state versions [] meter }
{
    ReplayState {
        state,
        versions,
        unsent: Vec::new(alloc),
    }
}

/// Returns what there is before the first task of a history of the workflow type `kind`. Fails with
/// `OutOfMemory` if an allocation was refused.
pub fn start<W: Workflow>(alloc: Global, kind: &str) -> Result<ReplayState<W::State>, OutOfMemory>
    requires { W.program.knows kind.now ≡ true }
    ensures { (meter : ℕ) → IfOk result (λ first. replay_result_of first meter ≡ start W.program kind.now meter) }
{
    let state = W::begin(alloc, kind)?;
    Ok(sent_state(alloc, state, Versions::new(alloc)))
}

/// Returns what is left once the unsent commands are sent.
pub(crate) fn send_unsent<S>(alloc: Global, replayed: ReplayState<S>) -> ReplayState<S>
    ensures { (meter : ℕ) → replay_result_of result meter ≡ replay_result replayed.state replayed.versions [] meter }
{
    let ReplayState {
        state,
        versions,
        ..
    } = replayed;
    sent_state(alloc, state, versions)
}
