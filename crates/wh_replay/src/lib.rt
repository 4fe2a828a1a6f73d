//! Replay of a workflow's history.
#![tactic(auto)]

mod activation;
mod continuing;
mod cut;
mod cuts;
mod fault;
mod history;
pub mod laws;
mod pushing;
mod replaying;
mod run;
mod state;

pub use activation::{Activation, IssueFault};
pub use continuing::ends_in_task;
pub use cut::{Cut, Span};
pub use cuts::cut_after;
pub use fault::{Fault, ReplayedTasks, RunFault};
pub use history::ReplayedHistory;
pub use pushing::track_of;
pub use replaying::{replay_history, replay_to_end, state_after, workflow_of};
pub use run::{AdvanceFault, Answer, Run, copy_commands};
pub use state::{ReplayState, sent_state, start};
pub use wh_match::Versions;
