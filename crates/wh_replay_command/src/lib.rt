//! The command `replay`: what it writes, what it reports and its status.
#![tactic(auto)]

mod batches;
mod replay;

pub use replay::replay_paths;
