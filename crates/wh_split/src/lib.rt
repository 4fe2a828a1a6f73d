//! Where the tasks of a history are: its cuts.
#![tactic(auto)]

mod cut;
mod split;

pub use split::{cuts, is_live, next_cut};
