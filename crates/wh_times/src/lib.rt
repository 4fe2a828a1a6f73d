//! Lengths of time: how the JSON of histories writes them, and what those of each type come to.
#![tactic(auto)]

mod durations;
pub mod laws;
mod sums;

pub use durations::duration_in;
pub use sums::{Lengths, Outcome, Slowest, TimedThing, TypeSum, TypedThing, sums_of};
