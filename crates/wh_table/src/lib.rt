//! The workflow that gets its table with each run, as the first payload of the input.
#![tactic(auto)]

mod carrying;
mod following;
pub mod laws;
mod queries;
mod starting;
mod state;
mod workflow;

pub use state::TableState;
pub use workflow::TableWorkflow;
