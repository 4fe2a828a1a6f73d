//! Queries of runs and of histories, in the state that replay leaves.
#![tactic(auto)]

mod completed;
pub mod laws;
mod querying;

pub use completed::query_fetched;
pub use querying::{query_each, query_history, query_replayed, query_run};
