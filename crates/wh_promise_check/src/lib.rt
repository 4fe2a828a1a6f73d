//! Whether a table keeps each promise that its phrases say (`wh_promise_phrases`).
//!
//! By `laws`, the promises of tables hold for histories: those of tables in a program, and those of
//! tables that runs get with their input.
#![tactic(auto)]

mod findings;
pub mod laws;
mod reading;

pub use findings::{MOST_PROMISES, check_promises, promise_findings};
