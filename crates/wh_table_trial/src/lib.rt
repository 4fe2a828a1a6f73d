//! Tries the table of a file on a scenario, and shows which commands a run gives to each job, as
//! text or as JSON.
//!
//! A scenario is written as in `wh_author_tools`, for runs of the type `Table` one after another: each
//! `start` begins a new run, with the table added before its input. A line without an arrow expects
//! nothing. If a run continues as a new run of the same table, the table is written as `TABLE`.
#![tactic(auto)]

mod entries;
mod objects;
mod running;
mod texts;

pub use objects::trial_as;
pub use running::{Trial, TrialDifference, TrialStep, try_table};
