//! The rows of a table that was read as those go over them that decide about its runs: with numbers in
//! place of states, and with counters that are cut at the greatest number that a row asks for, so
//! that there are few configurations; and its runs, job by job.
#![tactic(auto)]

mod counters;
mod lines;
mod runs;

pub use counters::{all_within, are_cuts, cut_all, cuts_of, same_counts};
pub use lines::{IndexedRow, lines_of, place};
pub use runs::{answer_job, initial_run, see_job};
