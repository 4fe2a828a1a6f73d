//! Writes the explanation of a history, as text and as lines of JSON, and after it what is
//! recorded, if there is no code for its workflow type; and the lines of an overview of histories.
#![tactic(auto)]

mod alike;
mod explained;
mod json_lines;
pub mod laws;
mod overview;
mod run_counts;
mod run_facts;
mod run_line;
mod run_object;
mod selection;
mod sharing;
mod showing;
mod tasks;

pub use explained::{explain_file, line_status, write_view_as};
pub use overview::{write_counts_as, write_run_as};
