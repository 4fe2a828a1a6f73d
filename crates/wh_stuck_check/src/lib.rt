//! Whether a run of a table that was read gets stuck: whether one of its commands is at fault, in a
//! run that a server can make.
//!
//! A search looks for a shortest scenario in which a command is at fault. One that is found is
//! followed, and what the run comes to has to be at fault. If none is found, the configurations that
//! were looked at have to show that no run gets stuck: they have the first one and each that a job
//! or the next task leads to, and none of them is at fault. That is what is judged, and nothing
//! rests on the search.
#![tactic(auto)]

mod acts;
mod config;
mod deciding;
mod fault;
mod found;
mod moves;
mod names;
mod plain;
mod search;
mod situation;
mod sure;
mod tasks;
mod things;
mod verdict;
mod ways;
mod words;

pub use deciding::decide;
pub use fault::StuckCommand;
pub use found::MOST_CONFIGURATIONS;
pub use moves::ServerMove;
pub use verdict::{StuckDoubt, StuckRun, StuckVerdict};
pub use words::{doubt_words, job_words, scenario_text, stuck_words};
