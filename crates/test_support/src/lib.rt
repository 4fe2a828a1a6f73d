//! What the test crates share: rows of tables, files of histories, histories and runs in short words,
//! and workflows that follow a script. A function that can't return its value returns an error, so
//! that only the test itself ends.
#![tactic(auto)]

mod files;
mod histories;
mod rows;
mod runs;
mod scripted;
mod workflows;

pub use files::{bytes_of, with_status};
pub use histories::{HistoryFault, events, events_after, json, key};
pub use rows::{Unlike, cut, next_number, push, repeated, row, same, shown, wants};
pub use runs::{advance, run_text};
pub use scripted::Scripted;
pub use workflows::{Brief, Still};
