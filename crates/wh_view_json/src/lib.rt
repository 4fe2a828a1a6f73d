//! Writes a view of any history as lines of JSON: all of it, its last tasks, or the tasks around an
//! event.
#![tactic(auto)]

mod markers;
mod objects;
mod parts;
mod run;
mod sums;
mod texts;

pub use objects::write_json_view;
pub use texts::{SecondsMember, TextMember};
