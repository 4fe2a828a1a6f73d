//! Recorded histories as a source of tasks.
#![tactic(auto)]

mod failed_task;
pub mod laws;
mod script_source;
mod sent_answers;

pub use failed_task::FailedTask;
pub use script_source::ScriptSource;
