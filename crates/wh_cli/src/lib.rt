//! The program but its `main`, for any workflows: it does what its command line asks for. A command
//! of files or of a folder stands in a crate of its own; live work begins here.
#![tactic(auto)]

mod commands;
mod listening;
mod program;

pub use listening::read_input;
pub use program::run_with_types;
pub use wh_diagnostics::no_memory;
pub use wh_tasks::{NoActivities, WithoutHeartbeat};
pub use wh_work::calls_over;
