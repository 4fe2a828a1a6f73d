//! The page of a history file: of what its bytes hold, with the verdict of its replay and both sides
//! of a difference, or with nothing replayed. A run that brought its table shows the path that it
//! took through the rows: which it took, and where it stands.
#![tactic(auto)]

mod choosing;
mod command;
mod fault;
mod following;
pub mod laws;
mod reading;
mod run_table;
mod said;
mod way;
mod words;

pub use command::page_command;
pub use fault::PageFault;
pub use following::way_of;
pub use way::{Turn, Way};
