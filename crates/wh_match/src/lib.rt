//! The commands of an activation: which of them are valid, what is sent of them, and whether a
//! record matches them.
#![tactic(auto)]

mod act;
mod choosing;
mod fault;
mod judging;
pub mod laws;
mod matching;
mod script;
mod sending;
mod standing;
mod versions;

pub use fault::ScriptFault;
pub use matching::matches;
pub use script::Script;
pub use versions::Versions;
pub use wh_workflow::{Mismatch, WorkflowFault};
