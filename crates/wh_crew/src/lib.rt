//! The workers of a host of a Temporal server's tasks, each with a source of its own.
#![tactic(auto)]

mod bridge_connection;
mod crews;
mod heartbeats;
mod hosting;
pub mod laws;
mod serving;
mod source_observer;
mod task_queries;
mod timer;

pub use heartbeats::LiveHeartbeat;
pub use serving::{LiveEnd, read_input, serve_live};
pub use source_observer::SourceObserver;
