//! A source of tasks from a Temporal server: it polls for tasks and answers them by calls to the
//! server.
#![tactic(auto)]

mod activities;
mod answering;
mod fetching;
pub mod laws;
mod live_source;
mod polling;
mod queries;
mod query_handler;
mod task_log;
mod task_queries;
mod tasks;
mod texts;

pub use live_source::LiveSource;
pub use query_handler::QueryHandler;
