//! The client of a Temporal server: the calls that a live worker makes, over any connection, and
//! what their results mean.
#![tactic(auto)]

mod answers;
mod asking;
mod client;
mod codes;
mod connection;
mod heartbeats;
pub mod laws;
mod notes;
mod options;
mod pages;
mod requests;

pub use answers::{AnswerKind, SentAnswer};
pub use asking::AskFault;
pub use client::{Client, read_history};
pub use codes::{
    PollEnd, Receipt, StatusCode, accepted_answer, poll_end, refused_answer, status_of,
};
pub use connection::Connection;
pub use heartbeats::record_heartbeat;
pub use notes::{PollOutcome, SourceNote};
pub use options::{LiveOptions, TaskQueueKind};
pub use requests::Request;
