//! The messages between a worker and Temporal's workflow service, in their proto3 JSON forms
//! (<https://protobuf.dev/programming-guides/json/>): the requests that a worker sends, and of the
//! responses the fields that it needs. Tokens are passed on as the strings in which they come.
#![tactic(auto)]

mod cancel_request;
mod completion;
mod event_faults;
mod heartbeat;
pub mod laws;
mod refusals;
mod request;
mod response;
mod times;

pub use cancel_request::is_cancel_requested;
pub use completion::is_discarded;
pub use event_faults::fault_in_history;
pub use heartbeat::{activity_canceled, activity_heartbeat};
pub use refusals::is_too_large;
pub use request::{
    FailedCause, NO_QUERIES, activity_completed, activity_failed, history, poll_activity,
    poll_workflow, query_failed, shutdown, workflow_completed, workflow_failed,
};
pub use response::{
    ActivityPoll, HistoryPage, PolledActivity, PolledTask, QueryPoll, WorkflowPoll, activity_poll,
    history_page, required_text, run_in, workflow_poll,
};
