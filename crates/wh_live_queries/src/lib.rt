//! Queries of live runs. Those that polls bring are read, and their answers written, in their proto3
//! JSON forms (<https://protobuf.dev/programming-guides/json/>). Those that come with a workflow task
//! are answered in the state that the task leaves; those that come alone wait in a queue for a desk,
//! in a thread beside the workers, which answers from a cached run or by replay.
#![tactic(auto)]

mod answer;
mod answering;
mod cached;
mod desk;
mod events;
pub mod laws;
mod metadata;
mod polled;
mod queue;
mod reasons;
mod results;
mod states;

pub use answer::{query_completed, result_value};
pub use answering::query_answer;
pub use cached::query_cached;
pub use desk::{answer_queries, answer_query};
pub use metadata::{is_metadata, metadata_asked, query_metadata};
pub use polled::{PolledQuery, polled_query, query_of};
pub use queue::QueryQueue;
pub use results::results_beside;
