//! Workflows: what they are given, what they return, and the law that each of them keeps; their query
//! handlers; and payloads that are plain JSON strings, read without a JSON library. A query asks about
//! the state of a workflow, and changes nothing.
#![tactic(auto)]

mod command;
mod definition;
mod fault;
mod giving;
mod job;
mod json_strings;
pub mod laws;
mod meter;
mod no_queries;
mod pair;
mod query_pairs;
mod queryable;
mod results;
mod values;
mod workflow;

pub use command::Command;
pub use definition::WorkflowDefinition;
pub use fault::{Mismatch, WorkflowFault};
pub use giving::{give, give_all};
pub use job::{ActivityEnd, ChildEnd, Job};
pub use json_strings::{payload_text, plain_text, text_in};
pub use meter::Meter;
pub use no_queries::NoQueries;
pub use pair::{Either, Pair};
pub use queryable::{Query, QueryResult, Queryable, is_built_in, query_state};
pub use results::{json_result, unknown_query};
pub use values::{no_payloads, text_of, texts_of};
pub use workflow::Workflow;
