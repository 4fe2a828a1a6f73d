//! Explains the replay of one history: the jobs that the workflow was given, the commands that it
//! gave, and the recorded events beside them, up to the first difference.
#![tactic(auto)]

mod explanation;
mod findings;
pub mod laws;
mod numbers;
mod pairing;
mod stepping;
mod walk;

pub use explanation::Explanation;
pub use findings::{explain, explain_read, replay_file};
pub use numbers::{left_after, number_of};
pub use pairing::differs;
pub use wh_explained_tasks::{Ending, ExplainedTask, Pairing, RecordedEvent, Step};
