//! What a source keeps of its polls and answers: what it notes, what is counted of that, how often
//! it fails, and how long it waits after failed polls.
#![tactic(auto)]

mod counts;
mod journals;
pub mod laws;
mod notes;
mod results;
mod tallies;
mod texts;
mod times;
mod troubles;
mod untaken;

pub use counts::SourceCounts;
pub use journals::Journal;
pub use notes::SourceNotes;
pub use results::PollResult;
pub use tallies::Tally;
pub use texts::{PollWords, fault_text, history_text};
pub use troubles::Trouble;
pub use untaken::UntakenAnswers;
