//! Makes the page of a run from the view of its history and from what replay said of it: a verdict,
//! the event that it is about, and both sides of a difference. The page holds texts of the history
//! as they are; they are escaped when the page is written.
#![tactic(auto)]

mod causes;
mod choosing;
mod event_words;
mod facts;
mod headings;
mod lanes;
pub mod laws;
mod moments;
mod page;
mod rows;
mod said;
mod sums;
mod tasks;
mod waits;
mod words;

pub use page::page_of;
pub use said::Said;
