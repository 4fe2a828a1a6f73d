//! Writes the page of a run: one HTML file with the verdict of its replay, a picture of what it
//! opened over time, what that comes to by type, the same times as a table, and its tasks. It needs
//! no script, and loads nothing.
//!
//! A text within the page is read as text, whatever a history holds. `laws` says what that means,
//! with the laws of wh_html.
#![tactic(auto)]

mod frame;
pub mod laws;
mod style;
mod sums;
mod table;
mod tasks;
mod writing;

pub use wh_html::{
    Axis, Difference, Fact, Kind, Lane, Longest, Moment, Page, RowPart, Side, SumOfType, Task,
    TaskLine, ThingOutcome, axis_of,
};
pub use writing::{write_body, write_end};
