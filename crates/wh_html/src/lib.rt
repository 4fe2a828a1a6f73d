//! Texts and times within HTML, what a page of a run shows, and its picture: time from left to
//! right, and a row for each thing that the run opened. A text within HTML is read as text,
//! whatever it holds: `laws` says what that means, and what holds of every axis. `specs/Html.antt`
//! defines HTML for contracts: a template with holes.
#![tactic(auto)]

mod axis;
mod escaping;
mod lanes;
pub mod laws;
mod page;
mod picture;
mod times;
mod view;

pub use axis::{Axis, Gap, Stop, axis_of};
pub use escaping::{Escaped, is_unseen};
pub use lanes::Classes;
pub use page::{
    Difference, Fact, Kind, Lane, Longest, Moment, Page, RowPart, Side, SumOfType, Task, TaskLine,
    ThingOutcome,
};
pub use picture::Picture;
pub use times::{LAST_TIME, SpanText, Stamp};
pub use view::{first_items, first_shown, shown_items};
