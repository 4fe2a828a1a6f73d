//! Reads what any history holds, even if its workflow type is not registered: each event as far as
//! it can be read, the things that events opened, started and ended, and the workflow tasks.
#![tactic(auto)]

mod attributes;
mod details;
mod failures;
mod gathering;
pub mod laws;
mod lookups;
mod members;
mod parts;
mod reading;
mod runs;
mod sums;
mod times;
mod unsupported;
mod updates;
mod view;
mod waiting;

pub use failures::MOST_FAILURES;
pub use parts::{EventUse, Part};
pub use reading::{view_members, view_of};
pub use times::LAST_MOMENT;
pub use view::{
    Ending, EventDetails, OpenTask, RunNames, RunStatus, ThingKind, UnsupportedKind, UpdateName,
    UpdateStep, View, ViewedEvent, ViewedFailure, ViewedThing,
};
pub use wh_markers::{MarkerKind, RecordedMarker};
pub use wh_times::{Lengths, TypeSum, duration_in};
