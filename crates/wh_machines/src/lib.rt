//! What a history has opened and the status of each thing, kept in tables beside the events.
#![tactic(auto)]

mod fault;
mod jumps;
mod names;
mod note;
mod opening;
mod openings;
mod place;
mod track;

pub use fault::PushFault;
pub use track::Track;
pub use wh_events::{OpenKind, PlaceFault, Status};
