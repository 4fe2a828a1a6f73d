//! The events of a workflow's history: what they are, when a history is in place, and what it says
//! of the things that it opens and of its workflow tasks. And a list that only contracts see.
//!
//! `laws` says what holds of all histories.
#![tactic(auto)]

mod event;
mod ghost_list;
mod key;
mod kind;
pub mod laws;
mod lists;
mod memory;
mod number;
mod phrase;
mod place;

pub use event::{Event, Payload, opened_id};
pub use ghost_list::GhostList;
pub use key::RunKey;
pub use kind::{Class, Effect, EventKind, Role};
pub use lists::{Items, Text};
pub use memory::OutOfMemory;
pub use number::EventNo;
pub use phrase::{Detail, Phrase};
pub use place::{MOST_EVENTS, OpenKind, PlaceFault, Status, Thing};
