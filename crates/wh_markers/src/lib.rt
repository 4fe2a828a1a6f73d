//! Reads the payloads of events as text, and what the markers record that the SDKs of Temporal
//! write.
#![tactic(auto)]

mod forms;
pub mod laws;
mod markers;
mod payloads;
mod scalars;

pub use forms::MarkerKind;
pub use markers::{RecordedMarker, marker_of};
pub use payloads::{copy_text, payload_list, payload_text};
