//! Metadata of payloads beside their encoding, and the headers of runs, for live work: calls keep
//! them, and hand them on.
//!
//! What replay compares of a payload is its encoding and its data, so workflow code is given no
//! more of it. A codec adds metadata, such as the id of the key that encrypts the data, and without
//! them the data can't be read. So calls note the metadata of each payload that polls and pages of
//! history bring, and a payload that goes out gets those that were seen last with its data and its
//! encoding.
#![tactic(auto)]

mod calls;
mod ends;
mod handing;
mod header;
mod kept;
pub mod laws;
mod messages;
mod noting;
mod open_tasks;
mod payload;
mod seen;

pub use calls::KeepingCalls;
pub use seen::SeenPayloads;
