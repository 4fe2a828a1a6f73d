//! What the line of a file does not name: where it is not JSON, the workflow type that there is no
//! code for, the field that an event lacks, or what one that is out of place contradicts; and why a
//! command has no status.
#![tactic(auto)]

mod command_fault;
mod detail;
mod fields;
mod lines;
mod places;
mod position;
mod texts;

pub use command_fault::CommandFault;
pub use detail::{FaultDetail, detail_of, file_detail, json_detail, unread_detail};
pub use lines::{write_detail, write_omitted};
pub use position::{EncodingMark, Position};
pub use texts::{FaultDetailMembers, NoCodeMember};
