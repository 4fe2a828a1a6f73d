//! Reports on history files: each file is parsed once and its history is replayed once, and the
//! record of what came of it is written as text or as JSON.
#![tactic(auto)]

mod commands;
mod notes;
mod other_values;
mod records;
mod reports;

pub use commands::replay_command;
pub use other_values::replay_with_values;
pub use records::{Record, record_of, replay_inputs};
pub use reports::{report, status_of, write_json_record, write_report};
pub use wh_console::Format;
pub use wh_file_faults::CommandFault;
