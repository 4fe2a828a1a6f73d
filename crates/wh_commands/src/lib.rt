//! Writes the commands of workflows for a server, as the proto3 JSON forms of their messages
//! (<https://protobuf.dev/programming-guides/json/>): fields in camelCase, 64-bit numbers as
//! strings, bytes in base64 and enums by name. The options of a command are those that its policy
//! sets (`wh_policies`). The crate also has the parts of other requests: the names of a worker,
//! payloads, failures and durations.
#![tactic(auto)]

mod carrying;
mod command;
mod fault;
pub mod laws;
mod names;
mod object;
mod payload;
mod policies;

pub use carrying::{CarriedOver, carried_over, continues_as_new};
pub use command::commands_value;
pub use fault::RequestFault;
pub use names::WorkerNames;
pub use object::{Members, put_duration, put_failure, put_payloads, put_text};
pub use payload::json_payloads;
pub use policies::put_typed_failure;
