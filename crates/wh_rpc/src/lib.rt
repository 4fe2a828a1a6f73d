//! JSON-RPC 2.0 calls that many threads make over one connection, one object a line.
//!
//! The host sends requests and the bridge answers them, in any order. A response goes to the call
//! of its id, once. The bridge can send notice that it shuts down, and when the connection closes
//! all calls end.
#![tactic(auto)]

mod bad_line;
mod call_fault;
mod calls;
mod input;
pub mod laws;
mod open_calls;
mod output;
mod reader;
mod request;
mod response;

pub use bad_line::BadLine;
pub use call_fault::CallFault;
pub use calls::{Caller, Calls};
pub use reader::read_lines;
pub use request::request_text;
pub use response::{CallResult, MAX_LINE, Response, RpcMessage, read_line};
