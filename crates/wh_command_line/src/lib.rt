//! Parses the command line of the program: its subcommands, and their options with their limits.
#![tactic(auto)]

mod command_line;
mod explain;
mod options;
mod query;
mod replay;
mod serve_options;
mod tables;
mod work;

pub use command_line::{Plan, Refusal, parse};
pub use serve_options::ServeOptions;
pub use wh_console::{Format, ReplayOptions, Selection};
pub use work::WorkOptions;
