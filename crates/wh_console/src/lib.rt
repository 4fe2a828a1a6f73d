//! The console of a program: what it writes on its standard output, and what it reports on its
//! standard error under the name by which it was called. And the files, the folders and the standard
//! input that it reads, the files that it replaces, and what its reports are asked for: the format,
//! which tasks of a history, the options of a replay.
#![tactic(auto)]

mod console;
mod error_printer;
mod files;
mod format;
mod outlet;
mod replay_options;
mod selection;

pub use console::{Console, Message};
pub use error_printer::ErrorPrinter;
pub use files::{
    FolderFault, Input, InputFault, Listing, Origin, Reason, folder_inputs, input_at, inputs_at,
    read_file, read_input, replace_file,
};
pub use format::Format;
pub use outlet::Outlet;
pub use replay_options::{NO_OPTIONS, ReplayOptions};
pub use selection::Selection;
