//! What commands read and report beside their output: the inputs that paths name, one after the
//! other, progress, faults and the types that are registered, on the standard error, and why a command
//! ends without a full report.
//!
//! And what all programs share: the words of the command line, what the program is called, its output,
//! how it ends without a full report, and what it says of a command that it lacks.
#![tactic(auto)]

mod batches;
mod commands;
mod diagnostics;
mod endings;
mod failures;
mod files;
mod known_types;
pub mod laws;
mod line;
mod listing;
mod printing;
mod progress;
mod progress_modes;
mod readings;
mod walks;

pub use batches::{batch_size, reported_batches};
pub use commands::lack;
pub use diagnostics::{Diagnostic, write_line};
pub use endings::{fail, fail_under, no_memory};
pub use failures::{Failure, unreadable_path};
pub use files::file_at;
pub use known_types::KnownTypes;
pub use line::{UNCALLED, output, plan, program_name, words};
pub use listing::{Listed, all_inputs, folder_of};
pub use printing::{flush_answer, print, status_with};
pub use progress::{Progress, ProgressEnd, ProgressLine};
pub use progress_modes::{ProgressMode, mode_by, progress_mode};
pub use readings::{InputReader, file_from};
pub use walks::{Visitor, walk, walk_paths};
