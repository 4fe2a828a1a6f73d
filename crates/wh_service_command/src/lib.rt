//! The command `serve`: a service of the histories of a folder, as what it writes, what it reports
//! and its status.
#![tactic(auto)]

mod batches;
mod diagnostics;
mod serve;

pub use serve::serve_folder;
