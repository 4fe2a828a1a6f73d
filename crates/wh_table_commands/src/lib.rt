//! The commands for workflows that are tables in files: `check`, with what it says of promises,
//! `check --html` and `try`. Each writes its output, reports problems, and returns its status.
#![tactic(auto)]

mod check;
mod checking;
mod files;
mod picture;
mod scenario;
mod stuck;
mod trial;
mod trial_report;
mod trying;

pub use check::check_paths;
pub use files::TableFile;
pub use picture::picture_path;
pub use stuck::stuck_finding;
pub use trial::try_paths;
pub use trying::TableTrial;
