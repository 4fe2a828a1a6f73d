//! The service of recorded histories: their files are read and assigned to workers, a host serves
//! their tasks, and what came of them is gathered and reported.
#![tactic(auto)]

mod assignment;
mod failures;
mod file_faults;
mod host;
pub mod laws;
mod outcomes;
mod parallel;
mod readings;
mod rows;
mod service;

pub use failures::{FileFailure, RepeatedFailure, is_repeat, repeats};
pub use file_faults::FileFault;
pub use host::{ServiceHost, ServiceSetup, host_of};
pub use readings::{ReadFiles, read_inputs};
pub use rows::{FileCounts, FileRow};
pub use service::{PendingReport, ServiceEnd, report_served, serve_read};
