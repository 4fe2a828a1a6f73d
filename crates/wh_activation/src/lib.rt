//! What a workflow is given at a workflow task: the jobs of a cut of its history.
#![tactic(auto)]

mod cut_jobs;

pub use cut_jobs::jobs;
