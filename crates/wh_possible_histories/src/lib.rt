//! Histories of tables are runs that a server can make.
//!
//! Between two cuts of a history in place, things become what the commands of the first one's
//! activation made of them, apart from those that end. So a server begins the next task, and may
//! give it the jobs of the next cut. If no run that a server can make has a command at fault, no
//! activation of a history has one. So it is too where the table comes with its run, since a run of
//! the workflow `Table` does what its table does.
#![tactic(auto)]

pub mod laws;
