//! The runs of a table that a server can make, and whether one of them gets stuck: a task fails,
//! since one of its commands is at fault.
//!
//! A server gives the jobs of what is open: the end of an activity, a timer or a child that the run
//! opened comes once, in a task after the one that opened it; signals and cancel requests come at
//! any time. A table never gets stuck if no such run has a command at fault. That is shown by a
//! list of configurations that has the first one and each that a job or the next task leads to,
//! none of them at fault. Nothing rests on how the list was found.
#![tactic(auto)]

pub mod laws;
mod stuck_free;
mod thing;

pub use stuck_free::StuckFree;
pub use thing::{Phase, ThingState, Touch};
