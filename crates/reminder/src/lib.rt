//! A workflow to copy, written twice: as `rows`, and as a step function (`steps`). It sends a reminder
//! by mail an hour after it starts.
#![tactic(auto)]

pub mod rows;
pub mod steps;
