//! The options that go to the server with a workflow's commands, by the names in the commands: how
//! long an activity may take and how it is retried, what becomes of a child when its parent closes,
//! which type a failure has. Workflow code sets none of them, and replay does not see them.
//!
//! An option that a policy omits is not sent, and the server decides.
//!
//! Policies are read from a text in TOML. A table `activities` sets the options of all activities,
//! and a table `activity.TYPE` those of one type where they differ; likewise `children` and
//! `child.TYPE`, `failures` and `failure.MESSAGE`, `continuations` and `continuation.TYPE`. Times are
//! whole seconds. An unknown key is refused, and so is a value of the wrong type or out of range, and
//! a time above another one that limits it. A text has at most 65,536 bytes.
#![tactic(auto)]

mod excess;
mod fault;
mod fields;
mod judging;
mod kinds;
mod policies;
mod reading;
mod retries;
mod table;
mod tables;
mod texts;

pub use fault::PolicyFault;
pub use policies::{
    ActivityPolicy, ChildPolicy, ContinuePolicy, FailurePolicy, IdReusePolicy, ParentClosePolicy,
    Policies, RetryPolicy,
};
pub use table::{PolicyRow, PolicyTable};
pub use texts::read_policies;
