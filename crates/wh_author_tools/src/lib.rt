//! What the code of workflows and its tests use beside wh_workflow: inputs and results in JSON (RFC
//! 8259), each value a payload with the encoding `json/plain`, as Temporal's SDKs write them (Temporal
//! documentation, "Default Data Converter"); random numbers and ids that replay alike; and scenarios.
//!
//! Scenarios are texts for tests that say which commands a workflow gives to jobs.
//!
//! A line has jobs, separated by semicolons, and after an arrow the commands that the run gives to
//! them, in their order. All lines of a scenario are for one run:
//!
//! ```text
//! start 1999                 => StartActivity charge ChargeCard 1999
//! done charge; fired month   => StartTimer month (2592000 s); StartActivity charge ChargeCard 1999
//! signal cancel              =>
//! done charge "receipt"      => Complete "receipt"
//! ```
//!
//! | Job | Is |
//! |---|---|
//! | `start PAYLOADS` | `Start` of the workflow type |
//! | `signal NAME PAYLOADS` | `Signal` |
//! | `cancel` | `CancelRequested` |
//! | `done ID PAYLOADS`, `failed ID`, `timed-out ID`, `canceled ID` | `Activity` with that end |
//! | `fired ID` | `TimerFired` |
//! | `child-started ID` | `ChildStarted` |
//! | `child-done ID PAYLOADS`, `child-failed ID`, `child-timed-out ID` | `Child` with that end |
//! | `child-canceled ID` | the same |
//! | `child-terminated ID`, `child-not-started ID` | the same |
//! | `version CHANGE NUMBER` | `Version` |
//!
//! A payload is a word without spaces, semicolons and `=>`; it is not checked to be JSON. Commands
//! are written as `explain` shows them, followed by the payloads of their input or result. A
//! payload's encoding is not written, and a content that is not UTF-8 is written as `?`.
#![tactic(auto)]

mod fault;
mod jobs;
mod json_reading;
mod json_writing;
pub mod laws;
mod random;
mod running;
mod texts;
mod words;

pub use fault::ScenarioFault;
pub use jobs::job_of;
pub use json_reading::{
    json_flag, json_number, json_text, json_value, member_flag, member_number, member_text,
};
pub use json_writing::{flag_payload, number_payload, one_payload, text_payload, value_payload};
pub use random::RandomSource;
pub use running::follows;
pub use texts::commands_text;
pub use words::{at_arrow, lines_of, parts_at};
