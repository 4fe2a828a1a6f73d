//! Reads a table of rows from a JSON text, so that a workflow can be a file.
//!
//! ```text
//! {"version": 1, "counters": ["tries 2"], "rows": [
//!  ["charging", "start",         "",          "activity charge ChargeCard input"],
//!  ["charging", "failed charge", "tries < 2", "activity charge ChargeCard input", "", "up tries"],
//!  ["charging", "failed charge", "",          "fail charge"],
//!  ["charging", "done charge",   "",          "complete brought"]
//! ]}
//! ```
//!
//! A row is a list of at most six members: state, job, conditions, commands, next state, marks.
//! Members may be omitted at its end; they are empty then. Conditions, commands and marks are a
//! phrase or a list of phrases; the words of a phrase are separated by single spaces. A run begins
//! in the state of the first row.
//!
//! | Phrase | Stands for |
//! |---|---|
//! | `start`, `cancel`, `signal NAME` | `Start`, `CancelRequested`, `Signal` |
//! | `done ID`, `failed ID`, `fired ID` | `Done`, `NotDone`, `Fired` |
//! | `child-started ID`, `child-done ID` | `ChildStarted`, `ChildDone` |
//! | `child-canceled ID`, `child-failed ID` | `ChildCanceled`, `ChildNotDone` |
//! | `version CHANGE NUMBER`, `version CHANGE` | `Version`, `AnyVersion` |
//! | `COUNTER < NUMBER`, `COUNTER >= NUMBER` | `Below`, `AtLeast` |
//! | `up COUNTER`, `zero COUNTER`, `keep` | `Up`, `Zero`, `Keep` |
//! | `activity ID TYPE SOURCE`, `child ID TYPE SOURCE` | `StartActivity`, `StartChild` |
//! | `signal ID NAME SOURCE` | `SignalExternal` |
//! | `timer ID SECONDS` | `StartTimer` |
//! | `cancel-activity ID`, `cancel-timer ID` | `CancelActivity`, `CancelTimer` |
//! | `cancel-child ID` | `CancelChild` |
//! | `ask CHANGE LEAST GREATEST` | `Ask` |
//! | `complete SOURCE`, `fail MESSAGE`, `cancel` | `Complete`, `Fail`, `Cancel` |
//! | `continue TYPE SOURCE`, `again SOURCE` | `ContinueAsNew`; `again` with an empty type |
//!
//! A source is `input`, `brought` or `kept`; if it is omitted, there are no payloads.
#![tactic(auto)]

mod copies;
mod counters;
mod fault;
pub mod laws;
mod listing;
mod lists;
mod numbers;
mod phrases;
mod reading;
mod rows;
mod tables;
mod verbs;
mod words;

pub use fault::{RowFault, TableFault, fault_text};
pub use lists::phrases_at;
pub use numbers::number_in;
pub use reading::read_table;
pub use rows::own_job_at;
pub use tables::{TableReading, table_reading};
pub use words::{rest, word};
