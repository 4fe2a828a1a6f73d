//! The warnings for tables, and the report of their check: faults, warnings and what is found of
//! promises, as text or as JSON.
#![tactic(auto)]

mod allowed;
mod causes;
mod checking;
mod counters;
mod finding;
mod names;
mod new_runs;
mod promise_texts;
mod promised;
mod report;
mod signals;
mod stuck;
mod texts;
mod warning;

pub use checking::{TableCheck, table_check};
pub use finding::TableFinding;
pub use promise_texts::{findings_json, findings_text, list_words, outcome_detail};
pub use report::{status_of, write_checked};
pub use stuck::StuckFinding;
pub use texts::{is_good, verdict_word};
