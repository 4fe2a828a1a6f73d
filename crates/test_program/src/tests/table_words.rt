//! Tables as words of a scenario.

use std::alloc::{AllocError, Global};
use std::test::Fail;
use wh_author_tools::follows;
use wh_table::TableWorkflow;

/// The text as one word: spaces, which only strings have, and semicolons are escaped in JSON.
pub(super) fn one_word(alloc: Global, text: &str) -> Result<String, AllocError> {
    let mut word = String::new(alloc);
    for part in text.chars() {
        match part {
            ' ' => word.push_str("\\u0020")?,
            ';' => word.push_str("\\u003b")?,
            '\n' => {}
            other => word.push(other)?,
        }
    }
    Ok(word)
}

/// A run of the table follows the scenario, with `TABLE` for the table.
pub(super) fn run_follows(alloc: Global, table: &str, scenario: &str) -> Result<(), Fail> {
    let word = one_word(alloc, table)?;
    let scenario = scenario.replace(alloc, "TABLE", word.as_str())?;
    follows::<TableWorkflow>(alloc, "Table", scenario.as_str())?;
    Ok(())
}

/// A run whose input is not a table fails at its start, for this reason, and gives nothing more.
pub(super) fn is_refused(alloc: Global, table: &str, reason: &str) -> Result<(), Fail> {
    let scenario = format!(in alloc; "start TABLE 1 => Fail {reason}\ncancel; signal go =>")?;
    run_follows(alloc, table, scenario.as_str())
}
