//! Tables at the limits, and beyond.

use crate::tests::table_words::{is_refused, run_follows};
use std::alloc::{AllocError, Global};
use std::test::Fail;
use test_support::repeated;

/// A table of these rows.
fn table_of(alloc: Global, rows: &str) -> Result<String, AllocError> {
    format!(in alloc; "{{\"version\":1,\"counters\":[\"tries 3\"],\"rows\":[{rows}]}}")
}

#[test]
fn two_hundred_rows_are_a_table(rt: HostRuntime) -> Result<(), Fail> {
    let alloc = rt.alloc();
    let rows = repeated(alloc, "[\"a\",\"start\"],", 200, "[\"a\",\"start\"]")?;
    let table = table_of(alloc, rows.as_str())?;
    is_refused(alloc, table.as_str(), "the table has more than 200 rows")?;
    let rows = repeated(alloc, "[\"a\",\"start\"],", 199, "[\"a\",\"start\"]")?;
    let table = table_of(alloc, rows.as_str())?;
    let reason = "row 2: it never counts, since row 1 fits wherever it does";
    is_refused(alloc, table.as_str(), reason)?;
    let rows = repeated(alloc, "[\"a\",\"start\"],", 9_999, "[\"a\",\"start\"]")?;
    let table = table_of(alloc, rows.as_str())?;
    is_refused(alloc, table.as_str(), "the table has more than 200 rows")
}

#[test]
fn sixty_four_commands_are_a_row(rt: HostRuntime) -> Result<(), Fail> {
    let alloc = rt.alloc();
    let commands = repeated(alloc, "\"cancel-timer t\",", 64, "\"complete\"")?;
    let row = format!(in alloc; "[\"a\",\"start\",\"\",[{commands}]]")?;
    let table = table_of(alloc, row.as_str())?;
    is_refused(
        alloc,
        table.as_str(),
        "row 1: it gives more than 64 commands",
    )?;
    let commands = repeated(alloc, "\"cancel-timer t\",", 63, "\"complete\"")?;
    let row = format!(in alloc; "[\"a\",\"start\",\"\",[{commands}]]")?;
    let table = table_of(alloc, row.as_str())?;
    let given = repeated(alloc, "CancelTimer t; ", 63, "Complete")?;
    let scenario = format!(in alloc; "start TABLE => {given}")?;
    run_follows(alloc, table.as_str(), scenario.as_str())
}

#[test]
fn sixteen_conditions_are_a_row(rt: HostRuntime) -> Result<(), Fail> {
    let alloc = rt.alloc();
    let conditions = repeated(alloc, "\"tries < 3\",", 16, "\"tries < 3\"")?;
    let row = format!(in alloc; "[\"a\",\"start\",[{conditions}],\"complete\"]")?;
    let table = table_of(alloc, row.as_str())?;
    is_refused(
        alloc,
        table.as_str(),
        "row 1: it has more than 16 conditions or marks",
    )?;
    let conditions = repeated(alloc, "\"tries < 3\",", 15, "\"tries < 3\"")?;
    let row = format!(in alloc; "[\"a\",\"start\",[{conditions}],\"complete\"]")?;
    let table = table_of(alloc, row.as_str())?;
    run_follows(alloc, table.as_str(), "start TABLE => Complete")
}

#[test]
fn names_may_be_long(rt: HostRuntime) -> Result<(), Fail> {
    let alloc = rt.alloc();
    let name = repeated(alloc, "n", 69_999, "n")?;
    let row = format!(in alloc; "[\"{name}\",\"start\",\"\",\"timer {name} 315576000000\"]")?;
    let table = table_of(alloc, row.as_str())?;
    let scenario = format!(in alloc; "start TABLE => StartTimer {name} (315576000000 s)")?;
    run_follows(alloc, table.as_str(), scenario.as_str())
}
