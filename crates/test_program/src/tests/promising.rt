//! Tables and their promises.

use crate::tests::table_words::run_follows;
use std::alloc::{AllocError, Global};
use std::test::Fail;
use wh_author_tools::ScenarioFault;
use wh_events::Text;
use wh_promise_check::promise_findings;
use wh_row_rules::{
    PhraseFinding, PromiseFinding, PromiseFindings, PromiseVerdict, WayStep, are_kept,
};
use wh_table_check::{findings_json, findings_text};
use wh_table_text::table_reading;

/// Both texts, which should be the same.
fn differs(alloc: Global, given: &str, wanted: &str) -> Result<ScenarioFault, AllocError> {
    Ok(ScenarioFault::Differs {
        line: 1,
        given: Text::new(String::from_str(alloc, given)?),
        wanted: Text::new(String::from_str(alloc, wanted)?),
    })
}

/// The given text is the expected one.
fn is_same(alloc: Global, given: &str, wanted: &str) -> Result<(), Fail> {
    if given == wanted {
        return Ok(());
    }
    let fault = differs(alloc, given, wanted)?;
    Err(fault)?
}

/// The findings about the promises of a table.
fn found_of(alloc: Global, table: &str) -> Result<PromiseFindings, Fail> {
    let reading = table_reading(alloc, table.as_bytes())?;
    let found = promise_findings(alloc, &reading)?;
    Ok(found)
}

/// The findings about the promises of a table are this text, and this JSON.
pub(super) fn promises_say(alloc: Global, table: &str, text: &str, json: &str) -> Result<(), Fail> {
    let found = found_of(alloc, table)?;
    let said = findings_text(alloc, "t", &found)?;
    is_same(alloc, said.as_str(), text)?;
    let said = findings_json(alloc, &found)?;
    is_same(alloc, said.as_str(), json)
}

/// The findings about the promises of a table have this line.
pub(super) fn promise_says(alloc: Global, table: &str, line: &str) -> Result<(), Fail> {
    let found = found_of(alloc, table)?;
    let said = findings_text(alloc, "t", &found)?;
    if said.as_str().contains(line) {
        return Ok(());
    }
    is_same(alloc, said.as_str(), line)
}

/// The table keeps each promise.
pub(super) fn keeps_promises(alloc: Global, table: &str) -> Result<(), Fail> {
    let found = found_of(alloc, table)?;
    if are_kept(&found) {
        return Ok(());
    }
    let said = findings_text(alloc, "t", &found)?;
    is_same(alloc, said.as_str(), "each is kept")
}

/// The path of a finding, if it has one.
fn way_in(finding: &PromiseFinding) -> &[WayStep] {
    match &finding.outcome {
        PhraseFinding::Decided(PromiseVerdict::Broken(breach)) => breach.way.as_slice(),
        _ => &[],
    }
}

/// The path of the promise at this index, if it has one.
fn way_at(found: &PromiseFindings, index: usize) -> &[WayStep] {
    match found {
        PromiseFindings::Each(list) => match list.get().get(index) {
            Some(finding) => way_in(finding),
            None => &[],
        },
        _ => &[],
    }
}

/// A path as a scenario, with `TABLE` for the table.
fn scenario_of(alloc: Global, way: &[WayStep]) -> Result<String, AllocError> {
    let mut text = String::new(alloc);
    for step in way {
        let job = step.job.get();
        let job = if job == "start" { "start TABLE" } else { job };
        let gives = step.gives.get();
        let line = format!(in alloc; "{job} => {gives}\n")?;
        text.push_str(line.as_str())?;
    }
    Ok(text)
}

/// The promise at this index is broken on a path of so many jobs, which runs follow, and the
/// finding is this one.
pub(super) fn promise_breaks(
    alloc: Global,
    table: &str,
    index: usize,
    line: &str,
    many: usize,
) -> Result<(), Fail> {
    let found = found_of(alloc, table)?;
    let said = findings_text(alloc, "t", &found)?;
    if !said.as_str().contains(line) {
        is_same(alloc, said.as_str(), line)?;
    }
    let way = way_at(&found, index);
    if way.len() != many {
        is_same(alloc, said.as_str(), "a way of as many jobs")?;
    }
    let scenario = scenario_of(alloc, way)?;
    run_follows(alloc, table, scenario.as_str())
}
