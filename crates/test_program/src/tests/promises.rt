//! Findings about promises.

use crate::tests::promising::{keeps_promises, promise_breaks, promise_says, promises_say};
use std::alloc::Global;
use std::test::Fail;

/// A table without promises; they are added to it.
const TABLE: &str =
    r#"{"version":1,"rows":[["a","start","","activity x X"],["a","signal s","",["child k K","signal o S"]],["a","done x","","complete"],["a","failed x","","fail f"],["a","cancel","","cancel"],["a","fired t","","continue N"]],"promises":"#;

/// The findings about the table with these promises, as text and as JSON.
fn table_says(alloc: Global, promises: &str, text: &str, json: &str) -> Result<(), Fail> {
    let table = format!(in alloc; "{TABLE}{promises}}}")?;
    promises_say(alloc, table.as_str(), text, json)
}

/// Promises, and the finding about each.
const SAID: [(&str, &str); 26] = [
    ("at most 1 activity X", "kept"),
    ("at most 4611686018427387904 activity X", "kept"),
    ("at most 0 activity X", "broken by: start"),
    ("at most 1 child K", "broken by: start; signal s; signal s"),
    ("at most 0 send S", "broken by: start; signal s"),
    ("at most 0 send T", "kept"),
    ("at most 1 start", "kept"),
    ("only after signal s: child K", "kept"),
    ("only after signal s: complete", "broken by: start; done x"),
    ("never after complete: child K", "kept"),
    ("never after done x: close", "broken by: start; done x"),
    ("never after cancel: canceled", "broken by: start; cancel"),
    ("never after failed x: continued", "kept"),
    ("at most 0 continued", "broken by: start; fired t"),
    ("at most 0 fail", "broken by: start; failed x"),
    (
        "after start, before complete: child K",
        "broken by: start; done x",
    ),
    ("after done x, before fail: child K", "kept"),
    (
        "at most 0 child-failed k",
        "broken by: start; child-failed k",
    ),
    ("at most 0 version c", "broken by: start; version c 0"),
    ("at most 0 version c -1", "broken by: start; version c -1"),
    (
        "only after child Table:sub: child K",
        "broken by: start; signal s",
    ),
    ("after activity X, before child a,b: complete", "kept"),
    (
        "never after signal a:b:c: child K",
        "broken by: start; signal a:b:c; signal s",
    ),
    ("at most 1 activity", "no promise is written so"),
    ("never after: child K", "no promise is written so"),
    (
        "after start before close: child K",
        "no promise is written so",
    ),
];

/// The finding about each promise is as expected, on its line.
fn each_is_said(alloc: Global, cases: &[(&'static str, &'static str)]) -> Result<(), Fail> {
    for (promise, said) in cases {
        let table = format!(in alloc; "{TABLE}\"{promise}\"}}")?;
        let line = format!(in alloc; "t: promise 1, {promise}: {said}\n")?;
        promise_says(alloc, table.as_str(), line.as_str())?;
    }
    Ok(())
}

#[test]
fn promises_are_decided(rt: HostRuntime) -> Result<(), Fail> {
    each_is_said(rt.alloc(), &SAID)
}

#[test]
fn findings_are_written(rt: HostRuntime) -> Result<(), Fail> {
    let alloc = rt.alloc();
    table_says(alloc, "[]", "", "[]")?;
    table_says(
        alloc,
        "7",
        "t: promises: they are neither a text nor a list of texts\n",
        "\"they are neither a text nor a list of texts\"",
    )?;
    table_says(
        alloc,
        r#"["at most 1 activity X","at most 0 child K","often"]"#,
        "t: promise 1, at most 1 activity X: kept\nt: promise 2, at most 0 child K: broken by: start; signal s\n  start => StartActivity x X\n  signal s => StartChild k K; SignalExternal o S\nt: promise 3, often: no promise is written so\n",
        r#"[{"promise":1,"text":"at most 1 activity X","verdict":"kept"},{"promise":2,"text":"at most 0 child K","verdict":"broken","shortest":true,"scenario":[{"job":"start","gives":"StartActivity x X"},{"job":"signal s","gives":"StartChild k K; SignalExternal o S"}]},{"promise":3,"text":"often","verdict":"no promise"}]"#,
    )
}

#[test]
fn ways_are_followed(rt: HostRuntime) -> Result<(), Fail> {
    let alloc = rt.alloc();
    let table = format!(in alloc; "{TABLE}[\"at most 1 activity X\",\"at most 0 child K\"]}}")?;
    promise_breaks(
        alloc,
        table.as_str(),
        1,
        "t: promise 2, at most 0 child K: broken",
        2,
    )?;
    let table = format!(in alloc; "{TABLE}\"at most 1 activity X\"}}")?;
    keeps_promises(alloc, table.as_str())
}
