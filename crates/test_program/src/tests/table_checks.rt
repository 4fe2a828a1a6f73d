//! The findings about tables, as text and as JSON, and what tables give to scenarios.

use std::alloc::Global;
use std::test::Fail;
use test_support::{Unlike, same, with_status};
use wh_console::Format;
use wh_events::{Items, OutOfMemory, Text};
use wh_promise_check::promise_findings;
use wh_table_check::{TableCheck, status_of, table_check, write_checked};
use wh_table_commands::{TableFile, stuck_finding};
use wh_table_picture::{drawing_of, write_page};
use wh_table_text::{TableReading, table_reading};
use wh_table_trial::{Trial, trial_as, try_table};

/// The output is this text, followed by the status.
fn is_written(alloc: Global, text: Vec<u8>, status: u8, wanted: &str) -> Result<(), Fail> {
    let text = with_status(text, status).ok_or(Unlike::OutOfMemory)?;
    same(alloc, text.as_str(), wanted)?;
    Ok(())
}

/// Rows, whether the table is good, and the output.
const TEXTS: [(&str, &str); 24] = [
    (
        r#"["a","start","","activity b C"],["a","done b","","complete brought"]"#,
        "t.json: ok, 2 rows\n1 files, 1 ok\nstatus 0",
    ),
    (
        r#"["a","start","","timer t 5"]"#,
        "t.json: ok, 1 rows\nt.json: warning, row 1: no row leads on from the state a\nt.json: warning, row 1: no row waits for the timer t\n1 files, 1 ok\nstatus 0",
    ),
    (
        r#"["a","start","",["activity b C","child c D"],"e"],["e","failed b","","fail"],["any","child-started c"]"#,
        "t.json: ok, 3 rows\n1 files, 1 ok\nstatus 0",
    ),
    (
        r#"["a","start","",["activity b C","child c D","timer b 1"],"e"],["e","done c"],["any","cancel","","cancel"]"#,
        "t.json: ok, 3 rows\nt.json: warning, row 1: no row waits for the activity b\nt.json: warning, row 1: no row waits for the child c\nt.json: warning, row 1: no row waits for the timer b\n1 files, 1 ok\nstatus 0",
    ),
    (
        r#"["a","start","","","e"],["e","signal go","","","e"],["e","signal on"]"#,
        "t.json: ok, 3 rows\nt.json: warning, row 2: no row leads on from the state e\n1 files, 1 ok\nstatus 0",
    ),
    (
        r#"["a","start","","activity @ B"],["a","done @","","complete"]"#,
        "t.json: ok, 2 rows\nt.json: warning, row 1: @ is empty, since the table has no member name\nt.json: warning, row 2: @ is empty, since the table has no member name\nt.json: warning, it is not decided whether a run gets stuck: it may depend on the name of the run\n1 files, 1 ok\nstatus 0",
    ),
    (
        r#"["a","start","",["timer @ 5","signal other @"]],["a","fired @","","complete"]],"name":"payload 0 b","x":["#,
        "t.json: ok, 2 rows\nt.json: warning, row 1: @ may be empty, since the member name has no OTHER\nt.json: warning, row 2: @ may be empty, since the member name has no OTHER\nt.json: warning, it is not decided whether a run gets stuck: it may depend on the name of the run\n1 files, 1 ok\nstatus 0",
    ),
    (
        r#"["a","start","",["activity @ B","signal other @"]],["a","done @","","complete"]],"name":"payload 0 b c","x":["#,
        "t.json: ok, 2 rows\nt.json: warning, it is not decided whether a run gets stuck: it may depend on the name of the run\n1 files, 1 ok\nstatus 0",
    ),
    (
        r#"["a","start","",["child k Table","child l Table:m","child n Tables","child o Table input"]],["a","child-done k","","continue Table:m"],["a","child-done l","","again"],["a","child-done n"],["a","child-done o"]"#,
        "t.json: ok, 5 rows\nt.json: warning, row 1: no source gives a table to the child k\nt.json: warning, row 1: no source gives a table to the child l\nt.json: warning, row 2: no source gives a table to the new run\n1 files, 1 ok\nstatus 0",
    ),
    (
        r#"["a","start","","complete"]],"counters":["n 3","m 1","n 1","n 2"],"x":["#,
        "t.json: ok, 1 rows\nt.json: warning, two counters have the name n\nt.json: warning, two counters have the name n\n1 files, 1 ok\nstatus 0",
    ),
    (
        r#"["a","start","","activity b PayOut"],["a","done b","","complete"]],"promises":["at most 3 activity Payout","only after done c: activity PayOut","after child a:b, before fail: send s","never after version v: close"],"x":["#,
        "t.json: fault, 2 rows\nt.json: warning, promise 1: no row gives activity Payout\nt.json: warning, promise 2: no row is for done c\nt.json: warning, promise 3: no row gives child a:b\nt.json: warning, promise 3: no row gives fail\nt.json: warning, promise 3: no row gives send s\nt.json: warning, promise 4: no row is for version v\nt.json: promise 1, at most 3 activity Payout: kept\nt.json: promise 2, only after done c: activity PayOut: broken by: start\n  start => StartActivity b PayOut\nt.json: promise 3, after child a:b, before fail: send s: kept\nt.json: promise 4, never after version v: close: broken by: start; version v 0; done b\n  start => StartActivity b PayOut\n  version v 0 => \n  done b => Complete\n1 files, 0 ok\nstatus 1",
    ),
    (
        r#"["a","start","","activity x X"],["a","done x","","","b"],["b","signal s","","complete"],["any","signal t"]"#,
        "t.json: ok, 4 rows\nt.json: warning, row 3: the state a drops the signal s\n1 files, 1 ok\nstatus 0",
    ),
    (
        r#"["a","start","","activity x X"],["a","failed x","","","b"],["b","signal s","","complete"]],"allow":"the state a drops the signal s","x":["#,
        "t.json: ok, 3 rows\n1 files, 1 ok\nstatus 0",
    ),
    (
        r#"["a","start","","timer t 5"],["a","cancel","","cancel"]],"allow":["no row waits for the timer u","no row waits for the timer t"],"x":["#,
        "t.json: ok, 2 rows\nt.json: warning, there is no warning to allow: no row waits for the timer u\n1 files, 1 ok\nstatus 0",
    ),
    (
        r#"["a","start","","timer t 5"],["a","cancel","","cancel"]],"allow":[7],"x":["#,
        "t.json: ok, 2 rows\nt.json: warning, row 1: no row waits for the timer t\nt.json: warning, allow is neither a text nor a list of at most 50 texts\n1 files, 1 ok\nstatus 0",
    ),
    (
        r#"["a","start","","","wiating"],["waiting","signal s","","complete"],["waiting","cancel","","cancel"]"#,
        "t.json: row 1: no row is for the state that it leads to\n1 files, 0 ok\nstatus 1",
    ),
    (
        r#"["a","start","","complete"],["b","cancel"],["b","signal s"],["c","cancel"],["d","cancel","","","e"],["f","cancel"]"#,
        "t.json: row 2: no row of another state leads to its state\nt.json: row 4: no row of another state leads to its state\nt.json: row 5: no row is for the state that it leads to\n1 files, 0 ok\nstatus 1",
    ),
    (
        r#"["a","begin"],["a","start","","go"],["a","start"],7"#,
        "t.json: row 1: no job is written so\nt.json: row 2: no command begins with this word\nt.json: row 4: a row is a list of at most six members\n1 files, 0 ok\nstatus 1",
    ),
    (
        r#"["a","start","",["complete","timer b 1"]],["a","start","","","z"],["a","cancel"]"#,
        "t.json: row 1: a command follows one that asks or closes the run\nt.json: row 2: no row is for the state that it leads to\n1 files, 0 ok\nstatus 1",
    ),
    (
        r#"["a","start"],["a","start"],["b","start"]"#,
        "t.json: row 2: it never counts, since row 1 fits wherever it does\nt.json: row 3: no row of another state leads to its state\n1 files, 0 ok\nstatus 1",
    ),
    (
        r#"],"counters":7,"name":7,"x":["#,
        "t.json: counters are at most four texts, each a name and a bound\nt.json: the name is not written so: payload NUMBER PREFIX OTHER\n1 files, 0 ok\nstatus 1",
    ),
    (
        r#"],"counters":7,"rows":[["a","begin"]"#,
        "t.json: counters are at most four texts, each a name and a bound\n1 files, 0 ok\nstatus 1",
    ),
    (
        r#"],"version":2,"rows":7,"x":["#,
        "t.json: the version of the table is not 1\n1 files, 0 ok\nstatus 1",
    ),
    ("", "t.json: the table has no row\n1 files, 0 ok\nstatus 1"),
];

/// A file with a table of these rows.
fn file_of(alloc: Global, rows: &str) -> Result<TableFile, Fail> {
    let text = format!(in alloc; "{{\"version\":1,\"rows\":[{rows}]}}")?;
    Ok(TableFile {
        name: Text::new(String::from_str(alloc, "t.json")?),
        bytes: Items::new(text.into_bytes()),
    })
}

/// What one reading of a file finds, and the result of its check.
fn check_file(alloc: Global, file: &TableFile) -> Result<(TableReading, TableCheck), OutOfMemory> {
    let reading = table_reading(alloc, file.bytes.get())?;
    let promises = promise_findings(alloc, &reading)?;
    let stuck = stuck_finding(alloc, &reading.table)?;
    let own = table_check(alloc, &file.name, &reading, promises, &stuck)?;
    Ok((reading, own))
}

/// The results of the checks of files.
fn check_files(alloc: Global, files: &[TableFile]) -> Result<Vec<TableCheck>, OutOfMemory> {
    let mut all = Vec::new(alloc);
    for file in files {
        let (_, own) = check_file(alloc, file)?;
        all.push(own)?;
    }
    Ok(all)
}

#[test]
fn all_faults_and_warnings_are_written(rt: HostRuntime) -> Result<(), Fail> {
    let alloc = rt.alloc();
    for (rows, wanted) in TEXTS {
        let mut files = Vec::new(alloc);
        files.push(file_of(alloc, rows)?)?;
        let mut text = Vec::new(alloc);
        let found = check_files(alloc, files.as_slice())?;
        write_checked(alloc, found.as_slice(), Format::Text, &mut text)?;
        is_written(alloc, text, status_of(found.as_slice()), wanted)?;
    }
    Ok(())
}

/// The output for a good table with a warning, for one that breaks rules, and for a text that is
/// not JSON.
const JSON: &str =
    r#"{"file":"t.json","verdict":"ok","rows":1,"faults":[],"warnings":[{"row":1,"text":"row 1: no row leads on from the state \"a?"}]}
{"file":"t.json","verdict":"fault","rows":0,"faults":[{"row":1,"text":"row 1: no job is written so"},{"row":2,"text":"row 2: no job is written so"}],"warnings":[]}
{"file":"t.json","verdict":"fault","rows":0,"faults":[{"text":"the table is no JSON"}],"warnings":[]}
{"files":3,"ok":1}
status 1"#;

#[test]
fn files_are_objects(rt: HostRuntime) -> Result<(), Fail> {
    let alloc = rt.alloc();
    let mut files = Vec::new(alloc);
    files.push(file_of(alloc, r#"["\"a\u000a","start"]"#)?)?;
    files.push(file_of(alloc, r#"["a","begin"],["a","end"]"#)?)?;
    files.push(file_of(alloc, "]")?)?;
    let mut text = Vec::new(alloc);
    let found = check_files(alloc, files.as_slice())?;
    write_checked(alloc, found.as_slice(), Format::Json, &mut text)?;
    is_written(alloc, text, status_of(found.as_slice()), JSON)
}

/// The trial is written so in a format, followed by 0 if nothing differs, and else by 1.
fn is_tried(alloc: Global, own: &Trial, format: Format, wanted: &str) -> Result<(), Fail> {
    let text = trial_as(alloc, "t.json", own, format)?;
    let status = if own.is_good() { 0 } else { 1 };
    is_written(alloc, text.into_bytes(), status, wanted)
}

/// The rows that are tried.
const CHARGE: &str =
    r#"["a","start","","activity b C input"],["a","done b","","complete brought"],["a","failed b","","again input"]"#;

/// Scenarios, the status, and the output.
const TRIALS: [(&str, &str); 8] = [
    (
        "start 1; done b \"x\"",
        "start 1 => StartActivity b C 1\ndone b \"x\" => Complete \"x\"\nt.json: ok, 2 jobs\nstatus 0",
    ),
    (
        "\n start  =>  StartActivity b C \n\nstart 2=>StartActivity b C 2\nfailed b =>ContinueAsNew Table TABLE 2",
        "start => StartActivity b C\nstart 2 => StartActivity b C 2\nfailed b => ContinueAsNew Table TABLE 2\nt.json: ok, 3 jobs\nstatus 0",
    ),
    (
        "start; cancel =>StartActivity b C\ndone b =>",
        "start => StartActivity b C\ncancel =>\ndone b => Complete\nt.json: line 2 differs\n  expected \n  gives    Complete\nstatus 1",
    ),
    (
        "start => Complete\nstart",
        "start => StartActivity b C\nt.json: line 1 differs\n  expected Complete\n  gives    StartActivity b C\nstatus 1",
    ),
    (
        "start; go on; cancel",
        "start => StartActivity b C\nt.json: line 1: no job is written `go on`\nstatus 1",
    ),
    ("failed b", "failed b =>\nt.json: ok, 1 jobs\nstatus 0"),
    ("", "t.json: ok, 0 jobs\nstatus 0"),
    (
        "start;",
        "start => StartActivity b C\nt.json: line 1: no job is written ``\nstatus 1",
    ),
];

#[test]
fn scenarios_are_tried(rt: HostRuntime) -> Result<(), Fail> {
    let alloc = rt.alloc();
    let file = file_of(alloc, CHARGE)?;
    for (scenario, wanted) in TRIALS {
        let own = try_table(alloc, file.bytes.get(), scenario)?;
        is_tried(alloc, &own, Format::Text, wanted)?;
    }
    Ok(())
}

/// Scenarios, and the output as JSON.
const TRIALS_AS_JSON: [(&str, &str); 3] = [
    (
        "start 1; done b \"x\"",
        "{\"file\":\"t.json\",\"verdict\":\"ok\",\"jobs\":2}\nstatus 0",
    ),
    (
        "start\ndone b \"x\" => Complete \"y\"",
        "{\"file\":\"t.json\",\"verdict\":\"fault\",\"jobs\":2,\"line\":2,\"expected\":\"Complete \\\"y\\\"\",\"gives\":\"Complete \\\"x\\\"\"}\nstatus 1",
    ),
    (
        "start; go \"on\"",
        "{\"file\":\"t.json\",\"verdict\":\"fault\",\"jobs\":1,\"line\":1,\"text\":\"no job is written `go \\\"on\\\"`\"}\nstatus 1",
    ),
];

#[test]
fn trials_are_objects(rt: HostRuntime) -> Result<(), Fail> {
    let alloc = rt.alloc();
    let file = file_of(alloc, CHARGE)?;
    for (scenario, wanted) in TRIALS_AS_JSON {
        let own = try_table(alloc, file.bytes.get(), scenario)?;
        is_tried(alloc, &own, Format::Json, wanted)?;
    }
    let none = r#"{"file":"t.json","verdict":"fault","jobs":0,"text":"no scenario"}"#;
    let none = format!(in alloc; "{none}\nstatus 1")?;
    is_tried(
        alloc,
        &Trial::without_scenario(alloc),
        Format::Json,
        none.as_str(),
    )
}

#[test]
fn what_is_no_table_is_not_tried(rt: HostRuntime) -> Result<(), Fail> {
    let alloc = rt.alloc();
    let file = file_of(alloc, r#"["a","begin"]"#)?;
    let own = try_table(alloc, file.bytes.get(), "start")?;
    let wanted = "t.json: row 1: no job is written so\nstatus 1";
    is_tried(alloc, &own, Format::Text, wanted)
}

#[test]
fn a_page_shows_what_a_table_holds_as_text(rt: HostRuntime) -> Result<(), Fail> {
    let alloc = rt.alloc();
    let file = file_of(
        alloc,
        r#"["<b>","start","","complete"]],"title":"<i> & \"so\"","x":[0"#,
    )?;
    let mut page = Vec::new(alloc);
    let (reading, own) = check_file(alloc, &file)?;
    let drawing = drawing_of(alloc, &reading, own)?;
    write_page(&drawing, &mut page)?;
    let page = with_status(page, 0).ok_or(Unlike::OutOfMemory)?;
    let found = format!(in alloc;
        "{} {} {} {}",
        page.as_str().contains("<b>"),
        page.as_str().contains("<i>"),
        page.as_str().contains(">&lt;b&gt;<"),
        page.as_str()
            .contains("<p>&lt;i&gt; &amp; &quot;so&quot;</p>")
    )?;
    same(alloc, found.as_str(), "false false true true")?;
    Ok(())
}
