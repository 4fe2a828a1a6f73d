//! Texts that are not tables, and their faults.

use crate::tests::table_words::is_refused;
use std::alloc::Global;
use std::test::Fail;

/// Each text of the list is refused, for the reason next to it.
fn are_refused(alloc: Global, cases: &[(&'static str, &'static str)]) -> Result<(), Fail> {
    for (table, reason) in cases {
        is_refused(alloc, table, reason)?;
    }
    Ok(())
}

/// Texts that are not tables, and why.
const SHAPES: [(&str, &str); 17] = [
    ("{", "the table is no JSON"),
    (r#"{"version":1,"rows":[]}x"#, "the table is no JSON"),
    ("[]", "the version of the table is not 1"),
    ("1", "the version of the table is not 1"),
    (r#"{"rows":[]}"#, "the version of the table is not 1"),
    (
        r#"{"version":2,"rows":[]}"#,
        "the version of the table is not 1",
    ),
    (
        r#"{"version":"1","rows":[]}"#,
        "the version of the table is not 1",
    ),
    (
        r#"{"version":1.0,"rows":[]}"#,
        "the version of the table is not 1",
    ),
    (r#"{"version":1}"#, "the table has no list of rows"),
    (
        r#"{"version":1,"rows":{}}"#,
        "the table has no list of rows",
    ),
    (r#"{"version":1,"rows":[]}"#, "the table has no row"),
    (
        r#"{"version":1,"counters":7,"rows":[]}"#,
        "counters are at most four texts, each a name and a bound",
    ),
    (
        r#"{"version":1,"counters":["tries"],"rows":[]}"#,
        "counters are at most four texts, each a name and a bound",
    ),
    (
        r#"{"version":1,"counters":["a 1","b 1","c 1","d 1","e 1"],"rows":[]}"#,
        "counters are at most four texts, each a name and a bound",
    ),
    (
        r#"{"version":1,"counters":["tries 10000000000000000000"],"rows":[]}"#,
        "counters are at most four texts, each a name and a bound",
    ),
    (
        r#"{"version":1,"name":["payload 0"],"rows":[]}"#,
        "the name is not written so: payload NUMBER PREFIX OTHER",
    ),
    (
        r#"{"version":1,"name":"payload 65536","rows":[]}"#,
        "the name is not written so: payload NUMBER PREFIX OTHER",
    ),
];

#[test]
fn what_is_no_table_is_refused(rt: HostRuntime) -> Result<(), Fail> {
    are_refused(rt.alloc(), &SHAPES)
}

/// Rows that can't be read, and why.
const ROWS: [(&str, &str); 23] = [
    ("7", "a row is a list of at most six members"),
    (
        r#"["a","start","","","","",""]"#,
        "a row is a list of at most six members",
    ),
    (
        r#"[7,"start"]"#,
        "a member is no text, and no list of texts where one may be",
    ),
    (
        r#"["a",null]"#,
        "a member is no text, and no list of texts where one may be",
    ),
    (
        r#"["a","start",7]"#,
        "a member is no text, and no list of texts where one may be",
    ),
    (
        r#"["a","start","",[7]]"#,
        "a member is no text, and no list of texts where one may be",
    ),
    (
        r#"["a","start","","",[]]"#,
        "a member is no text, and no list of texts where one may be",
    ),
    (
        r#"["a","start","","","",{}]"#,
        "a member is no text, and no list of texts where one may be",
    ),
    (r#"["a"]"#, "no job is written so"),
    (r#"["a","begin"]"#, "no job is written so"),
    (r#"["a","start now"]"#, "no job is written so"),
    (r#"["a","done"]"#, "no job is written so"),
    (r#"["a","done b c"]"#, "no job is written so"),
    (r#"["a","version b -2"]"#, "no job is written so"),
    (r#"["a","version b 1 c"]"#, "no job is written so"),
    (
        r#"["a","start","tries < 2"]"#,
        "no condition is written so, or there is no such counter",
    ),
    (
        r#"["a","start","","go"]"#,
        "no command begins with this word",
    ),
    (
        r#"["a","start","","timer b"]"#,
        "a command lacks a word, has one too much, or a number is out of range",
    ),
    (
        r#"["a","start","","timer b 315576000001"]"#,
        "a command lacks a word, has one too much, or a number is out of range",
    ),
    (
        r#"["a","start","","activity b C inputs"]"#,
        "a command lacks a word, has one too much, or a number is out of range",
    ),
    (
        r#"["a","start","","ask b -1 2147483648"]"#,
        "a command lacks a word, has one too much, or a number is out of range",
    ),
    (
        r#"["a","start","","continue  input"]"#,
        "a command lacks a word, has one too much, or a number is out of range",
    ),
    (
        r#"["a","start","","complete","","up tries"]"#,
        "no mark is written so, or there is no such counter",
    ),
];

#[test]
fn what_is_no_row_is_refused(rt: HostRuntime) -> Result<(), Fail> {
    let alloc = rt.alloc();
    for (row, reason) in ROWS {
        let table = format!(in alloc;
            "{{\"version\":1,\"rows\":[[\"a\",\"cancel\",\"\",\"cancel\"],{row}]}}"
        )?;
        let reason = format!(in alloc; "row 2: {reason}")?;
        is_refused(alloc, table.as_str(), reason.as_str())?;
    }
    Ok(())
}

/// Rows that break a rule, and which.
const RULES: [(&str, &str); 13] = [
    (
        r#"["a","start","",["complete","timer b 1"]]"#,
        "row 1: a command follows one that asks or closes the run",
    ),
    (
        r#"["a","start","",["timer b 1","timer b 2"]]"#,
        "row 1: it starts two things of a kind under one id",
    ),
    (
        r#"["a","start","","ask b 2 1"]"#,
        "row 1: it asks for a range of versions that is none",
    ),
    (
        r#"["same","start","","complete"]"#,
        "row 1: no state has the name same",
    ),
    (
        r#"["a","start","","","b"]"#,
        "row 1: no row is for the state that it leads to",
    ),
    (
        r#"["a","start","","","any"]"#,
        "row 1: no row is for the state that it leads to",
    ),
    (
        r#"["a","start"],["b","cancel","","cancel"]"#,
        "row 2: no row of another state leads to its state",
    ),
    (
        r#"["a","start","","ask c -1 1"],["a","version c -1"],["a","version c 0"]"#,
        "row 1: it asks for a version that no row hears in the state after it",
    ),
    (
        r#"["a","start","","ask c -1 2147483647"]"#,
        "row 1: it asks for a version that no row hears in the state after it",
    ),
    (
        r#"["a","start","tries < 4","complete"]"#,
        "row 1: it raises a counter without a bound, or asks for more than the bound",
    ),
    (
        r#"["a","start"],["a","start","tries < 3"]"#,
        "row 2: it never counts, since row 1 fits wherever it does",
    ),
    (
        r#"["a","child-failed b"],["a","child-canceled b"]"#,
        "row 2: it never counts, since row 1 fits wherever it does",
    ),
    (
        r#"["a","start","tries >= 1"],["a","start","tries >= 2"]"#,
        "row 2: it never counts, since row 1 fits wherever it does",
    ),
];

#[test]
fn what_breaks_a_rule_is_refused(rt: HostRuntime) -> Result<(), Fail> {
    let alloc = rt.alloc();
    for (rows, reason) in RULES {
        let table = format!(in alloc;
            "{{\"version\":1,\"counters\":[\"tries 3\"],\"rows\":[{rows}]}}"
        )?;
        is_refused(alloc, table.as_str(), reason)?;
    }
    Ok(())
}
