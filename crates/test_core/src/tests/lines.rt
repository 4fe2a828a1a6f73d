//! The lines of histories: what replay makes of each, in words.

use std::alloc::Global;
use std::process::Abort;
use test_support::{bytes_of, row, same};
use wh_tester::{Line, verdict, write_line};
use wh_workflow::{Workflow, text_of};

/// The line of a file, `x.json`.
fn line_of<W: Workflow>(rt: &impl Abort, alloc: Global, bytes: &[u8]) -> String {
    let name = text_of(alloc, "x.json").expect(rt, "memory");
    let verdict = verdict::<W>(alloc, bytes);
    let mut out = Vec::new(alloc);
    write_line(&Line { name, verdict }, &mut out).expect(rt, "written");
    String::from_utf8(out).expect(rt, "a text")
}

/// The line of a file is this one.
pub(crate) fn reads<W: Workflow>(
    rt: &impl Abort,
    alloc: Global,
    given: &str,
    bytes: &[u8],
    line: &str,
) {
    let came = line_of::<W>(rt, alloc, bytes);
    let wanted = format!(in alloc; "{line}\n").expect(rt, "memory");
    same(alloc, came.as_str(), wanted.as_str()).expect(rt, given);
}

/// Replays the history of each row, and compares its line.
pub(crate) fn replays<W: Workflow>(rt: &impl Abort, alloc: Global, table: &'static str) {
    for line in table.lines() {
        let (history, wanted) = row(line).expect(rt, line);
        let bytes = bytes_of(alloc, history).expect(rt, history);
        reads::<W>(rt, alloc, history, bytes.as_slice(), wanted);
    }
}
