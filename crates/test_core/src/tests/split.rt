//! Where the tasks of a history are.

use std::alloc::Global;
use std::process::Abort;
use test_support::{cut, events_after, next_number, row, wants};
use wh_events::EventNo;
use wh_split::{cuts, is_live, next_cut};

/// A history, an event and another one: its tasks, the first of them after the one event, and
/// whether the other event is a live task.
const ROWS: &str = "\
nap after 0 at 8 => Ok([3, 8]); Some(3); false
nap after 3 at 8 => Ok([3, 8]); Some(8); false
nap after 8 at 8 => Ok([3, 8]); None; false
nap/8 after 8 at 8 => Ok([3, 8]); None; true
nap/3 task_failed S T ignored after 0 at 6 => Ok([6]); Some(6); true
nap/3 task_failed S T ignored after 0 at 3 => Ok([6]); Some(6); false
";

/// The tasks of the history of a row are as expected.
fn splits(rt: &impl Abort, alloc: Global, given: &'static str, wanted: &'static str) {
    let (mut given, mut wanted) = (given, wanted);
    let history = cut(&mut given, " after ");
    let from = cut(&mut given, " at ")
        .parse::<u64>()
        .expect(rt, "a number");
    let at = EventNo::new(next_number(&mut given).expect(rt, "a number")).expect(rt, "a number");
    let events = events_after(alloc, history, 0).expect(rt, history);
    wants(alloc, cuts(alloc, &events), cut(&mut wanted, "; ")).expect(rt, history);
    let next = next_cut(&events, from);
    wants(alloc, next, cut(&mut wanted, "; ")).expect(rt, history);
    wants(alloc, is_live(&events, at), wanted).expect(rt, history);
}

#[test]
fn finds_tasks(rt: HostRuntime) {
    for line in ROWS.lines() {
        let (given, wanted) = row(line).expect(&rt, line);
        splits(&rt, rt.alloc(), given, wanted);
    }
}
