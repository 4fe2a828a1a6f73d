//! Which jobs a task has.

use crate::tests::machines::track_of;
use std::alloc::Global;
use std::process::Abort;
use test_support::{cut, next_number, row, wants};
use wh_activation::jobs;
use wh_events::EventNo;

/// A history, two numbers of tasks, and the jobs of the second one.
const ROWS: &str = "\
nap/3 from 0 to 3 => [Time(1714557603000000000), Start workflow: Nap, input: []]
nap/8 from 3 to 8 => [Time(1714557608000000000), TimerFired id: nap]
greet/7 S signal:hello T from 3 to 10 => [Time(1714557610000000000), Signal name: hello, input: [], Activity id: 1, end: Completed([])]
start:Branch S T task_timed_out signal:one S T task_failed cancel_requested signal:two S T from 0 to 12 => [Time(1714557612000000000), Start workflow: Branch, input: [], Signal name: one, input: [], Signal name: two, input: [], CancelRequested]
family/5 cancel_child:kid child_started:5 cancel_sent:6 child_canceled:5 S T from 3 to 11 => [Time(1714557611000000000), ChildStarted workflow_id: kid, CancelSent workflow_id: kid, Child workflow_id: kid, end: Canceled]
caller/5 external_sent:5 S T from 3 to 8 => [Time(1714557608000000000), SignalSent workflow_id: other, signal: go]
caller/5 external_failed:5 S T from 3 to 8 => [Time(1714557608000000000), SignalFailed workflow_id: other, signal: go]
greet/5 S T C activity_failed:5 signal:late from 3 to 7 => [Time(1714557607000000000)]
nap/8 from 3 to 3 => [Time(1714557603000000000)]
nap/8 from 9 to 8 => [Time(1714557608000000000)]
nap/8 from 3 to 9 => []
";

/// The second task of a row has the expected jobs.
fn tells(rt: &impl Abort, alloc: Global, given: &'static str, wanted: &str) {
    let mut rest = given;
    let track = track_of(rt, alloc, cut(&mut rest, " from "));
    let from = cut(&mut rest, " to ").parse::<u64>().expect(rt, "a number");
    let to = EventNo::new(next_number(&mut rest).expect(rt, "a number")).expect(rt, "a number");
    let jobs = jobs(alloc, &track, from, to).expect(rt, given);
    wants(alloc, jobs, wanted).expect(rt, given);
}

#[test]
fn tells_jobs(rt: HostRuntime) {
    for line in ROWS.lines() {
        let (given, wanted) = row(line).expect(&rt, line);
        tells(&rt, rt.alloc(), given, wanted);
    }
}
