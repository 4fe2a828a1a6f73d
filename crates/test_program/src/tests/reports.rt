//! Reports of several files.

use std::alloc::Global;
use std::process::Abort;
use std::thread::Threads;
use test_support::{bytes_of, push, repeated, row, same, with_status};
use wh_console::NO_OPTIONS;
use wh_report::{CommandFault, replay_command};
use wh_sample_workflows::All;

/// Files, each by its name and its history, with the lines of their report and the status.
const REPORTS: &str = "\
nap.json: nap => nap.json: ok, 2 tasks, 1 files, 1 ok, status 0
b.json: nap; a.json: greet => b.json: ok, 2 tasks, a.json: ok, 2 tasks, 2 files, 2 ok, status 0
b.json: nap; a.json: greet | 'name':'greet' -> 'name':'greets' => b.json: ok, 2 tasks, a.json: fault, event 5 differs, 2 files, 1 ok, status 1
caller.json: caller => caller.json: ok, 2 tasks, 1 files, 1 ok, status 0
x.json: nap/3; x.json: nap | 'eventId':'3' -> 'eventId':'4' => x.json: ok, 1 tasks, last live, x.json: unreadable, event 3 is out of order, 2 files, 1 ok, status 1
b.json: nap; a.json: greet/2 C; c: S => b.json: ok, 2 tasks, a.json: ok, 0 tasks, c: fault, event 1 is not in place: FirstNotStart, 3 files, 2 ok, status 1
\u{e9}.json: nap; a\tb\u{7f}~ .json: nap => ?.json: ok, 2 tasks, a?b?~ .json: ok, 2 tasks, 2 files, 2 ok, status 0
 => 0 files, 0 ok, status 0
";

/// Adds a file with a history. The file of an empty history is empty.
fn push_history(
    rt: &impl Abort,
    alloc: Global,
    files: &mut Vec<(String, Vec<u8>)>,
    name: &str,
    history: &'static str,
) {
    let name = String::from_str(alloc, name).expect(rt, "memory");
    let bytes = bytes_of(alloc, history).expect(rt, history);
    push(files, (name, bytes)).expect(rt, "memory");
}

/// Files by their names and histories.
pub(crate) fn named_files(
    rt: &impl Abort,
    alloc: Global,
    list: &'static str,
) -> Vec<(String, Vec<u8>)> {
    let mut files = Vec::new(alloc);
    for file in list.split("; ") {
        if let Some((name, history)) = file.split_once(": ") {
            push_history(rt, alloc, &mut files, name, history);
        }
    }
    files
}

/// The output of the command for the files, followed by its status.
fn replayed<R: Threads + Sync + Abort>(
    rt: &R,
    alloc: Global,
    files: Vec<(String, Vec<u8>)>,
) -> String {
    let mut out = Vec::new(alloc);
    let status = replay_command::<All, _, _>(rt, alloc, files, NO_OPTIONS, &mut out);
    with_status(out, status.expect(rt, "refused")).expect(rt, "a text")
}

/// The report of files, as one line.
fn report_line<R: Threads + Sync + Abort>(rt: &R, alloc: Global, list: &'static str) -> String {
    let report = replayed(rt, alloc, named_files(rt, alloc, list));
    report
        .as_str()
        .replace(alloc, "\n", ", ")
        .expect(rt, "memory")
}

#[test]
fn files_are_reported(rt: HostRuntime) {
    for line in REPORTS.lines() {
        let (list, wanted) = row(line).expect(&rt, line);
        let report = report_line(&rt, rt.alloc(), list);
        same(rt.alloc(), report.as_str(), wanted).expect(&rt, list);
    }
}

/// As many files with a nap.
fn naps(rt: &impl Abort, alloc: Global, count: usize) -> Vec<(String, Vec<u8>)> {
    let mut files = Vec::new(alloc);
    for _ in 0..count {
        push_history(rt, alloc, &mut files, "nap.json", "nap");
    }
    files
}

#[test]
fn many_files_are_replayed(rt: HostRuntime) {
    let alloc = rt.alloc();
    let report = replayed(&rt, alloc, naps(&rt, alloc, 3_000));
    let line = "nap.json: ok, 2 tasks\n";
    let end = "3000 files, 3000 ok\nstatus 0";
    let wanted = repeated(alloc, line, 3_000, end).expect(&rt, "memory");
    same(rt.alloc(), report.as_str(), wanted.as_str()).expect(&rt, "many files");
}

/// A writer without room for the line of the totals.
#[test]
fn failed_output_is_told(rt: HostRuntime) {
    let mut room = [0; 5];
    let mut writer = room.as_mut_slice();
    let files = Vec::new(rt.alloc());
    let answer = replay_command::<All, _, _>(&rt, rt.alloc(), files, NO_OPTIONS, &mut writer);
    assert!(rt; matches!(answer, Err(CommandFault::Output)));
}
