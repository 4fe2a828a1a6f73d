//! The texts of the report.

use std::alloc::Global;
use std::process::Abort;
use test_support::{push, repeated, same};
use wh_events::{EventNo, Items, PlaceFault};
use wh_json::ReadFault;
use wh_replay::{Fault, ReplayedTasks};
use wh_report::{Format, Record, status_of, write_report};
use wh_tester::{Line, Verdict};
use wh_workflow::{Mismatch, WorkflowFault, text_of};

/// The faults of place.
static PLACE_FAULTS: [PlaceFault; 8] = [
    PlaceFault::FirstNotStart,
    PlaceFault::WrongNumber,
    PlaceFault::AfterClose,
    PlaceFault::NoSuchRef,
    PlaceFault::WrongKindRef,
    PlaceFault::AlreadyClosed,
    PlaceFault::IdInUse,
    PlaceFault::TooManyEvents,
];

/// The faults of workflows.
static WORKFLOW_FAULTS: [WorkflowFault; 9] = [
    WorkflowFault::AfterClosing,
    WorkflowFault::TooManyCommands,
    WorkflowFault::IdInUse,
    WorkflowFault::IdReused,
    WorkflowFault::NotOpen,
    WorkflowFault::AlreadyCancelling,
    WorkflowFault::BadRange,
    WorkflowFault::VersionOutOfRange,
    WorkflowFault::UnknownWorkflow,
];

/// The report of the faults of place, those of workflows, and differences.
const FAULTS: &str = "\
x.json: fault, event 9223372036854775807 is not in place: FirstNotStart
x.json: fault, event 9223372036854775807 is not in place: WrongNumber
x.json: fault, event 9223372036854775807 is not in place: AfterClose
x.json: fault, event 9223372036854775807 is not in place: NoSuchRef
x.json: fault, event 9223372036854775807 is not in place: WrongKindRef
x.json: fault, event 9223372036854775807 is not in place: AlreadyClosed
x.json: fault, event 9223372036854775807 is not in place: IdInUse
x.json: fault, event 9223372036854775807 is not in place: TooManyEvents
x.json: fault, task at 67: AfterClosing
x.json: fault, task at 67: TooManyCommands
x.json: fault, task at 67: IdInUse
x.json: fault, task at 67: IdReused
x.json: fault, task at 67: NotOpen
x.json: fault, task at 67: AlreadyCancelling
x.json: fault, task at 67: BadRange
x.json: fault, task at 67: VersionOutOfRange
x.json: fault, task at 67: UnknownWorkflow
x.json: fault, event 5 differs
x.json: fault, event 5 has no command
x.json: fault, command 2 of the task at 8 has no event
x.json: fault, not a task
x.json: fault, task at 1: UnknownWorkflow
22 files, 0 ok
";

/// The report of the faults of reading.
const UNREADABLE: &str = "\
x.json: unreadable, file too long
x.json: unreadable, not JSON
x.json: unreadable, no events
x.json: unreadable, out of memory
x.json: unreadable, event 1 has a bad number
x.json: unreadable, event 3 is out of order
x.json: unreadable, event 5 lacks a field
x.json: unreadable, event 2 has a bad time
x.json: unreadable, event 7 has a bad payload
x.json: unreadable, event 7 has a shorthand payload
x.json: unreadable, event 4 has the unsupported type A?B
x.json: unreadable, event 5 has the unsupported marker Side?ffect
12 files, 0 ok
";

/// Names of files.
static NAMES: [&str; 8] = [
    "nap.json",
    "",
    "\u{e9}.json",
    "e\u{301}.json",
    "A\nB",
    "\u{1f600}\u{0}\u{7f}",
    " ~!",
    "a: ok, 2 tasks",
];

/// The lines of `json_lines`, one for each verdict, then the totals.
const JSON: &str = r#"{"file":"a\"b\\c?.json","verdict":"ok","tasks":3,"live":false}
{"file":"","verdict":"ok","tasks":0,"live":true}
{"file":"x.json","verdict":"unreadable","fault":"not JSON"}
{"file":"x.json","verdict":"unreadable","event":4,"fault":"event 4 lacks a field"}
{"file":"x.json","verdict":"unreadable","event":6,"fault":"event 6 has the unsupported type \"\\?"}
{"file":"x.json","verdict":"fault","fault":"not a task"}
{"file":"x.json","verdict":"fault","event":5,"fault":"event 5 is not in place: NoSuchRef"}
{"file":"x.json","verdict":"fault","task":7,"fault":"task at 7: NotOpen"}
{"file":"x.json","verdict":"fault","task":1,"fault":"task at 1: UnknownWorkflow","workflowType":"No\"pe"}
{"file":"x.json","verdict":"fault","event":5,"fault":"event 5 differs"}
{"file":"x.json","verdict":"fault","event":5,"fault":"event 5 has no command"}
{"file":"x.json","verdict":"fault","task":8,"fault":"command 2 of the task at 8 has no event"}
{"file":"x.json","verdict":"out of memory"}
{"files":13,"ok":2}
"#;

/// The report of files of these names, whose check ran out of memory.
const SHOWN_NAMES: &str = "\
nap.json: out of memory
: out of memory
?.json: out of memory
e?.json: out of memory
A?B: out of memory
???: out of memory
 ~!: out of memory
a: ok, 2 tasks: out of memory
8 files, 0 ok
";

/// The record of a file with this line.
fn record_with(alloc: Global, line: Line) -> Record {
    Record {
        line,
        detail: None,
        difference: None,
        warnings: Items::new(Vec::new(alloc)),
    }
}

fn add(rt: &impl Abort, alloc: Global, records: &mut Vec<Record>, name: &str, verdict: Verdict) {
    let name = text_of(alloc, name).expect(rt, "memory");
    push(records, record_with(alloc, Line { name, verdict })).expect(rt, "memory");
}

/// The report of these records.
fn report_of(rt: &impl Abort, alloc: Global, records: &[Record]) -> String {
    let mut out = Vec::new(alloc);
    write_report(records, Format::Text, &mut out).expect(rt, "written");
    String::from_utf8(out).expect(rt, "a text")
}

/// The report of these records is this text.
fn reports(rt: &impl Abort, alloc: Global, records: &[Record], wanted: &str) {
    let report = report_of(rt, alloc, records);
    same(alloc, report.as_str(), wanted).expect(rt, "a report");
}

/// A file whose replay met a fault.
fn add_fault(rt: &impl Abort, alloc: Global, records: &mut Vec<Record>, fault: Fault) {
    add(rt, alloc, records, "x.json", Verdict::Faulty(fault));
}

/// A file for whose workflow type there is no code.
fn add_no_code(rt: &impl Abort, alloc: Global, records: &mut Vec<Record>) {
    let kind = text_of(alloc, "No\"pe").expect(rt, "memory");
    add(rt, alloc, records, "x.json", Verdict::NoCode { kind });
}

/// A file whose task at 8 differs from its record.
fn add_mismatch(rt: &impl Abort, alloc: Global, records: &mut Vec<Record>, mismatch: Mismatch) {
    add_fault(rt, alloc, records, Fault::Mismatch { at: 8, mismatch });
}

fn add_mismatches(rt: &impl Abort, alloc: Global, records: &mut Vec<Record>) {
    let event = EventNo::new(5).expect(rt, "a number");
    add_mismatch(rt, alloc, records, Mismatch::Different { event });
    add_mismatch(rt, alloc, records, Mismatch::CommandMissing { event });
    add_mismatch(rt, alloc, records, Mismatch::CommandExtra { index: 2 });
}

#[test]
fn shows_faults(rt: HostRuntime) {
    let alloc = rt.alloc();
    let mut records = Vec::new(alloc);
    for fault in &PLACE_FAULTS {
        let at = 9_223_372_036_854_775_807;
        let fault = Fault::Place { at, fault: *fault };
        add_fault(&rt, alloc, &mut records, fault);
    }
    for fault in &WORKFLOW_FAULTS {
        let fault = Fault::Workflow {
            at: 67,
            fault: *fault,
        };
        add_fault(&rt, alloc, &mut records, fault);
    }
    add_mismatches(&rt, alloc, &mut records);
    add_fault(&rt, alloc, &mut records, Fault::NotATask);
    add_no_code(&rt, alloc, &mut records);
    reports(&rt, alloc, records.as_slice(), FAULTS);
}

/// A file that could not be read for this fault.
fn add_unreadable(rt: &impl Abort, alloc: Global, records: &mut Vec<Record>, fault: ReadFault) {
    add(rt, alloc, records, "x.json", Verdict::Unreadable(fault));
}

/// Files that are no lists of events.
fn add_no_lists(rt: &impl Abort, alloc: Global, records: &mut Vec<Record>) {
    add_unreadable(rt, alloc, records, ReadFault::TooLong);
    add_unreadable(rt, alloc, records, ReadFault::BadJson);
    add_unreadable(rt, alloc, records, ReadFault::NoEvents);
    add_unreadable(rt, alloc, records, ReadFault::OutOfMemory);
}

/// Files with an event that is not read.
fn add_bad_events(rt: &impl Abort, alloc: Global, records: &mut Vec<Record>) {
    add_unreadable(rt, alloc, records, ReadFault::BadNumber { at: 1 });
    add_unreadable(rt, alloc, records, ReadFault::OutOfOrder { at: 3 });
    add_unreadable(rt, alloc, records, ReadFault::MissingField { at: 5 });
    add_unreadable(rt, alloc, records, ReadFault::BadTime { at: 2 });
    add_unreadable(rt, alloc, records, ReadFault::BadPayload { at: 7 });
    add_unreadable(rt, alloc, records, ReadFault::ShorthandPayload { at: 7 });
}

/// Files with an event that is not supported.
fn add_unsupported(rt: &impl Abort, alloc: Global, records: &mut Vec<Record>) {
    let name = text_of(alloc, "A\nB").expect(rt, "memory");
    add_unreadable(
        rt,
        alloc,
        records,
        ReadFault::UnsupportedEvent { at: 4, name },
    );
    let name = text_of(alloc, "Side\u{e9}ffect").expect(rt, "memory");
    add_unreadable(
        rt,
        alloc,
        records,
        ReadFault::UnsupportedMarker { at: 5, name },
    );
}

#[test]
fn shows_what_is_unreadable(rt: HostRuntime) {
    let alloc = rt.alloc();
    let mut records = Vec::new(alloc);
    add_no_lists(&rt, alloc, &mut records);
    add_bad_events(&rt, alloc, &mut records);
    add_unsupported(&rt, alloc, &mut records);
    reports(&rt, alloc, records.as_slice(), UNREADABLE);
}

#[test]
fn shows_names(rt: HostRuntime) {
    let alloc = rt.alloc();
    let mut records = Vec::new(alloc);
    for name in &NAMES {
        add(&rt, alloc, &mut records, name, Verdict::OutOfMemory);
    }
    reports(&rt, alloc, records.as_slice(), SHOWN_NAMES);
}

/// A file with a good verdict.
fn add_good(
    rt: &impl Abort,
    alloc: Global,
    records: &mut Vec<Record>,
    name: &str,
    tasks: u64,
    live: bool,
) {
    add(
        rt,
        alloc,
        records,
        name,
        Verdict::Good(ReplayedTasks { tasks, live }),
    );
}

/// Of a name of 256 such characters the first 255 are shown.
fn cuts(rt: &impl Abort, alloc: Global, character: &str, shown: &str) {
    let name = repeated(alloc, character, 256, "").expect(rt, "memory");
    let end = ": ok, 1 tasks, last live\n1 files, 1 ok\n";
    let wanted = repeated(alloc, shown, 255, end).expect(rt, "memory");
    let mut records = Vec::new(alloc);
    add_good(rt, alloc, &mut records, name.as_str(), 1, true);
    reports(rt, alloc, records.as_slice(), wanted.as_str());
}

#[test]
fn cuts_long_names(rt: HostRuntime) {
    cuts(&rt, rt.alloc(), "x", "x");
    cuts(&rt, rt.alloc(), "\u{e9}", "?");
}

/// The report of two good files and one that is not JSON.
const ORDERED: &str = "\
b.json: ok, 2 tasks
a.json: ok, 0 tasks
c.json: unreadable, not JSON
3 files, 2 ok
";

#[test]
fn keeps_the_order(rt: HostRuntime) {
    let alloc = rt.alloc();
    let mut records = Vec::new(alloc);
    reports(&rt, alloc, records.as_slice(), "0 files, 0 ok\n");
    add_good(&rt, alloc, &mut records, "b.json", 2, false);
    add_good(&rt, alloc, &mut records, "a.json", 0, false);
    assert!(rt; status_of(records.as_slice()) == 0);
    let verdict = Verdict::Unreadable(ReadFault::BadJson);
    add(&rt, alloc, &mut records, "c.json", verdict);
    assert!(rt; status_of(records.as_slice()) == 1);
    reports(&rt, alloc, records.as_slice(), ORDERED);
}

#[test]
fn reports_many_files(rt: HostRuntime) {
    let alloc = rt.alloc();
    let mut records = Vec::new(alloc);
    for _ in 0..3000 {
        add_good(&rt, alloc, &mut records, "nap.json", 2, false);
    }
    let line = "nap.json: ok, 2 tasks\n";
    let wanted = repeated(alloc, line, 3000, "3000 files, 3000 ok\n").expect(&rt, "memory");
    reports(&rt, alloc, records.as_slice(), wanted.as_str());
}

/// Files of each verdict but `OutOfMemory`, and names with what JSON escapes.
fn add_each(rt: &impl Abort, alloc: Global, records: &mut Vec<Record>) {
    add_good(rt, alloc, records, "a\"b\\c\n.json", 3, false);
    add_good(rt, alloc, records, "", 0, true);
    add_unreadable(rt, alloc, records, ReadFault::BadJson);
    add_unreadable(rt, alloc, records, ReadFault::MissingField { at: 4 });
    let name = text_of(alloc, "\"\\\u{1}").expect(rt, "memory");
    add_unreadable(
        rt,
        alloc,
        records,
        ReadFault::UnsupportedEvent { at: 6, name },
    );
    add_fault(rt, alloc, records, Fault::NotATask);
    let fault = PlaceFault::NoSuchRef;
    add_fault(rt, alloc, records, Fault::Place { at: 5, fault });
    let fault = WorkflowFault::NotOpen;
    add_fault(rt, alloc, records, Fault::Workflow { at: 7, fault });
    add_no_code(rt, alloc, records);
    add_mismatches(rt, alloc, records);
}

#[test]
fn json_lines(rt: HostRuntime) {
    let alloc = rt.alloc();
    let mut records = Vec::new(alloc);
    add_each(&rt, alloc, &mut records);
    add(&rt, alloc, &mut records, "x.json", Verdict::OutOfMemory);
    let mut out = Vec::new(alloc);
    write_report(records.as_slice(), Format::Json, &mut out).expect(&rt, "written");
    let report = String::from_utf8(out).expect(&rt, "a text");
    same(rt.alloc(), report.as_str(), JSON).expect(&rt, "a report");
}
