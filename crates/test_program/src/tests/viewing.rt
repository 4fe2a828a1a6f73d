//! The views of histories, as text.

use std::alloc::Global;
use std::process::Abort;
use test_support::json;
use wh_events::EventNo;
use wh_json::ReadFault;
use wh_view::{View, view_of};
use wh_view_json::write_json_view;
use wh_view_report::{Selection, write_view};

/// Histories in words, each followed by its text.
const HISTORIES: &str = "\
racer
Racer: 21 events, 4 tasks completed, 3 things
workflow id not recorded, run id not recorded, Task Queue not recorded, no parent
Completed (event 21) 2024-05-01T10:00:21Z, after 20 s
  told WorkflowExecutionStarted Racer (event 1) 2024-05-01T10:00:01Z
task 1: WorkflowTaskCompleted (event 4) 2024-05-01T10:00:04Z
  gives ActivityTaskScheduled 1 race (event 5) 2024-05-01T10:00:05Z, to be canceled (event 11), ended (event 12)
  gives TimerStarted t (event 6) 2024-05-01T10:00:06Z, ended (event 7)
  told TimerFired t (event 7) 2024-05-01T10:00:07Z, opened (event 6), took 1.0 s
task 2: WorkflowTaskCompleted (event 10) 2024-05-01T10:00:10Z
  gives ActivityTaskCancelRequested 1 race (event 11) 2024-05-01T10:00:11Z, opened (event 5)
  told ActivityTaskCanceled 1 race (event 12) 2024-05-01T10:00:12Z, opened (event 5), took 7.0 s
  gives TimerStarted u (event 13) 2024-05-01T10:00:13Z, ended (event 17)
task 3: WorkflowTaskCompleted (event 16) 2024-05-01T10:00:16Z
  told TimerFired u (event 17) 2024-05-01T10:00:17Z, opened (event 13), took 4.0 s
task 4: WorkflowTaskCompleted (event 20) 2024-05-01T10:00:20Z
  gives WorkflowExecutionCompleted (event 21) 2024-05-01T10:00:21Z
activity race: 1 times, median 7.0 s, longest 7.0 s (event 5)
timer: 2 times, median 1.0 s, longest 4.0 s (event 13)

late
Racer: 11 events, 1 tasks completed, 2 things
workflow id not recorded, run id not recorded, Task Queue not recorded, no parent
Running
  told WorkflowExecutionStarted Racer (event 1) 2024-05-01T10:00:01Z
task 1: WorkflowTaskCompleted (event 4) 2024-05-01T10:00:04Z
  gives ActivityTaskScheduled 1 race (event 5) 2024-05-01T10:00:05Z, started (event 7), ended (event 9)
  gives TimerStarted t (event 6) 2024-05-01T10:00:06Z, ended (event 8)
  has ActivityTaskStarted 1 race (event 7) 2024-05-01T10:00:07Z, opened (event 5), waited 2.0 s
  told TimerFired t (event 8) 2024-05-01T10:00:08Z, opened (event 6), took 2.0 s
  told ActivityTaskCompleted 1 race (event 9) 2024-05-01T10:00:09Z, opened (event 5), took 2.0 s
running; waits for a workflow task (event 10) since 2024-05-01T10:00:10Z, started (event 11) 2024-05-01T10:00:11Z
activity race: 1 times, median 4.0 s, longest 4.0 s (event 5)
timer: 1 times, median 2.0 s, longest 2.0 s (event 6)

start:X S T C unknown timer_fired:9 marker:LocalActivity child:kid:Nap cancel_child:kid external:other:go
X: 10 events, 1 tasks completed, 4 things
workflow id not recorded, run id not recorded, Task Queue not recorded, no parent
Running
  told WorkflowExecutionStarted X (event 1) 2024-05-01T10:00:01Z
task 1: WorkflowTaskCompleted (event 4) 2024-05-01T10:00:04Z
  has EVENT_TYPE_SOMETHING_NEW (event 5) 2024-05-01T10:00:05Z
  told TimerFired (event 6) 2024-05-01T10:00:06Z, opened by no event
  gives MarkerRecorded LocalActivity (event 7) 2024-05-01T10:00:07Z
  gives StartChildWorkflowExecutionInitiated kid Nap (event 8) 2024-05-01T10:00:08Z, not ended
  gives RequestCancelExternalWorkflowExecutionInitiated kid (event 9) 2024-05-01T10:00:09Z, not ended
  gives SignalExternalWorkflowExecutionInitiated other go (event 10) 2024-05-01T10:00:10Z, not ended
can't be replayed here: EVENT_TYPE_SOMETHING_NEW, 1 events, first (event 5)
can't be replayed here: MarkerRecorded LocalActivity, 1 events, first (event 7)
running; waits for child kid Nap (event 8) since 2024-05-01T10:00:08Z, not started; waits for cancel request to kid (event 9) since 2024-05-01T10:00:09Z; waits for signal request to other go (event 10) since 2024-05-01T10:00:10Z
child Nap: 1 times, 1 open

start:X S T C unknown marker:LocalActivity unknown marker:SideEffect marker:LocalActivity ignored unknown
X: 11 events, 1 tasks completed, 3 things
workflow id not recorded, run id not recorded, Task Queue not recorded, no parent
Running
  told WorkflowExecutionStarted X (event 1) 2024-05-01T10:00:01Z
task 1: WorkflowTaskCompleted (event 4) 2024-05-01T10:00:04Z
  has EVENT_TYPE_SOMETHING_NEW (event 5) 2024-05-01T10:00:05Z
  gives MarkerRecorded LocalActivity (event 6) 2024-05-01T10:00:06Z
  has EVENT_TYPE_SOMETHING_NEW (event 7) 2024-05-01T10:00:07Z
  gives MarkerRecorded SideEffect (event 8) 2024-05-01T10:00:08Z
  gives MarkerRecorded LocalActivity (event 9) 2024-05-01T10:00:09Z
  has EVENT_TYPE_SOMETHING_NEW (event 10) 2024-05-01T10:00:10Z
  has EVENT_TYPE_SOMETHING_NEW (event 11) 2024-05-01T10:00:11Z
can't be replayed here: EVENT_TYPE_SOMETHING_NEW, 3 events, first (event 5)
can't be replayed here: MarkerRecorded LocalActivity, 2 events, first (event 6)
can't be replayed here: MarkerRecorded SideEffect, 1 events, first (event 8)
running; no activity, timer, child workflow, request or workflow task is open";

/// Histories in words, each followed by its text with the tasks folded that repeat others.
const FOLDED: &str = "\
start:X S T C signal:go S T C signal:go7 S T C signal:stop S T C signal:go S T C signal:stop S T C completed
X: 25 events, 6 tasks completed, 5 things
workflow id not recorded, run id not recorded, Task Queue not recorded, no parent
Completed (event 25) 2024-05-01T10:00:25Z, after 24 s
  told WorkflowExecutionStarted X (event 1) 2024-05-01T10:00:01Z
task 1: WorkflowTaskCompleted (event 4) 2024-05-01T10:00:04Z
  told WorkflowExecutionSignaled go (event 5) 2024-05-01T10:00:05Z
task 2: WorkflowTaskCompleted (event 8) 2024-05-01T10:00:08Z
  told WorkflowExecutionSignaled go7 (event 9) 2024-05-01T10:00:09Z
task 3: WorkflowTaskCompleted (event 12) 2024-05-01T10:00:12Z
  told WorkflowExecutionSignaled stop (event 13) 2024-05-01T10:00:13Z
task 4: WorkflowTaskCompleted (event 16) 2024-05-01T10:00:16Z
1 more tasks, up to task 5 (event 20), repeat tasks before them but for ids, numbers, times and values: 4 events, which --all shows
  told WorkflowExecutionSignaled stop (event 21) 2024-05-01T10:00:21Z
task 6: WorkflowTaskCompleted (event 24) 2024-05-01T10:00:24Z
  gives WorkflowExecutionCompleted (event 25) 2024-05-01T10:00:25Z

start:X S T C signal:a S T C signal:b S T C signal:c S T C signal:d S T C signal:a S T C signal:b S T C
X: 28 events, 7 tasks completed, 6 things
workflow id not recorded, run id not recorded, Task Queue not recorded, no parent
Running
  told WorkflowExecutionStarted X (event 1) 2024-05-01T10:00:01Z
task 1: WorkflowTaskCompleted (event 4) 2024-05-01T10:00:04Z
  told WorkflowExecutionSignaled a (event 5) 2024-05-01T10:00:05Z
task 2: WorkflowTaskCompleted (event 8) 2024-05-01T10:00:08Z
  told WorkflowExecutionSignaled b (event 9) 2024-05-01T10:00:09Z
task 3: WorkflowTaskCompleted (event 12) 2024-05-01T10:00:12Z
  told WorkflowExecutionSignaled c (event 13) 2024-05-01T10:00:13Z
task 4: WorkflowTaskCompleted (event 16) 2024-05-01T10:00:16Z
  told WorkflowExecutionSignaled d (event 17) 2024-05-01T10:00:17Z
task 5: WorkflowTaskCompleted (event 20) 2024-05-01T10:00:20Z
2 more tasks, up to task 7 (event 28), repeat tasks before them but for ids, numbers, times and values: 8 events, which --all shows
running; no activity, timer, child workflow, request or workflow task is open

start:X S T C timer:a timer_fired:5 S T C timer:b timer_fired:10 S T C timer:c
X: 15 events, 3 tasks completed, 3 things
workflow id not recorded, run id not recorded, Task Queue not recorded, no parent
Running
  told WorkflowExecutionStarted X (event 1) 2024-05-01T10:00:01Z
task 1: WorkflowTaskCompleted (event 4) 2024-05-01T10:00:04Z
  gives TimerStarted a (event 5) 2024-05-01T10:00:05Z, ended (event 6)
  told TimerFired a (event 6) 2024-05-01T10:00:06Z, opened (event 5), took 1.0 s
task 2: WorkflowTaskCompleted (event 9) 2024-05-01T10:00:09Z
  gives TimerStarted b (event 10) 2024-05-01T10:00:10Z, ended (event 11)
  told TimerFired b (event 11) 2024-05-01T10:00:11Z, opened (event 10), took 1.0 s
task 3: WorkflowTaskCompleted (event 14) 2024-05-01T10:00:14Z
  gives TimerStarted c (event 15) 2024-05-01T10:00:15Z, not ended
running; waits for timer c (event 15) since 2024-05-01T10:00:15Z
timer: 3 times, 1 open, median 1.0 s, longest 1.0 s (event 5)";

/// A history in which kinds of events are not supported.
const UNSUPPORTED: &str = "start:X S T C unknown marker:Side\\\\Effect unknown marker:Local";

/// Its first objects, whichever tasks are selected.
const UNSUPPORTED_JSON: &str = r#"{"events":8,"tasks":1,"things":2,"run":{"status":"Running"}}
{"mark":"not supported","type":"EVENT_TYPE_SOMETHING_NEW","events":2,"place":5}
{"mark":"marker not supported","type":"MarkerRecorded","marker":"Side\\Effect","events":1,"place":6}
{"mark":"marker not supported","type":"MarkerRecorded","marker":"Local","events":1,"place":8}
"#;

/// The last task of `racer`.
const LAST: &str = "\
Racer: 21 events, 4 tasks completed, 3 things
workflow id not recorded, run id not recorded, Task Queue not recorded, no parent
Completed (event 21) 2024-05-01T10:00:21Z, after 20 s
  told TimerFired u (event 17) 2024-05-01T10:00:17Z, opened (event 13), took 4.0 s
task 4: WorkflowTaskCompleted (event 20) 2024-05-01T10:00:20Z
  gives WorkflowExecutionCompleted (event 21) 2024-05-01T10:00:21Z
16 events of other tasks are left out
activity race: 1 times, median 7.0 s, longest 7.0 s (event 5)
timer: 2 times, median 1.0 s, longest 4.0 s (event 13)
";

/// The tasks of `racer` around that of its last event.
const AROUND: &str = "\
Racer: 21 events, 4 tasks completed, 3 things
workflow id not recorded, run id not recorded, Task Queue not recorded, no parent
Completed (event 21) 2024-05-01T10:00:21Z, after 20 s
  told TimerFired t (event 7) 2024-05-01T10:00:07Z, opened (event 6), took 1.0 s
task 2: WorkflowTaskCompleted (event 10) 2024-05-01T10:00:10Z
  gives ActivityTaskCancelRequested 1 race (event 11) 2024-05-01T10:00:11Z, opened (event 5)
  told ActivityTaskCanceled 1 race (event 12) 2024-05-01T10:00:12Z, opened (event 5), took 7.0 s
  gives TimerStarted u (event 13) 2024-05-01T10:00:13Z, ended (event 17)
task 3: WorkflowTaskCompleted (event 16) 2024-05-01T10:00:16Z
  told TimerFired u (event 17) 2024-05-01T10:00:17Z, opened (event 13), took 4.0 s
task 4: WorkflowTaskCompleted (event 20) 2024-05-01T10:00:20Z
  gives WorkflowExecutionCompleted (event 21) 2024-05-01T10:00:21Z
6 events of other tasks are left out
activity race: 1 times, median 7.0 s, longest 7.0 s (event 5)
timer: 2 times, median 1.0 s, longest 4.0 s (event 13)
";

/// A history with values, attempts and failures, and with several faults.
const AMISS: &str = r#"{"events":[
{"eventId":"1","eventTime":"2024-05-01T10:00:01Z","eventType":"EVENT_TYPE_WORKFLOW_EXECUTION_STARTED","workflowExecutionStartedEventAttributes":{"workflowType":{"name":"Pay"},"input":{"payloads":[{"metadata":{"encoding":"anNvbi9wbGFpbg=="},"data":"eyJhIjoxfQ=="},{"data":"/w=="}]}}},
{"eventId":"4","eventType":"EVENT_TYPE_WORKFLOW_TASK_COMPLETED"},
{"eventId":"5","eventTime":"t","eventType":"EVENT_TYPE_TIMER_STARTED","timerStartedEventAttributes":{"timerId":"nap","startToFireTimeout":"60s"}},
{"eventType":"ActivityTaskFailed","activityTaskFailedEventAttributes":{"failure":{"message":"card\nrefused"},"attempt":2}},
{"eventId":6,"eventTime":"2024-05-01T10:00:06Z","eventType":"WorkflowExecutionSignaled","workflowExecutionSignaledEventAttributes":{"signalName":"go","input":[1,"x"]}},
7
]}"#;

/// Its text.
const AMISS_TEXT: &str = r#"Pay: 6 events, 1 tasks completed, 2 things
workflow id not recorded, run id not recorded, Task Queue not recorded, no parent
Running
  told WorkflowExecutionStarted Pay (event 1) 2024-05-01T10:00:01Z
      {"a":1}
      {"data":"/w=="}
task 1: WorkflowTaskCompleted (event 4), out of order
  gives TimerStarted nap (event 5) t, not ended, 1 min, bad time
  told ActivityTaskFailed (place 4), attempt 2, because card?refused, bad number
  told WorkflowExecutionSignaled go (event 6) 2024-05-01T10:00:06Z, shorthand payload
      1
      "x"
  has  (place 6), bad number
running; waits for timer nap (event 5) since t
timer: 1 times, 1 open
"#;

/// The last task of `late` as JSON.
const LATE_JSON: &str = r#"{"events":11,"tasks":1,"things":2,"run":{"status":"Running"}}
{"place":7,"event":7,"task":2,"is":"other","thing":{"kind":"activity","opened":5,"started":7,"ended":9,"waited":2.000,"took":2.000},"recorded":{"activityTaskStartedEventAttributes":{"scheduledEventId":"5"},"eventId":"7","eventTime":"2024-05-01T10:00:07Z","eventType":"ActivityTaskStarted"}}
{"place":8,"event":8,"task":2,"is":"told","thing":{"kind":"timer","opened":6,"ended":8,"took":2.000},"recorded":{"eventId":"8","eventTime":"2024-05-01T10:00:08Z","eventType":"TimerFired","timerFiredEventAttributes":{"startedEventId":"6"}}}
{"place":9,"event":9,"task":2,"is":"told","thing":{"kind":"activity","opened":5,"started":7,"ended":9,"waited":2.000,"took":2.000},"recorded":{"activityTaskCompletedEventAttributes":{"scheduledEventId":"5"},"eventId":"9","eventTime":"2024-05-01T10:00:09Z","eventType":"ActivityTaskCompleted"}}
{"place":10,"event":10,"task":2,"is":"other","recorded":{"eventId":"10","eventTime":"2024-05-01T10:00:10Z","eventType":"WorkflowTaskScheduled"}}
{"place":11,"event":11,"task":2,"is":"other","recorded":{"eventId":"11","eventTime":"2024-05-01T10:00:11Z","eventType":"WorkflowTaskStarted"}}
{"waits":"workflowTask","opened":10,"started":11,"since":"2024-05-01T10:00:10Z"}
{"sum":"activity","type":"race","times":1,"failed":0,"open":0,"median":4.000,"longest":4.000,"longestOpened":5}
{"sum":"timer","times":1,"failed":0,"open":0,"median":2.000,"longest":2.000,"longestOpened":6}
"#;

/// An event up to the name of its signal.
const LONG: &str =
    r#"[{"eventId":7,"eventTime":"2024-05-01T10:00:07Z","eventType":"WorkflowExecutionSignaled","workflowExecutionSignaledEventAttributes":{"signalName":""#;

/// Its text.
const LONG_TEXT: &str = "\
: 1 events, 0 tasks completed, 1 things
workflow id not recorded, run id not recorded, Task Queue not recorded, no parent
Running
  told WorkflowExecutionSignaled aaaaaaaaaaaaaaaaaaaaaaaaaaaaaaaaaaaaaaaaaaaaaaaaaaaaaaaaaaaaaaaaaaaaaaaaaaaaaaaa.. (70000 characters) (event 7) 2024-05-01T10:00:07Z
running; no activity, timer, child workflow, request or workflow task is open
";

/// The text of a view.
fn text_of(rt: &impl Abort, alloc: Global, view: &View, selection: Option<Selection>) -> String {
    let mut out = Vec::new(alloc);
    write_view(view, selection, &mut out).expect(rt, "written");
    String::from_utf8(out).ok().expect(rt, "a text")
}

/// The view of a history in words.
fn view(rt: &impl Abort, alloc: Global, history: &'static str) -> View {
    let text = json(alloc, history).expect(rt, history);
    view_of(alloc, text.as_bytes()).expect(rt, history)
}

#[test]
fn views_histories(rt: HostRuntime) {
    for block in HISTORIES.split("\n\n") {
        let (history, wanted) = block.split_once("\n").expect(&rt, block);
        let text = text_of(
            &rt,
            rt.alloc(),
            &view(&rt, rt.alloc(), history),
            Some(Selection::All),
        );
        assert!(rt; text.as_str().trim_end() == wanted, "{text}");
    }
}

#[test]
fn folds_tasks(rt: HostRuntime) {
    for block in FOLDED.split("\n\n") {
        let (history, wanted) = block.split_once("\n").expect(&rt, block);
        let text = text_of(&rt, rt.alloc(), &view(&rt, rt.alloc(), history), None);
        assert!(rt; text.as_str().trim_end() == wanted, "{text}");
    }
}

#[test]
fn views_some_tasks(rt: HostRuntime) {
    let racer = view(&rt, rt.alloc(), "racer");
    let last = text_of(&rt, rt.alloc(), &racer, Some(Selection::Last(1)));
    assert!(rt; last.as_str() == LAST, "{last}");
    let number = EventNo::new(21).expect(&rt, "a number");
    let around = text_of(&rt, rt.alloc(), &racer, Some(Selection::Around(number)));
    assert!(rt; around.as_str() == AROUND, "{around}");
}

#[test]
fn views_what_is_amiss(rt: HostRuntime) {
    let view = view_of(rt.alloc(), AMISS.as_bytes()).expect(&rt, "a view");
    let text = text_of(&rt, rt.alloc(), &view, Some(Selection::All));
    assert!(rt; text.as_str() == AMISS_TEXT, "{text}");
}

/// A text that is not a history has no view.
#[test]
fn views_no_other_text(rt: HostRuntime) {
    for text in ["", "{", "nap", "[1", "\"\\ud800\""] {
        let view = view_of(rt.alloc(), text.as_bytes());
        assert!(rt; matches!(&view, Err(ReadFault::BadJson)), "{text}");
    }
    for text in ["{}", "[]", "7", "{\"events\":{}}", "{\"events\":[]}"] {
        let view = view_of(rt.alloc(), text.as_bytes());
        assert!(rt; matches!(&view, Err(ReadFault::NoEvents)), "{text}");
    }
}

/// The objects of the last tasks, with the last completed one omitted.
#[test]
fn views_as_json(rt: HostRuntime) {
    let late = view(&rt, rt.alloc(), "late");
    let mut out = Vec::new(rt.alloc());
    write_json_view(&late, Selection::Last(1), &mut out).expect(&rt, "written");
    let text = String::from_utf8(out).ok().expect(&rt, "a text");
    let (counts, objects) = text.as_str().split_once("\n").expect(&rt, "lines");
    let (wanted_counts, wanted) = LATE_JSON.split_once("\n").expect(&rt, "lines");
    assert!(rt; counts == wanted_counts, "{counts}");
    assert!(rt; objects.ends_with(wanted), "{objects}");
}

/// What is not supported is listed before the tasks that are selected.
#[test]
fn views_what_is_not_supported_as_json(rt: HostRuntime) {
    let view = view(&rt, rt.alloc(), UNSUPPORTED);
    let mut out = Vec::new(rt.alloc());
    write_json_view(&view, Selection::Last(1), &mut out).expect(&rt, "written");
    let text = String::from_utf8(out).ok().expect(&rt, "a text");
    assert!(rt; text.as_str().starts_with(UNSUPPORTED_JSON), "{text}");
}

/// A signal with a name of 70,000 letters.
#[test]
fn cuts_long_names(rt: HostRuntime) {
    let mut json = String::from_str(rt.alloc(), LONG).expect(&rt, "memory");
    json.push_str(
        "a".repeat(rt.alloc(), 70_000)
            .expect(&rt, "memory")
            .as_str(),
    )
    .expect(&rt, "memory");
    json.push_str("\"}}]").expect(&rt, "memory");
    let view = view_of(rt.alloc(), json.as_bytes()).expect(&rt, "a view");
    let text = text_of(&rt, rt.alloc(), &view, Some(Selection::All));
    assert!(rt; text.as_str() == LONG_TEXT, "{text}");
}
