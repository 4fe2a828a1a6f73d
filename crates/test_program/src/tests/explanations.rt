//! The explanations of histories, line by line.

use std::alloc::Global;
use std::process::Abort;
use test_support::{Scripted, bytes_of, row, same, with_status};
use wh_console::Format;
use wh_events::EventNo;
use wh_explain_report::{explain_file, line_status};
use wh_sample_workflows::{All, Asker, Nap};
use wh_view_report::Selection;
use wh_workflow::Workflow;

/// Histories without a fault, each with its text below it.
const GOOD: &str = "\
nap
task at 3
  told Time 2024-05-01T10:00:03Z (event 3)
  told Start Nap (event 1)
    gives StartTimer nap (60 s)
  sends StartTimer nap (60 s), recorded 5 TimerStarted nap
task at 8
  told Time 2024-05-01T10:00:08Z (event 8)
  told TimerFired nap (event 6)
    gives Complete
  sends Complete, recorded 10 WorkflowExecutionCompleted
x.json: ok, 2 tasks
status 0

greet
task at 3
  told Time 2024-05-01T10:00:03Z (event 3)
  told Start Greet (event 1)
    gives StartActivity 1 greet
  sends StartActivity 1 greet, recorded 5 ActivityTaskScheduled 1 greet
task at 9
  told Time 2024-05-01T10:00:09Z (event 9)
  told Activity 1 Completed (event 7)
    gives Complete
  sends Complete, recorded 11 WorkflowExecutionCompleted
x.json: ok, 2 tasks
status 0

branch
task at 3
  told Time 2024-05-01T10:00:03Z (event 3)
  told Start Branch (event 1)
    gives Ask chg (-1 to 1)
  told Version chg (version -1)
    gives StartActivity 1 old
  sends StartActivity 1 old, recorded 5 ActivityTaskScheduled 1 old
task at 9
  told Time 2024-05-01T10:00:09Z (event 9)
  told Activity 1 Completed (event 7)
    gives Complete
  sends Complete, recorded 11 WorkflowExecutionCompleted
x.json: ok, 2 tasks
status 0

family
task at 3
  told Time 2024-05-01T10:00:03Z (event 3)
  told Start Family (event 1)
    gives StartChild kid Nap
  sends StartChild kid Nap, recorded 5 StartChildWorkflowExecutionInitiated kid Nap
task at 8
  told Time 2024-05-01T10:00:08Z (event 8)
  told ChildStarted kid (event 6)
task at 12
  told Time 2024-05-01T10:00:12Z (event 12)
  told Child kid Completed (event 10)
    gives Complete
  sends Complete, recorded 14 WorkflowExecutionCompleted
x.json: ok, 3 tasks
status 0

racer
task at 3
  told Time 2024-05-01T10:00:03Z (event 3)
  told Start Racer (event 1)
    gives StartActivity 1 race
    gives StartTimer t (30 s)
  sends StartActivity 1 race, recorded 5 ActivityTaskScheduled 1 race
  sends StartTimer t (30 s), recorded 6 TimerStarted t
task at 9
  told Time 2024-05-01T10:00:09Z (event 9)
  told TimerFired t (event 7)
    gives CancelActivity 1
    gives StartTimer u (5 s)
  sends CancelActivity 1, recorded 11 ActivityTaskCancelRequested 1
  sends StartTimer u (5 s), recorded 13 TimerStarted u
task at 15
  told Time 2024-05-01T10:00:15Z (event 15)
  told Activity 1 Canceled (event 12)
task at 19
  told Time 2024-05-01T10:00:19Z (event 19)
  told TimerFired u (event 17)
    gives Complete
  sends Complete, recorded 21 WorkflowExecutionCompleted
x.json: ok, 4 tasks
status 0

late
task at 3
  told Time 2024-05-01T10:00:03Z (event 3)
  told Start Racer (event 1)
    gives StartActivity 1 race
    gives StartTimer t (30 s)
  sends StartActivity 1 race, recorded 5 ActivityTaskScheduled 1 race
  sends StartTimer t (30 s), recorded 6 TimerStarted t
task at 11
  told Time 2024-05-01T10:00:11Z (event 11)
  told TimerFired t (event 8)
    gives CancelActivity 1
    gives StartTimer u (5 s)
  told Activity 1 Completed (event 9)
  sends StartTimer u (5 s)
  not recorded yet
x.json: ok, 2 tasks, last live
status 0

caller
task at 3
  told Time 2024-05-01T10:00:03Z (event 3)
  told Start Caller (event 1)
    gives SignalExternal other go
  sends SignalExternal other go, recorded 5 SignalExternalWorkflowExecutionInitiated other go
task at 8
  told Time 2024-05-01T10:00:08Z (event 8)
  told SignalSent other go (event 6)
    gives Complete
  sends Complete, recorded 10 WorkflowExecutionCompleted
x.json: ok, 2 tasks
status 0

start:Relay S T C timer:leg timer_fired:5 S T C continued | {'workflowType' -> {'input':{'payloads':[{'data':'AQ=='},{'data':'Ag=='}]},'workflowType'
task at 3
  told Time 2024-05-01T10:00:03Z (event 3)
  told Start Relay (event 1)
    gives StartTimer leg (5 s)
  sends StartTimer leg (5 s), recorded 5 TimerStarted leg
task at 8
  told Time 2024-05-01T10:00:08Z (event 8)
  told TimerFired leg (event 6)
    gives ContinueAsNew Relay
  sends ContinueAsNew Relay, recorded 10 WorkflowExecutionContinuedAsNew
x.json: ok, 2 tasks
status 0

start:Branch S T C chg_marker:MQ== activity:1:new
task at 3
  told Time 2024-05-01T10:00:03Z (event 3)
  told Start Branch (event 1)
    gives Ask chg (-1 to 1)
  told Version chg (version 1)
    gives StartActivity 1 new
  sends Marker chg (version 1), recorded 5 MarkerRecorded chg (version 1)
  sends StartActivity 1 new, recorded 6 ActivityTaskScheduled 1 new
x.json: ok, 1 tasks
status 0

family/6 signal:stop S T C cancel_child:kid child_canceled:5 cancel_sent:11 S T C canceled
task at 3
  told Time 2024-05-01T10:00:03Z (event 3)
  told Start Family (event 1)
    gives StartChild kid Nap
  sends StartChild kid Nap, recorded 5 StartChildWorkflowExecutionInitiated kid Nap
task at 9
  told Time 2024-05-01T10:00:09Z (event 9)
  told Signal stop (event 7)
    gives CancelChild kid
  told ChildStarted kid (event 6)
  sends CancelChild kid, recorded 11 RequestCancelExternalWorkflowExecutionInitiated kid
task at 15
  told Time 2024-05-01T10:00:15Z (event 15)
  told Child kid Canceled (event 12)
    gives Cancel
  told CancelSent kid (event 13)
  sends Cancel, recorded 17 WorkflowExecutionCanceled
x.json: ok, 3 tasks
status 0

nap/3
task at 3
  told Time 2024-05-01T10:00:03Z (event 3)
  told Start Nap (event 1)
    gives StartTimer nap (60 s)
  sends StartTimer nap (60 s)
  not recorded yet
x.json: ok, 1 tasks, last live
status 0

nap/1
x.json: ok, 0 tasks
status 0";

/// No bytes, and histories of the samples with a fault.
const BAD: &str = "
x.json: unreadable, not JSON
status 1

nap | 'timerId':'nap' -> 'timerId':'x'
task at 3
  told Time 2024-05-01T10:00:03Z (event 3)
  told Start Nap (event 1)
    gives StartTimer nap (60 s)
  sends StartTimer nap (60 s), recorded 5 TimerStarted x, differs
x.json: fault, event 5 differs
status 1

greet | 'name':'greet' -> 'name':'greets'
task at 3
  told Time 2024-05-01T10:00:03Z (event 3)
  told Start Greet (event 1)
    gives StartActivity 1 greet
  sends StartActivity 1 greet, recorded 5 ActivityTaskScheduled 1 greets, differs
x.json: fault, event 5 differs
status 1

nap/9 failed
task at 3
  told Time 2024-05-01T10:00:03Z (event 3)
  told Start Nap (event 1)
    gives StartTimer nap (60 s)
  sends StartTimer nap (60 s), recorded 5 TimerStarted nap
task at 8
  told Time 2024-05-01T10:00:08Z (event 8)
  told TimerFired nap (event 6)
    gives Complete
  sends Complete, recorded 10 WorkflowExecutionFailed, differs
x.json: fault, event 10 differs
status 1

nap/5 timer:x
task at 3
  told Time 2024-05-01T10:00:03Z (event 3)
  told Start Nap (event 1)
    gives StartTimer nap (60 s)
  sends StartTimer nap (60 s), recorded 5 TimerStarted nap
  sends nothing, recorded 6 TimerStarted x, differs
x.json: fault, event 6 has no command
status 1

nap/4
task at 3
  told Time 2024-05-01T10:00:03Z (event 3)
  told Start Nap (event 1)
    gives StartTimer nap (60 s)
  sends StartTimer nap (60 s), recorded nothing, differs
x.json: fault, command 1 of the task at 3 has no event
status 1

racer/5
task at 3
  told Time 2024-05-01T10:00:03Z (event 3)
  told Start Racer (event 1)
    gives StartActivity 1 race
    gives StartTimer t (30 s)
  sends StartActivity 1 race, recorded 5 ActivityTaskScheduled 1 race
  sends StartTimer t (30 s), recorded nothing, differs
x.json: fault, command 2 of the task at 3 has no event
status 1

nap | 'timerId':'nap' -> 'timerId':'\u{e9}\\n'
task at 3
  told Time 2024-05-01T10:00:03Z (event 3)
  told Start Nap (event 1)
    gives StartTimer nap (60 s)
  sends StartTimer nap (60 s), recorded 5 TimerStarted ??, differs
x.json: fault, event 5 differs
status 1

start:Nap timer:nap S T
task at 4
  told Time 2024-05-01T10:00:04Z (event 4)
  told Start Nap (event 1)
    gives StartTimer nap (60 s)
  refuses StartTimer nap (60 s)
x.json: fault, task at 4: IdInUse
status 1

start:Greet activity:1:greet activity_completed:2 activity:1:greet activity_completed:4 S T
task at 7
  told Time 2024-05-01T10:00:07Z (event 7)
  told Start Greet (event 1)
    gives StartActivity 1 greet
  told Activity 1 Completed (event 3)
    gives Complete
  told Activity 1 Completed (event 5)
    gives Complete
  refuses Complete
x.json: fault, task at 7: AfterClosing
status 1

greet/5 C activity_cancel:5 cancel_requested S T
task at 3
  told Time 2024-05-01T10:00:03Z (event 3)
  told Start Greet (event 1)
    gives StartActivity 1 greet
  sends StartActivity 1 greet, recorded 5 ActivityTaskScheduled 1 greet
task at 10
  told Time 2024-05-01T10:00:10Z (event 10)
  told CancelRequested (event 8)
    gives CancelActivity 1
  refuses CancelActivity 1
x.json: fault, task at 10: AlreadyCancelling
status 1

start:Racer S T C activity:1:race timer:t C timer_canceled:6 activity_completed:5 S T
task at 3
  told Time 2024-05-01T10:00:03Z (event 3)
  told Start Racer (event 1)
    gives StartActivity 1 race
    gives StartTimer t (30 s)
  sends StartActivity 1 race, recorded 5 ActivityTaskScheduled 1 race
  sends StartTimer t (30 s), recorded 6 TimerStarted t
task at 11
  told Time 2024-05-01T10:00:11Z (event 11)
  told Activity 1 Completed (event 9)
    gives CancelTimer t
  refuses CancelTimer t
x.json: fault, task at 11: NotOpen
status 1

start:Branch S T C chg_marker:Mg== activity:1:new
task at 3
  told Time 2024-05-01T10:00:03Z (event 3)
  told Start Branch (event 1)
    gives Ask chg (-1 to 1)
  refuses Ask chg (-1 to 1)
x.json: fault, task at 3: VersionOutOfRange
status 1

start:Nope S T C
no code for the workflow type Nope
x.json: fault, task at 1: UnknownWorkflow
Nope: 4 events, 1 tasks completed, 0 things
workflow id not recorded, run id not recorded, Task Queue not recorded, no parent
Running
  told WorkflowExecutionStarted Nope (event 1) 2024-05-01T10:00:01Z
task 1: WorkflowTaskCompleted (event 4) 2024-05-01T10:00:04Z
running; no activity, timer, child workflow, request or workflow task is open
status 1

nap/5 timer_fired:3
x.json: fault, event 6 is not in place: WrongKindRef
status 1

nap/3 unknown
x.json: unreadable, event 4 has the unsupported type EVENT_TYPE_SOMETHING_NEW
status 1";

/// Histories of a workflow that gives the commands that signals name.
const SCRIPTED: &str = "\
start:Scripted signal:start_timer signal:cancel_timer signal:start_timer S T
task at 6
  told Time 2024-05-01T10:00:06Z (event 6)
  told Start Scripted (event 1)
  told Signal start_timer (event 2)
    gives StartTimer t (1 s)
  told Signal cancel_timer (event 3)
    gives CancelTimer t
  told Signal start_timer (event 4)
    gives StartTimer t (1 s)
  refuses StartTimer t (1 s)
x.json: fault, task at 6: IdReused
status 1

start:Scripted signal:ask_crossed S T
task at 4
  told Time 2024-05-01T10:00:04Z (event 4)
  told Start Scripted (event 1)
  told Signal ask_crossed (event 2)
    gives Ask chg (2 to 1)
  refuses Ask chg (2 to 1)
x.json: fault, task at 4: BadRange
status 1

start:Scripted signal:ask signal:fail S T
task at 5
  told Time 2024-05-01T10:00:05Z (event 5)
  told Start Scripted (event 1)
  told Signal ask (event 2)
    gives Ask chg (-1 to 1)
  told Version chg (version 1)
  told Signal fail (event 3)
    gives Fail failure
  sends Marker chg (version 1)
  sends Fail failure
  not recorded yet
x.json: ok, 1 tasks, last live
status 0

start:Scripted signal:start_timer S T C timer:t signal:cancel_timer S T C timer_canceled:6 signal:continue S T C continued
task at 4
  told Time 2024-05-01T10:00:04Z (event 4)
  told Start Scripted (event 1)
  told Signal start_timer (event 2)
    gives StartTimer t (1 s)
  sends StartTimer t (1 s), recorded 6 TimerStarted t
task at 9
  told Time 2024-05-01T10:00:09Z (event 9)
  told Signal cancel_timer (event 7)
    gives CancelTimer t
  sends CancelTimer t, recorded 11 TimerCanceled t
task at 14
  told Time 2024-05-01T10:00:14Z (event 14)
  told Signal continue (event 12)
    gives ContinueAsNew Nap
  sends ContinueAsNew Nap, recorded 16 WorkflowExecutionContinuedAsNew
x.json: ok, 3 tasks
status 0";

/// Histories whose tasks are folded, since they are alike, or omitted, since they are not about the
/// timer of the fault.
const FOLDED: &str = "\
nap/5 signal:a7 S T C signal:a30 S T C signal:a S T C signal:b S T C timer_fired:5 S T C completed
task at 3
  told Time 2024-05-01T10:00:03Z (event 3)
  told Start Nap (event 1)
    gives StartTimer nap (60 s)
  sends StartTimer nap (60 s), recorded 5 TimerStarted nap
task at 8
  told Time 2024-05-01T10:00:08Z (event 8)
  told Signal a7 (event 6)
2 more tasks, up to that at 16, are alike but for numbers and times
task at 20
  told Time 2024-05-01T10:00:20Z (event 20)
  told Signal b (event 18)
task at 24
  told Time 2024-05-01T10:00:24Z (event 24)
  told TimerFired nap (event 22)
    gives Complete
  sends Complete, recorded 26 WorkflowExecutionCompleted
x.json: ok, 6 tasks
status 0

nap/5 signal:a S T C signal:a S T C signal:a S T C timer_fired:5 S T C failed
3 tasks are left out: --all shows them, --last N or --around EVENT some of them
task at 3
  told Time 2024-05-01T10:00:03Z (event 3)
  told Start Nap (event 1)
    gives StartTimer nap (60 s)
  sends StartTimer nap (60 s), recorded 5 TimerStarted nap
task at 20
  told Time 2024-05-01T10:00:20Z (event 20)
  told TimerFired nap (event 18)
    gives Complete
  sends Complete, recorded 22 WorkflowExecutionFailed, differs
x.json: fault, event 22 differs
status 1

start:Scripted signal:start_timer S T C timer:t signal:cancel_timer S T C timer_canceled:6 signal:start_timer S T C timer:t signal:cancel_timer S T C timer_canceled:16 signal:start_timer S T C timer:t signal:cancel_timer S T C timer_canceled:26 signal:cancel_timer S T
2 tasks are left out: --all shows them, --last N or --around EVENT some of them
task at 14
  told Time 2024-05-01T10:00:14Z (event 14)
  told Signal start_timer (event 12)
    gives StartTimer t (1 s)
  sends StartTimer t (1 s), recorded 16 TimerStarted t
task at 19
  told Time 2024-05-01T10:00:19Z (event 19)
  told Signal cancel_timer (event 17)
    gives CancelTimer t
  sends CancelTimer t, recorded 21 TimerCanceled t
task at 24
  told Time 2024-05-01T10:00:24Z (event 24)
  told Signal start_timer (event 22)
    gives StartTimer t (1 s)
  sends StartTimer t (1 s), recorded 26 TimerStarted t
task at 29
  told Time 2024-05-01T10:00:29Z (event 29)
  told Signal cancel_timer (event 27)
    gives CancelTimer t
  sends CancelTimer t, recorded 31 TimerCanceled t
task at 34
  told Time 2024-05-01T10:00:34Z (event 34)
  told Signal cancel_timer (event 32)
    gives CancelTimer t
  refuses CancelTimer t
x.json: fault, task at 34: NotOpen
status 1";

/// The last two tasks of `racer`.
const LAST: &str = "\
2 tasks are left out: --all shows them, --last N or --around EVENT some of them
task at 15
  told Time 2024-05-01T10:00:15Z (event 15)
  told Activity 1 Canceled (event 12)
task at 19
  told Time 2024-05-01T10:00:19Z (event 19)
  told TimerFired u (event 17)
    gives Complete
  sends Complete, recorded 21 WorkflowExecutionCompleted
x.json: ok, 4 tasks
status 0";

/// The tasks of a nap with three signals, around the task of the last signal.
const AROUND: &str = "\
1 tasks are left out: --all shows them, --last N or --around EVENT some of them
task at 8
  told Time 2024-05-01T10:00:08Z (event 8)
  told Signal a (event 6)
task at 12
  told Time 2024-05-01T10:00:12Z (event 12)
  told Signal a (event 10)
task at 16
  told Time 2024-05-01T10:00:16Z (event 16)
  told Signal a (event 14)
task at 20
  told Time 2024-05-01T10:00:20Z (event 20)
  told TimerFired nap (event 18)
    gives Complete
  sends Complete, recorded 22 WorkflowExecutionCompleted
x.json: ok, 5 tasks
status 0";

/// That nap.
const SIGNALLED: &str =
    "nap/5 signal:a S T C signal:a S T C signal:a S T C timer_fired:5 S T C completed";

/// Times of a task, and the line that has them.
const TIMES: &str = "\
nap/3 | '2024-05-01T10:00:03Z' -> '2024-02-29T23:59:59Z' =>   told Time 2024-02-29T23:59:59Z (event 3)
nap/3 | '2024-05-01T10:00:03Z' -> '2024-03-01T00:00:00.5Z' =>   told Time 2024-03-01T00:00:00.500Z (event 3)
nap/3 | '2024-05-01T10:00:03Z' -> '2024-12-31T23:59:59.000001Z' =>   told Time 2024-12-31T23:59:59.000001Z (event 3)
nap/3 | '2024-05-01T10:00:03Z' -> '2025-01-01T01:59:59.123456789+02:00' =>   told Time 2024-12-31T23:59:59.123456789Z (event 3)
nap/3 | '2024-05-01T10:00:03Z' -> '1969-12-31T23:59:59.25Z' =>   told Time 1969-12-31T23:59:59.250Z (event 3)
nap/3 | '2024-05-01T10:00:03Z' -> '1900-03-01T00:00:00Z' =>   told Time 1900-03-01T00:00:00Z (event 3)
nap/3 | '2024-05-01T10:00:03Z' -> '0001-01-01T00:00:00Z' =>   told Time 0001-01-01T00:00:00Z (event 3)
nap/3 | '2024-05-01T10:00:03Z' -> '9999-12-30T00:00:00Z' =>   told Time 9999-12-30T00:00:00Z (event 3)
";

/// The explanation of a history, followed by the status: 0 if the history is good, and else 1.
fn explanation<W: Workflow>(
    rt: &impl Abort,
    alloc: Global,
    history: &'static str,
    selection: Option<Selection>,
) -> String {
    let bytes = bytes_of(alloc, history).expect(rt, history);
    let name = String::from_str(alloc, "x.json").expect(rt, "memory");
    let mut out = Vec::new(alloc);
    let line = explain_file::<W, _>(
        alloc,
        name,
        bytes.as_slice(),
        selection,
        Format::Text,
        &mut out,
    );
    let status = line_status(&line.expect(rt, "explained"));
    with_status(out, status).expect(rt, "a text")
}

/// Explains the history that each block begins with, and compares the text with the block's.
pub(crate) fn explains<W: Workflow>(rt: &impl Abort, alloc: Global, blocks: &'static str) {
    for block in blocks.split("\n\n") {
        let (history, wanted) = block.split_once("\n").expect(rt, block);
        let text = explanation::<W>(rt, alloc, history, None);
        same(alloc, text.as_str(), wanted).expect(rt, history);
    }
}

#[test]
fn explains_histories(rt: HostRuntime) {
    explains::<All>(&rt, rt.alloc(), GOOD);
    explains::<All>(&rt, rt.alloc(), BAD);
    explains::<Scripted>(&rt, rt.alloc(), SCRIPTED);
}

#[test]
fn explains_what_matters(rt: HostRuntime) {
    for block in FOLDED.split("\n\n") {
        let (history, wanted) = block.split_once("\n").expect(&rt, block);
        let text = if history.starts_with("start:Scripted") {
            explanation::<Scripted>(&rt, rt.alloc(), history, None)
        } else {
            explanation::<All>(&rt, rt.alloc(), history, None)
        };
        same(rt.alloc(), text.as_str(), wanted).expect(&rt, history);
    }
}

#[test]
fn explains_what_is_selected(rt: HostRuntime) {
    let last = explanation::<All>(&rt, rt.alloc(), "racer", Some(Selection::Last(2)));
    same(rt.alloc(), last.as_str(), LAST).expect(&rt, "the last two");
    let number = EventNo::new(14).expect(&rt, "a number");
    let around = Some(Selection::Around(number));
    let text = explanation::<All>(&rt, rt.alloc(), SIGNALLED, around);
    same(rt.alloc(), text.as_str(), AROUND).expect(&rt, "round the last signal");
    let all = explanation::<All>(&rt, rt.alloc(), SIGNALLED, Some(Selection::All));
    assert!(rt;
        count_lines(all.as_str(), "  told Signal a (event 14)") == 1,
        "{all}"
    );
}

/// How often a text has a line.
fn count_lines(text: &str, wanted: &str) -> u64 {
    let mut count: u64 = 0;
    for line in text.lines() {
        if line == wanted {
            count = count.saturating_add(1);
        }
    }
    count
}

/// Times are written as in RFC 3339.
#[test]
fn tells_times(rt: HostRuntime) {
    for line in TIMES.lines() {
        let (history, wanted) = row(line).expect(&rt, line);
        let text = explanation::<Nap>(&rt, rt.alloc(), history, None);
        assert!(rt; count_lines(text.as_str(), wanted) == 1, "{line}: {text}");
    }
}

/// A workflow that asks for a version at each answer asks 4,097 times.
#[test]
fn explains_endless_questions(rt: HostRuntime) {
    let text = explanation::<Asker>(&rt, rt.alloc(), "start:Asker S T", None);
    let told = count_lines(text.as_str(), "  told Version a (version 1)");
    assert!(rt; told == 4_096);
    let end = "\n  refuses Ask a (-1 to 1)\nx.json: fault, task at 3: TooManyCommands\nstatus 1";
    assert!(rt; text.as_str().ends_with(end));
}
