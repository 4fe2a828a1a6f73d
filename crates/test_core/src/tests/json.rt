//! How texts are read.

use std::alloc::Global;
use std::process::Abort;
use test_support::{push, repeated, row, same, shown, wants};
use wh_json::read_events;

/// A timer's history, as the Temporal CLI exports it.
const NAP: &str = r#"{"events":[
{"eventId":"1","eventTime":"2024-05-01T10:00:01Z","eventType":"EVENT_TYPE_WORKFLOW_EXECUTION_STARTED","workflowExecutionStartedEventAttributes":{"workflowType":{"name":"Nap"}}},
{"eventId":"2","eventTime":"2024-05-01T10:00:02Z","eventType":"EVENT_TYPE_WORKFLOW_TASK_SCHEDULED"},
{"eventId":"3","eventTime":"2024-05-01T10:00:03Z","eventType":"EVENT_TYPE_WORKFLOW_TASK_STARTED"},
{"eventId":"4","eventTime":"2024-05-01T10:00:04Z","eventType":"EVENT_TYPE_WORKFLOW_TASK_COMPLETED"},
{"eventId":"5","eventTime":"2024-05-01T10:00:05Z","eventType":"EVENT_TYPE_TIMER_STARTED","timerStartedEventAttributes":{"timerId":"nap"}},
{"eventId":"6","eventTime":"2024-05-01T10:00:06Z","eventType":"EVENT_TYPE_TIMER_FIRED","timerFiredEventAttributes":{"timerId":"nap","startedEventId":"5"}},
{"eventId":"7","eventTime":"2024-05-01T10:00:07Z","eventType":"EVENT_TYPE_WORKFLOW_TASK_SCHEDULED"},
{"eventId":"8","eventTime":"2024-05-01T10:00:08Z","eventType":"EVENT_TYPE_WORKFLOW_TASK_STARTED"},
{"eventId":"9","eventTime":"2024-05-01T10:00:09Z","eventType":"EVENT_TYPE_WORKFLOW_TASK_COMPLETED"},
{"eventId":"10","eventTime":"2024-05-01T10:00:10Z","eventType":"EVENT_TYPE_WORKFLOW_EXECUTION_COMPLETED"}
]}"#;

/// The same history as a bare list, with plain names and whole numbers.
const PLAIN_NAP: &str = r#"[
{"eventId":1,"eventTime":"2024-05-01T10:00:01Z","eventType":"WorkflowExecutionStarted","workflowExecutionStartedEventAttributes":{"workflowType":{"name":"Nap"}}},
{"eventId":2,"eventTime":"2024-05-01T10:00:02Z","eventType":"WorkflowTaskScheduled"},
{"eventId":3,"eventTime":"2024-05-01T10:00:03Z","eventType":"WorkflowTaskStarted"},
{"eventId":4,"eventTime":"2024-05-01T10:00:04Z","eventType":"WorkflowTaskCompleted"},
{"eventId":5,"eventTime":"2024-05-01T10:00:05Z","eventType":"TimerStarted","timerStartedEventAttributes":{"timerId":"nap"}},
{"eventId":6,"eventTime":"2024-05-01T10:00:06Z","eventType":"TimerFired","timerFiredEventAttributes":{"timerId":"nap","startedEventId":5}},
{"eventId":7,"eventTime":"2024-05-01T10:00:07Z","eventType":"WorkflowTaskScheduled"},
{"eventId":8,"eventTime":"2024-05-01T10:00:08Z","eventType":"WorkflowTaskStarted"},
{"eventId":9,"eventTime":"2024-05-01T10:00:09Z","eventType":"WorkflowTaskCompleted"},
{"eventId":10,"eventTime":"2024-05-01T10:00:10Z","eventType":"WorkflowExecutionCompleted"}
]"#;

/// One event, with `@` for its number.
const NUMBERED: &str =
    r#"[{"eventId":@,"eventTime":"2024-05-01T10:00:01Z","eventType":"WorkflowTaskStarted"}]"#;

/// One event, with `@` for its time.
const TIMED: &str = r#"[{"eventId":1,"eventTime":@,"eventType":"WorkflowTaskStarted"}]"#;

/// One event, with `@` for its type.
const TYPED: &str = r#"[{"eventId":1,"eventTime":"2024-05-01T10:00:01Z","eventType":@}]"#;

/// A timer that fired, with `@` for its reference.
const FIRED: &str =
    r#"[{"eventId":1,"eventTime":"2024-05-01T10:00:01Z","eventType":"TimerFired","timerFiredEventAttributes":{"startedEventId":@}}]"#;

/// A timer that was started, with `@` for its id.
const STARTED: &str =
    r#"[{"eventId":1,"eventTime":"2024-05-01T10:00:01Z","eventType":"TimerStarted","timerStartedEventAttributes":{"timerId":@}}]"#;

/// An activity that completed, with `@` for its result.
const COMPLETED: &str =
    r#"[{"eventId":1,"eventTime":"2024-05-01T10:00:01Z","eventType":"ActivityTaskCompleted","activityTaskCompletedEventAttributes":{"result":@}}]"#;

/// A version marker, with `@` for the data of its version.
const VERSIONED: &str =
    r#"[{"eventId":1,"eventTime":"2024-05-01T10:00:01Z","eventType":"MarkerRecorded","markerRecordedEventAttributes":{"markerName":"Version","details":{"change-id":{"payloads":[{"metadata":{"encoding":"anNvbi9wbGFpbg=="},"data":"ImNoZyI="}]},"version":{"payloads":[{"metadata":{"encoding":"anNvbi9wbGFpbg=="},"data":@}]}}}}]"#;

/// Two events, with `@` for the second one's number.
const FOLLOWED: &str =
    r#"[{"eventId":1,"eventTime":"2024-05-01T10:00:01Z","eventType":"WorkflowTaskStarted"},{"eventId":@,"eventTime":"2024-05-01T10:00:02Z","eventType":"WorkflowTaskCompleted"}]"#;

/// A signal, with `@` for the data of its payload.
const SIGNALED: &str =
    r#"[{"eventId":1,"eventTime":"2024-05-01T10:00:01Z","eventType":"WorkflowExecutionSignaled","workflowExecutionSignaledEventAttributes":{"signalName":"s","input":{"payloads":[{"data":@}]}}}]"#;

/// A marker, with `@` for its attributes.
const MARKED: &str =
    r#"[{"eventId":1,"eventTime":"2024-05-01T10:00:01Z","eventType":"MarkerRecorded","markerRecordedEventAttributes":@}]"#;

/// One event, with `@` for its type and `%` for its attributes.
const ONE: &str = r#"[{"eventId":4,"eventTime":"2024-05-01T12:00:03.5+02:00","eventType":"@"%}]"#;

/// How it is read, with `@` for its content.
const ONE_READ: &str = "Ok([Event number: 4, time: 1714557603500000000, body: @])";

/// Texts as a whole, the empty one first.
const TEXTS: &str = r#" => BadJson
{"events":[]} => NoEvents
[] => NoEvents
{} => NoEvents
{"events":null} => NoEvents
{"events":{}} => NoEvents
5 => NoEvents
null => NoEvents
"text" => NoEvents
[{}] => BadNumber at: 1
[null] => BadNumber at: 1
[[]] => BadNumber at: 1
{"history":[{}]} => NoEvents
{"events":[],"events":[5]} => BadNumber at: 1
[{} => BadJson
[{}]] => BadJson
[{},] => BadJson
[{"x":1e999}] => BadJson
[{"x":1e308}] => BadNumber at: 1
["\ud800"] => BadJson
["\ud83d\ude00"] => BadNumber at: 1
['x'] => BadJson
01 => BadJson
NaN => BadJson
"#;

/// Numbers of events.
const NUMBERS: &str = r#""1" => 1 events
"9223372036854775807" => 1 events
"9223372036854775808" => BadNumber at: 1
0 => BadNumber at: 1
"+1" => BadNumber at: 1
" 1" => BadNumber at: 1
1.0 => BadNumber at: 1
-1 => BadNumber at: 1
"#;

/// Times of events.
const TIMES: &str = r#""2024-05-01T12:00:02.5+02:00" => 1 events
1714557602 => MissingField at: 1
null => MissingField at: 1
"yesterday" => BadTime at: 1
"2024-05-01" => BadTime at: 1
"2024-05-01T10:00:02" => BadTime at: 1
"2024-02-30T10:00:02Z" => BadTime at: 1
"#;

/// Types of events.
const TYPES: &str = r#""New" => UnsupportedEvent at: 1, name: New
"New","workerMayIgnore":true => 1 events
"New","workerMayIgnore":1 => UnsupportedEvent at: 1, name: New
"EVENT_TYPE_TimerStarted" => UnsupportedEvent at: 1, name: EVENT_TYPE_TimerStarted
"timerStarted" => UnsupportedEvent at: 1, name: timerStarted
5 => UnsupportedEvent at: 1, name: 
5,"workerMayIgnore":true => 1 events
"TimerStarted","workerMayIgnore":true => MissingField at: 1
"#;

/// References to events.
const REFERENCES: &str = r#""7" => 1 events
null => 1 events
"0" => 1 events
9223372036854775807 => 1 events
"9223372036854775808" => BadNumber at: 1
"-1" => BadNumber at: 1
1.5 => BadNumber at: 1
"" => BadNumber at: 1
"#;

/// Ids of timers.
const IDS: &str = r#"" " => 1 events
"" => MissingField at: 1
5 => MissingField at: 1
null => MissingField at: 1
"#;

/// Payloads of results.
const RESULTS: &str = r#"null => 1 events
{"payloads":[{}]} => 1 events
[] => ShorthandPayload at: 1
5 => BadPayload at: 1
{"payloads":{}} => BadPayload at: 1
{"payloads":[null]} => BadPayload at: 1
{"payloads":[{"metadata":{"encoding":5}}]} => BadPayload at: 1
{"payloads":[{"data":"MR=="}]} => BadPayload at: 1
"#;

/// Data of versions.
const VERSIONS: &str = r#""IDEg" => 1 events
"LTE=" => 1 events
"MjE0NzQ4MzY0Nw==" => 1 events
"MjE0NzQ4MzY0OA==" => UnsupportedMarker at: 1, name: Version
"MS4w" => UnsupportedMarker at: 1, name: Version
"IjEi" => UnsupportedMarker at: 1, name: Version
"" => UnsupportedMarker at: 1, name: Version
"M Q=" => BadPayload at: 1
"#;

/// Numbers of events after event 1.
const FOLLOWERS: &str = r#"2 => 2 events
"1" => OutOfOrder at: 2
3 => OutOfOrder at: 2
"x" => BadNumber at: 2
"#;

/// Data of payloads.
const DATA: &str = r#""MQ==" => 1 events
null => 1 events
"MQ=" => BadPayload at: 1
"MQ" => BadPayload at: 1
"MR==" => BadPayload at: 1
"M Q=" => BadPayload at: 1
"_-8=" => BadPayload at: 1
"MQ==\n" => BadPayload at: 1
"#;

/// Attributes of markers.
const MARKERS: &str = r#"{"markerName":"SideEffect"} => UnsupportedMarker at: 1, name: SideEffect
{"markerName":"Other","details":[{"payloads":5}]} => UnsupportedMarker at: 1, name: Other
{} => UnsupportedMarker at: 1, name: 
{"markerName":["Version"]} => UnsupportedMarker at: 1, name: 
{"markerName":"Version","details":{}} => UnsupportedMarker at: 1, name: Version
{"markerName":"Version","details":{"change-id":["chg"]}} => ShorthandPayload at: 1
{"markerName":"Version","details":{"change-id":["chg"],"version":{"payloads":[{"data":"?"}]}}} => BadPayload at: 1
"#;

/// Types of events in both spellings, the attributes after them, and how the event is read. First
/// the start and the events of tasks.
const TASK_KINDS: &str =
    r#"WorkflowExecutionStarted EVENT_TYPE_WORKFLOW_EXECUTION_STARTED ,"workflowExecutionStartedEventAttributes":{"workflowType":{"name":"w"},"input":{"payloads":[{"metadata":{"encoding":"YQ=="},"data":"Yg=="}]}} => WorkflowExecutionStarted workflow: w, input: [Payload encoding: [97], content: [98]]
WorkflowTaskScheduled EVENT_TYPE_WORKFLOW_TASK_SCHEDULED  => WorkflowTaskScheduled
WorkflowTaskStarted EVENT_TYPE_WORKFLOW_TASK_STARTED  => WorkflowTaskStarted
WorkflowTaskCompleted EVENT_TYPE_WORKFLOW_TASK_COMPLETED  => WorkflowTaskCompleted
WorkflowTaskFailed EVENT_TYPE_WORKFLOW_TASK_FAILED  => WorkflowTaskFailed
WorkflowTaskTimedOut EVENT_TYPE_WORKFLOW_TASK_TIMED_OUT  => WorkflowTaskTimedOut
"#;

/// Types of events that commands give, closing ones too.
const COMMANDED_KINDS: &str =
    r#"ActivityTaskScheduled EVENT_TYPE_ACTIVITY_TASK_SCHEDULED ,"activityTaskScheduledEventAttributes":{"activityId":"i","activityType":{"name":"a"}} => ActivityTaskScheduled id: i, activity: a
ActivityTaskCancelRequested EVENT_TYPE_ACTIVITY_TASK_CANCEL_REQUESTED ,"activityTaskCancelRequestedEventAttributes":{"scheduledEventId":"3"} => ActivityTaskCancelRequested scheduled: 3
TimerStarted EVENT_TYPE_TIMER_STARTED ,"timerStartedEventAttributes":{"timerId":"i"} => TimerStarted id: i
TimerCanceled EVENT_TYPE_TIMER_CANCELED ,"timerCanceledEventAttributes":{"startedEventId":"3"} => TimerCanceled started: 3
StartChildWorkflowExecutionInitiated EVENT_TYPE_START_CHILD_WORKFLOW_EXECUTION_INITIATED ,"startChildWorkflowExecutionInitiatedEventAttributes":{"workflowId":"i","workflowType":{"name":"w"}} => StartChildWorkflowExecutionInitiated workflow_id: i, workflow: w
RequestCancelExternalWorkflowExecutionInitiated EVENT_TYPE_REQUEST_CANCEL_EXTERNAL_WORKFLOW_EXECUTION_INITIATED ,"requestCancelExternalWorkflowExecutionInitiatedEventAttributes":{"workflowExecution":{"workflowId":"i"}} => RequestCancelExternalWorkflowExecutionInitiated workflow_id: i
SignalExternalWorkflowExecutionInitiated EVENT_TYPE_SIGNAL_EXTERNAL_WORKFLOW_EXECUTION_INITIATED ,"signalExternalWorkflowExecutionInitiatedEventAttributes":{"workflowExecution":{"workflowId":"i"},"signalName":"s"} => SignalExternalWorkflowExecutionInitiated workflow_id: i, signal: s
MarkerRecorded EVENT_TYPE_MARKER_RECORDED ,"markerRecordedEventAttributes":{"markerName":"Version","details":{"change-id":{"payloads":[{"metadata":{"encoding":"anNvbi9wbGFpbg=="},"data":"ImNoZyI="}]},"version":{"payloads":[{"metadata":{"encoding":"anNvbi9wbGFpbg=="},"data":"MQ=="}]}}} => MarkerRecorded change_id: chg, version: 1
WorkflowExecutionCompleted EVENT_TYPE_WORKFLOW_EXECUTION_COMPLETED  => WorkflowExecutionCompleted
WorkflowExecutionFailed EVENT_TYPE_WORKFLOW_EXECUTION_FAILED  => WorkflowExecutionFailed
WorkflowExecutionCanceled EVENT_TYPE_WORKFLOW_EXECUTION_CANCELED  => WorkflowExecutionCanceled
WorkflowExecutionContinuedAsNew EVENT_TYPE_WORKFLOW_EXECUTION_CONTINUED_AS_NEW  => WorkflowExecutionContinuedAsNew
"#;

/// Types of events that come from outside.
const OUTSIDE_KINDS: &str =
    r#"ActivityTaskStarted EVENT_TYPE_ACTIVITY_TASK_STARTED ,"activityTaskStartedEventAttributes":{"scheduledEventId":"3"} => ActivityTaskStarted scheduled: 3
ActivityTaskCompleted EVENT_TYPE_ACTIVITY_TASK_COMPLETED ,"activityTaskCompletedEventAttributes":{"scheduledEventId":"3","result":{"payloads":[{"metadata":{"encoding":"YQ=="},"data":"Yg=="}]}} => ActivityTaskCompleted scheduled: 3, result: [Payload encoding: [97], content: [98]]
ActivityTaskFailed EVENT_TYPE_ACTIVITY_TASK_FAILED ,"activityTaskFailedEventAttributes":{"scheduledEventId":"3"} => ActivityTaskFailed scheduled: 3
ActivityTaskTimedOut EVENT_TYPE_ACTIVITY_TASK_TIMED_OUT ,"activityTaskTimedOutEventAttributes":{"scheduledEventId":"3"} => ActivityTaskTimedOut scheduled: 3
ActivityTaskCanceled EVENT_TYPE_ACTIVITY_TASK_CANCELED ,"activityTaskCanceledEventAttributes":{"scheduledEventId":"3"} => ActivityTaskCanceled scheduled: 3
TimerFired EVENT_TYPE_TIMER_FIRED ,"timerFiredEventAttributes":{"startedEventId":"3"} => TimerFired started: 3
ChildWorkflowExecutionStarted EVENT_TYPE_CHILD_WORKFLOW_EXECUTION_STARTED ,"childWorkflowExecutionStartedEventAttributes":{"initiatedEventId":"3"} => ChildWorkflowExecutionStarted initiated: 3
ChildWorkflowExecutionCompleted EVENT_TYPE_CHILD_WORKFLOW_EXECUTION_COMPLETED ,"childWorkflowExecutionCompletedEventAttributes":{"initiatedEventId":"3","result":{"payloads":[{"metadata":{"encoding":"YQ=="},"data":"Yg=="}]}} => ChildWorkflowExecutionCompleted initiated: 3, result: [Payload encoding: [97], content: [98]]
ChildWorkflowExecutionFailed EVENT_TYPE_CHILD_WORKFLOW_EXECUTION_FAILED ,"childWorkflowExecutionFailedEventAttributes":{"initiatedEventId":"3"} => ChildWorkflowExecutionFailed initiated: 3
ChildWorkflowExecutionCanceled EVENT_TYPE_CHILD_WORKFLOW_EXECUTION_CANCELED ,"childWorkflowExecutionCanceledEventAttributes":{"initiatedEventId":"3"} => ChildWorkflowExecutionCanceled initiated: 3
ChildWorkflowExecutionTimedOut EVENT_TYPE_CHILD_WORKFLOW_EXECUTION_TIMED_OUT ,"childWorkflowExecutionTimedOutEventAttributes":{"initiatedEventId":"3"} => ChildWorkflowExecutionTimedOut initiated: 3
ChildWorkflowExecutionTerminated EVENT_TYPE_CHILD_WORKFLOW_EXECUTION_TERMINATED ,"childWorkflowExecutionTerminatedEventAttributes":{"initiatedEventId":"3"} => ChildWorkflowExecutionTerminated initiated: 3
StartChildWorkflowExecutionFailed EVENT_TYPE_START_CHILD_WORKFLOW_EXECUTION_FAILED ,"startChildWorkflowExecutionFailedEventAttributes":{"initiatedEventId":"3"} => StartChildWorkflowExecutionFailed initiated: 3
ExternalWorkflowExecutionCancelRequested EVENT_TYPE_EXTERNAL_WORKFLOW_EXECUTION_CANCEL_REQUESTED ,"externalWorkflowExecutionCancelRequestedEventAttributes":{"initiatedEventId":"3"} => ExternalWorkflowExecutionCancelRequested initiated: 3
RequestCancelExternalWorkflowExecutionFailed EVENT_TYPE_REQUEST_CANCEL_EXTERNAL_WORKFLOW_EXECUTION_FAILED ,"requestCancelExternalWorkflowExecutionFailedEventAttributes":{"initiatedEventId":"3"} => RequestCancelExternalWorkflowExecutionFailed initiated: 3
ExternalWorkflowExecutionSignaled EVENT_TYPE_EXTERNAL_WORKFLOW_EXECUTION_SIGNALED ,"externalWorkflowExecutionSignaledEventAttributes":{"initiatedEventId":"3"} => ExternalWorkflowExecutionSignaled initiated: 3
SignalExternalWorkflowExecutionFailed EVENT_TYPE_SIGNAL_EXTERNAL_WORKFLOW_EXECUTION_FAILED ,"signalExternalWorkflowExecutionFailedEventAttributes":{"initiatedEventId":"3"} => SignalExternalWorkflowExecutionFailed initiated: 3
WorkflowExecutionSignaled EVENT_TYPE_WORKFLOW_EXECUTION_SIGNALED ,"workflowExecutionSignaledEventAttributes":{"signalName":"s","input":{"payloads":[{"metadata":{"encoding":"YQ=="},"data":"Yg=="}]}} => WorkflowExecutionSignaled name: s, input: [Payload encoding: [97], content: [98]]
WorkflowExecutionCancelRequested EVENT_TYPE_WORKFLOW_EXECUTION_CANCEL_REQUESTED  => WorkflowExecutionCancelRequested
"#;

/// Types of events that close a run from outside, and inert ones.
const OTHER_KINDS: &str =
    r#"WorkflowExecutionTimedOut EVENT_TYPE_WORKFLOW_EXECUTION_TIMED_OUT  => WorkflowExecutionTimedOut
WorkflowExecutionTerminated EVENT_TYPE_WORKFLOW_EXECUTION_TERMINATED  => WorkflowExecutionTerminated
UpsertWorkflowSearchAttributes EVENT_TYPE_UPSERT_WORKFLOW_SEARCH_ATTRIBUTES  => Inert
WorkflowPropertiesModified EVENT_TYPE_WORKFLOW_PROPERTIES_MODIFIED  => Inert
"#;

/// A form with these texts instead of `@` and `%`.
fn filled(rt: &impl Abort, alloc: Global, form: &str, first: &str, second: &str) -> String {
    let text = form.replace(alloc, "@", first).expect(rt, "memory");
    text.as_str()
        .replace(alloc, "%", second)
        .expect(rt, "memory")
}

/// The number of events, or the fault.
fn answer(rt: &impl Abort, alloc: Global, bytes: &[u8]) -> String {
    match read_events(alloc, bytes) {
        Ok(events) => format!(in alloc; "{} events", events.len()).expect(rt, "memory"),
        Err(fault) => shown(alloc, &fault).expect(rt, "memory"),
    }
}

/// The answer to the bytes is as expected.
fn answers(rt: &impl Abort, alloc: Global, bytes: &[u8], wanted: &str) {
    let answer = answer(rt, alloc, bytes);
    same(alloc, answer.as_str(), wanted).expect(rt, wanted);
}

/// Puts the text of each line into a form, and compares the answers.
fn answers_each(rt: &impl Abort, alloc: Global, form: &str, lines: &'static str) {
    for line in lines.lines() {
        let (given, wanted) = row(line).expect(rt, line);
        let text = filled(rt, alloc, form, given, "%");
        let answer = answer(rt, alloc, text.as_bytes());
        same(alloc, answer.as_str(), wanted).expect(rt, line);
    }
}

#[test]
fn answers_texts(rt: HostRuntime) {
    let alloc = rt.alloc();
    answers_each(&rt, alloc, "@", TEXTS);
    answers_each(&rt, alloc, NUMBERED, NUMBERS);
    answers_each(&rt, alloc, TIMED, TIMES);
    answers_each(&rt, alloc, TYPED, TYPES);
    answers_each(&rt, alloc, FIRED, REFERENCES);
    answers_each(&rt, alloc, STARTED, IDS);
    answers_each(&rt, alloc, COMPLETED, RESULTS);
    answers_each(&rt, alloc, VERSIONED, VERSIONS);
    answers_each(&rt, alloc, FOLLOWED, FOLLOWERS);
    answers_each(&rt, alloc, SIGNALED, DATA);
    answers_each(&rt, alloc, MARKED, MARKERS);
}

#[test]
fn answers_blanks_and_marks(rt: HostRuntime) {
    let alloc = rt.alloc();
    answers(&rt, alloc, "\u{feff}[]".as_bytes(), "BadJson");
    answers(&rt, alloc, " \n\t[ {} ]\r\n ".as_bytes(), "BadNumber at: 1");
    answers(&rt, alloc, "[\"a\tb\"]".as_bytes(), "BadJson");
}

/// Reads an event of the type of a name, with its attributes after it.
fn reads_kind(rt: &impl Abort, alloc: Global, name: &str, attributes: &str, body: &str) {
    let text = filled(rt, alloc, ONE, name, attributes);
    let wanted = filled(rt, alloc, ONE_READ, body, "%");
    let events = read_events(alloc, text.as_bytes());
    wants(alloc, events, wanted.as_str()).expect(rt, name);
}

/// Reads an event of each type, under both of its names.
fn reads_kinds(rt: &impl Abort, alloc: Global, lines: &'static str) {
    for line in lines.lines() {
        let (given, body) = row(line).expect(rt, line);
        let (name, rest) = given.split_once(' ').expect(rt, line);
        let (spelled, attributes) = rest.split_once(' ').expect(rt, line);
        reads_kind(rt, alloc, name, attributes, body);
        reads_kind(rt, alloc, spelled, attributes, body);
    }
}

#[test]
fn reads_each_kind(rt: HostRuntime) {
    let alloc = rt.alloc();
    reads_kinds(&rt, alloc, TASK_KINDS);
    reads_kinds(&rt, alloc, COMMANDED_KINDS);
    reads_kinds(&rt, alloc, OUTSIDE_KINDS);
    reads_kinds(&rt, alloc, OTHER_KINDS);
}

/// Both texts are read as the same ten events.
fn reads_alike(rt: &impl Abort, alloc: Global, first: &str, second: &str) {
    answers(rt, alloc, first.as_bytes(), "10 events");
    let events = read_events(alloc, first.as_bytes());
    let wanted = shown(alloc, &events).expect(rt, "memory");
    let others = read_events(alloc, second.as_bytes());
    wants(alloc, others, wanted.as_str()).expect(rt, "a nap");
}

#[test]
fn reads_both_forms_alike(rt: HostRuntime) {
    reads_alike(&rt, rt.alloc(), NAP, PLAIN_NAP);
}

/// A text without its last bytes is not JSON, however many are missing.
fn refuses_fronts(rt: &impl Abort, alloc: Global, text: &str) {
    for length in 0..text.len() {
        answers(rt, alloc, &text.as_bytes()[..length], "BadJson");
    }
}

#[test]
fn refuses_each_front(rt: HostRuntime) {
    refuses_fronts(&rt, rt.alloc(), NAP);
}

/// A text with other bytes instead of its letters `p` is not JSON.
fn refuses_others(rt: &impl Abort, alloc: Global, text: &str) {
    let mut bytes = text.as_bytes().to_vec(alloc).expect(rt, "memory");
    for byte in bytes.iter_mut() {
        if *byte == b'p' {
            *byte = 255;
        }
    }
    answers(rt, alloc, bytes.as_slice(), "BadJson");
}

#[test]
fn refuses_other_bytes(rt: HostRuntime) {
    refuses_others(&rt, rt.alloc(), NAP);
}

/// The depth of nested lists, and the answer.
const DEPTHS: &str = "\
100 => BadNumber at: 1
127 => BadNumber at: 1
128 => BadJson
1000 => BadJson
";

/// Lists nested so deep.
fn nested(rt: &impl Abort, alloc: Global, depth: usize) -> String {
    let close = repeated(alloc, "]", depth, "").expect(rt, "memory");
    repeated(alloc, "[", depth, close.as_str()).expect(rt, "memory")
}

#[test]
fn bounds_the_nesting(rt: HostRuntime) {
    for line in DEPTHS.lines() {
        let (depth, wanted) = row(line).expect(&rt, line);
        let text = nested(
            &rt,
            rt.alloc(),
            depth.parse::<u64>().expect(&rt, depth) as usize,
        );
        answers(&rt, rt.alloc(), text.as_bytes(), wanted);
    }
}

#[test]
fn bounds_the_length(rt: HostRuntime) {
    let mut bytes = vec![in rt.alloc(); b' '; 67_108_864].expect(&rt, "memory");
    answers(&rt, rt.alloc(), bytes.as_slice(), "BadJson");
    push(&mut bytes, b' ').expect(&rt, "memory");
    answers(&rt, rt.alloc(), bytes.as_slice(), "TooLong");
}
