//! What the reader accepts and what it refuses.

use crate::tests::lines::reads;
use std::alloc::Global;
use std::process::Abort;
use test_support::{bytes_of, row};
use wh_sample_workflows::All;

/// Forms that are read.
pub(crate) const READ: &str = "\
nap => x.json: ok, 2 tasks
nap | [{ -> {'events':[{ | }] -> }]} => x.json: ok, 2 tasks
nap | 'eventId':'1' -> 'eventId':1 | 'startedEventId':'5' -> 'startedEventId':5 => x.json: ok, 2 tasks
nap | 'TimerStarted' -> 'EVENT_TYPE_TIMER_STARTED' => x.json: ok, 2 tasks
nap | {'workflowType' -> {'workflowTaskTimeout':1.5,'input':null,'workflowType' => x.json: ok, 2 tasks
nap | 'eventId':'7' -> 'eventId':'007' => x.json: ok, 2 tasks
nap | 'eventId':'1' -> 'eventId':'0000000000000000001' => x.json: ok, 2 tasks
nap | 'eventId':'1' -> 'eventId':'x','eventId':'1' => x.json: ok, 2 tasks
nap | 'eventType':'TimerStarted' -> 'eventType':'TimerStarted','workerMayIgnore':true => x.json: ok, 2 tasks
greet | 'activityType' -> 'input':['x'],'activityType' => x.json: ok, 2 tasks
greet | 'WorkflowExecutionCompleted' -> 'WorkflowExecutionCompleted','workflowExecutionCompletedEventAttributes':{'result':[1.5]} => x.json: ok, 2 tasks
start:Nap S T ignored C timer:nap timer_fired:6 S T C completed => x.json: ok, 2 tasks
nap/3 ignored | 'EVENT_TYPE_SOMETHING_NEW' -> null => x.json: ok, 1 tasks, last live
nap/3 ignored | 'EVENT_TYPE_SOMETHING_NEW' -> 5 => x.json: ok, 1 tasks, last live
nap/3 ignored | 'eventType':'EVENT_TYPE_SOMETHING_NEW' -> 'type':'x' => x.json: ok, 1 tasks, last live
caller/5 external_failed:5 S T C failed | 'SignalExternalWorkflowExecutionFailed' -> 'SignalExternalWorkflowExecutionFailed','workerMayIgnore':true => x.json: ok, 2 tasks
nap | 'eventTime':'2024-05-01T10:00:02Z' -> 'eventTime':'2024-05-01T12:00:02+02' => x.json: ok, 2 tasks
nap/3 attributes_upserted properties_modified => x.json: ok, 1 tasks, last live
start:Branch S T C chg_marker:IDEg activity:1:new => x.json: ok, 1 tasks
start:Branch S T C chg_marker:MQ== activity:1:new | 'ImNoZyI=' -> 'Ilx1MDA2M2hnIg==' => x.json: ok, 1 tasks
start:Branch S T C chg_marker:MQ== activity:1:new | anNvbi9wbGFpbg== -> eA== => x.json: ok, 1 tasks
start:Branch S T C chg_marker:MQ== activity:1:new | 'encoding':'anNvbi9wbGFpbg==' -> 'encoding':null => x.json: ok, 1 tasks
start:Branch S T C chg_marker:MQ== activity:1:new | 'details':{ -> 'details':{'other':['x'], => x.json: ok, 1 tasks
caller | 'eventType':'ExternalWorkflowExecutionSignaled' -> 'eventType':'ExternalWorkflowExecutionSignaled','workerMayIgnore':true => x.json: ok, 2 tasks
caller | 'eventType':'SignalExternalWorkflowExecutionInitiated' -> 'eventType':'SignalExternalWorkflowExecutionInitiated','workerMayIgnore':true => x.json: ok, 2 tasks
caller | 'ExternalWorkflowExecutionSignaled' -> 'EVENT_TYPE_EXTERNAL_WORKFLOW_EXECUTION_SIGNALED' => x.json: ok, 2 tasks
nap/3 ignored | 'workerMayIgnore':true -> 'workerMayIgnore':true,'somethingNewEventAttributes':{'startedEventId':'x','input':[1.5]} => x.json: ok, 1 tasks, last live
nap/3 attributes_upserted | 'UpsertWorkflowSearchAttributes' -> 'UpsertWorkflowSearchAttributes','upsertWorkflowSearchAttributesEventAttributes':{'startedEventId':'x'} => x.json: ok, 1 tasks, last live
nap | {'workflowType' -> {'header':[1.5],'input':{'payloads':null},'workflowType' => x.json: ok, 2 tasks
nap | {'workflowType' -> {'input':{'payloads':[{'metadata':null,'data':null},{'metadata':{'encoding':null}},{}]},'workflowType' => x.json: ok, 2 tasks
nap | {'workflowType' -> {'input':{'payloads':[]},'workflowType' => x.json: ok, 2 tasks
nap | 'timerStartedEventAttributes':{ -> 'timerStartedEventAttributes':{'startToFireTimeout':'60s', => x.json: ok, 2 tasks
family | 'workflowId':'kid' -> 'workflowId':'kid','input':['x'] => x.json: ok, 3 tasks
caller | 'signalName' -> 'input':5,'signalName' => x.json: ok, 2 tasks
nap/3 signal:s S T | {'signalName' -> {'input':{'payloads':[{'data':'aGk='}]},'signalName' => x.json: ok, 1 tasks, last live
";

/// Numbers, order, types, times, payloads and markers that are refused.
pub(crate) const REFUSED: &str = "\
nap | 'eventId':'1' -> 'eventId':'0' => x.json: unreadable, event 1 has a bad number
nap | 'eventId':'1' -> 'eventId':'9223372036854775808' => x.json: unreadable, event 1 has a bad number
nap | 'eventId':'1' -> 'eventId':'9999999999999999999' => x.json: unreadable, event 1 has a bad number
nap | 'eventId':'1' -> 'eventId':'00000000000000000001' => x.json: unreadable, event 1 has a bad number
nap | 'eventId':'1' -> 'eventId':true => x.json: unreadable, event 1 has a bad number
nap | 'eventId':'1' -> 'eventId':'' => x.json: unreadable, event 1 has a bad number
nap | 'eventId':'1' -> 'eventId':'+1' => x.json: unreadable, event 1 has a bad number
nap | 'eventId':'1' -> 'eventId':' 1' => x.json: unreadable, event 1 has a bad number
nap | 'eventId':'1' -> 'eventId':1.0 => x.json: unreadable, event 1 has a bad number
nap | 'eventId':'1' -> 'eventId':1e0 => x.json: unreadable, event 1 has a bad number
nap | 'eventId':'1' -> 'eventId':-1 => x.json: unreadable, event 1 has a bad number
nap | 'eventId':'1' -> 'eventId':null => x.json: unreadable, event 1 has a bad number
nap | 'startedEventId':'5' -> 'startedEventId':'-1' => x.json: unreadable, event 6 has a bad number
nap | 'startedEventId':'5' -> 'startedEventId':5.0 => x.json: unreadable, event 6 has a bad number
start:Nap S | 'eventId':'1' -> 'eventId':'9223372036854775807' | 'eventId':'2' -> 'eventId':'9223372036854775808' => x.json: unreadable, event 2 has a bad number
nap | 'eventId':'6' -> 'eventId':'8' | 'startedEventId':'5' -> 'startedEventId':'x' => x.json: unreadable, event 6 has a bad number
nap/3 | 'eventId':'3' -> 'eventId':'4' => x.json: unreadable, event 3 is out of order
nap/3 unknown => x.json: unreadable, event 4 has the unsupported type EVENT_TYPE_SOMETHING_NEW
nap/3 ignored | 'workerMayIgnore':true -> 'workerMayIgnore':'true' => x.json: unreadable, event 4 has the unsupported type EVENT_TYPE_SOMETHING_NEW
nap/3 ignored | 'workerMayIgnore':true -> 'workerMayIgnore':1 => x.json: unreadable, event 4 has the unsupported type EVENT_TYPE_SOMETHING_NEW
nap/3 unknown | 'EVENT_TYPE_SOMETHING_NEW' -> null => x.json: unreadable, event 4 has the unsupported type\x20
nap/3 unknown | 'eventTime':'2024-05-01T10:00:04Z' -> 'eventTime':null => x.json: unreadable, event 4 has the unsupported type EVENT_TYPE_SOMETHING_NEW
nap | 'TimerStarted' -> 'timerStarted' => x.json: unreadable, event 5 has the unsupported type timerStarted
nap | 'TimerStarted' -> 'EVENT_TYPE_TimerStarted' => x.json: unreadable, event 5 has the unsupported type EVENT_TYPE_TimerStarted
nap/3 unknown | EVENT_TYPE_SOMETHING_NEW -> A\\nB => x.json: unreadable, event 4 has the unsupported type A?B
nap/3 ignored | 'eventTime':'2024-05-01T10:00:04Z' -> 'eventTime':null => x.json: unreadable, event 4 lacks a field
nap | 'timerId':'nap' -> 'timer':'nap' => x.json: unreadable, event 5 lacks a field
nap | 'timerId':'nap' -> 'timerId':'' => x.json: unreadable, event 5 lacks a field
nap | 'workflowType':{'name':'Nap'} -> 'workflowType':'Nap' => x.json: unreadable, event 1 lacks a field
caller | 'signalName':'go' -> 'signal':'go' => x.json: unreadable, event 5 lacks a field
nap | 'eventTime':'2024-05-01T10:00:02Z' -> 'eventTime':'yesterday' => x.json: unreadable, event 2 has a bad time
nap | 'eventTime':'2024-05-01T10:00:01Z' -> 'eventTime':'yesterday' | 'eventId':'2' -> 'eventId':'x' => x.json: unreadable, event 1 has a bad time
nap | 'timerId':'nap' -> 'timerId':'nap','x':1e999 => x.json: unreadable, not JSON
nap | 'timerId':'nap' -> 'timerId':'\\ud800' => x.json: unreadable, not JSON
greet | CompletedEventAttributes':{ -> CompletedEventAttributes':{'result':['hi'], => x.json: unreadable, event 7 has a shorthand payload
greet | CompletedEventAttributes':{ -> CompletedEventAttributes':{'result':{'payloads':[{'data':'MQ='}]}, => x.json: unreadable, event 7 has a bad payload
greet | CompletedEventAttributes':{ -> CompletedEventAttributes':{'result':{'payloads':[{'data':'MQ'}]}, => x.json: unreadable, event 7 has a bad payload
greet | CompletedEventAttributes':{ -> CompletedEventAttributes':{'result':{'payloads':[{'data':'MR=='}]}, => x.json: unreadable, event 7 has a bad payload
greet | CompletedEventAttributes':{ -> CompletedEventAttributes':{'result':{'payloads':[{'metadata':[]}]}, => x.json: unreadable, event 7 has a bad payload
nap | {'workflowType' -> {'input':5,'workflowType' => x.json: unreadable, event 1 has a bad payload
nap | {'workflowType' -> {'input':{'payloads':{}},'workflowType' => x.json: unreadable, event 1 has a bad payload
nap | {'workflowType' -> {'input':{'payloads':[null]},'workflowType' => x.json: unreadable, event 1 has a bad payload
nap | {'workflowType' -> {'input':{'payloads':[[1]]},'workflowType' => x.json: unreadable, event 1 has a bad payload
nap | {'workflowType' -> {'input':[],'workflowType' => x.json: unreadable, event 1 has a shorthand payload
nap/4 marker:SideEffect => x.json: unreadable, event 5 has the unsupported marker SideEffect
nap/4 marker:x | 'markerName':'x' -> 'markerName':5 => x.json: unreadable, event 5 has the unsupported marker\x20
nap/4 marker:Version => x.json: unreadable, event 5 has the unsupported marker Version
nap/4 marker:Version | 'Version' -> 'Version','details':[] => x.json: unreadable, event 5 has the unsupported marker Version
nap/4 marker:Version | 'Version' -> 'Version','details':{'version':{'payloads':[{'data':'MQ=='}]}} => x.json: unreadable, event 5 has the unsupported marker Version
nap/4 marker:Version | 'Version' -> 'Version','details':{'change-id':['chg'],'version':{'payloads':[{'data':'MQ'}]}} => x.json: unreadable, event 5 has a bad payload
nap/4 marker:Version | 'Version' -> 'Version','details':{'change-id':['chg'],'version':{'payloads':[{'data':'MQ=='}]}} => x.json: unreadable, event 5 has a shorthand payload
nap/4 chg_marker:MS41 => x.json: unreadable, event 5 has the unsupported marker Version
nap/4 chg_marker:MS4w => x.json: unreadable, event 5 has the unsupported marker Version
nap/4 chg_marker:IjEi => x.json: unreadable, event 5 has the unsupported marker Version
nap/4 chg_marker:MDE= => x.json: unreadable, event 5 has the unsupported marker Version
nap/4 chg_marker:MjE0NzQ4MzY0OA== => x.json: unreadable, event 5 has the unsupported marker Version
nap/4 chg_marker:MQ== | 'ImNoZyI=' -> 'IiI=' => x.json: unreadable, event 5 has the unsupported marker Version
";

/// More that is refused, where one thing comes before another.
pub(crate) const REFUSED_FIRST: &str = "\
nap | 'eventId':'1' -> 'eventId':-0 => x.json: unreadable, event 1 has a bad number
nap | 'eventId':'1' -> 'eventId':10e-1 => x.json: unreadable, event 1 has a bad number
nap | 'eventId':'1' -> 'eventId':'\u{ff11}' => x.json: unreadable, event 1 has a bad number
nap | 'eventId':'1' -> 'eventId':'1 ' => x.json: unreadable, event 1 has a bad number
nap | 'eventId':'1' -> 'event':'1' => x.json: unreadable, event 1 has a bad number
nap | 'eventId':'1' -> 'eventId':['1'] => x.json: unreadable, event 1 has a bad number
nap | 'eventTime':'2024-05-01T10:00:06Z' -> 'eventTime':null | 'startedEventId':'5' -> 'startedEventId':'x' => x.json: unreadable, event 6 has a bad number
nap | 'eventId':'6' -> 'eventId':'8' | 'TimerFired' -> 'Timer' => x.json: unreadable, event 6 is out of order
nap/3 ignored | 'eventId':'4' -> 'eventId':'9' => x.json: unreadable, event 4 is out of order
nap/3 ignored | 'eventId':'4' -> 'eventId':'x' => x.json: unreadable, event 4 has a bad number
nap/3 unknown | 'eventType':'EVENT_TYPE_SOMETHING_NEW' -> 'type':'x' => x.json: unreadable, event 4 has the unsupported type\x20
nap | 'TimerFired' -> 'Timer' | 'startedEventId':'5' -> 'startedEventId':'x' => x.json: unreadable, event 6 has the unsupported type Timer
nap/3 ignored | 'eventTime':'2024-05-01T10:00:04Z' -> 'eventTime':'yesterday' => x.json: unreadable, event 4 has a bad time
nap/3 ignored | 'workerMayIgnore':true -> 'workerMayIgnore':null => x.json: unreadable, event 4 has the unsupported type EVENT_TYPE_SOMETHING_NEW
nap/3 ignored | 'workerMayIgnore':true -> 'workerMayIgnore':false => x.json: unreadable, event 4 has the unsupported type EVENT_TYPE_SOMETHING_NEW
nap/3 ignored | 'workerMayIgnore':true -> 'somethingNewEventAttributes':{'workerMayIgnore':true} => x.json: unreadable, event 4 has the unsupported type EVENT_TYPE_SOMETHING_NEW
nap/3 ignored | ,'workerMayIgnore':true -> ,'workerMayIgnore':true,'workerMayIgnore':false => x.json: unreadable, event 4 has the unsupported type EVENT_TYPE_SOMETHING_NEW
nap | 'eventTime':'2024-05-01T10:00:02Z' -> 'eventTime':2 => x.json: unreadable, event 2 lacks a field
nap | 'eventTime':'2024-05-01T10:00:02Z' -> 'eventTime':'' => x.json: unreadable, event 2 lacks a field
greet | 'activityType':{'name':'greet'} -> 'activityType':{'name':5} => x.json: unreadable, event 5 lacks a field
family | 'workflowId':'kid' -> 'workflow':'kid' => x.json: unreadable, event 5 lacks a field
caller | 'workflowExecution':{'workflowId':'other'} -> 'workflowExecution':'other' => x.json: unreadable, event 5 lacks a field
nap/3 signal:s | 'signalName':'s' -> 'signalName':'' => x.json: unreadable, event 4 lacks a field
nap/3 signal:s | {'signalName' -> {'input':['x'],'signalName' => x.json: unreadable, event 4 has a shorthand payload
nap/3 signal:s | 'eventTime':'2024-05-01T10:00:04Z' -> 'eventTime':'yesterday' | {'signalName' -> {'input':['x'],'signalName' => x.json: unreadable, event 4 has a bad time
nap/3 signal:s | 'signalName':'s' -> 'input':['x'] => x.json: unreadable, event 4 lacks a field
family | childWorkflowExecutionCompletedEventAttributes':{ -> childWorkflowExecutionCompletedEventAttributes':{'result':['x'], => x.json: unreadable, event 10 has a shorthand payload
nap | {'workflowType' -> {'input':'x','workflowType' => x.json: unreadable, event 1 has a bad payload
nap | {'workflowType' -> {'input':{'payloads':[{'metadata':'x'}]},'workflowType' => x.json: unreadable, event 1 has a bad payload
nap | {'workflowType' -> {'input':{'payloads':[{'metadata':{'encoding':'x'}}]},'workflowType' => x.json: unreadable, event 1 has a bad payload
nap | {'workflowType' -> {'input':{'payloads':[{'data':5}]},'workflowType' => x.json: unreadable, event 1 has a bad payload
nap/4 marker:SideEffect | 'eventTime':'2024-05-01T10:00:05Z' -> 'eventTime':'yesterday' => x.json: unreadable, event 5 has a bad time
nap/4 marker:SideEffect | 'SideEffect' -> 'SideEffect','details':{'change-id':['x']} => x.json: unreadable, event 5 has the unsupported marker SideEffect
nap/4 marker:Version | 'Version' -> 'Version','details':'x' => x.json: unreadable, event 5 has the unsupported marker Version
nap/4 marker:Version | 'Version' -> 'Version','details':null => x.json: unreadable, event 5 has the unsupported marker Version
nap/4 marker:Version | 'Version' -> 'Version','details':{'change-id':{'payloads':[{'data':'ImNoZyI='}]}} => x.json: unreadable, event 5 has the unsupported marker Version
nap/4 oth_marker:MQ== | {'data':'MQ=='} -> {'data':'MQ=='},{'data':'MQ=='} => x.json: unreadable, event 5 has the unsupported marker Version
nap/4 oth_marker:MQ== | {'data':'MQ=='} -> {'data':'MQ=='},{'data':'MQ'} => x.json: unreadable, event 5 has a bad payload
nap/4 oth_marker:MQ== | {'data':'Im90aCI='} -> {'data':'Im90aCI=','metadata':{'encoding':'?'}} => x.json: unreadable, event 5 has a bad payload
nap/4 chg_marker:LTA= => x.json: unreadable, event 5 has the unsupported marker Version
nap/4 chg_marker:MWUw => x.json: unreadable, event 5 has the unsupported marker Version
nap/4 chg_marker:eA== => x.json: unreadable, event 5 has the unsupported marker Version
nap/4 chg_marker:MQ== | 'ImNoZyI=' -> 'MQ==' => x.json: unreadable, event 5 has the unsupported marker Version
";

/// Files of so many spaces, and their lines.
const SPACES: &str = "\
67108864 => x.json: unreadable, not JSON
67108865 => x.json: unreadable, file too long
67108866 => x.json: unreadable, file too long
";

/// As many spaces.
fn spaces(rt: &impl Abort, alloc: Global, count: usize) -> Vec<u8> {
    vec![in alloc; b' '; count].expect(rt, "memory")
}

#[test]
fn long_files_are_refused(rt: HostRuntime) {
    for line in SPACES.lines() {
        let (count, wanted) = row(line).expect(&rt, line);
        let bytes = spaces(
            &rt,
            rt.alloc(),
            count.parse::<u64>().expect(&rt, count) as usize,
        );
        reads::<All>(&rt, rt.alloc(), line, bytes.as_slice(), wanted);
    }
}

/// Each front of a text is refused with this line.
fn refuses_fronts(rt: &impl Abort, alloc: Global, text: &[u8], line: &str) {
    for count in 0..text.len() {
        reads::<All>(rt, alloc, "cut", &text[..count], line);
    }
}

#[test]
fn cut_files_are_refused(rt: HostRuntime) {
    let bytes = bytes_of(rt.alloc(), "nap | [{ -> {'events':[{ | }] -> }]}").expect(
        &rt,
        "nap | [{ -> {'events':[{ | }] -> }]}",
    );
    let wanted = "x.json: unreadable, not JSON";
    refuses_fronts(&rt, rt.alloc(), bytes.as_slice(), wanted);
}
