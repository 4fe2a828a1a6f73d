//! Explanations of histories as JSON, line by line.

use std::alloc::Global;
use std::process::Abort;
use test_support::{bytes_of, same, with_status};
use wh_console::Format;
use wh_explain_report::{explain_file, line_status};
use wh_sample_workflows::All;

/// Histories, each with the lines of JSON below it.
const AS_JSON: &str = "\
nap
{'task':3}
{'told':'Time','time':'2024-05-01T10:00:03Z','event':3}
{'told':'Start','workflowType':'Nap','event':1}
{'gives':'StartTimer','timerId':'nap','seconds':60}
{'sends':'StartTimer','timerId':'nap','seconds':60,'recorded':{'event':5,'type':'TimerStarted','timerId':'nap'},'differs':false}
{'task':8}
{'told':'Time','time':'2024-05-01T10:00:08Z','event':8}
{'told':'TimerFired','timerId':'nap','event':6}
{'gives':'Complete'}
{'sends':'Complete','recorded':{'event':10,'type':'WorkflowExecutionCompleted'},'differs':false}
{'file':'x.json','verdict':'ok','tasks':2,'live':false}
status 0

greet | 'name':'greet' -> 'name':'greets'
{'task':3}
{'told':'Time','time':'2024-05-01T10:00:03Z','event':3}
{'told':'Start','workflowType':'Greet','event':1}
{'gives':'StartActivity','activityId':'1','activityType':'greet'}
{'sends':'StartActivity','activityId':'1','activityType':'greet','recorded':{'event':5,'type':'ActivityTaskScheduled','activityId':'1','activityType':'greets'},'differs':true}
{'file':'x.json','verdict':'fault','event':5,'fault':'event 5 differs','sends':'StartActivity','activityId':'1','activityType':'greet','recorded':{'event':5,'type':'ActivityTaskScheduled','activityId':'1','activityType':'greets'}}
status 1

family/6 signal:stop S T C cancel_child:kid child_canceled:5 cancel_sent:11 S T
{'task':3}
{'told':'Time','time':'2024-05-01T10:00:03Z','event':3}
{'told':'Start','workflowType':'Family','event':1}
{'gives':'StartChild','workflowId':'kid','workflowType':'Nap'}
{'sends':'StartChild','workflowId':'kid','workflowType':'Nap','recorded':{'event':5,'type':'StartChildWorkflowExecutionInitiated','workflowId':'kid','workflowType':'Nap'},'differs':false}
{'task':9}
{'told':'Time','time':'2024-05-01T10:00:09Z','event':9}
{'told':'Signal','signalName':'stop','event':7}
{'gives':'CancelChild','workflowId':'kid'}
{'told':'ChildStarted','workflowId':'kid','event':6}
{'sends':'CancelChild','workflowId':'kid','recorded':{'event':11,'type':'RequestCancelExternalWorkflowExecutionInitiated','workflowId':'kid'},'differs':false}
{'task':15}
{'told':'Time','time':'2024-05-01T10:00:15Z','event':15}
{'told':'Child','workflowId':'kid','status':'Canceled','event':12}
{'gives':'Cancel'}
{'told':'CancelSent','workflowId':'kid','event':13}
{'sends':'Cancel'}
{'live':true}
{'file':'x.json','verdict':'ok','tasks':3,'live':true}
status 0

start:Branch S T C chg_marker:MQ== activity:1:new
{'task':3}
{'told':'Time','time':'2024-05-01T10:00:03Z','event':3}
{'told':'Start','workflowType':'Branch','event':1}
{'gives':'Ask','changeId':'chg','min':-1,'max':1}
{'told':'Version','changeId':'chg','version':1}
{'gives':'StartActivity','activityId':'1','activityType':'new'}
{'sends':'Marker','changeId':'chg','version':1,'recorded':{'event':5,'type':'MarkerRecorded','changeId':'chg','version':1},'differs':false}
{'sends':'StartActivity','activityId':'1','activityType':'new','recorded':{'event':6,'type':'ActivityTaskScheduled','activityId':'1','activityType':'new'},'differs':false}
{'file':'x.json','verdict':'ok','tasks':1,'live':false}
status 0

nap/5 timer:x
{'task':3}
{'told':'Time','time':'2024-05-01T10:00:03Z','event':3}
{'told':'Start','workflowType':'Nap','event':1}
{'gives':'StartTimer','timerId':'nap','seconds':60}
{'sends':'StartTimer','timerId':'nap','seconds':60,'recorded':{'event':5,'type':'TimerStarted','timerId':'nap'},'differs':false}
{'sends':null,'recorded':{'event':6,'type':'TimerStarted','timerId':'x'},'differs':true}
{'file':'x.json','verdict':'fault','event':6,'fault':'event 6 has no command','sends':null,'recorded':{'event':6,'type':'TimerStarted','timerId':'x'}}
status 1

nap/4
{'task':3}
{'told':'Time','time':'2024-05-01T10:00:03Z','event':3}
{'told':'Start','workflowType':'Nap','event':1}
{'gives':'StartTimer','timerId':'nap','seconds':60}
{'sends':'StartTimer','timerId':'nap','seconds':60,'recorded':null,'differs':true}
{'file':'x.json','verdict':'fault','task':3,'fault':'command 1 of the task at 3 has no event','sends':'StartTimer','timerId':'nap','seconds':60,'recorded':null}
status 1

start:Nap timer:nap S T
{'task':4}
{'told':'Time','time':'2024-05-01T10:00:04Z','event':4}
{'told':'Start','workflowType':'Nap','event':1}
{'gives':'StartTimer','timerId':'nap','seconds':60}
{'refuses':'StartTimer','timerId':'nap','seconds':60}
{'file':'x.json','verdict':'fault','task':4,'fault':'task at 4: IdInUse'}
status 1

start:Nope S T C
{'unknownWorkflow':'Nope'}
{'file':'x.json','verdict':'fault','task':1,'fault':'task at 1: UnknownWorkflow'}
{'events':4,'tasks':1,'things':0,'run':{'status':'Running'}}
{'place':1,'event':1,'task':1,'is':'told','recorded':{'eventId':'1','eventTime':'2024-05-01T10:00:01Z','eventType':'WorkflowExecutionStarted','workflowExecutionStartedEventAttributes':{'workflowType':{'name':'Nope'}}}}
{'place':2,'event':2,'task':1,'is':'other','recorded':{'eventId':'2','eventTime':'2024-05-01T10:00:02Z','eventType':'WorkflowTaskScheduled'}}
{'place':3,'event':3,'task':1,'is':'other','recorded':{'eventId':'3','eventTime':'2024-05-01T10:00:03Z','eventType':'WorkflowTaskStarted'}}
{'place':4,'event':4,'task':1,'is':'completes','recorded':{'eventId':'4','eventTime':'2024-05-01T10:00:04Z','eventType':'WorkflowTaskCompleted'}}
status 1

nap/5 | 'timerId':'nap' -> 'timerId':'\u{e9}\\\\b'
{'task':3}
{'told':'Time','time':'2024-05-01T10:00:03Z','event':3}
{'told':'Start','workflowType':'Nap','event':1}
{'gives':'StartTimer','timerId':'nap','seconds':60}
{'sends':'StartTimer','timerId':'nap','seconds':60,'recorded':{'event':5,'type':'TimerStarted','timerId':'?\\\\b'},'differs':true}
{'file':'x.json','verdict':'fault','event':5,'fault':'event 5 differs','sends':'StartTimer','timerId':'nap','seconds':60,'recorded':{'event':5,'type':'TimerStarted','timerId':'?\\\\b'}}
status 1";

/// The explanation of a history as JSON, followed by the status.
fn explanation(rt: &impl Abort, alloc: Global, history: &'static str) -> String {
    let bytes = bytes_of(alloc, history).expect(rt, history);
    let name = String::from_str(alloc, "x.json").expect(rt, "memory");
    let mut out = Vec::new(alloc);
    let line = explain_file::<All, _>(alloc, name, bytes.as_slice(), None, Format::Json, &mut out);
    let status = line_status(&line.expect(rt, "explained"));
    with_status(out, status).expect(rt, "a text")
}

/// The lines of JSON have `'` for `"` in the blocks.
#[test]
fn explains_histories_as_json(rt: HostRuntime) {
    for block in AS_JSON.split("\n\n") {
        let (history, wanted) = block.split_once("\n").expect(&rt, block);
        let text = explanation(&rt, rt.alloc(), history);
        let text = text
            .as_str()
            .replace(rt.alloc(), "\"", "'")
            .expect(&rt, "memory");
        same(rt.alloc(), text.as_str(), wanted).expect(&rt, history);
    }
}
