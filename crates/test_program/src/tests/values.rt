//! Which values differ from what histories record.

use std::alloc::Global;
use std::process::Abort;
use test_support::{bytes_of, row};
use wh_phrases::{OtherValue, OtherValueText};
use wh_report::replay_with_values;
use wh_sample_workflows::All;
use wh_workflow::Workflow;

/// Histories, each with the values that differ.
const VALUES: &str = "\
nap => none
nap | 'timerId':'nap' -> 'timerId':'nap','startToFireTimeout':'60s' => none
nap | 'timerId':'nap' -> 'timerId':'nap','startToFireTimeout':'61s' => event 5: duration: sends 60s, recorded 61s
greet | 'activityId':'1' -> 'activityId':'1','input':{'payloads':[]} => none
greet | 'activityId':'1' -> 'activityId':'1','input':{'payloads':[{'data':'QQ=='}]} => event 5: input: sends nothing, recorded A
greet | 'activityId':'1' -> 'activityId':'1','input':{'payloads':[{'data':'AQ=='},{'data':'/w=='}]} => event 5: input: sends nothing, recorded ?, /w==
greet | 'activityId':'1' -> 'activityId':'1','input':[1] => none
greet | {'workflowType' -> {'input':{'payloads':[{'data':'QQ=='}]},'workflowType' => event 5: input: sends A, recorded nothing
greet | {'workflowType' -> {'input':{'payloads':[{'data':'QQ=='}]},'workflowType' | 'activityId':'1' -> 'activityId':'1','input':{'payloads':[{'data':'QQ=='}]} => none
greet | {'workflowType' -> {'input':{'payloads':[{'data':'QQ=='}]},'workflowType' | 'activityId':'1' -> 'activityId':'1','input':{'payloads':[{'data':'Qg=='}]} => event 5: input: sends A, recorded B
greet | {'workflowType' -> {'input':{'payloads':[{'data':'QQ=='}]},'workflowType' | 'activityId':'1' -> 'activityId':'1','input':{'payloads':[{'metadata':{'encoding':'anNvbi9wbGFpbg=='},'data':'QQ=='}]} => event 5: input: sends A (no encoding), recorded A (json/plain)
greet | {'workflowType' -> {'input':{'payloads':[{'data':'QSwgQg=='}]},'workflowType' | 'activityId':'1' -> 'activityId':'1','input':{'payloads':[{'data':'QQ=='},{'data':'Qg=='}]} => event 5: input: sends A, B (no encoding), recorded A (no encoding), B (no encoding)
greet | 'activityId':'1' -> 'activityId':'1','input':{'payloads':[{'data':'bm90aGluZw=='}]} => event 5: input: sends nothing, recorded nothing (no encoding)
nap | 'WorkflowExecutionCompleted' -> 'WorkflowExecutionCompleted','workflowExecutionCompletedEventAttributes':{'result':{'payloads':[{'data':'QQ=='}]}} => event 10: result: sends nothing, recorded A
nap | 'timerId':'nap' -> 'timerId':'nap','startToFireTimeout':'6s' | 'WorkflowExecutionCompleted' -> 'WorkflowExecutionCompleted','workflowExecutionCompletedEventAttributes':{'result':{'payloads':[{},{'data':'QQ=='}]}} => event 5: duration: sends 60s, recorded 6s, event 10: result: sends nothing, recorded , A
greet/5 activity_failed:5 S T C failed => none
greet/5 activity_failed:5 S T C failed | 'WorkflowExecutionFailed' -> 'WorkflowExecutionFailed','workflowExecutionFailedEventAttributes':{'failure':{'message':'greet'}} => none
greet/5 activity_failed:5 S T C failed | 'WorkflowExecutionFailed' -> 'WorkflowExecutionFailed','workflowExecutionFailedEventAttributes':{'failure':{'message':'x'}} => event 10: failure: sends greet, recorded x
nap | 'timerId':'nap' -> 'timerId':'x','startToFireTimeout':'61s' => none
nap | 'timerId':'nap' -> 'timerId':'nap','startToFireTimeout':'61s' | 'WorkflowExecutionCompleted' -> 'WorkflowExecutionCanceled' => none
start:Nope S T C => none
";

/// A value that differs.
fn value_text(rt: &impl Abort, alloc: Global, value: &OtherValue) -> String {
    format!(in alloc; "{}", OtherValueText(value)).expect(rt, "memory")
}

/// Values that differ, with commas between.
fn values_text(rt: &impl Abort, alloc: Global, values: &[OtherValue]) -> String {
    let mut text = String::new(alloc);
    for value in values {
        if !text.is_empty() {
            text.push_str(", ").expect(rt, "memory");
        }
        let one = value_text(rt, alloc, value);
        text.push_str(one.as_str()).expect(rt, "memory");
    }
    text
}

/// The values of a file that differ.
fn values_in<W: Workflow>(alloc: Global, bytes: &[u8]) -> Vec<OtherValue> {
    let (explanation, values) = replay_with_values::<W>(alloc, bytes);
    drop(explanation);
    values
}

/// The values of a history that differ, with commas between, or `none`.
fn values(rt: &impl Abort, alloc: Global, history: &'static str) -> String {
    let bytes = bytes_of(alloc, history).expect(rt, history);
    let values = values_in::<All>(alloc, bytes.as_slice());
    if values.is_empty() {
        return String::from_str(alloc, "none").expect(rt, "memory");
    }
    values_text(rt, alloc, values.as_slice())
}

#[test]
fn finds_other_values(rt: HostRuntime) {
    for line in VALUES.lines() {
        let (history, wanted) = row(line).expect(&rt, line);
        let found = values(&rt, rt.alloc(), history);
        assert!(rt; found.as_str() == wanted, "{line}: {found}");
    }
}
