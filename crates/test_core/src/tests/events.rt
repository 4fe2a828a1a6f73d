//! The text of an error, and that values are copied if there is memory.

use std::alloc::Global;
use std::process::Abort;
use test_support::{events, key, same, wants};
use wh_events::{EventKind, Items, OutOfMemory, Payload};
use wh_workflow::text_of;

/// A start whose input is one payload.
const START: &str =
    "start:Nap | {'workflowType' -> {'input':{'payloads':[{'metadata':{'encoding':'AQI='},'data':'Aw=='}]},'workflowType'";

#[test]
fn shows_want_of_memory(rt: HostRuntime) {
    let shown = format!(in rt.alloc(); "{OutOfMemory}").expect(&rt, "memory");
    same(rt.alloc(), shown.as_str(), "out of memory").expect(&rt, "a fault");
}

#[test]
fn copies_keys_and_texts(rt: HostRuntime) {
    let alloc = rt.alloc();
    let key = key(alloc, "order").expect(&rt, "memory");
    let wanted = "Ok(RunKey workflow_id: order, run_id: recorded)";
    wants(alloc, key.try_copy(), wanted).expect(&rt, "a key");
    let text = text_of(alloc, "order").expect(&rt, "memory");
    wants(alloc, text.try_copy(), "Ok(order)").expect(&rt, "a text");
    same(rt.alloc(), text.into_inner().as_str(), "order").expect(&rt, "a text");
}

/// Payloads are copied, one by one and as a list.
fn copies_payloads(rt: &impl Abort, alloc: Global, input: &Items<Payload>) {
    for payload in input.get() {
        let wanted = "Ok(Payload encoding: [1, 2], content: [3])";
        wants(alloc, payload.try_copy(), wanted).expect(rt, "a payload");
    }
    let copy = input.try_copy().expect(rt, "memory");
    let wanted = "[Payload encoding: [1, 2], content: [3]]";
    wants(alloc, copy.into_inner(), wanted).expect(rt, "payloads");
}

#[test]
fn copies_events(rt: HostRuntime) {
    let alloc = rt.alloc();
    let events = events(alloc, START).expect(&rt, START);
    let event = events.first().expect(&rt, START);
    let wanted =
        "Ok(Event number: 1, time: 1714557601000000000, body: WorkflowExecutionStarted workflow: Nap, input: [Payload encoding: [1, 2], content: [3]])";
    wants(alloc, event.try_copy(), wanted).expect(&rt, "an event");
    let wanted =
        "Ok(WorkflowExecutionStarted workflow: Nap, input: [Payload encoding: [1, 2], content: [3]])";
    wants(alloc, event.body.try_copy(), wanted).expect(&rt, "a kind");
    match &event.body {
        EventKind::WorkflowExecutionStarted { input, .. } => copies_payloads(&rt, alloc, input),
        _ => panic!(rt; "no start"),
    }
}
