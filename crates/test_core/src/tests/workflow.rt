//! Copies of commands, and pairs of workflows.

use std::alloc::Global;
use std::process::Abort;
use test_support::{Brief, Still, wants};
use wh_workflow::{Command, Job, Meter, Pair, Workflow, text_of};

#[test]
fn a_command_is_copied(rt: HostRuntime) {
    let command = Command::StartTimer {
        id: text_of(rt.alloc(), "nap").expect(&rt, "memory"),
        seconds: 60,
    };
    let wanted = "Ok(StartTimer id: nap, seconds: 60)";
    wants(rt.alloc(), command.try_copy(), wanted).expect(&rt, "a command");
}

/// How many commands a run of the workflow type gives to its first job, which is counted once.
fn answered<W: Workflow>(rt: &impl Abort, alloc: Global, kind: &str) -> usize {
    assert!(rt; W::handles(kind), "no code");
    let mut state = W::begin(alloc, kind).expect(rt, "memory");
    let mut out = Vec::new(alloc);
    let mut meter = Meter::new();
    let job = Job::CancelRequested;
    assert!(rt; W::step(alloc, &mut state, &job, &mut out, &mut meter).is_ok());
    assert!(rt; meter.count() == 1);
    let count = out.len();
    drop(out);
    count
}

#[test]
fn each_type_goes_to_its_workflow(rt: HostRuntime) {
    let alloc = rt.alloc();
    assert!(rt; answered::<Pair<Brief, Still>>(&rt, alloc, "Brief") == 1);
    assert!(rt; answered::<Pair<Brief, Still>>(&rt, alloc, "Still") == 0);
    assert!(rt; answered::<Pair<Still, Brief>>(&rt, alloc, "Brief") == 1);
    assert!(rt; !Pair::<Brief, Still>::handles("Other"));
}
