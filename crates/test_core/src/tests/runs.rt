//! Runs, from their first event on, and as they advance.

use std::alloc::Global;
use std::process::Abort;
use test_support::{advance, events_after, key, row, run_text, same, shown};
use wh_events::EventNo;
use wh_replay::{Run, RunFault};
use wh_sample_workflows::{All, Flood};
use wh_workflow::{Meter, Workflow};

/// Runs from their first event: their steps, how many events they hold, and their unsent commands.
const BEGUN: &str = "\
nap/3 => 2 steps, holds 3, [StartTimer id: nap, seconds: 60]
nap/8 => 4 steps, holds 8, [Complete result: []]
nap/3 task_failed S T => 2 steps, holds 6, [StartTimer id: nap, seconds: 60]
nap => Fault(NotATask)
nap/3 attributes_upserted => Fault(NotATask)
nap/3 S => Fault(NotATask)
greet/3 => 2 steps, holds 3, [StartActivity id: 1, activity: greet, input: []]
branch/3 => 3 steps, holds 3, [Marker change_id: chg, version: 1, StartActivity id: 1, activity: new, input: []], chg is 1
branch/9 => 5 steps, holds 9, [Complete result: []], chg is -1
family/3 => 2 steps, holds 3, [StartChild workflow_id: kid, workflow: Nap, input: []]
racer/3 => 2 steps, holds 3, [StartActivity id: 1, activity: race, input: [], StartTimer id: t, seconds: 30]
racer/9 => 4 steps, holds 9, [CancelActivity id: 1, StartTimer id: u, seconds: 5]
caller/3 => 2 steps, holds 3, [SignalExternal workflow_id: other, signal: go, input: []]
start:Relay S T => 2 steps, holds 3, [Complete result: []]
start:Relay S T | {'workflowType' -> {'input':{'payloads':[{'data':'AQ=='},{'data':'Ag=='}]},'workflowType' => 2 steps, holds 3, [StartTimer id: leg, seconds: 5]
start:Relay S T C timer:leg signal:s timer_fired:5 S T | {'workflowType' -> {'input':{'payloads':[{'data':'AQ=='},{'data':'Ag=='}]},'workflowType' => 5 steps, holds 9, [ContinueAsNew workflow: Relay, input: [Payload encoding: [], content: [2]]]
start:Relay S T C timer:leg timer_fired:5 S T | {'workflowType' -> {'input':{'payloads':[{'data':'AQ=='}]},'workflowType' => 4 steps, holds 8, [ContinueAsNew workflow: Relay, input: []]
late => 5 steps, holds 11, [StartTimer id: u, seconds: 5]
start:Racer activity:1:race activity_completed:2 S T => 3 steps, holds 5, [StartActivity id: 1, activity: race, input: [], Complete result: []]
start:Racer S T task_failed timer:t timer_fired:5 S T => 3 steps, holds 8, [StartTimer id: t, seconds: 30, StartTimer id: u, seconds: 5]
family/9 signal:stop child_completed:5 S T => 7 steps, holds 13, [Complete result: []]
nap/5 timer_fired:4 S T => Fault(Place at: 6, fault: WrongKindRef)
nap/4 timer:x S T => Fault(Mismatch at: 3, mismatch: Different event: 5)
start:Nap timer:nap S T => Fault(Workflow at: 4, fault: IdInUse)
 => Fault(NotATask)
greet/6 activity_completed:5 cancel_requested S T => 5 steps, holds 10, [Complete result: []]
greet/6 cancel_requested activity_completed:5 S T => 5 steps, holds 10, [Complete result: []]
greet/6 cancel_requested S T => 4 steps, holds 9, [CancelActivity id: 1]
family/9 child_completed:5 signal:stop S T => 7 steps, holds 13, [Complete result: []]
caller/5 external_failed:5 S T => 4 steps, holds 8, [Fail message: signal]
greet/5 activity_failed:5 S T => 4 steps, holds 8, [Fail message: greet]
branch/5 activity_failed:5 S T => 5 steps, holds 8, [Fail message: branch], chg is -1
family/5 child_failed:5 S T => 4 steps, holds 8, [Fail message: kid]
racer/6 activity_failed:5 S T => 4 steps, holds 9, [CancelTimer id: t, Fail message: race]
start:Racer activity:1:race activity_completed:2 activity:1:race activity_completed:4 S T => 4 steps, holds 7, [StartActivity id: 1, activity: race, input: [], Complete result: []]
";

/// Runs of the events before `then`, advanced by those that the longer history has after them, or
/// after another place. The steps are those of the advance.
const ADVANCED: &str = "\
nap/3 then nap/8 => 2 steps, holds 8, [Complete result: []]
nap/3 then nap/3 attributes_upserted C timer:nap timer_fired:6 S T => 2 steps, holds 9, [Complete result: []]
branch/3 then branch/9 => 5 steps, holds 9, [Complete result: []], chg is -1
branch/3 then branch/3 task_timed_out S T => 3 steps, holds 6, [Marker change_id: chg, version: 1, StartActivity id: 1, activity: new, input: []], chg is 1
branch/3 then branch/3 task_failed S T => 3 steps, holds 6, [Marker change_id: chg, version: 1, StartActivity id: 1, activity: new, input: []], chg is 1
branch/3 then branch/3 C chg_marker:MQ== activity:1:new activity_started:6 activity_completed:6 S T => 2 steps, holds 10, [Complete result: []], chg is 1
branch/3 then branch/3 C chg_marker:MA== activity:1:new activity_started:6 activity_completed:6 S T => 5 steps, holds 10, [Complete result: []], chg is 0
branch/3 then branch/3 C chg_marker:Mg== activity:1:new S T => Fault(Workflow at: 3, fault: VersionOutOfRange)
family/3 then family/12 => 4 steps, holds 12, [Complete result: []]
caller/3 then caller/8 => 2 steps, holds 8, [Complete result: []]
racer/3 then racer/9 => 2 steps, holds 9, [CancelActivity id: 1, StartTimer id: u, seconds: 5]
racer/3 then racer/19 => 6 steps, holds 19, [Complete result: []]
nap/3 then nap/3 signal:s S T => 3 steps, holds 6, [StartTimer id: nap, seconds: 60]
nap/3 then nap/4 timer:x S T => Fault(Mismatch at: 3, mismatch: Different event: 5)
nap/3 then nap/4 timer:nap timer_fired:4 S T => Fault(Place at: 6, fault: WrongKindRef)
nap/3 then nap/6 => NotATask, 0 steps, holds 3, [StartTimer id: nap, seconds: 60]
nap/3 then nap/3 => NotATask, 0 steps, holds 3, [StartTimer id: nap, seconds: 60]
nap/3 then nap/3 task_failed signal:s S T => 3 steps, holds 7, [StartTimer id: nap, seconds: 60]
nap/3 then nap/3 attributes_upserted task_failed S T => 2 steps, holds 7, [StartTimer id: nap, seconds: 60]
nap/8 then nap/8 task_timed_out S T => 4 steps, holds 11, [Complete result: []]
branch/3 then branch/3 C activity:1:new S T => Fault(Mismatch at: 3, mismatch: Different event: 5)
nap/3 then nap/4 S T => Fault(Mismatch at: 3, mismatch: CommandExtra index: 1)
nap/3 then nap/5 timer:x S T => Fault(Mismatch at: 3, mismatch: CommandMissing event: 6)
nap/3 then nap/3 after 2 => Gap, 0 steps, holds 3, [StartTimer id: nap, seconds: 60]
nap/3 then nap/8 after 4 => Gap, 0 steps, holds 3, [StartTimer id: nap, seconds: 60]
";

/// The status of a thing that an event of a run opened.
const STATUSES: &str = "\
nap/8 at 5 => Some(Closed by: 6)
nap/8 at 6 => None
nap/8 at 9 => None
greet/5 S T at 5 => Some(Open)
greet/6 S T at 5 => Some(Started)
greet/6 cancel_requested S T C activity_cancel:5 S T at 5 => Some(Cancelling)
greet/5 cancel_requested S T C activity_cancel:5 activity_started:5 S T at 5 => Some(Cancelling)
greet/9 at 5 => Some(Closed by: 7)
family/8 at 5 => Some(Started)
family/12 at 5 => Some(Closed by: 10)
family/6 C cancel_child:kid S T at 5 => Some(Cancelling)
family/6 C cancel_child:kid S T at 8 => Some(Open)
family/6 C cancel_child:kid cancel_failed:8 S T at 5 => Some(Cancelling)
family/6 C cancel_child:kid cancel_failed:8 S T at 8 => Some(Closed by: 9)
caller/5 S T at 5 => Some(Open)
caller/8 at 5 => Some(Closed by: 6)
";

/// The run of a history from its first event.
fn begun<W: Workflow>(
    rt: &impl Abort,
    alloc: Global,
    history: &'static str,
    meter: &mut Meter,
) -> Result<Run<W>, RunFault> {
    let key = key(alloc, "nap").expect(rt, "memory");
    Run::from_first(
        alloc,
        key,
        events_after(alloc, history, 0).expect(rt, history),
        meter,
    )
}

/// The result of a run in so many steps.
fn text_of<W: Workflow>(
    rt: &impl Abort,
    alloc: Global,
    steps: u64,
    begun: &Result<Run<W>, RunFault>,
) -> String {
    match begun {
        Ok(run) => run_text(alloc, "", steps, run).expect(rt, "memory"),
        Err(fault) => shown(alloc, fault).expect(rt, "memory"),
    }
}

/// The result of a history from its first event on.
fn begun_text<W: Workflow>(rt: &impl Abort, alloc: Global, history: &'static str) -> String {
    let mut meter = Meter::new();
    let begun = begun::<W>(rt, alloc, history, &mut meter);
    let text = text_of(rt, alloc, meter.count(), &begun);
    drop(begun);
    text
}

/// The run of a history that has no fault.
fn good<W: Workflow>(rt: &impl Abort, alloc: Global, history: &'static str) -> Run<W> {
    begun(rt, alloc, history, &mut Meter::new()).expect(rt, history)
}

/// The status of the thing that the event of this number opened.
fn status_text<W: Workflow>(
    rt: &impl Abort,
    alloc: Global,
    history: &'static str,
    number: EventNo,
) -> String {
    let run = good::<W>(rt, alloc, history);
    let text = shown(alloc, &run.status(number)).expect(rt, "memory");
    drop(run);
    text
}

/// The result of a run that advances.
fn goes_on<W: Workflow>(
    rt: &impl Abort,
    alloc: Global,
    before: &'static str,
    after: &'static str,
) -> String {
    let run = good::<W>(rt, alloc, before);
    advance(alloc, run, after).expect(rt, after)
}

/// The result of the input of a row: the run of a history, a run that advances after ` then `, or
/// the thing that the event of the number after ` at ` opened.
fn given_text<W: Workflow>(rt: &impl Abort, alloc: Global, given: &'static str) -> String {
    if let Some((before, after)) = given.split_once(" then ") {
        return goes_on::<W>(rt, alloc, before, after);
    }
    match given.split_once(" at ") {
        Some((history, at)) => {
            let number = EventNo::new(at.parse::<u64>().expect(rt, at));
            status_text::<W>(rt, alloc, history, number.expect(rt, "a number"))
        }
        None => begun_text::<W>(rt, alloc, given),
    }
}

/// Compares the result of each row.
pub(crate) fn begins<W: Workflow>(rt: &impl Abort, alloc: Global, table: &'static str) {
    for line in table.lines() {
        let (given, wanted) = row(line).expect(rt, line);
        let text = given_text::<W>(rt, alloc, given);
        same(alloc, text.as_str(), wanted).expect(rt, given);
    }
}

#[test]
fn runs_begin_and_go_on(rt: HostRuntime) {
    begins::<All>(&rt, rt.alloc(), BEGUN);
    begins::<All>(&rt, rt.alloc(), ADVANCED);
    begins::<All>(&rt, rt.alloc(), STATUSES);
}

/// The commands that complete the last task of a history, as text.
fn answer_text<W: Workflow>(rt: &impl Abort, alloc: Global, history: &'static str) -> String {
    let run = good::<W>(rt, alloc, history);
    let answer = run.answer(alloc);
    drop(run);
    let text = shown(alloc, &answer).expect(rt, "memory");
    drop(answer);
    text
}

/// How many timers an answer starts, by its text.
fn starts_timers(rt: &impl Abort, answer: &str, wanted: usize) {
    assert!(rt; answer.starts_with("Ok(Complete([StartTimer "));
    assert!(rt; answer.split("StartTimer ").count() == wanted.saturating_add(1));
}

#[test]
fn many_commands_are_kept(rt: HostRuntime) {
    let few = answer_text::<Flood>(&rt, rt.alloc(), "start:Flood S T");
    starts_timers(&rt, few.as_str(), 64);
    let many = answer_text::<Flood>(&rt, rt.alloc(), "start:Flood signal:s*63 S T");
    starts_timers(&rt, many.as_str(), 4_096);
}
