//! Runs, how often they are stepped, and what replay finds of histories.

use std::alloc::Global;
use std::process::Abort;
use test_support::{Still, events_after, key, row, same, shown};
use wh_events::Event;
use wh_replay::{Run, replay_history};
use wh_sample_workflows::All;
use wh_workflow::{Meter, Workflow};

/// The steps up to the second event of a history, and those from there to its end: the time and the
/// start, and then the time and the signal, with the start before them if the first task did not
/// complete.
const STEPS: &str = "\
start:Still T C signal:s T => 2, then 4, holds 5
start:Still T task_timed_out signal:s T => 2, then 5, holds 5
";

/// A run of the first two events of a history, and its answer.
fn first_task<W: Workflow>(
    rt: &impl Abort,
    alloc: Global,
    history: &'static str,
    meter: &mut Meter,
) -> Run<W> {
    let mut events = events_after(alloc, history, 0).expect(rt, history);
    events.truncate(2);
    Run::from_first(alloc, key(alloc, "w").expect(rt, "memory"), events, meter).expect(rt, history)
}

/// A run after an advance without a fault.
fn advanced<W: Workflow>(
    rt: &impl Abort,
    alloc: Global,
    run: Run<W>,
    next: Vec<Event>,
    meter: &mut Meter,
) -> Run<W> {
    match run.advance(alloc, next, meter) {
        Ok(run) => run,
        Err(_) => panic!(rt; "no advance"),
    }
}

/// The steps of a run that advances after the first two events of a history.
fn steps<W: Workflow>(rt: &impl Abort, alloc: Global, history: &'static str) -> String {
    let mut meter = Meter::new();
    let run = first_task::<W>(rt, alloc, history, &mut meter);
    let first = meter.count();
    let run = advanced(
        rt,
        alloc,
        run,
        events_after(alloc, history, 2).expect(rt, history),
        &mut meter,
    );
    let then = meter.count();
    let held = run.held_len();
    drop(run);
    format!(in alloc; "{first}, then {then}, holds {held}").expect(rt, "memory")
}

#[test]
fn only_a_lost_task_is_stepped_again(rt: HostRuntime) {
    for line in STEPS.lines() {
        let (history, wanted) = row(line).expect(&rt, line);
        let text = steps::<Still>(&rt, rt.alloc(), history);
        same(rt.alloc(), text.as_str(), wanted).expect(&rt, history);
    }
}

/// The copied answer of the first task of a run, in words.
fn copied_answer<W: Workflow>(rt: &impl Abort, alloc: Global, history: &'static str) -> String {
    let run = first_task::<W>(rt, alloc, history, &mut Meter::new());
    let answer = run.answer(alloc).expect(rt, "memory");
    drop(run);
    let copy = answer.try_copy(alloc);
    drop(answer);
    let text = shown(alloc, &copy).expect(rt, "memory");
    drop(copy);
    text
}

#[test]
fn an_answer_is_copied(rt: HostRuntime) {
    let copy = copied_answer::<Still>(&rt, rt.alloc(), "start:Still T");
    same(rt.alloc(), copy.as_str(), "Ok(Complete([]))").expect(&rt, "a copy");
}

/// Histories that end anywhere.
const ENDED: &str = "\
nap => Ok(ReplayedTasks tasks: 2, live: false)
nap/3 => Ok(ReplayedTasks tasks: 1, live: true)
nap/1 => Ok(ReplayedTasks tasks: 0, live: false)
nap/3 attributes_upserted => Ok(ReplayedTasks tasks: 1, live: true)
nap/3 signal:s => Ok(ReplayedTasks tasks: 0, live: false)
racer => Ok(ReplayedTasks tasks: 4, live: false)
racer/19 => Ok(ReplayedTasks tasks: 4, live: true)
 => Err(Fault(Place at: 1, fault: FirstNotStart))
S => Err(Fault(Place at: 1, fault: FirstNotStart))
start:Nope => Err(Fault(Workflow at: 1, fault: UnknownWorkflow))
greet | 'name':'greet' -> 'name':'greets' => Err(Fault(Mismatch at: 3, mismatch: Different event: 5))
racer/5 => Err(Fault(Mismatch at: 3, mismatch: CommandExtra index: 2))
nap/5 timer:x => Err(Fault(Mismatch at: 3, mismatch: CommandMissing event: 6))
nap/8 task_failed S T C failed => Err(Fault(Mismatch at: 11, mismatch: Different event: 13))
nap/5 timer_fired:3 => Err(Fault(Place at: 6, fault: WrongKindRef))
start:Nap timer:nap S T => Err(Fault(Workflow at: 4, fault: IdInUse))
";

/// What replay finds of a history.
const REPLAYED: &str = "\
start:Still T C signal:s T => Ok(ReplayedTasks tasks: 2, live: true)
C signal:s T => Err(Fault(Place at: 1, fault: FirstNotStart))
C signal:s T | 'eventId':'3' -> 'eventId':'5' | 'eventId':'2' -> 'eventId':'4' | 'eventId':'1' -> 'eventId':'3' => Err(Fault(Place at: 1, fault: FirstNotStart))
";

/// What replay finds of a history, or its fault.
fn replayed_text<W: Workflow>(rt: &impl Abort, alloc: Global, history: &'static str) -> String {
    shown(
        alloc,
        &replay_history::<W>(alloc, events_after(alloc, history, 0).expect(rt, history)),
    )
    .expect(rt, "memory")
}

/// Replays the history of each row.
fn replays<W: Workflow>(rt: &impl Abort, alloc: Global, table: &'static str) {
    for line in table.lines() {
        let (history, wanted) = row(line).expect(rt, line);
        let text = replayed_text::<W>(rt, alloc, history);
        same(alloc, text.as_str(), wanted).expect(rt, history);
    }
}

#[test]
fn histories_are_replayed(rt: HostRuntime) {
    replays::<Still>(&rt, rt.alloc(), REPLAYED);
    replays::<All>(&rt, rt.alloc(), ENDED);
}
