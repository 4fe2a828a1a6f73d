//! Days of a host: what each turn does, which calls it makes, and what it counts.

ghost use Rattle.std.specs.Prelude.{◌≡◌};

use crate::faulty_source::FaultySource;
use crate::tests::fixtures::{Echo, Notebook, NotedSource, Workflows, script};
use crate::tests::host::{closed, next_name, open, sizes};
use std::alloc::Global;
use std::marker::Brand;
use std::process::Abort;
use std::sync::Wait;
use std::sync::ledger::{Blank, Ledger};
use test_support::{cut, key, next_number, push, row, same, shown};
use wh_host::{Config, Counts, Host, Outcome, Seat, Totals};
use wh_poll::{SourceFault, Worker, serve_one, work};
use wh_replay::Run;
use wh_slots::{Held, Permit, SlotKind, TaskName};

/// The setting of a host and its source: the sizes, which call of the source fails, its script and
/// the words of its polls, and what follows answers. Then the steps, and the number of turns of a
/// worker.
#[derive(Drop)]
pub(crate) struct Day {
    pub(crate) config: Config,
    pub(crate) fail_at: u64,
    pub(crate) script: &'static str,
    pub(crate) workflow_polls: &'static str,
    pub(crate) activity_polls: &'static str,
    pub(crate) deeds: &'static str,
    pub(crate) steps: &'static str,
    pub(crate) turns: u64,
}

/// Days of a host. The first line says what a day shows. The second one has its setting: the sizes
/// of the host and which call fails, how many turns a worker does at the end, and after `|` the
/// script, the words of the polls of both kinds, and what follows answers. Then come steps, each
/// with the calls that it makes and its answer. The end has the calls of the worker, the first fault
/// of its source, and the counts.
///
/// The names of the tasks of file 1 begin at 2^64, those of file 2 at 2^65.
const DAYS: &str = "\
A cached run replays its second task alone.
2 1 1 0 1 0 0 | 0 nap => nap
workflow => poll, answer 3 Complete([StartTimer id: nap, seconds: 60]), Ok(Workflow name: TaskName(3), hit: false, steps: 2, outcome: Completed)
workflow => poll, answer 8 Complete([Complete result: []]), Ok(Workflow name: TaskName(8), hit: true, steps: 2, outcome: Completed)
workflow => poll, Ok(Closed)
activity => poll activities, Ok(Closed)
end => None, Counts taken: 2, completed: 2, failed: 0, in_hand: 0, cached: 1, cached_events: 8, workflow: SlotCount free: 2, reserved: 0, held: 0, activity: SlotCount free: 1, reserved: 0, held: 0

Without a cache both tasks are replayed.
2 1 0 0 1 0 0 | 0 nap => nap
workflow => poll, answer 3 Complete([StartTimer id: nap, seconds: 60]), Ok(Workflow name: TaskName(3), hit: false, steps: 2, outcome: Completed)
workflow => poll, whole nap 8, answer 8 Complete([Complete result: []]), Ok(Workflow name: TaskName(8), hit: false, steps: 4, outcome: Completed)
workflow => poll, Ok(Closed)
end => None, Counts taken: 2, completed: 2, failed: 0, in_hand: 0, cached: 0, cached_events: 0, workflow: SlotCount free: 2, reserved: 0, held: 0, activity: SlotCount free: 1, reserved: 0, held: 0

A run that is not cached answers each task from the first event.
2 1 0 0 1 0 0 | 0 a => nap, 1 b => nap, 2 c => nap
workflow => poll, answer 3 Complete([StartTimer id: nap, seconds: 60]), Ok(Workflow name: TaskName(3), hit: false, steps: 2, outcome: Completed)
workflow => poll, answer 18446744073709551619 Complete([StartTimer id: nap, seconds: 60]), Ok(Workflow name: TaskName(18446744073709551619), hit: false, steps: 2, outcome: Completed)
workflow => poll, answer 36893488147419103235 Complete([StartTimer id: nap, seconds: 60]), Ok(Workflow name: TaskName(36893488147419103235), hit: false, steps: 2, outcome: Completed)
workflow => poll, whole a 8, answer 8 Complete([Complete result: []]), Ok(Workflow name: TaskName(8), hit: false, steps: 4, outcome: Completed)
workflow => poll, whole b 8, answer 18446744073709551624 Complete([Complete result: []]), Ok(Workflow name: TaskName(18446744073709551624), hit: false, steps: 4, outcome: Completed)
workflow => poll, whole c 8, answer 36893488147419103240 Complete([Complete result: []]), Ok(Workflow name: TaskName(36893488147419103240), hit: false, steps: 4, outcome: Completed)
workflow => poll, Ok(Closed)
end => None, Counts taken: 6, completed: 6, failed: 0, in_hand: 0, cached: 0, cached_events: 0, workflow: SlotCount free: 2, reserved: 0, held: 0, activity: SlotCount free: 1, reserved: 0, held: 0

A run that is no longer cached answers as one that never was.
2 1 2 0 1 0 0 | 0 a => nap, 1 b => nap, 2 c => nap
workflow => poll, answer 3 Complete([StartTimer id: nap, seconds: 60]), Ok(Workflow name: TaskName(3), hit: false, steps: 2, outcome: Completed)
workflow => poll, answer 18446744073709551619 Complete([StartTimer id: nap, seconds: 60]), Ok(Workflow name: TaskName(18446744073709551619), hit: false, steps: 2, outcome: Completed)
workflow => poll, answer 36893488147419103235 Complete([StartTimer id: nap, seconds: 60]), Ok(Workflow name: TaskName(36893488147419103235), hit: false, steps: 2, outcome: Completed)
workflow => poll, whole a 8, answer 8 Complete([Complete result: []]), Ok(Workflow name: TaskName(8), hit: false, steps: 4, outcome: Completed)
workflow => poll, whole b 8, answer 18446744073709551624 Complete([Complete result: []]), Ok(Workflow name: TaskName(18446744073709551624), hit: false, steps: 4, outcome: Completed)
workflow => poll, whole c 8, answer 36893488147419103240 Complete([Complete result: []]), Ok(Workflow name: TaskName(36893488147419103240), hit: false, steps: 4, outcome: Completed)
workflow => poll, Ok(Closed)
end => None, Counts taken: 6, completed: 6, failed: 0, in_hand: 0, cached: 2, cached_events: 16, workflow: SlotCount free: 2, reserved: 0, held: 0, activity: SlotCount free: 1, reserved: 0, held: 0

An answer that is not sent: the run is cached all the same, and the next task goes on from it.
2 1 1 0 1 2 0 | 0 nap => nap
workflow => poll, Err(Source)
counts => Counts taken: 1, completed: 0, failed: 1, in_hand: 0, cached: 1, cached_events: 3, workflow: SlotCount free: 2, reserved: 0, held: 0, activity: SlotCount free: 1, reserved: 0, held: 0
workflow => poll, answer 8 Complete([Complete result: []]), Ok(Workflow name: TaskName(8), hit: true, steps: 2, outcome: Completed)
workflow => poll, Ok(Closed)
end => None, Counts taken: 2, completed: 1, failed: 1, in_hand: 0, cached: 1, cached_events: 8, workflow: SlotCount free: 2, reserved: 0, held: 0, activity: SlotCount free: 1, reserved: 0, held: 0

An answer that is not sent, and a larger cache.
2 1 100 0 1 2 0 | 0 nap => nap
workflow => poll, Err(Source)
counts => Counts taken: 1, completed: 0, failed: 1, in_hand: 0, cached: 1, cached_events: 3, workflow: SlotCount free: 2, reserved: 0, held: 0, activity: SlotCount free: 1, reserved: 0, held: 0
workflow => poll, answer 8 Complete([Complete result: []]), Ok(Workflow name: TaskName(8), hit: true, steps: 2, outcome: Completed)
workflow => poll, Ok(Closed)
end => None, Counts taken: 2, completed: 1, failed: 1, in_hand: 0, cached: 1, cached_events: 8, workflow: SlotCount free: 2, reserved: 0, held: 0, activity: SlotCount free: 1, reserved: 0, held: 0

A run whose answer does not count is discarded, and the next task asks for the whole history.
2 1 1 0 1 0 0 | 0 nap => nap | next | next | answer 3, discard
workflow => poll, answer 3 Complete([StartTimer id: nap, seconds: 60]), discard 3 after 2, Ok(Workflow name: TaskName(3), hit: false, steps: 2, outcome: Completed)
counts => Counts taken: 1, completed: 1, failed: 0, in_hand: 0, cached: 0, cached_events: 0, workflow: SlotCount free: 2, reserved: 0, held: 0, activity: SlotCount free: 1, reserved: 0, held: 0
workflow => poll, whole nap 8, answer 8 Complete([Complete result: []]), Ok(Workflow name: TaskName(8), hit: false, steps: 4, outcome: Completed)
end => None, Counts taken: 2, completed: 2, failed: 0, in_hand: 0, cached: 1, cached_events: 8, workflow: SlotCount free: 2, reserved: 0, held: 0, activity: SlotCount free: 1, reserved: 0, held: 0

A run that was cached is discarded where the answer to its next task does not count.
2 1 1 0 1 0 0 | 0 nap => nap | next | next | answer 8, discard
workflow => poll, answer 3 Complete([StartTimer id: nap, seconds: 60]), Ok(Workflow name: TaskName(3), hit: false, steps: 2, outcome: Completed)
workflow => poll, answer 8 Complete([Complete result: []]), discard 8 after 2, Ok(Workflow name: TaskName(8), hit: true, steps: 2, outcome: Completed)
end => None, Counts taken: 2, completed: 2, failed: 0, in_hand: 0, cached: 0, cached_events: 0, workflow: SlotCount free: 2, reserved: 0, held: 0, activity: SlotCount free: 1, reserved: 0, held: 0

An answer that is not sent, of a source that caches no run without an answer.
2 1 1 0 1 2 0 | 0 nap => nap | next | next | no answer, discard
workflow => poll, Err(Source)
counts => Counts taken: 1, completed: 0, failed: 1, in_hand: 0, cached: 0, cached_events: 0, workflow: SlotCount free: 2, reserved: 0, held: 0, activity: SlotCount free: 1, reserved: 0, held: 0
workflow => poll, whole nap 8, answer 8 Complete([Complete result: []]), Ok(Workflow name: TaskName(8), hit: false, steps: 4, outcome: Completed)
end => None, Counts taken: 2, completed: 1, failed: 1, in_hand: 0, cached: 1, cached_events: 8, workflow: SlotCount free: 2, reserved: 0, held: 0, activity: SlotCount free: 1, reserved: 0, held: 0

A task that is in hand comes again.
2 2 0 0 1 0 0 | 0 nap => start:Nap signal:s*4 S T | next | 8
hold 7 nap => false
workflow => poll, Ok(Repeated name: TaskName(7))
counts => Counts taken: 1, completed: 0, failed: 0, in_hand: 1, cached: 0, cached_events: 0, workflow: SlotCount free: 1, reserved: 0, held: 1, activity: SlotCount free: 2, reserved: 0, held: 0
hold_activity 8 => true
activity => poll activities, Ok(Repeated name: TaskName(8))
end => None, Counts taken: 2, completed: 0, failed: 0, in_hand: 2, cached: 0, cached_events: 0, workflow: SlotCount free: 1, reserved: 0, held: 1, activity: SlotCount free: 1, reserved: 0, held: 1

Tasks of both kinds, and polls that give none.
1 1 1 0 1 0 0 | 0 w => start:Scripted S*5 T | nothing | 8; nothing
workflow => poll, Ok(Idle)
workflow => poll, answer 7 Complete([]), Ok(Workflow name: TaskName(7), hit: false, steps: 2, outcome: Completed)
activity => poll activities, run, answer 8 Completed([Payload encoding: [], content: [112]]), Ok(Activity name: TaskName(8), outcome: Completed)
workflow => poll, Ok(Closed)
activity => poll activities, Ok(Idle)
counts => Counts taken: 2, completed: 2, failed: 0, in_hand: 0, cached: 1, cached_events: 7, workflow: SlotCount free: 1, reserved: 0, held: 0, activity: SlotCount free: 1, reserved: 0, held: 0
activity => poll activities, Ok(Closed)
workflow => poll, Ok(Closed)
end => None, Counts taken: 2, completed: 2, failed: 0, in_hand: 0, cached: 1, cached_events: 7, workflow: SlotCount free: 1, reserved: 0, held: 0, activity: SlotCount free: 1, reserved: 0, held: 0

A source whose poll of workflow tasks fails.
1 1 1 0 1 1 0 | 0 nap => nap
workflow => Err(Source)
end => None, Counts taken: 0, completed: 0, failed: 0, in_hand: 0, cached: 0, cached_events: 0, workflow: SlotCount free: 1, reserved: 0, held: 0, activity: SlotCount free: 1, reserved: 0, held: 0

A source whose poll of activity tasks fails.
1 1 1 0 1 1 0 | 0 nap => nap
activity => Err(Source)
end => None, Counts taken: 0, completed: 0, failed: 0, in_hand: 0, cached: 0, cached_events: 0, workflow: SlotCount free: 1, reserved: 0, held: 0, activity: SlotCount free: 1, reserved: 0, held: 0

A run in hand is evicted.
1 1 1 0 1 0 0 | 0 nap => nap | next | next | answer 3, evict nap
workflow => poll, answer 3 Complete([StartTimer id: nap, seconds: 60]), evict nap Marked, Ok(Workflow name: TaskName(3), hit: false, steps: 2, outcome: Completed)
end => None, Counts taken: 1, completed: 1, failed: 0, in_hand: 0, cached: 0, cached_events: 0, workflow: SlotCount free: 1, reserved: 0, held: 0, activity: SlotCount free: 1, reserved: 0, held: 0

No place is free, and then the host drains: the source is not polled.
1 1 1 0 1 0 0 | 0 nap => nap | next | 9
hold 7 nap => false
workflow => Ok(NoSlot)
hold_activity 8 => true
activity => Ok(NoSlot)
drain => ()
workflow => Ok(Draining)
activity => Ok(Draining)
finish => true
finish => true
workflow => Ok(Draining)
activity => Ok(Draining)
end => None, Counts taken: 2, completed: 2, failed: 0, in_hand: 0, cached: 0, cached_events: 0, workflow: SlotCount free: 1, reserved: 0, held: 0, activity: SlotCount free: 1, reserved: 0, held: 0

The cached runs hold at most three events together.
2 1 10 3 1 0 0 | 0 a => nap, 1 b => nap
workflow => poll, answer 3 Complete([StartTimer id: nap, seconds: 60]), Ok(Workflow name: TaskName(3), hit: false, steps: 2, outcome: Completed)
counts => Counts taken: 1, completed: 1, failed: 0, in_hand: 0, cached: 1, cached_events: 3, workflow: SlotCount free: 2, reserved: 0, held: 0, activity: SlotCount free: 1, reserved: 0, held: 0
workflow => poll, answer 18446744073709551619 Complete([StartTimer id: nap, seconds: 60]), Ok(Workflow name: TaskName(18446744073709551619), hit: false, steps: 2, outcome: Completed)
counts => Counts taken: 2, completed: 2, failed: 0, in_hand: 0, cached: 1, cached_events: 3, workflow: SlotCount free: 2, reserved: 0, held: 0, activity: SlotCount free: 1, reserved: 0, held: 0
workflow => poll, whole a 8, answer 8 Complete([Complete result: []]), Ok(Workflow name: TaskName(8), hit: false, steps: 4, outcome: Completed)
counts => Counts taken: 3, completed: 3, failed: 0, in_hand: 0, cached: 1, cached_events: 3, workflow: SlotCount free: 2, reserved: 0, held: 0, activity: SlotCount free: 1, reserved: 0, held: 0
workflow => poll, answer 18446744073709551624 Complete([Complete result: []]), Ok(Workflow name: TaskName(18446744073709551624), hit: true, steps: 2, outcome: Completed)
end => None, Counts taken: 4, completed: 4, failed: 0, in_hand: 0, cached: 0, cached_events: 0, workflow: SlotCount free: 2, reserved: 0, held: 0, activity: SlotCount free: 1, reserved: 0, held: 0

After events that are no task the run is given back.
1 1 1 0 1 0 0 | 0 nap => nap | next; nap nap/6 after 3
workflow => poll, answer 3 Complete([StartTimer id: nap, seconds: 60]), Ok(Workflow name: TaskName(3), hit: false, steps: 2, outcome: Completed)
workflow => poll, answer 6 Fail(NotATask), Ok(Workflow name: TaskName(6), hit: true, steps: 0, outcome: Failed)
workflow => poll, answer 8 Complete([Complete result: []]), Ok(Workflow name: TaskName(8), hit: true, steps: 2, outcome: Completed)
end => None, Counts taken: 3, completed: 2, failed: 1, in_hand: 0, cached: 1, cached_events: 8, workflow: SlotCount free: 1, reserved: 0, held: 0, activity: SlotCount free: 1, reserved: 0, held: 0

A run that comes out of the cache goes on as it would have.
2 1 1 0 1 0 0 | 0 nap => nap/3
workflow => poll, answer 3 Complete([StartTimer id: nap, seconds: 60]), Ok(Workflow name: TaskName(3), hit: false, steps: 2, outcome: Completed)
workflow => poll, Ok(Closed)
advance nap/8 => 2 steps, holds 8, [Complete result: []]
end => None, Counts taken: 2, completed: 2, failed: 0, in_hand: 0, cached: 0, cached_events: 0, workflow: SlotCount free: 2, reserved: 0, held: 0, activity: SlotCount free: 1, reserved: 0, held: 0

A run that comes out of the cache refuses events with a gap before them.
2 1 1 0 1 0 0 | 0 nap => nap/3
workflow => poll, answer 3 Complete([StartTimer id: nap, seconds: 60]), Ok(Workflow name: TaskName(3), hit: false, steps: 2, outcome: Completed)
workflow => poll, Ok(Closed)
advance nap/3 after 2 => Gap, 0 steps, holds 3, [StartTimer id: nap, seconds: 60]
end => None, Counts taken: 2, completed: 2, failed: 0, in_hand: 0, cached: 0, cached_events: 0, workflow: SlotCount free: 2, reserved: 0, held: 0, activity: SlotCount free: 1, reserved: 0, held: 0

A run that comes out of the cache refuses events that end in no task.
2 1 1 0 1 0 0 | 0 nap => nap/3
workflow => poll, answer 3 Complete([StartTimer id: nap, seconds: 60]), Ok(Workflow name: TaskName(3), hit: false, steps: 2, outcome: Completed)
workflow => poll, Ok(Closed)
advance nap/6 after 3 => NotATask, 0 steps, holds 3, [StartTimer id: nap, seconds: 60]
end => None, Counts taken: 2, completed: 2, failed: 0, in_hand: 0, cached: 0, cached_events: 0, workflow: SlotCount free: 2, reserved: 0, held: 0, activity: SlotCount free: 1, reserved: 0, held: 0";

/// Closes a host once each seat is there, and returns its last counts, which its seats made
/// together.
pub(crate) fn close<R: Wait + Abort, T: Ledger, C: Ledger, F: Ledger>(
    rt: &R,
    host: Host<Workflows, T, C, F>,
    seats: Vec<Seat<T, C, F>>,
    mut seat: Seat<T, C, F>,
) -> Counts {
    let counts = host.lock(rt).counts(&mut seat);
    let totals = closed(rt, host, seats, seat);
    let sums = Totals {
        taken: counts.taken,
        completed: counts.completed,
        failed: counts.failed,
        in_hand: counts.in_hand,
    };
    assert!(rt; totals == sums);
    counts
}

/// The end of a day, as text.
fn end_text(
    rt: &impl Abort,
    alloc: Global,
    calls: String,
    fault: Option<SourceFault>,
    counts: &Counts,
) -> String {
    let counts = shown(alloc, counts).expect(rt, "memory");
    format!(in alloc; "{calls}{fault:?}, {counts}").expect(rt, "memory")
}

/// The source of a day.
fn noted_source<'b, 'r, 'h, R: Wait + Abort, T: Ledger, C: Ledger, F: Ledger>(
    book: &'b Notebook<'r, 'h, R, T, C, F>,
    day: &Day,
) -> FaultySource<NotedSource<'b, 'r, 'h, R, T, C, F>> {
    let noted = NotedSource {
        book,
        script: script(book.rt, book.alloc, day.script),
        workflow_polls: day.workflow_polls,
        activity_polls: day.activity_polls,
    };
    FaultySource::new(noted, day.fail_at)
}

/// The calls of one turn, and its answer.
fn turn<R: Wait + Abort, T: Ledger, C: Ledger, F: Ledger>(
    book: &Notebook<'_, '_, R, T, C, F>,
    seat: &mut Seat<T, C, F>,
    source: &mut FaultySource<NotedSource<'_, '_, '_, R, T, C, F>>,
    kind: SlotKind,
) -> String {
    let (rt, alloc) = (book.rt, book.alloc);
    let mut handler = Echo { book };
    let served = serve_one(rt, alloc, book.host, seat, source, &mut handler, kind);
    let mut text = book.calls();
    text.push_str(shown(alloc, &served).expect(rt, "memory").as_str())
        .expect(rt, "memory");
    text
}

/// Reserves a slot.
fn reserved<R: Wait + Abort, T: Ledger, C: Ledger, F: Ledger>(
    book: &Notebook<'_, '_, R, T, C, F>,
    kind: SlotKind,
) -> Permit {
    let reserved = book.host.lock(book.rt).reserve(kind);
    reserved.expect(book.rt, "reserve")
}

/// Holds a workflow task, and returns its run, if one is cached.
fn hold<R: Wait + Abort, T: Ledger, C: Ledger, F: Ledger>(
    book: &Notebook<'_, '_, R, T, C, F>,
    seat: &mut Seat<T, C, F>,
    tasks: &mut Vec<Held>,
    name: TaskName,
    run: &str,
) -> Option<Run<Workflows>> {
    let rt = book.rt;
    let key = key(book.alloc, run).expect(rt, "memory");
    let permit = reserved(book, SlotKind::Workflow);
    let used = book.host.lock(rt).use_workflow(permit, name, key, seat);
    let (held, run) = used.expect(rt, "use");
    push(tasks, held).expect(rt, "memory");
    run
}

/// Finishes the task that is held last, and returns whether it could.
fn finish<R: Wait + Abort, T: Ledger, C: Ledger, F: Ledger>(
    book: &Notebook<'_, '_, R, T, C, F>,
    seat: &mut Seat<T, C, F>,
    tasks: &mut Vec<Held>,
) -> bool {
    let held = tasks.pop().expect(book.rt, "a task");
    let finished = book
        .host
        .lock(book.rt)
        .finish(held, Outcome::Completed, seat);
    finished.is_ok()
}

/// Takes the cached run of `nap` with its next task, finishes that, and advances the run.
fn advance<R: Wait + Abort, T: Ledger, C: Ledger, F: Ledger>(
    book: &Notebook<'_, '_, R, T, C, F>,
    seat: &mut Seat<T, C, F>,
    tasks: &mut Vec<Held>,
    history: &'static str,
) -> String {
    let (rt, alloc) = (book.rt, book.alloc);
    let run = hold(book, seat, tasks, TaskName(2), "nap");
    assert!(rt; finish(book, seat, tasks));
    let run = run.expect(rt, "the run is cached");
    test_support::advance(alloc, run, history).expect(rt, history)
}

/// The counts, as text.
fn counts_text<R: Wait + Abort, T: Ledger, C: Ledger, F: Ledger>(
    book: &Notebook<'_, '_, R, T, C, F>,
    seat: &mut Seat<T, C, F>,
) -> String {
    let counts = book.host.lock(book.rt).counts(seat);
    shown(book.alloc, &counts).expect(book.rt, "memory")
}

/// Holds a workflow task, by its name and its run, and returns whether the run was cached.
fn hold_text<R: Wait + Abort, T: Ledger, C: Ledger, F: Ledger>(
    book: &Notebook<'_, '_, R, T, C, F>,
    seat: &mut Seat<T, C, F>,
    tasks: &mut Vec<Held>,
    task: &'static str,
) -> String {
    let mut run = task;
    let name = next_name(book.rt, &mut run);
    let run = hold(book, seat, tasks, name, run);
    let is_cached = run.is_some();
    drop(run);
    shown(book.alloc, &is_cached).expect(book.rt, "memory")
}

/// Holds an activity task, by its name, and returns that it could.
fn hold_activity<R: Wait + Abort, T: Ledger, C: Ledger, F: Ledger>(
    book: &Notebook<'_, '_, R, T, C, F>,
    seat: &mut Seat<T, C, F>,
    tasks: &mut Vec<Held>,
    task: &'static str,
) -> String {
    let rt = book.rt;
    let mut rest = task;
    let permit = reserved(book, SlotKind::Activity);
    let name = next_name(rt, &mut rest);
    let used = book.host.lock(rt).use_activity(permit, name, seat);
    push(tasks, used.expect(rt, "use")).expect(rt, "memory");
    String::from_str(book.alloc, "true").expect(rt, "memory")
}

/// Drains the host.
fn drain<R: Wait + Abort, T: Ledger, C: Ledger, F: Ledger>(
    book: &Notebook<'_, '_, R, T, C, F>,
) -> String {
    book.host.lock(book.rt).drain();
    String::from_str(book.alloc, "()").expect(book.rt, "memory")
}

/// The answer of a step: a word, and mostly what it is about.
fn answered<R: Wait + Abort, T: Ledger, C: Ledger, F: Ledger>(
    book: &Notebook<'_, '_, R, T, C, F>,
    seat: &mut Seat<T, C, F>,
    source: &mut FaultySource<NotedSource<'_, '_, '_, R, T, C, F>>,
    tasks: &mut Vec<Held>,
    step: &'static str,
) -> String {
    let (word, rest) = step.split_once(' ').unwrap_or((step, ""));
    match word {
        "workflow" => turn(book, seat, source, SlotKind::Workflow),
        "activity" => turn(book, seat, source, SlotKind::Activity),
        "counts" => counts_text(book, seat),
        "advance" => advance(book, seat, tasks, rest),
        "hold" => hold_text(book, seat, tasks, rest),
        "hold_activity" => hold_activity(book, seat, tasks, rest),
        "finish" => shown(book.alloc, &finish(book, seat, tasks)).expect(book.rt, "memory"),
        "drain" => drain(book),
        _ => book.rt.panic(step),
    }
}

/// Takes the steps of a day, and compares their answers.
fn take_steps<R: Wait + Abort, T: Ledger, C: Ledger, F: Ledger>(
    book: &Notebook<'_, '_, R, T, C, F>,
    seat: &mut Seat<T, C, F>,
    day: &Day,
) {
    let mut source = noted_source(book, day);
    let mut tasks = Vec::new(book.alloc);
    for line in day.steps.lines() {
        let (step, wanted) = row(line).expect(book.rt, line);
        let text = answered(book, seat, &mut source, &mut tasks, step);
        same(book.alloc, text.as_str(), wanted).expect(book.rt, step);
    }
}

/// What a worker returns: its seat, and the first fault of its source.
pub(crate) fn left<T: Ledger, C: Ledger, F: Ledger, S: Drop>(
    worker: Worker<T, C, F, S>,
) -> (Seat<T, C, F>, Option<SourceFault>) {
    (worker.seat, worker.fault)
}

/// Takes the steps of a day, and then lets a worker do so many turns over its own source. Returns
/// the seat, with the first fault of the source and the calls of the worker.
fn worked<R: Wait + Abort, T: Ledger, C: Ledger, F: Ledger>(
    book: &Notebook<'_, '_, R, T, C, F>,
    mut seat: Seat<T, C, F>,
    day: &Day,
) -> (Seat<T, C, F>, Option<SourceFault>, String) {
    take_steps(book, &mut seat, day);
    let source = noted_source(book, day);
    let handler = Echo { book };
    let (rt, alloc) = (book.rt, book.alloc);
    let worker = work(rt, alloc, book.host, seat, source, handler, day.turns);
    let (seat, fault) = left(worker);
    (seat, fault, book.calls())
}

/// Spends a day, closes the host, and returns the end of the day.
fn spend<R: Wait + Abort, T: Ledger, C: Ledger, F: Ledger>(
    rt: &R,
    alloc: Global,
    day: &Day,
    taken: Blank,
    completed: Blank,
    failed: Blank,
) -> String
    requires taken { (taken.name ≡ T.name) × (taken.parts ≡ T.parts) × (taken.parts ≡ day.now.config.seats) }
    requires completed { (completed.name ≡ C.name) × (completed.parts ≡ C.parts)
        × (completed.parts ≡ day.now.config.seats) }
    requires failed { (failed.name ≡ F.name) × (failed.parts ≡ F.parts) × (failed.parts ≡ day.now.config.seats) }
{
    let (host, mut seats) = open::<R, Workflows, T, C, F>(
        rt, alloc, day.config, taken, completed, failed,
    );
    let seat = seats.pop().expect(rt, "seat");
    let book = Notebook::new(rt, alloc, &host, day.deeds);
    let (seat, fault, calls) = worked(&book, seat, day);
    drop(book);
    let counts = close(rt, host, seats, seat);
    end_text(rt, alloc, calls, fault, &counts)
}

/// Spends a day with a host of one seat.
pub(crate) fn spent<R: Wait + Abort>(rt: &R, alloc: Global, day: &Day) -> String
    requires { day.now.config.seats ≡ 1 }
{
    spend::<R, Brand, Brand, Brand>(rt, alloc, day, Blank::new(1), Blank::new(1), Blank::new(1))
}

/// Spends a day of a list, and compares its end.
fn passes<R: Wait + Abort>(rt: &R, alloc: Global, given: &'static str) {
    let (mut steps, end) = given.split_once("\nend => ").expect(rt, given);
    let title = cut(&mut steps, "\n");
    let mut words = cut(&mut steps, "\n");
    let config = sizes(rt, &mut words);
    let fail_at = next_number(&mut words).expect(rt, "a number");
    let turns = cut(&mut words, " | ").parse::<u64>().expect(rt, "a number");
    let day = Day {
        config,
        fail_at,
        script: cut(&mut words, " | "),
        workflow_polls: cut(&mut words, " | "),
        activity_polls: cut(&mut words, " | "),
        deeds: words,
        steps,
        turns,
    };
    assert!(rt; day.config.seats == 1);
    let text = spent(rt, alloc, &day);
    same(alloc, text.as_str(), end).expect(rt, title);
}

/// Spends days, and compares the end of each.
pub(crate) fn pass<R: Wait + Abort>(rt: &R, alloc: Global, days: &'static str) {
    for day in days.split("\n\n") {
        passes(rt, alloc, day);
    }
}

#[test]
fn days_of_a_host(rt: HostRuntime) {
    pass(&rt, rt.alloc(), DAYS);
}
