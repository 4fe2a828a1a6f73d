//! A host's slots, runs and counts through a day of tasks.

ghost use Rattle.std.specs.Prelude.{◌≡◌};

use crate::tests::cache::{held_len, put_word, run_of};
use std::alloc::Global;
use std::marker::Brand;
use std::process::Abort;
use std::sync::Wait;
use std::sync::ledger::{Blank, Ledger};
use test_support::{Still, key, next_number, push, row, same, shown, wants};
use wh_host::{Config, Counts, Given, Host, HostState, OpenFault, Outcome, Seat, Totals};
use wh_slots::{Held, Permit, SlotKind, TaskName, UseFault};
use wh_workflow::Workflow;

/// Days of a host: its sizes, followed by its steps before it is closed. The end is how many events
/// of run `c` its cache then holds, and its counts.
///
/// On the first day, of two tasks of one run the longer run stays cached. A cached run is evicted,
/// one that is held is marked, and a run with another key is not the task's. The least recently
/// used run is evicted. A name is held once. A held task stays held.
const DAYS: &str = "\
2 1 2 0 3
hold 1 a => 0
hold 2 a => 0
give 1 a start:Still S*4 T => kept
give 2 a start:Still S T => shorter
give 2 a start:Still S*4 T => shorter
finish 1 => true
fail 2 => true
hold 1 a => 6
give 1 a start:Still S*4 T => kept
finish 1 => true
evict a => Evicted
evict a => NotCached
hold 1 a => 0
give 1 b start:Still S T => not held
evict a => Marked
give 1 a start:Still S T => marked
finish 1 => true
evict a => NotCached
hold 1 a => 0
give 1 a start:Still S T => kept
finish 1 => true
hold 1 b => 0
give 1 b start:Still S T => kept
finish 1 => true
hold 1 c => 0
give 1 c start:Still S T => gone a
finish 1 => true
hold 1 b => 3
give 1 b start:Still S*4 T => kept
finish 1 => true
hold 1 a => 0
give 1 a start:Still S T => gone c
finish 1 => true
hold 1 c => 0
give 1 c start:Still S T => gone b
finish 1 => true
hold 7 a => 3
repeat 7 b => TaskInHand
finish 7 => true
hold 9 h => 0
end => 3 events, Totals taken: 13, completed: 11, failed: 1, in_hand: 1

2 1 0 0 1
hold 1 a => 0
give 1 a start:Still S T => off
finish 1 => true
hold 1 b => 0
give 1 b start:Still S T => off
finish 1 => true
hold 1 a => 0
give 1 a start:Still S*4 T => off
finish 1 => true
counts => taken 3, completed 3, cached 0, cached events 0
end => 0 events, Totals taken: 4, completed: 4, failed: 0, in_hand: 0";

/// Reads the sizes of a host: its slots for workflow tasks and for activity tasks, how many runs
/// and how many events its cache holds, and its seats. Leaves the words after them.
pub(crate) fn sizes(rt: &impl Abort, words: &mut &'static str) -> Config {
    let workflow_slots = next_number(words).expect(rt, "a number") as usize;
    let activity_slots = next_number(words).expect(rt, "a number") as usize;
    let cache = next_number(words).expect(rt, "a number") as usize;
    let cache_events = next_number(words).expect(rt, "a number");
    let seats = next_number(words).expect(rt, "a number") as usize;
    Config {
        workflow_slots,
        activity_slots,
        cache,
        cache_events,
        seats,
    }
}

/// A task that is held.
#[derive(Drop)]
struct Task {
    name: TaskName,
    held: Held,
}

/// Reads the name of a task in a step. Leaves the words after it.
pub(crate) fn next_name(rt: &impl Abort, words: &mut &'static str) -> TaskName {
    TaskName(u128::from(next_number(words).expect(rt, "a number")))
}

/// The place of the task of this name among those that are held.
fn place_of(rt: &impl Abort, tasks: &[Task], name: TaskName) -> usize {
    for place in 0..tasks.len() {
        if tasks[place].name == name {
            return place;
        }
    }
    panic!(rt; "no such task")
}

/// The answer to a run that is given back.
fn given_word(rt: &impl Abort, alloc: Global, given: &Given<Still>) -> String {
    let word = match given {
        Given::Put(put) => return put_word(rt, alloc, put),
        Given::Marked(_) => "marked",
        Given::NotHeld(_) => "not held",
    };
    String::from_str(alloc, word).expect(rt, "memory")
}

/// Reserves a slot.
fn reserve<T: Ledger, C: Ledger, F: Ledger>(
    rt: &impl Abort,
    state: &mut HostState<Still, T, C, F>,
    kind: SlotKind,
) -> Permit {
    state.reserve(kind).expect(rt, "reserve")
}

/// Frees a reserved slot.
fn release<T: Ledger, C: Ledger, F: Ledger>(
    rt: &impl Abort,
    state: &mut HostState<Still, T, C, F>,
    permit: Permit,
) {
    state.release(permit).expect(rt, "release");
}

/// Uses a reserved slot for a task of a run: how many events its cached run holds, 0 if there is
/// none, or why it can't be used.
fn use_place<T: Ledger, C: Ledger, F: Ledger>(
    rt: &impl Abort,
    alloc: Global,
    state: &mut HostState<Still, T, C, F>,
    seat: &mut Seat<T, C, F>,
    permit: Permit,
    name: TaskName,
    run: &str,
) -> Result<(Held, usize), (Permit, UseFault)> {
    let key = key(alloc, run).expect(rt, "memory");
    match state.use_workflow(permit, name, key, seat) {
        Ok((held, run)) => Ok((held, held_len(run).unwrap_or(0))),
        Err((permit, _key, fault)) => Err((permit, fault)),
    }
}

/// Holds the task of a run in a reserved slot, and returns how many events its run holds.
fn hold<T: Ledger, C: Ledger, F: Ledger>(
    rt: &impl Abort,
    alloc: Global,
    state: &mut HostState<Still, T, C, F>,
    seat: &mut Seat<T, C, F>,
    tasks: &mut Vec<Task>,
    permit: Permit,
    name: TaskName,
    run: &str,
) -> usize {
    let Ok((held, length)) = use_place(rt, alloc, state, seat, permit, name, run) else {
        panic!(rt; "use")
    };
    push(tasks, Task { name, held }).expect(rt, "memory");
    length
}

/// The second use of a name is refused, the permit comes back, and nothing is counted.
fn repeat<T: Ledger, C: Ledger, F: Ledger>(
    rt: &impl Abort,
    alloc: Global,
    state: &mut HostState<Still, T, C, F>,
    seat: &mut Seat<T, C, F>,
    name: TaskName,
    run: &str,
) -> UseFault {
    let before = state.counts(seat);
    let permit = reserve(rt, state, SlotKind::Workflow);
    let Err((permit, fault)) = use_place(rt, alloc, state, seat, permit, name, run) else {
        panic!(rt; "a name is in hand twice")
    };
    release(rt, state, permit);
    assert!(rt; state.counts(seat) == before);
    fault
}

/// The held slot of the task of this name.
fn held_of<'a>(rt: &impl Abort, tasks: &'a [Task], name: TaskName) -> &'a Held {
    let task = tasks.get(place_of(rt, tasks, name));
    &task.expect(rt, "no such task").held
}

/// Gives a run back with a held task.
fn give<T: Ledger, C: Ledger, F: Ledger>(
    rt: &impl Abort,
    alloc: Global,
    state: &mut HostState<Still, T, C, F>,
    held: &Held,
    run: &'static str,
) -> String {
    let given = state.give_run(held, run_of(rt, alloc, run));
    let word = given_word(rt, alloc, &given);
    drop(given);
    word
}

/// Ends the task of a name.
fn finish<T: Ledger, C: Ledger, F: Ledger>(
    rt: &impl Abort,
    state: &mut HostState<Still, T, C, F>,
    seat: &mut Seat<T, C, F>,
    tasks: &mut Vec<Task>,
    name: TaskName,
    outcome: Outcome,
) -> bool {
    let place = place_of(rt, tasks.as_slice(), name);
    assert!(rt; place < tasks.len());
    let task = tasks.remove(place);
    state.finish(task.held, outcome, seat).is_ok()
}

/// The counts of a host, as text.
fn counts_text(rt: &impl Abort, alloc: Global, counts: &Counts) -> String {
    let text = format!(in alloc;
        "taken {}, completed {}, cached {}, cached events {}",
        counts.taken, counts.completed, counts.cached, counts.cached_events
    );
    text.expect(rt, "memory")
}

/// Holds the task of a run in the next slot, and returns how many events its run holds.
fn hold_next<T: Ledger, C: Ledger, F: Ledger>(
    rt: &impl Abort,
    alloc: Global,
    state: &mut HostState<Still, T, C, F>,
    seat: &mut Seat<T, C, F>,
    tasks: &mut Vec<Task>,
    name: TaskName,
    run: &str,
) -> usize {
    let permit = reserve(rt, state, SlotKind::Workflow);
    hold(rt, alloc, state, seat, tasks, permit, name, run)
}

/// The answer of a host to a step about the task of a name: a word, the name, and mostly a run.
fn task_step<T: Ledger, C: Ledger, F: Ledger>(
    rt: &impl Abort,
    alloc: Global,
    state: &mut HostState<Still, T, C, F>,
    seat: &mut Seat<T, C, F>,
    tasks: &mut Vec<Task>,
    word: &str,
    rest: &'static str,
) -> String {
    let mut run = rest;
    let name = next_name(rt, &mut run);
    if word == "give" {
        return give(rt, alloc, state, held_of(rt, tasks.as_slice(), name), run);
    }
    if word == "repeat" {
        return shown(alloc, &repeat(rt, alloc, state, seat, name, run)).expect(rt, "memory");
    }
    if word == "hold" {
        let found = hold_next(rt, alloc, state, seat, tasks, name, run);
        return shown(alloc, &found).expect(rt, "memory");
    }
    let outcome = if word == "finish" {
        Outcome::Completed
    } else {
        Outcome::Failed
    };
    shown(alloc, &finish(rt, state, seat, tasks, name, outcome)).expect(rt, "memory")
}

/// The answer of a host to a step.
fn answered<T: Ledger, C: Ledger, F: Ledger>(
    rt: &impl Abort,
    alloc: Global,
    state: &mut HostState<Still, T, C, F>,
    seat: &mut Seat<T, C, F>,
    tasks: &mut Vec<Task>,
    step: &'static str,
) -> String {
    match step.split_once(' ') {
        None => counts_text(rt, alloc, &state.counts(seat)),
        Some(("evict", run)) => shown(
            alloc,
            &state.evict(&key(alloc, run).expect(rt, "memory")),
        ).expect(rt, "memory"),
        Some((word, rest)) => task_step(rt, alloc, state, seat, tasks, word, rest),
    }
}

/// Each step is answered as its line says.
fn follows<T: Ledger, C: Ledger, F: Ledger>(
    rt: &impl Abort,
    alloc: Global,
    state: &mut HostState<Still, T, C, F>,
    seat: &mut Seat<T, C, F>,
    tasks: &mut Vec<Task>,
    steps: &'static str,
) {
    for line in steps.lines() {
        let (step, wanted) = row(line).expect(rt, line);
        let answer = answered(rt, alloc, state, seat, tasks, step);
        same(alloc, answer.as_str(), wanted).expect(rt, step);
    }
}

/// Slots of activities are numbered from 1, until the host drains.
fn places_are_numbered<T: Ledger, C: Ledger, F: Ledger>(
    rt: &impl Abort,
    alloc: Global,
    state: &mut HostState<Still, T, C, F>,
) {
    let kind = SlotKind::Activity;
    let first = reserve(rt, state, kind);
    assert!(rt; first.number() == 1);
    wants(alloc, state.reserve(kind).err(), "Some(NoSlot)").expect(rt, "full");
    release(rt, state, first);
    let second = reserve(rt, state, kind);
    assert!(rt; second.number() == 2);
    state.drain();
    release(rt, state, second);
    wants(alloc, state.reserve(kind).err(), "Some(Draining)").expect(rt, "drained");
}

/// How many events of run `c` the last task holds, in a slot that was reserved before the host
/// drained.
fn last_task<R: Wait + Abort, T: Ledger, C: Ledger, F: Ledger>(
    rt: &R,
    alloc: Global,
    host: &Host<Still, T, C, F>,
    seat: &mut Seat<T, C, F>,
    tasks: &mut Vec<Task>,
    permit: Permit,
) -> usize {
    let mut guard = host.lock(rt);
    let state = &mut *guard;
    let name = TaskName(10);
    let found = hold(rt, alloc, state, seat, tasks, permit, name, "c");
    assert!(rt; finish(rt, state, seat, tasks, name, Outcome::Completed));
    found
}

/// Follows the steps of a day, and then numbers slots. One slot stays reserved.
fn works<R: Wait + Abort, T: Ledger, C: Ledger, F: Ledger>(
    rt: &R,
    alloc: Global,
    host: &Host<Still, T, C, F>,
    seat: &mut Seat<T, C, F>,
    tasks: &mut Vec<Task>,
    steps: &'static str,
) -> Permit {
    let mut guard = host.lock(rt);
    let state = &mut *guard;
    follows(rt, alloc, state, seat, tasks, steps);
    let permit = reserve(rt, state, SlotKind::Workflow);
    places_are_numbered(rt, alloc, state);
    permit
}

/// A host that is closed with a seat missing is returned, with the seats that are there.
fn not_closed<T: Ledger, C: Ledger, F: Ledger>(
    rt: &impl Abort,
    host: Host<Still, T, C, F>,
    seats: Vec<Seat<T, C, F>>,
) -> (Host<Still, T, C, F>, Vec<Seat<T, C, F>>) {
    match host.close(seats) {
        Ok(_) => panic!(rt; "closed with a seat missing"),
        Err((host, seats, _missing)) => (host, seats),
    }
}

/// The counts of a host that is closed with all seats.
pub(crate) fn closed<W: Workflow, T: Ledger, C: Ledger, F: Ledger>(
    rt: &impl Abort,
    host: Host<W, T, C, F>,
    mut seats: Vec<Seat<T, C, F>>,
    seat: Seat<T, C, F>,
) -> Totals {
    push(&mut seats, seat).expect(rt, "memory");
    match host.close(seats) {
        Ok(totals) => totals,
        Err(_) => panic!(rt; "not closed"),
    }
}

/// Opens a host with its seats.
pub(crate) fn open<R: Abort, W: Workflow, T: Ledger, C: Ledger, F: Ledger>(
    rt: &R,
    alloc: Global,
    config: Config,
    taken: Blank,
    completed: Blank,
    failed: Blank,
) -> (Host<W, T, C, F>, Vec<Seat<T, C, F>>)
    requires taken { (taken.name ≡ T.name) × (taken.parts ≡ T.parts) × (taken.parts ≡ config.seats) }
    requires completed { (completed.name ≡ C.name) × (completed.parts ≡ C.parts) × (completed.parts ≡ config.seats) }
    requires failed { (failed.name ≡ F.name) × (failed.parts ≡ F.parts) × (failed.parts ≡ config.seats) }
{
    Host::open(alloc, config, taken, completed, failed).expect(rt, "open")
}

/// The sizes of a host, and its steps.
#[derive(Drop)]
struct Day {
    config: Config,
    steps: &'static str,
}

/// The end of a day: how many events of run `c` the cache holds, and the counts of the host. It is
/// closed twice, first with a seat missing: the host that is returned serves one more task, of a
/// run that it may still cache.
fn day_text<R: Wait + Abort, T: Ledger, C: Ledger, F: Ledger>(
    rt: &R,
    alloc: Global,
    day: &Day,
    taken: Blank,
    completed: Blank,
    failed: Blank,
) -> String
    requires taken { (taken.name ≡ T.name) × (taken.parts ≡ T.parts) × (taken.parts ≡ day.now.config.seats) }
    requires completed { (completed.name ≡ C.name) × (completed.parts ≡ C.parts)
        × (completed.parts ≡ day.now.config.seats) }
    requires failed { (failed.name ≡ F.name) × (failed.parts ≡ F.parts) × (failed.parts ≡ day.now.config.seats) }
{
    let (host, mut seats) = open::<R, Still, T, C, F>(
        rt, alloc, day.config, taken, completed, failed,
    );
    let mut seat = seats.pop().expect(rt, "seat");
    let mut tasks = Vec::new(alloc);
    let permit = works(rt, alloc, &host, &mut seat, &mut tasks, day.steps);
    let (host, seats) = not_closed(rt, host, seats);
    let found = last_task(rt, alloc, &host, &mut seat, &mut tasks, permit);
    let totals = shown(alloc, &closed(rt, host, seats, seat)).expect(rt, "memory");
    format!(in alloc; "{found} events, {totals}").expect(rt, "memory")
}

#[test]
fn days_of_a_host(rt: HostRuntime) {
    for line in DAYS.split("\n\n") {
        let (given, wanted) = line.split_once("\nend => ").expect(&rt, line);
        let (mut words, steps) = given.split_once("\n").expect(&rt, line);
        let config = sizes(&rt, &mut words);
        let day = Day { config, steps };
        let seats = day.config.seats as u64;
        let text = day_text::<HostRuntime, Brand, Brand, Brand>(
            &rt,
            rt.alloc(),
            &day,
            Blank::new(seats),
            Blank::new(seats),
            Blank::new(seats),
        );
        same(rt.alloc(), text.as_str(), wanted).expect(&rt, given);
    }
}

/// Why a host of these sizes is not opened, `None` if it is.
fn fault_of<T: Ledger, C: Ledger, F: Ledger>(
    alloc: Global,
    config: Config,
    taken: Blank,
    completed: Blank,
    failed: Blank,
) -> Option<OpenFault>
    requires taken { (taken.name ≡ T.name) × (taken.parts ≡ T.parts) × (taken.parts ≡ config.seats) }
    requires completed { (completed.name ≡ C.name) × (completed.parts ≡ C.parts) × (completed.parts ≡ config.seats) }
    requires failed { (failed.name ≡ F.name) × (failed.parts ≡ F.parts) × (failed.parts ≡ config.seats) }
{
    HostState::<Still, T, C, F>::open(alloc, config, taken, completed, failed).err()
}

/// Sizes of a host, and why it is not opened: sizes within their limits, too many seats, and no
/// slot for a workflow task.
const SIZES: &str = "\
2 1 2 0 3 => None
2 1 2 0 65 => Some(BadConfig)
0 1 2 0 3 => Some(BadConfig)
";

#[test]
fn sizes_are_judged(rt: HostRuntime) {
    for line in SIZES.lines() {
        let (mut words, wanted) = row(line).expect(&rt, line);
        let config = sizes(&rt, &mut words);
        let seats = config.seats as u64;
        let fault = fault_of::<Brand, Brand, Brand>(
            rt.alloc(),
            config,
            Blank::new(seats),
            Blank::new(seats),
            Blank::new(seats),
        );
        wants(rt.alloc(), fault, wanted).expect(&rt, "sizes");
    }
}
