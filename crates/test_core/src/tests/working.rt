//! What workers do in their turns, alone and side by side.

ghost use Rattle.std.specs.Prelude.{◌≡◌};

use crate::tests::fixtures::{Notebook, NotedSource, Workflows, activity_task, script};
use crate::tests::host::{open, sizes};
use crate::tests::hosting::{Day, close, left, pass, spent};
use std::alloc::Global;
use std::marker::Brand;
use std::process::Abort;
use std::sync::ledger::{Blank, Ledger};
use std::sync::{Mutex, Wait};
use std::thread::Threads;
use std::time::{Clock, Duration};
use test_support::{cut, next_number, push, wants};
use wh_host::{Companion, Config, Counts, EndSignal, Host, Seat, accompany};
use wh_poll::{
    ActivityHandler, NoActivities, NoObserver, Worker, WorkerSetup, run_beside, run_on_host,
    run_workers,
};
use wh_recorded::ScriptSource;

/// Days of a worker, written as those of a host, without steps.
const SHIFTS: &str = "\
Of two tasks the first answer fails.
2 1 100 0 1 2 5 | 0 nap => nap
end => poll, poll activities, poll, answer 8 Complete([Complete result: []]), poll, Some(Source), Counts taken: 2, completed: 1, failed: 1, in_hand: 0, cached: 1, cached_events: 8, workflow: SlotCount free: 2, reserved: 0, held: 0, activity: SlotCount free: 1, reserved: 0, held: 0

Of two tasks a poll of activities fails.
2 1 100 0 1 3 5 | 0 nap => nap
end => poll, answer 3 Complete([StartTimer id: nap, seconds: 60]), poll, answer 8 Complete([Complete result: []]), poll activities, poll, Some(Source), Counts taken: 2, completed: 2, failed: 0, in_hand: 0, cached: 1, cached_events: 8, workflow: SlotCount free: 2, reserved: 0, held: 0, activity: SlotCount free: 1, reserved: 0, held: 0

Of two tasks the second poll fails.
2 1 100 0 1 4 5 | 0 nap => nap
end => poll, answer 3 Complete([StartTimer id: nap, seconds: 60]), poll activities, poll, answer 8 Complete([Complete result: []]), poll, Some(Source), Counts taken: 2, completed: 2, failed: 0, in_hand: 0, cached: 1, cached_events: 8, workflow: SlotCount free: 2, reserved: 0, held: 0, activity: SlotCount free: 1, reserved: 0, held: 0

Of two tasks no call fails.
2 1 100 0 1 7 5 | 0 nap => nap
end => poll, answer 3 Complete([StartTimer id: nap, seconds: 60]), poll activities, poll, answer 8 Complete([Complete result: []]), poll, None, Counts taken: 2, completed: 2, failed: 0, in_hand: 0, cached: 1, cached_events: 8, workflow: SlotCount free: 2, reserved: 0, held: 0, activity: SlotCount free: 1, reserved: 0, held: 0

Of two tasks the question for the whole history fails, without a cache.
2 1 0 0 1 5 5 | 0 nap => nap
end => poll, answer 3 Complete([StartTimer id: nap, seconds: 60]), poll activities, poll, poll, Some(Source), Counts taken: 2, completed: 1, failed: 1, in_hand: 0, cached: 0, cached_events: 0, workflow: SlotCount free: 2, reserved: 0, held: 0, activity: SlotCount free: 1, reserved: 0, held: 0

The turns are over.
2 1 100 0 1 0 3 | 0 nap => nap
end => poll, answer 3 Complete([StartTimer id: nap, seconds: 60]), poll activities, poll, answer 8 Complete([Complete result: []]), None, Counts taken: 2, completed: 2, failed: 0, in_hand: 0, cached: 1, cached_events: 8, workflow: SlotCount free: 2, reserved: 0, held: 0, activity: SlotCount free: 1, reserved: 0, held: 0

A poll that gives none comes before a poll that gives a task.
2 1 100 0 1 0 10 | 0 nap => nap | nothing
end => poll, poll activities, poll, answer 3 Complete([StartTimer id: nap, seconds: 60]), poll, answer 8 Complete([Complete result: []]), poll, None, Counts taken: 2, completed: 2, failed: 0, in_hand: 0, cached: 1, cached_events: 8, workflow: SlotCount free: 2, reserved: 0, held: 0, activity: SlotCount free: 1, reserved: 0, held: 0

Polls that give none come before polls that give tasks, of either kind.
2 1 100 0 1 0 10 | 0 nap => nap | nothing; nothing | nothing; 8
end => poll, poll activities, poll, poll activities, run, answer 8 Completed([Payload encoding: [], content: [112]]), poll, answer 3 Complete([StartTimer id: nap, seconds: 60]), poll activities, poll, answer 8 Complete([Complete result: []]), poll, None, Counts taken: 3, completed: 3, failed: 0, in_hand: 0, cached: 1, cached_events: 8, workflow: SlotCount free: 2, reserved: 0, held: 0, activity: SlotCount free: 1, reserved: 0, held: 0

Workflow tasks are closed first, and then activity tasks are.
2 1 100 0 1 0 10 | 0 nap => nap | closed | nothing; 8; 9
end => poll, poll activities, poll activities, run, answer 8 Completed([Payload encoding: [], content: [112]]), poll activities, run, answer 9 Completed([Payload encoding: [], content: [112]]), poll activities, None, Counts taken: 2, completed: 2, failed: 0, in_hand: 0, cached: 0, cached_events: 0, workflow: SlotCount free: 2, reserved: 0, held: 0, activity: SlotCount free: 1, reserved: 0, held: 0

Activity tasks are closed first, and then workflow tasks are.
2 1 100 0 1 0 10 | 0 nap => nap | nothing; nothing | 8
end => poll, poll activities, run, answer 8 Completed([Payload encoding: [], content: [112]]), poll, poll activities, poll, answer 3 Complete([StartTimer id: nap, seconds: 60]), poll, answer 8 Complete([Complete result: []]), poll, None, Counts taken: 3, completed: 3, failed: 0, in_hand: 0, cached: 1, cached_events: 8, workflow: SlotCount free: 2, reserved: 0, held: 0, activity: SlotCount free: 1, reserved: 0, held: 0

The host drains at its first task, and most turns are left.
2 1 100 0 1 0 18446744073709551615 | 0 nap => nap | next | next | answer 3, drain
end => poll, answer 3 Complete([StartTimer id: nap, seconds: 60]), None, Counts taken: 1, completed: 1, failed: 0, in_hand: 0, cached: 1, cached_events: 3, workflow: SlotCount free: 2, reserved: 0, held: 0, activity: SlotCount free: 1, reserved: 0, held: 0

The host drains at its second task, and most turns are left.
2 1 100 0 1 0 18446744073709551615 | 0 nap => nap | next | next | answer 8, drain
end => poll, answer 3 Complete([StartTimer id: nap, seconds: 60]), poll activities, poll, answer 8 Complete([Complete result: []]), None, Counts taken: 2, completed: 2, failed: 0, in_hand: 0, cached: 1, cached_events: 8, workflow: SlotCount free: 2, reserved: 0, held: 0, activity: SlotCount free: 1, reserved: 0, held: 0

No turn is given.
2 1 0 0 1 0 0 | 0 nap => nap
end => None, Counts taken: 0, completed: 0, failed: 0, in_hand: 0, cached: 0, cached_events: 0, workflow: SlotCount free: 2, reserved: 0, held: 0, activity: SlotCount free: 1, reserved: 0, held: 0";

#[test]
fn shifts_of_a_worker(rt: HostRuntime) {
    pass(&rt, rt.alloc(), SHIFTS);
}

/// The samples' histories.
const SAMPLES: &str =
    "0 branch.json => branch, 1 family.json => family, 2 greet.json => greet, 3 nap.json => nap, 4 racer.json => racer";

/// The counts at the end, with each slot free.
const FREE: &str =
    "workflow: SlotCount free: 2, reserved: 0, held: 0, activity: SlotCount free: 1, reserved: 0, held: 0";

/// The end of a worker that serves five runs, with a cache of so many runs and a source whose call
/// of this number fails.
fn end_of_samples<R: Wait + Abort>(rt: &R, alloc: Global, cache: usize, fail_at: u64) -> String {
    let day = Day {
        config: Config {
            workflow_slots: 2,
            activity_slots: 1,
            cache,
            cache_events: 0,
            seats: 1,
        },
        fail_at,
        script: SAMPLES,
        workflow_polls: "",
        activity_polls: "",
        deeds: "",
        steps: "",
        turns: 16,
    };
    spent(rt, alloc, &day)
}

/// Each task of five runs was taken once, and none has failed, or one if a call fails. At the end
/// each slot is free.
fn served_all(rt: &impl Abort, text: &str, fails: bool) {
    let none_fails = text.contains("Counts taken: 13, completed: 13, failed: 0, in_hand: 0, ");
    let one_fails = text.contains("Counts taken: 13, completed: 12, failed: 1, in_hand: 0, ");
    let is_told = text.contains(if fails { "Some(Source), " } else { "None, " });
    let is_free = text.ends_with(FREE);
    let is_served = (none_fails || fails & one_fails) & is_told & is_free;
    assert!(rt; is_served, "{text}");
}

/// One worker serves five runs, in 28 calls.
fn serves_samples<R: Wait + Abort>(rt: &R, alloc: Global, cache: usize, fail_at: u64) {
    let text = end_of_samples(rt, alloc, cache, fail_at);
    served_all(rt, text.as_str(), 1 <= fail_at && fail_at <= 28);
}

/// Each of the 28 calls fails in turn.
#[test]
fn each_call_fails(rt: HostRuntime) {
    for fail_at in 0..=29 {
        serves_samples(&rt, rt.alloc(), 100, fail_at);
    }
}

/// The counts of five runs are the same with each cache.
#[test]
fn any_cache_serves(rt: HostRuntime) {
    serves_samples(&rt, rt.alloc(), 0, 0);
    serves_samples(&rt, rt.alloc(), 1, 0);
    serves_samples(&rt, rt.alloc(), 2, 0);
    serves_samples(&rt, rt.alloc(), 100, 0);
}

#[test]
fn no_activity_is_known(rt: HostRuntime) {
    let alloc = rt.alloc();
    let task = activity_task(&rt, alloc, "8");
    let answer = NoActivities { alloc }.run(&task).expect(&rt, "memory");
    let wanted =
        "Failed(ActivityFailure message: no activities, failure_type: Some(NotFoundError), retryable: false)";
    wants(alloc, answer, wanted).expect(&rt, "no activities");
}

/// Workers side by side: the sizes of their host, their turns, their results, which are the fewest
/// and the most tasks and the cached events, and after `|` the scripts of their sources and what
/// follows answers. Each task is completed.
///
/// The answer to the first task of each run waits for that of the other: two tasks are held at once.
/// Then two tasks of run `a` are held: the run with six events comes back first, and the one with
/// three does not replace it. Then the second task of the first worker's run drains the host, and
/// most turns are left.
const CREWS: &str = "\
2 1 2 0 2 20 4 4 16 | 0 one => nap; 1 two => nap | answer 3, await answer 18446744073709551619; answer 18446744073709551619, await answer 3
2 1 2 0 2 20 5 5 12 | 0 a => nap/3; 1 a => start:Nap S T task_timed_out S T, 2 b => start:Nap S T task_timed_out S T | answer 3, await answer 36893488147419103238; answer 18446744073709551619, await answer 3
4 4 0 0 4 18446744073709551615 3 15 0 | 0 nap => nap, 1 then => nap; 2 nap => nap, 3 then => nap; 4 nap => nap, 5 then => nap; 6 nap => nap, 7 then => nap | answer 8, drain
";

/// The sources of these scripts.
fn sources_of(rt: &impl Abort, alloc: Global, scripts: &'static str) -> Vec<ScriptSource> {
    let mut sources = Vec::new(alloc);
    for table in scripts.split("; ") {
        push(&mut sources, script(rt, alloc, table)).expect(rt, "memory");
    }
    sources
}

/// The sources of these scripts, which note their calls.
fn noted_sources<'b, 'r, 'h, R: Wait + Abort, T: Ledger, C: Ledger, F: Ledger>(
    book: &'b Notebook<'r, 'h, R, T, C, F>,
    scripts: &'static str,
) -> Vec<NotedSource<'b, 'r, 'h, R, T, C, F>> {
    let (rt, alloc) = (book.rt, book.alloc);
    let mut sources = Vec::new(alloc);
    for script in sources_of(rt, alloc, scripts) {
        let source = NotedSource {
            book,
            script,
            workflow_polls: "",
            activity_polls: "",
        };
        push(&mut sources, source).expect(rt, "memory");
    }
    sources
}

/// So many handlers without activities.
fn handlers_of(rt: &impl Abort, alloc: Global, count: usize) -> Vec<NoActivities> {
    let mut handlers = Vec::new(alloc);
    for _ in 0..count {
        push(&mut handlers, NoActivities { alloc }).expect(rt, "memory");
    }
    handlers
}

/// Runs a worker for each seat, over the script of its place.
fn crew_of<
    'b,
    'r,
    'h,
    R: Threads + Wait + Abort + Sync,
    T: Ledger + Send,
    C: Ledger + Send,
    F: Ledger + Send,
>(
    book: &'b Notebook<'r, 'h, R, T, C, F>,
    seats: Vec<Seat<T, C, F>>,
    scripts: &'static str,
    turns: u64,
) -> Vec<Worker<T, C, F, NotedSource<'b, 'r, 'h, R, T, C, F>>> {
    let (rt, alloc) = (book.rt, book.alloc);
    let count = seats.len();
    let sources = noted_sources(book, scripts);
    let handlers = handlers_of(rt, alloc, count);
    let turns = vec![in alloc; turns; count].expect(rt, "memory");
    assert!(rt; sources.len() == count && handlers.len() == count);
    let workers = run_workers(rt, alloc, book.host, seats, sources, handlers, turns);
    workers.expect(rt, "memory")
}

/// The seats of workers whose sources did not fail.
fn seats_of<T: Ledger, C: Ledger, F: Ledger, S: Drop>(
    rt: &impl Abort,
    alloc: Global,
    workers: Vec<Worker<T, C, F, S>>,
) -> Vec<Seat<T, C, F>> {
    let mut seats = Vec::new(alloc);
    for worker in workers {
        let (seat, fault) = left(worker);
        assert!(rt; fault.is_none());
        push(&mut seats, seat).expect(rt, "memory");
    }
    seats
}

/// Workers side by side: the sizes of their host, their turns, the scripts of their sources, and
/// what follows answers.
#[derive(Drop)]
struct Crew {
    config: Config,
    turns: u64,
    scripts: &'static str,
    deeds: &'static str,
}

/// The counts of a crew after its work.
fn counts_of<
    R: Threads + Wait + Abort + Sync,
    T: Ledger + Send,
    C: Ledger + Send,
    F: Ledger + Send,
>(rt: &R, alloc: Global, crew: &Crew, taken: Blank, completed: Blank, failed: Blank) -> Counts
    requires taken { (taken.name ≡ T.name) × (taken.parts ≡ T.parts) × (taken.parts ≡ crew.now.config.seats) }
    requires completed { (completed.name ≡ C.name) × (completed.parts ≡ C.parts)
        × (completed.parts ≡ crew.now.config.seats) }
    requires failed { (failed.name ≡ F.name) × (failed.parts ≡ F.parts) × (failed.parts ≡ crew.now.config.seats) }
{
    let (host, seats) = open::<R, Workflows, T, C, F>(
        rt,
        alloc,
        crew.config,
        taken,
        completed,
        failed,
    );
    let book = Notebook::new(rt, alloc, &host, crew.deeds);
    let mut seats = seats_of(rt, alloc, crew_of(&book, seats, crew.scripts, crew.turns));
    drop(book);
    let seat = seats.pop().expect(rt, "seat");
    close(rt, host, seats, seat)
}

/// The counts of a crew are those that it returns.
fn crew_left(rt: &impl Abort, counts: &Counts, fewest: u64, most: u64, cached_events: u64) {
    let taken = counts.completed.max(fewest).min(most);
    let left = Counts {
        taken,
        completed: taken,
        failed: 0,
        in_hand: 0,
        cached_events,
        ..*counts
    };
    assert!(rt; fewest <= most && *counts == left);
}

/// Lets a crew work, and compares its results.
fn crew_works<R: Threads + Wait + Abort + Sync>(rt: &R, alloc: Global, line: &'static str) {
    let mut rest = line;
    let mut words = cut(&mut rest, " | ");
    let config = sizes(rt, &mut words);
    let turns = next_number(&mut words).expect(rt, "a number");
    let crew = Crew {
        config,
        turns,
        scripts: cut(&mut rest, " | "),
        deeds: rest,
    };
    let seats = crew.config.seats as u64;
    let counts = counts_of::<R, Brand, Brand, Brand>(
        rt,
        alloc,
        &crew,
        Blank::new(seats),
        Blank::new(seats),
        Blank::new(seats),
    );
    let fewest = next_number(&mut words).expect(rt, "a number");
    let most = next_number(&mut words).expect(rt, "a number");
    let cached_events = next_number(&mut words).expect(rt, "a number");
    crew_left(rt, &counts, fewest, most, cached_events);
}

#[test]
fn crews_work_side_by_side(rt: HostRuntime) {
    for line in CREWS.lines() {
        crew_works(&rt, rt.alloc(), line);
    }
}

/// Setups over the sources of these scripts.
fn setups_of(
    rt: &impl Abort,
    alloc: Global,
    scripts: &'static str,
) -> Vec<WorkerSetup<ScriptSource, NoActivities, NoObserver>> {
    let mut setups = Vec::new(alloc);
    for source in sources_of(rt, alloc, scripts) {
        let setup = WorkerSetup {
            source,
            handler: NoActivities { alloc },
            observer: NoObserver,
            turns: 20,
        };
        push(&mut setups, setup).expect(rt, "memory");
    }
    setups
}

/// Runs the setups of these scripts, and returns the seats.
fn posted<R: Threads + Wait + Abort + Sync, T: Ledger + Send, C: Ledger + Send, F: Ledger + Send>(
    rt: &R,
    alloc: Global,
    host: &Host<Workflows, T, C, F>,
    seats: Vec<Seat<T, C, F>>,
    scripts: &'static str,
) -> Vec<Seat<T, C, F>> {
    let setups = setups_of(rt, alloc, scripts);
    assert!(rt; setups.len() == seats.len());
    let ended = run_on_host(rt, alloc, host, seats, setups);
    let (seats, left) = ended.expect(rt, "memory");
    drop(left);
    seats
}

/// The counts of a host on which setups were run twice.
fn counts_of_both<
    R: Threads + Wait + Abort + Sync,
    T: Ledger + Send,
    C: Ledger + Send,
    F: Ledger + Send,
>(rt: &R, alloc: Global, config: Config, taken: Blank, completed: Blank, failed: Blank) -> Counts
    requires taken { (taken.name ≡ T.name) × (taken.parts ≡ T.parts) × (taken.parts ≡ config.seats) }
    requires completed { (completed.name ≡ C.name) × (completed.parts ≡ C.parts) × (completed.parts ≡ config.seats) }
    requires failed { (failed.name ≡ F.name) × (failed.parts ≡ F.parts) × (failed.parts ≡ config.seats) }
{
    let (host, seats) = open::<R, Workflows, T, C, F>(rt, alloc, config, taken, completed, failed);
    let seats = posted(rt, alloc, &host, seats, "0 a => nap/3; 1 b => nap/3");
    let mut seats = posted(rt, alloc, &host, seats, "2 c => nap/3; 3 d => nap");
    let seat = seats.pop().expect(rt, "seat");
    close(rt, host, seats, seat)
}

/// Setups are run a second time on one host: what is cached and counted stays.
#[test]
fn setups_are_run_again(rt: HostRuntime) {
    let config = Config {
        workflow_slots: 2,
        activity_slots: 1,
        cache: 10,
        cache_events: 0,
        seats: 2,
    };
    let (taken, completed, failed) = (Blank::new(2), Blank::new(2), Blank::new(2));
    let alloc = rt.alloc();
    let counts = counts_of_both::<_, Brand, Brand, Brand>(
        &rt, alloc, config, taken, completed, failed,
    );
    let text =
        "Counts taken: 5, completed: 5, failed: 0, in_hand: 0, cached: 4, cached_events: 17, \
        workflow: SlotCount free: 2, reserved: 0, held: 0, activity: SlotCount free: 1, reserved: 0, held: 0";
    wants(alloc, counts, text).expect(&rt, "setups run twice");
}

/// Waits until the workers have ended, and then asks once what they counted.
#[derive(Drop)]
struct Onlooker<'r, R> {
    rt: &'r R,
    seen: Mutex<Option<Counts>>,
}

impl<R: Wait + Clock> Companion for Onlooker<'_, R> {
    fn wait(&self, signal: &EndSignal) -> bool {
        !signal.wait(self.rt, Duration::from_secs(50)) && self.seen.lock(self.rt).is_none()
    }

    fn report(&self, counts: Option<Counts>) {
        *self.seen.lock(self.rt) = counts;
    }
}

/// The counts of a host on which two setups were run, with a companion at a third seat.
fn counts_beside<
    R: Threads + Wait + Clock + Abort + Sync,
    T: Ledger + Send,
    C: Ledger + Send,
    F: Ledger + Send,
>(
    rt: &R,
    alloc: Global,
    config: Config,
    companion: &Onlooker<'_, R>,
    taken: Blank,
    completed: Blank,
    failed: Blank,
) -> Counts
    requires taken { (taken.name ≡ T.name) × (taken.parts ≡ T.parts) × (taken.parts ≡ config.seats) }
    requires completed { (completed.name ≡ C.name) × (completed.parts ≡ C.parts) × (completed.parts ≡ config.seats) }
    requires failed { (failed.name ≡ F.name) × (failed.parts ≡ F.parts) × (failed.parts ≡ config.seats) }
{
    let (host, mut seats) = open::<R, Workflows, T, C, F>(
        rt, alloc, config, taken, completed, failed,
    );
    let spare = seats.pop();
    let setups = setups_of(rt, alloc, "0 a => nap/3; 1 b => nap");
    assert!(rt; setups.len() == seats.len());
    let lent = &host;
    let signal = &EndSignal::new();
    let beside = move || accompany(rt, lent, spare, signal, companion);
    let (spare, ended) = run_beside(rt, alloc, lent, seats, setups, signal, beside);
    let (seats, left) = ended.expect(rt, "memory");
    drop(left);
    close(rt, host, seats, spare.expect(rt, "seat"))
}

/// A companion gets the counts of the workers at its seat, and counts nothing itself.
#[test]
fn a_companion_looks_on(rt: HostRuntime) {
    let config = Config {
        workflow_slots: 2,
        activity_slots: 1,
        cache: 10,
        cache_events: 0,
        seats: 3,
    };
    let (taken, completed, failed) = (Blank::new(3), Blank::new(3), Blank::new(3));
    let alloc = rt.alloc();
    let companion = Onlooker {
        rt: &rt,
        seen: Mutex::new(None),
    };
    let counts = counts_beside::<_, Brand, Brand, Brand>(
        &rt, alloc, config, &companion, taken, completed, failed,
    );
    let text =
        "Counts taken: 3, completed: 3, failed: 0, in_hand: 0, cached: 2, cached_events: 11, \
        workflow: SlotCount free: 2, reserved: 0, held: 0, activity: SlotCount free: 1, reserved: 0, held: 0";
    wants(alloc, counts, text).expect(&rt, "what is counted");
    let seen = *companion.seen.lock(&rt);
    wants(alloc, seen.expect(&rt, "what is seen beside them"), text).expect(
        &rt,
        "what is seen beside them",
    );
}
