//! What the cache keeps, and what it evicts.

use std::alloc::Global;
use std::process::Abort;
use test_support::{Still, cut, events_after, key, next_number, row, same, shown};
use wh_events::{Event, EventKind, Items, Payload};
use wh_host::{MOST_CACHED_EVENTS, MOST_RUNS, Put, Sticky};
use wh_replay::Run;
use wh_workflow::Meter;

/// How many runs and how much weight a cache may hold, followed by the steps, with the answers and
/// the weight that it then holds. `with` is followed by the sizes of a run's payloads.
const CACHES: &str = "\
10 10
put a start:Still S T => kept, holds 3
put b start:Still S*4 T => kept, holds 9
put c start:Still S T => gone a, holds 9
put d start:Still S*8 T => gone b c, holds 10
put e start:Still S*9 T => too large, holds 10
put d start:Still S*9 T => too large, holds 10
peek d => Some(10), holds 10
take d => Some(10), holds 0

2 0
put a start:Still S T => kept, holds 3
put b start:Still S T => kept, holds 6
put c start:Still S T => gone a, holds 6
evict a => false, holds 6
put d start:Still S T => gone b, holds 6
evict c => true, holds 3
len => 1, holds 3

2 0
put a start:Still S*4 T => kept, holds 6
put a start:Still S T => shorter, holds 6
put a start:Still S*4 T => shorter, holds 6
peek a => Some(6), holds 6
put a start:Still S*7 T => kept, holds 9

0 10
put a start:Still S T => off, holds 0

10 0
put a start:Still S T with 1013 => kept, holds 3
put b start:Still S T with 1014 => kept, holds 7
put c start:Still S T with 500 504 => kept, holds 11
put d start:Still S T with 2037 => kept, holds 15
put e start:Still S T with 4096 => kept, holds 22
take e => Some(3), holds 15
evict a => true, holds 12
put b start:Still S*2 T => kept, holds 12

10 13
put a start:Still S T with 4096 => kept, holds 7
put b start:Still S T with 4096 => gone a, holds 7
put c start:Still S T => kept, holds 10
put d start:Still S T with 12288 => too large, holds 10
put b start:Still S*2 T with 4096 => kept, holds 11
put c start:Still S T with 4096 => shorter, holds 11
peek b => Some(4), holds 11
put e start:Still S T => gone c, holds 11";

/// A payload with so many bytes in `json/plain`.
fn payload(rt: &impl Abort, alloc: Global, size: &str) -> Payload {
    let count = size.parse::<usize>().expect(rt, size);
    let content = " ".repeat(alloc, count).expect(rt, "memory");
    let encoding = String::from_str(alloc, "json/plain").expect(rt, "memory");
    Payload {
        encoding: Items::new(encoding.into_bytes()),
        content: Items::new(content.into_bytes()),
    }
}

/// Gives a run an input of payloads of these sizes.
fn give_input(rt: &impl Abort, alloc: Global, events: &mut [Event], sizes: &str) {
    let mut payloads = Vec::new(alloc);
    for size in sizes.split_whitespace() {
        payloads.push(payload(rt, alloc, size)).expect(rt, "memory");
    }
    if let Some(event) = events.first_mut()
        && let EventKind::WorkflowExecutionStarted { input, .. } = &mut event.body
    {
        *input = Items::new(payloads);
    }
}

/// A run by its name and its history, and the sizes of its payloads.
pub(crate) fn run_of(rt: &impl Abort, alloc: Global, run: &'static str) -> Run<Still> {
    let mut history = run;
    let key = key(alloc, cut(&mut history, " ")).expect(rt, "memory");
    let (history, sizes) = history.split_once(" with ").unwrap_or((history, ""));
    let mut events = events_after(alloc, history, 0).expect(rt, history);
    give_input(rt, alloc, events.as_mut_slice(), sizes);
    Run::from_first(alloc, key, events, &mut Meter::new()).expect(rt, run)
}

/// The names of the runs that were evicted.
fn gone(rt: &impl Abort, alloc: Global, runs: &[Run<Still>]) -> String {
    let mut names = String::from_str(alloc, "gone").expect(rt, "memory");
    for run in runs {
        names.push_str(" ").expect(rt, "memory");
        names
            .push_str(run.key().workflow_id.get())
            .expect(rt, "memory");
    }
    names
}

/// The result of putting a run into a cache.
pub(crate) fn put_word(rt: &impl Abort, alloc: Global, put: &Put<Still>) -> String {
    let word = match put {
        Put::Kept => "kept",
        Put::PushedOut(runs) => return gone(rt, alloc, runs.get()),
        Put::Off(_) => "off",
        Put::Shorter(_) => "shorter",
        Put::TooLarge(_) => "too large",
        Put::NoMemory(_) => "no memory",
    };
    String::from_str(alloc, word).expect(rt, "memory")
}

/// Puts a run, by its name and its history, into a cache, and returns the result.
fn put(rt: &impl Abort, alloc: Global, cache: &mut Sticky<Still>, run: &'static str) -> String {
    let put = cache.put(run_of(rt, alloc, run));
    let word = put_word(rt, alloc, &put);
    drop(put);
    word
}

/// How many events the run that is returned held, if there is one.
pub(crate) fn held_len(run: Option<Run<Still>>) -> Option<usize> {
    let length = match &run {
        Some(run) => Some(run.held_len()),
        None => None,
    };
    drop(run);
    length
}

/// The answer of a cache to a step with a run of some name.
fn answered(
    rt: &impl Abort,
    alloc: Global,
    cache: &mut Sticky<Still>,
    step: &'static str,
) -> String {
    let (word, run) = step.split_once(' ').unwrap_or((step, ""));
    if word == "put" {
        return put(rt, alloc, cache, run);
    }
    let key = key(alloc, run).expect(rt, "memory");
    match word {
        "peek" => shown(alloc, &cache.peek_len(&key)).expect(rt, "memory"),
        "take" => shown(alloc, &held_len(cache.take(&key))).expect(rt, "memory"),
        "evict" => shown(alloc, &cache.evict(&key)).expect(rt, "memory"),
        _ => shown(alloc, &cache.len()).expect(rt, "memory"),
    }
}

/// Takes a step, and returns the answer and the weight that the cache then holds.
fn step_text(
    rt: &impl Abort,
    alloc: Global,
    cache: &mut Sticky<Still>,
    step: &'static str,
) -> String {
    let answer = answered(rt, alloc, cache, step);
    let held = cache.total_weight();
    format!(in alloc; "{answer}, holds {held}").expect(rt, "memory")
}

/// Takes the steps, and compares the answers of a cache.
fn follows(rt: &impl Abort, alloc: Global, mut cache: Sticky<Still>, steps: &'static str) {
    for line in steps.lines() {
        let (step, wanted) = row(line).expect(rt, line);
        let text = step_text(rt, alloc, &mut cache, step);
        same(alloc, text.as_str(), wanted).expect(rt, step);
    }
}

/// Opens a cache, and compares its answers.
fn answers(rt: &impl Abort, alloc: Global, given: &'static str) {
    let mut steps = given;
    let runs = next_number(&mut steps).expect(rt, "a number") as usize;
    let events = cut(&mut steps, "\n").parse::<u64>().expect(rt, "a number");
    assert!(rt; runs <= MOST_RUNS && events <= MOST_CACHED_EVENTS);
    let cache = Sticky::<Still>::open(alloc, runs, events).expect(rt, "memory");
    follows(rt, alloc, cache, steps);
}

#[test]
fn caches_answer(rt: HostRuntime) {
    for given in CACHES.split("\n\n") {
        answers(&rt, rt.alloc(), given);
    }
}
