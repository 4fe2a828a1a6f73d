//! Calls of replay: of runs, of the cache that holds them, and of whole histories.

ghost use Rattle.std.specs.Prelude.{◌≡◌, IfSome};

use crate::calls::saying::{run_of, run_over, say, say_answer, say_nothing, say_run};
use std::alloc::Global;
use std::io::Print;
use test_support::{events, events_after, key};
use wh_events::{Event, RunKey};
use wh_host::{Put, Sticky};
use wh_poll::{StepFault, Stepped, replay_task};
use wh_recorded::ScriptSource;
use wh_replay::{AdvanceFault, Run, RunFault, replay_history};
use wh_sample_workflows::Nap;
use wh_workflow::{Command, Job, Meter, Workflow, no_payloads, text_of};

/// The id of the workflow of the runs.
pub(crate) const ID: &str = "nap";

/// The type of their workflow.
const KIND: &str = "Nap";

/// Prints the result of replaying a history, and drops it.
fn say_replayed<R: Print>(rt: &R, name: &str, run: Result<Run<Nap>, RunFault>) {
    match &run {
        Ok(run) => say_run(rt, name, "answer", run),
        Err(fault) => say(rt, name, "answer", fault),
    }
    drop(run);
}

/// Replays a history from its first event.
pub(crate) fn from_first<R: Print>(rt: &R, alloc: Global, name: &str) -> Option<()> {
    let (key, events) = key(alloc, ID).ok().zip(events(alloc, "nap/8").ok())?;
    say_nothing(rt, name, "before");
    let run = Run::from_first(alloc, key, events, &mut Meter::new());
    say_replayed(rt, name, run);
    say_nothing(rt, name, "after");
    Some(())
}

/// Checks a history.
pub(crate) fn check_history<R: Print>(rt: &R, alloc: Global, name: &str) -> Option<()> {
    let events = events(alloc, "nap").ok()?;
    say_nothing(rt, name, "before");
    say_answer(rt, name, replay_history::<Nap>(alloc, events));
    say_nothing(rt, name, "after");
    Some(())
}

/// The start of a workflow.
fn start(alloc: Global) -> Option<Job> {
    let workflow = text_of(alloc, KIND).ok()?;
    let input = no_payloads(alloc);
    Some(Job::Start { workflow, input })
}

/// Steps a workflow by its start.
pub(crate) fn step<R: Print>(rt: &R, alloc: Global, name: &str) -> Option<()> {
    let (job, mut state) = start(alloc).zip(Nap::begin(alloc, KIND).ok())?;
    let mut out: Vec<Command> = Vec::new(alloc);
    say(rt, name, "before", &out);
    let answer = Nap::step(alloc, &mut state, &job, &mut out, &mut Meter::new());
    say(rt, name, "answer", &answer);
    say(rt, name, "after", &out);
    drop(out);
    drop(job);
    Some(())
}

/// Gets the answer of a run.
pub(crate) fn answer<R: Print>(rt: &R, alloc: Global, name: &str) -> Option<()> {
    let run = run_of(alloc, ID, "nap/3")?;
    say_run(rt, name, "before", &run);
    say_answer(rt, name, run.answer(alloc));
    say_run(rt, name, "after", &run);
    drop(run);
    Some(())
}

/// Prints the state after a call: the run that is left, if there is one.
fn say_after<R: Print>(rt: &R, name: &str, run: Option<&Run<Nap>>) {
    match run {
        Some(run) => say_run(rt, name, "after", run),
        None => say_nothing(rt, name, "after"),
    }
}

/// The result of advancing a run, and what is left of it, if anything is.
fn advanced_seen(
    advanced: &Result<Run<Nap>, AdvanceFault<Nap>>,
) -> (&'static str, Option<&Run<Nap>>) {
    match advanced {
        Ok(run) => ("Ok", Some(run)),
        Err(AdvanceFault::NotATask(run)) => ("NotATask", Some(run)),
        Err(AdvanceFault::Gap(run)) => ("Gap", Some(run)),
        Err(AdvanceFault::Fault(_)) => ("Fault", None),
        Err(AdvanceFault::OutOfMemory) => ("OutOfMemory", None),
    }
}

/// Prints the result of advancing a run, and what is left of it, and drops it.
fn say_advanced<R: Print>(rt: &R, name: &str, advanced: Result<Run<Nap>, AdvanceFault<Nap>>) {
    let (seen, left) = advanced_seen(&advanced);
    say(rt, name, "answer", &seen);
    say_after(rt, name, left);
    drop(advanced);
}

/// Advances a run by the later events of a history.
pub(crate) fn advance<R: Print>(
    rt: &R,
    alloc: Global,
    name: &str,
    later: &'static str,
) -> Option<()> {
    let (run, later) = run_of(alloc, ID, "nap/3").zip(events_after(alloc, later, 0).ok())?;
    say_run(rt, name, "before", &run);
    say_advanced(rt, name, run.advance(alloc, later, &mut Meter::new()));
    Some(())
}

/// The result of putting a run into a cache, and how many events the run holds that is returned, if
/// one is.
pub(crate) fn put_seen(put: &Put<Nap>) -> (&'static str, Option<usize>) {
    match put {
        Put::Kept => ("Kept", None),
        Put::PushedOut(_) => ("PushedOut", None),
        Put::Off(run) => ("Off", Some(run.held_len())),
        Put::Shorter(run) => ("Shorter", Some(run.held_len())),
        Put::TooLarge(run) => ("TooLarge", Some(run.held_len())),
        Put::NoMemory(run) => ("NoMemory", Some(run.held_len())),
    }
}

/// Prints how many runs and how many events a cache holds, and how many events under a key.
fn say_cache<R: Print>(rt: &R, name: &str, part: &str, cache: &Sticky<Nap>, key: &RunKey) {
    let seen = (cache.len(), cache.total_weight(), cache.peek_len(key));
    say(rt, name, part, &seen);
}

/// A cache of one run, which it holds.
fn cache_of(alloc: Global) -> Option<Sticky<Nap>> {
    let cache = Sticky::open(alloc, 1, 0).ok();
    let (mut cache, run) = cache.zip(run_of(alloc, ID, "nap/3"))?;
    drop(cache.put(run));
    Some(cache)
}

/// Prints the result of putting a run into a cache, and drops it.
fn say_put<R: Print>(rt: &R, name: &str, put: Put<Nap>) {
    say(rt, name, "answer", &put_seen(&put));
    drop(put);
}

/// Puts the run of an id into a cache that is full with one run of three events.
pub(crate) fn put<R: Print>(rt: &R, alloc: Global, name: &str, id: &str) -> Option<()> {
    let run = key(alloc, id).ok().zip(run_of(alloc, id, "nap/8"));
    let ((key, run), mut cache) = run.zip(cache_of(alloc))?;
    say_cache(rt, name, "before", &cache, &key);
    say_put(rt, name, cache.put(run));
    say_cache(rt, name, "after", &cache, &key);
    drop(cache);
    drop(key);
    Some(())
}

/// The run of the key over a history, if one is given.
fn run_under(alloc: Global, key: &RunKey, history: &'static str) -> Option<Option<Run<Nap>>>
    ensures { IfSome result (λ run. IfSome run (λ run. run.key ≡ key.now)) }
{
    if history.is_empty() {
        return Some(None);
    }
    Some(Some(run_over(alloc, key.try_copy().ok()?, history)?))
}

/// Adds a history of a nap, with its number and its name.
fn push_nap(
    alloc: Global,
    histories: &mut Vec<(u64, String, Vec<Event>)>,
    history: &'static str,
) -> Option<()> {
    let name = String::from_str(alloc, ID).ok();
    let (name, events) = name.zip(events(alloc, history).ok())?;
    histories.push((0, name, events)).ok()
}

/// A source over a nap.
pub(crate) fn source_of(alloc: Global, history: &'static str) -> Option<ScriptSource> {
    let mut histories = Vec::new(alloc);
    let pushed = push_nap(alloc, &mut histories, history);
    ScriptSource::new(alloc, pushed.and(Some(histories))?).ok()
}

/// Prints the answer of replaying a task, and which run is left, and drops it.
fn say_stepped<R: Print>(rt: &R, name: &str, stepped: Result<Stepped<Nap>, StepFault>) {
    match &stepped {
        Ok(stepped) => {
            say(rt, name, "answer", &(stepped.fault, stepped.hit));
            say_after(rt, name, stepped.run.as_ref());
        }
        Err(fault) => {
            say(rt, name, "answer", fault);
            say_nothing(rt, name, "after");
        }
    }
    drop(stepped);
}

/// Replays a task of the key from the run of a history, or from none, and later events, with a
/// source that answers.
fn replay_with<R: Print>(
    rt: &R,
    alloc: Global,
    name: &str,
    key: &RunKey,
    held: &'static str,
    later: Vec<Event>,
    source: &mut ScriptSource,
) -> Option<()> {
    let Some(run) = run_under(alloc, key, held) else {
        drop(later);
        return None;
    };
    say_nothing(rt, name, "before");
    let stepped = replay_task(alloc, run, key, later, source, &mut Meter::new());
    say_stepped(rt, name, stepped);
    Some(())
}

/// Replays a task from the run of a history, or from none, and later events.
pub(crate) fn replay<R: Print>(
    rt: &R,
    alloc: Global,
    name: &str,
    held: &'static str,
    later: &'static str,
) -> Option<()> {
    let later = key(alloc, ID).ok().zip(events_after(alloc, later, 0).ok());
    let ((key, later), mut source) = later.zip(source_of(alloc, "nap"))?;
    let replayed = replay_with(rt, alloc, name, &key, held, later, &mut source);
    drop(source);
    drop(key);
    replayed
}
