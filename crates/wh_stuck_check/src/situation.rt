//! What a run knows in a task, and how commands and jobs change that.
ghost use Rattle.std.specs.Prelude.{◌≡◌, ◌<◌, false, IfOk, IfSome, length, map, set, option_map};
ghost use Rattle.wh_possible_runs.specs.declared.thing.Phase.TheVariants.{Absent};
ghost use Rattle.wh_possible_runs.specs.declared.thing.Touch.TheVariants.{Untouched};
ghost use Rattle.wh_possible_runs.specs.Situations.{with_change, new_situation, none_open, or_faulty, after_act, after_commands, past_signals, after_news, after_version, after_pattern, after_job};
ghost use Rattle.wh_possible_runs.specs.Configurations.{after_templates};
ghost use Rattle.wh_stuck_check.specs.Private.Seen.{change_seen, name_seen, act_seen, situation_seen, signal_seen, version_given, job_told};

use crate::acts::{Act, act_by, act_of};
use crate::names::{ThingName, place_of};
use crate::things::{Change, changed};
use std::alloc::Global;
use wh_events::{OutOfMemory, Text, Thing};
use wh_possible_runs::{Phase, ThingState, Touch};
use wh_rows::{CommandTemplate, JobPattern};
use wh_workflow::{Command, Job};

/// What a run knows in a task.
#[derive(Drop)]
pub(crate) struct Situation {
    /// The things, in the order of their names.
    pub things: Vec<ThingState>,
    /// The last command asked for a version, which comes next.
    pub awaits_version: bool,
    /// Nothing but the time, the start and signals have come in the task, so that more signals may.
    pub takes_signals: bool,
    /// A command was at fault.
    pub faulty: bool,
}

/// A thing that changes: its place, and its state then.
#[derive(Clone, Copy)]
struct ThingChange {
    /// Its place among the things.
    place: usize,
    /// Its state once it changes.
    state: ThingState,
}

/// The state of a thing that is not open.
pub(crate) fn not_open() -> ThingState
    ensures { result ≡ record { phase = Absent; touch = Untouched; started = false } }
{
    ThingState {
        phase: Phase::Absent,
        touch: Touch::Untouched,
        started: false,
    }
}

/// No thing is open.
fn none_open(alloc: Global, names: &[ThingName]) -> Result<Vec<ThingState>, OutOfMemory>
    ensures { IfOk result (λ things. things.items ≡ none_open (map name_seen names.now)) }
{
    let mut things = Vec::new(alloc);
    for _name in names {
        things.push(not_open())?;
    }
    Ok(things)
}

/// What a run knows before its first job.
pub(crate) fn new_situation(alloc: Global, names: &[ThingName]) -> Result<Situation, OutOfMemory>
    ensures { IfOk result (λ now. situation_seen now ≡ new_situation (map name_seen names.now)) }
{
    Ok(Situation {
        things: none_open(alloc, names)?,
        awaits_version: false,
        takes_signals: true,
        faulty: false,
    })
}

/// A copy of what a run knows.
pub(crate) fn copy_of(now: &Situation) -> Result<Situation, OutOfMemory>
    ensures { IfOk result (λ copy. situation_seen copy ≡ situation_seen now.now) }
{
    Ok(Situation {
        things: now.things.clone()?,
        awaits_version: now.awaits_version,
        takes_signals: now.takes_signals,
        faulty: now.faulty,
    })
}

/// How the thing with this name changes. `None` if it can't, or has none of the names.
fn find_change(
    change: Change,
    names: &[ThingName],
    thing: Thing,
    id: &Text,
    things: &[ThingState],
) -> Option<ThingChange>
    ensures things { option_map (λ found. set things.now found.place found.state) result
        ≡ with_change (change_seen change thing) (map name_seen names.now) thing id.now things.now }
    ensures within { IfSome result (λ found. found.place < length things.now) }
{
    let place = place_of(names, thing, id);
    if names.len() <= place {
        return None;
    }
    if things.len() <= place {
        return None;
    }
    match changed(change, thing, things[place]) {
        Some(state) => Some(ThingChange { place, state }),
        None => None,
    }
}

/// Lets a command open or cancel a thing.
fn command_thing(change: Change, names: &[ThingName], thing: Thing, id: &Text, now: &mut Situation)
    ensures { situation_seen now.new ≡ or_faulty (situation_seen now.old)
        (with_change (change_seen change thing) (map name_seen names.now) thing id.now now.old.things.items) }
{
    match find_change(change, names, thing, id, now.things.as_slice()) {
        Some(found) => now.things[found.place] = found.state,
        None => now.faulty = true,
    }
}

/// Lets a command do this.
pub(crate) fn act(names: &[ThingName], act: &Act, now: &mut Situation)
    ensures { situation_seen now.new ≡ after_act (map name_seen names.now) (act_seen act.now) (situation_seen now.old) }
{
    match act {
        Act::Opens(thing, id) => command_thing(Change::Opens, names, *thing, id, now),
        Act::Cancels(thing, id) => command_thing(Change::Cancels, names, *thing, id, now),
        Act::Asks(_, _, _) => now.awaits_version = true,
        Act::Closes => {}
        Act::Other => {}
    }
}

/// Lets a row give its commands.
pub(crate) fn give_templates(
    names: &[ThingName],
    templates: &[CommandTemplate<Text>],
    now: &mut Situation,
)
    ensures { situation_seen now.new ≡ after_templates (map name_seen names.now) templates.now (situation_seen now.old) }
{
    for template in templates {
        act(names, &act_by(template), now);
    }
}

/// Lets a run give commands.
pub(crate) fn give_commands(names: &[ThingName], commands: &[Command], now: &mut Situation)
    ensures { situation_seen now.new ≡ after_commands (map name_seen names.now) commands.now (situation_seen now.old) }
{
    for command in commands {
        act(names, &act_of(command), now);
    }
}

/// What a run knows once it is told of a thing. `None` if no server tells so.
fn after_tidings(
    change: Change,
    names: &[ThingName],
    thing: Thing,
    id: &Text,
    now: Situation,
) -> Option<Situation>
    ensures { option_map situation_seen result ≡ past_signals (situation_seen now)
        (with_change (change_seen change thing) (map name_seen names.now) thing id.now now.things.items) }
{
    let mut now = now;
    let found = find_change(change, names, thing, id, now.things.as_slice())?;
    now.things[found.place] = found.state;
    now.takes_signals = false;
    Some(now)
}

/// What a run knows once a signal comes. `None` if no server gives one any more.
fn after_signal(now: Situation) -> Option<Situation>
    ensures { option_map situation_seen result ≡ signal_seen (situation_seen now) }
{
    if now.takes_signals { Some(now) } else { None }
}

/// What a run knows once a job of the pattern comes, while it awaits no version. `None` if no server
/// gives it.
pub(crate) fn after_news(
    names: &[ThingName],
    pattern: &JobPattern<Text>,
    now: Situation,
) -> Option<Situation>
    ensures { option_map situation_seen result ≡ after_news (map name_seen names.now) pattern.now (situation_seen now) }
{
    match pattern {
        JobPattern::Start => Some(now),
        JobPattern::Signal(_) => after_signal(now),
        JobPattern::CancelRequested => Some(Situation {
            takes_signals: false,
            ..now
        }),
        JobPattern::Done(id) => after_tidings(Change::Ends, names, Thing::Activity, id, now),
        JobPattern::NotDone(id) => after_tidings(Change::Ends, names, Thing::Activity, id, now),
        JobPattern::Fired(id) => after_tidings(Change::Ends, names, Thing::Timer, id, now),
        JobPattern::ChildStarted(id) => after_tidings(Change::Starts, names, Thing::Child, id, now),
        JobPattern::ChildDone(id) => after_tidings(Change::Ends, names, Thing::Child, id, now),
        JobPattern::ChildCanceled(id) => after_tidings(Change::Ends, names, Thing::Child, id, now),
        JobPattern::ChildNotDone(id) => after_tidings(Change::Ends, names, Thing::Child, id, now),
        JobPattern::Version(_, _) => None,
        JobPattern::AnyVersion(_) => None,
    }
}

/// What a run knows once a job of the pattern comes, while it awaits a version. `None` if no server
/// gives it.
fn after_version(pattern: &JobPattern<Text>, now: Situation) -> Option<Situation>
    ensures { option_map situation_seen result ≡ after_version pattern.now (situation_seen now) }
{
    match pattern {
        JobPattern::Version(_, _) | JobPattern::AnyVersion(_) => Some(Situation {
            awaits_version: false,
            ..now
        }),
        _ => None,
    }
}

/// What a run knows once a job of the pattern comes. `None` if no server gives it.
pub(crate) fn after_pattern(
    names: &[ThingName],
    pattern: &JobPattern<Text>,
    now: Situation,
) -> Option<Situation>
    ensures { option_map situation_seen result ≡ after_pattern (map name_seen names.now) pattern.now (situation_seen now) }
{
    if now.awaits_version {
        after_version(pattern, now)
    } else {
        after_news(names, pattern, now)
    }
}

/// What a run knows once the job comes, while it awaits a version. `None` if no server gives it.
fn after_answer(job: &Job, now: Situation) -> Option<Situation>
    ensures { option_map situation_seen result ≡ version_given job.now (situation_seen now) }
{
    match job {
        Job::Version { .. } => Some(Situation {
            awaits_version: false,
            ..now
        }),
        _ => None,
    }
}

/// What a run knows once the job comes, while it awaits no version. `None` if no server gives it.
fn after_telling(names: &[ThingName], job: &Job, now: Situation) -> Option<Situation>
    ensures { option_map situation_seen result ≡ job_told (map name_seen names.now) job.now (situation_seen now) }
{
    match job {
        Job::Signal { .. } => after_signal(now),
        Job::CancelRequested => Some(Situation {
            takes_signals: false,
            ..now
        }),
        Job::Activity { id, .. } => after_tidings(Change::Ends, names, Thing::Activity, id, now),
        Job::TimerFired { id } => after_tidings(Change::Ends, names, Thing::Timer, id, now),
        Job::ChildStarted { workflow_id } => {
            after_tidings(Change::Starts, names, Thing::Child, workflow_id, now)
        }
        Job::Child { workflow_id, .. } => {
            after_tidings(Change::Ends, names, Thing::Child, workflow_id, now)
        }
        Job::Version { .. } => None,
        _ => Some(now),
    }
}

/// What a run knows once the job comes. `None` if no server gives it.
pub(crate) fn after_job(names: &[ThingName], job: &Job, now: Situation) -> Option<Situation>
    ensures { option_map situation_seen result ≡ after_job (map name_seen names.now) job.now (situation_seen now) }
{
    if now.awaits_version {
        after_answer(job, now)
    } else {
        after_telling(names, job, now)
    }
}
