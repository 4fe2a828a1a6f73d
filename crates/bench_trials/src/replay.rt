//! Replay as its definition computes it: each task goes through the history anew, up to the end of
//! its own record. The crates that define the jobs of a workflow, the valid commands and the
//! matches of a record are asked for these.
ghost use Rattle.std.specs.Prelude.{◌≡◌, ◌<◌, ◌≤◌, ◌+◌, false, length};
ghost use Rattle.wh_workflow.specs.Law.{is_ask, is_marker};

use crate::cuts::{after_completed, is_cut, is_recorded, until_completed};
use crate::places::history_fault;
use std::alloc::Global;
use wh_activation::jobs;
use wh_events::{Event, EventKind, EventNo, OutOfMemory, Text};
use wh_machines::Track;
use wh_match::{Script, ScriptFault, Versions, matches};
use wh_replay::{Fault, ReplayedTasks, RunFault};
use wh_workflow::{Command, Job, Meter, Workflow, WorkflowFault};

/// How often a workflow may be stepped for one job: each step but the last gives a command.
const MOST_STEPS: usize = 5_000;

/// The answer that no replay gives: the tables refuse events that the lists allow.
const REFUSED: RunFault = RunFault::Fault(Fault::NotATask);

/// A task of a history: the events up to the end of its record, and the commands so far.
#[derive(Drop)]
struct Task<'a> {
    track: Track,
    previous: u64,
    cut: EventNo,
    /// The events between its completion and the next, if the cut is recorded.
    record: Option<&'a [Event]>,
    script: Script,
}

/// Appends a copy of each event.
fn push_copies(copies: &mut Vec<Event>, events: &[Event]) -> Result<(), OutOfMemory> {
    for event in events {
        copies.push(event.try_copy()?)?;
    }
    Ok(())
}

/// A copy of the events.
pub(crate) fn copy_of(alloc: Global, events: &[Event]) -> Result<Vec<Event>, OutOfMemory> {
    let mut copies = Vec::new(alloc);
    let pushed = push_copies(&mut copies, events);
    pushed.and(Ok(copies))
}

/// Pushes a copy of each event. `None` if the track refuses one, or there is no memory.
fn push_all(track: &mut Track, events: &[Event]) -> Option<()> {
    for event in events {
        track.push(event.try_copy().ok()?).ok()?;
    }
    Some(())
}

/// A track of the events. `None` if it refuses one of them, or there is no memory.
pub(crate) fn track_of(alloc: Global, events: &[Event]) -> Option<Track> {
    let mut track = Track::new(alloc);
    let pushed = push_all(&mut track, events);
    pushed.and(Some(track))
}

/// The events between the completion of a cut before the rest and the next, if it is recorded.
fn record_of(rest: &[Event]) -> Option<&[Event]> {
    if !is_recorded(rest) {
        return None;
    }
    Some(until_completed(after_completed(rest)))
}

/// The end of the record of a cut before the rest; 0 if it has none.
fn record_end(rest: &[Event]) -> usize {
    if !is_recorded(rest) {
        return 0;
    }
    let after = after_completed(rest);
    rest.len()
        .saturating_sub(after.len())
        .saturating_add(until_completed(after).len())
}

/// The commands that a workflow gives for a job.
fn commands_of<W: Workflow>(
    alloc: Global,
    job: Job,
    state: &mut W::State,
) -> Result<Vec<Command>, OutOfMemory> {
    let mut given = Vec::new(alloc);
    let stepped = W::step(alloc, state, &job, &mut given, &mut Meter::new());
    drop(job);
    stepped.and(Ok(given))
}

/// Matches what is sent of the commands with the record of the cut, which stands between two
/// numbers.
fn match_record(
    track: &Track,
    cut: EventNo,
    script: Script,
    from: u64,
    to: u64,
) -> Result<(), RunFault>
    requires rising { from < to }
    requires within { to ≤ length track.now + 1 }
{
    let sent = script.reduce()?;
    let matched = matches(sent.as_slice(), track, from, to);
    drop(sent);
    match matched {
        Ok(()) => Ok(()),
        Err(mismatch) => Err(RunFault::Fault(Fault::Mismatch {
            at: cut.get(),
            mismatch,
        })),
    }
}

impl<'a> Task<'a> {
    /// The task of the cut at a place, after the last cut. `None` if the tables refuse the events.
    fn new(alloc: Global, events: &'a [Event], last: usize, place: usize) -> Option<Task<'a>> {
        let after = place.saturating_add(1);
        let rest = events.get(after..)?;
        let held = events.get(..after.saturating_add(record_end(rest)))?;
        let cut = EventNo::new(after as u64)?;
        let previous = last as u64;
        Some(Task {
            track: track_of(alloc, held)?,
            previous,
            cut,
            record: record_of(rest),
            script: Script::new(alloc, previous, cut),
        })
    }

    /// Asks for the version of a change, and answers by the job that has to come next.
    fn ask(
        &mut self,
        versions: &mut Versions,
        change_id: Text,
        min: i32,
        max: i32,
    ) -> Result<Option<Job>, ScriptFault> {
        let id = change_id.get();
        match self.script.ask(self.record, versions, id, min, max) {
            Ok(version) => Ok(Some(Job::Version { change_id, version })),
            Err(fault) => {
                drop(change_id);
                Err(fault)
            }
        }
    }

    /// Issues a command that asks for nothing.
    fn issue_plain(&mut self, command: Command) -> Result<Option<Job>, ScriptFault>
        requires not_ask { is_ask command ≡ false }
        requires not_marker { is_marker command ≡ false }
    {
        match self.script.issue(&self.track, command) {
            Ok(()) => Ok(None),
            Err(fault) => Err(fault),
        }
    }

    /// Issues a command, and answers a request for a version by the job that has to come next.
    fn issue(
        &mut self,
        versions: &mut Versions,
        command: Command,
    ) -> Result<Option<Job>, ScriptFault> {
        match command {
            Command::Ask {
                change_id,
                min,
                max,
            } => self.ask(versions, change_id, min, max),
            // No workflow gives a marker.
            Command::Marker { .. } => Ok(None),
            command => self.issue_plain(command),
        }
    }

    /// Steps a workflow by one job, and answers its request for a version.
    fn step<W: Workflow>(
        &mut self,
        alloc: Global,
        job: Job,
        state: &mut W::State,
        versions: &mut Versions,
    ) -> Result<Option<Job>, ScriptFault> {
        let mut given = commands_of::<W>(alloc, job, state)?.into_iter();
        let asked = given.try_fold(None, |last, command| {
            drop(last);
            self.issue(versions, command)
        });
        drop(given);
        asked
    }

    /// Steps a workflow by a job and the versions that it leads to.
    fn settle<W: Workflow>(
        &mut self,
        alloc: Global,
        job: Job,
        state: &mut W::State,
        versions: &mut Versions,
    ) -> Result<(), ScriptFault> {
        let mut next = Some(job);
        for _step in 0..MOST_STEPS {
            let Some(job) = next else {
                return Ok(());
            };
            next = self.step::<W>(alloc, job, state, versions)?;
        }
        drop(next);
        Ok(())
    }

    /// Steps a workflow by all jobs of the cut.
    fn run<W: Workflow>(
        &mut self,
        alloc: Global,
        state: &mut W::State,
        versions: &mut Versions,
    ) -> Result<(), ScriptFault> {
        for job in jobs(alloc, &self.track, self.previous, self.cut)? {
            self.settle::<W>(alloc, job, state, versions)?;
        }
        Ok(())
    }

    /// Matches what is sent of the commands with the record, if the cut is recorded.
    fn judge(self) -> Result<(), RunFault> {
        let Task {
            track,
            cut,
            record,
            script,
            ..
        } = self;
        let held = track.len() as u64;
        let judged = match record {
            Some(record) => {
                let from = held.saturating_sub(record.len() as u64);
                match_record(&track, cut, script, from, held + 1)
            }
            None => Ok(drop(script)),
        };
        drop(track);
        judged
    }
}

/// The workflow type of a history.
fn workflow_of(events: &[Event]) -> &str {
    if let Some(event) = events.first()
        && let EventKind::WorkflowExecutionStarted { workflow, .. } = &event.body
    {
        return workflow.get();
    }
    ""
}

/// What a fault of a script is for the task of the cut in a place.
fn fault_at(place: usize, fault: ScriptFault) -> RunFault {
    match fault {
        ScriptFault::OutOfMemory => RunFault::OutOfMemory,
        ScriptFault::Workflow(fault) => RunFault::Fault(Fault::Workflow {
            at: (place as u64).saturating_add(1),
            fault,
        }),
    }
}

/// Runs the task of the cut in a place.
fn run_task<W: Workflow>(
    alloc: Global,
    events: &[Event],
    last: usize,
    place: usize,
    state: &mut W::State,
    versions: &mut Versions,
) -> Result<(), RunFault> {
    let Some(mut task) = Task::new(alloc, events, last, place) else {
        return Err(REFUSED);
    };
    if let Err(fault) = task.run::<W>(alloc, state, versions) {
        drop(task);
        return Err(fault_at(place, fault));
    }
    task.judge()
}

/// Runs each task of a history that is in place.
fn run_tasks<W: Workflow>(
    alloc: Global,
    events: &[Event],
    state: &mut W::State,
    versions: &mut Versions,
) -> Result<ReplayedTasks, RunFault> {
    let mut replayed_tasks = ReplayedTasks {
        tasks: 0,
        live: false,
    };
    let mut last = 0;
    for place in 0..events.len() {
        let rest = &events[place + 1..];
        if is_cut(&events[place], rest) {
            run_task::<W>(alloc, events, last, place, state, versions)?;
            last = place + 1;
            replayed_tasks.tasks = replayed_tasks.tasks.saturating_add(1);
            replayed_tasks.live = !is_recorded(rest);
        }
    }
    Ok(replayed_tasks)
}

/// Replays a history that is in place.
fn replay<W: Workflow>(alloc: Global, events: &[Event]) -> Result<ReplayedTasks, RunFault> {
    let kind = workflow_of(events);
    if !W::handles(kind) {
        return Err(RunFault::Fault(Fault::Workflow {
            at: 1,
            fault: WorkflowFault::UnknownWorkflow,
        }));
    }
    let mut state = W::begin(alloc, kind)?;
    let mut versions = Versions::new(alloc);
    let replayed_tasks = run_tasks::<W>(alloc, events, &mut state, &mut versions);
    drop(versions);
    drop(state);
    replayed_tasks
}

/// Replays a history that may end anywhere. Returns what `wh_replay::replay_history` returns.
pub(crate) fn check<W: Workflow>(
    alloc: Global,
    events: &[Event],
) -> Result<ReplayedTasks, RunFault> {
    if let Some((at, fault)) = history_fault(events) {
        return Err(RunFault::Fault(Fault::Place { at, fault }));
    }
    replay::<W>(alloc, events)
}
