//! Replay of a history: its tasks in order, each an activation that is matched with its record.
ghost use Rattle.std.specs.Prelude.{◌≡◌, ◌≤◌, ℕ, [], length, take, drop, IfOk};
ghost use Rattle.wh_events.specs.Cuts.{cuts};
ghost use Rattle.wh_workflow.specs.Activations.{activate};
ghost use Rattle.wh_replay.specs.Activating.{IsWithin, IsOf};
ghost use Rattle.wh_replay.specs.Private.Activating.{fault_at};
ghost use Rattle.wh_replay.specs.Views.{context_of, progress_of, replay_result_of};
ghost use Rattle.wh_replay.specs.Private.Views.{task_of};
ghost use Rattle.wh_replay.specs.Replays.{close_task, task_after, workflow_of, start, replay_after, replay_known, replay_tasks};
ghost use Rattle.wh_replay.specs.Outcomes.{Answers, replayed_tasks, ends_live, state_after};

use crate::activation::Activation;
use crate::cut::Cut;
use crate::cuts::cut_after;
use crate::fault::{Fault, ReplayedTasks, RunFault};
use crate::pushing::track_of;
use crate::state::{ReplayState, send_unsent, start};
use std::alloc::Global;
use wh_activation::jobs;
use wh_events::{Event, EventKind, EventNo};
use wh_machines::Track;
use wh_match::ScriptFault;
use wh_workflow::{Job, Meter, Workflow, WorkflowFault};

/// What replay of the tasks of a history gives.
#[derive(Drop)]
pub(crate) struct Walk<S> {
    /// What the tasks leave.
    pub(crate) replayed: ReplayState<S>,
    /// What replay found on the way.
    pub(crate) replayed_tasks: ReplayedTasks,
}

/// Ends the task of a cut. The commands of a recorded task are matched with its record; those of a
/// live one are unsent. The meter, whatever it shows, stays as it is.
fn end_task<W: Workflow>(
    alloc: Global,
    cut: &Cut,
    activation: Activation<W>,
) -> Result<ReplayState<W::State>, RunFault>
    requires within { IsWithin cut.now }
    requires script { IsOf cut.now activation.script }
    ensures { (meter : ℕ) →
        let context = context_of cut.now in
        let progress = progress_of activation meter in
        let left = close_task cut.now.track.now context cut.now.number context.recorded progress in
        Answers result left (λ replayed. replay_result_of replayed meter) }
{
    let replayed = activation.finish()?;
    let Some(span) = cut.span else {
        return Ok(replayed);
    };
    let Some(mismatch) = cut.difference(replayed.unsent.as_slice(), span) else {
        return Ok(send_unsent(alloc, replayed));
    };
    drop(replayed);
    Err(RunFault::Fault(Fault::Mismatch {
        at: cut.number.get(),
        mismatch,
    }))
}

/// Returns the fault of an activation at the cut with the number.
fn fault_at(number: EventNo, fault: ScriptFault) -> RunFault
    ensures { result ≡ fault_at number fault }
{
    match fault {
        ScriptFault::OutOfMemory => RunFault::OutOfMemory,
        ScriptFault::Workflow(fault) => RunFault::Fault(Fault::Workflow {
            at: number.get(),
            fault,
        }),
    }
}

/// Steps the workflow by the jobs of a cut, and ends the task.
fn step_task<W: Workflow>(
    alloc: Global,
    cut: &Cut,
    mut activation: Activation<W>,
    jobs: &[Job],
    meter: &mut Meter,
) -> Result<ReplayState<W::State>, RunFault>
    requires within { IsWithin cut.now }
    requires script { IsOf cut.now activation.script }
    ensures stepped { let context = context_of cut.now in
        let ran = activate W.program context jobs.now (progress_of activation meter.old) in
        Answers result (task_after cut.now.track.now context cut.now.number ran)
        (λ left. replay_result_of left meter.new) }
    ensures never_lowered { meter.old ≤ meter.new }
{
    match activation.run(alloc, cut, jobs, meter) {
        Ok(()) => end_task::<W>(alloc, cut, activation),
        Err(fault) => {
            drop(activation);
            Err(fault_at(cut.number, fault))
        }
    }
}

/// Runs the task of a cut, after what the tasks before it left.
fn run_task<W: Workflow>(
    alloc: Global,
    cut: &Cut,
    before: ReplayState<W::State>,
    meter: &mut Meter,
) -> Result<ReplayState<W::State>, RunFault>
    requires within { IsWithin cut.now }
    ensures ran { let whole = task_of W.program cut.now (replay_result_of before meter.old) in
        Answers result whole (λ left. replay_result_of left meter.new) }
    ensures never_lowered { meter.old ≤ meter.new }
{
    let activation = Activation::<W>::new(alloc, cut, before);
    match jobs(alloc, cut.track, cut.previous, cut.number) {
        Ok(jobs) => step_task::<W>(alloc, cut, activation, jobs.as_slice(), meter),
        Err(_) => {
            drop(activation);
            Err(RunFault::OutOfMemory)
        }
    }
}

/// Returns the workflow type of a history whose first event starts the run, or the empty text for
/// any other.
pub fn workflow_of(events: &[Event]) -> &str
    ensures { result.now ≡ workflow_of events.now }
{
    if let Some(event) = events.first()
        && let EventKind::WorkflowExecutionStarted { workflow, .. } = &event.body
    {
        return workflow.get();
    }
    ""
}

/// Replays the tasks of a history from a place on. No event before that place belongs to them.
pub(crate) fn replay_since<W: Workflow>(
    alloc: Global,
    track: &Track,
    from: usize,
    mut replayed: ReplayState<W::State>,
    meter: &mut Meter,
) -> Result<Walk<W::State>, RunFault>
    requires { from ≤ length track.now }
    ensures replayed { let before = replay_result_of replayed meter.old in
        let whole = replay_after W.program (take from track.now) [] (drop from track.now) before in
        Answers result whole (λ walk. replay_result_of walk.replayed meter.new) }
    ensures tasks { IfOk result (λ walk. walk.replayed_tasks.tasks ≡ length (cuts (drop from track.now))) }
    ensures live { IfOk result (λ walk. walk.replayed_tasks.live ≡ ends_live (drop from track.now)) }
    ensures never_lowered { meter.old ≤ meter.new }
{
    // Called for the proof: its contract says that the events are in place.
    let _proof_in_place = track.len();
    let mut tasks = 0;
    let mut live = false;
    let mut last = from as u64;
    while let Some(cut) = cut_after(track, last) {
        replayed = run_task::<W>(alloc, &cut, replayed, meter)?;
        tasks += 1;
        live |= cut.span.is_none();
        last = cut.number.get();
    }
    Ok(Walk {
        replayed,
        replayed_tasks: ReplayedTasks { tasks, live },
    })
}

/// Replays all tasks of a history.
pub(crate) fn replay_all<W: Workflow>(
    alloc: Global,
    track: &Track,
    meter: &mut Meter,
) -> Result<Walk<W::State>, RunFault>
    ensures replayed { let kind = workflow_of track.now in
        let whole = replay_after W.program [] [] track.now (start W.program kind meter.old) in
        Answers result (replay_known (W.program.knows kind) whole) (λ walk. replay_result_of walk.replayed meter.new) }
    ensures tasks { IfOk result (λ walk. walk.replayed_tasks.tasks ≡ length (cuts track.now)) }
    ensures live { IfOk result (λ walk. walk.replayed_tasks.live ≡ ends_live track.now) }
    ensures never_lowered { meter.old ≤ meter.new }
{
    let kind = workflow_of(track.events());
    if !W::handles(kind) {
        return Err(RunFault::Fault(Fault::Workflow {
            at: 1,
            fault: WorkflowFault::UnknownWorkflow,
        }));
    }
    let first = start::<W>(alloc, kind)?;
    replay_since::<W>(alloc, track, 0, first, meter)
}

/// Replays a history from its first event. That all events are in place is seen before the first task
/// is stepped.
#[tactic(auto, unfolding(crate::specs::Replays::replay_tasks))]
pub(crate) fn replay<W: Workflow>(
    alloc: Global,
    events: Vec<Event>,
    meter: &mut Meter,
) -> Result<(Track, Walk<W::State>), RunFault>
    ensures replayed { let whole = replay_tasks W.program events.items meter.old in
        Answers result whole (λ left. replay_result_of left.1.replayed meter.new) }
    ensures track { IfOk result (λ left. left.0 ≡ events.items) }
    ensures tasks { IfOk result (λ left. left.1.replayed_tasks.tasks ≡ length (cuts events.items)) }
    ensures live { IfOk result (λ left. left.1.replayed_tasks.live ≡ ends_live events.items) }
    ensures never_lowered { meter.old ≤ meter.new }
{
    let track = track_of(alloc, events)?;
    match replay_all::<W>(alloc, &track, meter) {
        Ok(walk) => Ok((track, walk)),
        Err(fault) => {
            drop(track);
            Err(fault)
        }
    }
}

/// Replays a history that may end anywhere, and returns what was found. `OutOfMemory` can replace
/// any fault.
pub fn replay_history<W: Workflow>(
    alloc: Global,
    events: Vec<Event>,
) -> Result<ReplayedTasks, RunFault>
    ensures replayed_tasks { Answers result (replayed_tasks W.program events.items) (λ answer. answer) }
    ensures tasks { IfOk result (λ answer. answer.tasks ≡ length (cuts events.items)) }
    ensures live { IfOk result (λ answer. answer.live ≡ ends_live events.items) }
{
    let mut meter = Meter::new();
    let (track, walk) = replay::<W>(alloc, events, &mut meter)?;
    let replayed_tasks = walk.replayed_tasks;
    drop(track);
    drop(walk);
    Ok(replayed_tasks)
}

/// Returns the state in which replay of a history leaves the workflow, and what was found on the
/// way, as `replay_history` returns it. The history may end anywhere: what comes after its last task is not
/// given to the workflow yet. `OutOfMemory` can replace any fault.
pub fn replay_to_end<W: Workflow>(
    alloc: Global,
    events: Vec<Event>,
) -> Result<(W::State, ReplayedTasks), RunFault>
    ensures state { Answers result (state_after W.program events.items) (λ left. left.0) }
    ensures replayed_tasks { Answers result (replayed_tasks W.program events.items) (λ left. left.1) }
{
    let (track, walk) = replay::<W>(alloc, events, &mut Meter::new())?;
    drop(track);
    let Walk {
        replayed,
        replayed_tasks,
    } = walk;
    let ReplayState { state, .. } = replayed;
    Ok((state, replayed_tasks))
}

/// Returns the state in which replay of a history leaves the workflow. The history may end
/// anywhere: what comes after its last task is not given to the workflow yet. `OutOfMemory` can
/// replace any fault.
pub fn state_after<W: Workflow>(alloc: Global, events: Vec<Event>) -> Result<W::State, RunFault>
    ensures { Answers result (state_after W.program events.items) (λ state. state) }
{
    let (state, _) = replay_to_end::<W>(alloc, events)?;
    Ok(state)
}
