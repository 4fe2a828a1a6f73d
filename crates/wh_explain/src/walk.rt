//! Goes over the tasks of a history, each with the steps of its activation and with its record.
ghost use Rattle.std.specs.Prelude.{◌≡◌, List, [], IfOk, OnOk};
ghost use Rattle.wh_activation.specs.Cutting.{jobs_at};
ghost use Rattle.wh_workflow.specs.ActivationScripts.{Step};
ghost use Rattle.wh_replay.specs.Activating.{IsWithin};
ghost use Rattle.wh_replay.specs.Outcomes.{Answers};
ghost use Rattle.wh_replay.specs.Views.{context_of};
ghost use Rattle.wh_explain.specs.Explaining.{sent_ending, unless_refused};
ghost use Rattle.wh_explain.specs.Numbers.{numbers_at};
ghost use Rattle.wh_explain.specs.Private.Stepping.{Keeps};
ghost use Rattle.wh_explain.specs.Private.Tasks.{AddsKept, AreKept, EndsTask, OnFault, TakesTask};
ghost use Rattle.wh_explain.specs.Private.Tasks.{explained_task, fault_at, is_passed, mismatch_with, walked};

use crate::explanation::DetailLevel;
use crate::numbers::numbers_kept;
use crate::pairing::pair_up;
use crate::stepping::step_all;
use std::alloc::Global;
use wh_activation::jobs;
use wh_events::{Items, OutOfMemory};
use wh_explained_tasks::{Ending, ExplainedTask, Step};
use wh_machines::Track;
use wh_replay::{
    Activation, Cut, Fault, ReplayState, ReplayedTasks, RunFault, cut_after, sent_state,
};
use wh_workflow::{Command, Mismatch, Workflow, WorkflowFault};

/// Returns the first difference between the commands that a task sends and its record, if it is
/// recorded.
fn mismatch_with(cut: &Cut, sent: &[Command]) -> Option<Mismatch>
    requires { IsWithin cut.now }
    ensures { result ≡ mismatch_with cut.now.track.now sent.now (context_of cut.now).recorded }
{
    match cut.span {
        Some(span) => cut.difference(sent, span),
        None => None,
    }
}

/// Returns the fault of a task that sends these commands: that of an invalid one, or else that of
/// the first difference from its record.
fn fault_at(cut: &Cut, refused: Option<WorkflowFault>, sent: &[Command]) -> Option<Fault>
    requires { IsWithin cut.now }
    ensures { let mismatch = mismatch_with cut.now.track.now sent.now (context_of cut.now).recorded in
        result ≡ fault_at cut.now.number refused mismatch }
{
    let at = cut.number.get();
    if let Some(fault) = refused {
        return Some(Fault::Workflow { at, fault });
    }
    let mismatch = mismatch_with(cut, sent)?;
    Some(Fault::Mismatch { at, mismatch })
}

/// Whether nothing is kept of a task that has this fault, or none.
fn is_passed(detail: DetailLevel, fault: &Option<Fault>) -> bool
    ensures { result ≡ is_passed detail fault.now }
{
    match detail {
        DetailLevel::Verdict => fault.is_none(),
        DetailLevel::Steps => false,
    }
}

/// Returns how a task ends that sends these commands, which are valid.
fn sent_ending(alloc: Global, cut: &Cut, sent: Vec<Command>) -> Result<Ending, OutOfMemory>
    requires { IsWithin cut.now }
    ensures { IfOk result (λ ending.
        ending ≡ sent_ending cut.now.track.now sent.items (context_of cut.now).recorded) }
{
    let Some(span) = cut.span else {
        return Ok(Ending::Live {
            sent: Items::new(sent),
        });
    };
    let record = cut.track.between(span.from, span.to);
    let pairings = pair_up(alloc, cut.track.events(), sent.as_slice(), record)?;
    Ok(Ending::Recorded {
        pairings: Items::new(pairings),
    })
}

/// Returns how a task ends that sends these commands. The last one has the fault, if there is one.
fn ending_of(
    alloc: Global,
    cut: &Cut,
    refused: Option<WorkflowFault>,
    sent: Vec<Command>,
) -> Result<Ending, OutOfMemory>
    requires { IsWithin cut.now }
    ensures { let ending = sent_ending cut.now.track.now sent.items (context_of cut.now).recorded in
        IfOk result (λ own. own ≡ unless_refused refused ending) }
{
    match refused {
        Some(_) => Ok(Ending::Refused),
        None => sent_ending(alloc, cut, sent),
    }
}

/// Adds a task that has these steps and sends these commands to those before it.
fn add_task(
    alloc: Global,
    detail: DetailLevel,
    cut: &Cut,
    steps: Vec<Step>,
    refused: Option<WorkflowFault>,
    sent: Vec<Command>,
    tasks: &mut Vec<ExplainedTask>,
) -> Result<(), OutOfMemory>
    requires { IsWithin cut.now }
    ensures { (whole : List Step) → Keeps detail steps.items whole
        → let numbers = numbers_at cut.now.track.now cut.now.previous cut.now.number in
        let ending = sent_ending cut.now.track.now sent.items (context_of cut.now).recorded in
        let task = explained_task cut.now.number numbers whole (unless_refused refused ending) in
        OnOk result (AddsKept detail task tasks.old.items tasks.new.items) }
{
    let given = numbers_kept(alloc, detail, cut)?;
    let ending = ending_of(alloc, cut, refused, sent)?;
    let task = ExplainedTask {
        at: cut.number,
        given: Items::new(given),
        steps: Items::new(steps),
        ending,
    };
    Ok(tasks.push(task)?)
}

/// Ends a task that has these steps and sends these commands: adds it to those before it, if it is
/// kept, and returns its fault, if it has one.
fn end_task(
    alloc: Global,
    detail: DetailLevel,
    cut: &Cut,
    steps: Vec<Step>,
    refused: Option<WorkflowFault>,
    sent: Vec<Command>,
    tasks: &mut Vec<ExplainedTask>,
) -> Result<(), RunFault>
    requires { IsWithin cut.now }
    ensures { (whole : List Step) → Keeps detail steps.items whole
        → let numbers = numbers_at cut.now.track.now cut.now.previous cut.now.number in
        let ending = sent_ending cut.now.track.now sent.items (context_of cut.now).recorded in
        let task = explained_task cut.now.number numbers whole (unless_refused refused ending) in
        let mismatch = mismatch_with cut.now.track.now sent.items (context_of cut.now).recorded in
        let fault = fault_at cut.now.number refused mismatch in
        OnFault result (EndsTask detail task fault tasks.old.items tasks.new.items) }
{
    let fault = fault_at(cut, refused, sent.as_slice());
    if is_passed(detail, &fault) {
        return Ok(());
    }
    add_task(alloc, detail, cut, steps, refused, sent, tasks)?;
    match fault {
        Some(fault) => Err(RunFault::Fault(fault)),
        None => Ok(()),
    }
}

/// Replays the task of a cut, from what the tasks before it left, and adds it to those, if it is
/// kept. Returns what it leaves, or its fault.
fn take_task<W: Workflow>(
    alloc: Global,
    detail: DetailLevel,
    cut: &Cut,
    before: ReplayState<W::State>,
    tasks: &mut Vec<ExplainedTask>,
) -> Result<ReplayState<W::State>, RunFault>
    requires within { IsWithin cut.now }
    ensures { let told = jobs_at cut.now.track.now cut.now.previous cut.now.number in
        let numbers = numbers_at cut.now.track.now cut.now.previous cut.now.number in
        OnFault result (TakesTask detail W.program cut.now.track.now (context_of cut.now) told numbers cut.now.number
        before.state before.versions tasks.old.items tasks.new.items result) }
{
    let jobs = jobs(alloc, cut.track, cut.previous, cut.number)?;
    let mut activation = Activation::<W>::new(alloc, cut, before);
    let (steps, refused) = step_all(alloc, detail, cut, &mut activation, jobs)?;
    let ReplayState {
        state,
        versions,
        unsent,
    } = activation.finish()?;
    match end_task(alloc, detail, cut, steps, refused, unsent, tasks) {
        Ok(()) => Ok(sent_state(alloc, state, versions)),
        Err(fault) => {
            drop(state);
            drop(versions);
            Err(fault)
        }
    }
}

/// Goes over the tasks of a history in their order, up to the first that has a fault, and adds
/// those that are kept to `tasks`. Returns how many there are, and whether the last is live, or that
/// fault.
pub(crate) fn walk_tasks<W: Workflow>(
    alloc: Global,
    detail: DetailLevel,
    track: &Track,
    mut left: ReplayState<W::State>,
    tasks: &mut Vec<ExplainedTask>,
) -> Result<ReplayedTasks, RunFault>
    requires { tasks.old.items ≡ [] }
    ensures replayed_tasks { Answers result (walked W.program track.now left.state left.versions) (λ found. found) }
    ensures tasks { OnFault result (λ _.
        AreKept detail W.program track.now left.state left.versions tasks.new.items) }
{
    // Made for the proof: its contract says that the events are in place.
    let _proof_in_place = track.len();
    let mut count = 0;
    let mut live = false;
    let mut last = 0;
    while let Some(cut) = cut_after(track, last) {
        left = take_task::<W>(alloc, detail, &cut, left, tasks)?;
        count += 1;
        live |= cut.span.is_none();
        last = cut.number.get();
    }
    Ok(ReplayedTasks { tasks: count, live })
}
