//! The steps of an activation, each a job with the commands that the workflow gives at it.
ghost use Rattle.std.specs.Prelude.{◌≡◌, [], None, IfOk, OnOk};
ghost use Rattle.wh_activation.specs.Cutting.{jobs_at};
ghost use Rattle.wh_workflow.specs.Activations.{turn};
ghost use Rattle.wh_replay.specs.Views.{context_of, progress_of, turn_of};
ghost use Rattle.wh_replay.specs.Activating.{Gives, IsWithin, IsOf};
ghost use Rattle.wh_explain.specs.Private.Stepping.{AddsStep, Ran, Shows};

use crate::explanation::DetailLevel;
use std::alloc::Global;
use wh_events::OutOfMemory;
use wh_explained_tasks::Step;
use wh_match::ScriptFault;
use wh_replay::{Activation, Cut, IssueFault, copy_commands};
use wh_workflow::{Command, Job, Meter, Workflow, WorkflowFault};

/// Steps the workflow by one job, and answers its request for a version, if it has one. Shows the
/// commands that it gives. If one of them is invalid, shows those up to and with that one.
fn step_shown<W: Workflow>(
    alloc: Global,
    cut: &Cut,
    activation: &mut Activation<W>,
    job: &Job,
    meter: &mut Meter,
    shown: &mut Vec<Command>,
) -> Result<Option<Job>, ScriptFault>
    requires within { IsWithin cut.now }
    requires script { IsOf cut.now activation.old.script }
    ensures turned { let whole = turn W.program (context_of cut.now) job.now (progress_of activation.old meter.old) in
        Gives result whole (turn_of activation.new meter.new) }
    ensures shown { let before = progress_of activation.old meter.old in
        Shows result W.program (context_of cut.now) before job.now shown.new.items }
    ensures script { OnOk result (IsOf cut.now activation.new.script) }
{
    let given = activation.step(alloc, job, meter)?;
    *shown = copy_commands(alloc, given.as_slice())?;
    match activation.respond(cut, given) {
        Ok(next) => Ok(next),
        Err(IssueFault { place, fault }) => {
            shown.truncate(place);
            Err(fault)
        }
    }
}

/// Steps the workflow by one job, adds the step to those before it, and answers the request for a
/// version, if there is one.
fn add_step<W: Workflow>(
    alloc: Global,
    cut: &Cut,
    activation: &mut Activation<W>,
    job: Job,
    meter: &mut Meter,
    steps: &mut Vec<Step>,
) -> Result<Option<Job>, ScriptFault>
    requires within { IsWithin cut.now }
    requires script { IsOf cut.now activation.old.script }
    ensures turned { let whole = turn W.program (context_of cut.now) job (progress_of activation.old meter.old) in
        Gives result whole (turn_of activation.new meter.new) }
    ensures added { let before = progress_of activation.old meter.old in
        AddsStep result W.program (context_of cut.now) before job steps.old.items steps.new.items }
    ensures script { OnOk result (IsOf cut.now activation.new.script) }
{
    match steps.reserve(1) {
        Ok(()) => {}
        Err(_full) => {
            drop(job);
            return Err(ScriptFault::OutOfMemory);
        }
    }
    let mut shown = Vec::new(alloc);
    let answer = step_shown(alloc, cut, activation, &job, meter, &mut shown);
    steps.push_reserved(Step::new(job, shown));
    answer
}

/// Steps the workflow by the jobs of a cut and by the versions that they ask for, as a worker does,
/// up to the first step with a fault. Returns that fault, and keeps nothing of the steps.
fn run_jobs<W: Workflow>(
    alloc: Global,
    cut: &Cut,
    activation: &mut Activation<W>,
    jobs: &[Job],
) -> Result<Option<WorkflowFault>, OutOfMemory>
    requires within { IsWithin cut.now }
    requires script { IsOf cut.now activation.old.script }
    requires unissued { activation.old.script.issued ≡ [] }
    requires told { jobs.now ≡ jobs_at cut.now.track.now cut.now.previous cut.now.number }
    ensures steps { IfOk result (λ fault. Ran DetailLevel.Verdict W.program (context_of cut.now) jobs.now
        activation.old.state activation.old.versions [] fault
        activation.new.state activation.new.versions activation.new.script.issued) }
    ensures script { IfOk result (λ fault. fault ≡ None → IsOf cut.now activation.new.script) }
{
    let mut meter = Meter::new();
    match activation.run(alloc, cut, jobs, &mut meter) {
        Ok(()) => Ok(None),
        Err(ScriptFault::Workflow(fault)) => Ok(Some(fault)),
        Err(ScriptFault::OutOfMemory) => Err(OutOfMemory),
    }
}

/// Steps the workflow by the jobs of a cut and by the versions that they ask for, up to the first
/// step with a fault. Returns the steps and the fault.
fn show_jobs<W: Workflow>(
    alloc: Global,
    cut: &Cut,
    activation: &mut Activation<W>,
    jobs: Vec<Job>,
) -> Result<(Vec<Step>, Option<WorkflowFault>), OutOfMemory>
    requires within { IsWithin cut.now }
    requires script { IsOf cut.now activation.old.script }
    requires unissued { activation.old.script.issued ≡ [] }
    requires told { jobs.items ≡ jobs_at cut.now.track.now cut.now.previous cut.now.number }
    ensures steps { IfOk result (λ ran. Ran DetailLevel.Steps W.program (context_of cut.now) jobs.items
        activation.old.state activation.old.versions ran.0.items ran.1
        activation.new.state activation.new.versions activation.new.script.issued) }
    ensures script { IfOk result (λ ran. ran.1 ≡ None → IsOf cut.now activation.new.script) }
{
    let mut meter = Meter::new();
    let mut steps = Vec::new(alloc);
    let mut jobs = jobs.into_iter();
    let mut next = jobs.next();
    while let Some(job) = next {
        next = match add_step(alloc, cut, activation, job, &mut meter, &mut steps) {
            Ok(Some(version)) => Some(version),
            Ok(None) => jobs.next(),
            Err(ScriptFault::Workflow(fault)) => return Ok((steps, Some(fault))),
            Err(ScriptFault::OutOfMemory) => return Err(OutOfMemory),
        };
    }
    Ok((steps, None))
}

/// Steps the workflow by the jobs of a cut and by the versions that they ask for, up to the first
/// step with a fault. Returns the steps, if they are kept, and the fault.
pub(crate) fn step_all<W: Workflow>(
    alloc: Global,
    detail: DetailLevel,
    cut: &Cut,
    activation: &mut Activation<W>,
    jobs: Vec<Job>,
) -> Result<(Vec<Step>, Option<WorkflowFault>), OutOfMemory>
    requires within { IsWithin cut.now }
    requires script { IsOf cut.now activation.old.script }
    requires unissued { activation.old.script.issued ≡ [] }
    requires told { jobs.items ≡ jobs_at cut.now.track.now cut.now.previous cut.now.number }
    ensures steps { IfOk result (λ ran. Ran detail W.program (context_of cut.now) jobs.items
        activation.old.state activation.old.versions ran.0.items ran.1
        activation.new.state activation.new.versions activation.new.script.issued) }
    ensures script { IfOk result (λ ran. ran.1 ≡ None → IsOf cut.now activation.new.script) }
{
    match detail {
        DetailLevel::Verdict => {
            let fault = run_jobs(alloc, cut, activation, jobs.as_slice())?;
            Ok((Vec::new(alloc), fault))
        }
        DetailLevel::Steps => show_jobs(alloc, cut, activation, jobs),
    }
}
