//! The jobs of a cut, made from the events since the cut before.
ghost use Rattle.std.specs.Prelude.{◌≡◌, ◌++◌, ◌+◌, ◌≤◌, length, Some, OnOk, IfOk};
ghost use Rattle.wh_activation.specs.Cutting.{listed, jobs_at};
ghost use Rattle.wh_machines.specs.Lookups.{events_between};
ghost use Rattle.wh_workflow.specs.Jobs.{id_at, signal_at, start_job, signal_job, outside_job, jobs_of};
ghost use Rattle.wh_workflow.specs.declared.job.Job.TheVariants.{Activity, Child, SignalSent, SignalFailed};

use std::alloc::Global;
use wh_events::{Event, EventKind, EventNo, OutOfMemory, Text, opened_id};
use wh_machines::Track;
use wh_workflow::{ActivityEnd, ChildEnd, Job};

/// Copies the id under which the event of the number opened something.
fn copy_id(alloc: Global, events: &[Event], number: u64) -> Result<Text, OutOfMemory>
    ensures { IfOk result (λ text. text ≡ id_at events.now number) }
{
    Ok(Text::new(String::from_str(alloc, opened_id(events, number))?))
}

/// Copies the name of the signal that the event of the number sends.
fn copy_signal(alloc: Global, events: &[Event], number: u64) -> Result<Text, OutOfMemory>
    ensures { IfOk result (λ text. text ≡ signal_at events.now number) }
{
    if let Some(event) = events.get(number.saturating_sub(1) as usize)
        && let EventKind::SignalExternalWorkflowExecutionInitiated { signal, .. } = &event.body
    {
        return signal.try_copy();
    }
    Ok(Text::new(String::new(alloc)))
}

/// Returns the job of the event that starts the run.
fn start_job(kind: &EventKind) -> Result<Option<Job>, OutOfMemory>
    ensures { IfOk result (λ job. listed job ≡ start_job kind.now) }
{
    let EventKind::WorkflowExecutionStarted { workflow, input } = kind else {
        return Ok(None);
    };
    let workflow = workflow.try_copy()?;
    let input = input.try_copy()?;
    Ok(Some(Job::Start { workflow, input }))
}

/// Returns the job of a signal.
fn signal_job(kind: &EventKind) -> Result<Option<Job>, OutOfMemory>
    ensures { IfOk result (λ job. listed job ≡ signal_job kind.now) }
{
    let EventKind::WorkflowExecutionSignaled { name, input } = kind else {
        return Ok(None);
    };
    let name = name.try_copy()?;
    let input = input.try_copy()?;
    Ok(Some(Job::Signal { name, input }))
}

/// Returns the job for the end of the activity that the event of the number scheduled.
fn activity_job(
    alloc: Global,
    seen: &[Event],
    number: u64,
    end: ActivityEnd,
) -> Result<Option<Job>, OutOfMemory>
    ensures { IfOk result (λ job. job ≡ Some (Activity (id_at seen.now number) end)) }
{
    let id = copy_id(alloc, seen, number)?;
    Ok(Some(Job::Activity { id, end }))
}

/// Returns the job for the end of the child that the event of the number initiated.
fn child_job(
    alloc: Global,
    seen: &[Event],
    number: u64,
    end: ChildEnd,
) -> Result<Option<Job>, OutOfMemory>
    ensures { IfOk result (λ job. job ≡ Some (Child (id_at seen.now number) end)) }
{
    let workflow_id = copy_id(alloc, seen, number)?;
    Ok(Some(Job::Child { workflow_id, end }))
}

/// Returns the job which says that the signal that the event of the number initiated was delivered.
fn sent_job(alloc: Global, seen: &[Event], number: u64) -> Result<Option<Job>, OutOfMemory>
    ensures { IfOk result (λ job. job ≡ Some (SignalSent (id_at seen.now number) (signal_at seen.now number))) }
{
    let workflow_id = copy_id(alloc, seen, number)?;
    let signal = copy_signal(alloc, seen, number)?;
    Ok(Some(Job::SignalSent {
        workflow_id,
        signal,
    }))
}

/// Returns the job which says that the signal that the event of the number initiated could not be
/// delivered.
fn unsent_job(alloc: Global, seen: &[Event], number: u64) -> Result<Option<Job>, OutOfMemory>
    ensures { IfOk result (λ job. job ≡ Some (SignalFailed (id_at seen.now number) (signal_at seen.now number))) }
{
    let workflow_id = copy_id(alloc, seen, number)?;
    let signal = copy_signal(alloc, seen, number)?;
    Ok(Some(Job::SignalFailed {
        workflow_id,
        signal,
    }))
}

/// Returns the job of another outside event.
fn outside_job(alloc: Global, seen: &[Event], kind: &EventKind) -> Result<Option<Job>, OutOfMemory>
    ensures { IfOk result (λ job. listed job ≡ outside_job seen.now kind.now) }
{
    match kind {
        EventKind::ActivityTaskCompleted { scheduled, result } => {
            activity_job(
                alloc,
                seen,
                *scheduled,
                ActivityEnd::Completed(result.try_copy()?),
            )
        }
        EventKind::ActivityTaskFailed { scheduled } => activity_job(
            alloc,
            seen,
            *scheduled,
            ActivityEnd::Failed,
        ),
        EventKind::ActivityTaskTimedOut { scheduled } => activity_job(
            alloc,
            seen,
            *scheduled,
            ActivityEnd::TimedOut,
        ),
        EventKind::ActivityTaskCanceled { scheduled } => activity_job(
            alloc,
            seen,
            *scheduled,
            ActivityEnd::Canceled,
        ),
        EventKind::TimerFired { started } => {
            let id = copy_id(alloc, seen, *started)?;
            Ok(Some(Job::TimerFired { id }))
        }
        EventKind::ChildWorkflowExecutionStarted { initiated } => {
            let workflow_id = copy_id(alloc, seen, *initiated)?;
            Ok(Some(Job::ChildStarted { workflow_id }))
        }
        EventKind::ChildWorkflowExecutionCompleted { initiated, result } => {
            child_job(
                alloc,
                seen,
                *initiated,
                ChildEnd::Completed(result.try_copy()?),
            )
        }
        EventKind::ChildWorkflowExecutionFailed { initiated } => child_job(
            alloc,
            seen,
            *initiated,
            ChildEnd::Failed,
        ),
        EventKind::ChildWorkflowExecutionCanceled { initiated } => child_job(
            alloc,
            seen,
            *initiated,
            ChildEnd::Canceled,
        ),
        EventKind::ChildWorkflowExecutionTimedOut { initiated } => child_job(
            alloc,
            seen,
            *initiated,
            ChildEnd::TimedOut,
        ),
        EventKind::ChildWorkflowExecutionTerminated { initiated } => child_job(
            alloc,
            seen,
            *initiated,
            ChildEnd::Terminated,
        ),
        EventKind::StartChildWorkflowExecutionFailed { initiated } => child_job(
            alloc,
            seen,
            *initiated,
            ChildEnd::StartFailed,
        ),
        EventKind::ExternalWorkflowExecutionCancelRequested { initiated } => {
            let workflow_id = copy_id(alloc, seen, *initiated)?;
            Ok(Some(Job::CancelSent { workflow_id }))
        }
        EventKind::RequestCancelExternalWorkflowExecutionFailed { initiated } => {
            let workflow_id = copy_id(alloc, seen, *initiated)?;
            Ok(Some(Job::CancelFailed { workflow_id }))
        }
        EventKind::ExternalWorkflowExecutionSignaled { initiated } => sent_job(
            alloc, seen, *initiated,
        ),
        EventKind::SignalExternalWorkflowExecutionFailed { initiated } => unsent_job(
            alloc, seen, *initiated,
        ),
        EventKind::WorkflowExecutionCancelRequested => Ok(Some(Job::CancelRequested)),
        _ => Ok(None),
    }
}

/// Appends the job, if there is one.
fn push_job(jobs: &mut Vec<Job>, job: Option<Job>) -> Result<(), OutOfMemory>
    ensures { OnOk result (jobs.new.items ≡ jobs.old.items ++ listed job) }
{
    if let Some(job) = job {
        jobs.push(job)?;
    }
    Ok(())
}

/// Returns the jobs of a cut. `seen` holds the events up to and with the cut, and `between` those
/// since the cut before.
fn jobs_of(
    alloc: Global,
    seen: &[Event],
    between: &[Event],
    cut: &Event,
) -> Result<Vec<Job>, OutOfMemory>
    ensures { IfOk result (λ jobs. jobs.items ≡ jobs_of seen.now between.now cut.now) }
{
    let mut jobs = Vec::new(alloc);
    jobs.push(Job::Time(cut.time))?;
    let mut signals = Vec::new(alloc);
    let mut others = Vec::new(alloc);
    for event in between {
        push_job(&mut jobs, start_job(&event.body)?)?;
        push_job(&mut signals, signal_job(&event.body)?)?;
        push_job(&mut others, outside_job(alloc, seen, &event.body)?)?;
    }
    jobs.append(&mut signals)?;
    jobs.append(&mut others)?;
    Ok(jobs)
}

/// Returns the events strictly between two numbers, the second of which is at most one more than
/// the last. There are none if the first number is not below the second.
#[tactic(auto, using(std::proofs::lemmas::List::drop_min))]
fn between(events: &[Event], from: u64, to: EventNo) -> &[Event]
    requires { to ≤ length events.now + 1 }
    ensures { result.now ≡ events_between events.now from to }
{
    let before = &events[..(to.get() - 1) as usize];
    let first = (from as usize).min(before.len());
    &before[first..]
}

/// Returns the jobs that a workflow is given at the cut `to`, the WorkflowTaskStarted of a workflow
/// task. `from` is the cut before, or 0 for the first cut. The jobs are the time of the cut, the
/// start if the run starts since the cut before, the signals since then in the order of the
/// history, and then the other outside events since then in that order, except starts of
/// activities. (Temporal documentation, workflow tasks:
/// <https://docs.temporal.io/tasks#workflow-task>; events:
/// <https://docs.temporal.io/references/events>.)
///
/// Neither number is checked to be a cut, and later events change nothing. If `from` is not below
/// `to`, no event stands between them, and the time is the only job. If the track holds no event
/// `to`, there is no job. Fails with `OutOfMemory` if the allocator refused memory; nothing is kept
/// then, and the track is as it was.
pub fn jobs(alloc: Global, track: &Track, from: u64, to: EventNo) -> Result<Vec<Job>, OutOfMemory>
    ensures { IfOk result (λ jobs. jobs.items ≡ jobs_at track.now from to) }
{
    let Some(cut) = track.event(to) else {
        return Ok(Vec::new(alloc));
    };
    let events = track.events();
    let seen = &events[..to.get() as usize];
    jobs_of(alloc, seen, between(events, from, to), cut)
}
