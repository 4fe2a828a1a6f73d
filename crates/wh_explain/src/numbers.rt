//! The numbers of the events that give the jobs of a task.

ghost use Rattle.std.specs.Prelude.{◌≡◌, ◌++◌, ◌∷◌, [], ℕ, map, if◌then◌else◌, IfOk, OnOk};
ghost use Rattle.wh_workflow.specs.Jobs.{start_job, signal_job, outside_job};
ghost use Rattle.wh_explain.specs.Numbers.{numbers_by, numbers_of, numbers_at};
ghost use Rattle.wh_explain.specs.Private.Numbers.{job_in};
ghost use Rattle.wh_explain.specs.Numbers.{is_answer, number_of, left_after};
ghost use Rattle.wh_replay.specs.Activating.{IsWithin};
ghost use Rattle.wh_explain.specs.Private.Stepping.{Keeps};

use crate::explanation::DetailLevel;
use std::alloc::Global;
use wh_events::{Event, EventKind, EventNo, OutOfMemory};
use wh_replay::Cut;
use wh_workflow::Job;

/// A part of the jobs of a cut after its time. They have this order.
#[derive(Clone, Copy)]
pub(crate) enum JobPart {
    /// The start of the run.
    Start,
    /// Its signals.
    Signals,
    /// All others.
    Others,
}

/// Whether an event of the kind gives the job that starts the run.
fn is_start(kind: &EventKind) -> bool
    ensures { (n : ℕ) → map (λ _. n) (start_job kind.now) ≡ (if result then n ∷ [] else []) }
{
    matches!(kind, EventKind::WorkflowExecutionStarted { .. })
}

/// Whether an event of the kind gives the job of a signal.
fn is_signal(kind: &EventKind) -> bool
    ensures { (n : ℕ) → map (λ _. n) (signal_job kind.now) ≡ (if result then n ∷ [] else []) }
{
    matches!(kind, EventKind::WorkflowExecutionSignaled { .. })
}

/// Whether an event of the kind gives any other job.
fn is_outside(kind: &EventKind) -> bool
    ensures { (n : ℕ) → map (λ _. n) (outside_job [] kind.now) ≡ (if result then n ∷ [] else []) }
{
    match kind {
        EventKind::ActivityTaskCompleted { .. }
        | EventKind::ActivityTaskFailed { .. }
        | EventKind::ActivityTaskTimedOut { .. }
        | EventKind::ActivityTaskCanceled { .. }
        | EventKind::TimerFired { .. }
        | EventKind::ChildWorkflowExecutionStarted { .. }
        | EventKind::ChildWorkflowExecutionCompleted { .. }
        | EventKind::ChildWorkflowExecutionFailed { .. }
        | EventKind::ChildWorkflowExecutionCanceled { .. }
        | EventKind::ChildWorkflowExecutionTimedOut { .. }
        | EventKind::ChildWorkflowExecutionTerminated { .. }
        | EventKind::StartChildWorkflowExecutionFailed { .. }
        | EventKind::ExternalWorkflowExecutionCancelRequested { .. }
        | EventKind::RequestCancelExternalWorkflowExecutionFailed { .. }
        | EventKind::ExternalWorkflowExecutionSignaled { .. }
        | EventKind::SignalExternalWorkflowExecutionFailed { .. }
        | EventKind::WorkflowExecutionCancelRequested => true,
        _ => false,
    }
}

/// Adds a number, if its event gives a job.
fn push_if(numbers: &mut Vec<EventNo>, gives: bool, number: EventNo) -> Result<(), OutOfMemory>
    ensures { OnOk result
        (numbers.new.items ≡ numbers.old.items ++ (if gives then number ∷ [] else [])) }
{
    if gives {
        numbers.push(number)?;
    }
    Ok(())
}

/// Whether an event of the kind gives a job of the part.
fn gives(part: JobPart, kind: &EventKind) -> bool
    ensures { (n : ℕ) → map (λ _. n) (job_in part kind.now) ≡ (if result then n ∷ [] else []) }
{
    match part {
        JobPart::Start => is_start(kind),
        JobPart::Signals => is_signal(kind),
        JobPart::Others => is_outside(kind),
    }
}

/// Adds the numbers of the events that give the jobs of a part.
fn push_part(
    part: JobPart,
    between: &[Event],
    numbers: &mut Vec<EventNo>,
) -> Result<(), OutOfMemory>
    ensures { OnOk result (numbers.new.items ≡ numbers.old.items ++ numbers_by (job_in part) between.now) }
{
    for event in between {
        push_if(numbers, gives(part, &event.body), event.number)?;
    }
    Ok(())
}

/// Adds the numbers of the events that give the jobs of a cut. `between` has the events since the
/// cut before.
fn push_numbers(
    between: &[Event],
    cut: &Event,
    numbers: &mut Vec<EventNo>,
) -> Result<(), OutOfMemory>
    ensures { OnOk result (numbers.new.items ≡ numbers.old.items ++ numbers_of between.now cut.now) }
{
    numbers.push(cut.number)?;
    push_part(JobPart::Start, between, numbers)?;
    push_part(JobPart::Signals, between, numbers)?;
    push_part(JobPart::Others, between, numbers)
}

/// Lists the numbers of the events that give the jobs of a cut. `between` has the events since the
/// cut before.
fn numbers_of(alloc: Global, between: &[Event], cut: &Event) -> Result<Vec<EventNo>, OutOfMemory>
    ensures { IfOk result (λ numbers. numbers.items ≡ numbers_of between.now cut.now) }
{
    let mut numbers = Vec::new(alloc);
    push_numbers(between, cut, &mut numbers)?;
    Ok(numbers)
}

/// Lists the numbers of the events that give the jobs of a cut.
fn numbers_at(alloc: Global, cut: &Cut) -> Result<Vec<EventNo>, OutOfMemory>
    requires { IsWithin cut.now }
    ensures { let numbers = numbers_at cut.now.track.now cut.now.previous cut.now.number in
        IfOk result (λ found. found.items ≡ numbers) }
{
    let Some(event) = cut.track.event(cut.number) else {
        return Ok(Vec::new(alloc));
    };
    numbers_of(
        alloc,
        cut.track.between(cut.previous, cut.number.get()),
        event,
    )
}

/// Lists the numbers of the events that give the jobs of a cut, if they are kept, and else nothing.
pub(crate) fn numbers_kept(
    alloc: Global,
    detail: DetailLevel,
    cut: &Cut,
) -> Result<Vec<EventNo>, OutOfMemory>
    requires { IsWithin cut.now }
    ensures { let numbers = numbers_at cut.now.track.now cut.now.previous cut.now.number in
        IfOk result (λ kept. Keeps detail kept.items numbers) }
{
    match detail {
        DetailLevel::Verdict => Ok(Vec::new(alloc)),
        DetailLevel::Steps => numbers_at(alloc, cut),
    }
}

/// Whether the job is the answer to a request for a version, so that no event gave it.
fn is_answer(job: &Job) -> bool
    ensures { result ≡ is_answer job.now }
{
    matches!(job, Job::Version { .. })
}

/// Returns the number of the event that gave a job. `left` has the numbers for this job and the
/// jobs after it: at first those of a task (`ExplainedTask::given`), and then those that
/// `left_after` returns. The answer to a request for a version has no number.
pub fn number_of(job: &Job, left: &[EventNo]) -> Option<EventNo>
    ensures { result ≡ number_of job.now left.now }
{
    if is_answer(job) {
        None
    } else {
        left.first().copied()
    }
}

/// Returns the numbers that are left for the jobs after a job.
#[tactic(auto, using(std::proofs::lemmas::List::drop_min))]
pub fn left_after<'n>(job: &Job, left: &'n [EventNo]) -> &'n [EventNo]
    ensures { result.now ≡ left_after job.now left.now }
{
    if is_answer(job) {
        return left;
    }
    let one: usize = 1;
    let first = one.min(left.len());
    &left[first..]
}
