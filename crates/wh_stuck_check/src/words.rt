//! Moves as the text of a scenario.
ghost use Rattle.std.specs.Prelude.{◌≡◌, ◌++◌, Some, IfOk, OnOk, string_bytes, map};
ghost use Rattle.wh_stuck_check.specs.Verdicts.{move_of};
ghost use Rattle.wh_stuck_check.specs.Scenarios.{activity_word, child_word, job_words, scenario_text};
ghost use Rattle.wh_stuck_check.specs.Scenarios.{fault_name, duration_words, stuck_words, doubt_words};
ghost use Rattle.wh_stuck_check.specs.Private.Joints.{joint_text, AddsMove};

use crate::moves::ServerMove;
use crate::verdict::{StuckDoubt, StuckRun};
use std::alloc::{AllocError, Global};
use wh_workflow::{ActivityEnd, ChildEnd, Job, WorkflowFault};

/// The word for how an activity ended.
fn activity_word(end: &ActivityEnd) -> &'static str
    ensures { result.now ≡ activity_word end.now }
{
    match end {
        ActivityEnd::Completed(_) => "done",
        ActivityEnd::Failed => "failed",
        ActivityEnd::TimedOut => "timed-out",
        ActivityEnd::Canceled => "canceled",
    }
}

/// The word for how a child ended.
fn child_word(end: &ChildEnd) -> &'static str
    ensures { result.now ≡ child_word end.now }
{
    match end {
        ChildEnd::Completed(_) => "child-done",
        ChildEnd::Failed => "child-failed",
        ChildEnd::Canceled => "child-canceled",
        ChildEnd::TimedOut => "child-timed-out",
        ChildEnd::Terminated => "child-terminated",
        ChildEnd::StartFailed => "child-not-started",
    }
}

/// Returns a job as a scenario writes it, without what it carries. The time and what became of requests
/// to other workflows have no words there.
pub fn job_words(alloc: Global, job: &Job) -> Result<String, AllocError>
    ensures { IfOk result (λ text. string_bytes text ≡ job_words job.now) }
{
    match job {
        Job::Start { .. } => format!(in alloc; "start"),
        Job::CancelRequested => format!(in alloc; "cancel"),
        Job::Signal { name, .. } => {
            let name = name.get();
            format!(in alloc; "signal {name}")
        }
        Job::Activity { id, end } => {
            let word = activity_word(end);
            let id = id.get();
            format!(in alloc; "{word} {id}")
        }
        Job::TimerFired { id } => {
            let id = id.get();
            format!(in alloc; "fired {id}")
        }
        Job::ChildStarted { workflow_id } => {
            let id = workflow_id.get();
            format!(in alloc; "child-started {id}")
        }
        Job::Child { workflow_id, end } => {
            let word = child_word(end);
            let id = workflow_id.get();
            format!(in alloc; "{word} {id}")
        }
        Job::Version { change_id, version } => {
            let change = change_id.get();
            let number = *version;
            format!(in alloc; "version {change} {number}")
        }
        _ => format!(in alloc; "?"),
    }
}

/// Adds a job after a separator.
fn add_job(text: &mut String, alloc: Global, separator: &str, job: &Job) -> Result<(), AllocError>
    ensures { OnOk result (string_bytes text.new ≡ string_bytes text.old ++ (separator.now ++ job_words job.now)) }
{
    let words = job_words(alloc, job)?;
    text.push_str(separator)?;
    text.push_str(words.as_str())?;
    Ok(())
}

/// What stands before a job.
#[derive(Clone, Copy)]
enum Joint {
    /// Nothing: it is the first one.
    Nothing,
    /// What stands between tasks.
    Task,
    /// What stands between the jobs of a task.
    Job,
}

/// The text of what stands before a job.
fn joint_text(joint: Joint) -> &'static str
    ensures { result.now ≡ joint_text joint }
{
    match joint {
        Joint::Nothing => "",
        Joint::Task => "; ",
        Joint::Job => " + ",
    }
}

/// Adds a move, and returns what stands before the next job.
fn add_move(
    text: &mut String,
    alloc: Global,
    joint: Joint,
    one: &ServerMove,
) -> Result<Joint, AllocError>
    ensures { IfOk result (λ next. AddsMove (string_bytes text.old) (joint_text joint) (move_of one.now)
        (string_bytes text.new) (joint_text next)) }
{
    match one {
        ServerMove::GivesJob(job) => {
            add_job(text, alloc, joint_text(joint), job)?;
            Ok(Joint::Job)
        }
        ServerMove::NextTask(_) => Ok(Joint::Task),
    }
}

/// Returns moves as the text of a scenario: `; ` stands between tasks, and ` + ` between the jobs of one
/// task.
pub fn scenario_text(alloc: Global, moves: &[ServerMove]) -> Result<String, AllocError>
    ensures { IfOk result (λ text. string_bytes text ≡ scenario_text (map move_of moves.now)) }
{
    let mut text = String::new(alloc);
    let mut joint = Joint::Nothing;
    for one in moves {
        joint = add_move(&mut text, alloc, joint, one)?;
    }
    Ok(text)
}

/// Returns the name of a fault by which a run gets stuck.
fn fault_name(fault: WorkflowFault) -> &'static str
    ensures { result.now ≡ fault_name fault }
{
    match fault {
        WorkflowFault::IdInUse => "IdInUse",
        WorkflowFault::IdReused => "IdReused",
        WorkflowFault::AlreadyCancelling => "AlreadyCancelling",
        _ => "NotOpen",
    }
}

/// Returns how long a task fails at a command.
fn duration_words(heals: bool) -> &'static str
    ensures { result.now ≡ duration_words heals }
{
    if heals {
        "until what is open ends"
    } else {
        "for good"
    }
}

/// Returns how a table gets stuck, in words: the fault, how long the task fails, and the scenario, as in
/// `gets stuck by NotOpen, for good: start; fired day + signal stop`.
pub fn stuck_words(alloc: Global, run: &StuckRun) -> Result<String, AllocError>
    ensures { IfOk result (λ text. string_bytes text ≡ stuck_words run.now) }
{
    let name = fault_name(run.command.fault);
    let duration = duration_words(run.command.heals);
    let scenario = scenario_text(alloc, run.moves.as_slice())?;
    format!(in alloc; "gets stuck by {name}, {duration}: {scenario}")
}

/// Returns why it is not decided whether a table gets stuck, in words.
pub fn doubt_words(doubt: StuckDoubt) -> &'static str
    ensures { result.now ≡ doubt_words doubt }
{
    match doubt {
        StuckDoubt::ByName => "it may depend on the name of the run",
        StuckDoubt::TooMany => "too many configurations",
        StuckDoubt::UnsureJobs => "a run was found that has a version or a second cancel request",
        StuckDoubt::Unconfirmed => "what was found is not confirmed",
    }
}
