//! Finds the tasks that share things, such as activities, with another task.

ghost use Rattle.std.specs.Prelude.{◌≡◌, option_map};
ghost use Rattle.std.specs.List.{list_any};
ghost use Rattle.wh_explain_report.specs.Sharing as sharing;

use wh_explain::{Ending, ExplainedTask, Pairing, Step};
use wh_phrases::event_phrase;
use wh_workflow::{Command, Job};

/// Returns whether the second id is there, and the same as the first.
fn is_id(id: &str, other: Option<&str>) -> bool
    ensures { result ≡ sharing.is_id id.now (option_map (λ s. s.now) other.entry) }
{
    match other {
        Some(other) => id == other,
        None => false,
    }
}

/// Returns the id of the thing that a job is about. The start of a run and a received signal are
/// about none.
fn thing_of(job: &Job) -> Option<&str>
    ensures { option_map (λ s. s.now) result ≡ sharing.thing_of job.now }
{
    match job {
        Job::Start { .. } | Job::Signal { .. } => None,
        _ => job.phrase().id,
    }
}

/// Returns whether a command is about the thing of an id.
fn command_has(id: &str, command: &Command) -> bool
    ensures { result ≡ sharing.command_has id.now command.now }
{
    is_id(id, command.phrase().id)
}

/// Returns whether one of the commands is about the thing of an id.
fn commands_have(id: &str, commands: &[Command]) -> bool
    ensures { result ≡ list_any (sharing.command_has id.now) commands.now }
{
    commands.iter().any(|command| command_has(id, command))
}

/// Returns whether a step is about the thing of an id: its job, or a command given at it.
fn step_has(id: &str, step: &Step) -> bool
    ensures { result ≡ sharing.step_has id.now step.now }
{
    is_id(id, thing_of(step.job())) || commands_have(id, step.commands())
}

/// Returns whether the recorded event of a difference is about the thing of an id.
fn pairing_has(id: &str, pairing: &Pairing) -> bool
    ensures { result ≡ sharing.pairing_has id.now pairing.now }
{
    match pairing {
        Pairing::Different { command: _, event } | Pairing::CommandMissing { event } => is_id(
            id,
            event_phrase(event).id,
        ),
        Pairing::Alike { .. } | Pairing::CommandExtra { .. } => false,
    }
}

/// Returns whether the recorded event of one of the differences is about the thing of an id.
fn pairings_have(id: &str, pairings: &[Pairing]) -> bool
    ensures { result ≡ list_any (sharing.pairing_has id.now) pairings.now }
{
    pairings.iter().any(|pairing| pairing_has(id, pairing))
}

/// Returns whether the difference in which a task ends is about the thing of an id.
fn ending_has(id: &str, ending: &Ending) -> bool
    ensures { result ≡ sharing.ending_has id.now ending.now }
{
    match ending {
        Ending::Recorded { pairings } => pairings_have(id, pairings.get()),
        Ending::Refused | Ending::Live { .. } => false,
    }
}

/// Returns whether one of the steps is about the thing of an id.
fn steps_have(id: &str, steps: &[Step]) -> bool
    ensures { result ≡ list_any (sharing.step_has id.now) steps.now }
{
    steps.iter().any(|step| step_has(id, step))
}

/// Returns whether a task is about the thing of an id: one of its steps, or the difference in which
/// it ends.
fn task_has(id: &str, task: &ExplainedTask) -> bool
    ensures { result ≡ sharing.task_has id.now task.now }
{
    steps_have(id, task.steps.get()) || ending_has(id, &task.ending)
}

/// Returns whether there is an id, and a task is about its thing.
fn has_some(task: &ExplainedTask, id: Option<&str>) -> bool
    ensures { result ≡ sharing.has_some task.now (option_map (λ s. s.now) id.entry) }
{
    match id {
        Some(id) => task_has(id, task),
        None => false,
    }
}

/// Returns whether a command is about a thing of a task.
fn command_shares(task: &ExplainedTask, command: &Command) -> bool
    ensures { result ≡ sharing.command_shares task.now command.now }
{
    has_some(task, command.phrase().id)
}

/// Returns whether one of the commands is about a thing of a task.
fn commands_share(task: &ExplainedTask, commands: &[Command]) -> bool
    ensures { result ≡ list_any (sharing.command_shares task.now) commands.now }
{
    commands.iter().any(|command| command_shares(task, command))
}

/// Returns whether a step is about a thing of a task: its job, or a command given at it.
fn step_shares(task: &ExplainedTask, step: &Step) -> bool
    ensures { result ≡ sharing.step_shares task.now step.now }
{
    has_some(task, thing_of(step.job())) || commands_share(task, step.commands())
}

/// Returns whether one of the steps is about a thing of a task.
fn steps_share(task: &ExplainedTask, steps: &[Step]) -> bool
    ensures { result ≡ list_any (sharing.step_shares task.now) steps.now }
{
    steps.iter().any(|step| step_shares(task, step))
}

/// Returns whether the second task is about a thing that the first one is about.
#[tactic(auto, unfolding(crate::specs::Sharing::shares))]
pub(crate) fn shares(task: &ExplainedTask, other: &ExplainedTask) -> bool
    ensures { result ≡ sharing.shares task.now other.now }
{
    steps_share(task, other.steps.get())
}
