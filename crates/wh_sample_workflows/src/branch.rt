//! Branch: runs the old or the new activity, depending on the version of a change.
ghost use Rattle.std.specs.Prelude.{◌≡◌, [], codes, option_to_list, IfOk};
ghost use Rattle.wh_sample_workflows.specs.Branch.{branch, branch_activity, branch_gives, branch_lawful};
ghost use Rattle.wh_workflow.specs.declared.command.Command.TheVariants.{StartActivity};

use crate::endings::result_or_failure;
use crate::stateless::NoState;
use std::alloc::Global;
use wh_events::OutOfMemory;
use wh_workflow::{Command, Job, Meter, Workflow, give, no_payloads, text_of, texts_of};

/// Runs the old or the new activity, depending on the version of a change.
///
/// | Job | Gives |
/// |---|---|
/// | `Start` | `Ask{chg, -1, 1}` |
/// | `Version` of `chg`, -1 | `StartActivity{1, old}`, without an input |
/// | `Version` of `chg`, another | `StartActivity{1, new}`, without an input |
/// | `Activity` `1`, `Completed` with a result | `Complete` with that result |
/// | `Activity` `1`, another end | `Fail{branch}` |
///
/// Other jobs change nothing and give nothing.
pub struct Branch;

/// Starts the activity for a version.
fn start(alloc: Global, version: i32) -> Result<Command, OutOfMemory>
    ensures { IfOk result (λ command. command ≡ StartActivity (codes "1") (branch_activity version) []) }
{
    let activity = if version == -1 { "old" } else { "new" };
    let (id, activity) = texts_of(alloc, "1", activity)?;
    Ok(Command::StartActivity {
        id,
        activity,
        input: no_payloads(alloc),
    })
}

/// Returns the command that it gives to a job.
fn given(alloc: Global, job: &Job) -> Result<Option<Command>, OutOfMemory>
    ensures { IfOk result (λ given. option_to_list given ≡ branch_gives job.now) }
{
    Ok(match job {
        Job::Start { .. } => Some(Command::Ask {
            change_id: text_of(alloc, "chg")?,
            min: -1,
            max: 1,
        }),
        Job::Version { change_id, version } if change_id.get() == "chg" => {
            Some(start(alloc, *version)?)
        }
        Job::Activity { id, end } if id.get() == "1" => {
            Some(result_or_failure(alloc, end, "branch")?)
        }
        _ => None,
    })
}

impl Workflow for Branch {
    type State = NoState;

    ghost program = { branch };

    ghost lawful = { branch_lawful };

    fn handles(kind: &str) -> bool {
        kind == "Branch"
    }

    fn begin(_alloc: Global, _kind: &str) -> Result<NoState, OutOfMemory> {
        Ok(NoState)
    }

    fn step(
        alloc: Global,
        _state: &mut NoState,
        job: &Job,
        out: &mut Vec<Command>,
        meter: &mut Meter,
    ) -> Result<(), OutOfMemory> {
        meter.tick();
        give(out, given(alloc, job)?)
    }
}
