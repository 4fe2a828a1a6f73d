//! Family: runs a child, and cancels it on a signal.
ghost use Rattle.std.specs.Prelude.{◌≡◌, option_to_list, IfOk};
ghost use Rattle.wh_sample_workflows.specs.Family.{family, family_after, family_end, family_gives, family_lawful};

use std::alloc::Global;
use wh_events::OutOfMemory;
use wh_workflow::{ChildEnd, Command, Job, Meter, Workflow, give, no_payloads, text_of, texts_of};

/// Runs a child, and cancels it on the signal `stop`.
///
/// | Job | Gives |
/// |---|---|
/// | `Start` | `StartChild{kid, Nap}`, without an input |
/// | `Signal` `stop`, the first while the child has not ended | `CancelChild{kid}` |
/// | `Child` `kid`, `Completed` with a result | `Complete` with that result |
/// | `Child` `kid`, `Canceled` | `Cancel` |
/// | `Child` `kid`, another end | `Fail{kid}` |
///
/// Other jobs change nothing and give nothing.
pub struct Family;

/// Whether the signal cancels the child: the child has not ended, and its cancellation is not
/// requested yet.
#[derive(Clone, Copy, Debug, PartialEq, Eq)]
pub struct FamilyState {
    /// True from the start until the first such signal or the end of the child.
    pub cancellable: bool,
}

/// Returns the command that closes the run when its child ends.
fn end_of(alloc: Global, end: &ChildEnd) -> Result<Command, OutOfMemory>
    ensures { IfOk result (λ command. command ≡ family_end end.now) }
{
    match end {
        ChildEnd::Completed(result) => Ok(Command::Complete {
            result: result.try_copy()?,
        }),
        ChildEnd::Canceled => Ok(Command::Cancel),
        _ => Ok(Command::Fail {
            message: text_of(alloc, "kid")?,
        }),
    }
}

/// Returns the command that it gives to a job.
fn given(alloc: Global, state: FamilyState, job: &Job) -> Result<Option<Command>, OutOfMemory>
    ensures { IfOk result (λ given. option_to_list given ≡ family_gives state job.now) }
{
    Ok(match job {
        Job::Start { .. } => {
            let (workflow_id, workflow) = texts_of(alloc, "kid", "Nap")?;
            Some(Command::StartChild {
                workflow_id,
                workflow,
                input: no_payloads(alloc),
            })
        }
        Job::Signal { name, .. } if name.get() == "stop" && state.cancellable => {
            Some(Command::CancelChild {
                workflow_id: text_of(alloc, "kid")?,
            })
        }
        Job::Child { workflow_id, end } if workflow_id.get() == "kid" => Some(end_of(alloc, end)?),
        _ => None,
    })
}

/// Returns the state after a job.
fn after(state: FamilyState, job: &Job) -> FamilyState
    ensures { result ≡ family_after state job.now }
{
    match job {
        Job::Signal { name, .. } if name.get() == "stop" => FamilyState { cancellable: false },
        Job::Child { workflow_id, .. } if workflow_id.get() == "kid" => {
            FamilyState { cancellable: false }
        }
        _ => state,
    }
}

impl Workflow for Family {
    type State = FamilyState;

    ghost program = { family };

    ghost lawful = { family_lawful };

    fn handles(kind: &str) -> bool {
        kind == "Family"
    }

    fn begin(_alloc: Global, _kind: &str) -> Result<FamilyState, OutOfMemory> {
        Ok(FamilyState { cancellable: true })
    }

    fn step(
        alloc: Global,
        state: &mut FamilyState,
        job: &Job,
        out: &mut Vec<Command>,
        meter: &mut Meter,
    ) -> Result<(), OutOfMemory> {
        meter.tick();
        let given = given(alloc, *state, job)?;
        *state = after(*state, job);
        give(out, given)
    }
}
