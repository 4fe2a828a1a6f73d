//! Caller: signals another workflow.
ghost use Rattle.std.specs.Prelude.{◌≡◌, option_to_list, IfOk};
ghost use Rattle.wh_sample_workflows.specs.Caller.{caller, caller_gives, caller_lawful};

use crate::stateless::NoState;
use std::alloc::Global;
use wh_events::OutOfMemory;
use wh_workflow::{Command, Job, Meter, Workflow, give, no_payloads, text_of, texts_of};

/// Signals another workflow.
///
/// | Job | Gives |
/// |---|---|
/// | `Start` | `SignalExternal{other, go}`, without an input |
/// | `SignalSent` | `Complete`, without a result |
/// | `SignalFailed` | `Fail{signal}` |
///
/// Other jobs change nothing and give nothing.
pub struct Caller;

/// Returns the command that it gives to a job.
fn given(alloc: Global, job: &Job) -> Result<Option<Command>, OutOfMemory>
    ensures { IfOk result (λ given. option_to_list given ≡ caller_gives job.now) }
{
    Ok(match job {
        Job::Start { .. } => {
            let (workflow_id, signal) = texts_of(alloc, "other", "go")?;
            Some(Command::SignalExternal {
                workflow_id,
                signal,
                input: no_payloads(alloc),
            })
        }
        Job::SignalSent { .. } => Some(Command::Complete {
            result: no_payloads(alloc),
        }),
        Job::SignalFailed { .. } => Some(Command::Fail {
            message: text_of(alloc, "signal")?,
        }),
        _ => None,
    })
}

impl Workflow for Caller {
    type State = NoState;

    ghost program = { caller };

    ghost lawful = { caller_lawful };

    fn handles(kind: &str) -> bool {
        kind == "Caller"
    }

    fn begin(_alloc: Global, _kind: &str) -> Result<NoState, OutOfMemory> {
        Ok(NoState)
    }

    fn step(
        alloc: Global,
        _state: &mut NoState,
        job: &Job,
        out: &mut Vec<Command>,
        meter: &mut Meter,
    ) -> Result<(), OutOfMemory> {
        meter.tick();
        give(out, given(alloc, job)?)
    }
}
