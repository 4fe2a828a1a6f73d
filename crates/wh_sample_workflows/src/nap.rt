//! Nap: sleeps for a minute.
ghost use Rattle.std.specs.Prelude.{◌≡◌, option_to_list, IfOk};
ghost use Rattle.wh_sample_workflows.specs.Nap.{nap, nap_gives, nap_lawful};

use crate::stateless::NoState;
use std::alloc::Global;
use wh_events::OutOfMemory;
use wh_workflow::{Command, Job, Meter, Workflow, give, no_payloads, text_of};

/// Sleeps for a minute.
///
/// | Job | Gives |
/// |---|---|
/// | `Start` | `StartTimer{nap, 60}` |
/// | `TimerFired` of `nap` | `Complete`, without a result |
///
/// Other jobs change nothing and give nothing.
pub struct Nap;

/// Returns the command that it gives to a job.
fn given(alloc: Global, job: &Job) -> Result<Option<Command>, OutOfMemory>
    ensures { IfOk result (λ given. option_to_list given ≡ nap_gives job.now) }
{
    Ok(match job {
        Job::Start { .. } => Some(Command::StartTimer {
            id: text_of(alloc, "nap")?,
            seconds: 60,
        }),
        Job::TimerFired { id } if id.get() == "nap" => Some(Command::Complete {
            result: no_payloads(alloc),
        }),
        _ => None,
    })
}

impl Workflow for Nap {
    type State = NoState;

    ghost program = { nap };

    ghost lawful = { nap_lawful };

    fn handles(kind: &str) -> bool {
        kind == "Nap"
    }

    fn begin(_alloc: Global, _kind: &str) -> Result<NoState, OutOfMemory> {
        Ok(NoState)
    }

    fn step(
        alloc: Global,
        _state: &mut NoState,
        job: &Job,
        out: &mut Vec<Command>,
        meter: &mut Meter,
    ) -> Result<(), OutOfMemory> {
        meter.tick();
        give(out, given(alloc, job)?)
    }
}
