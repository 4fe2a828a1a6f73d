//! Asker: asks for a version at every chance.
ghost use Rattle.std.specs.Prelude.{◌≡◌, option_to_list, IfOk};
ghost use Rattle.wh_sample_workflows.specs.Asker.{asker, asker_gives, asker_lawful};

use crate::stateless::NoState;
use std::alloc::Global;
use wh_events::OutOfMemory;
use wh_workflow::{Command, Job, Meter, Workflow, give, text_of};

/// Asks for the same version again after each answer.
///
/// | Job | Gives |
/// |---|---|
/// | `Start`, `Version` | `Ask{a, -1, 1}` |
///
/// Other jobs change nothing and give nothing.
pub struct Asker;

/// Returns the command that it gives to a job.
fn given(alloc: Global, job: &Job) -> Result<Option<Command>, OutOfMemory>
    ensures { IfOk result (λ given. option_to_list given ≡ asker_gives job.now) }
{
    Ok(match job {
        Job::Start { .. } | Job::Version { .. } => Some(Command::Ask {
            change_id: text_of(alloc, "a")?,
            min: -1,
            max: 1,
        }),
        _ => None,
    })
}

impl Workflow for Asker {
    type State = NoState;

    ghost program = { asker };

    ghost lawful = { asker_lawful };

    fn handles(kind: &str) -> bool {
        kind == "Asker"
    }

    fn begin(_alloc: Global, _kind: &str) -> Result<NoState, OutOfMemory> {
        Ok(NoState)
    }

    fn step(
        alloc: Global,
        _state: &mut NoState,
        job: &Job,
        out: &mut Vec<Command>,
        meter: &mut Meter,
    ) -> Result<(), OutOfMemory> {
        meter.tick();
        give(out, given(alloc, job)?)
    }
}
