//! A workflow whose timers come and go, so that many histories do not fit it.
ghost use Rattle.std.specs.Prelude.{◌≡◌, codes, if◌then◌else◌, IfOk};
ghost use Rattle.wh_workflow.specs.declared.command.Command.TheVariants.{StartTimer, CancelTimer};

use std::alloc::Global;
use wh_events::OutOfMemory;
use wh_workflow::{Command, Job, Meter, Workflow, give, text_of};

/// Sets a timer at one job, and cancels it at the next one.
pub(crate) struct Blink;

/// Sets the timer, or cancels it.
fn given(alloc: Global, sets: bool) -> Result<Command, OutOfMemory>
    ensures { IfOk result (λ command. command ≡ if sets then StartTimer (codes "t") 60 else CancelTimer (codes "t")) }
{
    let id = text_of(alloc, "t")?;
    Ok(if sets {
        Command::StartTimer { id, seconds: 60 }
    } else {
        Command::CancelTimer { id }
    })
}

impl Workflow for Blink {
    ghost use Rattle.std.specs.Prelude.{true, false, not, [], ◌∷◌, refl, bytes_eq, codes, if◌then◌else◌};
    ghost use Rattle.std.proofs.Common.{lit≤};
    ghost use Rattle.wh_workflow.specs.declared.command.Command.TheVariants.{StartTimer, CancelTimer};

    type State = bool;

    ghost program = { record {
      knows = λ kind. bytes_eq kind (codes "Blink");
      initial = λ kind. true;
      after = λ state job. not state;
      gives = λ state job. (if state then StartTimer (codes "t") 60 else CancelTimer (codes "t")) ∷ [];
    } };

    ghost lawful = { elim [
      | true ↦ λ job. record { few = lit≤ tt; asks = refl; records = refl }
      | false ↦ λ job. record { few = lit≤ tt; asks = refl; records = refl }
    ] };

    fn handles(kind: &str) -> bool {
        kind == "Blink"
    }

    fn begin(_alloc: Global, _kind: &str) -> Result<bool, OutOfMemory> {
        Ok(true)
    }

    fn step(
        alloc: Global,
        state: &mut bool,
        _job: &Job,
        out: &mut Vec<Command>,
        meter: &mut Meter,
    ) -> Result<(), OutOfMemory> {
        meter.tick();
        let command = given(alloc, *state)?;
        *state = !*state;
        give(out, Some(command))
    }
}
