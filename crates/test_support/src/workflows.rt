//! Workflows that give the same commands to each job.

use std::alloc::Global;
use wh_events::OutOfMemory;
use wh_workflow::{Command, Job, Meter, Workflow};

/// Closes the run at each job.
pub struct Brief;

impl Workflow for Brief {
    ghost use Rattle.std.specs.Prelude.{true, [], ◌∷◌, refl, bytes_eq, codes};
    ghost use Rattle.std.proofs.Common.{lit≤};
    ghost use Rattle.wh_workflow.specs.declared.command.Command.TheVariants.{Cancel};

    type State = bool;

    ghost program = { record {
      knows = λ kind. bytes_eq kind (codes "Brief");
      initial = λ kind. true;
      after = λ state job. state;
      gives = λ state job. Cancel ∷ [];
    } };

    ghost lawful = { λ state job. record { few = lit≤ tt; asks = refl; records = refl } };

    fn handles(kind: &str) -> bool {
        kind == "Brief"
    }

    fn begin(_alloc: Global, _kind: &str) -> Result<bool, OutOfMemory> {
        Ok(true)
    }

    fn step(
        _alloc: Global,
        _state: &mut bool,
        _job: &Job,
        out: &mut Vec<Command>,
        meter: &mut Meter,
    ) -> Result<(), OutOfMemory> {
        meter.tick();
        out.push(Command::Cancel)?;
        Ok(())
    }
}

/// Gives nothing.
pub struct Still;

impl Workflow for Still {
    ghost use Rattle.std.specs.Prelude.{[], refl, bytes_eq, codes};
    ghost use Rattle.std.proofs.Common.{lit≤};

    type State = u64;

    ghost program = { record {
      knows = λ kind. bytes_eq kind (codes "Still");
      initial = λ kind. 0;
      after = λ state job. state;
      gives = λ state job. [];
    } };

    ghost lawful = { λ state job. record { few = lit≤ tt; asks = refl; records = refl } };

    fn handles(kind: &str) -> bool {
        kind == "Still"
    }

    fn begin(_alloc: Global, _kind: &str) -> Result<u64, OutOfMemory> {
        Ok(0)
    }

    fn step(
        _alloc: Global,
        _state: &mut u64,
        _job: &Job,
        _out: &mut Vec<Command>,
        meter: &mut Meter,
    ) -> Result<(), OutOfMemory> {
        meter.tick();
        Ok(())
    }
}
