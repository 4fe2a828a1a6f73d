//! A workflow whose steps take memory and never free it.

use std::alloc::Global;
use std::mem;
use wh_events::OutOfMemory;
use wh_workflow::{Command, Job, Meter, Workflow};

/// How many bytes each signal takes.
const BLOCK: usize = 1 << 20;

/// Gives nothing to any job. Each step by a signal allocates a block of memory, writes all of it
/// and never frees it, so the peak of the process's memory shows how many signals it got, whatever
/// became of the states.
pub(crate) struct Keeper;

/// Allocates a block of memory at a signal, which is never freed, and nothing at another job.
fn keep_block(alloc: Global, job: &Job) -> Result<(), OutOfMemory> {
    if matches!(job, Job::Signal { .. }) {
        mem::forget(vec![in alloc; 1u8; BLOCK]?);
    }
    Ok(())
}

impl Workflow for Keeper {
    ghost use Rattle.std.specs.Prelude.{true, [], refl, bytes_eq, codes};
    ghost use Rattle.std.proofs.Common.{lit≤};

    type State = bool;

    ghost program = { record {
      knows = λ kind. bytes_eq kind (codes "Keeper");
      initial = λ kind. true;
      after = λ state job. state;
      gives = λ state job. [];
    } };

    ghost lawful = { λ state job. record { few = lit≤ tt; asks = refl; records = refl } };

    fn handles(kind: &str) -> bool {
        kind == "Keeper"
    }

    fn begin(_alloc: Global, _kind: &str) -> Result<bool, OutOfMemory> {
        Ok(true)
    }

    fn step(
        alloc: Global,
        _state: &mut bool,
        job: &Job,
        _out: &mut Vec<Command>,
        meter: &mut Meter,
    ) -> Result<(), OutOfMemory> {
        meter.tick();
        keep_block(alloc, job)
    }
}
