//! The workflow that gets its table with each run.
ghost use Rattle.std.specs.Prelude.{◌≡◌};
ghost use Rattle.wh_table.specs.Program.{is_table, program, program_lawful};

use crate::following::follow;
use crate::starting::{Opened, not_started, start};
use crate::state::TableState;
use std::alloc::Global;
use wh_events::OutOfMemory;
use wh_workflow::{Command, Job, Meter, Workflow, give_all};

/// Returns whether the type is `Table`, or `Table:` followed by a name.
fn is_table(kind: &str) -> bool
    ensures { result ≡ is_table kind.now }
{
    match kind.split_once(':') {
        Some((word, _)) => word == "Table",
        None => kind == "Table",
    }
}

/// The workflow for the type `Table` and for each type `Table:NAME`, which gets its table with each
/// run. The first payload of the start's input is the table, as `wh_table_text` reads it, and its
/// rows see the other payloads as their input. `again` continues as a new run of the same type with
/// the same table. If the first payload is not a table, the run fails at its start, with the
/// reason.
pub struct TableWorkflow;

impl Workflow for TableWorkflow {
    type State = TableState;

    ghost program = { program };

    ghost lawful = { program_lawful };

    fn handles(kind: &str) -> bool {
        is_table(kind)
    }

    fn begin(alloc: Global, kind: &str) -> Result<TableState, OutOfMemory> {
        not_started(alloc, kind)
    }

    fn step(
        alloc: Global,
        state: &mut TableState,
        job: &Job,
        out: &mut Vec<Command>,
        meter: &mut Meter,
    ) -> Result<(), OutOfMemory> {
        meter.tick();
        if let Job::Start { workflow, input } = job {
            let Opened {
                state: opened,
                given,
            } = start(alloc, workflow, input)?;
            *state = opened;
            return give_all(out, given);
        }
        let given = follow(alloc, state, job)?;
        give_all(out, given)
    }
}
