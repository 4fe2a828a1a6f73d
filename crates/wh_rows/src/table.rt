//! The workflow that follows a table.
ghost use Rattle.std.specs.Prelude.{◌≡◌, None};
ghost use Rattle.wh_rows.specs.Tables.{Definition, shown};
ghost use Rattle.wh_rows.specs.Rows.{program};
ghost use Rattle.wh_rows.specs.Rules.{table_fault};
ghost use Rattle.wh_rows.specs.Lawful.{rows_lawful};

use crate::follow::{answer, take_start};
use crate::row::{Definition, RowsState, UNCOUNTED};
use crate::state_name::StateName;
use std::alloc::Global;
use std::marker::PhantomData;
use wh_events::OutOfMemory;
use wh_workflow::{Command, Job, Meter, Workflow, give_all, no_payloads, text_of};

/// A table of the program. Its author writes `ghost table = { seen NAME }`, where `NAME` is a
/// public `static`, and `ghost faultless = { refl }`, which is refused if a row breaks a rule.
pub trait Table {
    /// The table.
    ghost table: { Definition };

    /// Returns the table.
    fn table() -> &'static Definition
        ensures { shown result.now ≡ table };

    /// No row breaks a rule.
    ghost faultless: { table_fault table ≡ None };
}

/// The workflow that follows a table. Its program is the meaning of the rows, and it is lawful
/// since no row breaks a rule.
pub struct Rows<T> {
    table: PhantomData<T>,
}

impl<T: Table> Workflow for Rows<T> {
    type State = RowsState;

    ghost program = { program T.table };

    ghost lawful = { rows_lawful T.table T.faultless };

    fn handles(kind: &str) -> bool {
        T::table().kind == kind
    }

    fn begin(alloc: Global, _kind: &str) -> Result<RowsState, OutOfMemory> {
        Ok(RowsState {
            at: StateName::from_static(T::table().first),
            closed: false,
            name: text_of(alloc, "")?,
            input: no_payloads(alloc),
            kept: no_payloads(alloc),
            counts: UNCOUNTED,
        })
    }

    fn step(
        alloc: Global,
        state: &mut RowsState,
        job: &Job,
        out: &mut Vec<Command>,
        meter: &mut Meter,
    ) -> Result<(), OutOfMemory> {
        meter.tick();
        let table = T::table();
        take_start(alloc, &table.name, state, job)?;
        let given = answer(alloc, table.rows, table.bounds, state, job)?;
        give_all(out, given)
    }
}
