//! Checks the table in a file.

ghost use Rattle.std.specs.Prelude.{IfErr, IfOk};
ghost use Rattle.wh_diagnostics.specs.Readings.{IsUnread};
ghost use Rattle.wh_table_commands.specs.Checks.{IsCheckOf, IsChecked};

use crate::files::{TableFile, table_file};
use crate::stuck::stuck_finding;
use std::alloc::Global;
use wh_console::Input;
use wh_diagnostics::{Failure, InputReader};
use wh_events::OutOfMemory;
use wh_promise_check::promise_findings;
use wh_table_check::{TableCheck, table_check};
use wh_table_text::{TableReading, table_reading};

/// Reads the table in a file, and checks it.
pub(crate) fn read_and_check(
    alloc: Global,
    file: &TableFile,
) -> Result<(TableReading, TableCheck), OutOfMemory>
    ensures { IfOk result (λ both. IsCheckOf file.now both.0 both.1) }
{
    let reading = table_reading(alloc, file.bytes.get())?;
    let promises = promise_findings(alloc, &reading)?;
    let stuck = stuck_finding(alloc, &reading.table)?;
    let own = table_check(alloc, &file.name, &reading, promises, &stuck)?;
    Ok((reading, own))
}

/// Reads an input as the file of a table, and checks that.
pub(crate) fn check_input<R: InputReader + AllocGlobal>(
    rt: &R,
    input: Input,
) -> Result<TableCheck, Failure>
    ensures checked { IfOk result (IsChecked R.gives input) }
    ensures why { IfErr result (IsUnread input) }
{
    let file = table_file(rt, input)?;
    let Ok((reading, own)) = read_and_check(rt.alloc(), &file) else {
        return Err(Failure::OutOfMemory);
    };
    drop(reading);
    Ok(own)
}
