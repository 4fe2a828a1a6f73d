//! Reads the file of a table: its JSON value, the table, and all its faults.
ghost use Rattle.std.specs.Prelude.{◌≡◌, IfOk, Some};
ghost use Rattle.serde_json.specs.View.{view};
ghost use Rattle.wh_table_text.specs.Faults.{value_faults};
ghost use Rattle.wh_table_text.specs.Reading.{table_from};
ghost use Rattle.std.specs.Result.{result_ok};
ghost use Rattle.wh_table_text.specs.TableReadings.{IsReading};

use crate::fault::TableFault;
use crate::listing::{only, value_faults};
use crate::reading::{document, table_from};
use serde_json::Value;
use std::alloc::Global;
use wh_events::{Items, OutOfMemory};
use wh_row_rules::{OrMemory, OwnedTable};

/// What one reading of a file finds of the table that it is to be.
#[derive(Drop)]
pub struct TableReading {
    /// Its JSON value (RFC 8259). `None` if it is not JSON.
    pub value: Option<Value>,
    /// The table, which breaks no rule. `None` if there is a fault.
    pub table: Option<OwnedTable>,
    /// The faults, in order. There is one if the file is not JSON or the version of its table is
    /// not known. Else they are the first fault of each member; if there are none, that of each row
    /// that can't be read; and if all can be read, the first rule that each row breaks.
    pub faults: Items<TableFault>,
}

/// Returns what a value has of a table.
fn reading_of(alloc: Global, value: Value) -> Result<TableReading, OutOfMemory>
    ensures value { IfOk result (λ reading. reading.value ≡ Some value) }
    ensures table { IfOk result (λ reading. reading.table ≡ result_ok (table_from (view value))) }
    ensures faults { IfOk result (λ reading. reading.faults ≡ value_faults (view value)) }
{
    match table_from(alloc, &value) {
        Ok(table) => Ok(TableReading {
            value: Some(value),
            table: Some(table),
            faults: Items::new(Vec::new(alloc)),
        }),
        Err(OrMemory::OutOfMemory) => Err(OutOfMemory),
        Err(OrMemory::Fault(_)) => {
            let faults = value_faults(alloc, &value)?;
            Ok(TableReading {
                value: Some(value),
                table: None,
                faults: Items::new(faults),
            })
        }
    }
}

/// Reads the bytes of a file as a table in JSON (RFC 8259), and lists all its faults. There is
/// none exactly if there is a table, and the first is the one at which `read_table` stops (law
/// `first_stops_reading`). `OutOfMemory` if an allocation was refused; nothing is left then.
pub fn table_reading(alloc: Global, bytes: &[u8]) -> Result<TableReading, OutOfMemory>
    ensures { IfOk result (IsReading bytes.now) }
{
    match document(alloc, bytes) {
        Ok(value) => reading_of(alloc, value),
        Err(OrMemory::OutOfMemory) => Err(OutOfMemory),
        Err(OrMemory::Fault(fault)) => Ok(TableReading {
            value: None,
            table: None,
            faults: Items::new(only(alloc, fault)?),
        }),
    }
}
