//! The state of a run that got its table with its input.

use wh_events::{Items, Payload, Text};
use wh_row_rules::OwnedTable;
use wh_rows::RowsState;

/// The state of a run that got its table with its input.
#[derive(Drop)]
pub struct TableState {
    /// The workflow type of the run.
    pub kind: Text,
    /// The payload that holds its table; empty if there is none.
    pub payload: Items<Payload>,
    /// Its table. It has no rows before the run starts, or if the payload is not a table.
    pub table: OwnedTable,
    /// The state of the run in that table.
    pub run: RowsState,
}
