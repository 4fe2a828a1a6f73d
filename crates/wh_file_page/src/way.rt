//! The path of a run through the rows of its table.

use wh_events::{Items, Text};
use wh_table::TableState;

/// A row that a run took.
#[derive(Drop)]
pub struct Turn {
    /// The state that the run was in.
    pub state: Text,
    /// The number of the row among those of the table, counted from 1.
    pub row: usize,
}

/// The path of a run through the rows of its table.
#[derive(Drop)]
pub struct Way {
    /// The rows that it took, in order.
    pub turns: Items<Turn>,
    /// Where it stands after them, with its table.
    pub left: TableState,
}
