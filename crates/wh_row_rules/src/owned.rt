//! Tables that own their texts and lists.

use wh_events::{Items, Text};
use wh_rows::{CommandTemplate, Condition, Counters, Naming, RowEffect, RowOf};

/// A row of a table that was read.
pub type OwnedRow = RowOf<Text, Items<Condition>, Items<CommandTemplate<Text>>, Items<RowEffect>>;

/// A table that was read.
#[derive(Drop)]
pub struct OwnedTable {
    /// The state that a run begins in.
    pub first: Text,
    /// How its runs are named.
    pub name: Naming<Text>,
    /// The bound of each counter, 0 for one that is not used.
    pub bounds: Counters,
    /// The rows. The first one that fits applies.
    pub rows: Items<OwnedRow>,
}
