//! The rules that rows may break, and the faults of a table.

/// A rule that a row breaks. docs/write/WRITE-A-WORKFLOW.md explains each.
#[derive(Clone, Copy, Debug)]
pub enum BrokenRule {
    /// It gives more than 64 commands.
    TooManyCommands,
    /// A command follows one that asks for a version or closes the run.
    CommandAfterLast,
    /// Two of its commands start an activity, a timer or a child with the same id.
    OpensTwice,
    /// It asks for an invalid range of versions: the least is below -1, the greatest is below 0, or
    /// the greatest is below the least.
    BadRange,
    /// It is for a state named `same`, which can't be.
    NoState,
    /// It does not close the run, and no row is for the state after it.
    LeadsNowhere,
    /// No row of another state leads to its state, and it is not the state that runs begin in.
    NeverReached,
    /// It asks for the version of a change, and in the state after it, some version that may be the
    /// answer has no row without conditions.
    AsksInVain,
    /// It raises a counter that has no bound, or compares one with a number above its bound.
    Unbounded,
    /// It never applies, since the earlier row of this number, counted from 1, fits whenever it
    /// does.
    HiddenBy(u64),
}

/// The first fault of a table. Rows are counted from 1.
#[derive(Clone, Copy, Debug)]
pub enum RowsFault {
    /// No row is for the state that runs begin in.
    BeginsNowhere,
    /// A row breaks a rule.
    InRow {
        /// The number of the row.
        row: u64,
        /// The rule.
        rule: BrokenRule,
    },
}
