//! The names that an author needs to write rows, in one module to import.

pub use crate::row::CommandTemplate::{
    Ask, Cancel, CancelActivity, CancelChild, CancelTimer, Complete, ContinueAsNew, Fail,
    SignalExternal, StartActivity, StartChild, StartTimer,
};
pub use crate::row::Condition::{AtLeast, Below};
pub use crate::row::JobPattern::{
    AnyVersion, CancelRequested, ChildCanceled, ChildDone, ChildNotDone, ChildStarted, Done, Fired,
    NotDone, Signal, Start, Version,
};
pub use crate::row::Naming::{ByPayload, Nameless};
pub use crate::row::RowEffect::{Keep, Up, Zero};
pub use crate::row::Source::{Brought, Input, Kept, Nothing};
pub use crate::row::{Counter, Counters, Definition, DefinitionOf, UNCOUNTED};
pub use crate::table::{Rows, Table};
