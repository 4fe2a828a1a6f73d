//! Tables of rows that a program reads from files, and whether they break a rule of `wh_rows`: the
//! same rules as for a table of the program, checked at run time. What is found of the promises of
//! such a table is declared here too, for those that decide it and those that write it. So is why a
//! call gave no value: a fault, of any kind, or want of memory.
#![tactic(auto)]

mod bounds;
mod commands;
mod fault;
mod hiding;
mod or_memory;
mod owned;
mod patterns;
mod promises;
mod rules;
mod sharing;
mod states;
mod versions;

pub use commands::{closes, ends_well, some_closes, text_eq};
pub use fault::{BrokenRule, RowsFault};
pub use or_memory::OrMemory;
pub use owned::{OwnedRow, OwnedTable};
pub use patterns::covers;
pub use promises::{
    Breach, Doubt, PhraseFinding, PromiseFinding, PromiseFindings, PromiseVerdict, WayStep,
    are_kept,
};
pub use rules::{row_rule, table_fault};
pub use sharing::{are_apart, is_among, text_of};
pub use states::{has_state, state_after};
