//! Workflows as tables of rows: the types of a row, the workflow that follows a table, and promises:
//! what no run of a table does, whatever jobs come. The check decides each promise by computation.
//!
//! A row reads `State | Job | If | Gives | Then`, and the macro `rows!` writes it so:
//!
//! ```text
//! charging: NotDone("charge"), if [Below(TRIES, 2)]
//!     => [StartTimer("again", 86_400)], do [Up(TRIES)] => retrying;
//! ```
//!
//! The first row that fits applies. `ghost faultless = { refl }` checks the table: it is refused if
//! a row breaks a rule. `found Some (InRow 7 LeadsNowhere)` says that the seventh row breaks that
//! rule of `specs/Rules.antt`.
//!
//! An author writes the promises beside the table, and no proof:
//!
//! ```text
//! impl Promising for OrderTable {
//!     ghost promises = {
//!         at_most 1 (Gives (StartsActivity (codes "ChargeCard")))
//!             ∷ only_after (Comes (Done (codes "charge"))) (Gives (StartsChild (codes "Ship")))
//!             ∷ []
//!     };
//!
//!     ghost promised = { refl };
//! }
//! ```
//!
//! A promise that may be broken is refused: `found Some (MayBreak 2 103)` says that the second
//! promise may be broken, in a run that follows the rows 1 and 3.
#![tactic(auto)]

mod choose;
mod command;
mod follow;
pub mod laws;
mod macros;
mod naming;
mod parts;
mod promising;
mod queries;
mod row;
mod state_name;
mod table;
pub mod words;

pub use choose::{all_hold, count_of, is_for_job};
pub use follow::{answer, increment, take_start, with_count};
pub use parts::{RowList, RowText};
pub use promising::Promising;
pub use queries::{row_definition, row_query};
pub use row::{
    CommandTemplate, Condition, Counter, Counters, Definition, DefinitionOf, JobPattern, Naming,
    Row, RowEffect, RowOf, RowsState, Source, UNCOUNTED,
};
pub use state_name::StateName;
pub use table::{Rows, Table};
