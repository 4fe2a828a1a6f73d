//! The workflows that wfhost and its parts know: the samples, and those whose table comes with the
//! run.
ghost use Rattle.std.specs.Prelude.{◌≡◌, codes};

use crate::All;
use wh_table::TableWorkflow;
use wh_workflow::Pair;

/// The registered workflows.
pub type Registered = Pair<TableWorkflow, All>;

/// Returns the names of their workflow types, with a comma and a space between two.
pub fn types() -> &'static str
    ensures names { result.now ≡ codes "Table, Table:NAME, Nap, Greet, Branch, Family, Racer, Caller, Relay" }
{
    "Table, Table:NAME, Nap, Greet, Branch, Family, Racer, Caller, Relay"
}
