//! Reads a value from a table.

ghost use Rattle.std.specs.Prelude.{◌≡◌, IfNone, IfOk};
ghost use Rattle.toml.specs.View.{table_view};
ghost use Rattle.wh_policies.specs.TomlTables.{AllKnown};

use crate::fault::{KeyFault, unknown_key};
use std::alloc::Global;
use toml::Table;

/// A value that is read from a table and its defaults.
pub(crate) trait FromTable: Sized + Drop {
    ghost use Rattle.std.specs.Prelude.{ℕ, List, Bool};
    ghost use Rattle.toml.specs.Data.{Members};

    /// The keys that such a table may have.
    ghost known: { List ℕ → Bool };

    /// What is read from such a table with these defaults.
    ghost gives: { Members → Self → Self → Type 0 };

    /// Returns whether such a table may have the key.
    fn knows(key: &str) -> bool
        ensures { result ≡ known key.now };

    /// Reads the keys of the table; for those that it omits `otherwise` holds. Does not check for
    /// unknown keys.
    fn read(alloc: Global, table: &Table, otherwise: &Self) -> Result<Self, KeyFault>
        ensures { IfOk result (gives (table_view table.now) otherwise.now) };
}

/// Returns an unknown key of the table, if there is one.
fn unknown_in<P: FromTable>(table: &Table) -> Option<&str>
    ensures { IfNone result (AllKnown P.known (table_view table.now)) }
{
    for key in table.keys() {
        if !P::knows(key.as_str()) {
            return Some(key.as_str());
        }
    }
    None
}

/// Reads the table. `Unknown` if it has an unknown key.
pub(crate) fn read_known<P: FromTable>(
    alloc: Global,
    table: &Table,
    otherwise: &P,
) -> Result<P, KeyFault>
    ensures known { IfOk result (λ _. AllKnown P.known (table_view table.now)) }
    ensures given { IfOk result (P.gives (table_view table.now) otherwise.now) }
{
    match unknown_in::<P>(table) {
        Some(key) => Err(unknown_key(alloc, key)),
        None => P::read(alloc, table, otherwise),
    }
}
