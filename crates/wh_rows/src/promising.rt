//! A table with promises.
ghost use Rattle.std.specs.Prelude.{◌≡◌, None, List};
ghost use Rattle.wh_rows.specs.Promises.{Promise};
ghost use Rattle.wh_rows.specs.Deciding.{promise_fault};

use crate::table::Table;

/// A table that promises what its runs never do. An author writes `ghost promised = { refl }`,
/// which is refused if a promise may be broken.
pub trait Promising: Table {
    /// The promises.
    ghost promises: { List Promise };

    /// No promise may be broken.
    ghost promised: { promise_fault Self.Table.table promises ≡ None };
}
