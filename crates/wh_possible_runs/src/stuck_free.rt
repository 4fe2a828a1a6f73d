//! A table that never gets stuck.
ghost use Rattle.std.specs.Prelude.{◌≡◌, ℕ};
ghost use Rattle.wh_possible_runs.specs.Searches.{NeverStuck, verdict};

use wh_rows::Table;

/// A table that never gets stuck. An author writes `ghost never_stuck = { refl }`, which is refused
/// if a run may get stuck, or if the search does not end within its steps.
pub trait StuckFree: Table {
    /// The most steps of the search.
    ghost steps: { ℕ };

    /// No run gets stuck.
    ghost never_stuck: { verdict steps Self.Table.table ≡ NeverStuck };
}
