//! Sleeps for a minute.
ghost use Rattle.std.specs.Prelude.{codes, refl, [], ◌∷◌};
ghost use Rattle.wh_rows.specs.declared.row.JobPattern.TheVariants.{Fired};
ghost use Rattle.wh_rows.specs.Tables.{seen};
ghost use Rattle.wh_rows.specs.Courses.{Comes, Completes, Fails};
ghost use Rattle.wh_rows.specs.Promises.{at_most, only_after};
ghost use Rattle.wh_sample_workflows.specs.Nap.{nap};
ghost use Rattle.row_samples.specs.Alike.{GivesAsCode};
ghost use Rattle.row_samples.specs.declared.nap.TheConstants.{NAP};

use wh_rows::words::*;
use wh_rows::{Promising, rows};

/// The rows of `Nap`.
#[rattlefmt::skip]
pub static NAP: Definition = DefinitionOf { kind: "Nap", first: "asleep", name: Nameless, bounds: UNCOUNTED, rows: rows! {
    asleep: Start        => [StartTimer("nap", 60)];
    asleep: Fired("nap") => [Complete(Nothing)];
} };

/// Sleeps for a minute.
pub type Nap = Rows<NapTable>;

/// The table of `Nap`.
pub struct NapTable;

impl Table for NapTable {
    ghost table = { seen NAP };

    ghost faultless = { refl };

    fn table() -> &'static Definition {
        &NAP
    }
}

impl Promising for NapTable {
    ghost promises = { only_after (Comes (Fired (codes "nap"))) Completes ∷ at_most 0 Fails ∷ [] };

    ghost promised = { refl };
}

/// Up to the step that closes a run, the table gives the same commands as the sample `Nap` in code,
/// whatever jobs come.
pub fn does_as_code()
    ensures { GivesAsCode (seen NAP) nap (codes "Nap") }
{}
