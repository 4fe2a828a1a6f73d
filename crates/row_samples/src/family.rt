//! Runs a child, and cancels it on the signal `stop`.
ghost use Rattle.std.specs.Prelude.{refl, codes, [], ◌∷◌};
ghost use Rattle.wh_rows.specs.declared.row.JobPattern.TheVariants.{ChildDone};
ghost use Rattle.wh_rows.specs.Tables.{seen};
ghost use Rattle.wh_rows.specs.Properties.{StartsChild};
ghost use Rattle.wh_rows.specs.Courses.{Comes, Gives, Completes};
ghost use Rattle.wh_rows.specs.Promises.{at_most, only_after};
ghost use Rattle.row_samples.specs.declared.family.TheConstants.{FAMILY};

use wh_rows::words::*;
use wh_rows::{Promising, rows};

/// The rows of `Family`.
#[rattlefmt::skip]
pub static FAMILY: Definition = DefinitionOf { kind: "Family", first: "running", name: Nameless, bounds: UNCOUNTED, rows: rows! {
    running:  Start                => [StartChild("kid", "Nap", Nothing)];
    running:  Signal("stop")       => [CancelChild("kid")] => stopping;
    stopping: Signal("stop")       => [];
    any:      ChildDone("kid")     => [Complete(Brought)];
    any:      ChildCanceled("kid") => [Cancel];
    any:      ChildNotDone("kid")  => [Fail("kid")];
} };

/// Runs a child, and cancels it on the signal `stop`.
pub type Family = Rows<FamilyTable>;

/// The table of `Family`.
pub struct FamilyTable;

impl Table for FamilyTable {
    ghost table = { seen FAMILY };

    ghost faultless = { refl };

    fn table() -> &'static Definition {
        &FAMILY
    }
}

impl Promising for FamilyTable {
    ghost promises = { at_most 1 (Gives (StartsChild (codes "Nap")))
        ∷ only_after (Comes (ChildDone (codes "kid"))) Completes
        ∷ [] };

    ghost promised = { refl };
}
