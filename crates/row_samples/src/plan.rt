//! Charges for twelve months, and never more often, whatever jobs come. A signal cancels the plan,
//! once a charge in progress has ended.
ghost use Rattle.std.specs.Prelude.{refl, codes, [], ◌∷◌};
ghost use Rattle.wh_rows.specs.declared.row.JobPattern.TheVariants.{Signal};
ghost use Rattle.wh_rows.specs.Tables.{seen};
ghost use Rattle.wh_rows.specs.Properties.{AtMost, StartsActivity};
ghost use Rattle.wh_rows.specs.Courses.{Comes, Gives};
ghost use Rattle.wh_rows.specs.Promises.{at_most, never_after};
ghost use Rattle.row_samples.specs.declared.plan.TheConstants.{PLAN};

use wh_rows::words::*;
use wh_rows::{Promising, rows};

/// How often the card was charged.
const CHARGES: Counter = Counter::A;

/// The rows of `Plan`.
#[rattlefmt::skip]
pub static PLAN: Definition = DefinitionOf { kind: "Plan", first: "paying", name: Nameless, bounds: Counters { a: 12, b: 0, c: 0, d: 0 }, rows: rows! {
    paying:    Start, if [Below(CHARGES, 12)]          => [StartActivity("charge", "ChargeCard", Input)], do [Up(CHARGES)];
    paying:    Done("charge")                          => [StartTimer("month", 2_592_000)], do [Keep] => waiting;
    paying:    NotDone("charge")                       => [Fail("charge")];
    paying:    Signal("cancel")                        => [] => canceling;
    waiting:   Fired("month"), if [Below(CHARGES, 12)] => [StartActivity("charge", "ChargeCard", Input)], do [Up(CHARGES)] => paying;
    waiting:   Fired("month")                          => [Complete(Kept)];
    waiting:   Signal("cancel")                        => [CancelTimer("month"), Complete(Kept)];
    canceling: Done("charge")                          => [Complete(Brought)];
    canceling: NotDone("charge")                       => [Complete(Kept)];
} };

/// Charges for twelve months.
pub type Plan = Rows<PlanTable>;

/// The table of `Plan`.
pub struct PlanTable;

impl Table for PlanTable {
    ghost table = { seen PLAN };

    ghost faultless = { refl };

    fn table() -> &'static Definition {
        &PLAN
    }
}

impl Promising for PlanTable {
    ghost promises = { at_most 12 (Gives (StartsActivity (codes "ChargeCard")))
        ∷ never_after (Comes (Signal (codes "cancel"))) (Gives (StartsActivity (codes "ChargeCard")))
        ∷ [] };

    ghost promised = { refl };
}

/// A plan charges the card at most twelve times. The rows show it: each row that charges raises the
/// counter and requires it to be below 12, and no row sets it to 0 (`at_most` of wh_rows).
pub fn charges_twelve_times_at_most()
    ensures { AtMost (seen PLAN) (StartsActivity (codes "ChargeCard")) 12 }
{}
