//! Charges for an order, holds it for a day, during which a signal cancels it, and ships it.
ghost use Rattle.std.specs.Prelude.{refl, codes, [], ◌∷◌};
ghost use Rattle.wh_rows.specs.declared.row.JobPattern.TheVariants.{Fired, ChildDone};
ghost use Rattle.wh_rows.specs.Tables.{seen};
ghost use Rattle.wh_rows.specs.Properties.{StartsActivity, StartsChild};
ghost use Rattle.wh_rows.specs.Courses.{Comes, Gives, Completes};
ghost use Rattle.wh_rows.specs.Promises.{at_most, only_after, between};
ghost use Rattle.row_samples.specs.declared.order.TheConstants.{ORDER};

use wh_rows::words::*;
use wh_rows::{Promising, rows};

/// The rows of `Order`.
#[rattlefmt::skip]
pub static ORDER: Definition = DefinitionOf { kind: "Order", first: "charging", name: ByPayload(1, "parcel-", "parcel"), bounds: UNCOUNTED, rows: rows! {
    charging: Start                  => [StartActivity("charge", "ChargeCard", Input)];
    charging: Done("charge")         => [StartTimer("hold", 86_400)] => held;
    charging: NotDone("charge")      => [Fail("charge")];
    held:     Signal("cancel")       => [CancelTimer("hold"), Complete(Nothing)];
    held:     Fired("hold")          => [Ask("tracked", -1, 1)] => shipping;
    shipping: Version("tracked", -1) => [StartChild("@", "Ship", Nothing)];
    shipping: AnyVersion("tracked")  => [StartChild("@", "ShipTracked", Nothing)];
    shipping: ChildDone("@")         => [Complete(Brought)];
    shipping: ChildNotDone("@")      => [Fail("parcel")];
} };

/// Charges for an order, holds it for a day, during which a signal cancels it, and ships it.
pub type Order = Rows<OrderTable>;

/// The table of `Order`.
pub struct OrderTable;

impl Table for OrderTable {
    ghost table = { seen ORDER };

    ghost faultless = { refl };

    fn table() -> &'static Definition {
        &ORDER
    }
}

impl Promising for OrderTable {
    ghost promises = { at_most 1 (Gives (StartsActivity (codes "ChargeCard")))
        ∷ only_after (Comes (Fired (codes "hold"))) (Gives (StartsChild (codes "Ship")))
        ∷ only_after (Comes (Fired (codes "hold"))) (Gives (StartsChild (codes "ShipTracked")))
        ∷ between (Gives (StartsChild (codes "Ship"))) Completes (Comes (ChildDone (codes "@")))
        ∷ between (Gives (StartsChild (codes "ShipTracked"))) Completes (Comes (ChildDone (codes "@")))
        ∷ [] };

    ghost promised = { refl };
}
