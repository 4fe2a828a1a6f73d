//! Charges for a room and books it. If it can't be booked, the charge is refunded before the run
//! fails.
ghost use Rattle.std.specs.Prelude.{refl, codes, [], ◌∷◌};
ghost use Rattle.wh_rows.specs.declared.row.JobPattern.TheVariants.{Fired};
ghost use Rattle.wh_rows.specs.Tables.{seen};
ghost use Rattle.wh_rows.specs.Properties.{StartsActivity};
ghost use Rattle.wh_rows.specs.Followed.{EachFollowed, unsuccessful};
ghost use Rattle.wh_rows.specs.Courses.{Comes, Gives};
ghost use Rattle.wh_rows.specs.Promises.{keeps_watch};
ghost use Rattle.row_samples.specs.declared.booking.TheConstants.{BOOKING};

use wh_possible_runs::StuckFree;
use wh_rows::words::*;
use wh_rows::{Promising, rows};

/// Whether a charge must be refunded unless the run completes.
const OWED: Counter = Counter::A;

/// The rows of `Booking`.
#[rattlefmt::skip]
pub static BOOKING: Definition = DefinitionOf { kind: "Booking", first: "charging", name: Nameless, bounds: Counters { a: 1, b: 0, c: 0, d: 0 }, rows: rows! {
    charging:  Start, if [Below(OWED, 1)]          => [StartActivity("charge", "ChargeCard", Input)], do [Up(OWED)];
    charging:  Done("charge")                      => [StartActivity("room", "BookRoom", Input)] => booking;
    charging:  NotDone("charge")                   => [StartActivity("refund", "RefundCard", Input)], do [Zero(OWED)] => refunding;
    booking:   Done("room")                        => [Complete(Brought)];
    booking:   NotDone("room")                     => [StartActivity("refund", "RefundCard", Input)], do [Zero(OWED)] => refunding;
    refunding: Done("refund"), if [Below(OWED, 1)] => [Fail("room")];
    refunding: NotDone("refund")                   => [StartTimer("again", 3_600)] => waiting;
    waiting:   Fired("again")                      => [StartActivity("refund", "RefundCard", Input)], do [Zero(OWED)] => refunding;
} };

/// Charges for a room and books it.
pub type Booking = Rows<BookingTable>;

/// The table of `Booking`.
pub struct BookingTable;

impl Table for BookingTable {
    ghost table = { seen BOOKING };

    ghost faultless = { refl };

    fn table() -> &'static Definition {
        &BOOKING
    }
}

/// Each refund after another one waits for the timer. The watch is in state 1 at first and after
/// the timer, and in state 2 after a refund; another refund in state 2 would exceed its budget.
impl Promising for BookingTable {
    ghost promises = { keeps_watch (record {
      turns = record { from = 1; what = Gives (StartsActivity (codes "RefundCard")); to = 2; cost = 0 }
          ∷ record { from = 2; what = Comes (Fired (codes "again")); to = 1; cost = 0 }
          ∷ record { from = 2; what = Gives (StartsActivity (codes "RefundCard")); to = 2; cost = 1 }
          ∷ [];
      budget = 0;
    }) ∷ [] };

    ghost promised = { refl };
}

/// Each charge of a booking is followed by its refund, unless the run completes. The rows show it:
/// each row that charges raises the counter and requires it to be 0, each that sets it to 0
/// refunds, and each that fails requires it to be 0 (`each_followed` of wh_rows).
pub fn refunds_each_charge()
    ensures { EachFollowed (seen BOOKING) (StartsActivity (codes "ChargeCard"))
        (StartsActivity (codes "RefundCard")) unsuccessful }
{}

impl StuckFree for BookingTable {
    ghost steps = { 4000 };

    ghost never_stuck = { refl };
}
