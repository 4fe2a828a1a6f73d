//! Charges for twelve months, each month with three attempts, until it is canceled.
ghost use Rattle.std.specs.Prelude.{refl, codes, [], ◌∷◌};
ghost use Rattle.wh_rows.specs.declared.row.JobPattern.TheVariants.{Signal};
ghost use Rattle.wh_rows.specs.Tables.{seen};
ghost use Rattle.wh_rows.specs.Properties.{StartsActivity};
ghost use Rattle.wh_rows.specs.Courses.{Comes, Gives, Fails};
ghost use Rattle.wh_rows.specs.Promises.{at_most, only_after, never_after, HappensAtMost};
ghost use Rattle.row_samples.specs.declared.subscription.TheConstants.{SUBSCRIPTION};

use wh_rows::laws::keeps_its_promises;
use wh_rows::words::*;
use wh_rows::{Promising, rows};

/// How many charges of this month failed.
const TRIES: Counter = Counter::A;
/// How many months were charged for.
const MONTHS: Counter = Counter::B;

/// The rows of `Subscription`.
#[rattlefmt::skip]
pub static SUBSCRIPTION: Definition = DefinitionOf { kind: "Subscription", first: "charging", name: Nameless, bounds: Counters { a: 2, b: 12, c: 0, d: 0 }, rows: rows! {
    charging:  Start                                   => [StartActivity("charge", "ChargeCard", Input)];
    charging:  Done("charge")                          => [StartTimer("month", 2_592_000)], do [Zero(TRIES), Up(MONTHS)] => waiting;
    charging:  NotDone("charge"), if [Below(TRIES, 2)] => [StartTimer("again", 86_400)], do [Up(TRIES)] => retrying;
    charging:  NotDone("charge")                       => [StartActivity("mail", "SendMail", Input)] => failing;
    charging:  Signal("cancel")                        => [] => canceling;
    retrying:  Fired("again")                          => [StartActivity("charge", "ChargeCard", Input)] => charging;
    retrying:  Signal("cancel")                        => [CancelTimer("again"), Complete(Nothing)];
    waiting:   Fired("month"), if [Below(MONTHS, 12)]  => [StartActivity("charge", "ChargeCard", Input)] => charging;
    waiting:   Fired("month")                          => [Complete(Nothing)];
    waiting:   Signal("cancel")                        => [CancelTimer("month"), Complete(Nothing)];
    canceling: Done("charge")                          => [Complete(Brought)];
    canceling: NotDone("charge")                       => [Complete(Nothing)];
    failing:   Done("mail")                            => [Fail("charge")];
    failing:   NotDone("mail")                         => [Fail("charge")];
} };

/// Charges for twelve months, each month with three attempts, until it is canceled.
pub type Subscription = Rows<SubscriptionTable>;

/// The table of `Subscription`.
pub struct SubscriptionTable;

impl Table for SubscriptionTable {
    ghost table = { seen SUBSCRIPTION };

    ghost faultless = { refl };

    fn table() -> &'static Definition {
        &SUBSCRIPTION
    }
}

impl Promising for SubscriptionTable {
    ghost promises = { at_most 36 (Gives (StartsActivity (codes "ChargeCard")))
        ∷ never_after (Comes (Signal (codes "cancel"))) (Gives (StartsActivity (codes "ChargeCard")))
        ∷ only_after (Gives (StartsActivity (codes "SendMail"))) Fails
        ∷ [] };

    ghost promised = { refl };
}

/// A subscription charges the card at most 36 times, whatever jobs come.
pub fn charges_36_times_at_most()
    ensures { HappensAtMost (seen SUBSCRIPTION) 36 (Gives (StartsActivity (codes "ChargeCard"))) }
{
    keeps_its_promises::<SubscriptionTable>()
}
