//! The activity that charges for an order.
ghost use Rattle.std.specs.Prelude.{◌≡◌, IfOk};
ghost use Rattle.order.specs.Charging.{receipt};

use wh_events::{Items, OutOfMemory, Payload};

/// Returns the result of an activity of this type: the receipt of a charged card is the activity's
/// input. `None` if there is no such activity.
pub fn receipt(
    activity: &str,
    input: &Items<Payload>,
) -> Result<Option<Items<Payload>>, OutOfMemory>
    ensures { IfOk result (λ given. given ≡ receipt activity.now input.now) }
{
    if activity == "ChargeCard" {
        Ok(Some(input.try_copy()?))
    } else {
        Ok(None)
    }
}
