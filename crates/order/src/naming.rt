//! The workflow id of an order's child, from the input.
ghost use Rattle.std.specs.Prelude.{◌≡◌, IfOk};
ghost use Rattle.order.specs.Naming.{parcel_id};

use std::alloc::Global;
use wh_events::{Items, OutOfMemory, Payload, Text};
use wh_workflow::{payload_text, text_of};

/// Returns the workflow id of the child of an order: `parcel-NAME` if the second payload of its
/// input is the JSON string of NAME without escapes, and otherwise `parcel`, of which only one can
/// be open at a time.
pub fn parcel_id(alloc: Global, input: &Items<Payload>) -> Result<Text, OutOfMemory>
    ensures { IfOk result (λ id. id ≡ parcel_id input.now) }
{
    match payload_text(input.get(), 1) {
        Some(name) => Ok(Text::new(format!(in alloc; "parcel-{name}")?)),
        None => text_of(alloc, "parcel"),
    }
}
