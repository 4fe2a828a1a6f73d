//! Reads the responses to heartbeats.

ghost use Rattle.std.specs.Prelude.{◌≡◌};
ghost use Rattle.serde_json.specs.View.{view};
ghost use Rattle.wh_messages.specs.CancelRequests as spec;

use serde_json::Value;
use wh_json::field;

/// Returns whether a response to `RecordActivityTaskHeartbeat` says that the activity is to be
/// canceled: its `cancelRequested` is true. A missing value is false, as in proto3 JSON, and so is
/// one that is not a boolean.
pub fn is_cancel_requested(value: &Value) -> bool
    ensures { result ≡ spec.is_cancel_requested (view value.now) }
{
    match field(Some(value), "cancelRequested") {
        Some(requested) => requested.as_bool().unwrap_or(false),
        None => false,
    }
}
