//! Reads the responses to answers of workflow tasks.

ghost use Rattle.std.specs.Prelude.{◌≡◌};
ghost use Rattle.serde_json.specs.View.{view};
ghost use Rattle.wh_json.specs.Fields.{number_of};
ghost use Rattle.wh_messages.specs.Completions as spec;
ghost use Rattle.wh_messages.specs.Completions.{sets_back};

use serde_json::Value;
use wh_json::{field, number_of};

/// Returns whether a `resetHistoryEventId` may name an event to which a run is set back: it is not
/// zero, as a number or as a text of digits.
fn sets_back(event: &Value) -> bool
    ensures { result ≡ sets_back (number_of (view event.now)) }
{
    match number_of(event) {
        Some(number) => number > 0,
        None => true,
    }
}

/// Returns whether a response to `RespondWorkflowTaskCompleted` says that the server has discarded
/// the task: it sets the run back to an event, its `resetHistoryEventId`. The events of such a task
/// are in no history, as it may happen to a task that an update made.
///
/// A value that is missing or zero says that the task is kept, as in proto3 JSON. One that can't be
/// read as a number of a history counts as an event, since a run that is not cached only costs a
/// replay, and one that is cached after a discarded task would be wrong.
pub fn is_discarded(value: &Value) -> bool
    ensures { result ≡ spec.is_discarded (view value.now) }
{
    match field(Some(value), "resetHistoryEventId") {
        Some(event) => sets_back(event),
        None => false,
    }
}
