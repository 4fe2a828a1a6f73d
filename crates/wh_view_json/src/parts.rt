//! Kinds and places, as parts of JSON.

ghost use Rattle.std.specs.Prelude.{◌≡◌, Some};
ghost use Rattle.wh_view_json.specs.Parts as json;

use std::fmt;
use wh_view::{ThingKind, View};

/// Returns the kind of a thing, in Temporal's words.
pub(crate) fn kind_word(kind: ThingKind) -> &'static str
    ensures { result.now ≡ json.kind_word kind }
{
    match kind {
        ThingKind::Activity => "activity",
        ThingKind::Timer => "timer",
        ThingKind::Child => "childWorkflow",
        ThingKind::CancelRequest => "requestCancelExternalWorkflow",
        ThingKind::SignalRequest => "signalExternalWorkflow",
        ThingKind::Signal => "signal",
        ThingKind::Marker => "marker",
    }
}

/// Returns the place of the event at an index.
pub(crate) fn place_at(view: &View, index: Option<usize>) -> Option<u64>
    ensures { result ≡ json.place_at view.now index }
{
    match view.events.get().get(index?) {
        Some(event) => Some(event.place),
        None => None,
    }
}

/// The place of an event, as a further member of an object.
#[derive(Clone, Copy)]
pub(crate) struct PlaceMember(pub(crate) &'static str, pub(crate) Option<u64>);

impl fmt::Display for PlaceMember {
    ghost output = { λ p. Some (json.place_member p.0.now p.1) };

    fn fmt<W: fmt::Write>(&self, f: &mut fmt::Formatter<W>) -> fmt::Result {
        match self.1 {
            Some(place) => {
                let key = self.0;
                write!(f, ",\"{key}\":{place}")
            }
            None => Ok(()),
        }
    }
}
