//! The version that an ask gets.
ghost use Rattle.std.specs.Prelude.{◌≡◌, option_map};
ghost use Rattle.wh_events.specs.Cuts.{commanded};
ghost use Rattle.wh_workflow.specs.Scripts.{first_marker};
ghost use Rattle.wh_match.specs.Issuing.{choice_in};

use crate::versions::Versions;
use wh_events::{Event, EventKind};

/// What an ask asks for: a version of a change in a range.
#[derive(Clone, Copy)]
pub(crate) struct Question<'a> {
    /// The name of the change.
    pub(crate) change_id: &'a str,
    /// The least version that the code can run.
    pub(crate) min: i32,
    /// The greatest version that the code can run.
    pub(crate) max: i32,
}

/// The version of an ask, and whether a marker is issued for it.
#[derive(Clone, Copy)]
pub(crate) struct Chosen {
    /// The version.
    pub(crate) version: i32,
    /// Whether a marker is issued for it.
    pub(crate) marked: bool,
}

/// Returns the version of the first marker of the change among the events.
fn first_marker(change_id: &str, events: &[Event]) -> Option<i32>
    ensures { result ≡ first_marker change_id.now (commanded events.now) }
{
    for event in events {
        if let EventKind::MarkerRecorded {
            change_id: other,
            version,
        } = &event.body
            && change_id == other.get()
        {
            return Some(*version);
        }
    }
    None
}

/// Chooses the version of an ask.
pub(crate) fn choose(recorded: Option<&[Event]>, versions: &Versions, question: Question) -> Chosen
    ensures { let there = option_map (λ events. commanded events.now) recorded.entry in
        let choice = choice_in there versions.now question.entry.change_id.now question.entry.max in
        choice ≡ record { version = result.version; marked = result.marked } }
{
    if let Some(version) = versions.get(question.change_id) {
        return Chosen {
            version,
            marked: false,
        };
    }
    let Some(events) = recorded else {
        return Chosen {
            version: question.max,
            marked: true,
        };
    };
    match first_marker(question.change_id, events) {
        Some(version) => Chosen {
            version,
            marked: true,
        },
        None => Chosen {
            version: -1,
            marked: false,
        },
    }
}
