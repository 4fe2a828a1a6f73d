//! What a marker records, and the run of a child, as members of the object of an event.

ghost use Rattle.std.specs.Prelude.{◌≡◌, Some};
ghost use Rattle.wh_view_json.specs.Markers as json;

use crate::texts::TextMember;
use std::fmt;
use wh_events::EventKind;
use wh_markers::{MarkerKind, RecordedMarker};
use wh_view::ViewedEvent;

/// Returns what a marker records, in a word.
fn marker_word(kind: MarkerKind) -> &'static str
    ensures { result.now ≡ json.marker_word kind }
{
    match kind {
        MarkerKind::LocalActivity => "localActivity",
        MarkerKind::SideEffect => "sideEffect",
        MarkerKind::MutableSideEffect => "mutableSideEffect",
        MarkerKind::Version => "version",
        MarkerKind::Patch => "patch",
        MarkerKind::Other => "other",
    }
}

/// Returns what the number of a marker is.
fn number_key(kind: MarkerKind) -> &'static str
    ensures { result.now ≡ json.number_key kind }
{
    match kind {
        MarkerKind::LocalActivity => "attempt",
        _ => "version",
    }
}

/// The number of a marker, as a further member of an object; nothing if it has none.
#[derive(Clone, Copy)]
struct CountMember(MarkerKind, Option<i64>);

impl fmt::Display for CountMember {
    ghost output = { λ c. Some (json.count_member c.0 c.1) };

    fn fmt<W: fmt::Write>(&self, f: &mut fmt::Formatter<W>) -> fmt::Result {
        match self.1 {
            Some(number) => {
                let key = number_key(self.0);
                write!(f, ",\"{key}\":{number}")
            }
            None => Ok(()),
        }
    }
}

/// That a patch is deprecated, as a further member of an object; nothing if it is not.
#[derive(Clone, Copy)]
struct DeprecatedMember(bool);

impl fmt::Display for DeprecatedMember {
    ghost output = { λ d. Some (json.deprecated_member d.0) };

    fn fmt<W: fmt::Write>(&self, f: &mut fmt::Formatter<W>) -> fmt::Result {
        if self.0 {
            write!(f, ",\"deprecated\":true")
        } else {
            Ok(())
        }
    }
}

/// The members of what a marker records.
#[derive(Drop)]
struct NamedMembers<'a>(&'a RecordedMarker);

impl fmt::Display for NamedMembers<'_> {
    ghost output = { λ n. Some (json.named_members n.0.now) };

    fn fmt<W: fmt::Write>(&self, f: &mut fmt::Formatter<W>) -> fmt::Result {
        let name = TextMember("name", self.0.name.get());
        let number = CountMember(self.0.kind, self.0.number);
        let deprecated = DeprecatedMember(self.0.deprecated);
        write!(f, "{name}{number}{deprecated}")
    }
}

/// What a marker records, as a further member of an object; nothing if that is not known.
#[derive(Drop)]
struct RecordedMember<'a>(&'a RecordedMarker);

impl fmt::Display for RecordedMember<'_> {
    ghost output = { λ r. Some (json.recorded_member r.0.now) };

    fn fmt<W: fmt::Write>(&self, f: &mut fmt::Formatter<W>) -> fmt::Result {
        match self.0.kind {
            MarkerKind::Other => Ok(()),
            kind => {
                let word = marker_word(kind);
                let members = NamedMembers(self.0);
                write!(f, ",\"marker\":{{\"kind\":\"{word}\"{members}}}")
            }
        }
    }
}

/// The run id of a child that has started, as a further member of an object; nothing of another
/// event.
#[derive(Drop)]
struct ChildMember<'a>(&'a ViewedEvent);

impl fmt::Display for ChildMember<'_> {
    ghost output = { λ c. Some (json.child_member c.0.now) };

    fn fmt<W: fmt::Write>(&self, f: &mut fmt::Formatter<W>) -> fmt::Result {
        match self.0.read.kind {
            Some(EventKind::ChildWorkflowExecutionStarted { .. }) => {
                let run_id = TextMember("childRunId", self.0.details.execution_run_id.get());
                write!(f, "{run_id}")
            }
            _ => Ok(()),
        }
    }
}

/// The members of an event that its details give.
#[derive(Drop)]
pub(crate) struct DetailMembers<'a>(pub(crate) &'a ViewedEvent);

impl fmt::Display for DetailMembers<'_> {
    ghost output = { λ d. Some (json.detail_members d.0.now) };

    #[tactic(auto, unfolding(crate::specs::Markers::detail_members))]
    fn fmt<W: fmt::Write>(&self, f: &mut fmt::Formatter<W>) -> fmt::Result {
        let marker = RecordedMember(&self.0.details.marker);
        let child = ChildMember(self.0);
        write!(f, "{marker}{child}")
    }
}
