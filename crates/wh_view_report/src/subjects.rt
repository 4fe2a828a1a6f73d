//! What an event is about: what a marker records, or else the id and the type of its thing.

ghost use Rattle.std.specs.Prelude.{◌≡◌, Some};
ghost use Rattle.wh_view_report.specs.Subjects as subjects;

use crate::cut::LabelText;
use crate::words::Attempt;
use std::fmt;
use wh_events::EventKind;
use wh_markers::{MarkerKind, RecordedMarker};
use wh_view::{View, ViewedEvent};

/// Returns what a marker of the kind records, in a word or more, such as `local activity`; empty
/// for a marker of none of the forms that the SDKs use.
pub fn marker_words(kind: MarkerKind) -> &'static str
    ensures { result.now ≡ subjects.marker_words kind }
{
    match kind {
        MarkerKind::LocalActivity => "local activity",
        MarkerKind::SideEffect => "side effect",
        MarkerKind::MutableSideEffect => "mutable side effect",
        MarkerKind::Version => "version",
        MarkerKind::Patch => "patch",
        MarkerKind::Other => "",
    }
}

/// The version of a change, by the number of its marker; nothing of another marker.
#[derive(Clone, Copy)]
struct VersionText(MarkerKind, Option<i64>);

impl fmt::Display for VersionText {
    ghost output = { λ v. Some (subjects.version_by v.0 v.1) };

    fn fmt<W: fmt::Write>(&self, f: &mut fmt::Formatter<W>) -> fmt::Result {
        match (self.0, self.1) {
            (MarkerKind::Version, Some(number)) => write!(f, " {number}"),
            _ => Ok(()),
        }
    }
}

/// What a marker records, after a space: in words, its name, and the version of a change. The name
/// is cut after 80 characters.
#[derive(Drop)]
pub struct MarkerText<'a>(pub &'a RecordedMarker);

impl fmt::Display for MarkerText<'_> {
    ghost output = { λ m. Some (subjects.marker_text m.0.now) };

    fn fmt<W: fmt::Write>(&self, f: &mut fmt::Formatter<W>) -> fmt::Result {
        let words = marker_words(self.0.kind);
        let name = LabelText(" ", self.0.name.get());
        let version = VersionText(self.0.kind, self.0.number);
        write!(f, " {words}{name}{version}")
    }
}

/// The id and the type of the thing of an event.
#[derive(Drop)]
struct ThingText<'a>(&'a View, &'a ViewedEvent);

impl fmt::Display for ThingText<'_> {
    ghost output = { λ t. Some (subjects.thing_text t.0.now t.1.now) };

    fn fmt<W: fmt::Write>(&self, f: &mut fmt::Formatter<W>) -> fmt::Result {
        let opening = self.0.opening_of(self.1);
        let id = LabelText(" ", opening.id());
        let kind = LabelText(" ", opening.type_name());
        write!(f, "{id}{kind}")
    }
}

/// What an event is about, after its type.
#[derive(Drop)]
pub(crate) struct Subject<'a>(pub(crate) &'a View, pub(crate) &'a ViewedEvent);

impl fmt::Display for Subject<'_> {
    ghost output = { λ s. Some (subjects.subject_text s.0.now s.1.now) };

    #[tactic(auto, unfolding(crate::specs::Subjects::subject_text))]
    fn fmt<W: fmt::Write>(&self, f: &mut fmt::Formatter<W>) -> fmt::Result {
        match self.1.details.marker.kind {
            MarkerKind::Other => {
                let thing = ThingText(self.0, self.1);
                write!(f, "{thing}")
            }
            _ => {
                let marker = MarkerText(&self.1.details.marker);
                write!(f, "{marker}")
            }
        }
    }
}

/// The attempt of a local activity, by the number of its marker, as `, attempt 2`; nothing of a
/// marker of another kind.
#[derive(Clone, Copy)]
pub struct Tries(pub MarkerKind, pub Option<i64>);

impl fmt::Display for Tries {
    ghost output = { λ t. Some (subjects.tries_by t.0 t.1) };

    fn fmt<W: fmt::Write>(&self, f: &mut fmt::Formatter<W>) -> fmt::Result {
        match (self.0, self.1) {
            (MarkerKind::LocalActivity, Some(number)) => write!(f, ", attempt {number}"),
            _ => Ok(()),
        }
    }
}

/// That a patch is deprecated, as `, deprecated`; nothing if it is not.
#[derive(Clone, Copy)]
pub struct DeprecatedText(pub bool);

impl fmt::Display for DeprecatedText {
    ghost output = { λ d. Some (subjects.deprecated_text d.0) };

    fn fmt<W: fmt::Write>(&self, f: &mut fmt::Formatter<W>) -> fmt::Result {
        if self.0 {
            write!(f, ", deprecated")
        } else {
            Ok(())
        }
    }
}

/// The run id of a child that has started; nothing of another event.
#[derive(Drop)]
struct ChildText<'a>(&'a ViewedEvent);

impl fmt::Display for ChildText<'_> {
    ghost output = { λ c. Some (subjects.child_text c.0.now) };

    fn fmt<W: fmt::Write>(&self, f: &mut fmt::Formatter<W>) -> fmt::Result {
        match self.0.read.kind {
            Some(EventKind::ChildWorkflowExecutionStarted { .. }) => {
                let run_id = LabelText(", run id ", self.0.details.execution_run_id.get());
                write!(f, "{run_id}")
            }
            _ => Ok(()),
        }
    }
}

/// The attempt of a local activity, that a patch is deprecated, and the run of a child.
#[derive(Drop)]
struct NoteText<'a>(&'a ViewedEvent);

impl fmt::Display for NoteText<'_> {
    ghost output = { λ n. Some (subjects.note_text n.0.now) };

    fn fmt<W: fmt::Write>(&self, f: &mut fmt::Formatter<W>) -> fmt::Result {
        let marker = &self.0.details.marker;
        let tries = Tries(marker.kind, marker.number);
        let deprecated = DeprecatedText(marker.deprecated);
        let child = ChildText(self.0);
        write!(f, "{tries}{deprecated}{child}")
    }
}

/// The attempt of an event or of what its marker records, and what else is noted of them.
#[derive(Drop)]
pub(crate) struct Notes<'a>(pub(crate) &'a ViewedEvent);

impl fmt::Display for Notes<'_> {
    ghost output = { λ n. Some (subjects.notes_text n.0.now) };

    #[tactic(auto, unfolding(crate::specs::Subjects::notes_text))]
    fn fmt<W: fmt::Write>(&self, f: &mut fmt::Formatter<W>) -> fmt::Result {
        let attempt = Attempt(self.0.attempt);
        let note = NoteText(self.0);
        write!(f, "{attempt}{note}")
    }
}
