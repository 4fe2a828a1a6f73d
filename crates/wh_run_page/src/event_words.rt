//! The text of an event on a page.

ghost use Rattle.std.specs.Prelude.{◌≡◌, Some, IfOk};
ghost use Rattle.std.specs.Fmt.{DisplaysOnOk};
ghost use Rattle.std.specs.List.{flat_map};
ghost use Rattle.wh_run_page.specs.EventWords as words;

use crate::causes::{EndingWords, Reason};
use crate::words::{AfterLabel, MarkerNotes, ThingWords};
use std::alloc::Global;
use std::fmt;
use wh_events::{OutOfMemory, Text};
use wh_view::{MarkerKind, View, ViewedEvent};
use wh_view_report::{Attempt, MarkerText, mark_of};

/// Writes the values of an event.
fn write_values<W: fmt::Write>(values: &[Text], f: &mut fmt::Formatter<W>) -> fmt::Result
    ensures { DisplaysOnOk W.write_str_gives f.old result (Some (flat_map words.value_text values.now)) f.new }
{
    for value in values {
        let value = value.get();
        write!(f, "; {value}")?;
    }
    Ok(())
}

/// The values of an event.
#[derive(Drop)]
struct Values<'a>(&'a [Text]);

impl fmt::Display for Values<'_> {
    ghost output = { λ v. Some (flat_map words.value_text v.0.now) };

    fn fmt<W: fmt::Write>(&self, f: &mut fmt::Formatter<W>) -> fmt::Result {
        write_values(self.0, f)
    }
}

/// What an event is about: what its marker records, or else its thing.
#[derive(Drop)]
struct Subject<'a>(&'a View, &'a ViewedEvent);

impl fmt::Display for Subject<'_> {
    ghost output = { λ s. Some (words.subject_text s.0.now s.1.now) };

    fn fmt<W: fmt::Write>(&self, f: &mut fmt::Formatter<W>) -> fmt::Result {
        match self.1.details.marker.kind {
            MarkerKind::Other => {
                let thing = ThingWords(self.0.opening_of(self.1));
                write!(f, "{thing}")
            }
            _ => {
                let marker = MarkerText(&self.1.details.marker);
                write!(f, "{marker}")
            }
        }
    }
}

/// An event by the plain name of its type, and by what it is about.
#[derive(Drop)]
pub(crate) struct EventTitle<'a>(pub(crate) &'a View, pub(crate) &'a ViewedEvent);

impl fmt::Display for EventTitle<'_> {
    ghost output = { λ t. Some (words.title_text t.0.now t.1.now) };

    #[tactic(auto, unfolding(crate::specs::EventWords::title_text))]
    fn fmt<W: fmt::Write>(&self, f: &mut fmt::Formatter<W>) -> fmt::Result {
        let name = self.1.name();
        let subject = Subject(self.0, self.1);
        write!(f, "{name}{subject}")
    }
}

/// The attempt of an event, and what else is noted of its marker.
#[derive(Drop)]
struct Notes<'a>(&'a ViewedEvent);

impl fmt::Display for Notes<'_> {
    ghost output = { λ n. Some (words.notes_text n.0.now) };

    fn fmt<W: fmt::Write>(&self, f: &mut fmt::Formatter<W>) -> fmt::Result {
        let attempt = Attempt(self.0.attempt);
        let marker = MarkerNotes(&self.0.details.marker);
        write!(f, "{attempt}{marker}")
    }
}

/// Returns the text of an event.
#[tactic(auto, unfolding(crate::specs::EventWords::event_words))]
pub(crate) fn event_words(
    alloc: Global,
    view: &View,
    event: &ViewedEvent,
) -> Result<Text, OutOfMemory>
    ensures { IfOk result (λ text. text ≡ words.event_words view.now event.now) }
{
    let title = EventTitle(view, event);
    let notes = Notes(event);
    let duration = AfterLabel(", ", event.duration.get());
    let reason = Reason(", because ", event);
    let ending = EndingWords(event);
    let mark = AfterLabel(", ", mark_of(view, event));
    let values = Values(event.payloads.get());
    Ok(Text::new(format!(in alloc; "{title}{notes}{duration}{reason}{ending}{mark}{values}")?))
}
