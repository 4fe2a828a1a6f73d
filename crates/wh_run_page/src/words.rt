//! Texts of which those of a page are made.

ghost use Rattle.std.specs.Prelude.{◌≡◌, Some, IfOk};
ghost use Rattle.wh_run_page.specs.Words as words;
ghost use Rattle.wh_view.specs.Lookups.{event_id, event_type};

use std::alloc::Global;
use std::fmt;
use wh_events::{OutOfMemory, Text};
use wh_html::SpanText;
use wh_view::{RecordedMarker, ViewedEvent};
use wh_view_report::{DeprecatedText, Tries};

/// A text after a label; nothing if the text is empty.
#[derive(Drop)]
pub(crate) struct AfterLabel<'a>(pub(crate) &'static str, pub(crate) &'a str);

impl fmt::Display for AfterLabel<'_> {
    ghost output = { λ a. Some (words.after_label a.0.now a.1.now) };

    fn fmt<W: fmt::Write>(&self, f: &mut fmt::Formatter<W>) -> fmt::Result {
        if self.1.is_empty() {
            return Ok(());
        }
        let label = self.0;
        let text = self.1;
        write!(f, "{label}{text}")
    }
}

/// What an event opens: its type with its id, or else its id alone.
#[derive(Drop)]
pub(crate) struct ThingWords<'a>(pub(crate) &'a ViewedEvent);

impl fmt::Display for ThingWords<'_> {
    ghost output = { λ t. Some (words.thing_text (event_type t.0.now) (event_id t.0.now)) };

    fn fmt<W: fmt::Write>(&self, f: &mut fmt::Formatter<W>) -> fmt::Result {
        let type_name = self.0.type_name();
        if type_name.is_empty() {
            let id = AfterLabel(" ", self.0.id());
            return write!(f, "{id}");
        }
        let id = AfterLabel(" #", self.0.id());
        write!(f, " {type_name}{id}")
    }
}

/// Returns a length of time in milliseconds in words, if it is known.
pub(crate) fn known_span(alloc: Global, millis: Option<u64>) -> Result<Option<Text>, OutOfMemory>
    ensures { IfOk result (λ text. text ≡ words.known_span millis) }
{
    match millis {
        Some(millis) => {
            let span = SpanText(millis);
            Ok(Some(Text::new(format!(in alloc; "{span}")?)))
        }
        None => Ok(None),
    }
}

/// Copies a text.
pub(crate) fn copy_text(alloc: Global, text: &str) -> Result<Text, OutOfMemory>
    ensures { IfOk result (λ copy. copy ≡ text.now) }
{
    Ok(Text::new(String::from_str(alloc, text)?))
}

/// What else is noted of a marker: the attempt of a local activity, and that a patch is deprecated.
#[derive(Drop)]
pub(crate) struct MarkerNotes<'a>(pub(crate) &'a RecordedMarker);

impl fmt::Display for MarkerNotes<'_> {
    ghost output = { λ m. Some (words.marker_notes m.0.now) };

    fn fmt<W: fmt::Write>(&self, f: &mut fmt::Formatter<W>) -> fmt::Result {
        let tries = Tries(self.0.kind, self.0.number);
        let deprecated = DeprecatedText(self.0.deprecated);
        write!(f, "{tries}{deprecated}")
    }
}
