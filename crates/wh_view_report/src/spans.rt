//! How long things waited and took, and how long timers are.

ghost use Rattle.std.specs.Prelude.{◌≡◌, Some};
ghost use Rattle.wh_view_report.specs.Spans as spans;

use crate::cut::LabelText;
use std::fmt;
use wh_html::SpanText;
use wh_view::{View, ViewedEvent, ViewedThing, duration_in};

/// A length of time after a label; nothing if it is not known.
#[derive(Clone, Copy)]
pub(crate) struct LabelSpan(pub(crate) &'static str, pub(crate) Option<u64>);

impl fmt::Display for LabelSpan {
    ghost output = { λ l. Some (spans.label_span l.0.now l.1) };

    fn fmt<W: fmt::Write>(&self, f: &mut fmt::Formatter<W>) -> fmt::Result {
        match self.1 {
            Some(millis) => {
                let label = self.0;
                let span = SpanText(millis);
                write!(f, "{label}{span}")
            }
            None => Ok(()),
        }
    }
}

/// The duration of a timer, after other words: as it is written if it can't be read; nothing if it
/// is empty.
#[derive(Drop)]
pub(crate) struct DurationText<'a>(pub(crate) &'a str);

impl fmt::Display for DurationText<'_> {
    ghost output = { λ d. Some (spans.duration_text d.0.now) };

    fn fmt<W: fmt::Write>(&self, f: &mut fmt::Formatter<W>) -> fmt::Result {
        match duration_in(self.0) {
            Some(millis) => {
                let span = SpanText(millis);
                write!(f, ", {span}")
            }
            None => {
                let text = LabelText(", ", self.0);
                write!(f, "{text}")
            }
        }
    }
}

/// Returns whether the event at an index is that of a step.
fn is_at(step: Option<usize>, index: usize) -> bool
    ensures { result ≡ spans.is_at step index }
{
    match step {
        Some(other) => other == index,
        None => false,
    }
}

/// Returns how long a thing took, in milliseconds: from its start to its end, or from its opening
/// if it was not started. `None` if it has not ended.
pub fn time_taken(view: &View, thing: &ViewedThing) -> Option<u64>
    ensures { result ≡ spans.time_taken view.now thing.now }
{
    if thing.started.is_some() {
        view.work_time(thing)
    } else {
        view.whole_time(thing)
    }
}

/// How long a thing waited, if the event at the index starts it, or took, if that ends it.
#[derive(Drop)]
struct ThingSpan<'a>(&'a View, &'a ViewedThing, usize);

impl fmt::Display for ThingSpan<'_> {
    ghost output = { λ t. Some (spans.thing_span t.0.now t.1.now t.2) };

    fn fmt<W: fmt::Write>(&self, f: &mut fmt::Formatter<W>) -> fmt::Result {
        let thing = self.1;
        let index = self.2;
        if is_at(thing.started, index) {
            let span = LabelSpan(", waited ", self.0.queue_time(thing));
            write!(f, "{span}")
        } else if is_at(thing.ended, index) && thing.opened != index {
            let span = LabelSpan(", took ", time_taken(self.0, thing));
            write!(f, "{span}")
        } else {
            Ok(())
        }
    }
}

/// How long the thing of an event waited, if the event starts it, or took, if the event ends it.
#[derive(Drop)]
pub(crate) struct StepSpan<'a>(pub(crate) &'a View, pub(crate) &'a ViewedEvent);

impl fmt::Display for StepSpan<'_> {
    ghost output = { λ s. Some (spans.step_span s.0.now s.1.now) };

    #[tactic(auto, unfolding(crate::specs::Spans::step_span))]
    fn fmt<W: fmt::Write>(&self, f: &mut fmt::Formatter<W>) -> fmt::Result {
        match self.0.thing_of(self.1) {
            Some(thing) => {
                let span = ThingSpan(self.0, &thing, self.1.index());
                write!(f, "{span}")
            }
            None => Ok(()),
        }
    }
}
