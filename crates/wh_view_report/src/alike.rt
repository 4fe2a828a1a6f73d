//! Finds tasks that are alike but for ids, numbers, times and values.

ghost use Rattle.std.specs.Prelude.{◌≡◌};
ghost use Rattle.std.specs.Cmp.Lexicographic.{pointwise};
ghost use Rattle.wh_view_report.specs.Alike as alike;

use crate::digits::alike_texts;
use crate::subjects::marker_words;
use crate::words::told_mark;
use wh_events::EventKind;
use wh_markers::{MarkerKind, RecordedMarker};
use wh_view::{Ending, View, ViewedEvent, ViewedFailure, ViewedThing};

/// Returns the name of the signal or the marker that an event of the kind brings; empty for another
/// kind.
fn name_by(kind: &Option<EventKind>) -> &str
    ensures { result.now ≡ alike.name_by kind.now }
{
    match kind {
        Some(EventKind::WorkflowExecutionSignaled { name, .. }) => name.get(),
        Some(EventKind::MarkerRecorded { change_id, .. }) => change_id.get(),
        _ => "",
    }
}

/// Returns whether two events have the same type, bring the same signal or marker, and are about
/// things of the same type.
fn alike_names(view: &View, one: &ViewedEvent, other: &ViewedEvent) -> bool
    ensures { result ≡ alike.alike_names view.now one.now other.now }
{
    one.name() == other.name()
        && name_by(&one.read.kind) == name_by(&other.read.kind)
        && view.opening_of(one).type_name() == view.opening_of(other).type_name()
}

/// Returns the type, name or id that markers of the kind must share to be alike: none of a side
/// effect, whose id counts the side effects of its run.
fn shared_name(marker: &RecordedMarker) -> &str
    ensures { result.now ≡ alike.shared_name marker.now.kind marker.now.name }
{
    match marker.kind {
        MarkerKind::SideEffect => "",
        _ => marker.name.get(),
    }
}

/// Returns whether two markers record the same, but for the id of a side effect, an attempt or a
/// version.
fn alike_markers(one: &RecordedMarker, other: &RecordedMarker) -> bool
    ensures { result ≡ alike.alike_markers one.now other.now }
{
    marker_words(one.kind) == marker_words(other.kind)
        && shared_name(one) == shared_name(other)
        && one.deprecated == other.deprecated
}

/// Returns whether two things have both started, or neither has, and likewise are to be canceled
/// and have ended.
fn alike_states(one: ViewedThing, other: ViewedThing) -> bool
    ensures { result ≡ alike.alike_states one other }
{
    one.started.is_some() == other.started.is_some()
        && one.cancelling.is_some() == other.cancelling.is_some()
        && one.ended.is_some() == other.ended.is_some()
}

/// Returns whether there are no things, or two that have come equally far.
fn alike_things(one: Option<ViewedThing>, other: Option<ViewedThing>) -> bool
    ensures { result ≡ alike.alike_things one other }
{
    match (one, other) {
        (None, None) => true,
        (Some(one), Some(other)) => alike_states(one, other),
        _ => false,
    }
}

/// Returns whether two failures have the same type and, except for digits, the same message.
fn alike_failure(one: &ViewedFailure, other: &ViewedFailure) -> bool
    ensures { result ≡ alike.alike_failure one.now other.now }
{
    one.kind.get() == other.kind.get() && alike_texts(one.message.get(), other.message.get())
}

/// Returns whether two lists of failures are alike.
fn alike_failures(one: &[ViewedFailure], other: &[ViewedFailure]) -> bool
    ensures { result ≡ pointwise alike.alike_failure one.now other.now }
{
    if one.len() != other.len() {
        return false;
    }
    for (index, failure) in one.iter().enumerate() {
        if !alike_failure(failure, &other[index]) {
            return false;
        }
    }
    true
}

/// Returns whether two things ended for the same cause.
fn alike_endings(one: &Ending, other: &Ending) -> bool
    ensures { result ≡ alike.alike_endings one.now other.now }
{
    one.cause.get() == other.cause.get()
        && one.timeout_type.get() == other.timeout_type.get()
        && one.retry_state.get() == other.retry_state.get()
}

/// Returns whether two events failed for the same reason, except for digits of messages, and the
/// same is wrong with them.
fn alike_reasons(view: &View, one: &ViewedEvent, other: &ViewedEvent) -> bool
    ensures { result ≡ alike.alike_reasons view.now one.now other.now }
{
    alike_texts(one.failure.get(), other.failure.get())
        && alike_failures(one.details.failures.get(), other.details.failures.get())
        && alike_endings(&one.details.ending, &other.details.ending)
        && told_mark(view, one) == told_mark(view, other)
}

/// Returns whether two events are alike: they have the same type, are about the same, and failed
/// for the same reason, except for digits of messages, and their things have come equally far.
#[tactic(auto, unfolding(crate::specs::Alike::alike_event))]
fn alike_event(view: &View, one: &ViewedEvent, other: &ViewedEvent) -> bool
    ensures { result ≡ alike.alike_event view.now one.now other.now }
{
    alike_names(view, one, other)
        && alike_markers(&one.details.marker, &other.details.marker)
        && alike_things(view.thing_of(one), view.thing_of(other))
        && alike_reasons(view, one, other)
}

/// Returns whether two tasks have alike events, in the same order.
pub(crate) fn alike_tasks(view: &View, one: &[ViewedEvent], other: &[ViewedEvent]) -> bool
    ensures { result ≡ alike.alike_tasks view.now one.now other.now }
{
    if one.len() != other.len() {
        return false;
    }
    for (index, event) in one.iter().enumerate() {
        if !alike_event(view, event, &other[index]) {
            return false;
        }
    }
    true
}
