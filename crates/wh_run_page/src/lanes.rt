//! The things of a run, as the lanes of its page.

ghost use Rattle.std.specs.Prelude.{◌≡◌, Some, IfOk, option_map};
ghost use Rattle.wh_run_page.specs.Lanes as lanes;
ghost use Rattle.wh_view_report.specs.Spans.{time_taken};

use crate::causes::{EndingWords, Reason};
use crate::moments::{event_at, moment_if, moment_or};
use crate::rows::PlacedThing;
use crate::words::{MarkerNotes, copy_text, known_span};
use std::alloc::Global;
use std::fmt;
use wh_events::{EventKind, OutOfMemory, Text};
use wh_html::{Kind, Lane, Moment, ThingOutcome};
use wh_view::{MarkerKind, ThingKind, View, ViewedEvent, ViewedThing};
use wh_view_report::marker_words;

/// Returns the kind of a lane.
pub(crate) fn lane_kind(kind: ThingKind) -> Kind
    ensures { result ≡ lanes.lane_kind kind }
{
    match kind {
        ThingKind::Activity => Kind::Activity,
        ThingKind::Timer => Kind::Timer,
        ThingKind::Child => Kind::Child,
        ThingKind::CancelRequest | ThingKind::SignalRequest => Kind::Request,
        ThingKind::Signal => Kind::Signal,
        ThingKind::Marker => Kind::Marker,
    }
}

/// Returns whether what ends with an event of the kind was canceled.
fn is_canceling(kind: &EventKind) -> bool
    ensures { result ≡ lanes.is_canceling kind.now }
{
    matches!(
        kind,
        EventKind::ActivityTaskCanceled { .. }
            | EventKind::TimerCanceled { .. }
            | EventKind::ChildWorkflowExecutionCanceled { .. }
    )
}

/// Returns whether what ends with the event was canceled.
fn is_cancellation(event: &ViewedEvent) -> bool
    ensures { result ≡ lanes.is_cancellation event.now }
{
    match &event.read.kind {
        Some(kind) => is_canceling(kind),
        None => false,
    }
}

/// Returns the outcome of a thing that ended with the event.
fn outcome_by(event: &ViewedEvent) -> ThingOutcome
    ensures { result ≡ lanes.outcome_by event.now }
{
    if event.is_failure() {
        ThingOutcome::Failed
    } else if is_cancellation(event) {
        ThingOutcome::Canceled
    } else {
        ThingOutcome::Done
    }
}

/// Returns the outcome of a thing that ended with an event of the kind, in a word.
fn outcome_word(kind: &EventKind) -> &'static str
    ensures { result.now ≡ lanes.outcome_word kind.now }
{
    match kind {
        EventKind::ActivityTaskFailed { .. }
        | EventKind::ChildWorkflowExecutionFailed { .. }
        | EventKind::RequestCancelExternalWorkflowExecutionFailed { .. }
        | EventKind::SignalExternalWorkflowExecutionFailed { .. } => "failed",
        EventKind::ActivityTaskTimedOut { .. } | EventKind::ChildWorkflowExecutionTimedOut { .. } =>
            "timed out",
        EventKind::ActivityTaskCanceled { .. }
        | EventKind::TimerCanceled { .. }
        | EventKind::ChildWorkflowExecutionCanceled { .. } => "canceled",
        EventKind::TimerFired { .. } => "fired",
        EventKind::ChildWorkflowExecutionTerminated { .. } => "terminated",
        EventKind::StartChildWorkflowExecutionFailed { .. } => "not started",
        EventKind::ExternalWorkflowExecutionCancelRequested { .. }
        | EventKind::ExternalWorkflowExecutionSignaled { .. } => "delivered",
        EventKind::WorkflowExecutionSignaled { .. } => "received",
        EventKind::MarkerRecorded { .. } => "recorded",
        _ => "completed",
    }
}

/// Returns the outcome of a thing, by the event that ended it, if there is one.
pub(crate) fn outcome_at(ending: Option<&ViewedEvent>) -> ThingOutcome
    ensures { result ≡ lanes.outcome_at (option_map (λ e. e.now) ending.entry) }
{
    match ending {
        Some(event) => outcome_by(event),
        None => ThingOutcome::Open,
    }
}

/// Returns the outcome of a thing that ended with the event, in a word.
fn word_of(event: &ViewedEvent) -> &'static str
    ensures { result.now ≡ lanes.word_of_kind event.now.read.kind }
{
    match &event.read.kind {
        Some(kind) => outcome_word(kind),
        None => "ended",
    }
}

/// The outcome of a thing that ended with the event: the version of a change, or else a word.
#[derive(Drop)]
struct EndWord<'a>(&'a ViewedEvent);

impl fmt::Display for EndWord<'_> {
    ghost output = { λ e. Some (lanes.end_word e.0.now) };

    fn fmt<W: fmt::Write>(&self, f: &mut fmt::Formatter<W>) -> fmt::Result {
        let marker = &self.0.details.marker;
        match (marker.kind, marker.number) {
            (MarkerKind::Version, Some(number)) => write!(f, "version {number}"),
            _ => {
                let word = word_of(self.0);
                write!(f, "{word}")
            }
        }
    }
}

/// The outcome of a thing that ended with the event, with what else is noted of a marker.
#[derive(Drop)]
struct EndWords<'a>(&'a ViewedEvent);

impl fmt::Display for EndWords<'_> {
    ghost output = { λ e. Some (lanes.end_words e.0.now) };

    fn fmt<W: fmt::Write>(&self, f: &mut fmt::Formatter<W>) -> fmt::Result {
        let word = EndWord(self.0);
        let notes = MarkerNotes(&self.0.details.marker);
        write!(f, "{word}{notes}")
    }
}

/// The event that requested the cancellation of a thing, after other words; nothing if none did.
#[derive(Clone, Copy)]
struct CancelWords(Option<Moment>);

impl fmt::Display for CancelWords {
    ghost output = { λ c. Some (lanes.cancel_words c.0) };

    fn fmt<W: fmt::Write>(&self, f: &mut fmt::Formatter<W>) -> fmt::Result {
        match self.0 {
            Some(moment) => {
                let event = moment.event;
                write!(f, ", cancellation requested by event {event}")
            }
            None => Ok(()),
        }
    }
}

/// Returns the outcome of a thing in words, with the failure and its causes, why it was not tried
/// again, and the event that requested its cancellation.
fn outcome_words(
    alloc: Global,
    ending: Option<&ViewedEvent>,
    cancelling: Option<Moment>,
) -> Result<Text, OutOfMemory>
    ensures { IfOk result (λ words.
        words ≡ lanes.outcome_words (option_map (λ e. e.now) ending.entry) cancelling) }
{
    let cancel = CancelWords(cancelling);
    let Some(event) = ending else {
        return Ok(Text::new(format!(in alloc; "open{cancel}")?));
    };
    let word = EndWords(event);
    let reason = Reason(": ", event);
    let ending = EndingWords(event);
    Ok(Text::new(format!(in alloc; "{word}{reason}{ending}{cancel}")?))
}

/// Returns the type of what an event opened: of what a marker records its name, but of a side
/// effect its kind.
fn lane_type(event: &ViewedEvent) -> &str
    ensures { result.now ≡ lanes.lane_type event.now }
{
    let marker = &event.details.marker;
    match marker.kind {
        MarkerKind::Other => event.type_name(),
        MarkerKind::SideEffect => marker_words(MarkerKind::SideEffect),
        _ => marker.name.get(),
    }
}

/// Returns the id beside that type: of what a marker records its kind, but of a side effect its
/// name.
fn lane_id(event: &ViewedEvent) -> &str
    ensures { result.now ≡ lanes.lane_id event.now }
{
    let marker = &event.details.marker;
    match marker.kind {
        MarkerKind::Other => event.id(),
        MarkerKind::SideEffect => marker.name.get(),
        kind => marker_words(kind),
    }
}

/// Returns the id of what an event opened; empty if there is no event.
pub(crate) fn id_at<'v>(opening: Option<&'v ViewedEvent>) -> &'v str
    ensures { result.now ≡ lanes.id_at (option_map (λ e. e.now) opening.entry) }
{
    match opening {
        Some(event) => lane_id(event),
        None => "",
    }
}

/// Returns the type of what an event opened; empty if there is no event.
pub(crate) fn type_at<'v>(opening: Option<&'v ViewedEvent>) -> &'v str
    ensures { result.now ≡ lanes.type_at (option_map (λ e. e.now) opening.entry) }
{
    match opening {
        Some(event) => lane_type(event),
        None => "",
    }
}

/// Copies a text, if it is not empty.
fn text_if(alloc: Global, text: &str) -> Result<Option<Text>, OutOfMemory>
    ensures { IfOk result (λ copy. copy ≡ lanes.text_if text.now) }
{
    if text.is_empty() {
        return Ok(None);
    }
    Ok(Some(copy_text(alloc, text)?))
}

/// Returns the attempt that an event names, if it names one.
fn attempt_at(starting: Option<&ViewedEvent>) -> Option<u64>
    ensures { result ≡ lanes.attempt_at (option_map (λ e. e.now) starting.entry) }
{
    match starting {
        Some(event) => if event.attempt == 0 {
            None
        } else {
            Some(event.attempt)
        },
        None => None,
    }
}

/// Returns the index of the event that ended a thing, unless the same event opened it.
fn later_end(thing: &ViewedThing) -> Option<usize>
    ensures { result ≡ lanes.later_end thing.now }
{
    match thing.ended {
        Some(index) => if index == thing.opened {
            None
        } else {
            Some(index)
        },
        None => None,
    }
}

/// Returns how long a thing took, in milliseconds: from its start to its end, or from its opening
/// if it was not started; `None` if it has not ended, or that is not known.
fn time_taken(view: &View, thing: &ViewedThing) -> Option<u64>
    ensures { result ≡ time_taken view.now thing.now }
{
    if thing.started.is_some() {
        view.work_time(thing)
    } else {
        view.whole_time(thing)
    }
}

/// Returns how long a thing took, in milliseconds, as the lines of its events tell it: nothing of
/// what ended with the event that opened it.
fn time_told(view: &View, thing: &ViewedThing) -> Option<u64>
    ensures { result ≡ lanes.time_told view.now thing.now }
{
    if later_end(thing).is_some() {
        time_taken(view, thing)
    } else {
        None
    }
}

/// Returns the lane of a thing with its row.
#[tactic(auto, unfolding(crate::specs::Lanes::lane_of))]
fn lane_of(
    alloc: Global,
    view: &View,
    times: &[u64],
    placed: &PlacedThing,
) -> Result<Lane, OutOfMemory>
    ensures { IfOk result (λ lane. lane ≡ lanes.lane_of view.now times.now placed.now) }
{
    let thing = &placed.thing;
    let events = view.events.get();
    let opening = event_at(events, Some(thing.opened));
    let starting = event_at(events, thing.started);
    let ending = event_at(events, thing.ended);
    let name = copy_text(alloc, id_at(opening))?;
    let type_name = text_if(alloc, type_at(opening))?;
    let cancelling = moment_if(times, event_at(events, thing.cancelling));
    let words = outcome_words(alloc, ending, cancelling)?;
    let waited = known_span(alloc, view.queue_time(thing))?;
    let took = known_span(alloc, time_told(view, thing))?;
    Ok(Lane {
        kind: lane_kind(thing.kind),
        name,
        type_name,
        opened: moment_or(times, opening),
        started: moment_if(times, starting),
        cancelling,
        ended: moment_if(times, event_at(events, later_end(thing))),
        waited,
        took,
        outcome: outcome_at(ending),
        words,
        attempts: attempt_at(starting),
        row: placed.row,
        part: placed.part,
    })
}

/// Returns the lanes of things with their rows.
pub(crate) fn lanes_of(
    alloc: Global,
    view: &View,
    times: &[u64],
    placed: &[PlacedThing],
) -> Result<Vec<Lane>, OutOfMemory>
    ensures { IfOk result (λ all. all.items ≡ lanes.lanes_of view.now times.now placed.now) }
{
    let mut all = Vec::new(alloc);
    for thing in placed {
        let lane = lane_of(alloc, view, times, thing)?;
        all.push(lane)?;
    }
    Ok(all)
}
