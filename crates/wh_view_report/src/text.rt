//! Writes the lines of a view: one for each event of some tasks, and those above and below.

ghost use Rattle.std.specs.Prelude.{◌≡◌, OnOk, Some, option_map, slice_get};
ghost use Rattle.std.specs.List.{flat_map};
ghost use Rattle.std.specs.Io.KnownBytes.{Appends};
ghost use Rattle.wh_view_report.specs.Texts as texts;

use crate::causes::{Because, EndingText};
use crate::cut::{Excerpt, LabelText};
use crate::run::write_run;
use crate::spans::{DurationText, StepSpan};
use crate::subjects::{Notes, Subject};
use crate::sums::write_sums;
use crate::waits::write_waits;
use crate::words::{Link, Number, Start, marker_name, told_mark};
use std::io::Write;
use std::{fmt, io};
use wh_console::Selection;
use wh_events::{EventKind, EventNo, Text};
use wh_view::{UnsupportedKind, View, ViewedEvent};

/// A range of tasks: one, and so many after it.
#[derive(Clone, Copy)]
pub struct TaskRange {
    /// The number of the first task.
    pub first: usize,
    /// How many tasks follow it.
    pub more: usize,
}

/// Returns how many tasks the events complete.
pub fn completed_count(events: &[ViewedEvent]) -> usize
    ensures { result ≡ texts.completed_count events.now }
{
    events.iter().filter(|event| event.completes_task()).count()
}

/// Returns whether the event has the number.
fn has_number(event: &ViewedEvent, number: EventNo) -> bool
    ensures { result ≡ texts.has_number number event.now }
{
    match event.read.number {
        Some(other) => other.get() == number.get(),
        None => false,
    }
}

/// Returns the first event that has the number.
#[tactic(auto, unfolding(crate::specs::Texts::numbered_in))]
fn numbered_in(events: &[ViewedEvent], number: EventNo) -> Option<&ViewedEvent>
    ensures { option_map (λ event. event.now) result ≡ texts.numbered_in number events.now }
{
    for event in events {
        if has_number(event, number) {
            return Some(event);
        }
    }
    None
}

/// Returns whether a view has what is selected. All tasks and the last tasks are always there;
/// tasks around an event are there if an event has its number.
pub fn has_selected(view: &View, selection: Selection) -> bool
    ensures { result ≡ texts.has_selected view.now selection }
{
    match selection {
        Selection::All | Selection::Last(_) => true,
        Selection::Around(number) => numbered_in(view.events.get(), number).is_some(),
    }
}

/// Returns a task with the two before and the two after it.
fn span_around(task: usize) -> TaskRange
    ensures { result ≡ texts.span_around task }
{
    let first = task.saturating_sub(2);
    TaskRange {
        first,
        more: task - first + 2,
    }
}

/// Returns the tasks that are selected: all of them, the last ones up to those of the events after
/// the last completed task, or the task of an event with the two before and the two after it. If
/// tasks around an event are selected and no event has its number, that is task 0: what is recorded
/// of the workflow before a task was completed.
pub fn span_of(view: &View, selection: &Selection) -> TaskRange
    ensures { result ≡ texts.span_of view.now selection.now }
{
    let events = view.events.get();
    match selection {
        Selection::All => TaskRange {
            first: 0,
            more: events.len(),
        },
        Selection::Last(tasks) => TaskRange {
            first: (completed_count(events) + 1).saturating_sub(*tasks),
            more: events.len(),
        },
        Selection::Around(number) => match numbered_in(events, *number) {
            Some(event) => span_around(view.task_of(event)),
            None => TaskRange { first: 0, more: 0 },
        },
    }
}

/// Returns whether an event belongs to one of the tasks.
pub fn is_within(view: &View, span: TaskRange, event: &ViewedEvent) -> bool
    ensures { result ≡ texts.is_within view.now span event.now }
{
    let task = view.task_of(event);
    span.first <= task && task - span.first <= span.more
}

/// Writes the values of an event, one line each.
fn write_values<O: Write>(values: &[Text], writer: &mut O) -> io::Result<()>
    ensures { OnOk result
        (Appends (O.contents writer.old) (O.contents writer.new) (flat_map texts.value_line values.now)) }
{
    for value in values {
        let value = Excerpt(value.get());
        write!(writer, "      {value}\n")?;
    }
    Ok(())
}

/// Returns whether an event has no line: `WorkflowTaskScheduled` and `WorkflowTaskStarted`.
pub fn is_quiet(event: &ViewedEvent) -> bool
    ensures { result ≡ texts.is_quiet event.now }
{
    matches!(
        &event.read.kind,
        Some(EventKind::WorkflowTaskScheduled | EventKind::WorkflowTaskStarted)
    )
}

/// What is told of an event behind its time and its thing: how long the thing waited or took, its
/// attempt, what else is noted, its duration, why it failed, and what is wrong with it.
#[derive(Drop)]
struct EventTail<'a>(&'a View, &'a ViewedEvent);

impl fmt::Display for EventTail<'_> {
    ghost output = { λ t. Some (texts.tail_text t.0.now t.1.now) };

    #[tactic(auto, unfolding(crate::specs::Texts::tail_text))]
    fn fmt<W: fmt::Write>(&self, f: &mut fmt::Formatter<W>) -> fmt::Result {
        let event = self.1;
        let span = StepSpan(self.0, event);
        let notes = Notes(event);
        let duration = DurationText(event.duration.get());
        let because = Because(event);
        let ending = EndingText(event);
        let mark = LabelText(", ", told_mark(self.0, event));
        write!(f, "{span}{notes}{duration}{because}{ending}{mark}")
    }
}

/// Writes the line of an event.
#[tactic(auto, unfolding(crate::specs::Texts::event_line))]
fn write_line<O: Write>(view: &View, event: &ViewedEvent, writer: &mut O) -> io::Result<()>
    ensures { OnOk result
        (Appends (O.contents writer.old) (O.contents writer.new) (texts.event_line view.now event.now)) }
{
    let start = Start(view, event);
    let name = Excerpt(event.name());
    let subject = Subject(view, event);
    let number = Number(event);
    let moment = LabelText(" ", event.moment.get());
    let link = Link(view, event);
    let tail = EventTail(view, event);
    write!(
        writer,
        "{start}{name}{subject} {number}{moment}{link}{tail}\n"
    )
}

/// Writes the lines of an event: one for the event itself, and one for each of its values.
pub(crate) fn write_event<O: Write>(
    view: &View,
    event: &ViewedEvent,
    writer: &mut O,
) -> io::Result<()>
    ensures { OnOk result
        (Appends (O.contents writer.old) (O.contents writer.new) (texts.event_text view.now event.now)) }
{
    write_line(view, event, writer)?;
    write_values(event.payloads.get(), writer)
}

/// Returns whether an event is written.
fn is_shown(view: &View, span: TaskRange, event: &ViewedEvent) -> bool
    ensures { result ≡ texts.is_shown view.now span event.now }
{
    is_within(view, span, event) && !is_quiet(event)
}

/// Writes the lines of the events that are shown.
fn write_events<O: Write>(view: &View, span: TaskRange, writer: &mut O) -> io::Result<()>
    ensures { OnOk result (Appends (O.contents writer.old) (O.contents writer.new)
        (flat_map (texts.shown_text view.now span) view.now.events)) }
{
    for event in view.events.get() {
        if is_shown(view, span, event) {
            write_event(view, event, writer)?;
        }
    }
    Ok(())
}

/// Returns how many events belong to other tasks.
fn left_out(view: &View, span: TaskRange) -> usize
    ensures { result ≡ texts.left_out view.now span }
{
    view.events
        .get()
        .iter()
        .filter(|event| !is_within(view, span, event))
        .count()
}

/// Returns the workflow type that the first event names; empty if it names none.
pub fn workflow_type(events: &[ViewedEvent]) -> &str
    ensures { result.now ≡ texts.workflow_type (slice_get events.now 0) }
{
    match events.get(0) {
        Some(event) => event.type_name(),
        None => "",
    }
}

/// Writes the line with a workflow type and the counts.
fn write_counts<O: Write>(
    kind: &str,
    events: usize,
    tasks: usize,
    things: usize,
    writer: &mut O,
) -> io::Result<()>
    ensures { OnOk result
        (Appends (O.contents writer.old) (O.contents writer.new) (texts.counts_line kind.now events tasks things)) }
{
    let kind = Excerpt(kind);
    write!(
        writer,
        "{kind}: {events} events, {tasks} tasks completed, {things} things\n"
    )
}

/// Writes the line with the workflow type and the counts of a view.
fn write_head<O: Write>(view: &View, writer: &mut O) -> io::Result<()>
    ensures { OnOk result (Appends (O.contents writer.old) (O.contents writer.new) (texts.head_line view.now)) }
{
    let events = view.events.get();
    write_counts(
        workflow_type(events),
        events.len(),
        completed_count(events),
        view.things.get().len(),
        writer,
    )
}

/// The type of an event, followed by the name of a marker.
#[derive(Drop)]
struct KindName<'a>(&'a ViewedEvent);

impl fmt::Display for KindName<'_> {
    ghost output = { λ k. Some (texts.kind_name k.0.now) };

    fn fmt<W: fmt::Write>(&self, f: &mut fmt::Formatter<W>) -> fmt::Result {
        let name = Excerpt(self.0.name());
        let id = LabelText(" ", marker_name(self.0));
        write!(f, "{name}{id}")
    }
}

/// Writes the line of a kind that is not supported, from its first event.
#[tactic(auto, unfolding(crate::specs::Texts::kind_line))]
fn write_kind_of<O: Write>(count: usize, event: &ViewedEvent, writer: &mut O) -> io::Result<()>
    ensures { OnOk result
        (Appends (O.contents writer.old) (O.contents writer.new) (texts.kind_line count event.now)) }
{
    let name = KindName(event);
    let number = Number(event);
    write!(
        writer,
        "can't be replayed here: {name}, {count} events, first {number}\n"
    )
}

/// Writes the line of a kind that is not supported.
fn write_kind<O: Write>(view: &View, kind: UnsupportedKind, writer: &mut O) -> io::Result<()>
    ensures { OnOk result
        (Appends (O.contents writer.old) (O.contents writer.new) (texts.unsupported_line view.now kind)) }
{
    match view.events.get().get(kind.first) {
        Some(event) => write_kind_of(kind.count, event, writer),
        None => Ok(()),
    }
}

/// Writes a line for each kind that is not supported.
fn write_kinds<O: Write>(view: &View, writer: &mut O) -> io::Result<()>
    ensures { OnOk result (Appends (O.contents writer.old) (O.contents writer.new)
        (flat_map (texts.unsupported_line view.now) view.now.unsupported)) }
{
    for kind in view.unsupported.get() {
        write_kind(view, *kind, writer)?;
    }
    Ok(())
}

/// Writes the first lines: the counts, the names of the run, and whether it is open.
pub(crate) fn write_top<O: Write>(view: &View, writer: &mut O) -> io::Result<()>
    ensures { OnOk result (Appends (O.contents writer.old) (O.contents writer.new) (texts.top_text view.now)) }
{
    write_head(view, writer)?;
    write_run(view, writer)
}

/// Writes how many events are left out, if some are.
fn write_left<O: Write>(left: usize, writer: &mut O) -> io::Result<()>
    ensures { OnOk result (Appends (O.contents writer.old) (O.contents writer.new) (texts.left_line left)) }
{
    if left == 0 {
        return Ok(());
    }
    write!(writer, "{left} events of other tasks are left out\n")
}

/// The last event, by its number or its place, after other words; nothing if there is none.
#[derive(Drop)]
struct LastEvent<'a>(&'a [ViewedEvent]);

impl fmt::Display for LastEvent<'_> {
    ghost output = { λ l. Some (texts.last_text l.0.now) };

    fn fmt<W: fmt::Write>(&self, f: &mut fmt::Formatter<W>) -> fmt::Result {
        match self.0.last() {
            Some(event) => {
                let number = Number(event);
                write!(f, ", the last is {number}")
            }
            None => Ok(()),
        }
    }
}

/// Writes that no event has the number, if none has it.
fn write_none_numbered<O: Write>(view: &View, number: EventNo, writer: &mut O) -> io::Result<()>
    ensures { OnOk result (Appends (O.contents writer.old) (O.contents writer.new)
        (texts.none_numbered number view.now.events)) }
{
    let events = view.events.get();
    if numbered_in(events, number).is_some() {
        return Ok(());
    }
    let number = number.get();
    let last = LastEvent(events);
    write!(writer, "no event {number}{last}\n")
}

/// Writes that the event around which tasks are selected is none of the view, if it is none.
fn write_missing<O: Write>(view: &View, selection: &Selection, writer: &mut O) -> io::Result<()>
    ensures { OnOk result
        (Appends (O.contents writer.old) (O.contents writer.new) (texts.missing_line view.now selection.now)) }
{
    match selection {
        Selection::All | Selection::Last(_) => Ok(()),
        Selection::Around(number) => write_none_numbered(view, *number, writer),
    }
}

/// Writes the lines of the events of some tasks, and how many events are left out.
fn write_tasks<O: Write>(view: &View, span: TaskRange, writer: &mut O) -> io::Result<()>
    ensures { OnOk result
        (Appends (O.contents writer.old) (O.contents writer.new) (texts.tasks_text view.now span)) }
{
    let left = left_out(view, span);
    write_events(view, span, writer)?;
    write_left(left, writer)
}

/// Writes what an open run waits for, and what the things of each type come to.
fn write_state<O: Write>(view: &View, writer: &mut O) -> io::Result<()>
    ensures { OnOk result (Appends (O.contents writer.old) (O.contents writer.new) (texts.state_text view.now)) }
{
    write_waits(view, writer)?;
    write_sums(view, writer)
}

/// Writes the last lines: what can't be replayed, what an open run waits for, and what the things of
/// each type come to.
pub(crate) fn write_bottom<O: Write>(view: &View, writer: &mut O) -> io::Result<()>
    ensures { OnOk result (Appends (O.contents writer.old) (O.contents writer.new) (texts.bottom_text view.now)) }
{
    write_kinds(view, writer)?;
    write_state(view, writer)
}

/// Writes the first lines, and that there is no event of the number that is selected.
fn write_front<O: Write>(view: &View, selection: &Selection, writer: &mut O) -> io::Result<()>
    ensures { OnOk result
        (Appends (O.contents writer.old) (O.contents writer.new) (texts.front_text view.now selection.now)) }
{
    write_top(view, writer)?;
    write_missing(view, selection, writer)
}

/// Writes the lines of some tasks, and the last lines.
fn write_rest<O: Write>(view: &View, span: TaskRange, writer: &mut O) -> io::Result<()>
    ensures { OnOk result
        (Appends (O.contents writer.old) (O.contents writer.new) (texts.rest_text view.now span)) }
{
    write_tasks(view, span, writer)?;
    write_bottom(view, writer)
}

/// Writes the text with some tasks.
#[tactic(auto, unfolding(crate::specs::Texts::span_text))]
pub(crate) fn write_span<O: Write>(
    view: &View,
    selection: &Selection,
    span: TaskRange,
    writer: &mut O,
) -> io::Result<()>
    ensures { OnOk result
        (Appends (O.contents writer.old) (O.contents writer.new) (texts.span_text view.now selection.now span)) }
{
    write_front(view, selection, writer)?;
    write_rest(view, span, writer)
}
