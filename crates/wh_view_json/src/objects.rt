//! Writes a view as lines of JSON.

ghost use Rattle.std.specs.Prelude.{◌≡◌, OnOk, Some, option_map};
ghost use Rattle.std.specs.List.{flat_map};
ghost use Rattle.std.specs.Io.KnownBytes.{Appends};
ghost use Rattle.wh_view_json.specs.Objects as json;

use crate::markers::DetailMembers;
use crate::parts::{PlaceMember, kind_word, place_at};
use crate::run::{RunMember, write_waits};
use crate::sums::write_sums;
use crate::texts::SecondsMember;
use std::io::Write;
use std::{fmt, io};
use wh_console::Selection;
use wh_events::EventNo;
use wh_tester::EscapedName;
use wh_view::{EventUse, UnsupportedKind, View, ViewedEvent};
use wh_view_report::{
    TaskRange, completed_count, is_within, mark_of, marker_name, span_of, time_taken,
};

/// The number of an event, as a further member of an object.
#[derive(Clone, Copy)]
struct NumberMember(Option<EventNo>);

impl fmt::Display for NumberMember {
    ghost output = { λ n. Some (json.number_member n.0) };

    fn fmt<W: fmt::Write>(&self, f: &mut fmt::Formatter<W>) -> fmt::Result {
        match self.0 {
            Some(number) => {
                let number = number.get();
                write!(f, ",\"event\":{number}")
            }
            None => Ok(()),
        }
    }
}

/// Returns how an event concerns the worker, in a word.
fn side_of(event: &ViewedEvent) -> &'static str
    ensures { result.now ≡ json.side_of event.now }
{
    match event.word() {
        EventUse::Completes => "completes",
        EventUse::Gives => "gives",
        EventUse::Told => "told",
        EventUse::Other => "other",
    }
}

/// The thing of an event, as a further member of an object.
#[derive(Drop)]
struct ThingMember<'a>(&'a View, &'a ViewedEvent);

impl fmt::Display for ThingMember<'_> {
    ghost output = { λ t. Some (json.linked_member t.0.now t.1.now) };

    fn fmt<W: fmt::Write>(&self, f: &mut fmt::Formatter<W>) -> fmt::Result {
        let Some(thing) = self.0.thing_of(self.1) else {
            return Ok(());
        };
        let kind = kind_word(thing.kind);
        let opened = PlaceMember("opened", place_at(self.0, Some(thing.opened)));
        let started = PlaceMember("started", place_at(self.0, thing.started));
        let cancelling = PlaceMember("cancelling", place_at(self.0, thing.cancelling));
        let ended = PlaceMember("ended", place_at(self.0, thing.ended));
        let waited = SecondsMember("waited", self.0.queue_time(&thing));
        let taken = SecondsMember("took", time_taken(self.0, &thing));
        write!(
            f,
            ",\"thing\":{{\"kind\":\"{kind}\"{opened}{started}{cancelling}{ended}{waited}{taken}}}"
        )
    }
}

/// What is wrong with an event, as a further member of an object.
#[derive(Clone, Copy)]
struct MarkMember(&'static str);

impl fmt::Display for MarkMember {
    ghost output = { λ m. Some (json.mark_member m.0.now) };

    fn fmt<W: fmt::Write>(&self, f: &mut fmt::Formatter<W>) -> fmt::Result {
        let mark = self.0;
        if mark.is_empty() {
            return Ok(());
        }
        write!(f, ",\"mark\":\"{mark}\"")
    }
}

/// The first members of an event.
#[derive(Clone, Copy)]
struct FirstMembers {
    place: u64,
    number: Option<EventNo>,
    task: usize,
    side: &'static str,
    mark: &'static str,
}

impl fmt::Display for FirstMembers {
    ghost output = { λ m. Some (json.first_members m.place m.number m.task m.side.now m.mark.now) };

    fn fmt<W: fmt::Write>(&self, f: &mut fmt::Formatter<W>) -> fmt::Result {
        let place = self.place;
        let number = NumberMember(self.number);
        let task = self.task;
        let side = self.side;
        let mark = MarkMember(self.mark);
        write!(
            f,
            "\"place\":{place}{number},\"task\":{task},\"is\":\"{side}\"{mark}"
        )
    }
}

/// Writes the object of an event.
#[tactic(auto, unfolding(crate::specs::Objects::event_object))]
fn write_event<O: Write>(view: &View, event: &ViewedEvent, writer: &mut O) -> io::Result<()>
    ensures { OnOk result
        (Appends (O.contents writer.old) (O.contents writer.new) (json.event_object view.now event.now)) }
{
    let first = FirstMembers {
        place: event.place,
        number: event.read.number,
        task: view.task_of(event),
        side: side_of(event),
        mark: mark_of(view, event),
    };
    let thing = ThingMember(view, event);
    let details = DetailMembers(event);
    let recorded = event.json.get();
    write!(
        writer,
        "{{{first}{thing}{details},\"recorded\":{recorded}}}\n"
    )
}

/// Writes the objects of the events of some tasks.
fn write_events<O: Write>(view: &View, span: TaskRange, writer: &mut O) -> io::Result<()>
    ensures { OnOk result (Appends (O.contents writer.old) (O.contents writer.new)
        (flat_map (json.within_object view.now span) view.now.events)) }
{
    for event in view.events.get() {
        if is_within(view, span, event) {
            write_event(view, event, writer)?;
        }
    }
    Ok(())
}

/// Writes the object with the counts and the run.
fn write_counts<O: Write>(
    view: &View,
    events: usize,
    tasks: usize,
    things: usize,
    writer: &mut O,
) -> io::Result<()>
    ensures { OnOk result
        (Appends (O.contents writer.old) (O.contents writer.new) (json.counts_object view.now events tasks things)) }
{
    let run = RunMember(view);
    write!(
        writer,
        "{{\"events\":{events},\"tasks\":{tasks},\"things\":{things}{run}}}\n"
    )
}

/// Writes the object with the counts and the run of a view.
fn write_head<O: Write>(view: &View, writer: &mut O) -> io::Result<()>
    ensures { OnOk result (Appends (O.contents writer.old) (O.contents writer.new) (json.head_object view.now)) }
{
    let events = view.events.get();
    write_counts(
        view,
        events.len(),
        completed_count(events),
        view.things.get().len(),
        writer,
    )
}

/// The name of a marker, as a further member of an object.
#[derive(Drop)]
struct MarkerMember<'a>(&'a str);

impl fmt::Display for MarkerMember<'_> {
    ghost output = { λ m. Some (json.marker_member m.0.now) };

    fn fmt<W: fmt::Write>(&self, f: &mut fmt::Formatter<W>) -> fmt::Result {
        if self.0.is_empty() {
            return Ok(());
        }
        let name = EscapedName(self.0);
        write!(f, ",\"marker\":\"{name}\"")
    }
}

/// Writes the object of a kind that is not supported, from its first event.
#[tactic(auto, unfolding(crate::specs::Objects::kind_object))]
fn write_kind_of<O: Write>(
    view: &View,
    count: usize,
    event: &ViewedEvent,
    writer: &mut O,
) -> io::Result<()>
    ensures { OnOk result
        (Appends (O.contents writer.old) (O.contents writer.new) (json.kind_object view.now count event.now)) }
{
    let mark = mark_of(view, event);
    let name = EscapedName(event.read.name.get());
    let marker = MarkerMember(marker_name(event));
    let place = event.place;
    write!(
        writer,
        "{{\"mark\":\"{mark}\",\"type\":\"{name}\"{marker},\"events\":{count},\"place\":{place}}}\n"
    )
}

/// Writes the object of a kind that is not supported.
fn write_kind<O: Write>(view: &View, kind: UnsupportedKind, writer: &mut O) -> io::Result<()>
    ensures { OnOk result
        (Appends (O.contents writer.old) (O.contents writer.new) (json.unsupported_object view.now kind)) }
{
    match view.events.get().get(kind.first) {
        Some(event) => write_kind_of(view, kind.count, event, writer),
        None => Ok(()),
    }
}

/// Writes an object for each kind that is not supported.
fn write_kinds<O: Write>(view: &View, writer: &mut O) -> io::Result<()>
    ensures { OnOk result (Appends (O.contents writer.old) (O.contents writer.new)
        (flat_map (json.unsupported_object view.now) view.now.unsupported)) }
{
    for kind in view.unsupported.get() {
        write_kind(view, *kind, writer)?;
    }
    Ok(())
}

/// Writes the first objects: the counts, and what is not supported.
fn write_top<O: Write>(view: &View, writer: &mut O) -> io::Result<()>
    ensures { OnOk result (Appends (O.contents writer.old) (O.contents writer.new) (json.top_objects view.now)) }
{
    write_head(view, writer)?;
    write_kinds(view, writer)
}

/// Writes the objects of what an open run waits for, and of the types of its things.
fn write_state<O: Write>(view: &View, writer: &mut O) -> io::Result<()>
    ensures { OnOk result (Appends (O.contents writer.old) (O.contents writer.new) (json.state_objects view.now)) }
{
    write_waits(view, writer)?;
    write_sums(view, writer)
}

/// Writes the objects of the events of some tasks, and those of the whole run at the end.
fn write_rest<O: Write>(view: &View, span: TaskRange, writer: &mut O) -> io::Result<()>
    ensures { OnOk result
        (Appends (O.contents writer.old) (O.contents writer.new) (json.rest_objects view.now span)) }
{
    write_events(view, span, writer)?;
    write_state(view, writer)
}

/// Writes the objects of some tasks.
#[tactic(auto, unfolding(crate::specs::Objects::span_objects))]
fn write_span<O: Write>(view: &View, span: TaskRange, writer: &mut O) -> io::Result<()>
    ensures { OnOk result
        (Appends (O.contents writer.old) (O.contents writer.new) (json.span_objects view.now span)) }
{
    write_top(view, writer)?;
    write_rest(view, span, writer)
}

/// Writes a view as lines of JSON (RFC 8259): one object a line, with no spaces between its parts,
/// and one line feed after it. First come the counts of the whole history and its run,
/// `{"events":N,"tasks":N,"things":N,"run":{"status":"..",..}}`; `tasks` counts those that were
/// completed. `status` is `Running`, `Completed`, `Failed`, `Canceled`, `Terminated`, `TimedOut` or
/// `ContinuedAsNew`. Further members of the run are `workflowId`, `runId`, `taskQueue`,
/// `parentWorkflowId`, `parentRunId` and `previousRunId`, as far as its first event tells them, and
/// of a run that is closed `closed`, the place of the event that closes it, `seconds`, which it
/// took, and `nextRunId`, the run in which it goes on. Then each type
/// that the reader of histories does not support has an object,
/// `{"mark":"not supported","type":"NAME","events":N,"place":P}`, with the number of its events and
/// the place of the first. A name of markers that is not supported has the mark
/// `marker not supported`, and a member `marker` after the type. Then each event of the selected
/// tasks has an object, in the order of the history, with these members:
/// - `place`, counted from 1, and `event`, its number, if it has one;
/// - `task`, to which it belongs, and `is`: `told`, `completes`, `gives` or `other`;
/// - `mark`, what is wrong with it;
/// - `thing`, if it has one: its `kind`, the places of the events that `opened`, `started`,
///   canceled (`cancelling`) and `ended` it, and in seconds how long it `waited` from its opening to
///   its start, and `took` from there to its end;
/// - `marker`, of a marker of an SDK what it records: its `kind` (`localActivity`, `sideEffect`,
///   `mutableSideEffect`, `version` or `patch`), its `name`, the `attempt` of a local activity, the
///   `version` of a change, and `deprecated` if a patch is;
/// - `childRunId`, the run id of a child that has started;
/// - `recorded`, the whole event as the history has it.
///
/// If the run is open, each thing for which it waits has an object at the end, with its kind as
/// `waits`, its `id` and `type`, the places of the events that `opened` and `started` it, `since`
/// when it is open, and `until` when a timer is due. A workflow task that is not completed has the
/// last one of these, with the kind `workflowTask`.
///
/// Then each type of its activities and child workflows has an object, and its timers have one, in
/// the order of the first of each, with the kind as `sum`, the `type`, how many `times` there was
/// such a thing, how many `failed` and are `open`, and in seconds the `median` and the `longest` of
/// their times from opening to end, with the place of the event that opened that one
/// (`longestOpened`). These too are of the whole run, whichever tasks are selected.
///
/// After an error some of the lines may have been written.
pub fn write_json_view<O: Write>(
    view: &View,
    selection: Selection,
    writer: &mut O,
) -> io::Result<()>
    ensures { OnOk result
        (Appends (O.contents writer.old) (O.contents writer.new) (json.view_objects view.now selection)) }
{
    write_span(view, span_of(view, &selection), writer)
}
