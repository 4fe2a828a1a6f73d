//! A run as JSON: its names, whether it is open, and what it waits for.

ghost use Rattle.std.specs.Prelude.{◌≡◌, OnOk, Some, slice_get};
ghost use Rattle.std.specs.List.{flat_map};
ghost use Rattle.std.specs.Io.KnownBytes.{Appends};
ghost use Rattle.wh_view_json.specs.Run as json;

use crate::parts::{PlaceMember, kind_word, place_at};
use crate::texts::{SecondsMember, TextMember, UntilMember};
use std::io::Write;
use std::{fmt, io};
use wh_view::{OpenTask, RunNames, RunStatus, View, ViewedEvent, ViewedThing};
use wh_view_report::{run_span, status_word};

/// The names of a run, as further members of an object.
#[derive(Drop)]
struct NameMembers<'a>(&'a RunNames);

impl fmt::Display for NameMembers<'_> {
    ghost output = { λ n. Some (json.name_members n.0.now) };

    fn fmt<W: fmt::Write>(&self, f: &mut fmt::Formatter<W>) -> fmt::Result {
        let names = self.0;
        let workflow_id = TextMember("workflowId", names.workflow_id.get());
        let run_id = TextMember("runId", names.run_id.get());
        let task_queue = TextMember("taskQueue", names.task_queue.get());
        let parent = TextMember("parentWorkflowId", names.parent_workflow_id.get());
        let parent_run = TextMember("parentRunId", names.parent_run_id.get());
        let previous = TextMember("previousRunId", names.previous_run_id.get());
        write!(
            f,
            "{workflow_id}{run_id}{task_queue}{parent}{parent_run}{previous}"
        )
    }
}

/// The end of a run, as further members of an object; nothing if it is open.
#[derive(Drop)]
struct ClosingMembers<'a>(&'a View);

impl fmt::Display for ClosingMembers<'_> {
    ghost output = { λ c. Some (json.closing_members c.0.now) };

    fn fmt<W: fmt::Write>(&self, f: &mut fmt::Formatter<W>) -> fmt::Result {
        match self.0.closing_event() {
            Some(event) => {
                let place = event.place;
                let span = SecondsMember("seconds", run_span(self.0));
                let next = TextMember("nextRunId", event.details.ending.next_run_id.get());
                write!(f, ",\"closed\":{place}{span}{next}")
            }
            None => Ok(()),
        }
    }
}

/// A run, as a further member of an object.
#[derive(Drop)]
pub(crate) struct RunMember<'a>(pub(crate) &'a View);

impl fmt::Display for RunMember<'_> {
    ghost output = { λ r. Some (json.run_member r.0.now) };

    #[tactic(auto, unfolding(crate::specs::Run::run_member))]
    fn fmt<W: fmt::Write>(&self, f: &mut fmt::Formatter<W>) -> fmt::Result {
        let status = status_word(self.0.status());
        let names = NameMembers(&self.0.run);
        let closing = ClosingMembers(self.0);
        write!(f, ",\"run\":{{\"status\":\"{status}\"{names}{closing}}}")
    }
}

/// Writes the object of a thing for which a run waits, and which an event opened.
#[tactic(auto, unfolding(crate::specs::Run::open_object))]
fn write_open_thing<O: Write>(
    view: &View,
    thing: &ViewedThing,
    event: &ViewedEvent,
    writer: &mut O,
) -> io::Result<()>
    ensures { OnOk result
        (Appends (O.contents writer.old) (O.contents writer.new) (json.open_object view.now thing.now event.now)) }
{
    let kind = kind_word(thing.kind);
    let id = TextMember("id", event.id());
    let name = TextMember("type", event.type_name());
    let place = event.place;
    let started = PlaceMember("started", place_at(view, thing.started));
    let since = TextMember("since", event.moment.get());
    let until = UntilMember(view.due_time(thing));
    write!(
        writer,
        "{{\"waits\":\"{kind}\"{id}{name},\"opened\":{place}{started}{since}{until}}}\n"
    )
}

/// Writes the object of a thing for which a run waits, if it has not ended.
fn write_thing<O: Write>(view: &View, thing: &ViewedThing, writer: &mut O) -> io::Result<()>
    ensures { OnOk result
        (Appends (O.contents writer.old) (O.contents writer.new) (json.thing_object view.now thing.now)) }
{
    if thing.ended.is_some() {
        return Ok(());
    }
    match view.events.get().get(thing.opened) {
        Some(event) => write_open_thing(view, thing, event, writer),
        None => Ok(()),
    }
}

/// Writes the objects of the things for which a run waits.
fn write_things<O: Write>(view: &View, writer: &mut O) -> io::Result<()>
    ensures { OnOk result (Appends (O.contents writer.old) (O.contents writer.new)
        (flat_map (json.thing_object view.now) view.now.things)) }
{
    for thing in view.things.get() {
        write_thing(view, thing, writer)?;
    }
    Ok(())
}

/// The members of a workflow task that say of its last attempt that a worker has started it, or
/// that it failed or timed out.
#[derive(Drop)]
struct AttemptMembers<'a>(&'a View, OpenTask);

impl fmt::Display for AttemptMembers<'_> {
    ghost output = { λ a. Some (json.attempt_members a.0.now a.1) };

    fn fmt<W: fmt::Write>(&self, f: &mut fmt::Formatter<W>) -> fmt::Result {
        let started = PlaceMember("started", place_at(self.0, self.1.started));
        let failed = PlaceMember("failed", place_at(self.0, self.1.failed));
        write!(f, "{started}{failed}")
    }
}

/// Writes the object of a workflow task for which a run waits.
fn write_open_task<O: Write>(view: &View, task: OpenTask, writer: &mut O) -> io::Result<()>
    ensures { OnOk result
        (Appends (O.contents writer.old) (O.contents writer.new) (json.task_object view.now task)) }
{
    let Some(event) = view.events.get().get(task.scheduled) else {
        return Ok(());
    };
    let place = event.place;
    let attempts = AttemptMembers(view, task);
    let since = TextMember("since", event.moment.get());
    write!(
        writer,
        "{{\"waits\":\"workflowTask\",\"opened\":{place}{attempts}{since}}}\n"
    )
}

/// Writes the object of the workflow task for which a run waits, if there is one.
fn write_task<O: Write>(view: &View, writer: &mut O) -> io::Result<()>
    ensures { OnOk result
        (Appends (O.contents writer.old) (O.contents writer.new) (json.task_objects view.now)) }
{
    match view.open_task() {
        Some(task) => write_open_task(view, task, writer),
        None => Ok(()),
    }
}

/// Writes the objects of an open run.
fn write_open<O: Write>(view: &View, writer: &mut O) -> io::Result<()>
    ensures { OnOk result (Appends (O.contents writer.old) (O.contents writer.new) (json.open_objects view.now)) }
{
    write_things(view, writer)?;
    write_task(view, writer)
}

/// Writes an object for each thing and for the workflow task for which a run waits, if it is open.
#[tactic(auto, unfolding(crate::specs::Run::wait_objects))]
pub(crate) fn write_waits<O: Write>(view: &View, writer: &mut O) -> io::Result<()>
    ensures { OnOk result (Appends (O.contents writer.old) (O.contents writer.new) (json.wait_objects view.now)) }
{
    match view.status() {
        RunStatus::Running => write_open(view, writer),
        _ => Ok(()),
    }
}
