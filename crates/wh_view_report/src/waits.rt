//! What an open run waits for.

ghost use Rattle.std.specs.Prelude.{◌≡◌, OnOk, Some, is_none};
ghost use Rattle.std.specs.Io.KnownBytes.{Appends};
ghost use Rattle.std.specs.List.{flat_map, list_any};
ghost use Rattle.wh_view_report.specs.Waits as waits;

use crate::cut::LabelText;
use crate::words::Number;
use std::io::Write;
use std::{fmt, io};
use wh_events::EventKind;
use wh_html::Stamp;
use wh_view::{OpenTask, RunStatus, ThingKind, View, ViewedEvent, ViewedThing};

/// Returns the kind of a thing, in a word or two.
pub(crate) fn kind_text(kind: ThingKind) -> &'static str
    ensures { result.now ≡ waits.kind_text kind }
{
    match kind {
        ThingKind::Activity => "activity",
        ThingKind::Timer => "timer",
        ThingKind::Child => "child",
        ThingKind::CancelRequest => "cancel request to",
        ThingKind::SignalRequest => "signal request to",
        ThingKind::Signal => "signal",
        ThingKind::Marker => "marker",
    }
}

/// Returns when something is due, after other words; nothing if that is not known.
#[derive(Clone, Copy)]
struct Until(Option<u64>);

impl fmt::Display for Until {
    ghost output = { λ u. Some (waits.until_text u.0) };

    fn fmt<W: fmt::Write>(&self, f: &mut fmt::Formatter<W>) -> fmt::Result {
        match self.0 {
            Some(millis) => {
                let stamp = Stamp(millis);
                write!(f, " until {stamp}")
            }
            None => Ok(()),
        }
    }
}

/// Whether something has started, and when, by the event of that.
#[derive(Drop)]
struct StartedText<'a>(&'a View, Option<usize>);

impl fmt::Display for StartedText<'_> {
    ghost output = { λ s. Some (waits.started_text s.0.now s.1) };

    fn fmt<W: fmt::Write>(&self, f: &mut fmt::Formatter<W>) -> fmt::Result {
        let Some(index) = self.1 else {
            return write!(f, ", not started");
        };
        match self.0.events.get().get(index) {
            Some(event) => {
                let number = Number(event);
                let moment = LabelText(" ", event.moment.get());
                write!(f, ", started {number}{moment}")
            }
            None => Ok(()),
        }
    }
}

/// What is told of the start of a thing that a run waits for: of a child whether it has started; of
/// an activity that, if it is recorded, since the start of one that may be tried again is recorded
/// with its end; else nothing.
#[derive(Drop)]
struct ThingStart<'a>(&'a View, &'a ViewedThing);

impl fmt::Display for ThingStart<'_> {
    ghost output = { λ t. Some (waits.thing_start t.0.now t.1.now) };

    fn fmt<W: fmt::Write>(&self, f: &mut fmt::Formatter<W>) -> fmt::Result {
        match self.1.kind {
            ThingKind::Activity if self.1.started.is_none() => Ok(()),
            ThingKind::Activity | ThingKind::Child => {
                let started = StartedText(self.0, self.1.started);
                write!(f, "{started}")
            }
            _ => Ok(()),
        }
    }
}

/// A thing for which a run waits, by the event that opened it: its kind, its id and its type, since
/// when it is open, whether it has started, and when it is due.
#[derive(Drop)]
pub struct AwaitedThing<'a>(pub &'a View, pub &'a ViewedThing, pub &'a ViewedEvent);

impl fmt::Display for AwaitedThing<'_> {
    ghost output = { λ o. Some (waits.awaited_thing o.0.now o.1.now o.2.now) };

    #[tactic(auto, unfolding(crate::specs::Waits::awaited_thing))]
    fn fmt<W: fmt::Write>(&self, f: &mut fmt::Formatter<W>) -> fmt::Result {
        let event = self.2;
        let kind = kind_text(self.1.kind);
        let id = LabelText(" ", event.id());
        let name = LabelText(" ", event.type_name());
        let number = Number(event);
        let since = LabelText(" since ", event.moment.get());
        let started = ThingStart(self.0, self.1);
        let until = Until(self.0.due_time(self.1));
        write!(f, "{kind}{id}{name} {number}{since}{started}{until}")
    }
}

/// Writes that a run waits for a thing, if that has not ended.
fn write_thing<O: Write>(view: &View, thing: &ViewedThing, writer: &mut O) -> io::Result<()>
    ensures { OnOk result
        (Appends (O.contents writer.old) (O.contents writer.new) (waits.thing_text view.now thing.now)) }
{
    if thing.ended.is_some() {
        return Ok(());
    }
    match view.events.get().get(thing.opened) {
        Some(event) => {
            let text = AwaitedThing(view, thing, event);
            write!(writer, "; waits for {text}")
        }
        None => Ok(()),
    }
}

/// Writes the things for which a run waits.
fn write_things<O: Write>(view: &View, writer: &mut O) -> io::Result<()>
    ensures { OnOk result (Appends (O.contents writer.old) (O.contents writer.new)
        (flat_map (waits.thing_text view.now) view.now.things)) }
{
    for thing in view.things.get() {
        write_thing(view, thing, writer)?;
    }
    Ok(())
}

/// Returns how an attempt of a workflow task ended, by the kind of the event that says so.
fn end_word(kind: &Option<EventKind>) -> &'static str
    ensures { result.now ≡ waits.end_word kind.now }
{
    match kind {
        Some(EventKind::WorkflowTaskTimedOut) => "timed out",
        _ => "failed",
    }
}

/// That the last attempt of a workflow task failed or timed out, and when, by the event of that.
#[derive(Drop)]
struct FailedText<'a>(&'a View, usize);

impl fmt::Display for FailedText<'_> {
    ghost output = { λ t. Some (waits.failed_text t.0.now t.1) };

    fn fmt<W: fmt::Write>(&self, f: &mut fmt::Formatter<W>) -> fmt::Result {
        match self.0.events.get().get(self.1) {
            Some(event) => {
                let word = end_word(&event.read.kind);
                let number = Number(event);
                let moment = LabelText(" ", event.moment.get());
                write!(f, ", {word} {number}{moment}, tried again")
            }
            None => Ok(()),
        }
    }
}

/// What is told of the attempts of a workflow task that a run waits for: that the last one failed
/// or timed out, or else whether a worker has started it.
#[derive(Drop)]
struct AttemptText<'a>(&'a View, OpenTask);

impl fmt::Display for AttemptText<'_> {
    ghost output = { λ t. Some (waits.attempt_text t.0.now t.1) };

    fn fmt<W: fmt::Write>(&self, f: &mut fmt::Formatter<W>) -> fmt::Result {
        match (self.1.started, self.1.failed) {
            (None, Some(index)) => {
                let failed = FailedText(self.0, index);
                write!(f, "{failed}")
            }
            (started, _) => {
                let started = StartedText(self.0, started);
                write!(f, "{started}")
            }
        }
    }
}

/// The workflow task for which a run waits, by the event that scheduled it: since when, and that
/// its last attempt failed or timed out, or else whether a worker has started it.
#[derive(Drop)]
pub struct AwaitedTask<'a>(pub &'a View, pub OpenTask, pub &'a ViewedEvent);

impl fmt::Display for AwaitedTask<'_> {
    ghost output = { λ a. Some (waits.awaited_task a.0.now a.1 a.2.now) };

    fn fmt<W: fmt::Write>(&self, f: &mut fmt::Formatter<W>) -> fmt::Result {
        let number = Number(self.2);
        let since = LabelText(" since ", self.2.moment.get());
        let attempts = AttemptText(self.0, self.1);
        write!(f, "a workflow task {number}{since}{attempts}")
    }
}

/// That a run waits for a workflow task.
#[derive(Drop)]
struct TaskText<'a>(&'a View, Option<OpenTask>);

impl fmt::Display for TaskText<'_> {
    ghost output = { λ t. Some (waits.task_text t.0.now t.1) };

    fn fmt<W: fmt::Write>(&self, f: &mut fmt::Formatter<W>) -> fmt::Result {
        let Some(task) = self.1 else {
            return Ok(());
        };
        match self.0.events.get().get(task.scheduled) {
            Some(event) => {
                let text = AwaitedTask(self.0, task, event);
                write!(f, "; waits for {text}")
            }
            None => Ok(()),
        }
    }
}

/// Returns whether a thing has not ended.
fn is_open(thing: &ViewedThing) -> bool
    ensures { result ≡ is_none thing.now.ended }
{
    thing.ended.is_none()
}

/// Returns whether one of the things has not ended.
fn has_open(things: &[ViewedThing]) -> bool
    ensures { result ≡ list_any (λ thing. is_none thing.ended) things.now }
{
    things.iter().any(|thing| is_open(thing))
}

/// Returns whether a run waits for something that it started, or for a workflow task.
fn is_waiting(view: &View) -> bool
    ensures { result ≡ waits.is_waiting view.now }
{
    match view.open_task() {
        Some(_) => true,
        None => has_open(view.things.get()),
    }
}

/// Writes the end of the line.
fn write_end<O: Write>(view: &View, writer: &mut O) -> io::Result<()>
    ensures { OnOk result (Appends (O.contents writer.old) (O.contents writer.new) (waits.end_text view.now)) }
{
    if !is_waiting(view) {
        return write!(
            writer,
            "; no activity, timer, child workflow, request or workflow task is open\n"
        );
    }
    let task = TaskText(view, view.open_task());
    write!(writer, "{task}\n")
}

/// Writes what an open run waits for, and the end of the line.
fn write_items<O: Write>(view: &View, writer: &mut O) -> io::Result<()>
    ensures { OnOk result (Appends (O.contents writer.old) (O.contents writer.new) (waits.items_text view.now)) }
{
    write_things(view, writer)?;
    write_end(view, writer)
}

/// Writes the line of a run that is open.
fn write_open<O: Write>(view: &View, writer: &mut O) -> io::Result<()>
    ensures { OnOk result (Appends (O.contents writer.old) (O.contents writer.new) (waits.open_line view.now)) }
{
    write!(writer, "running")?;
    write_items(view, writer)
}

/// Writes what a run waits for, in a line, if it is open.
#[tactic(auto, unfolding(crate::specs::Waits::waits_line))]
pub(crate) fn write_waits<O: Write>(view: &View, writer: &mut O) -> io::Result<()>
    ensures { OnOk result (Appends (O.contents writer.old) (O.contents writer.new) (waits.waits_line view.now)) }
{
    match view.status() {
        RunStatus::Running => write_open(view, writer),
        _ => Ok(()),
    }
}
