//! The lines of a run: its names, and whether it is open.

ghost use Rattle.std.specs.Prelude.{◌≡◌, OnOk, Some};
ghost use Rattle.std.specs.Io.KnownBytes.{Appends};
ghost use Rattle.wh_view.specs.Runs.{closing_in};
ghost use Rattle.wh_view_report.specs.Run as run;

use crate::cut::{Excerpt, LabelText};
use crate::spans::LabelSpan;
use crate::words::Number;
use std::io::Write;
use std::{fmt, io};
use wh_events::EventKind;
use wh_view::{RunNames, RunStatus, View, ViewedEvent};

/// A name, or that it is not recorded.
#[derive(Drop)]
struct NameText<'a>(&'a str);

impl fmt::Display for NameText<'_> {
    ghost output = { λ r. Some (run.recorded_text r.0.now) };

    fn fmt<W: fmt::Write>(&self, f: &mut fmt::Formatter<W>) -> fmt::Result {
        if self.0.is_empty() {
            return write!(f, "not recorded");
        }
        let text = Excerpt(self.0);
        write!(f, "{text}")
    }
}

/// The parent of a run, by its workflow id, or that it has none.
#[derive(Drop)]
struct Parent<'a>(&'a str);

impl fmt::Display for Parent<'_> {
    ghost output = { λ p. Some (run.parent_text p.0.now) };

    fn fmt<W: fmt::Write>(&self, f: &mut fmt::Formatter<W>) -> fmt::Result {
        if self.0.is_empty() {
            return write!(f, "no parent");
        }
        let text = Excerpt(self.0);
        write!(f, "parent {text}")
    }
}

/// The ids of a run.
#[derive(Drop)]
struct IdsText<'a>(&'a RunNames);

impl fmt::Display for IdsText<'_> {
    ghost output = { λ i. Some (run.ids_text i.0.now) };

    fn fmt<W: fmt::Write>(&self, f: &mut fmt::Formatter<W>) -> fmt::Result {
        let workflow_id = NameText(self.0.workflow_id.get());
        let run_id = NameText(self.0.run_id.get());
        write!(f, "workflow id {workflow_id}, run id {run_id}")
    }
}

/// The Task Queue of a run, its parent, and the run before it.
#[derive(Drop)]
struct OriginText<'a>(&'a RunNames);

impl fmt::Display for OriginText<'_> {
    ghost output = { λ o. Some (run.origin_text o.0.now) };

    fn fmt<W: fmt::Write>(&self, f: &mut fmt::Formatter<W>) -> fmt::Result {
        let task_queue = NameText(self.0.task_queue.get());
        let parent = Parent(self.0.parent_workflow_id.get());
        let previous = LabelText(", goes on from run ", self.0.previous_run_id.get());
        write!(f, ", Task Queue {task_queue}, {parent}{previous}")
    }
}

/// Writes the line with the names of a run.
fn write_names<O: Write>(names: &RunNames, writer: &mut O) -> io::Result<()>
    ensures { OnOk result
        (Appends (O.contents writer.old) (O.contents writer.new) (run.names_line names.now)) }
{
    let ids = IdsText(names);
    let origin = OriginText(names);
    write!(writer, "{ids}{origin}\n")
}

/// Returns the word for whether a run is open, or how it was closed.
pub fn status_word(status: RunStatus) -> &'static str
    ensures { result.now ≡ run.status_word status }
{
    match status {
        RunStatus::Running => "Running",
        RunStatus::Completed => "Completed",
        RunStatus::Failed => "Failed",
        RunStatus::Canceled => "Canceled",
        RunStatus::Terminated => "Terminated",
        RunStatus::TimedOut => "TimedOut",
        RunStatus::ContinuedAsNew => "ContinuedAsNew",
    }
}

/// Returns whether a list of events begins with the one that starts the run.
fn has_start(events: &[ViewedEvent]) -> bool
    ensures { result ≡ run.has_start events.now }
{
    match events.first() {
        Some(event) => matches!(
            event.read.kind,
            Some(EventKind::WorkflowExecutionStarted { .. })
        ),
        None => false,
    }
}

/// Returns how long a run took, in milliseconds, from its first event to the one that closes it.
/// `None` if it is open, a time is not known, or the history does not begin with the start of the
/// run.
pub fn run_span(view: &View) -> Option<u64>
    ensures { result ≡ run.run_span view.now }
{
    if !has_start(view.events.get()) {
        return None;
    }
    let closing = view.closing_event()?;
    view.span_between(Some(0), Some(closing.index()))
}

/// The event that closes a run, and how long the run took; nothing if it is open.
#[derive(Drop)]
struct ClosingText<'a>(&'a View);

impl fmt::Display for ClosingText<'_> {
    ghost output = { λ c. Some (run.closing_text c.0.now (closing_in c.0.now.events)) };

    fn fmt<W: fmt::Write>(&self, f: &mut fmt::Formatter<W>) -> fmt::Result {
        match self.0.closing_event() {
            Some(event) => {
                let number = Number(event);
                let moment = LabelText(" ", event.moment.get());
                let span = LabelSpan(", after ", run_span(self.0));
                let next = LabelText(", goes on in run ", event.details.ending.next_run_id.get());
                write!(f, " {number}{moment}{span}{next}")
            }
            None => Ok(()),
        }
    }
}

/// Writes the line that says whether a run is open, or how it was closed.
fn write_status<O: Write>(view: &View, writer: &mut O) -> io::Result<()>
    ensures { OnOk result
        (Appends (O.contents writer.old) (O.contents writer.new) (run.status_line view.now)) }
{
    let status = status_word(view.status());
    let closing = ClosingText(view);
    write!(writer, "{status}{closing}\n")
}

/// Writes the lines of a run: its names, and whether it is open.
#[tactic(auto, unfolding(crate::specs::Run::run_lines))]
pub(crate) fn write_run<O: Write>(view: &View, writer: &mut O) -> io::Result<()>
    ensures { OnOk result (Appends (O.contents writer.old) (O.contents writer.new) (run.run_lines view.now)) }
{
    write_names(&view.run, writer)?;
    write_status(view, writer)
}
