//! Looks up parts of a view and of its events.

ghost use Rattle.std.specs.Prelude.{◌≡◌};
ghost use Rattle.wh_view.specs.Lookups.{id_in, type_in};

use crate::parts::{Part, part_of};
use crate::updates::name_of_step;
use crate::view::{View, ViewedEvent, ViewedThing};
use wh_events::EventKind;

/// Returns the id under which an event of the kind opens something, or the name of a signal or a
/// marker.
fn id_in(kind: &EventKind) -> &str
    ensures { result.now ≡ id_in kind.now }
{
    match kind {
        EventKind::ActivityTaskScheduled { id, .. } | EventKind::TimerStarted { id } => id.get(),
        EventKind::StartChildWorkflowExecutionInitiated { workflow_id, .. }
        | EventKind::RequestCancelExternalWorkflowExecutionInitiated { workflow_id }
        | EventKind::SignalExternalWorkflowExecutionInitiated { workflow_id, .. } =>
            workflow_id.get(),
        EventKind::MarkerRecorded { change_id, .. } => change_id.get(),
        EventKind::WorkflowExecutionSignaled { name, .. } => name.get(),
        _ => "",
    }
}

/// Returns the type that an event of the kind names, or the name of the signal that it sends.
fn type_in(kind: &EventKind) -> &str
    ensures { result.now ≡ type_in kind.now }
{
    match kind {
        EventKind::WorkflowExecutionStarted { workflow, .. }
        | EventKind::StartChildWorkflowExecutionInitiated { workflow, .. } => workflow.get(),
        EventKind::ActivityTaskScheduled { activity, .. } => activity.get(),
        EventKind::SignalExternalWorkflowExecutionInitiated { signal, .. } => signal.get(),
        _ => "",
    }
}

impl ViewedEvent {
    ghost use Rattle.std.specs.Prelude.{◌≡◌};
    ghost use Rattle.wh_view.specs.Lookups.{event_id, event_type, event_name, index_of};

    /// Returns the id under which the event opens a thing, the name of a signal or a marker, or the
    /// id of an update; empty if it has none.
    pub fn id(&self) -> &str
        ensures { result.now ≡ event_id self.now }
    {
        match &self.read.kind {
            Some(kind) => id_in(kind),
            None => self.details.update.id.get(),
        }
    }

    /// Returns the workflow type or the activity type that the event names, or the name of the
    /// signal that it sends, or of an update; empty if it has none.
    pub fn type_name(&self) -> &str
        ensures { result.now ≡ event_type self.now }
    {
        match &self.read.kind {
            Some(kind) => type_in(kind),
            None => self.details.update.name.get(),
        }
    }

    /// Returns the plain name of the event's type, such as `TimerStarted`. If the reader of
    /// histories does not read the type, and it is none of an update, the name that the event gives.
    pub fn name(&self) -> &str
        ensures { result.now ≡ event_name self.now }
    {
        match self.update_step() {
            Some(step) => name_of_step(step),
            None => self.read.name.get(),
        }
    }

    /// Returns the index of the event among those of its view: its place less 1.
    pub fn index(&self) -> usize
        ensures { result ≡ index_of self.now }
    {
        self.place.saturating_sub(1) as usize
    }
}

impl View {
    ghost use Rattle.std.specs.Prelude.{◌≡◌};
    ghost use Rattle.wh_view.specs.Lookups.{thing_of, opening_of, task_of, lacks_thing};

    /// Returns the thing that an event of the view opened, started, canceled or ended.
    pub fn thing_of(&self, event: &ViewedEvent) -> Option<ViewedThing>
        ensures { result ≡ thing_of self.now event.now }
    {
        let link = self.links.get().get(event.index()).copied()?;
        self.things.get().get(link?).copied()
    }

    /// Returns the event that opened the thing of an event; the event itself if it has no thing.
    pub fn opening_of<'v>(&'v self, event: &'v ViewedEvent) -> &'v ViewedEvent
        ensures { result.now ≡ opening_of self.now event.now }
    {
        match self.thing_of(event) {
            Some(thing) => self.events.get().get(thing.opened).unwrap_or(event),
            None => event,
        }
    }

    /// Returns the number of the task to which an event of the view belongs, 0 if it is none of its
    /// events.
    pub fn task_of(&self, event: &ViewedEvent) -> usize
        ensures { result ≡ task_of self.now event.now }
    {
        self.tasks.get().get(event.index()).copied().unwrap_or(0)
    }

    /// Returns whether an event of the view refers to a thing that no event before it opened.
    pub fn lacks_thing(&self, event: &ViewedEvent) -> bool
        ensures { result ≡ lacks_thing self.now event.now }
    {
        matches!(part_of(event), Part::Refers { .. }) && self.thing_of(event).is_none()
    }
}
