//! Tasks that polls return.

ghost use Rattle.std.specs.Prelude.{◌≡◌, []};

use serde_json::Map;
use std::alloc::{AllocError, Global};
use wh_commands::Members;
use wh_events::{Event, EventKind, RunKey, Text};
use wh_slots::TaskName;
use wh_tester::Shown;

/// A task that is not answered yet.
#[derive(Debug, Drop)]
pub(crate) struct OpenTask {
    /// The source's name for it.
    pub(crate) name: TaskName,
    /// Its Task Token.
    pub(crate) token: Text,
    /// When its poll had returned, in microseconds of the connection's clock.
    pub(crate) since: u64,
    /// Its run.
    pub(crate) run: RunKey,
    /// Which attempt of the task this is.
    pub(crate) attempt: u64,
    /// The type of its workflow or activity; empty if it is not known.
    pub(crate) what: Text,
    /// How many events it came with.
    pub(crate) events: usize,
    /// Whether it is replayed from the first event of its run.
    pub(crate) from_first: bool,
    /// The events that it came with, unless they begin with the first one of its run.
    pub(crate) later: Vec<Event>,
    /// The queries that came with it, by their ids.
    pub(crate) queries: Members,
}

/// Returns the type of the workflow of a history that begins with its first event.
pub(crate) fn workflow_type(events: &[Event]) -> Option<&Text> {
    match &events.first()?.body {
        EventKind::WorkflowExecutionStarted { workflow, .. } => Some(workflow),
        _ => None,
    }
}

impl OpenTask {
    /// Returns the task that the poll of an id returned at a time, in microseconds of the
    /// connection's clock. It is the first attempt of the task.
    pub(crate) fn new(alloc: Global, id: u64, since: u64, token: Text, run: RunKey) -> OpenTask
        ensures name { result.name.0 ≡ id }
        ensures since { result.since ≡ since }
        ensures token { result.token ≡ token }
        ensures run { result.run ≡ run }
        ensures later { result.later.items ≡ [] }
    {
        OpenTask {
            name: TaskName(u128::from(id)),
            token,
            since,
            run,
            attempt: 1,
            what: Text::new(String::new(alloc)),
            events: 0,
            from_first: false,
            later: Vec::new(alloc),
            queries: Map::new(alloc),
        }
    }

    /// Returns a text about the task, with its run.
    pub(crate) fn describe(&self, alloc: Global, what: &str) -> Result<String, AllocError> {
        let workflow = Shown(self.run.workflow_id.get());
        let run = Shown(self.run.run_id.get());
        format!(in alloc; "{workflow} {run}: {what}")
    }

    /// Notes the events from which it is replayed: the type of the workflow, if they begin with the
    /// first one of its run.
    pub(crate) fn note_events(&mut self, events: &[Event])
        ensures { self.new ≡ record self.old { what = self.new.what; from_first = self.new.from_first } }
    {
        let Some(name) = workflow_type(events) else {
            return;
        };
        self.from_first = true;
        if let Ok(name) = name.try_copy() {
            self.what = name;
        }
    }
}
