//! How an event changes the things of its history.

ghost use Rattle.std.specs.Prelude.{◌≡◌};
ghost use Rattle.wh_view.specs.Parts.{kind_of_thing, plain_part, part_of, rank, same_kind};
ghost use Rattle.wh_view.specs.Parts.{is_answer, word_if};

use crate::updates::step_named;
use crate::view::{ThingKind, UpdateStep, ViewedEvent};
use wh_events::{Class, Effect, EventKind, Role, Thing};

/// How an event changes the things of its history.
#[derive(Clone, Copy, Debug)]
pub enum Part {
    /// It opens a thing.
    Opens {
        /// What it opens.
        kind: ThingKind,
    },
    /// It is a thing of its own, which it both opens and ends.
    Happens {
        /// What it is.
        kind: ThingKind,
    },
    /// It refers to a thing by the number of the event that opened it.
    Refers {
        /// The kind of thing to which it refers.
        kind: ThingKind,
        /// The number of the event that opened it, 0 if the reference is absent or no number.
        number: u64,
        /// What it does to the thing.
        effect: Effect,
    },
    /// It is none of these.
    Other,
}

/// How an event concerns the workflow and its worker.
#[derive(Clone, Copy)]
pub enum EventUse {
    /// It becomes an activation job of the next task (`told` in reports).
    Told,
    /// It records what the workflow did in its task (`gives` in reports).
    Gives,
    /// It completes a workflow task.
    Completes,
    /// None of these.
    Other,
}

/// Returns the kind of thing that is opened under an id.
fn kind_of_thing(thing: Thing) -> ThingKind
    ensures { result ≡ kind_of_thing thing }
{
    match thing {
        Thing::Activity => ThingKind::Activity,
        Thing::Timer => ThingKind::Timer,
        Thing::Child => ThingKind::Child,
        Thing::CancelRequest => ThingKind::CancelRequest,
        Thing::SignalRequest => ThingKind::SignalRequest,
    }
}

/// Returns the part of an event that opens nothing and refers to nothing.
fn plain_part(kind: &EventKind) -> Part
    ensures { result ≡ plain_part kind.now }
{
    match kind {
        EventKind::WorkflowExecutionSignaled { .. } => Part::Happens {
            kind: ThingKind::Signal,
        },
        EventKind::MarkerRecorded { .. } => Part::Happens {
            kind: ThingKind::Marker,
        },
        _ => Part::Other,
    }
}

/// Returns the part of an event.
pub(crate) fn part_of(event: &ViewedEvent) -> Part
    ensures { result ≡ part_of event.now.read.kind }
{
    let Some(kind) = &event.read.kind else {
        return Part::Other;
    };
    match kind.role() {
        Role::Opens { thing, id: _ } => Part::Opens {
            kind: kind_of_thing(thing),
        },
        Role::Refers {
            thing,
            number,
            effect,
        } => Part::Refers {
            kind: kind_of_thing(thing),
            number,
            effect,
        },
        Role::CancelsChild { workflow_id: _ } => Part::Opens {
            kind: ThingKind::CancelRequest,
        },
        Role::Plain => plain_part(kind),
    }
}

/// Returns whether a worker takes the step.
fn is_answer(step: Option<UpdateStep>) -> bool
    ensures { result ≡ is_answer step }
{
    matches!(
        step,
        Some(UpdateStep::Accepted | UpdateStep::Rejected | UpdateStep::Completed)
    )
}

impl ViewedEvent {
    ghost use Rattle.std.specs.Prelude.{◌≡◌};
    ghost use Rattle.wh_view.specs.Parts.{step_of, is_given, is_commanded, completes_task};

    /// Returns the step of an update that the event tells of; `None` if it is no event of an
    /// update.
    pub fn update_step(&self) -> Option<UpdateStep>
        ensures { result ≡ step_of self.now }
    {
        step_named(self.read.name.get())
    }

    /// Returns whether the event says itself that the workflow gave it: it names the task in which
    /// it did, or is a step of an update that a worker takes.
    #[tactic(auto, unfolding(crate::specs::Parts::is_given))]
    fn is_given(&self) -> bool
        ensures { result ≡ is_given self.now }
    {
        self.details.task_event != 0 || is_answer(self.update_step())
    }

    /// Returns whether the event records what the workflow did in a task: a command, a marker,
    /// search attributes or a memo that it changed, an update that it accepted, rejected or
    /// completed, or what else names the task in which the workflow gave it, unless it is an
    /// outcome of that, such as a child that could not be started.
    #[tactic(auto, unfolding(crate::specs::Parts::is_commanded))]
    pub fn is_commanded(&self) -> bool
        ensures { result ≡ is_commanded self.now }
    {
        let Some(kind) = &self.read.kind else {
            return self.is_given();
        };
        match kind.class() {
            Class::Commanded => true,
            Class::Inert => self.is_given(),
            Class::Start | Class::Task | Class::Outside | Class::Close => false,
        }
    }

    /// Returns whether the event completes a workflow task.
    #[tactic(auto, unfolding(crate::specs::Parts::completes_task))]
    pub fn completes_task(&self) -> bool
        ensures { result ≡ completes_task self.now }
    {
        matches!(&self.read.kind, Some(EventKind::WorkflowTaskCompleted))
    }
}

/// Returns how an event concerns the workflow if only its attributes and its name tell that.
fn word_if(given: bool, step: Option<UpdateStep>) -> EventUse
    ensures { result ≡ word_if given step }
{
    if given {
        return EventUse::Gives;
    }
    match step {
        Some(UpdateStep::Admitted) => EventUse::Told,
        _ => EventUse::Other,
    }
}

impl ViewedEvent {
    ghost use Rattle.std.specs.Prelude.{◌≡◌};
    ghost use Rattle.wh_view.specs.Parts.{class_word, is_given, step_of, word_if, word_of, word_of_kind};

    /// Returns how the event concerns its workflow if its kind does not say.
    fn word_by_name(&self) -> EventUse
        ensures { result ≡ word_if (is_given self.now) (step_of self.now) }
    {
        word_if(self.is_given(), self.update_step())
    }

    /// Returns how the event concerns its workflow as one of the class, the completion of a task
    /// aside.
    fn word_in(&self, class: Class) -> EventUse
        ensures { result ≡ class_word class (word_if (is_given self.now) (step_of self.now)) }
    {
        match class {
            Class::Start | Class::Outside => EventUse::Told,
            Class::Commanded => EventUse::Gives,
            Class::Inert => self.word_by_name(),
            Class::Task | Class::Close => EventUse::Other,
        }
    }

    /// Returns how the event concerns its workflow as one of the kind.
    fn word_as(&self, kind: &EventKind) -> EventUse
        ensures { result ≡ word_of_kind kind.now (word_if (is_given self.now) (step_of self.now)) }
    {
        match kind {
            EventKind::WorkflowTaskCompleted => EventUse::Completes,
            EventKind::ActivityTaskStarted { .. } => EventUse::Other,
            _ => self.word_in(kind.class()),
        }
    }

    /// Returns how the event concerns its workflow. `Told` are the events that become an activation
    /// job of the next task, such as the start of the run, a signal, an update that was admitted,
    /// and what happened to an activity, a timer, a child workflow or a request, but not the start
    /// of an activity by a worker.
    #[tactic(auto, unfolding(crate::specs::Parts::word_of))]
    pub fn word(&self) -> EventUse
        ensures { result ≡ word_of self.now }
    {
        match &self.read.kind {
            Some(kind) => self.word_as(kind),
            None => self.word_by_name(),
        }
    }
}

/// Returns a number for each kind.
fn rank(kind: ThingKind) -> u8
    ensures { result ≡ rank kind }
{
    match kind {
        ThingKind::Activity => 0,
        ThingKind::Timer => 1,
        ThingKind::Child => 2,
        ThingKind::CancelRequest => 3,
        ThingKind::SignalRequest => 4,
        ThingKind::Signal => 5,
        ThingKind::Marker => 6,
    }
}

/// Returns whether two kinds are the same.
pub(crate) fn same_kind(one: ThingKind, other: ThingKind) -> bool
    ensures { result ≡ same_kind one other }
{
    rank(one) == rank(other)
}
