//! What is explained of a workflow task: the jobs that the workflow was given, the commands that it
//! gave, and the recorded events beside them.
#![tactic(auto)]

use std::marker::Model;
use wh_events::{EventKind, EventNo, Items, OutOfMemory, Text};
use wh_workflow::{Command, Job};

/// One step of an activation: a job, and the commands that the workflow gave at it. If one of them
/// is invalid, the step has the commands up to and with that one. Contracts see it as a step of the
/// activation's script.
#[derive(Drop)]
pub struct Step {
    job: Job,
    commands: Vec<Command>,
}

impl Model for Step {
    ghost use Rattle.wh_workflow.specs.ActivationScripts.{Step as ScriptStep};

    ghost Value = { ScriptStep };

    ghost view = { λ s. record { job = s.job; commands = s.commands.items } };
}

impl Step {
    ghost use Rattle.std.specs.Prelude.{◌≡◌};

    /// Returns the step of a job and the commands given at it.
    pub fn new(job: Job, commands: Vec<Command>) -> Self
        ensures { result ≡ record { job = job; commands = commands.items } }
    {
        Step { job, commands }
    }

    /// Returns the job that the workflow was given.
    pub fn job(&self) -> &Job
        ensures { result.now ≡ self.now.job }
    {
        &self.job
    }

    /// Returns the commands that the workflow gave.
    pub fn commands(&self) -> &[Command]
        ensures { result.now ≡ self.now.commands }
    {
        self.commands.as_slice()
    }
}

/// A recorded event, with what is shown of it.
#[derive(Drop)]
pub struct RecordedEvent {
    /// Its number.
    pub number: EventNo,
    /// What happened.
    pub kind: EventKind,
    /// The id of what it refers to by a number, or nothing if it refers to nothing so.
    pub id: Text,
}

/// A command that is sent and the recorded event in its place.
#[derive(Drop)]
pub enum Pairing {
    /// The event matches the command.
    Alike {
        /// The command that is sent.
        command: Command,
        /// The recorded event.
        event: RecordedEvent,
    },
    /// The event doesn't match the command.
    Different {
        /// The command that is sent.
        command: Command,
        /// The recorded event.
        event: RecordedEvent,
    },
    /// No command is left for the event.
    CommandMissing {
        /// The recorded event.
        event: RecordedEvent,
    },
    /// No event is left for the command.
    CommandExtra {
        /// The command that is sent.
        command: Command,
    },
}

impl RecordedEvent {
    ghost use Rattle.std.specs.Prelude.{◌≡◌, IfOk};

    /// Returns an equal event, or `OutOfMemory` if there was no memory for the copy.
    fn try_copy(&self) -> Result<RecordedEvent, OutOfMemory>
        ensures { IfOk result (λ copy. copy ≡ self.now) }
    {
        let id = self.id.try_copy()?;
        Ok(RecordedEvent {
            number: self.number,
            kind: self.kind.try_copy()?,
            id,
        })
    }
}

impl Pairing {
    ghost use Rattle.std.specs.Prelude.{◌≡◌, if◌then◌else◌, IfOk};
    ghost use Rattle.wh_explained_tasks.specs.declared.Pairing.TheVariants.{Alike, Different, CommandMissing, CommandExtra};

    /// Pairs a command with the event in its place, which matches the command or not.
    pub fn of(alike: bool, command: Command, event: RecordedEvent) -> Pairing
        ensures { result ≡ if alike then Alike command event else Different command event }
    {
        if alike {
            Pairing::Alike { command, event }
        } else {
            Pairing::Different { command, event }
        }
    }

    /// Pairs a copy of a command with no event, or returns `OutOfMemory` if there was no memory for
    /// the copy.
    pub fn of_command(command: &Command) -> Result<Pairing, OutOfMemory>
        ensures { IfOk result (λ pairing. pairing ≡ CommandExtra command.now) }
    {
        Ok(Pairing::CommandExtra {
            command: command.try_copy()?,
        })
    }

    /// Pairs no command with a copy of an event.
    fn of_event(event: &RecordedEvent) -> Result<Pairing, OutOfMemory>
        ensures { IfOk result (λ pairing. pairing ≡ CommandMissing event.now) }
    {
        Ok(Pairing::CommandMissing {
            event: event.try_copy()?,
        })
    }

    /// Pairs copies of a command and of the event in its place, which matches the command or not.
    fn of_both(
        alike: bool,
        command: &Command,
        event: &RecordedEvent,
    ) -> Result<Pairing, OutOfMemory>
        ensures { IfOk result (λ pairing.
            pairing ≡ if alike then Alike command.now event.now else Different command.now event.now) }
    {
        let event = event.try_copy()?;
        match command.try_copy() {
            Ok(command) => Ok(Pairing::of(alike, command, event)),
            Err(full) => {
                drop(event);
                Err(full)
            }
        }
    }

    /// Returns an equal pairing, or `OutOfMemory` if there was no memory for the copy.
    pub fn try_copy(&self) -> Result<Pairing, OutOfMemory>
        ensures { IfOk result (λ copy. copy ≡ self.now) }
    {
        match self {
            Pairing::Alike { command, event } => Pairing::of_both(true, command, event),
            Pairing::Different { command, event } => Pairing::of_both(false, command, event),
            Pairing::CommandMissing { event } => Pairing::of_event(event),
            Pairing::CommandExtra { command } => Pairing::of_command(command),
        }
    }
}

/// How a task ends.
#[derive(Drop)]
pub enum Ending {
    /// The last command of the last step is invalid.
    Refused,
    /// The task is not recorded yet.
    Live {
        /// The commands that are sent.
        sent: Items<Command>,
    },
    /// The task is recorded.
    Recorded {
        /// The commands that are sent beside the recorded events, up to the first difference.
        pairings: Items<Pairing>,
    },
}

/// The explanation of one task.
#[derive(Drop)]
pub struct ExplainedTask {
    /// The number of its cut.
    pub at: EventNo,
    /// The numbers of the events that gave its jobs, in the order of the steps. No event gave a job
    /// that is the answer to a request for a version.
    pub given: Items<EventNo>,
    /// The steps of its activation.
    pub steps: Items<Step>,
    /// How it ends.
    pub ending: Ending,
}
