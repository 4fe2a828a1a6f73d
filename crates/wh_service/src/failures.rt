//! Failed tasks of files, and what is said of them.

ghost use Rattle.std.specs.Prelude.{◌≡◌, Some};
ghost use Rattle.wh_service.specs.Texts.{commands_text, failure_text, is_of_another, why_text};
ghost use Rattle.wh_service.specs.Repeats.{is_no_task, is_of_commands, is_of_event, is_of_task, is_repeat};
ghost use Rattle.wh_service.specs.Repeats.{is_same_fault, is_same_reason, more_text, repeated_text, repeats};

use std::fmt;
use wh_events::Text;
use wh_recorded::FailedTask;
use wh_replay::Fault;
use wh_tester::{ReplayFaultText, Shown};
use wh_workflow::WorkflowFault;

/// A failed task of a file. As a text: the name of the file as the report shows it, the task by the
/// event that starts it, and its fault as the report of replay has it, or that it was not answered.
/// Of a fault of commands only the name is given, and after it which task has it, if that is
/// another.
#[derive(Drop)]
pub struct FileFailure {
    /// The name of the file.
    pub name: Text,
    /// The task.
    pub task: FailedTask,
}

/// Whether a fault of commands is that of another task than this one. If the workflow type is not
/// registered, no task has it.
fn is_of_another(at: u64, own: u64, fault: WorkflowFault) -> bool
    ensures { result ≡ is_of_another at own fault }
{
    match fault {
        WorkflowFault::UnknownWorkflow => false,
        _ => own != at,
    }
}

/// Why a task failed where commands have a fault, in words.
#[derive(Drop)]
struct CommandsText {
    at: u64,
    own: u64,
    fault: WorkflowFault,
}

impl fmt::Display for CommandsText {
    ghost output = { λ t. Some (commands_text t.at t.own t.fault) };

    fn fmt<W: fmt::Write>(&self, f: &mut fmt::Formatter<W>) -> fmt::Result {
        let CommandsText { at, own, fault } = *self;
        let text = ReplayFaultText(Fault::Workflow { at, fault });
        if is_of_another(at, own, fault) {
            write!(f, "{text} in the task at {own}")
        } else {
            write!(f, "{text}")
        }
    }
}

/// Why a task failed, in words.
#[derive(Drop)]
struct WhyText {
    at: u64,
    fault: Option<Fault>,
}

impl fmt::Display for WhyText {
    ghost output = { λ t. Some (why_text t.at t.fault) };

    fn fmt<W: fmt::Write>(&self, f: &mut fmt::Formatter<W>) -> fmt::Result {
        let at = self.at;
        match self.fault {
            None => write!(f, "task at {at}: not answered"),
            Some(Fault::Workflow { at: own, fault }) => {
                let text = CommandsText { at, own, fault };
                write!(f, "{text}")
            }
            Some(fault) => {
                let text = ReplayFaultText(fault);
                write!(f, "task at {at}: {text}")
            }
        }
    }
}

impl fmt::Display for FileFailure {
    ghost output = { λ failure. Some (failure_text failure) };

    fn fmt<W: fmt::Write>(&self, f: &mut fmt::Formatter<W>) -> fmt::Result {
        let name = Shown(self.name.get());
        let why = WhyText {
            at: self.task.at,
            fault: self.task.fault,
        };
        write!(f, "{name}: {why}")
    }
}

/// Whether a fault is that of the event in this place.
fn is_of_event(at: u64, fault: Fault) -> bool
    ensures { result ≡ is_of_event at fault }
{
    match fault {
        Fault::Place { at: own, fault: _ } => at == own,
        _ => false,
    }
}

/// Whether a fault is that of the commands of this task.
fn is_of_commands(at: u64, fault: Fault) -> bool
    ensures { result ≡ is_of_commands at fault }
{
    match fault {
        Fault::Workflow { at: own, fault: _ } => at == own,
        _ => false,
    }
}

/// Whether a fault is a difference in this task.
fn is_of_task(at: u64, fault: Fault) -> bool
    ensures { result ≡ is_of_task at fault }
{
    match fault {
        Fault::Mismatch {
            at: own,
            mismatch: _,
        } => at == own,
        _ => false,
    }
}

/// Whether a fault is that there is no task.
fn is_no_task(fault: Fault) -> bool
    ensures { result ≡ is_no_task fault }
{
    match fault {
        Fault::NotATask => true,
        _ => false,
    }
}

/// Whether two faults of a file are one: they are of one event or of one task, which has at most
/// one.
fn is_same_fault(one: Fault, other: Fault) -> bool
    ensures { result ≡ is_same_fault one other }
{
    match one {
        Fault::NotATask => is_no_task(other),
        Fault::Place { at, fault: _ } => is_of_event(at, other),
        Fault::Workflow { at, fault: _ } => is_of_commands(at, other),
        Fault::Mismatch { at, mismatch: _ } => is_of_task(at, other),
    }
}

/// Whether two tasks of a file failed for one reason: neither was answered, or their faults are
/// one.
fn is_same_reason(one: Option<Fault>, other: Option<Fault>) -> bool
    ensures { result ≡ is_same_reason one other }
{
    match one {
        None => other.is_none(),
        Some(one) => match other {
            None => false,
            Some(other) => is_same_fault(one, other),
        },
    }
}

/// Whether a failed task repeats one before it: it is of a file of the same name, and failed for
/// the same reason.
pub fn is_repeat(one: &FileFailure, next: &FileFailure) -> bool
    ensures { result ≡ is_repeat one.now next.now }
{
    is_same_reason(one.task.fault, next.task.fault) && one.name.get() == next.name.get()
}

/// How many failed tasks repeat one, up to the first that does not.
pub fn repeats(one: &FileFailure, after: &[FileFailure]) -> usize
    ensures { result ≡ repeats one.now after.now }
{
    let mut count = 0;
    for next in after {
        if !is_repeat(one, next) {
            return count;
        }
        count += 1;
    }
    count
}

/// How many more there are, in words, if there are any.
#[derive(Clone, Copy)]
struct MoreText(usize);

impl fmt::Display for MoreText {
    ghost output = { λ t. Some (more_text t.0) };

    fn fmt<W: fmt::Write>(&self, f: &mut fmt::Formatter<W>) -> fmt::Result {
        let more = self.0;
        if more == 0 {
            Ok(())
        } else {
            write!(f, ", and {more} more")
        }
    }
}

/// A failed task, and how many repeat it. As a text: that of the failed task, and after it the
/// number of the others, if there are any.
#[derive(Drop)]
pub struct RepeatedFailure<'a> {
    /// The first of them.
    pub failure: &'a FileFailure,
    /// How many repeat it.
    pub more: usize,
}

impl fmt::Display for RepeatedFailure<'_> {
    ghost output = { λ t. Some (repeated_text t.failure.now t.more) };

    fn fmt<W: fmt::Write>(&self, f: &mut fmt::Formatter<W>) -> fmt::Result {
        let failure = self.failure;
        let more = MoreText(self.more);
        write!(f, "{failure}{more}")
    }
}
