//! A workflow that gives the commands that signals name.

ghost use Rattle.std.specs.Prelude.{◌≡◌, Some, IfOk, codes};
ghost use Rattle.test_support.specs.Scripted.{scripted, scripted_lawful, ask_named, closing_named, command_named};
ghost use Rattle.wh_workflow.specs.declared.command.Command.TheVariants.{Ask};

use std::alloc::Global;
use wh_events::OutOfMemory;
use wh_sample_workflows::NoState;
use wh_workflow::{Command, Job, Meter, Workflow, no_payloads, text_of};

/// Gives the command that a signal names. It gives nothing for a name that is not one of a command,
/// nor for other jobs. It is registered for every workflow type.
pub struct Scripted;

/// Returns the request for the version of the change `chg` with this range.
fn ask(alloc: Global, min: i32, max: i32) -> Result<Option<Command>, OutOfMemory>
    ensures { IfOk result (λ given. given ≡ Some (Ask (codes "chg") min max)) }
{
    Ok(Some(Command::Ask {
        change_id: text_of(alloc, "chg")?,
        min,
        max,
    }))
}

/// Returns the request for a version that the name describes.
fn ask_named(alloc: Global, name: &str) -> Result<Option<Command>, OutOfMemory>
    ensures { IfOk result (λ given. given ≡ ask_named name.now) }
{
    if name == "ask" {
        ask(alloc, -1, 1)
    } else if name == "ask_known" {
        ask(alloc, 0, 1)
    } else if name == "ask_new" {
        ask(alloc, 1, 3)
    } else if name == "ask_later" {
        ask(alloc, 2, 3)
    } else if name == "ask_crossed" {
        ask(alloc, 2, 1)
    } else if name == "ask_below" {
        ask(alloc, -2, 1)
    } else if name == "ask_none" {
        ask(alloc, -1, -1)
    } else {
        Ok(None)
    }
}

/// Returns the command that the name describes, if it closes the run, signals another workflow or
/// asks for a version.
fn closing_named(alloc: Global, name: &str) -> Result<Option<Command>, OutOfMemory>
    ensures { IfOk result (λ given. given ≡ closing_named name.now) }
{
    if name == "complete" {
        Ok(Some(Command::Complete {
            result: no_payloads(alloc),
        }))
    } else if name == "fail" {
        Ok(Some(Command::Fail {
            message: text_of(alloc, "failure")?,
        }))
    } else if name == "cancel" {
        Ok(Some(Command::Cancel))
    } else if name == "continue" {
        Ok(Some(Command::ContinueAsNew {
            workflow: text_of(alloc, "Nap")?,
            input: no_payloads(alloc),
        }))
    } else if name == "signal_other" {
        Ok(Some(Command::SignalExternal {
            workflow_id: text_of(alloc, "other")?,
            signal: text_of(alloc, "go")?,
            input: no_payloads(alloc),
        }))
    } else {
        ask_named(alloc, name)
    }
}

/// Returns the command that the name describes.
fn command_named(alloc: Global, name: &str) -> Result<Option<Command>, OutOfMemory>
    ensures { IfOk result (λ given. given ≡ command_named name.now) }
{
    if name == "start_timer" {
        Ok(Some(Command::StartTimer {
            id: text_of(alloc, "t")?,
            seconds: 1,
        }))
    } else if name == "cancel_timer" {
        Ok(Some(Command::CancelTimer {
            id: text_of(alloc, "t")?,
        }))
    } else if name == "start_activity" {
        Ok(Some(Command::StartActivity {
            id: text_of(alloc, "1")?,
            activity: text_of(alloc, "work")?,
            input: no_payloads(alloc),
        }))
    } else if name == "cancel_activity" {
        Ok(Some(Command::CancelActivity {
            id: text_of(alloc, "1")?,
        }))
    } else if name == "start_child" {
        Ok(Some(Command::StartChild {
            workflow_id: text_of(alloc, "kid")?,
            workflow: text_of(alloc, "Nap")?,
            input: no_payloads(alloc),
        }))
    } else if name == "cancel_child" {
        Ok(Some(Command::CancelChild {
            workflow_id: text_of(alloc, "kid")?,
        }))
    } else {
        closing_named(alloc, name)
    }
}

impl Workflow for Scripted {
    type State = NoState;

    ghost program = { scripted };

    ghost lawful = { scripted_lawful };

    fn handles(_kind: &str) -> bool {
        true
    }

    fn begin(_alloc: Global, _kind: &str) -> Result<NoState, OutOfMemory> {
        Ok(NoState)
    }

    fn step(
        alloc: Global,
        _state: &mut NoState,
        job: &Job,
        out: &mut Vec<Command>,
        meter: &mut Meter,
    ) -> Result<(), OutOfMemory> {
        meter.tick();
        if let Job::Signal { name, .. } = job {
            if let Some(command) = command_named(alloc, name.get())? {
                out.push(command)?;
            }
        }
        Ok(())
    }
}
