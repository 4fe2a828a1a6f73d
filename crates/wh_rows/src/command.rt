//! The commands of a row.
ghost use Rattle.std.specs.Prelude.{◌≡◌, IfOk, map};
ghost use Rattle.wh_rows.specs.Tables.{template_by};
ghost use Rattle.wh_rows.specs.Rows.{named, brought, payloads, command_of, commands_of, closes, some_closes};

use crate::choose::text_or_name;
use crate::parts::RowText;
use crate::row::{CommandTemplate, RowsState, Source};
use std::alloc::Global;
use wh_events::{Items, OutOfMemory, Payload, Text};
use wh_workflow::{ActivityEnd, ChildEnd, Command, Job, no_payloads, text_of};

/// Returns the payloads that the job carries.
pub(crate) fn job_payloads(alloc: Global, job: &Job) -> Result<Items<Payload>, OutOfMemory>
    ensures { IfOk result (λ given. given ≡ brought job.now) }
{
    match job {
        Job::Start { input, .. } => input.try_copy(),
        Job::Signal { input, .. } => input.try_copy(),
        Job::Activity {
            end: ActivityEnd::Completed(given),
            ..
        } => given.try_copy(),
        Job::Child {
            end: ChildEnd::Completed(given),
            ..
        } => given.try_copy(),
        _ => Ok(no_payloads(alloc)),
    }
}

/// Returns an input or a result from the source that a row names.
fn payloads(
    alloc: Global,
    source: &Source,
    state: &RowsState,
    job: &Job,
) -> Result<Items<Payload>, OutOfMemory>
    ensures { IfOk result (λ given. given ≡ payloads source.now state.now job.now) }
{
    match source {
        Source::Nothing => Ok(no_payloads(alloc)),
        Source::Input => state.input.try_copy(),
        Source::Brought => job_payloads(alloc, job),
        Source::Kept => state.kept.try_copy(),
    }
}

/// Returns an id of a row, where `@` is the name of the run.
fn id_of<T: RowText>(alloc: Global, id: &T, state: &RowsState) -> Result<Text, OutOfMemory>
    ensures { IfOk result (λ text. text ≡ named (T.bytes id.now) state.now) }
{
    text_of(alloc, text_or_name(id.text(), state))
}

/// What a command with two texts and payloads is made of.
#[derive(Drop)]
struct CommandParts {
    /// Its id.
    id: Text,
    /// The other text: the type of what it starts, or the signal.
    kind: Text,
    /// Its payloads.
    input: Items<Payload>,
}

/// Returns what a command with two texts and payloads is made of.
fn parts_of<T: RowText>(
    alloc: Global,
    id: &T,
    kind: &T,
    source: &Source,
    state: &RowsState,
    job: &Job,
) -> Result<CommandParts, OutOfMemory>
    ensures id { IfOk result (λ parts. parts.id ≡ named (T.bytes id.now) state.now) }
    ensures kind { IfOk result (λ parts. parts.kind ≡ T.bytes kind.now) }
    ensures input { IfOk result (λ parts. parts.input ≡ payloads source.now state.now job.now) }
{
    let id = id_of(alloc, id, state)?;
    let kind = text_of(alloc, kind.text())?;
    Ok(CommandParts {
        id,
        kind,
        input: payloads(alloc, source, state, job)?,
    })
}

/// Returns the command that a template of a row describes.
fn command<T: RowText>(
    alloc: Global,
    template: &CommandTemplate<T>,
    state: &RowsState,
    job: &Job,
) -> Result<Command, OutOfMemory>
    ensures { IfOk result (λ given. given ≡ command_of (template_by T.bytes template.now) state.now job.now) }
{
    match template {
        CommandTemplate::StartActivity(id, activity, source) => {
            let parts = parts_of(alloc, id, activity, source, state, job)?;
            Ok(Command::StartActivity {
                id: parts.id,
                activity: parts.kind,
                input: parts.input,
            })
        }
        CommandTemplate::CancelActivity(id) => Ok(Command::CancelActivity {
            id: id_of(alloc, id, state)?,
        }),
        CommandTemplate::StartTimer(id, seconds) => Ok(Command::StartTimer {
            id: id_of(alloc, id, state)?,
            seconds: *seconds,
        }),
        CommandTemplate::CancelTimer(id) => Ok(Command::CancelTimer {
            id: id_of(alloc, id, state)?,
        }),
        CommandTemplate::StartChild(workflow_id, workflow, source) => {
            let parts = parts_of(alloc, workflow_id, workflow, source, state, job)?;
            Ok(Command::StartChild {
                workflow_id: parts.id,
                workflow: parts.kind,
                input: parts.input,
            })
        }
        CommandTemplate::CancelChild(workflow_id) => Ok(Command::CancelChild {
            workflow_id: id_of(alloc, workflow_id, state)?,
        }),
        CommandTemplate::SignalExternal(workflow_id, signal, source) => {
            let parts = parts_of(alloc, workflow_id, signal, source, state, job)?;
            Ok(Command::SignalExternal {
                workflow_id: parts.id,
                signal: parts.kind,
                input: parts.input,
            })
        }
        CommandTemplate::Ask(change_id, min, max) => Ok(Command::Ask {
            change_id: id_of(alloc, change_id, state)?,
            min: *min,
            max: *max,
        }),
        CommandTemplate::Complete(source) => Ok(Command::Complete {
            result: payloads(alloc, source, state, job)?,
        }),
        CommandTemplate::Fail(message) => Ok(Command::Fail {
            message: text_of(alloc, message.text())?,
        }),
        CommandTemplate::Cancel => Ok(Command::Cancel),
        CommandTemplate::ContinueAsNew(workflow, source) => Ok(Command::ContinueAsNew {
            workflow: text_of(alloc, workflow.text())?,
            input: payloads(alloc, source, state, job)?,
        }),
    }
}

/// Returns the commands of a row, in their order.
#[tactic(auto, unfolding(crate::specs::Rows::commands_of))]
pub(crate) fn commands<T: RowText>(
    alloc: Global,
    templates: &[CommandTemplate<T>],
    state: &RowsState,
    job: &Job,
) -> Result<Vec<Command>, OutOfMemory>
    ensures { IfOk result (λ given.
        given.items ≡ commands_of (map (template_by T.bytes) templates.now) state.now job.now) }
{
    let mut given = Vec::new(alloc);
    for template in templates {
        let command = command(alloc, template, state, job)?;
        given.push(command)?;
    }
    Ok(given)
}

/// Returns whether the command closes the run.
fn closes<T: RowText>(template: &CommandTemplate<T>) -> bool
    ensures { result ≡ closes (template_by T.bytes template.now) }
{
    match template {
        CommandTemplate::Complete(_)
        | CommandTemplate::Fail(_)
        | CommandTemplate::Cancel
        | CommandTemplate::ContinueAsNew(_, _) => true,
        _ => false,
    }
}

/// Returns whether one of the commands closes the run.
pub(crate) fn some_closes<T: RowText>(templates: &[CommandTemplate<T>]) -> bool
    ensures { result ≡ some_closes (map (template_by T.bytes) templates.now) }
{
    for template in templates {
        if closes(template) {
            return true;
        }
    }
    false
}
