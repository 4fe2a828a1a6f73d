//! What commands do to the things of the run.
ghost use Rattle.std.specs.Prelude.{◌≡◌};
ghost use Rattle.wh_machines.specs.Lookups.{thing_of};
ghost use Rattle.wh_workflow.specs.Scripts.{act_of, act_opens, act_cancels, act_closes, some_act, left_open, withdrawn};
ghost use Rattle.wh_match.specs.Private.Standings.{act_seen};

use wh_events::OpenKind;
use wh_workflow::Command;

/// What a command does to the things of the run.
#[derive(Clone, Copy)]
pub(crate) enum Act<'a> {
    /// Opens a thing.
    Opens {
        /// The kind of the thing.
        kind: OpenKind,
        /// Its id.
        id: &'a str,
    },
    /// Cancels a thing.
    Cancels {
        /// The kind of the thing.
        kind: OpenKind,
        /// Its id.
        id: &'a str,
    },
    /// Closes the run.
    Closes,
    /// Asks for the version of a change.
    Asks {
        /// The name of the change.
        change_id: &'a str,
        /// The least version that the code can run.
        min: i32,
        /// The greatest version that the code can run.
        max: i32,
    },
    /// Does none of these.
    Other,
}

/// Returns what the command does.
pub(crate) fn read_act(command: &Command) -> Act<'_>
    ensures { act_seen result ≡ act_of command.now }
{
    match command {
        Command::StartActivity { id, .. } => Act::Opens {
            kind: OpenKind::Activity,
            id: id.get(),
        },
        Command::StartTimer { id, .. } => Act::Opens {
            kind: OpenKind::Timer,
            id: id.get(),
        },
        Command::StartChild { workflow_id, .. } => Act::Opens {
            kind: OpenKind::Child,
            id: workflow_id.get(),
        },
        Command::CancelActivity { id } => Act::Cancels {
            kind: OpenKind::Activity,
            id: id.get(),
        },
        Command::CancelTimer { id } => Act::Cancels {
            kind: OpenKind::Timer,
            id: id.get(),
        },
        Command::CancelChild { workflow_id } => Act::Cancels {
            kind: OpenKind::Child,
            id: workflow_id.get(),
        },
        Command::Ask {
            change_id,
            min,
            max,
        } => Act::Asks {
            change_id: change_id.get(),
            min: *min,
            max: *max,
        },
        Command::Complete { .. }
        | Command::Fail { .. }
        | Command::Cancel
        | Command::ContinueAsNew { .. } => Act::Closes,
        _ => Act::Other,
    }
}

/// Returns whether the command opens a thing of the kind under the id.
fn opens(kind: OpenKind, id: &str, command: &Command) -> bool
    ensures { result ≡ act_opens (thing_of kind) id.now (act_of command.now) }
{
    match (kind, command) {
        (OpenKind::Activity, Command::StartActivity { id: other, .. })
        | (OpenKind::Timer, Command::StartTimer { id: other, .. }) => id == other.get(),
        (OpenKind::Child, Command::StartChild { workflow_id, .. }) => id == workflow_id.get(),
        _ => false,
    }
}

/// Returns whether the command cancels the thing of the kind with the id.
fn cancels(kind: OpenKind, id: &str, command: &Command) -> bool
    ensures { result ≡ act_cancels (thing_of kind) id.now (act_of command.now) }
{
    match (kind, command) {
        (OpenKind::Activity, Command::CancelActivity { id: other })
        | (OpenKind::Timer, Command::CancelTimer { id: other }) => id == other.get(),
        (OpenKind::Child, Command::CancelChild { workflow_id }) => id == workflow_id.get(),
        _ => false,
    }
}

/// Returns whether the command closes the run.
pub(crate) fn closes(command: &Command) -> bool
    ensures { result ≡ act_closes (act_of command.now) }
{
    matches!(read_act(command), Act::Closes)
}

/// Returns whether one of the commands opens the thing.
pub(crate) fn some_opens(kind: OpenKind, id: &str, commands: &[Command]) -> bool
    ensures { result ≡ some_act (act_opens (thing_of kind) id.now) commands.now }
{
    for command in commands {
        if opens(kind, id, command) {
            return true;
        }
    }
    false
}

/// Returns whether one of the commands cancels the thing.
pub(crate) fn some_cancels(kind: OpenKind, id: &str, commands: &[Command]) -> bool
    ensures { result ≡ some_act (act_cancels (thing_of kind) id.now) commands.now }
{
    for command in commands {
        if cancels(kind, id, command) {
            return true;
        }
    }
    false
}

/// Returns whether one of the commands opens the thing, and no later one cancels it.
pub(crate) fn left_open(kind: OpenKind, id: &str, commands: &[Command]) -> bool
    ensures { result ≡ left_open (thing_of kind) id.now commands.now }
{
    let mut open = false;
    for command in commands {
        if opens(kind, id, command) {
            open = true;
        } else if cancels(kind, id, command) {
            open = false;
        }
    }
    open
}

/// Returns whether one of the commands opens the thing, and a later one cancels it.
pub(crate) fn is_withdrawn(kind: OpenKind, id: &str, commands: &[Command]) -> bool
    ensures { result ≡ withdrawn (thing_of kind) id.now commands.now }
{
    let mut opened = false;
    for command in commands {
        if opened && cancels(kind, id, command) {
            return true;
        }
        opened = opened || opens(kind, id, command);
    }
    false
}
