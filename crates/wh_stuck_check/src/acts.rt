//! What commands do with things.
ghost use Rattle.std.specs.Prelude.{◌≡◌};
ghost use Rattle.wh_workflow.specs.Scripts.{act_of};
ghost use Rattle.wh_possible_runs.specs.Configurations.{act_by};
ghost use Rattle.wh_stuck_check.specs.Private.Seen.{act_seen};

use wh_events::{Text, Thing};
use wh_rows::CommandTemplate;
use wh_workflow::Command;

/// What a command does.
#[derive(Clone, Copy)]
pub(crate) enum Act<'a> {
    /// It opens a thing.
    Opens(Thing, &'a Text),
    /// It cancels one.
    Cancels(Thing, &'a Text),
    /// It asks for a version of the change, no less than the first and no greater than the second
    /// number.
    Asks(&'a Text, i32, i32),
    /// It closes the run.
    Closes,
    /// None of these.
    Other,
}

/// What a command of a row does.
pub(crate) fn act_by<'a>(template: &'a CommandTemplate<Text>) -> Act<'a>
    ensures { act_seen result ≡ act_by template.now }
{
    match template {
        CommandTemplate::StartActivity(id, _, _) => Act::Opens(Thing::Activity, id),
        CommandTemplate::CancelActivity(id) => Act::Cancels(Thing::Activity, id),
        CommandTemplate::StartTimer(id, _) => Act::Opens(Thing::Timer, id),
        CommandTemplate::CancelTimer(id) => Act::Cancels(Thing::Timer, id),
        CommandTemplate::StartChild(id, _, _) => Act::Opens(Thing::Child, id),
        CommandTemplate::CancelChild(id) => Act::Cancels(Thing::Child, id),
        CommandTemplate::SignalExternal(_, _, _) => Act::Other,
        CommandTemplate::Ask(change, least, greatest) => Act::Asks(change, *least, *greatest),
        CommandTemplate::Complete(_) => Act::Closes,
        CommandTemplate::Fail(_) => Act::Closes,
        CommandTemplate::Cancel => Act::Closes,
        CommandTemplate::ContinueAsNew(_, _) => Act::Closes,
    }
}

/// What a command does.
pub(crate) fn act_of<'a>(command: &'a Command) -> Act<'a>
    ensures { act_seen result ≡ act_of command.now }
{
    match command {
        Command::StartActivity { id, .. } => Act::Opens(Thing::Activity, id),
        Command::CancelActivity { id } => Act::Cancels(Thing::Activity, id),
        Command::StartTimer { id, .. } => Act::Opens(Thing::Timer, id),
        Command::CancelTimer { id } => Act::Cancels(Thing::Timer, id),
        Command::StartChild { workflow_id, .. } => Act::Opens(Thing::Child, workflow_id),
        Command::CancelChild { workflow_id } => Act::Cancels(Thing::Child, workflow_id),
        Command::SignalExternal { .. } => Act::Other,
        Command::Ask {
            change_id,
            min,
            max,
        } => Act::Asks(change_id, *min, *max),
        Command::Marker { .. } => Act::Other,
        Command::Complete { .. } => Act::Closes,
        Command::Fail { .. } => Act::Closes,
        Command::Cancel => Act::Closes,
        Command::ContinueAsNew { .. } => Act::Closes,
    }
}
