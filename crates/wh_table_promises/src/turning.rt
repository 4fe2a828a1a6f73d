//! How the commands of a row turn a watch.
ghost use Rattle.std.specs.Prelude.{◌≡◌, ◌≤◌, ◌<◌, ◌+◌, ◌-◌, ◌^◌, map};
ghost use Rattle.wh_rows.specs.Deciding.{is_by, given};
ghost use Rattle.wh_table_promises.specs.Promised.{happening_of};
ghost use Rattle.wh_table_promises.specs.Private.Seen.{turn_seen, standing_seen, turns_by, turned_by};

use crate::promise::Happening;
use crate::watch::{WatchState, WatchTurn, watch_after_turn};
use wh_events::Text;
use wh_row_rules::{closes, text_eq};
use wh_rows::CommandTemplate;

/// Whether this happens by the command that a row gives.
fn is_by(what: &Happening, template: &CommandTemplate<Text>) -> bool
    ensures { result ≡ is_by (happening_of what.now) template.now }
{
    match what {
        Happening::Comes(_) => false,
        Happening::StartsActivity(kind) => match template {
            CommandTemplate::StartActivity(_, given, _) => text_eq(kind, given),
            _ => false,
        },
        Happening::StartsChild(kind) => match template {
            CommandTemplate::StartChild(_, given, _) => text_eq(kind, given),
            _ => false,
        },
        Happening::SendsSignal(name) => match template {
            CommandTemplate::SignalExternal(_, given, _) => text_eq(name, given),
            _ => false,
        },
        Happening::Completes => matches!(template, CommandTemplate::Complete(_)),
        Happening::Fails => matches!(template, CommandTemplate::Fail(_)),
        Happening::Cancels => matches!(template, CommandTemplate::Cancel),
        Happening::ContinuesAsNew => matches!(template, CommandTemplate::ContinueAsNew(_, _)),
        Happening::Closes => closes(template),
    }
}

/// Whether the turn is from the state, and happens by the command.
fn turns_by(turn: &WatchTurn, template: &CommandTemplate<Text>, at: u64) -> bool
    ensures { result ≡ turns_by (turn_seen turn.now) template.now at }
{
    turn.from == at && is_by(turn.what, template)
}

/// Where a watch stands after a command.
fn watch_after_command(
    turns: &[WatchTurn],
    template: &CommandTemplate<Text>,
    now: WatchState,
) -> WatchState
    requires { now.spent < 2 ^ 64 - 1 }
    ensures turned { standing_seen result ≡ turned_by (map turn_seen turns.now) template.now (standing_seen now) }
    ensures least { now.spent ≤ result.spent }
    ensures most { result.spent ≤ now.spent + 1 }
{
    for turn in turns {
        if turns_by(turn, template, now.at) {
            return watch_after_turn(turn, now);
        }
    }
    now
}

/// Where a watch stands after the commands of a row.
pub(crate) fn watch_after_commands(
    turns: &[WatchTurn],
    templates: &[CommandTemplate<Text>],
    now: WatchState,
) -> WatchState
    requires { now.spent ≤ 2 ^ 62 }
    ensures { standing_seen result ≡ given (map turn_seen turns.now) templates.now (standing_seen now) }
{
    let mut now = now;
    for template in templates {
        now = watch_after_command(turns, template, now);
    }
    now
}
