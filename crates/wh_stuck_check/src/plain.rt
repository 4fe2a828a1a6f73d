//! Whether rows use the name of the run.
ghost use Rattle.std.specs.Prelude.{◌≡◌, map};
ghost use Rattle.wh_possible_runs.specs.Shown.{is_plain, is_plain_act, all_plain_acts, are_plain, plain_names};
ghost use Rattle.wh_stuck_check.specs.Private.Seen.{act_seen, name_seen, is_plain_row};

use crate::acts::{Act, act_by};
use crate::names::ThingName;
use wh_events::Text;
use wh_row_rules::{OwnedRow, text_of};
use wh_rows::CommandTemplate;

/// Whether the text does not stand for the name of the run.
fn is_plain(text: &str) -> bool
    ensures { result ≡ is_plain text.now }
{
    text != "@"
}

/// Whether the id or the change that a command names is plain.
fn is_plain_act(act: &Act) -> bool
    ensures { result ≡ is_plain_act (act_seen act.now) }
{
    match act {
        Act::Opens(_, id) => is_plain(id.get()),
        Act::Cancels(_, id) => is_plain(id.get()),
        Act::Asks(change, _, _) => is_plain(change.get()),
        Act::Closes => true,
        Act::Other => true,
    }
}

/// Whether those of all these commands are.
fn all_plain_acts(templates: &[CommandTemplate<Text>]) -> bool
    ensures { result ≡ all_plain_acts templates.now }
{
    for template in templates {
        if !is_plain_act(&act_by(template)) {
            return false;
        }
    }
    true
}

/// Whether a row uses the name of the run nowhere.
fn is_plain_row(row: &OwnedRow) -> bool
    ensures { result ≡ is_plain_row row.now }
{
    is_plain(text_of(&row.job)) && all_plain_acts(row.gives.get())
}

/// Whether no row uses it.
pub(crate) fn are_plain(rows: &[OwnedRow]) -> bool
    ensures { result ≡ are_plain rows.now }
{
    for row in rows {
        if !is_plain_row(row) {
            return false;
        }
    }
    true
}

/// Whether no name stands for it.
pub(crate) fn plain_names(names: &[ThingName]) -> bool
    ensures { result ≡ plain_names (map name_seen names.now) }
{
    for name in names {
        if !is_plain(name.id.get()) {
            return false;
        }
    }
    true
}
