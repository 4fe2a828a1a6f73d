//! Warns of `@` where the name of the run may be empty.
ghost use Rattle.std.specs.Prelude.{◌≡◌, ◌||◌, codes, bytes_eq, option_map, option_to_list, IfOk};
ghost use Rattle.std.specs.List.{list_any};
ghost use Rattle.wh_table_check.specs.Names.{empty_name_words, id_of, is_named, says_name, nameless};

use crate::finding::{TableFinding, finding_at};
use std::alloc::Global;
use wh_events::{OutOfMemory, Text};
use wh_row_rules::{OwnedRow, text_of};
use wh_rows::{CommandTemplate, Naming};

/// Returns why the name of a run is empty, or may be; nothing if it never is.
fn empty_name_words(naming: &Naming<Text>) -> Option<&'static str>
    ensures { option_map (λ words. words.now) result ≡ empty_name_words naming.now }
{
    match naming {
        Naming::Nameless => Some("@ is empty, since the table has no member name"),
        Naming::ByPayload(_, _, other) => {
            if other.get().is_empty() {
                Some("@ may be empty, since the member name has no OTHER")
            } else {
                None
            }
        }
    }
}

/// Returns the text of a command that `@` may be: an id or a change; empty if it has none.
fn id_of(template: &CommandTemplate<Text>) -> &str
    ensures { result.now ≡ id_of template.now }
{
    match template {
        CommandTemplate::StartActivity(id, _, _)
        | CommandTemplate::CancelActivity(id)
        | CommandTemplate::StartTimer(id, _)
        | CommandTemplate::CancelTimer(id)
        | CommandTemplate::StartChild(id, _, _)
        | CommandTemplate::CancelChild(id)
        | CommandTemplate::SignalExternal(id, _, _)
        | CommandTemplate::Ask(id, _, _) => id.get(),
        CommandTemplate::Complete(_)
        | CommandTemplate::Fail(_)
        | CommandTemplate::Cancel
        | CommandTemplate::ContinueAsNew(_, _) => "",
    }
}

/// Returns whether the id of the command is the name of the run.
fn is_named(template: &CommandTemplate<Text>) -> bool
    ensures { result ≡ is_named template.now }
{
    id_of(template) == "@"
}

/// Returns whether the id of one of the commands is the name of the run.
fn names_one(templates: &[CommandTemplate<Text>]) -> bool
    ensures { result ≡ list_any is_named templates.now }
{
    templates.iter().any(|template| is_named(template))
}

/// Returns whether the job of the row or one of its commands has the name of the run.
fn says_name(row: &OwnedRow) -> bool
    ensures { result ≡ says_name row.now }
{
    text_of(&row.job) == "@" || names_one(row.gives.get())
}

/// Returns the warning for the row of this number, if it has the name of the run and that may be
/// empty.
pub(crate) fn nameless_warning(
    alloc: Global,
    naming: &Naming<Text>,
    number: u64,
    row: &OwnedRow,
) -> Result<Option<TableFinding>, OutOfMemory>
    ensures { IfOk result (λ found. option_to_list found ≡ nameless naming.now number row.now) }
{
    if !says_name(row) {
        return Ok(None);
    }
    match empty_name_words(naming) {
        Some(words) => Ok(Some(finding_at(alloc, number, words, "")?)),
        None => Ok(None),
    }
}
