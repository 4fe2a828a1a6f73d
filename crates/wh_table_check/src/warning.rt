//! Warns of what the author of a table without a fault may not have meant.
ghost use Rattle.std.specs.Prelude.{◌≡◌, ◌++◌, ◌≤◌, ◌<◌, length, option_map, option_to_list, IfOk, OnOk};
ghost use Rattle.std.specs.List.{flat_map};
ghost use Rattle.wh_table_check.specs.Warnings.{ends_activity, fires, is_of_child, awaits, is_awaited, opened, unawaited};
ghost use Rattle.wh_table_check.specs.Warnings.{leads_out, has_way_out, goes_on, stuck, command_warnings, row_warnings, rows_warnings};

use crate::finding::{TableFinding, finding_at};
use crate::names::nameless_warning;
use crate::new_runs::tableless_warning;
use crate::signals::dropped_warning;
use std::alloc::Global;
use wh_events::{OutOfMemory, Text};
use wh_row_rules::{OwnedRow, has_state, some_closes, text_eq};
use wh_rows::{CommandTemplate, JobPattern, Naming};

/// Returns whether the pattern matches an end of the activity with this id.
fn ends_activity(pattern: &JobPattern<Text>, id: &Text) -> bool
    ensures { result ≡ ends_activity pattern.now id.now }
{
    match pattern {
        JobPattern::Done(other) => text_eq(other, id),
        JobPattern::NotDone(other) => text_eq(other, id),
        _ => false,
    }
}

/// Returns whether the pattern matches the firing of the timer with this id.
fn fires(pattern: &JobPattern<Text>, id: &Text) -> bool
    ensures { result ≡ fires pattern.now id.now }
{
    match pattern {
        JobPattern::Fired(other) => text_eq(other, id),
        _ => false,
    }
}

/// Returns whether the pattern matches the start or an end of the child with this workflow id.
fn is_of_child(pattern: &JobPattern<Text>, id: &Text) -> bool
    ensures { result ≡ is_of_child pattern.now id.now }
{
    match pattern {
        JobPattern::ChildStarted(other) => text_eq(other, id),
        JobPattern::ChildDone(other) => text_eq(other, id),
        JobPattern::ChildCanceled(other) => text_eq(other, id),
        JobPattern::ChildNotDone(other) => text_eq(other, id),
        _ => false,
    }
}

/// Returns whether the pattern matches what becomes of the activity, timer or child that the
/// command starts.
fn awaits(template: &CommandTemplate<Text>, pattern: &JobPattern<Text>) -> bool
    ensures { result ≡ awaits template.now pattern.now }
{
    match template {
        CommandTemplate::StartActivity(id, _, _) => ends_activity(pattern, id),
        CommandTemplate::StartTimer(id, _) => fires(pattern, id),
        CommandTemplate::StartChild(id, _, _) => is_of_child(pattern, id),
        _ => true,
    }
}

/// Returns whether one of the rows waits for what the command starts.
fn is_awaited(template: &CommandTemplate<Text>, rows: &[OwnedRow]) -> bool
    ensures { result ≡ is_awaited template.now rows.now }
{
    for row in rows {
        if awaits(template, &row.job) {
            return true;
        }
    }
    false
}

/// Returns the words of the warning for a command that starts something that no row waits for, and
/// its id.
fn opening_words(template: &CommandTemplate<Text>) -> Option<(&'static str, &Text)>
    ensures { option_map (λ said. (said.0.now, said.1.now)) result ≡ opened template.now }
{
    match template {
        CommandTemplate::StartActivity(id, _, _) => Some(("no row waits for the activity ", id)),
        CommandTemplate::StartTimer(id, _) => Some(("no row waits for the timer ", id)),
        CommandTemplate::StartChild(id, _, _) => Some(("no row waits for the child ", id)),
        _ => None,
    }
}

/// Returns the warning for a command of the row of this number, if there is one.
fn unawaited_warning(
    alloc: Global,
    number: u64,
    rows: &[OwnedRow],
    template: &CommandTemplate<Text>,
) -> Result<Option<TableFinding>, OutOfMemory>
    ensures { IfOk result (λ found. option_to_list found ≡ unawaited number rows.now template.now) }
{
    match opening_words(template) {
        Some((words, id)) => {
            if is_awaited(template, rows) {
                Ok(None)
            } else {
                Ok(Some(finding_at(alloc, number, words, id.get())?))
            }
        }
        None => Ok(None),
    }
}

/// Returns whether the row is for the state, and closes the run or leads to another state.
fn leads_out(name: &Text, row: &OwnedRow) -> bool
    ensures { result ≡ leads_out name.now row.now }
{
    (row.state.get() == "any" || text_eq(&row.state, name))
        && (some_closes(row.gives.get()) || !(row.next.get() == "same" || text_eq(&row.next, name)))
}

/// Returns whether one of the rows leads out of the state.
fn has_way_out(name: &Text, rows: &[OwnedRow]) -> bool
    ensures { result ≡ has_way_out name.now rows.now }
{
    for row in rows {
        if leads_out(name, row) {
            return true;
        }
    }
    false
}

/// Returns whether the row is not the first one for its state, or a row leads out of that state;
/// `place` rows come before it.
#[tactic(auto, unfolding(crate::specs::Warnings::goes_on))]
fn goes_on(place: usize, rows: &[OwnedRow], row: &OwnedRow) -> bool
    requires { place ≤ length rows.now }
    ensures { result ≡ goes_on place rows.now row.now }
{
    row.state.get() == "any"
        || (has_state(&row.state, &rows[..place]) || has_way_out(&row.state, rows))
}

/// Returns the warning for a row, if it is the first one for a state that no row leads out of.
fn stuck_warning(
    alloc: Global,
    place: usize,
    rows: &[OwnedRow],
    row: &OwnedRow,
) -> Result<Option<TableFinding>, OutOfMemory>
    requires { place < length rows.now }
    ensures { IfOk result (λ found. option_to_list found ≡ stuck place rows.now row.now) }
{
    if goes_on(place, rows, row) {
        return Ok(None);
    }
    let words = "no row leads on from the state ";
    Ok(Some(finding_at(alloc, place as u64 + 1, words, row.state.get())?))
}

/// Adds a warning, if there is one.
fn add(found: &mut Vec<TableFinding>, one: Option<TableFinding>) -> Result<(), OutOfMemory>
    ensures { OnOk result (found.new.items ≡ found.old.items ++ option_to_list one) }
{
    if let Some(one) = one {
        found.push(one)?;
    }
    Ok(())
}

/// Adds the warnings for a command of the row of this number.
fn add_command(
    alloc: Global,
    found: &mut Vec<TableFinding>,
    number: u64,
    rows: &[OwnedRow],
    template: &CommandTemplate<Text>,
) -> Result<(), OutOfMemory>
    ensures { OnOk result (found.new.items ≡ found.old.items ++ command_warnings number rows.now template.now) }
{
    let one = unawaited_warning(alloc, number, rows, template)?;
    add(found, one)?;
    let other = tableless_warning(alloc, number, template)?;
    add(found, other)
}

/// Adds the warnings for the commands of the row of this number.
fn add_commands(
    alloc: Global,
    found: &mut Vec<TableFinding>,
    number: u64,
    rows: &[OwnedRow],
    gives: &[CommandTemplate<Text>],
) -> Result<(), OutOfMemory>
    ensures { OnOk result
        (found.new.items ≡ found.old.items ++ flat_map (command_warnings number rows.now) gives.now) }
{
    for template in gives {
        add_command(alloc, found, number, rows, template)?;
    }
    Ok(())
}

/// Adds the warnings for a row; `place` rows come before it.
fn add_row(
    alloc: Global,
    found: &mut Vec<TableFinding>,
    naming: &Naming<Text>,
    place: usize,
    rows: &[OwnedRow],
    row: &OwnedRow,
) -> Result<(), OutOfMemory>
    requires { place < length rows.now }
    ensures { OnOk result
        (found.new.items ≡ found.old.items ++ row_warnings naming.now rows.now place row.now) }
{
    let one = stuck_warning(alloc, place, rows, row)?;
    add(found, one)?;
    let lost = dropped_warning(alloc, place, rows, row)?;
    add(found, lost)?;
    let other = nameless_warning(alloc, naming, place as u64 + 1, row)?;
    add(found, other)?;
    add_commands(alloc, found, place as u64 + 1, rows, row.gives.get())
}

/// Adds the warnings for the rows of a table without a fault, whose runs are named so, row by row:
/// for each state that no row leads out of, at the first row for it; for each signal that a state
/// drops, at the first row for it; for `@` where the name of the run may be empty; for each
/// activity, timer and child that a row starts and no row of the table waits for; and for each new
/// run of a table that gets none. `OutOfMemory` if there is no memory for them.
pub(crate) fn add_rows(
    alloc: Global,
    found: &mut Vec<TableFinding>,
    naming: &Naming<Text>,
    rows: &[OwnedRow],
) -> Result<(), OutOfMemory>
    ensures { OnOk result (found.new.items ≡ found.old.items ++ rows_warnings naming.now rows.now) }
{
    for (place, row) in rows.iter().enumerate() {
        add_row(alloc, found, naming, place, rows, row)?;
    }
    Ok(())
}
