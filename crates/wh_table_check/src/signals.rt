//! Warns of signals for which only some states wait.
ghost use Rattle.std.specs.Prelude.{◌≡◌, not, ◌&&◌, ◌||◌, ◌<◌, length, take, codes, bytes_eq, option_map, option_to_list, IfOk};
ghost use Rattle.std.specs.List.{list_any};
ghost use Rattle.wh_table_check.specs.Signals.{signal_of, is_for_signal, hears, is_heard, is_known, drops, state_dropping, drop_finding, drop_warnings, dropped};

use crate::finding::{TableFinding, finding_at};
use std::alloc::Global;
use wh_events::{OutOfMemory, Text};
use wh_row_rules::{OwnedRow, some_closes, state_after, text_eq};
use wh_rows::JobPattern;

/// Returns the signal that the row is for, if it is for one.
fn signal_of(row: &OwnedRow) -> Option<&Text>
    ensures { option_map (λ name. name.now) result ≡ signal_of row.now }
{
    match &row.job {
        JobPattern::Signal(name) => Some(name),
        _ => None,
    }
}

/// Returns whether the row is for this signal.
fn is_for_signal(name: &Text, row: &OwnedRow) -> bool
    ensures { result ≡ is_for_signal name.now row.now }
{
    match signal_of(row) {
        Some(other) => text_eq(other, name),
        None => false,
    }
}

/// Returns whether the row is for this signal in the state.
fn hears(name: &Text, state: &Text, row: &OwnedRow) -> bool
    ensures { result ≡ hears name.now state.now row.now }
{
    is_for_signal(name, row) && (row.state.get() == "any" || text_eq(&row.state, state))
}

/// Returns whether one of the rows is for this signal in the state.
fn is_heard(name: &Text, state: &Text, rows: &[OwnedRow]) -> bool
    ensures { result ≡ is_heard name.now state.now rows.now }
{
    rows.iter().any(|row| hears(name, state, row))
}

/// Returns whether one of the rows is for this signal.
fn is_known(name: &Text, rows: &[OwnedRow]) -> bool
    ensures { result ≡ is_known name.now rows.now }
{
    rows.iter().any(|row| is_for_signal(name, row))
}

/// Returns whether the run goes on after the row, in a state for which no row is for the signal.
fn drops(name: &Text, rows: &[OwnedRow], row: &OwnedRow) -> bool
    ensures { result ≡ drops name.now rows.now row.now }
{
    let state = state_after(row);
    !some_closes(row.gives.get()) && (state.get() != "any" && !is_heard(name, state, rows))
}

/// Returns the state after the first of these rows after which the signal is dropped; `all` are the
/// rows of the table.
fn state_dropping<'a>(name: &Text, all: &[OwnedRow], rows: &'a [OwnedRow]) -> Option<&'a Text>
    ensures { option_map (λ state. state.now) result ≡ state_dropping name.now all.now rows.now }
{
    for row in rows {
        if drops(name, all, row) {
            return Some(state_after(row));
        }
    }
    None
}

/// Returns the warning at the row of this number, that the state drops the signal.
fn drop_finding(
    alloc: Global,
    number: u64,
    state: &Text,
    name: &Text,
) -> Result<TableFinding, OutOfMemory>
    ensures { IfOk result (λ finding. finding ≡ drop_finding number state.now name.now) }
{
    let state = state.get();
    let words = format!(in alloc; "the state {state} drops the signal ")?;
    finding_at(alloc, number, words.as_str(), name.get())
}

/// Returns the warning for a signal at the row of this number, if a state drops it.
fn drop_warning(
    alloc: Global,
    number: u64,
    rows: &[OwnedRow],
    name: &Text,
) -> Result<Option<TableFinding>, OutOfMemory>
    ensures { IfOk result (λ found. option_to_list found ≡ drop_warnings number rows.now name.now) }
{
    match state_dropping(name, rows, rows) {
        Some(state) => Ok(Some(drop_finding(alloc, number, state, name)?)),
        None => Ok(None),
    }
}

/// Returns the warning for the signal that the row is for, if it is the first row for it and a state
/// drops it; `place` rows come before it.
pub(crate) fn dropped_warning(
    alloc: Global,
    place: usize,
    rows: &[OwnedRow],
    row: &OwnedRow,
) -> Result<Option<TableFinding>, OutOfMemory>
    requires { place < length rows.now }
    ensures { IfOk result (λ found. option_to_list found ≡ dropped place rows.now row.now) }
{
    let Some(name) = signal_of(row) else {
        return Ok(None);
    };
    if is_known(name, &rows[..place]) {
        return Ok(None);
    }
    drop_warning(alloc, place as u64 + 1, rows, name)
}
