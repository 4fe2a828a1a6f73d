//! Checks that each version that rows ask for has a row in the next state.
ghost use Rattle.std.specs.Prelude.{◌≡◌, ◌≤◌, ◌^◌, ◌+◌, ◌-◌};
ghost use Rattle.wh_rows.specs.declared.row.JobPattern.TheVariants as patterns;
ghost use Rattle.wh_rows.specs.Rules.{is_unconditional, hears, version_place, version_at, hears_each, hears_versions, are_heard};
ghost use Rattle.wh_row_rules.specs.Ends.{is_at, is_heard};

use crate::commands::text_eq;
use crate::owned::OwnedRow;
use crate::patterns::{covers_any_version, covers_version};
use wh_events::Text;
use wh_rows::{CommandTemplate, Condition};

/// Returns whether the row is for the state.
fn is_at(row: &OwnedRow, name: &Text) -> bool
    ensures { result ≡ is_at row.now name.now }
{
    row.state.get() == "any" || text_eq(&row.state, name)
}

/// Returns whether there is no condition.
fn is_unconditional(conditions: &[Condition]) -> bool
    ensures { result ≡ is_unconditional conditions.now }
{
    matches!(conditions, [])
}

/// Returns whether a row for the state, without conditions, is for this version of the change.
fn hears_version(change: &Text, version: i32, name: &Text, rows: &[OwnedRow]) -> bool
    ensures { result ≡ hears (patterns.Version change.now version) name.now rows.now }
{
    for row in rows {
        if is_at(row, name)
            && (is_unconditional(row.conditions.get())
                && covers_version(&row.job, change, version))
        {
            return true;
        }
    }
    false
}

/// Returns whether a row for the state, without conditions, is for every version of the change.
fn hears_any(change: &Text, name: &Text, rows: &[OwnedRow]) -> bool
    ensures { result ≡ hears (patterns.AnyVersion change.now) name.now rows.now }
{
    for row in rows {
        if is_at(row, name)
            && (is_unconditional(row.conditions.get()) && covers_any_version(&row.job, change))
        {
            return true;
        }
    }
    false
}

/// Returns the place of a version among -1, 0, 1 and so on, counted from 0.
fn version_place(version: i32) -> u64
    ensures place { result ≡ version_place version }
    ensures small { result ≤ 2 ^ 31 }
{
    if version < 0 { 0 } else { version as u64 + 1 }
}

/// Returns the version at a place among -1, 0, 1 and so on.
fn version_at(place: u64) -> i32
    requires { place ≤ 2 ^ 31 }
    ensures { result ≡ version_at place }
{
    if place == 0 { -1 } else { (place - 1) as i32 }
}

/// Returns whether a row for the state, without conditions, is for the version at the place.
fn hears_place(change: &Text, place: u64, name: &Text, rows: &[OwnedRow]) -> bool
    requires { place ≤ 2 ^ 31 }
    ensures { result ≡ hears (patterns.Version change.now (version_at place)) name.now rows.now }
{
    hears_version(change, version_at(place), name, rows)
}

/// Returns whether, in the state, rows without conditions are for each version of the change from
/// one place up to the other, which is excluded.
fn hears_places(change: &Text, from: u64, end: u64, name: &Text, rows: &[OwnedRow]) -> bool
    requires { end ≤ 2 ^ 31 + 1 }
    ensures { result ≡ hears_each change.now (end - from) from name.now rows.now }
{
    for place in from..end {
        if !hears_place(change, place, name, rows) {
            return false;
        }
    }
    true
}

/// Returns whether, in the state, rows without conditions are for each version of the change from
/// the least to the greatest.
fn hears_versions(change: &Text, least: i32, greatest: i32, name: &Text, rows: &[OwnedRow]) -> bool
    ensures { result ≡ hears_versions change.now least greatest name.now rows.now }
{
    let from = version_place(least);
    let end = version_place(greatest) + 1;
    hears_any(change, name, rows) || hears_places(change, from, end, name, rows)
}

/// Returns whether, in the state, rows without conditions are for each version that the command
/// asks for, if it asks.
fn is_heard(name: &Text, rows: &[OwnedRow], template: &CommandTemplate<Text>) -> bool
    ensures { result ≡ is_heard name.now rows.now template.now }
{
    match template {
        CommandTemplate::Ask(change, least, greatest) => {
            hears_versions(change, *least, *greatest, name, rows)
        }
        _ => true,
    }
}

/// Returns whether, in the state, rows without conditions are for each version that the commands
/// ask for.
pub(crate) fn are_heard(name: &Text, rows: &[OwnedRow], templates: &[CommandTemplate<Text>]) -> bool
    ensures { result ≡ are_heard name.now rows.now templates.now }
{
    for template in templates {
        if !is_heard(name, rows, template) {
            return false;
        }
    }
    true
}
