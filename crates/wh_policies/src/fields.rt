//! Reads the values of a table's keys.

ghost use Rattle.std.specs.Prelude.{◌≡◌, IfOk, IfSome, IfNone, false, codes, map, option_map};
ghost use Rattle.toml.specs.Data.{as_str, get_member};
ghost use Rattle.toml.specs.View.{view, table_view};
ghost use Rattle.wh_policies.specs.Fields.{GivesNumber, GivesQueue, GivesSeconds, GivesText, GivesTruth};
ghost use Rattle.wh_policies.specs.Fields.{HasTable, number_in, seconds_in};

use crate::fault::{KeyFault, bad_value};
use std::alloc::Global;
use toml::{Table, Value};
use wh_events::Text;

/// Returns the value of a key, if the table has the key.
pub(crate) fn value_at<'a>(table: &'a Table, key: &str) -> Option<&'a Value>
    ensures { option_map (λ v. view v.now) result ≡ get_member key.now (table_view table.now) }
{
    table.get(key)
}

/// Returns a value as a whole number, if it is one within the limits.
fn number_in(value: &Value, least: u32, most: u32) -> Option<u32>
    ensures { result ≡ number_in least most (view value.now) }
{
    let number = u64::try_from(value.as_integer()?).ok()?;
    if least as u64 <= number && number <= most as u64 {
        Some(number as u32)
    } else {
        None
    }
}

/// Returns the whole number of a key, or `otherwise` if the table does not have the key. `Bad` if
/// the value is not a whole number within the limits.
pub(crate) fn number_at(
    alloc: Global,
    table: &Table,
    key: &str,
    least: u32,
    most: u32,
    otherwise: u32,
) -> Result<u32, KeyFault>
    ensures { IfOk result (GivesNumber least most otherwise (get_member key.now (table_view table.now))) }
{
    let Some(value) = value_at(table, key) else {
        return Ok(otherwise);
    };
    match number_in(value, least, most) {
        Some(number) => Ok(number),
        None => Err(bad_value(alloc, key)),
    }
}

/// Returns the seconds of a key, or `otherwise` if the table does not have the key. `Bad` if the
/// value is not a whole number from 1 to `u32::MAX`.
pub(crate) fn seconds_at(
    alloc: Global,
    table: &Table,
    key: &str,
    otherwise: Option<u32>,
) -> Result<Option<u32>, KeyFault>
    ensures { IfOk result (GivesSeconds otherwise (get_member key.now (table_view table.now))) }
{
    let Some(value) = value_at(table, key) else {
        return Ok(otherwise);
    };
    match number_in(value, 1, u32::MAX) {
        Some(seconds) => Ok(Some(seconds)),
        None => Err(bad_value(alloc, key)),
    }
}

/// Returns the boolean of a key, or `otherwise` if the table does not have the key. `Bad` if the
/// value is not a boolean.
pub(crate) fn truth_at(
    alloc: Global,
    table: &Table,
    key: &str,
    otherwise: bool,
) -> Result<bool, KeyFault>
    ensures { IfOk result (GivesTruth otherwise (get_member key.now (table_view table.now))) }
{
    let Some(value) = value_at(table, key) else {
        return Ok(otherwise);
    };
    match value.as_bool() {
        Some(truth) => Ok(truth),
        None => Err(bad_value(alloc, key)),
    }
}

/// Copies a text, if there is one.
fn copy_of(text: &Option<Text>) -> Result<Option<Text>, KeyFault>
    ensures { IfOk result (λ copy. copy ≡ text.now) }
{
    match text {
        Some(text) => Ok(Some(text.try_copy()?)),
        None => Ok(None),
    }
}

/// Returns a value as a text, if it is a string.
pub(crate) fn text_in(value: &Value) -> Option<&str>
    ensures { option_map (λ t. t.now) result ≡ as_str (view value.now) }
{
    value.as_str()
}

/// Returns the text of a key, or `otherwise` if the table does not have the key. `Bad` if the value
/// is not a string.
pub(crate) fn text_at(
    alloc: Global,
    table: &Table,
    key: &str,
    otherwise: &Option<Text>,
) -> Result<Option<Text>, KeyFault>
    ensures { IfOk result (GivesText otherwise.now (get_member key.now (table_view table.now))) }
{
    let Some(value) = value_at(table, key) else {
        return copy_of(otherwise);
    };
    match text_in(value) {
        Some(text) => Ok(Some(Text::new(String::from_str(alloc, text)?))),
        None => Err(bad_value(alloc, key)),
    }
}

/// Returns the Task Queue of the table, or `otherwise` if the table does not have the key. `Bad` if
/// the value is not a string, or is empty: a server refuses an activity with such a queue.
pub(crate) fn queue_at(
    alloc: Global,
    table: &Table,
    otherwise: &Option<Text>,
) -> Result<Option<Text>, KeyFault>
    ensures { IfOk result (GivesQueue otherwise.now (get_member (codes "task_queue") (table_view table.now))) }
{
    let Some(value) = value_at(table, "task_queue") else {
        return copy_of(otherwise);
    };
    match text_in(value) {
        Some(text) if !text.is_empty() => Ok(Some(Text::new(String::from_str(alloc, text)?))),
        _ => Err(bad_value(alloc, "task_queue")),
    }
}

/// Returns the table of a key, or `None` if the key is missing. `Bad` if the value is not a table.
pub(crate) fn table_at<'a>(
    alloc: Global,
    table: &'a Table,
    key: &str,
) -> Result<Option<&'a Table>, KeyFault>
    ensures { IfOk result (λ found. HasTable (option_map (λ t. table_view t.now) found)
        (get_member key.now (table_view table.now))) }
{
    let Some(value) = value_at(table, key) else {
        return Ok(None);
    };
    match value.as_table() {
        Some(found) => Ok(Some(found)),
        None => Err(bad_value(alloc, key)),
    }
}
