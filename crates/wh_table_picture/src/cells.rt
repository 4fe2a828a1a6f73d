//! The words that a table has for its rows.
ghost use Rattle.std.specs.Prelude.{◌≡◌, ◌++◌, IfOk, OnOk, map, option_map, string_bytes};
ghost use Rattle.std.specs.List.{flat_map};
ghost use Rattle.serde_json.specs.View.{view};
ghost use Rattle.wh_table_picture.specs.Cells.{text_or_none, joined, after_comma, listed_words, words_at, title_of};

use serde_json::Value;
use std::alloc::{AllocError, Global};
use wh_json::{field, list_in};

/// The text that a value is, or an empty one.
fn text_or_none(value: &Value) -> &str
    ensures { result.now ≡ text_or_none (view value.now) }
{
    match value.as_str() {
        Some(text) => text,
        None => "",
    }
}

/// Adds the texts of values, each after a semicolon.
fn add_words(text: &mut String, values: &[Value]) -> Result<(), AllocError>
    ensures { OnOk result (string_bytes text.new
        ≡ string_bytes text.old ++ flat_map after_comma (map view values.now)) }
{
    for value in values {
        text.push_str("; ")?;
        text.push_str(text_or_none(value))?;
    }
    Ok(())
}

/// The texts of a list, with a semicolon between each and the next.
fn join_texts(alloc: Global, values: &[Value]) -> Result<String, AllocError>
    ensures { IfOk result (λ text. string_bytes text ≡ joined (map view values.now)) }
{
    let [first, others @ ..] = values else {
        return Ok(String::new(alloc));
    };
    let mut text = String::from_str(alloc, text_or_none(first))?;
    add_words(&mut text, others)?;
    Ok(text)
}

/// The words of a value: its texts if it is a list, or the text that it is.
fn listed_words(alloc: Global, value: &Value) -> Result<String, AllocError>
    ensures { IfOk result (λ text. string_bytes text ≡ listed_words (view value.now)) }
{
    match list_in(value) {
        Some(values) => join_texts(alloc, values),
        None => String::from_str(alloc, text_or_none(value)),
    }
}

/// The words of the member of a row at an index. They are empty if it is left out.
pub(crate) fn words_at(alloc: Global, row: &Value, index: usize) -> Result<String, AllocError>
    ensures { IfOk result (λ text. string_bytes text ≡ words_at index (view row.now)) }
{
    match row.get(index) {
        Some(value) => listed_words(alloc, value),
        None => Ok(String::new(alloc)),
    }
}

/// The title of a table, or an empty one.
pub(crate) fn title_of(value: &Value) -> &str
    ensures { result.now ≡ title_of (view value.now) }
{
    match field(Some(value), "title") {
        Some(title) => text_or_none(title),
        None => "",
    }
}
