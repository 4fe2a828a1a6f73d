//! Warns of counters of one name.
ghost use Rattle.std.specs.Prelude.{◌≡◌, ◌++◌, ◌≤◌, ◌<◌, length, take, bytes_eq, option_map, option_to_list, IfOk, OnOk};
ghost use Rattle.std.specs.List.{list_any};
ghost use Rattle.serde_json.specs.View.{view};
ghost use Rattle.wh_table_text.specs.Words.{word};
ghost use Rattle.wh_table_text.specs.Numbered.{numbered};
ghost use Rattle.wh_table_check.specs.Counters.{counter_phrases, same_word, is_repeated, repeated, counter_warnings};

use crate::finding::{TableFinding, finding_about};
use serde_json::Value;
use std::alloc::Global;
use wh_events::{OutOfMemory, Text};
use wh_json::field;
use wh_row_rules::OrMemory;
use wh_table_text::{TableFault, phrases_at, word};

/// Returns the phrases of the counters of a table with this value; none without one.
fn counter_phrases(alloc: Global, value: Option<&Value>) -> Result<Vec<Text>, OutOfMemory>
    ensures { IfOk result (λ phrases. phrases.items ≡ counter_phrases (option_map (λ v. view v.now) value.entry)) }
{
    match phrases_at(alloc, TableFault::BadCounters, field(value, "counters")) {
        Ok(phrases) => Ok(phrases),
        Err(OrMemory::OutOfMemory) => Err(OutOfMemory),
        Err(OrMemory::Fault(_)) => Ok(Vec::new(alloc)),
    }
}

/// Returns whether both phrases begin with the same word.
fn same_word(one: &Text, other: &Text) -> bool
    ensures { result ≡ same_word one.now other.now }
{
    word(one.get()) == word(other.get())
}

/// Returns whether one of these phrases begins with the same word.
fn is_repeated(phrases: &[Text], phrase: &Text) -> bool
    ensures { result ≡ is_repeated phrases.now phrase.now }
{
    phrases.iter().any(|other| same_word(phrase, other))
}

/// Adds the warning for the counter of a phrase, if an earlier one has its name; `place` phrases
/// come before it.
fn add_repeated(
    alloc: Global,
    found: &mut Vec<TableFinding>,
    phrases: &[Text],
    place: usize,
    phrase: &Text,
) -> Result<(), OutOfMemory>
    requires { place ≤ length phrases.now }
    ensures { OnOk result (found.new.items ≡ found.old.items ++ repeated phrases.now place phrase.now) }
{
    if is_repeated(&phrases[..place], phrase) {
        let one = finding_about(alloc, "two counters have the name ", word(phrase.get()))?;
        found.push(one)?;
    }
    Ok(())
}

/// Adds the warnings for these phrases of counters.
fn add_all_repeated(
    alloc: Global,
    found: &mut Vec<TableFinding>,
    phrases: &[Text],
) -> Result<(), OutOfMemory>
    ensures { OnOk result (found.new.items ≡ found.old.items ++ numbered (repeated phrases.now) 0 phrases.now) }
{
    for (place, phrase) in phrases.iter().enumerate() {
        add_repeated(alloc, found, phrases, place, phrase)?;
    }
    Ok(())
}

/// Adds the warnings for the counters of a table with this value: one for each that has the name of
/// an earlier one. `OutOfMemory` if there is no memory for them.
pub(crate) fn add_counters(
    alloc: Global,
    found: &mut Vec<TableFinding>,
    value: Option<&Value>,
) -> Result<(), OutOfMemory>
    ensures { OnOk result (found.new.items
        ≡ found.old.items ++ counter_warnings (option_map (λ v. view v.now) value.entry)) }
{
    let phrases = counter_phrases(alloc, value)?;
    add_all_repeated(alloc, found, phrases.as_slice())
}
