//! Reads lists of phrases.
ghost use Rattle.std.specs.Prelude.{◌≡◌, map, option_map};
ghost use Rattle.serde_json.specs.View.{view};
ghost use Rattle.wh_table_text.specs.Words.{phrase};
ghost use Rattle.wh_row_rules.specs.Outcome.{Gives, all_of};
ghost use Rattle.wh_table_text.specs.Phrases.{template_shown};
ghost use Rattle.wh_table_text.specs.Reading.{text_at, one_phrase, texts_of, phrases_at};
ghost use Rattle.wh_table_text.specs.Reading.{template_at, condition_at, effect_at, counter_in};

use crate::copies::{template_copy, text_copy};
use crate::counters::{NamedCounter, counter_of};
use crate::fault::{ReadResult, RowFault, TableFault};
use crate::phrases::{condition_of, effect_of, template_of};
use crate::verbs::command_verb;
use crate::words::PhraseWords;
use serde_json::Value;
use std::alloc::Global;
use wh_events::Text;
use wh_json::list_in;
use wh_row_rules::OrMemory;
use wh_rows::{CommandTemplate, Condition, RowEffect};

/// Returns the fault of the row of this number.
pub(crate) fn in_row(row: u64, fault: RowFault) -> TableFault
    ensures { result ≡ TableFault.InRow row fault }
{
    TableFault::InRow { row, fault }
}

/// Returns the text of a value, or the fault if it is not a text.
fn text_at(alloc: Global, fault: TableFault, value: &Value) -> ReadResult<Text>
    ensures { Gives (λ text. text) result (text_at fault (view value.now)) }
{
    match value.as_str() {
        Some(text) => text_copy(alloc, text),
        None => Err(OrMemory::Fault(fault)),
    }
}

/// Returns the texts of a list of values.
fn each_text(alloc: Global, fault: TableFault, values: &[Value]) -> ReadResult<Vec<Text>>
    ensures { Gives (λ texts. texts.items) result (all_of (map (text_at fault) (map view values.now))) }
{
    let mut texts = Vec::new(alloc);
    for value in values {
        let text = text_at(alloc, fault, value)?;
        texts.push(text)?;
    }
    Ok(texts)
}

/// Returns a text as the only phrase of a list, which is empty if the text is.
fn one_phrase(alloc: Global, text: &str) -> ReadResult<Vec<Text>>
    ensures { Gives (λ texts. texts.items) result (Ok (one_phrase text.now)) }
{
    if text.is_empty() {
        return Ok(Vec::new(alloc));
    }
    let mut texts = Vec::new(alloc);
    let phrase = text_copy(alloc, text)?;
    texts.push(phrase)?;
    Ok(texts)
}

/// Returns the texts of a value that is a list.
fn texts_of(alloc: Global, fault: TableFault, value: &Value) -> ReadResult<Vec<Text>>
    ensures { Gives (λ texts. texts.items) result (texts_of fault (view value.now)) }
{
    match list_in(value) {
        Some(values) => each_text(alloc, fault, values),
        None => Err(OrMemory::Fault(fault)),
    }
}

/// Returns the phrases of a member: a text, or a list of texts. There are none if it is omitted.
pub fn phrases_at(
    alloc: Global,
    fault: TableFault,
    value: Option<&Value>,
) -> Result<Vec<Text>, OrMemory<TableFault>>
    ensures { Gives (λ texts. texts.items) result (phrases_at fault (option_map (λ v. view v.now) value.entry)) }
{
    let Some(value) = value else {
        return Ok(Vec::new(alloc));
    };
    match value.as_str() {
        Some(text) => one_phrase(alloc, text),
        None => texts_of(alloc, fault, value),
    }
}

/// Returns the command that a text describes.
#[tactic(auto, unfolding(crate::specs::Reading::template_at))]
fn template_at(row: u64, text: &str) -> ReadResult<CommandTemplate<&str>>
    ensures { Gives template_shown result (template_at row text.now) }
{
    let phrase = PhraseWords::of(text);
    let Some(verb) = command_verb(phrase.verb) else {
        return Err(OrMemory::Fault(in_row(row, RowFault::UnknownCommand)));
    };
    match template_of(verb, &phrase) {
        Some(template) => Ok(template),
        None => Err(OrMemory::Fault(in_row(row, RowFault::BadCommand))),
    }
}

/// Returns the command that a text describes, with owned texts.
fn own_template_at(alloc: Global, row: u64, text: &Text) -> ReadResult<CommandTemplate<Text>>
    ensures { Gives (λ template. template) result (template_at row text.now) }
{
    let template = template_at(row, text.get())?;
    template_copy(alloc, &template)
}

/// Returns the commands that these texts describe.
pub(crate) fn each_template(
    alloc: Global,
    row: u64,
    texts: &[Text],
) -> ReadResult<Vec<CommandTemplate<Text>>>
    ensures { Gives (λ given. given.items) result (all_of (map (template_at row) texts.now)) }
{
    let mut given = Vec::new(alloc);
    for text in texts {
        let template = own_template_at(alloc, row, text)?;
        given.push(template)?;
    }
    Ok(given)
}

/// Returns the condition that a text describes.
#[tactic(auto, unfolding(crate::specs::Reading::condition_at))]
fn condition_at(row: u64, names: &[NamedCounter], text: &Text) -> ReadResult<Condition>
    ensures { Gives (λ condition. condition) result (condition_at names.now row text.now) }
{
    match condition_of(names, &PhraseWords::of(text.get())) {
        Some(condition) => Ok(condition),
        None => Err(OrMemory::Fault(in_row(row, RowFault::UnknownCondition))),
    }
}

/// Returns the conditions that these texts describe.
pub(crate) fn each_condition(
    alloc: Global,
    row: u64,
    names: &[NamedCounter],
    texts: &[Text],
) -> ReadResult<Vec<Condition>>
    ensures { Gives (λ given. given.items) result (all_of (map (condition_at names.now row) texts.now)) }
{
    let mut given = Vec::new(alloc);
    for text in texts {
        let condition = condition_at(row, names, text)?;
        given.push(condition)?;
    }
    Ok(given)
}

/// Returns the mark (`up`, `zero` or `keep`) that a text describes.
#[tactic(auto, unfolding(crate::specs::Reading::effect_at))]
fn effect_at(row: u64, names: &[NamedCounter], text: &Text) -> ReadResult<RowEffect>
    ensures { Gives (λ effect. effect) result (effect_at names.now row text.now) }
{
    match effect_of(names, &PhraseWords::of(text.get())) {
        Some(effect) => Ok(effect),
        None => Err(OrMemory::Fault(in_row(row, RowFault::UnknownMark))),
    }
}

/// Returns the marks that these texts describe.
pub(crate) fn each_effect(
    alloc: Global,
    row: u64,
    names: &[NamedCounter],
    texts: &[Text],
) -> ReadResult<Vec<RowEffect>>
    ensures { Gives (λ given. given.items) result (all_of (map (effect_at names.now row) texts.now)) }
{
    let mut given = Vec::new(alloc);
    for text in texts {
        let effect = effect_at(row, names, text)?;
        given.push(effect)?;
    }
    Ok(given)
}

/// Returns the counter that a text describes.
fn counter_in(alloc: Global, text: &Text) -> ReadResult<NamedCounter>
    ensures { Gives (λ counter. counter) result (counter_in text.now) }
{
    counter_of(alloc, &PhraseWords::of(text.get()))
}

/// Returns the counters that these texts describe.
pub(crate) fn each_counter(alloc: Global, texts: &[Text]) -> ReadResult<Vec<NamedCounter>>
    ensures { Gives (λ given. given.items) result (all_of (map counter_in texts.now)) }
{
    let mut given = Vec::new(alloc);
    for text in texts {
        let counter = counter_in(alloc, text)?;
        given.push(counter)?;
    }
    Ok(given)
}
