//! Warns of promises about what no row of the table is for or gives.
ghost use Rattle.std.specs.Prelude.{◌≡◌, ◌++◌, not, IfOk, OnOk};
ghost use Rattle.std.specs.List.{list_any};
ghost use Rattle.std.specs.Result.{result_ok};
ghost use Rattle.wh_rows.specs.Deciding.{apart};
ghost use Rattle.wh_table_text.specs.Numbered.{numbered};
ghost use Rattle.wh_promise_phrases.specs.Phrases.{phrase_shown, phrase_in};
ghost use Rattle.wh_promise_phrases.specs.Things.{thing_shown};
ghost use Rattle.wh_table_check.specs.Promised.{is_by, gives, is_given, is_heard, hears_job, has_thing, lack_words};
ghost use Rattle.wh_table_check.specs.Promised.{lack_finding, lack, lacks_text, lacks, lacks_of, promise_lacks, promise_warnings};

use crate::finding::TableFinding;
use std::alloc::Global;
use wh_events::{OutOfMemory, Text};
use wh_promise_phrases::{PhraseThing, PromisePhrase, phrase_in, thing_in};
use wh_row_rules::{OrMemory, OwnedRow, PromiseFinding, PromiseFindings, are_apart, closes};
use wh_rows::{CommandTemplate, JobPattern};
use wh_table_text::own_job_at;

/// Returns whether the command makes it happen.
fn is_by(thing: &PhraseThing<&str>, template: &CommandTemplate<Text>) -> bool
    ensures { result ≡ is_by (thing_shown thing.now) template.now }
{
    match thing {
        PhraseThing::Job(_) => false,
        PhraseThing::Activity(name) => match template {
            CommandTemplate::StartActivity(_, kind, _) => kind.get() == *name,
            _ => false,
        },
        PhraseThing::Child(name) => match template {
            CommandTemplate::StartChild(_, kind, _) => kind.get() == *name,
            _ => false,
        },
        PhraseThing::Send(name) => match template {
            CommandTemplate::SignalExternal(_, signal, _) => signal.get() == *name,
            _ => false,
        },
        PhraseThing::Complete => matches!(template, CommandTemplate::Complete(_)),
        PhraseThing::Fail => matches!(template, CommandTemplate::Fail(_)),
        PhraseThing::Canceled => matches!(template, CommandTemplate::Cancel),
        PhraseThing::Continued => matches!(template, CommandTemplate::ContinueAsNew(_, _)),
        PhraseThing::Close => closes(template),
    }
}

/// Returns whether a command of the row makes it happen.
fn gives(thing: &PhraseThing<&str>, row: &OwnedRow) -> bool
    ensures { result ≡ gives (thing_shown thing.now) row.now }
{
    row.gives
        .get()
        .iter()
        .any(|template| is_by(thing, template))
}

/// Returns whether a command of one of the rows makes it happen.
fn is_given(thing: &PhraseThing<&str>, rows: &[OwnedRow]) -> bool
    ensures { result ≡ is_given (thing_shown thing.now) rows.now }
{
    rows.iter().any(|row| gives(thing, row))
}

/// Returns whether one of the rows is for a job of the pattern.
fn is_heard(pattern: &JobPattern<Text>, rows: &[OwnedRow]) -> bool
    ensures { result ≡ is_heard pattern.now rows.now }
{
    rows.iter().any(|row| !are_apart(pattern, &row.job))
}

/// Returns whether one of the rows is for a job that the text names, or it names none.
fn hears_job(alloc: Global, text: &str, rows: &[OwnedRow]) -> Result<bool, OutOfMemory>
    ensures { IfOk result (λ is. is ≡ hears_job text.now rows.now) }
{
    match own_job_at(alloc, 0, text) {
        Ok(pattern) => Ok(is_heard(&pattern, rows)),
        Err(OrMemory::OutOfMemory) => Err(OutOfMemory),
        Err(OrMemory::Fault(_)) => Ok(true),
    }
}

/// Returns whether one of the rows is for it or gives it.
fn has_thing(
    alloc: Global,
    thing: &PhraseThing<&str>,
    rows: &[OwnedRow],
) -> Result<bool, OutOfMemory>
    ensures { IfOk result (λ is. is ≡ has_thing (thing_shown thing.now) rows.now) }
{
    match thing {
        PhraseThing::Job(text) => hears_job(alloc, *text, rows),
        _ => Ok(is_given(thing, rows)),
    }
}

/// Returns what no row does with it.
fn lack_words(thing: &PhraseThing<&str>) -> &'static str
    ensures { result.now ≡ lack_words (thing_shown thing.now) }
{
    match thing {
        PhraseThing::Job(_) => "no row is for ",
        _ => "no row gives ",
    }
}

/// Returns the warning for the promise of this number, about what no row has.
fn lack_finding(
    alloc: Global,
    number: u64,
    thing: &PhraseThing<&str>,
    text: &str,
) -> Result<TableFinding, OutOfMemory>
    ensures { IfOk result (λ finding. finding ≡ lack_finding number (thing_shown thing.now) text.now) }
{
    let words = lack_words(thing);
    Ok(TableFinding {
        row: None,
        text: Text::new(format!(in alloc; "promise {number}: {words}{text}")?),
    })
}

/// Adds the warning for what the text says, if the promise of this number is about that and no row
/// has it.
fn add_thing(
    alloc: Global,
    found: &mut Vec<TableFinding>,
    rows: &[OwnedRow],
    number: u64,
    thing: &PhraseThing<&str>,
    text: &str,
) -> Result<(), OutOfMemory>
    ensures { OnOk result
        (found.new.items ≡ found.old.items ++ lack rows.now number (thing_shown thing.now) text.now) }
{
    if !has_thing(alloc, thing, rows)? {
        let one = lack_finding(alloc, number, thing, text)?;
        found.push(one)?;
    }
    Ok(())
}

/// The same, if the text says something that may happen.
fn add_text(
    alloc: Global,
    found: &mut Vec<TableFinding>,
    rows: &[OwnedRow],
    number: u64,
    text: &str,
) -> Result<(), OutOfMemory>
    ensures { OnOk result (found.new.items ≡ found.old.items ++ lacks_text rows.now number text.now) }
{
    match thing_in(text) {
        Some(thing) => add_thing(alloc, found, rows, number, &thing, text),
        None => Ok(()),
    }
}

/// Adds the warnings for all that the promise of this number is about.
fn add_promise(
    alloc: Global,
    found: &mut Vec<TableFinding>,
    rows: &[OwnedRow],
    number: u64,
    promise: &PromisePhrase<&str>,
) -> Result<(), OutOfMemory>
    ensures { OnOk result
        (found.new.items ≡ found.old.items ++ lacks rows.now number (phrase_shown promise.now)) }
{
    match promise {
        PromisePhrase::AtMost(_, what) => add_text(alloc, found, rows, number, *what),
        PromisePhrase::OnlyAfter(first, what) | PromisePhrase::NeverAfter(first, what) => {
            add_text(alloc, found, rows, number, *first)?;
            add_text(alloc, found, rows, number, *what)
        }
        PromisePhrase::Between(first, last, what) => {
            add_text(alloc, found, rows, number, *first)?;
            add_text(alloc, found, rows, number, *last)?;
            add_text(alloc, found, rows, number, *what)
        }
    }
}

/// Adds the warnings for the phrase of this number, if it says a promise.
fn add_phrase(
    alloc: Global,
    found: &mut Vec<TableFinding>,
    rows: &[OwnedRow],
    number: u64,
    phrase: &str,
) -> Result<(), OutOfMemory>
    ensures { OnOk result (found.new.items ≡ found.old.items ++ lacks_of rows.now number (phrase_in phrase.now)) }
{
    match phrase_in(phrase) {
        Some(promise) => add_promise(alloc, found, rows, number, &promise),
        None => Ok(()),
    }
}

/// Adds the warnings for these promises.
fn add_each(
    alloc: Global,
    found: &mut Vec<TableFinding>,
    rows: &[OwnedRow],
    list: &[PromiseFinding],
) -> Result<(), OutOfMemory>
    ensures { OnOk result (found.new.items ≡ found.old.items ++ numbered (promise_lacks rows.now) 0 list.now) }
{
    for (index, finding) in list.iter().enumerate() {
        add_phrase(alloc, found, rows, index as u64 + 1, finding.phrase.get())?;
    }
    Ok(())
}

/// Adds the warnings for the promises of a table with these rows, promise by promise: for each job
/// that no row is for, and each command that no row gives. So a promise is kept by a word that is
/// misspelt. `OutOfMemory` if there is no memory for them.
pub(crate) fn add_promises(
    alloc: Global,
    found: &mut Vec<TableFinding>,
    rows: &[OwnedRow],
    promises: &PromiseFindings,
) -> Result<(), OutOfMemory>
    ensures { OnOk result (found.new.items ≡ found.old.items ++ promise_warnings rows.now promises.now) }
{
    match promises {
        PromiseFindings::Each(list) => add_each(alloc, found, rows, list.get()),
        _ => Ok(()),
    }
}
