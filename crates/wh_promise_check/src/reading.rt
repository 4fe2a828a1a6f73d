//! The promise that a phrase says, about what may happen.
ghost use Rattle.std.specs.Prelude.{◌≡◌, IfOk};
ghost use Rattle.wh_promise_phrases.specs.Phrases.{phrase_shown};
ghost use Rattle.wh_promise_phrases.specs.Things.{thing_shown};
ghost use Rattle.wh_promise_check.specs.Phrases.{job_in, job_happening, happening_by, happening_in, both_in};
ghost use Rattle.wh_promise_check.specs.Phrases.{at_most, only_after, never_after, between, promise_by, promise_in};

use std::alloc::Global;
use wh_events::{OutOfMemory, Text};
use wh_promise_phrases::{PhraseThing, PromisePhrase, phrase_in, thing_in};
use wh_row_rules::OrMemory;
use wh_rows::JobPattern;
use wh_table_promises::{Happening, TablePromise};
use wh_table_text::own_job_at;
use wh_workflow::text_of;

/// The jobs that a text names as rows do, if it names some.
fn job_in(alloc: Global, text: &str) -> Result<Option<JobPattern<Text>>, OutOfMemory>
    ensures { IfOk result (λ found. found ≡ job_in text.now) }
{
    match own_job_at(alloc, 0, text) {
        Ok(pattern) => Ok(Some(pattern)),
        Err(OrMemory::OutOfMemory) => Err(OutOfMemory),
        Err(OrMemory::Fault(_)) => Ok(None),
    }
}

/// That such a job comes.
fn job_happening(alloc: Global, text: &str) -> Result<Option<Happening>, OutOfMemory>
    ensures { IfOk result (λ found. found ≡ job_happening text.now) }
{
    match job_in(alloc, text)? {
        Some(pattern) => Ok(Some(Happening::Comes(pattern))),
        None => Ok(None),
    }
}

/// What may happen. `None` if no job is written so.
fn happening_by(alloc: Global, thing: &PhraseThing<&str>) -> Result<Option<Happening>, OutOfMemory>
    ensures { IfOk result (λ found. found ≡ happening_by (thing_shown thing.now)) }
{
    match thing {
        PhraseThing::Job(text) => job_happening(alloc, *text),
        PhraseThing::Activity(name) => Ok(Some(Happening::StartsActivity(text_of(alloc, *name)?))),
        PhraseThing::Child(name) => Ok(Some(Happening::StartsChild(text_of(alloc, *name)?))),
        PhraseThing::Send(name) => Ok(Some(Happening::SendsSignal(text_of(alloc, *name)?))),
        PhraseThing::Complete => Ok(Some(Happening::Completes)),
        PhraseThing::Fail => Ok(Some(Happening::Fails)),
        PhraseThing::Canceled => Ok(Some(Happening::Cancels)),
        PhraseThing::Continued => Ok(Some(Happening::ContinuesAsNew)),
        PhraseThing::Close => Ok(Some(Happening::Closes)),
    }
}

/// What may happen, by the text that says it. `None` if it says no such thing.
#[tactic(auto, unfolding(crate::specs::Phrases::happening_in))]
fn happening_in(alloc: Global, text: &str) -> Result<Option<Happening>, OutOfMemory>
    ensures { IfOk result (λ found. found ≡ happening_in text.now) }
{
    match thing_in(text) {
        Some(thing) => happening_by(alloc, &thing),
        None => Ok(None),
    }
}

/// Two things that may happen.
#[derive(Drop)]
struct Both {
    first: Happening,
    what: Happening,
}

/// What two texts say. `None` if one of them says nothing that may happen.
fn both_in(alloc: Global, first: &str, what: &str) -> Result<Option<Both>, OutOfMemory>
    ensures { IfOk result (λ found. found ≡ both_in first.now what.now) }
{
    let Some(first) = happening_in(alloc, first)? else {
        return Ok(None);
    };
    match happening_in(alloc, what)? {
        Some(what) => Ok(Some(Both { first, what })),
        None => Ok(None),
    }
}

/// That it happens so many times at most.
fn at_most(alloc: Global, most: u64, what: &str) -> Result<Option<TablePromise>, OutOfMemory>
    ensures { IfOk result (λ found. found ≡ at_most most what.now) }
{
    match happening_in(alloc, what)? {
        Some(what) => Ok(Some(TablePromise::AtMost(most, what))),
        None => Ok(None),
    }
}

/// That the second happens only after the first has.
fn only_after(alloc: Global, first: &str, what: &str) -> Result<Option<TablePromise>, OutOfMemory>
    ensures { IfOk result (λ found. found ≡ only_after first.now what.now) }
{
    match both_in(alloc, first, what)? {
        Some(both) => Ok(Some(TablePromise::OnlyAfter(both.first, both.what))),
        None => Ok(None),
    }
}

/// That the second does not happen once the first has.
fn never_after(alloc: Global, first: &str, what: &str) -> Result<Option<TablePromise>, OutOfMemory>
    ensures { IfOk result (λ found. found ≡ never_after first.now what.now) }
{
    match both_in(alloc, first, what)? {
        Some(both) => Ok(Some(TablePromise::NeverAfter(both.first, both.what))),
        None => Ok(None),
    }
}

/// That the third happens between the first and the second.
fn between(
    alloc: Global,
    first: &str,
    last: &str,
    what: &str,
) -> Result<Option<TablePromise>, OutOfMemory>
    ensures { IfOk result (λ found. found ≡ between first.now last.now what.now) }
{
    let Some(first) = happening_in(alloc, first)? else {
        return Ok(None);
    };
    match both_in(alloc, last, what)? {
        Some(both) => Ok(Some(TablePromise::Between(first, both.first, both.what))),
        None => Ok(None),
    }
}

/// The promise about what may happen. `None` if one of the texts says no such thing.
fn promise_by(
    alloc: Global,
    phrase: &PromisePhrase<&str>,
) -> Result<Option<TablePromise>, OutOfMemory>
    ensures { IfOk result (λ found. found ≡ promise_by (phrase_shown phrase.now)) }
{
    match phrase {
        PromisePhrase::AtMost(most, what) => at_most(alloc, *most, *what),
        PromisePhrase::OnlyAfter(first, what) => only_after(alloc, *first, *what),
        PromisePhrase::NeverAfter(first, what) => never_after(alloc, *first, *what),
        PromisePhrase::Between(first, last, what) => between(alloc, *first, *last, *what),
    }
}

/// The promise that a phrase says. `None` if it says none.
#[tactic(auto, unfolding(crate::specs::Phrases::promise_in))]
pub(crate) fn promise_in(alloc: Global, text: &str) -> Result<Option<TablePromise>, OutOfMemory>
    ensures { IfOk result (λ found. found ≡ promise_in text.now) }
{
    match phrase_in(text) {
        Some(phrase) => promise_by(alloc, &phrase),
        None => Ok(None),
    }
}
