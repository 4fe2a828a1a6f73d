//! Reads jobs from the words of a scenario.
ghost use Rattle.std.specs.Prelude.{◌≡◌, IfOk, map, codes};
ghost use Rattle.wh_author_tools.specs.JobTexts.{payload_of, payloads_of, payloads_in, activity_end_of, child_end_of, version_of, version_job, other_job, job_about, takes_words, job_with_id, job_of};

use crate::words::{head_word, parts_at, words_after};
use std::alloc::Global;
use wh_events::{Items, OutOfMemory, Payload, Text};
use wh_workflow::{ActivityEnd, ChildEnd, Job, text_of};

/// Returns the bytes of a text.
fn bytes_of(alloc: Global, text: &str) -> Result<Items<u8>, OutOfMemory>
    ensures { IfOk result (λ bytes. bytes ≡ text.now) }
{
    Ok(Items::new(text.as_bytes().to_vec(alloc)?))
}

/// Returns a word as a payload with the encoding `json/plain`.
fn payload_of(alloc: Global, word: &str) -> Result<Payload, OutOfMemory>
    ensures { IfOk result (λ payload. payload ≡ payload_of word.now) }
{
    Ok(Payload {
        encoding: bytes_of(alloc, "json/plain")?,
        content: bytes_of(alloc, word)?,
    })
}

/// Returns a payload for each word that is not empty.
fn payloads_of(alloc: Global, words: &[&str]) -> Result<Vec<Payload>, OutOfMemory>
    ensures { IfOk result (λ list. list.items ≡ payloads_of (map (λ word. word.now) words.now)) }
{
    let mut list = Vec::new(alloc);
    for word in words {
        if !word.is_empty() {
            let payload = payload_of(alloc, word)?;
            list.push(payload)?;
        }
    }
    Ok(list)
}

/// Returns a payload for each word of a text, split at spaces.
fn payloads_in(alloc: Global, words: &str) -> Result<Items<Payload>, OutOfMemory>
    ensures { IfOk result (λ list. list ≡ payloads_in words.now) }
{
    let words = parts_at(alloc, words, ' ')?;
    let list = payloads_of(alloc, words.as_slice())?;
    Ok(Items::new(list))
}

/// Returns how an activity ended, from its word and the words after its id. `None` if the word is
/// none of `done`, `failed` and so on.
fn activity_end(alloc: Global, word: &str, rest: &str) -> Result<Option<ActivityEnd>, OutOfMemory>
    ensures { IfOk result (λ end. end ≡ activity_end_of word.now rest.now) }
{
    if word == "done" {
        return Ok(Some(ActivityEnd::Completed(payloads_in(alloc, rest)?)));
    }
    if word == "failed" {
        return Ok(Some(ActivityEnd::Failed));
    }
    if word == "timed-out" {
        return Ok(Some(ActivityEnd::TimedOut));
    }
    if word == "canceled" {
        return Ok(Some(ActivityEnd::Canceled));
    }
    Ok(None)
}

/// Returns how a child ended, from its word and the words after its id. `None` if the word is none
/// of `child-done`, `child-failed` and so on.
fn child_end(alloc: Global, word: &str, rest: &str) -> Result<Option<ChildEnd>, OutOfMemory>
    ensures { IfOk result (λ end. end ≡ child_end_of word.now rest.now) }
{
    if word == "child-done" {
        return Ok(Some(ChildEnd::Completed(payloads_in(alloc, rest)?)));
    }
    if word == "child-failed" {
        return Ok(Some(ChildEnd::Failed));
    }
    if word == "child-canceled" {
        return Ok(Some(ChildEnd::Canceled));
    }
    if word == "child-timed-out" {
        return Ok(Some(ChildEnd::TimedOut));
    }
    if word == "child-terminated" {
        return Ok(Some(ChildEnd::Terminated));
    }
    if word == "child-not-started" {
        return Ok(Some(ChildEnd::StartFailed));
    }
    Ok(None)
}

/// Returns the number of a version: decimal digits, with an optional sign, that fit into 32 bits.
fn version_of(number: &str) -> Option<i32>
    ensures { result ≡ version_of number.now }
{
    number.parse::<i32>().ok()
}

/// Returns the job of these words if it is not the end of an activity or a child: a signal, a timer
/// that fired, a child that started, or a version. `None` if they are none of these.
fn other_job(alloc: Global, word: &str, id: &str, rest: &str) -> Result<Option<Job>, OutOfMemory>
    ensures { IfOk result (λ job. job ≡ other_job word.now id.now rest.now) }
{
    let id = text_of(alloc, id)?;
    if word == "signal" {
        let input = payloads_in(alloc, rest)?;
        return Ok(Some(Job::Signal { name: id, input }));
    }
    if word == "fired" {
        return Ok(Some(Job::TimerFired { id }));
    }
    if word == "child-started" {
        return Ok(Some(Job::ChildStarted { workflow_id: id }));
    }
    if word == "version" {
        return Ok(version_job(id, rest));
    }
    Ok(None)
}

/// Returns the job that gives the version of a change. `None` if the number is invalid.
fn version_job(change_id: Text, number: &str) -> Option<Job>
    ensures { result ≡ version_job change_id number.now }
{
    match version_of(number) {
        Some(version) => Some(Job::Version { change_id, version }),
        None => None,
    }
}

/// Returns the job of a word, an id, and the words after it. `None` if they are not a job.
fn job_about(alloc: Global, word: &str, id: &str, rest: &str) -> Result<Option<Job>, OutOfMemory>
    ensures { IfOk result (λ job. job ≡ job_about word.now id.now rest.now) }
{
    if let Some(end) = activity_end(alloc, word, rest)? {
        let id = text_of(alloc, id)?;
        return Ok(Some(Job::Activity { id, end }));
    }
    if let Some(end) = child_end(alloc, word, rest)? {
        let workflow_id = text_of(alloc, id)?;
        return Ok(Some(Job::Child { workflow_id, end }));
    }
    other_job(alloc, word, id, rest)
}

/// Returns whether such a job takes words after its id: payloads, or the number of a version.
fn takes_words(word: &str) -> bool
    ensures { result ≡ takes_words word.now }
{
    word == "done" || word == "child-done" || word == "signal" || word == "version"
}

/// Returns the job of a word and the words after it, which begin with an id, a signal name or a
/// change id. `None` if they are not a job.
fn job_with_id(alloc: Global, word: &str, rest: &str) -> Result<Option<Job>, OutOfMemory>
    ensures { IfOk result (λ job. job ≡ job_with_id word.now rest.now) }
{
    let id = head_word(rest);
    let rest = words_after(rest);
    if id.is_empty() {
        return Ok(None);
    }
    if rest.is_empty() || takes_words(word) {
        return job_about(alloc, word, id, rest);
    }
    Ok(None)
}

/// Returns the job that the words describe, for a run of the workflow type `kind`. `None` if they
/// are not a job. `OutOfMemory` if there is no memory for it.
pub fn job_of(alloc: Global, kind: &str, words: &str) -> Result<Option<Job>, OutOfMemory>
    ensures { IfOk result (λ job. job ≡ job_of kind.now words.now) }
{
    let word = head_word(words);
    let rest = words_after(words);
    if word == "start" {
        let input = payloads_in(alloc, rest)?;
        let workflow = text_of(alloc, kind)?;
        return Ok(Some(Job::Start { workflow, input }));
    }
    if words == "cancel" {
        return Ok(Some(Job::CancelRequested));
    }
    job_with_id(alloc, word, rest)
}
