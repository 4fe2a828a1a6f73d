//! What may happen, as phrases say it.
ghost use Rattle.std.specs.Prelude.{◌≡◌, not, ◌&&◌, option_map};
ghost use Rattle.wh_promise_phrases.specs.Things.{thing_shown, is_name, name_in, closing_or_job, thing_in};

use wh_table_text::{rest, word};

/// What may happen in a run, by its texts.
#[derive(Clone, Copy)]
pub enum PhraseThing<T> {
    /// A job comes that the text names, if it does.
    Job(T),
    /// A command is given that starts an activity of this type.
    Activity(T),
    /// One that starts a child of this type.
    Child(T),
    /// One that sends this signal to another workflow.
    Send(T),
    /// One that closes the run with a result.
    Complete,
    /// With a failure.
    Fail,
    /// As canceled.
    Canceled,
    /// One that closes it and starts a new one.
    Continued,
    /// One that closes it, in whichever way.
    Close,
}

/// Returns whether the text is one word.
fn is_name(text: &str) -> bool
    ensures { result ≡ is_name text.now }
{
    !text.is_empty() && word(text) == text
}

/// Returns the name that the text is, if it is one word.
fn name_in(text: &str) -> Option<&str>
    ensures { option_map (λ name. name.now) result ≡ name_in text.now }
{
    if is_name(text) { Some(text) } else { None }
}

/// Returns how the run closes by the text, or the job of the text.
fn closing_or_job(text: &str) -> PhraseThing<&str>
    ensures { thing_shown result ≡ closing_or_job text.now }
{
    if text == "complete" {
        PhraseThing::Complete
    } else if text == "fail" {
        PhraseThing::Fail
    } else if text == "canceled" {
        PhraseThing::Canceled
    } else if text == "continued" {
        PhraseThing::Continued
    } else if text == "close" {
        PhraseThing::Close
    } else {
        PhraseThing::Job(text)
    }
}

/// Returns what may happen by the text that says it: a text that begins with no word for a command,
/// and says no close, is that of a job. `None` if a command has no name, or more words than one.
#[tactic(auto, unfolding(crate::specs::Things::thing_in))]
pub fn thing_in(text: &str) -> Option<PhraseThing<&str>>
    ensures { option_map thing_shown result ≡ thing_in text.now }
{
    let verb = word(text);
    if verb == "activity" {
        Some(PhraseThing::Activity(name_in(rest(text))?))
    } else if verb == "child" {
        Some(PhraseThing::Child(name_in(rest(text))?))
    } else if verb == "send" {
        Some(PhraseThing::Send(name_in(rest(text))?))
    } else {
        Some(closing_or_job(text))
    }
}
