//! Which promise a phrase says.
ghost use Rattle.std.specs.Prelude.{◌≡◌, option_map};
ghost use Rattle.wh_promise_phrases.specs.Phrases.{phrase_shown, at_most_in, pair_in, last_in, between_in, phrase_in};

use crate::marks::{at_colon, at_comma};
use wh_table_text::{number_in, rest, word};

/// A promise, by the texts of what may happen.
#[derive(Clone, Copy)]
pub enum PromisePhrase<T> {
    /// It happens so many times at most.
    AtMost(u64, T),
    /// The second happens only after the first has.
    OnlyAfter(T, T),
    /// Once the first has happened, the second does not happen any more.
    NeverAfter(T, T),
    /// Between the first time that the first happens and any later one of the second, the third
    /// happens.
    Between(T, T, T),
}

/// `most N WHAT`.
fn at_most_in(text: &str) -> Option<PromisePhrase<&str>>
    ensures { option_map phrase_shown result ≡ at_most_in text.now }
{
    if word(text) != "most" {
        return None;
    }
    let given = rest(text);
    let most = number_in(word(given))?;
    Some(PromisePhrase::AtMost(most, rest(given)))
}

/// FIRST and WHAT of `after FIRST: WHAT`.
fn pair_in(text: &str) -> Option<(&str, &str)>
    ensures { option_map (λ sides. (sides.0.now, sides.1.now)) result ≡ pair_in text.now }
{
    if word(text) == "after" {
        at_colon(rest(text))
    } else {
        None
    }
}

/// LAST and WHAT of `before LAST: WHAT`.
fn last_in(text: &str) -> Option<(&str, &str)>
    ensures { option_map (λ sides. (sides.0.now, sides.1.now)) result ≡ last_in text.now }
{
    if word(text) == "before" {
        at_colon(rest(text))
    } else {
        None
    }
}

/// `FIRST, before LAST: WHAT`.
fn between_in(text: &str) -> Option<PromisePhrase<&str>>
    ensures { option_map phrase_shown result ≡ between_in text.now }
{
    let (first, second) = at_comma(text)?;
    let (last, what) = last_in(second)?;
    Some(PromisePhrase::Between(first, last, what))
}

/// Returns the promise that a phrase says, by the texts of what may happen, whatever these texts are.
/// `None` if it says none.
#[tactic(auto, unfolding(crate::specs::Phrases::phrase_in))]
pub fn phrase_in(text: &str) -> Option<PromisePhrase<&str>>
    ensures { option_map phrase_shown result ≡ phrase_in text.now }
{
    let verb = word(text);
    let given = rest(text);
    if verb == "at" {
        at_most_in(given)
    } else if verb == "after" {
        between_in(given)
    } else if verb == "only" {
        let (first, what) = pair_in(given)?;
        Some(PromisePhrase::OnlyAfter(first, what))
    } else if verb == "never" {
        let (first, what) = pair_in(given)?;
        Some(PromisePhrase::NeverAfter(first, what))
    } else {
        None
    }
}
