//! Phrases, whose words are separated by single spaces.
ghost use Rattle.std.specs.Prelude.{◌≡◌, option_map};
ghost use Rattle.wh_table_text.specs.Words.{word, rest, is_none, phrase, phrase_seen, has_none, has_one, has_two, has_pair, has_kind, is_named, name_of};

/// A phrase, split into words.
#[derive(Clone, Copy)]
pub(crate) struct PhraseWords<'a> {
    /// The first word.
    pub verb: &'a str,
    /// All text after the first word.
    pub after: &'a str,
    /// The second word.
    pub first: &'a str,
    /// The third word.
    pub second: &'a str,
    /// All text after the third word.
    pub third: &'a str,
}

/// Returns the first word of a text: all before its first space.
#[tactic(auto, unfolding(crate::specs::Words::word))]
pub fn word(text: &str) -> &str
    ensures { result.now ≡ word text.now }
{
    match text.split_once(' ') {
        Some((word, _)) => word,
        None => text,
    }
}

/// Returns the text after the first word and its space; empty if there is only one word.
#[tactic(auto, unfolding(crate::specs::Words::rest))]
pub fn rest(text: &str) -> &str
    ensures { result.now ≡ rest text.now }
{
    match text.split_once(' ') {
        Some((_, rest)) => rest,
        None => "",
    }
}

/// Returns whether the word is missing.
fn is_none(text: &str) -> bool
    ensures { result ≡ is_none text.now }
{
    text.is_empty()
}

impl<'a> PhraseWords<'a> {
    /// Splits a text into the words of a phrase.
    pub(crate) fn of(text: &'a str) -> Self
        ensures { phrase_seen result ≡ phrase text.now }
    {
        let after = rest(text);
        let more = rest(after);
        PhraseWords {
            verb: word(text),
            after,
            first: word(after),
            second: word(more),
            third: rest(more),
        }
    }

    /// Returns whether there is only the first word.
    pub(crate) fn has_none(&self) -> bool
        ensures { result ≡ has_none (phrase_seen self.now) }
    {
        is_none(self.after)
    }

    /// Returns whether exactly one word follows the first one.
    pub(crate) fn has_one(&self) -> bool
        ensures { result ≡ has_one (phrase_seen self.now) }
    {
        !is_none(self.first) && is_none(self.second) && is_none(self.third)
    }

    /// Returns whether there are exactly two words, the first of them not empty.
    pub(crate) fn is_named(&self) -> bool
        ensures { result ≡ is_named (phrase_seen self.now) }
    {
        !is_none(self.verb) && self.has_one()
    }

    /// Returns whether at least two words follow the first one.
    pub(crate) fn has_two(&self) -> bool
        ensures { result ≡ has_two (phrase_seen self.now) }
    {
        !is_none(self.first) && !is_none(self.second)
    }

    /// Returns whether exactly two words follow the first one.
    pub(crate) fn has_pair(&self) -> bool
        ensures { result ≡ has_pair (phrase_seen self.now) }
    {
        self.has_two() && is_none(self.third)
    }

    /// Returns whether one or two words follow the first one.
    pub(crate) fn has_kind(&self) -> bool
        ensures { result ≡ has_kind (phrase_seen self.now) }
    {
        !is_none(self.first) && is_none(self.third)
    }

    /// Returns the word after the first one, if it is the only other one.
    pub(crate) fn name(&self) -> Option<&'a str>
        ensures { option_map (λ name. name.now) result ≡ name_of (phrase_seen self.now) }
    {
        if self.has_one() {
            Some(self.first)
        } else {
            None
        }
    }
}
