//! Writes jobs, commands and events as text.

ghost use Rattle.std.specs.Prelude.{◌≡◌, Some, option_map};
ghost use Rattle.wh_events.specs.Phrases.{phrase_seen};
ghost use Rattle.wh_phrases.specs.Phrases.{event_phrase, word_text, detail_text, phrase_text};

use crate::times::TimeText;
use std::fmt;
use wh_events::{Detail, Phrase};
use wh_explained_tasks::RecordedEvent;
use wh_tester::Shown;

/// Returns the phrase of a recorded event.
pub fn event_phrase(event: &RecordedEvent) -> Phrase<'_>
    ensures { phrase_seen result ≡ event_phrase event.now }
{
    event.kind.phrase(event.id.get())
}

/// A space and a word, if there is one.
#[derive(Drop)]
struct Word<'a>(Option<&'a str>);

impl fmt::Display for Word<'_> {
    ghost output = { λ w. Some (word_text (option_map (λ s. s.now) w.0)) };

    fn fmt<W: fmt::Write>(&self, f: &mut fmt::Formatter<W>) -> fmt::Result {
        match self.0 {
            Some(word) => {
                let word = Shown(word);
                write!(f, " {word}")
            }
            None => Ok(()),
        }
    }
}

/// The text of what follows the ids and types of a phrase.
#[derive(Clone, Copy)]
struct DetailText(Detail);

impl fmt::Display for DetailText {
    ghost output = { λ d. Some (detail_text d.0) };

    fn fmt<W: fmt::Write>(&self, f: &mut fmt::Formatter<W>) -> fmt::Result {
        match self.0 {
            Detail::Nothing => Ok(()),
            Detail::Time(time) => {
                let time = TimeText(time);
                write!(f, " {time}")
            }
            Detail::Seconds(seconds) => write!(f, " ({seconds} s)"),
            Detail::Version(version) => write!(f, " (version {version})"),
            Detail::Range { min, max } => write!(f, " ({min} to {max})"),
        }
    }
}

/// The text of a phrase, of a job, a command or an event, with names as reports show them.
#[derive(Clone, Copy)]
pub struct PhraseText<'a>(pub Phrase<'a>);

impl fmt::Display for PhraseText<'_> {
    ghost output = { λ p. Some (phrase_text (phrase_seen p.0)) };

    fn fmt<W: fmt::Write>(&self, f: &mut fmt::Formatter<W>) -> fmt::Result {
        let kind = self.0.kind;
        let id = Word(self.0.id);
        let name = Word(self.0.name);
        let detail = DetailText(self.0.detail);
        write!(f, "{kind}{id}{name}{detail}")
    }
}
