//! Writes commands and the events in their places as text.

ghost use Rattle.std.specs.Prelude.{◌≡◌, Some};
ghost use Rattle.std.specs.Fmt.{DisplaysOnOk};
ghost use Rattle.wh_phrases.specs.Sides.{both_text, event_text, sends_text, sides_text};

use crate::phrase::{PhraseText, event_phrase};
use std::fmt;
use wh_explained_tasks::{Pairing, RecordedEvent};
use wh_workflow::Command;

/// The number and the phrase of a recorded event.
#[derive(Drop)]
struct RecordedText<'a>(&'a RecordedEvent);

impl fmt::Display for RecordedText<'_> {
    ghost output = { λ t. Some (event_text t.0.now) };

    fn fmt<W: fmt::Write>(&self, f: &mut fmt::Formatter<W>) -> fmt::Result {
        let number = self.0.number.get();
        let phrase = PhraseText(event_phrase(self.0));
        write!(f, "{number} {phrase}")
    }
}

/// The command that is sent.
#[derive(Drop)]
pub struct SendsText<'a>(pub &'a Command);

impl fmt::Display for SendsText<'_> {
    ghost output = { λ t. Some (sends_text t.0.now) };

    fn fmt<W: fmt::Write>(&self, f: &mut fmt::Formatter<W>) -> fmt::Result {
        let phrase = PhraseText(self.0.phrase());
        write!(f, "sends {phrase}")
    }
}

/// Writes the command that is sent and the event that is recorded.
fn write_both<W: fmt::Write>(
    command: &Command,
    event: &RecordedEvent,
    f: &mut fmt::Formatter<W>,
) -> fmt::Result
    ensures { let text = both_text command.now event.now in
        DisplaysOnOk W.write_str_gives f.old result (Some text) f.new }
{
    let sends = SendsText(command);
    let event = RecordedText(event);
    write!(f, "{sends}, recorded {event}")
}

/// A command and the event in its place, as text: what is sent and what is recorded, with `nothing`
/// for the one that is missing.
#[derive(Drop)]
pub struct SidesText<'a>(pub &'a Pairing);

impl fmt::Display for SidesText<'_> {
    ghost output = { λ p. Some (sides_text p.0.now) };

    fn fmt<W: fmt::Write>(&self, f: &mut fmt::Formatter<W>) -> fmt::Result {
        match self.0 {
            Pairing::Alike { command, event } => write_both(command, event, f),
            Pairing::Different { command, event } => write_both(command, event, f),
            Pairing::CommandMissing { event } => {
                let event = RecordedText(event);
                write!(f, "sends nothing, recorded {event}")
            }
            Pairing::CommandExtra { command } => {
                let sends = SendsText(command);
                write!(f, "{sends}, recorded nothing")
            }
        }
    }
}
