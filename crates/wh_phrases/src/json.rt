//! Writes jobs, commands, events and differences as members of JSON.

ghost use Rattle.std.specs.Prelude.{◌≡◌, Some, option_map};
ghost use Rattle.std.specs.Fmt.{DisplaysOnOk};
ghost use Rattle.wh_events.specs.Phrases.{phrase_seen};
ghost use Rattle.wh_phrases.specs.Json.{word_member, detail_members, phrase_json, job_json, command_json};
ghost use Rattle.wh_phrases.specs.Json.{recorded_member, both_members, pairing_members, difference_members};
ghost use Rattle.wh_phrases.specs.Private.Json.{keys_seen};
ghost use Rattle.wh_tester.specs.Json.{following};

use crate::keys::{Keys, command_keys, job_keys, kind_keys};
use crate::phrase::event_phrase;
use crate::times::TimeText;
use std::fmt;
use wh_events::{Detail, Phrase};
use wh_explained_tasks::{Pairing, RecordedEvent};
use wh_tester::EscapedName;
use wh_workflow::{Command, Job};

/// A word, if there is one, as a further member of an object.
#[derive(Drop)]
struct WordMember<'a>(&'static str, Option<&'a str>);

impl fmt::Display for WordMember<'_> {
    ghost output = { λ w. Some (word_member w.0.now (option_map (λ s. s.now) w.1)) };

    fn fmt<W: fmt::Write>(&self, f: &mut fmt::Formatter<W>) -> fmt::Result {
        match self.1 {
            Some(word) => {
                let key = self.0;
                let word = EscapedName(word);
                write!(f, ",\"{key}\":\"{word}\"")
            }
            None => Ok(()),
        }
    }
}

/// The members of what follows the ids and types of a phrase.
#[derive(Clone, Copy)]
struct DetailMembers(Detail);

impl fmt::Display for DetailMembers {
    ghost output = { λ d. Some (detail_members d.0) };

    fn fmt<W: fmt::Write>(&self, f: &mut fmt::Formatter<W>) -> fmt::Result {
        match self.0 {
            Detail::Nothing => Ok(()),
            Detail::Time(time) => {
                let time = TimeText(time);
                write!(f, ",\"time\":\"{time}\"")
            }
            Detail::Seconds(seconds) => write!(f, ",\"seconds\":{seconds}"),
            Detail::Version(version) => write!(f, ",\"version\":{version}"),
            Detail::Range { min, max } => write!(f, ",\"min\":{min},\"max\":{max}"),
        }
    }
}

/// The kind of a phrase as a string, and its other members under their keys.
#[derive(Clone, Copy)]
struct PhraseJson<'a>(Keys, Phrase<'a>);

impl fmt::Display for PhraseJson<'_> {
    ghost output = { λ p. Some (phrase_json (keys_seen p.0) (phrase_seen p.1)) };

    fn fmt<W: fmt::Write>(&self, f: &mut fmt::Formatter<W>) -> fmt::Result {
        let kind = EscapedName(self.1.kind);
        let id = WordMember(self.0.id, self.1.id);
        let name = WordMember(self.0.name, self.1.name);
        let detail = DetailMembers(self.1.detail);
        write!(f, "\"{kind}\"{id}{name}{detail}")
    }
}

/// A job as a string, and its members.
#[derive(Drop)]
pub struct JobJson<'a>(pub &'a Job);

impl fmt::Display for JobJson<'_> {
    ghost output = { λ j. Some (job_json j.0.now) };

    fn fmt<W: fmt::Write>(&self, f: &mut fmt::Formatter<W>) -> fmt::Result {
        let phrase = PhraseJson(job_keys(self.0), self.0.phrase());
        write!(f, "{phrase}")
    }
}

/// A command as a string, and its members.
#[derive(Drop)]
pub struct CommandJson<'a>(pub &'a Command);

impl fmt::Display for CommandJson<'_> {
    ghost output = { λ c. Some (command_json c.0.now) };

    fn fmt<W: fmt::Write>(&self, f: &mut fmt::Formatter<W>) -> fmt::Result {
        let phrase = PhraseJson(command_keys(self.0), self.0.phrase());
        write!(f, "{phrase}")
    }
}

/// A recorded event, as a member.
#[derive(Drop)]
struct RecordedMember<'a>(&'a RecordedEvent);

impl fmt::Display for RecordedMember<'_> {
    ghost output = { λ t. Some (recorded_member t.0.now) };

    fn fmt<W: fmt::Write>(&self, f: &mut fmt::Formatter<W>) -> fmt::Result {
        let number = self.0.number.get();
        let phrase = PhraseJson(kind_keys(&self.0.kind), event_phrase(self.0));
        write!(f, "\"recorded\":{{\"event\":{number},\"type\":{phrase}}}")
    }
}

/// Writes the command that is sent and the event that is recorded, as members.
fn write_both<W: fmt::Write>(
    command: &Command,
    event: &RecordedEvent,
    f: &mut fmt::Formatter<W>,
) -> fmt::Result
    ensures { let text = both_members command.now event.now in
        DisplaysOnOk W.write_str_gives f.old result (Some text) f.new }
{
    let command = CommandJson(command);
    let event = RecordedMember(event);
    write!(f, "\"sends\":{command},{event}")
}

/// A command and the event in its place, as members: what is sent and what is recorded, with `null`
/// for the one that is missing.
#[derive(Drop)]
pub struct PairingMembers<'a>(pub &'a Pairing);

impl fmt::Display for PairingMembers<'_> {
    ghost output = { λ p. Some (pairing_members p.0.now) };

    fn fmt<W: fmt::Write>(&self, f: &mut fmt::Formatter<W>) -> fmt::Result {
        match self.0 {
            Pairing::Alike { command, event } => write_both(command, event, f),
            Pairing::Different { command, event } => write_both(command, event, f),
            Pairing::CommandMissing { event } => {
                let event = RecordedMember(event);
                write!(f, "\"sends\":null,{event}")
            }
            Pairing::CommandExtra { command } => {
                let command = CommandJson(command);
                write!(f, "\"sends\":{command},\"recorded\":null")
            }
        }
    }
}

/// The difference between the command that is sent and the event that is recorded, if there is one,
/// as further members of an object.
#[derive(Drop)]
pub struct DifferenceMembers<'a>(pub Option<&'a Pairing>);

impl fmt::Display for DifferenceMembers<'_> {
    ghost output = { λ m. Some (following (difference_members (option_map (λ p. p.now) m.0))) };

    fn fmt<W: fmt::Write>(&self, f: &mut fmt::Formatter<W>) -> fmt::Result {
        match self.0 {
            None => Ok(()),
            Some(pairing) => {
                let members = PairingMembers(pairing);
                write!(f, ",{members}")
            }
        }
    }
}
