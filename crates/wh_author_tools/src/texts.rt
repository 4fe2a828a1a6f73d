//! Writes commands as text.
ghost use Rattle.std.specs.Prelude.{◌≡◌, Some, IfOk, OnOk, ◌++◌, string_bytes, option_map, codes};
ghost use Rattle.wh_events.specs.Phrases.{phrase_seen};
ghost use Rattle.wh_author_tools.specs.CommandTexts.{word_text, detail_text, phrase_text, payloads_given, content_text, payloads_text, command_text, later_texts, commands_text};

use std::alloc::{AllocError, Global};
use std::fmt;
use wh_events::{Detail, Payload, Phrase};
use wh_workflow::{Command, text_in};

/// Returns the payloads of the input or the result of a command.
fn payloads_given(command: &Command) -> &[Payload]
    ensures { result.now ≡ payloads_given command.now }
{
    match command {
        Command::StartActivity { input, .. }
        | Command::StartChild { input, .. }
        | Command::SignalExternal { input, .. }
        | Command::ContinueAsNew { input, .. } => input.get(),
        Command::Complete { result } => result.get(),
        _ => &[],
    }
}

/// A word after a space, if there is one.
#[derive(Drop)]
struct NextWord<'a>(Option<&'a str>);

impl fmt::Display for NextWord<'_> {
    ghost output = { λ word. Some (word_text (option_map (λ text. text.now) word.0)) };

    fn fmt<W: fmt::Write>(&self, f: &mut fmt::Formatter<W>) -> fmt::Result {
        match self.0 {
            Some(word) => write!(f, " {word}"),
            None => Ok(()),
        }
    }
}

/// The part of a command after its ids and types.
#[derive(Drop)]
struct CommandDetail(Detail);

impl fmt::Display for CommandDetail {
    ghost output = { λ detail. Some (detail_text detail.0) };

    fn fmt<W: fmt::Write>(&self, f: &mut fmt::Formatter<W>) -> fmt::Result {
        match self.0 {
            Detail::Seconds(seconds) => write!(f, " ({seconds} s)"),
            Detail::Version(version) => write!(f, " (version {version})"),
            Detail::Range { min, max } => write!(f, " ({min} to {max})"),
            Detail::Nothing | Detail::Time(_) => Ok(()),
        }
    }
}

/// Returns a command's kind, id and type, and the part after them.
fn phrase_text(alloc: Global, phrase: &Phrase<'_>) -> Result<String, AllocError>
    ensures { IfOk result (λ text. string_bytes text ≡ phrase_text (phrase_seen phrase.now)) }
{
    let kind = phrase.kind;
    let id = NextWord(phrase.id);
    let name = NextWord(phrase.name);
    let detail = CommandDetail(phrase.detail);
    format!(in alloc; "{kind}{id}{name}{detail}")
}

/// Returns the content of a payload, or a question mark if it is not UTF-8.
fn content_text(content: &[u8]) -> &str
    ensures { result.now ≡ content_text content.now }
{
    text_in(content).unwrap_or("?")
}

/// Adds the contents of payloads, each after a space.
fn add_payloads(text: &mut String, payloads: &[Payload]) -> Result<(), AllocError>
    ensures { OnOk result (string_bytes text.new ≡ string_bytes text.old ++ payloads_text payloads.now) }
{
    for payload in payloads {
        text.push_str(" ")?;
        text.push_str(content_text(payload.content.get()))?;
    }
    Ok(())
}

/// Returns a command as `explain` shows it, followed by its payloads.
fn command_text(alloc: Global, command: &Command) -> Result<String, AllocError>
    ensures { IfOk result (λ text. string_bytes text ≡ command_text command.now) }
{
    let mut text = phrase_text(alloc, &command.phrase())?;
    add_payloads(&mut text, payloads_given(command))?;
    Ok(text)
}

/// Adds commands, each after a semicolon and a space.
fn add_later(alloc: Global, text: &mut String, commands: &[Command]) -> Result<(), AllocError>
    ensures { OnOk result (string_bytes text.new ≡ string_bytes text.old ++ later_texts commands.now) }
{
    for command in commands {
        let one = command_text(alloc, command)?;
        text.push_str("; ")?;
        text.push_str(one.as_str())?;
    }
    Ok(())
}

/// Returns commands as a scenario writes them, separated by semicolons. `AllocError` if there is no
/// memory for the text.
pub fn commands_text(alloc: Global, commands: &[Command]) -> Result<String, AllocError>
    ensures { IfOk result (λ text. string_bytes text ≡ commands_text commands.now) }
{
    match commands.split_first() {
        Some((first, rest)) => {
            let mut text = command_text(alloc, first)?;
            add_later(alloc, &mut text, rest)?;
            Ok(text)
        }
        None => Ok(String::new(alloc)),
    }
}
