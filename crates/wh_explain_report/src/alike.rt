//! Finds tasks that are alike except for numbers and times.

ghost use Rattle.std.specs.Prelude.{◌≡◌, option_map};
ghost use Rattle.std.specs.Cmp.Lexicographic.{pointwise};
ghost use Rattle.wh_events.specs.Phrases.{phrase_seen};
ghost use Rattle.wh_explain_report.specs.Alike as alike;

use wh_events::Phrase;
use wh_explain::{Ending, ExplainedTask, Pairing, RecordedEvent, Step};
use wh_phrases::event_phrase;
use wh_view_report::alike_texts;
use wh_workflow::Command;

/// Returns whether two optional words are both absent, or the same except for decimal digits.
fn alike_words(one: Option<&str>, other: Option<&str>) -> bool
    ensures { result ≡ alike.alike_words (option_map (λ s. s.now) one.entry) (option_map (λ s. s.now) other.entry) }
{
    match (one, other) {
        (None, None) => true,
        (Some(one), Some(other)) => alike_texts(one, other),
        _ => false,
    }
}

/// Returns whether two phrases have the same kind, and the same ids and types except for decimal
/// digits.
fn alike_phrases(one: Phrase<'_>, other: Phrase<'_>) -> bool
    ensures { result ≡ alike.alike_phrases (phrase_seen one.entry) (phrase_seen other.entry) }
{
    one.kind == other.kind && alike_words(one.id, other.id) && alike_words(one.name, other.name)
}

/// Returns whether two commands are alike.
fn alike_command(one: &Command, other: &Command) -> bool
    ensures { result ≡ alike.alike_command one.now other.now }
{
    alike_phrases(one.phrase(), other.phrase())
}

/// Returns whether two lists of commands are alike.
fn alike_commands(one: &[Command], other: &[Command]) -> bool
    ensures { result ≡ pointwise alike.alike_command one.now other.now }
{
    if one.len() != other.len() {
        return false;
    }
    for (index, command) in one.iter().enumerate() {
        if !alike_command(command, &other[index]) {
            return false;
        }
    }
    true
}

/// Returns whether two steps have alike jobs and alike commands.
fn alike_step(one: &Step, other: &Step) -> bool
    ensures { result ≡ alike.alike_step one.now other.now }
{
    alike_phrases(one.job().phrase(), other.job().phrase())
        && alike_commands(one.commands(), other.commands())
}

/// Returns whether two lists of steps are alike.
fn alike_steps(one: &[Step], other: &[Step]) -> bool
    ensures { result ≡ pointwise alike.alike_step one.now other.now }
{
    if one.len() != other.len() {
        return false;
    }
    for (index, step) in one.iter().enumerate() {
        if !alike_step(step, &other[index]) {
            return false;
        }
    }
    true
}

/// Returns whether two recorded events are alike.
fn alike_event(one: &RecordedEvent, other: &RecordedEvent) -> bool
    ensures { result ≡ alike.alike_event one.now other.now }
{
    alike_phrases(event_phrase(one), event_phrase(other))
}

/// Returns whether two pairings have no difference between command and event, and have alike
/// commands and alike events.
fn alike_pairing(one: &Pairing, other: &Pairing) -> bool
    ensures { result ≡ alike.alike_pairing one.now other.now }
{
    match (one, other) {
        (
            Pairing::Alike { command, event },
            Pairing::Alike {
                command: other,
                event: second,
            },
        ) => alike_command(command, other) && alike_event(event, second),
        _ => false,
    }
}

/// Returns whether two lists of pairings are alike.
fn alike_pairings(one: &[Pairing], other: &[Pairing]) -> bool
    ensures { result ≡ pointwise alike.alike_pairing one.now other.now }
{
    if one.len() != other.len() {
        return false;
    }
    for (index, pairing) in one.iter().enumerate() {
        if !alike_pairing(pairing, &other[index]) {
            return false;
        }
    }
    true
}

/// Returns whether two tasks are recorded, with alike pairings.
fn alike_endings(one: &Ending, other: &Ending) -> bool
    ensures { result ≡ alike.alike_endings one.now other.now }
{
    match (one, other) {
        (Ending::Recorded { pairings }, Ending::Recorded { pairings: other }) => alike_pairings(
            pairings.get(),
            other.get(),
        ),
        _ => false,
    }
}

/// Returns whether two tasks are alike except for numbers and times: they have alike jobs and
/// commands, are recorded, and their commands are paired with alike events.
#[tactic(auto, unfolding(crate::specs::Alike::alike_tasks))]
pub(crate) fn alike_tasks(one: &ExplainedTask, other: &ExplainedTask) -> bool
    ensures { result ≡ alike.alike_tasks one.now other.now }
{
    alike_steps(one.steps.get(), other.steps.get()) && alike_endings(&one.ending, &other.ending)
}
