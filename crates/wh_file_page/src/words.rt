//! What is said of a verdict and of a difference, in words.

ghost use Rattle.std.specs.Prelude.{◌≡◌, IfOk};
ghost use Rattle.wh_file_page.specs.Words as words;
ghost use Rattle.wh_tester.specs.Report.{verdict_text};
ghost use Rattle.wh_tester.specs.UnknownTypes.{unregistered_type};

use std::alloc::Global;
use wh_events::{OutOfMemory, Text};
use wh_explain::{Pairing, RecordedEvent};
use wh_file_faults::FaultDetail;
use wh_html::Difference;
use wh_phrases::{PhraseText, event_phrase};
use wh_replay::Fault;
use wh_tester::{Verdict, VerdictText, event_of, unregistered_type};
use wh_workflow::{Command, Mismatch};

/// A text of its own.
pub(crate) fn copy_text(alloc: Global, text: &str) -> Result<Text, OutOfMemory>
    ensures { IfOk result (λ copy. copy ≡ text.now) }
{
    Ok(Text::new(String::from_str(alloc, text)?))
}

/// A verdict, as the report of replay has it.
pub(crate) fn verdict_words(alloc: Global, verdict: &Verdict) -> Result<Text, OutOfMemory>
    ensures { IfOk result (λ text. text ≡ verdict_text verdict.now) }
{
    let verdict = VerdictText(verdict);
    Ok(Text::new(format!(in alloc; "{verdict}")?))
}

/// The place of the event that a difference in the task of a cut is about: that of the event that
/// differs or has no command, and else that of the cut.
fn mismatch_place(at: u64, mismatch: Mismatch) -> u64
    ensures { result ≡ words.mismatch_place at mismatch }
{
    match mismatch {
        Mismatch::Different { event } | Mismatch::CommandMissing { event } => event.get(),
        Mismatch::CommandExtra { index: _ } => at,
    }
}

/// The place of the event that a fault of replay is about, if it is about one.
fn fault_place(fault: Fault) -> Option<u64>
    ensures { result ≡ words.fault_place fault }
{
    match fault {
        Fault::NotATask => None,
        Fault::Place { at, fault: _ } | Fault::Workflow { at, fault: _ } => Some(at),
        Fault::Mismatch { at, mismatch } => Some(mismatch_place(at, mismatch)),
    }
}

/// The place of the event that a verdict is about, if it is about one.
pub(crate) fn verdict_place(verdict: &Verdict) -> Option<u64>
    ensures { result ≡ words.verdict_place verdict.now }
{
    match verdict {
        Verdict::Good(_) | Verdict::OutOfMemory => None,
        Verdict::Unreadable(fault) => event_of(fault),
        Verdict::NoCode { .. } => Some(1),
        Verdict::Faulty(fault) => fault_place(*fault),
    }
}

/// A command, in words.
fn command_words(alloc: Global, command: &Command) -> Result<Text, OutOfMemory>
    ensures { IfOk result (λ text. text ≡ words.command_words command.now) }
{
    let phrase = PhraseText(command.phrase());
    Ok(Text::new(format!(in alloc; "{phrase}")?))
}

/// A recorded event, in words.
fn recorded_words(alloc: Global, event: &RecordedEvent) -> Result<Text, OutOfMemory>
    ensures { IfOk result (λ text. text ≡ words.recorded_words event.now) }
{
    let phrase = PhraseText(event_phrase(event));
    Ok(Text::new(format!(in alloc; "{phrase}")?))
}

/// A command and the event in its place, as both sides of a difference.
fn both_sides(
    alloc: Global,
    command: &Command,
    event: &RecordedEvent,
) -> Result<Difference, OutOfMemory>
    ensures { IfOk result (λ sides. sides ≡ words.both_sides command.now event.now) }
{
    let code = command_words(alloc, command)?;
    let history = recorded_words(alloc, event)?;
    Ok(Difference {
        event: Some(event.number.get()),
        code,
        history,
    })
}

/// Both sides of a difference: what the code gives and what the history has, with `nothing` for the
/// one that is missing.
fn sides_of(alloc: Global, pairing: &Pairing) -> Result<Difference, OutOfMemory>
    ensures { IfOk result (λ sides. sides ≡ words.sides_of pairing.now) }
{
    match pairing {
        Pairing::Alike { command, event } | Pairing::Different { command, event } => both_sides(
            alloc, command, event,
        ),
        Pairing::CommandMissing { event } => {
            let code = copy_text(alloc, "nothing")?;
            let history = recorded_words(alloc, event)?;
            Ok(Difference {
                event: Some(event.number.get()),
                code,
                history,
            })
        }
        Pairing::CommandExtra { command } => {
            let code = command_words(alloc, command)?;
            let history = copy_text(alloc, "nothing")?;
            Ok(Difference {
                event: None,
                code,
                history,
            })
        }
    }
}

/// That of a pairing, if there is one.
pub(crate) fn difference_of(
    alloc: Global,
    pairing: &Option<Pairing>,
) -> Result<Option<Difference>, OutOfMemory>
    ensures { IfOk result (λ difference. difference ≡ words.difference_of pairing.now) }
{
    match pairing {
        Some(pairing) => Ok(Some(sides_of(alloc, pairing)?)),
        None => Ok(None),
    }
}

/// What a fault leaves out, in words.
fn detail_note(alloc: Global, detail: &Option<FaultDetail>) -> Result<Option<Text>, OutOfMemory>
    ensures { IfOk result (λ note. note ≡ words.detail_note detail.now) }
{
    match detail {
        Some(detail) => Ok(Some(Text::new(format!(in alloc; "{detail}")?))),
        None => Ok(None),
    }
}

/// What else there is to say of a verdict: the workflow type that there is no code for, or what its
/// fault leaves out.
pub(crate) fn note_of(
    alloc: Global,
    verdict: &Verdict,
    detail: &Option<FaultDetail>,
) -> Result<Option<Text>, OutOfMemory>
    ensures { IfOk result (λ note. note ≡ words.note_of (unregistered_type verdict.now) detail.now) }
{
    match unregistered_type(verdict) {
        Some(kind) => {
            let note = format!(in alloc; "There is no code for the workflow type {kind}.")?;
            Ok(Some(Text::new(note)))
        }
        None => detail_note(alloc, detail),
    }
}
