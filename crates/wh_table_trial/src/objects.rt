//! Writes the result of a trial as JSON, or in the format that is asked for.
ghost use Rattle.std.specs.Prelude.{◌≡◌, IfOk, string_bytes};
ghost use Rattle.wh_table_trial.specs.Objects.{difference_members, gives_members, no_job_members, object_head};
ghost use Rattle.wh_table_trial.specs.Objects.{reason_member, trial_as, trial_object, verdict_word};

use crate::running::{Trial, TrialDifference};
use crate::texts::trial_text;
use std::alloc::{AllocError, Global};
use wh_console::Format;
use wh_tester::EscapedName;

/// Returns the word for a trial.
fn verdict_word(own: &Trial) -> &'static str
    ensures { result.now ≡ verdict_word own.now }
{
    if own.is_good() { "ok" } else { "fault" }
}

/// Returns the beginning of the object of a file: its name, the verdict, and the number of jobs.
fn object_head(alloc: Global, name: &str, own: &Trial) -> Result<String, AllocError>
    ensures { IfOk result (λ text. string_bytes text ≡ object_head name.now own.now) }
{
    let name = EscapedName(name);
    let verdict = verdict_word(own);
    let jobs = own.steps.get().len();
    format!(in alloc; "{{\"file\":\"{name}\",\"verdict\":\"{verdict}\",\"jobs\":{jobs}")
}

/// Returns the member that says why there is no run.
fn reason_member(alloc: Global, reason: &str) -> Result<String, AllocError>
    ensures { IfOk result (λ text. string_bytes text ≡ reason_member reason.now) }
{
    let reason = EscapedName(reason);
    format!(in alloc; ",\"text\":\"{reason}\"")
}

/// Returns the members for words that are not a job.
fn no_job_members(alloc: Global, line: usize, words: &str) -> Result<String, AllocError>
    ensures { IfOk result (λ text. string_bytes text ≡ no_job_members line words.now) }
{
    let words = EscapedName(words);
    format!(in alloc; ",\"line\":{line},\"text\":\"no job is written `{words}`\"")
}

/// Returns the members for commands that differ.
fn gives_members(
    alloc: Global,
    line: usize,
    given: &str,
    wanted: &str,
) -> Result<String, AllocError>
    ensures { IfOk result (λ text. string_bytes text ≡ gives_members line given.now wanted.now) }
{
    let given = EscapedName(given);
    let wanted = EscapedName(wanted);
    format!(in alloc; ",\"line\":{line},\"expected\":\"{wanted}\",\"gives\":\"{given}\"")
}

/// Returns the members of the difference, if there is one.
fn difference_members(
    alloc: Global,
    difference: &Option<TrialDifference>,
) -> Result<String, AllocError>
    ensures { IfOk result (λ text. string_bytes text ≡ difference_members difference.now) }
{
    match difference {
        None => Ok(String::new(alloc)),
        Some(TrialDifference::NoScenario) => reason_member(alloc, "no scenario"),
        Some(TrialDifference::NoTable { reason }) => reason_member(alloc, reason.get()),
        Some(TrialDifference::NoJob { line, words }) => no_job_members(alloc, *line, words.get()),
        Some(
            TrialDifference::Gives {
                line,
                given,
                wanted,
            },
        ) => gives_members(alloc, *line, given.get(), wanted.get()),
    }
}

/// Returns the object of a file, on a line.
fn trial_object(alloc: Global, name: &str, own: &Trial) -> Result<String, AllocError>
    ensures { IfOk result (λ text. string_bytes text ≡ trial_object name.now own.now) }
{
    let mut text = object_head(alloc, name, own)?;
    let difference = difference_members(alloc, &own.difference)?;
    text.push_str(difference.as_str())?;
    text.push_str("}\n")?;
    Ok(text)
}

/// Returns the result of trying the table in a file of this name. `AllocError` if there is no
/// memory for it.
///
/// As text, each job is a line of a scenario, with the commands that the run gives to it, up to the
/// first line where the run differs. Then comes the line `NAME: ok, N jobs`, or the difference: the
/// number of the line with the expected and the given commands, or with the words that are not a
/// job; or the first fault of the table, or that it has no scenario.
///
/// As JSON (RFC 8259), it is an object on a line, with `file`, `verdict` (`ok` or `fault`) and
/// `jobs`, the number of jobs up to the difference. Of a line that differs it has `line`, and
/// `expected` and `gives`, or a `text` on words that are not a job; where there is no run, a
/// `text` says why. Names and texts are escaped as the report of `replay` escapes names.
pub fn trial_as(
    alloc: Global,
    name: &str,
    own: &Trial,
    format: Format,
) -> Result<String, AllocError>
    ensures { IfOk result (λ text. string_bytes text ≡ trial_as format name.now own.now) }
{
    match format {
        Format::Text => trial_text(alloc, name, own),
        Format::Json => trial_object(alloc, name, own),
    }
}
