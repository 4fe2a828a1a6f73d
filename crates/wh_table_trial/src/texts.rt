//! Writes the result of a trial as text.
ghost use Rattle.std.specs.Prelude.{◌≡◌, IfOk, string_bytes};
ghost use Rattle.wh_table_trial.specs.Texts.{step_text, steps_text, ok_text, no_scenario_text, no_table_text, no_job_text, gives_text, end_text, trial_text};

use crate::running::{Trial, TrialDifference, TrialStep};
use std::alloc::{AllocError, Global};
use wh_tester::Shown;

/// Returns a job and its commands, as a line of a scenario.
fn step_text(alloc: Global, step: &TrialStep) -> Result<String, AllocError>
    ensures { IfOk result (λ text. string_bytes text ≡ step_text step.now) }
{
    let words = step.words.get();
    let given = step.given.get();
    if given.is_empty() {
        format!(in alloc; "{words} =>\n")
    } else {
        format!(in alloc; "{words} => {given}\n")
    }
}

/// Returns jobs and their commands, as lines of a scenario.
fn steps_text(alloc: Global, steps: &[TrialStep]) -> Result<String, AllocError>
    ensures { IfOk result (λ text. string_bytes text ≡ steps_text steps.now) }
{
    let mut text = String::new(alloc);
    for step in steps {
        let line = step_text(alloc, step)?;
        text.push_str(line.as_str())?;
    }
    Ok(text)
}

/// Returns the last line if nothing differs.
fn ok_text(alloc: Global, name: &str, count: usize) -> Result<String, AllocError>
    ensures { IfOk result (λ text. string_bytes text ≡ ok_text name.now count) }
{
    let name = Shown(name);
    format!(in alloc; "{name}: ok, {count} jobs\n")
}

/// Returns the last line for a table that has no scenario.
fn no_scenario_text(alloc: Global, name: &str) -> Result<String, AllocError>
    ensures { IfOk result (λ text. string_bytes text ≡ no_scenario_text name.now) }
{
    let name = Shown(name);
    format!(in alloc; "{name}: no scenario\n")
}

/// Returns the last line for a file that is not a table.
fn no_table_text(alloc: Global, name: &str, reason: &str) -> Result<String, AllocError>
    ensures { IfOk result (λ text. string_bytes text ≡ no_table_text name.now reason.now) }
{
    let name = Shown(name);
    let reason = Shown(reason);
    format!(in alloc; "{name}: {reason}\n")
}

/// Returns the last line for words that are not a job.
fn no_job_text(alloc: Global, name: &str, line: usize, words: &str) -> Result<String, AllocError>
    ensures { IfOk result (λ text. string_bytes text ≡ no_job_text name.now line words.now) }
{
    let name = Shown(name);
    format!(in alloc; "{name}: line {line}: no job is written `{words}`\n")
}

/// Returns the last lines for commands that differ.
fn gives_text(
    alloc: Global,
    name: &str,
    line: usize,
    given: &str,
    wanted: &str,
) -> Result<String, AllocError>
    ensures { IfOk result (λ text. string_bytes text ≡ gives_text name.now line given.now wanted.now) }
{
    let name = Shown(name);
    format!(in alloc; "{name}: line {line} differs\n  expected {wanted}\n  gives    {given}\n")
}

/// Returns the last lines: that nothing differs, or the difference.
fn end_text(alloc: Global, name: &str, own: &Trial) -> Result<String, AllocError>
    ensures { IfOk result (λ text. string_bytes text ≡ end_text name.now own.now) }
{
    match &own.difference {
        None => ok_text(alloc, name, own.steps.get().len()),
        Some(TrialDifference::NoScenario) => no_scenario_text(alloc, name),
        Some(TrialDifference::NoTable { reason }) => no_table_text(alloc, name, reason.get()),
        Some(TrialDifference::NoJob { line, words }) => no_job_text(
            alloc,
            name,
            *line,
            words.get(),
        ),
        Some(
            TrialDifference::Gives {
                line,
                given,
                wanted,
            },
        ) => gives_text(alloc, name, *line, given.get(), wanted.get()),
    }
}

/// Returns the result of trying the table in a file of this name, as text.
pub(crate) fn trial_text(alloc: Global, name: &str, own: &Trial) -> Result<String, AllocError>
    ensures { IfOk result (λ text. string_bytes text ≡ trial_text name.now own.now) }
{
    let mut text = steps_text(alloc, own.steps.get())?;
    let end = end_text(alloc, name, own)?;
    text.push_str(end.as_str())?;
    Ok(text)
}
