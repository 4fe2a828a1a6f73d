//! Runs a scenario.
ghost use Rattle.std.specs.Prelude.{◌≡◌, ◌++◌, ◌∷◌, [], false, None, Some, Err, IfOk, IfErr, OnOk, map, option_map, bytes_eq};
ghost use Rattle.wh_author_tools.specs.declared.fault.ScenarioFault.TheVariants.{UnknownWorkflow, NoJob, NoArrow};
ghost use Rattle.wh_author_tools.specs.CommandTexts.{commands_text};
ghost use Rattle.wh_author_tools.specs.Scenarios.{jobs_of, no_job_in, parts_of, given_to, left_by, difference, sides_fault, line_fault, after_line, lines_fault, scenario_fault, Tells};

use crate::fault::ScenarioFault;
use crate::jobs::job_of;
use crate::texts::commands_text;
use crate::words::{at_arrow, lines_of, parts_at};
use std::alloc::Global;
use wh_events::{OutOfMemory, Text};
use wh_workflow::{Command, Job, Meter, Workflow, text_of};

/// Returns the fault of a line with words that are not a job, or `OutOfMemory` if there is no
/// memory for the words.
fn no_job(alloc: Global, line: usize, words: &str) -> ScenarioFault
    ensures { Tells result (Some (NoJob line words.now)) }
{
    match text_of(alloc, words) {
        Ok(words) => ScenarioFault::NoJob { line, words },
        Err(_) => ScenarioFault::OutOfMemory,
    }
}

/// Adds a job to the list.
fn add_job(jobs: &mut Vec<Job>, job: Job) -> Result<(), OutOfMemory>
    ensures { OnOk result (jobs.new.items ≡ jobs.old.items ++ job ∷ []) }
{
    jobs.push(job)?;
    Ok(())
}

/// Returns the jobs of the parts of a line.
fn jobs_of(
    alloc: Global,
    kind: &str,
    line: usize,
    parts: &[&str],
) -> Result<Vec<Job>, ScenarioFault>
    ensures jobs { IfOk result (λ jobs. jobs.items ≡ jobs_of kind.now (map (λ part. part.now) parts.now)) }
    ensures all { OnOk result (no_job_in kind.now (map (λ part. part.now) parts.now) ≡ None) }
    ensures fault { IfErr result (λ fault.
        Tells fault (option_map (λ words. NoJob line words) (no_job_in kind.now (map (λ part. part.now) parts.now)))) }
{
    let mut jobs = Vec::new(alloc);
    for part in parts {
        let words = part.trim();
        match job_of(alloc, kind, words)? {
            Some(job) => add_job(&mut jobs, job)?,
            None => return Err(no_job(alloc, line, words)),
        }
    }
    Ok(jobs)
}

/// Gives the jobs to a run, and returns all commands of the run.
fn give<W: Workflow>(
    alloc: Global,
    state: &mut W::State,
    jobs: &[Job],
) -> Result<Vec<Command>, OutOfMemory>
    ensures commands { IfOk result (λ given. given.items ≡ given_to W.program state.old jobs.now) }
    ensures state { OnOk result (state.new ≡ left_by W.program state.old jobs.now) }
{
    let mut given = Vec::new(alloc);
    let mut meter = Meter::new();
    for job in jobs {
        W::step(alloc, state, job, &mut given, &mut meter)?;
    }
    Ok(given)
}

/// Compares the commands with those that the line expects. `Differs` if they are not the same.
fn compare(
    alloc: Global,
    line: usize,
    commands: &[Command],
    wanted: &str,
) -> Result<(), ScenarioFault>
    ensures same { OnOk result (difference line (commands_text commands.now) wanted.now ≡ None) }
    ensures fault { IfErr result (λ fault. Tells fault (difference line (commands_text commands.now) wanted.now)) }
{
    let given = commands_text(alloc, commands)?;
    if given.as_str() == wanted {
        return Ok(());
    }
    Err(ScenarioFault::Differs {
        line,
        given: Text::new(given),
        wanted: text_of(alloc, wanted)?,
    })
}

/// Gives the jobs of a line to a run, and compares its commands with those that the line expects.
/// After an error the state must not be used any more.
fn follow_sides<W: Workflow>(
    alloc: Global,
    kind: &str,
    state: &mut W::State,
    line: usize,
    jobs: &str,
    wanted: &str,
) -> Result<(), ScenarioFault>
    ensures state { OnOk result (state.new ≡ left_by W.program state.old (jobs_of kind.now (parts_of jobs.now))) }
    ensures same { OnOk result (sides_fault W.program kind.now state.old line (Some (jobs.now, wanted.now)) ≡ None) }
    ensures fault { IfErr result (λ fault.
        Tells fault (sides_fault W.program kind.now state.old line (Some (jobs.now, wanted.now)))) }
{
    let parts = parts_at(alloc, jobs, ';')?;
    let jobs = jobs_of(alloc, kind, line, parts.as_slice())?;
    let commands = give::<W>(alloc, state, jobs.as_slice())?;
    compare(alloc, line, commands.as_slice(), wanted.trim())
}

/// Runs one line of a scenario; a blank line is skipped. After an error the state must not be used
/// any more.
fn follow_line<W: Workflow>(
    alloc: Global,
    kind: &str,
    state: &mut W::State,
    line: usize,
    words: &str,
) -> Result<(), ScenarioFault>
    ensures state { OnOk result (state.new ≡ after_line W.program kind.now state.old words.now) }
    ensures same { OnOk result (line_fault W.program kind.now state.old line words.now ≡ None) }
    ensures fault { IfErr result (λ fault. Tells fault (line_fault W.program kind.now state.old line words.now)) }
{
    if words.trim().is_empty() {
        return Ok(());
    }
    match at_arrow(words) {
        Some((jobs, wanted)) => follow_sides::<W>(alloc, kind, state, line, jobs, wanted),
        None => Err(ScenarioFault::NoArrow { line }),
    }
}

/// Runs the lines of a scenario, up to the first that has a fault.
fn follow_lines<W: Workflow>(
    alloc: Global,
    kind: &str,
    state: &mut W::State,
    lines: &[&str],
) -> Result<(), ScenarioFault>
    ensures same { OnOk result
        (lines_fault W.program kind.now state.old 1 (map (λ line. line.now) lines.now) ≡ None) }
    ensures fault { IfErr result (λ fault.
        Tells fault (lines_fault W.program kind.now state.old 1 (map (λ line. line.now) lines.now))) }
{
    for (place, words) in lines.iter().enumerate() {
        follow_line::<W>(alloc, kind, state, place + 1, words)?;
    }
    Ok(())
}

/// Checks that a run of the workflow type `kind` gives the commands that the scenario expects, line
/// by line. It succeeds only if the scenario has no fault (`scenario_fault` in `specs`). An error
/// is the first fault: `UnknownWorkflow` if the type is not registered, and else that of the first
/// line that has no arrow, has words that are not a job, or expects other commands. Or it is
/// `OutOfMemory`.
pub fn follows<W: Workflow>(alloc: Global, kind: &str, scenario: &str) -> Result<(), ScenarioFault>
    ensures follows { OnOk result (scenario_fault W.program kind.now scenario.now ≡ None) }
    ensures fault { IfErr result (λ fault. Tells fault (scenario_fault W.program kind.now scenario.now)) }
    ensures unknown { W.program.knows kind.now ≡ false → result ≡ Err UnknownWorkflow }
{
    if !W::handles(kind) {
        return Err(ScenarioFault::UnknownWorkflow);
    }
    let mut state = W::begin(alloc, kind)?;
    let lines = lines_of(alloc, scenario)?;
    follow_lines::<W>(alloc, kind, &mut state, lines.as_slice())
}
