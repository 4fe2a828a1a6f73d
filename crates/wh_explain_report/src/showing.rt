//! Writes an explanation as text.

ghost use Rattle.std.specs.Prelude.{◌≡◌, ◌∷◌, ◌++◌, Some, OnOk, codes, option_map};
ghost use Rattle.std.specs.List.{flat_map};
ghost use Rattle.std.specs.Io.KnownBytes.{Appends};
ghost use Rattle.wh_explain_report.specs.Texts.{differs_text, gives_line, last_command, pairing_line};
ghost use Rattle.wh_explain_report.specs.Texts.{refuses_line, sends_line};
ghost use Rattle.wh_explain_report.specs.Texts.{ending_text, number_text, step_text, steps_as, task_text, told_line};
ghost use Rattle.wh_explain_report.specs.Explanations.{explanation_text};
ghost use Rattle.wh_explain_report.specs.Texts.{unknown_line};
ghost use Rattle.wh_tester.specs.UnknownTypes.{unregistered_type};

use crate::tasks::write_chosen;
use std::io::Write;
use std::{fmt, io};
use wh_events::EventNo;
use wh_explain::{
    Ending, ExplainedTask, Explanation, Pairing, Step, differs, left_after, number_of,
};
use wh_phrases::{PhraseText, SendsText, SidesText};
use wh_tester::{NoCodeText, Verdict, is_good, unregistered_type};
use wh_view_report::Selection;
use wh_workflow::{Command, Job};

/// Returns the words for a pairing that differs; nothing if it does not.
fn differs_text(pairing: &Pairing) -> &'static str
    ensures { result.now ≡ differs_text pairing.now }
{
    if differs(pairing) { ", differs" } else { "" }
}

/// The line of the workflow type, if it is not registered.
#[derive(Drop)]
struct UnknownLine<'a>(Option<&'a str>);

impl fmt::Display for UnknownLine<'_> {
    ghost output = { λ u. Some (unknown_line (option_map (λ s. s.now) u.0)) };

    fn fmt<W: fmt::Write>(&self, f: &mut fmt::Formatter<W>) -> fmt::Result {
        match self.0 {
            Some(kind) => {
                let text = NoCodeText(kind);
                write!(f, "{text}\n")
            }
            None => Ok(()),
        }
    }
}

/// Writes the line of the workflow type, if it is not registered.
fn write_unknown<O: Write>(verdict: &Verdict, writer: &mut O) -> io::Result<()>
    ensures { OnOk result (Appends (O.contents writer.old) (O.contents writer.new)
        (unknown_line (unregistered_type verdict.now))) }
{
    let line = UnknownLine(unregistered_type(verdict));
    write!(writer, "{line}")
}

/// Writes a line for each command that was given at a job.
fn write_commands<O: Write>(commands: &[Command], writer: &mut O) -> io::Result<()>
    ensures { OnOk result (Appends (O.contents writer.old) (O.contents writer.new) (flat_map gives_line commands.now)) }
{
    for command in commands {
        let phrase = PhraseText(command.phrase());
        write!(writer, "    gives {phrase}\n")?;
    }
    Ok(())
}

/// The number of the event of a job, if there is one.
#[derive(Clone, Copy)]
struct NumberText(Option<EventNo>);

impl fmt::Display for NumberText {
    ghost output = { λ n. Some (number_text n.0) };

    fn fmt<W: fmt::Write>(&self, f: &mut fmt::Formatter<W>) -> fmt::Result {
        match self.0 {
            Some(number) => {
                let number = number.get();
                write!(f, " (event {number})")
            }
            None => Ok(()),
        }
    }
}

/// Writes the line of a job, which comes from the event of the number.
fn write_told<O: Write>(number: Option<EventNo>, job: &Job, writer: &mut O) -> io::Result<()>
    ensures { OnOk result (Appends (O.contents writer.old) (O.contents writer.new) (told_line number job.now)) }
{
    let phrase = PhraseText(job.phrase());
    let number = NumberText(number);
    write!(writer, "  told {phrase}{number}\n")
}

/// Writes the lines of a step, whose job comes from the event of the number.
fn write_step<O: Write>(number: Option<EventNo>, step: &Step, writer: &mut O) -> io::Result<()>
    ensures { OnOk result (Appends (O.contents writer.old) (O.contents writer.new) (step_text number step.now)) }
{
    write_told(number, step.job(), writer)?;
    write_commands(step.commands(), writer)
}

/// Writes the lines of steps, whose jobs come from the events of these numbers.
fn write_steps<O: Write>(given: &[EventNo], steps: &[Step], writer: &mut O) -> io::Result<()>
    ensures { OnOk result
        (Appends (O.contents writer.old) (O.contents writer.new) (steps_as step_text given.now steps.now)) }
{
    let mut left = given;
    for step in steps {
        write_step(number_of(step.job(), left), step, writer)?;
        left = left_after(step.job(), left);
    }
    Ok(())
}

/// Writes the line of the command that is refused: the last one of the last step.
fn write_refused<O: Write>(steps: &[Step], writer: &mut O) -> io::Result<()>
    ensures { OnOk result
        (Appends (O.contents writer.old) (O.contents writer.new) (refuses_line (last_command steps.now))) }
{
    let Some(step) = steps.last() else {
        return Ok(());
    };
    let Some(command) = step.commands().last() else {
        return Ok(());
    };
    let phrase = PhraseText(command.phrase());
    write!(writer, "  refuses {phrase}\n")
}

/// Writes a line for each command that a task sends that is not recorded yet.
fn write_sent<O: Write>(sent: &[Command], writer: &mut O) -> io::Result<()>
    ensures { OnOk result (Appends (O.contents writer.old) (O.contents writer.new) (flat_map sends_line sent.now)) }
{
    for command in sent {
        let sends = SendsText(command);
        write!(writer, "  {sends}\n")?;
    }
    Ok(())
}

/// Writes the line of a command and the event in its place.
#[tactic(auto, unfolding(crate::specs::Texts::pairing_line))]
fn write_pairing<O: Write>(pairing: &Pairing, writer: &mut O) -> io::Result<()>
    ensures { OnOk result (Appends (O.contents writer.old) (O.contents writer.new) (pairing_line pairing.now)) }
{
    let sides = SidesText(pairing);
    let differs = differs_text(pairing);
    write!(writer, "  {sides}{differs}\n")
}

/// Writes a line for each command and the event in its place.
fn write_pairings<O: Write>(pairings: &[Pairing], writer: &mut O) -> io::Result<()>
    ensures { OnOk result
        (Appends (O.contents writer.old) (O.contents writer.new) (flat_map pairing_line pairings.now)) }
{
    for pairing in pairings {
        write_pairing(pairing, writer)?;
    }
    Ok(())
}

/// Writes how a task of these steps ends.
fn write_ending<O: Write>(steps: &[Step], ending: &Ending, writer: &mut O) -> io::Result<()>
    ensures { OnOk result
        (Appends (O.contents writer.old) (O.contents writer.new) (ending_text steps.now ending.now)) }
{
    match ending {
        Ending::Refused => write_refused(steps, writer),
        Ending::Live { sent } => {
            write_sent(sent.get(), writer)?;
            write!(writer, "  not recorded yet\n")
        }
        Ending::Recorded { pairings } => write_pairings(pairings.get(), writer),
    }
}

/// Writes the lines of a task.
pub(crate) fn write_task<O: Write>(task: &ExplainedTask, writer: &mut O) -> io::Result<()>
    ensures { OnOk result (Appends (O.contents writer.old) (O.contents writer.new) (task_text task.now)) }
{
    let at = task.at.get();
    write!(writer, "task at {at}\n")?;
    write_steps(task.given.get(), task.steps.get(), writer)?;
    write_ending(task.steps.get(), &task.ending, writer)
}

/// Writes the lines of tasks.
pub(crate) fn write_tasks<O: Write>(tasks: &[ExplainedTask], writer: &mut O) -> io::Result<()>
    ensures { OnOk result (Appends (O.contents writer.old) (O.contents writer.new) (flat_map task_text tasks.now)) }
{
    for task in tasks {
        write_task(task, writer)?;
    }
    Ok(())
}

/// Writes an explanation as text: the workflow type, if it is not registered, and the lines of the
/// tasks in their order. Each line ends with one line feed, and each name is shown as in the report
/// of replay.
///
/// If tasks are selected, those are written. The tasks around an event are the first that starts at
/// that event or after it, the two before it and the two after it. If nothing is selected and the
/// history has no fault, all tasks are written, but of adjacent tasks that are alike except for
/// numbers and times only the first. If nothing is selected and the history has a fault, the last
/// task is written, which has the fault, and before it the last four that are about the same
/// activities, timers, child workflows and changes. A line says how many tasks are left out or
/// alike.
///
/// After an error some of the text may have been written.
#[tactic(auto, unfolding(crate::specs::Explanations::explanation_text))]
pub(crate) fn write_explanation<O: Write>(
    explanation: &Explanation,
    selection: Option<Selection>,
    writer: &mut O,
) -> io::Result<()>
    ensures { OnOk result
        (Appends (O.contents writer.old) (O.contents writer.new) (explanation_text selection explanation.now)) }
{
    write_unknown(&explanation.verdict, writer)?;
    let good = is_good(&explanation.verdict);
    write_chosen(selection, good, explanation.tasks.get(), writer)
}
