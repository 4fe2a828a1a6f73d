//! Writes an explanation as lines of JSON.

ghost use Rattle.std.specs.Prelude.{◌≡◌, ◌∷◌, ◌++◌, Some, OnOk, codes, option_map};
ghost use Rattle.std.specs.List.{flat_map};
ghost use Rattle.std.specs.Io.KnownBytes.{Appends};
ghost use Rattle.wh_explain_report.specs.Texts.{last_command, steps_as};
ghost use Rattle.wh_explain_report.specs.Json.{gives_object, refuses_object, number_member, told_object};
ghost use Rattle.wh_explain_report.specs.Json.{step_objects, sends_object, pairing_object};
ghost use Rattle.wh_explain_report.specs.Json.{ending_objects, task_objects, unknown_object, last_object};
ghost use Rattle.wh_tester.specs.UnknownTypes.{unregistered_type};
ghost use Rattle.wh_explain_report.specs.Json.{json_explanation};

use crate::selection::selected_or_all;
use std::io::Write;
use std::{fmt, io};
use wh_events::EventNo;
use wh_explain::{
    Ending, ExplainedTask, Explanation, Pairing, Step, differs, left_after, number_of,
};
use wh_phrases::{CommandJson, DifferenceMembers, JobJson, PairingMembers};
use wh_tester::{EscapedName, Line, Verdict, unregistered_type, write_open_json_line};
use wh_view_report::Selection;
use wh_workflow::{Command, Job};

/// The object of the workflow type, if it is not registered.
#[derive(Drop)]
struct UnknownObject<'a>(Option<&'a str>);

impl fmt::Display for UnknownObject<'_> {
    ghost output = { λ u. Some (unknown_object (option_map (λ s. s.now) u.0)) };

    fn fmt<W: fmt::Write>(&self, f: &mut fmt::Formatter<W>) -> fmt::Result {
        match self.0 {
            Some(kind) => {
                let kind = EscapedName(kind);
                write!(f, "{{\"unknownWorkflow\":\"{kind}\"}}\n")
            }
            None => Ok(()),
        }
    }
}

/// Writes the object of the workflow type, if it is not registered.
fn write_unknown<O: Write>(verdict: &Verdict, writer: &mut O) -> io::Result<()>
    ensures { OnOk result (Appends (O.contents writer.old) (O.contents writer.new)
        (unknown_object (unregistered_type verdict.now))) }
{
    let line = UnknownObject(unregistered_type(verdict));
    write!(writer, "{line}")
}

/// Writes an object for each command that was given at a job.
fn write_commands<O: Write>(commands: &[Command], writer: &mut O) -> io::Result<()>
    ensures { OnOk result
        (Appends (O.contents writer.old) (O.contents writer.new) (flat_map gives_object commands.now)) }
{
    for command in commands {
        let command = CommandJson(command);
        write!(writer, "{{\"gives\":{command}}}\n")?;
    }
    Ok(())
}

/// The number of the event of a job, if there is one, as a further member of an object.
#[derive(Clone, Copy)]
struct JobEventMember(Option<EventNo>);

impl fmt::Display for JobEventMember {
    ghost output = { λ n. Some (number_member n.0) };

    fn fmt<W: fmt::Write>(&self, f: &mut fmt::Formatter<W>) -> fmt::Result {
        match self.0 {
            Some(number) => {
                let number = number.get();
                write!(f, ",\"event\":{number}")
            }
            None => Ok(()),
        }
    }
}

/// Writes the object of a job, which comes from the event of the number.
fn write_told<O: Write>(number: Option<EventNo>, job: &Job, writer: &mut O) -> io::Result<()>
    ensures { OnOk result (Appends (O.contents writer.old) (O.contents writer.new) (told_object number job.now)) }
{
    let job = JobJson(job);
    let number = JobEventMember(number);
    write!(writer, "{{\"told\":{job}{number}}}\n")
}

/// Writes the objects of a step, whose job comes from the event of the number.
fn write_step<O: Write>(number: Option<EventNo>, step: &Step, writer: &mut O) -> io::Result<()>
    ensures { OnOk result (Appends (O.contents writer.old) (O.contents writer.new) (step_objects number step.now)) }
{
    write_told(number, step.job(), writer)?;
    write_commands(step.commands(), writer)
}

/// Writes the objects of steps, whose jobs come from the events of these numbers.
fn write_steps<O: Write>(given: &[EventNo], steps: &[Step], writer: &mut O) -> io::Result<()>
    ensures { OnOk result
        (Appends (O.contents writer.old) (O.contents writer.new) (steps_as step_objects given.now steps.now)) }
{
    let mut left = given;
    for step in steps {
        write_step(number_of(step.job(), left), step, writer)?;
        left = left_after(step.job(), left);
    }
    Ok(())
}

/// Writes the object of the command that is refused: the last one of the last step.
fn write_refused<O: Write>(steps: &[Step], writer: &mut O) -> io::Result<()>
    ensures { OnOk result
        (Appends (O.contents writer.old) (O.contents writer.new) (refuses_object (last_command steps.now))) }
{
    let Some(step) = steps.last() else {
        return Ok(());
    };
    let Some(command) = step.commands().last() else {
        return Ok(());
    };
    let command = CommandJson(command);
    write!(writer, "{{\"refuses\":{command}}}\n")
}

/// Writes an object for each command that a task sends that is not recorded yet.
fn write_sent<O: Write>(sent: &[Command], writer: &mut O) -> io::Result<()>
    ensures { OnOk result (Appends (O.contents writer.old) (O.contents writer.new) (flat_map sends_object sent.now)) }
{
    for command in sent {
        let command = CommandJson(command);
        write!(writer, "{{\"sends\":{command}}}\n")?;
    }
    Ok(())
}

/// Writes the object of a command and the event in its place.
fn write_pairing<O: Write>(pairing: &Pairing, writer: &mut O) -> io::Result<()>
    ensures { OnOk result (Appends (O.contents writer.old) (O.contents writer.new) (pairing_object pairing.now)) }
{
    let members = PairingMembers(pairing);
    let differs = differs(pairing);
    write!(writer, "{{{members},\"differs\":{differs}}}\n")
}

/// Writes an object for each command and the event in its place.
fn write_pairings<O: Write>(pairings: &[Pairing], writer: &mut O) -> io::Result<()>
    ensures { OnOk result
        (Appends (O.contents writer.old) (O.contents writer.new) (flat_map pairing_object pairings.now)) }
{
    for pairing in pairings {
        write_pairing(pairing, writer)?;
    }
    Ok(())
}

/// Writes how a task of these steps ends.
fn write_ending<O: Write>(steps: &[Step], ending: &Ending, writer: &mut O) -> io::Result<()>
    ensures { OnOk result
        (Appends (O.contents writer.old) (O.contents writer.new) (ending_objects steps.now ending.now)) }
{
    match ending {
        Ending::Refused => write_refused(steps, writer),
        Ending::Live { sent } => {
            write_sent(sent.get(), writer)?;
            write!(writer, "{{\"live\":true}}\n")
        }
        Ending::Recorded { pairings } => write_pairings(pairings.get(), writer),
    }
}

/// Writes the objects of a task.
fn write_task<O: Write>(task: &ExplainedTask, writer: &mut O) -> io::Result<()>
    ensures { OnOk result (Appends (O.contents writer.old) (O.contents writer.new) (task_objects task.now)) }
{
    let at = task.at.get();
    write!(writer, "{{\"task\":{at}}}\n")?;
    write_steps(task.given.get(), task.steps.get(), writer)?;
    write_ending(task.steps.get(), &task.ending, writer)
}

/// Writes the objects of tasks.
fn write_tasks<O: Write>(tasks: &[ExplainedTask], writer: &mut O) -> io::Result<()>
    ensures { OnOk result (Appends (O.contents writer.old) (O.contents writer.new) (flat_map task_objects tasks.now)) }
{
    for task in tasks {
        write_task(task, writer)?;
    }
    Ok(())
}

/// Writes the object of a file in the report of replay, with the members of the difference that its
/// tasks end in, if they do.
pub(crate) fn write_last<O: Write>(
    line: &Line,
    difference: &Option<Pairing>,
    writer: &mut O,
) -> io::Result<()>
    ensures { let text = last_object line.now difference.now in
        OnOk result (Appends (O.contents writer.old) (O.contents writer.new) text) }
{
    write_open_json_line(line, writer)?;
    let difference = DifferenceMembers(difference.as_ref());
    write!(writer, "{difference}}}\n")
}

/// Writes an explanation as lines of JSON (RFC 8259): one object, with its parts, for each line of
/// the text. It writes the selected tasks, or all if nothing is selected. Each object is on a line
/// of its own, with no spaces between its parts, and each line ends with one line feed. Words are
/// shown as names are in the report of replay.
///
/// The objects, in the order of the text's lines:
/// - `{"unknownWorkflow":"NAME"}`, if the workflow type is not registered;
/// - `{"task":N}` for each task, then for each step `{"told":JOB,"event":N}`, with the number of
///   the event from which the job comes (a job that answers a request for a version has none), and
///   `{"gives":COMMAND}` for each command given at it;
/// - `{"refuses":COMMAND}`, if the last command is invalid;
/// - `{"sends":COMMAND,"recorded":{"event":N,"type":EVENT},"differs":false}` for a command and the
///   event in its place, with `null` for the one that is missing;
/// - `{"sends":COMMAND}` for each command of a task that is not recorded yet, then `{"live":true}`.
///
/// A job, a command or an event is written as its name, followed by its members in Temporal's
/// words, such as `"activityId"`, `"activityType"`, `"timerId"`, `"time"` and `"seconds"`. After an
/// error some of the lines may have been written.
#[tactic(auto, unfolding(crate::specs::Json::json_explanation))]
pub(crate) fn write_json_explanation<O: Write>(
    explanation: &Explanation,
    selection: Option<Selection>,
    writer: &mut O,
) -> io::Result<()>
    ensures { OnOk result
        (Appends (O.contents writer.old) (O.contents writer.new) (json_explanation selection explanation.now)) }
{
    write_unknown(&explanation.verdict, writer)?;
    write_tasks(selected_or_all(selection, explanation.tasks.get()), writer)
}
