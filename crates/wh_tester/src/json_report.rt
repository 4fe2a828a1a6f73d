//! The lines of a report as JSON.

ghost use Rattle.std.specs.Prelude.{◌≡◌, ◌∷◌, ◌++◌, [], Some, OnOk};
ghost use Rattle.std.specs.Fmt.{DisplaysOnOk};
ghost use Rattle.std.specs.Io.KnownBytes.{Appends};
ghost use Rattle.wh_tester.specs.Report.{shown, fault_text};
ghost use Rattle.wh_tester.specs.Json.{escaped_char, escaped, following, event_members, subject_members, fault_members, verdict_members, json_line, open_line, totals_object};

use crate::faults::{ReplayFaultText, UNREGISTERED};
use crate::report::{EventText, event_of, name_of, shown_char, words_of};
use crate::{Line, Verdict};
use std::io::Write;
use std::{fmt, io};
use wh_json::ReadFault;
use wh_replay::Fault;
use wh_workflow::Mismatch;

/// Returns what comes before a character in a string of JSON: a `\` before `"` and `\`.
fn escape_of(c: char) -> &'static str
    ensures { result.now ++ c ∷ [] ≡ escaped_char c }
{
    match c {
        '"' | '\\' => "\\",
        _ => "",
    }
}

/// Writes a name as the report in words shows it, escaped for a string of JSON.
#[tactic(auto, unfolding(crate::specs::Report::shown))]
fn write_escaped<W: fmt::Write>(name: &str, f: &mut fmt::Formatter<W>) -> fmt::Result
    ensures { DisplaysOnOk W.write_str_gives f.old result (Some (escaped (shown name.now))) f.new }
{
    for c in name.chars().take(255) {
        let c = shown_char(c);
        let escape = escape_of(c);
        write!(f, "{escape}{c}")?;
    }
    Ok(())
}

/// A name within a string of JSON, as the report in words shows it.
#[derive(Drop)]
pub struct EscapedName<'a>(pub &'a str);

impl fmt::Display for EscapedName<'_> {
    ghost output = { λ n. Some (escaped (shown n.0.now)) };

    fn fmt<W: fmt::Write>(&self, f: &mut fmt::Formatter<W>) -> fmt::Result {
        write_escaped(self.0, f)
    }
}

/// A fault of the reader, in words, within a string of JSON.
#[derive(Drop)]
struct EscapedFault<'a>(&'a ReadFault);

impl fmt::Display for EscapedFault<'_> {
    ghost output = { λ t. Some (escaped (fault_text t.0.now)) };

    #[tactic(auto, using(crate::proofs::JsonTexts::escaped_by_parts))]
    fn fmt<W: fmt::Write>(&self, f: &mut fmt::Formatter<W>) -> fmt::Result {
        let event = EventText(event_of(self.0));
        let words = words_of(self.0);
        let name = EscapedName(name_of(self.0));
        write!(f, "{event}{words}{name}")
    }
}

/// The event that a fault of the reader is about, as a member after another one.
#[derive(Drop)]
struct EventMember(Option<u64>);

impl fmt::Display for EventMember {
    ghost output = { λ m. Some (following (event_members m.0)) };

    fn fmt<W: fmt::Write>(&self, f: &mut fmt::Formatter<W>) -> fmt::Result {
        match self.0 {
            Some(at) => write!(f, ",\"event\":{at}"),
            None => Ok(()),
        }
    }
}

/// The event or the task that a fault of replay is about, as a member after another one.
#[derive(Drop)]
struct SubjectMember(Fault);

impl fmt::Display for SubjectMember {
    ghost output = { λ m. Some (following (subject_members m.0)) };

    fn fmt<W: fmt::Write>(&self, f: &mut fmt::Formatter<W>) -> fmt::Result {
        match self.0 {
            Fault::NotATask => Ok(()),
            Fault::Place { at, fault: _ } => write!(f, ",\"event\":{at}"),
            Fault::Workflow { at, fault: _ } => write!(f, ",\"task\":{at}"),
            Fault::Mismatch { at, mismatch } => match mismatch {
                Mismatch::Different { event } | Mismatch::CommandMissing { event } => {
                    let event = event.get();
                    write!(f, ",\"event\":{event}")
                }
                Mismatch::CommandExtra { index: _ } => write!(f, ",\"task\":{at}"),
            },
        }
    }
}

/// Writes the members of a fault of replay, after another one.
fn write_fault<W: fmt::Write>(fault: &Fault, f: &mut fmt::Formatter<W>) -> fmt::Result
    ensures { DisplaysOnOk W.write_str_gives f.old result (Some (following (fault_members fault.now))) f.new }
{
    let subject = SubjectMember(*fault);
    let fault = ReplayFaultText(*fault);
    write!(f, ",\"verdict\":\"fault\"{subject},\"fault\":\"{fault}\"")
}

/// The members of a verdict, after another one.
#[derive(Drop)]
struct VerdictMembers<'a>(&'a Verdict);

impl fmt::Display for VerdictMembers<'_> {
    ghost output = { λ m. Some (following (verdict_members m.0.now)) };

    fn fmt<W: fmt::Write>(&self, f: &mut fmt::Formatter<W>) -> fmt::Result {
        match self.0 {
            Verdict::Good(replayed_tasks) => {
                let tasks = replayed_tasks.tasks;
                let live = replayed_tasks.live;
                write!(f, ",\"verdict\":\"ok\",\"tasks\":{tasks},\"live\":{live}")
            }
            Verdict::Unreadable(fault) => {
                let event = EventMember(event_of(fault));
                let fault = EscapedFault(fault);
                write!(
                    f,
                    ",\"verdict\":\"unreadable\"{event},\"fault\":\"{fault}\""
                )
            }
            Verdict::NoCode { kind: _ } => write_fault(&UNREGISTERED, f),
            Verdict::Faulty(fault) => write_fault(fault, f),
            Verdict::OutOfMemory => write!(f, ",\"verdict\":\"out of memory\""),
        }
    }
}

/// Writes the object of a file without its end. The caller can write further members, each after a
/// comma, and then `}` and a line feed. After an error some of it may have been written.
pub fn write_open_json_line<W: Write>(line: &Line, writer: &mut W) -> io::Result<()>
    ensures { OnOk result (Appends (W.contents writer.old) (W.contents writer.new) (open_line line.now)) }
{
    let name = EscapedName(line.name.get());
    let members = VerdictMembers(&line.verdict);
    write!(writer, "{{\"file\":\"{name}\"{members}")
}

/// Writes the object of a file (RFC 8259) on one line, with no spaces between its parts, and a line
/// feed. Its members, in this order:
/// - `file`, the name, shown as in the report in words;
/// - `verdict`, one of `ok`, `unreadable`, `fault` and `out of memory`;
/// - of `ok`: `tasks`, their number, and `live`, whether the last is live;
/// - of `unreadable` and `fault`: `event` or `task`, the number of the one that the fault is about,
///   if there is one; and `fault`, in the words of the other report.
///
/// After an error some of the line may have been written.
pub fn write_json_line<W: Write>(line: &Line, writer: &mut W) -> io::Result<()>
    ensures { OnOk result (Appends (W.contents writer.old) (W.contents writer.new) (json_line line.now)) }
{
    let name = EscapedName(line.name.get());
    let members = VerdictMembers(&line.verdict);
    write!(writer, "{{\"file\":\"{name}\"{members}}}\n")
}

/// Writes the object of the totals on one line: the number of files, and how many of them are good.
/// After an error some of the line may have been written.
pub fn write_json_totals<W: Write>(files: usize, good: usize, writer: &mut W) -> io::Result<()>
    ensures { OnOk result (Appends (W.contents writer.old) (W.contents writer.new) (totals_object files good)) }
{
    write!(writer, "{{\"files\":{files},\"ok\":{good}}}\n")
}
