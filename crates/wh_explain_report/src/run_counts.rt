//! How many runs of an overview of histories have each status.

ghost use Rattle.std.specs.Prelude.{◌≡◌, ◌++◌, IfOk, OnOk, Some, bytes_eq, codes, decimal};
ghost use Rattle.std.specs.Io.KnownBytes.{Appends};
ghost use Rattle.wh_explain_report.specs.RunCounts as counts;

use crate::run_facts::status_phrase;
use std::io::Write;
use std::{fmt, io};
use wh_view::RunStatus;

/// Returns the status of a run in words, or that a file has no run that can be told.
fn phrase_of(status: Option<RunStatus>) -> &'static str
    ensures { result.now ≡ counts.phrase_of status }
{
    match status {
        Some(status) => status_phrase(status),
        None => "unreadable",
    }
}

/// Returns whether a file is told by the phrase.
fn is_told_by(phrase: &str, status: Option<RunStatus>) -> bool
    ensures { result ≡ bytes_eq (counts.phrase_of status) phrase.now }
{
    phrase_of(status) == phrase
}

/// Returns how many of the files are told by the phrase.
fn count_of(phrase: &str, statuses: &[Option<RunStatus>]) -> usize
    ensures { result ≡ counts.count_of phrase.now statuses.now }
{
    statuses
        .iter()
        .filter(|status| is_told_by(phrase, **status))
        .count()
}

/// Returns how many runs there are.
fn run_count(statuses: &[Option<RunStatus>]) -> usize
    ensures { result ≡ counts.run_count statuses.now }
{
    statuses.iter().filter(|status| status.is_some()).count()
}

/// So many runs after a separator; nothing if there are none.
#[derive(Clone, Copy)]
struct CountText(&'static str, usize, &'static str);

impl fmt::Display for CountText {
    ghost output = { λ c. Some (counts.count_text c.0.now c.1 c.2.now) };

    fn fmt<W: fmt::Write>(&self, f: &mut fmt::Formatter<W>) -> fmt::Result {
        let count = self.1;
        if count == 0 {
            return Ok(());
        }
        let separator = self.0;
        let phrase = self.2;
        write!(f, "{separator}{count} {phrase}")
    }
}

/// Writes the number of the runs that the phrase tells, after a separator, if there are some, and
/// returns what separates the next number.
fn write_count<O: Write>(
    separator: &'static str,
    phrase: &'static str,
    statuses: &[Option<RunStatus>],
    writer: &mut O,
) -> io::Result<&'static str>
    ensures written { OnOk result (Appends (O.contents writer.old) (O.contents writer.new)
        (counts.count_text separator.now (counts.count_of phrase.now statuses.now) phrase.now)) }
    ensures next { IfOk result (λ next. next.now ≡
        counts.separator_after separator.now (counts.count_of phrase.now statuses.now)) }
{
    let count = count_of(phrase, statuses);
    let text = CountText(separator, count, phrase);
    write!(writer, "{text}")?;
    if count == 0 { Ok(separator) } else { Ok(", ") }
}

/// Writes the numbers of the runs that were closed or are open, by their statuses.
fn write_counts<O: Write>(statuses: &[Option<RunStatus>], writer: &mut O) -> io::Result<()>
    ensures { OnOk result (Appends (O.contents writer.old) (O.contents writer.new)
        (counts.counts_text (codes ": ") counts.counted_phrases statuses.now)) }
{
    let second = write_count(": ", "completed", statuses, writer)?;
    let third = write_count(second, "failed", statuses, writer)?;
    let fourth = write_count(third, "canceled", statuses, writer)?;
    let fifth = write_count(fourth, "terminated", statuses, writer)?;
    let sixth = write_count(fifth, "timed out", statuses, writer)?;
    let seventh = write_count(sixth, "continued as new", statuses, writer)?;
    write_count(seventh, "running", statuses, writer)?;
    Ok(())
}

/// Writes how many runs there are.
fn write_run_count<O: Write>(statuses: &[Option<RunStatus>], writer: &mut O) -> io::Result<()>
    ensures { OnOk result (Appends (O.contents writer.old) (O.contents writer.new)
        (decimal (counts.run_count statuses.now) ++ codes " runs")) }
{
    let runs = run_count(statuses);
    write!(writer, "{runs} runs")
}

/// Writes how many files have no run that can be told, if some have none, and ends the line.
fn write_unreadable<O: Write>(statuses: &[Option<RunStatus>], writer: &mut O) -> io::Result<()>
    ensures { OnOk result (Appends (O.contents writer.old) (O.contents writer.new)
        (counts.unreadable_text statuses.now)) }
{
    let unreadable = CountText("; ", count_of("unreadable", statuses), "unreadable");
    write!(writer, "{unreadable}\n")
}

/// Writes the line of how many runs have each status.
#[tactic(auto, unfolding(crate::specs::RunCounts::counts_line))]
pub(crate) fn write_counts_line<O: Write>(
    statuses: &[Option<RunStatus>],
    writer: &mut O,
) -> io::Result<()>
    ensures { OnOk result
        (Appends (O.contents writer.old) (O.contents writer.new) (counts.counts_line statuses.now)) }
{
    write_run_count(statuses, writer)?;
    write_counts(statuses, writer)?;
    write_unreadable(statuses, writer)
}

/// The number of the files that a phrase tells, as a further member of an object.
#[derive(Drop)]
struct CountMember<'a>(&'static str, &'static str, &'a [Option<RunStatus>]);

impl fmt::Display for CountMember<'_> {
    ghost output = { λ m. Some (counts.count_member m.0.now m.1.now m.2.now) };

    fn fmt<W: fmt::Write>(&self, f: &mut fmt::Formatter<W>) -> fmt::Result {
        let key = self.0;
        let count = count_of(self.1, self.2);
        write!(f, ",\"{key}\":{count}")
    }
}

/// How many runs were closed for good, as further members of an object.
#[derive(Drop)]
struct ClosedMembers<'a>(&'a [Option<RunStatus>]);

impl fmt::Display for ClosedMembers<'_> {
    ghost output = { λ c. Some (counts.closed_members c.0.now) };

    fn fmt<W: fmt::Write>(&self, f: &mut fmt::Formatter<W>) -> fmt::Result {
        let completed = CountMember("completed", "completed", self.0);
        let failed = CountMember("failed", "failed", self.0);
        let canceled = CountMember("canceled", "canceled", self.0);
        let terminated = CountMember("terminated", "terminated", self.0);
        let timed_out = CountMember("timedOut", "timed out", self.0);
        write!(f, "{completed}{failed}{canceled}{terminated}{timed_out}")
    }
}

/// How many runs go on, and how many files have no run that can be told, as further members of an
/// object.
#[derive(Drop)]
struct OtherMembers<'a>(&'a [Option<RunStatus>]);

impl fmt::Display for OtherMembers<'_> {
    ghost output = { λ o. Some (counts.other_members o.0.now) };

    fn fmt<W: fmt::Write>(&self, f: &mut fmt::Formatter<W>) -> fmt::Result {
        let continued = CountMember("continuedAsNew", "continued as new", self.0);
        let running = CountMember("running", "running", self.0);
        let unreadable = CountMember("unreadable", "unreadable", self.0);
        write!(f, "{continued}{running}{unreadable}")
    }
}

/// Writes the object of how many runs have each status.
#[tactic(auto, unfolding(crate::specs::RunCounts::counts_object))]
pub(crate) fn write_counts_object<O: Write>(
    statuses: &[Option<RunStatus>],
    writer: &mut O,
) -> io::Result<()>
    ensures { OnOk result
        (Appends (O.contents writer.old) (O.contents writer.new) (counts.counts_object statuses.now)) }
{
    let runs = run_count(statuses);
    let closed = ClosedMembers(statuses);
    let others = OtherMembers(statuses);
    write!(writer, "{{\"runs\":{runs}{closed}{others}}}\n")
}
