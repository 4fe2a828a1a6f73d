//! The line of a run in an overview of histories.

ghost use Rattle.std.specs.Prelude.{◌≡◌, OnOk, Some};
ghost use Rattle.std.specs.Io.KnownBytes.{Appends};
ghost use Rattle.wh_explain_report.specs.RunLines as lines;

use crate::run_facts::{
    cause_message, cause_type, most_attempts, start_moment, start_type, status_phrase,
};
use std::io::Write;
use std::{fmt, io};
use wh_html::SpanText;
use wh_tester::Shown;
use wh_view::View;
use wh_view_report::{Excerpt, run_span};

/// A text between two others; nothing if it is empty.
#[derive(Drop)]
struct Fact<'a>(&'static str, &'a str, &'static str);

impl fmt::Display for Fact<'_> {
    ghost output = { λ t. Some (lines.fact t.0.now t.1.now t.2.now) };

    fn fmt<W: fmt::Write>(&self, f: &mut fmt::Formatter<W>) -> fmt::Result {
        if self.1.is_empty() {
            return Ok(());
        }
        let before = self.0;
        let text = Excerpt(self.1);
        let after = self.2;
        write!(f, "{before}{text}{after}")
    }
}

/// The workflow type and the workflow id of a run, and its status.
#[derive(Drop)]
struct HeadText<'a>(&'a View);

impl fmt::Display for HeadText<'_> {
    ghost output = { λ h. Some (lines.head_text h.0.now) };

    fn fmt<W: fmt::Write>(&self, f: &mut fmt::Formatter<W>) -> fmt::Result {
        let kind = Fact("", start_type(self.0.events.get()), ", ");
        let workflow_id = Fact("workflow id ", self.0.run.workflow_id.get(), ", ");
        let status = status_phrase(self.0.status());
        write!(f, "{kind}{workflow_id}{status}")
    }
}

/// How long a run took, in milliseconds; nothing if that is not known.
#[derive(Clone, Copy)]
struct LastedText(Option<u64>);

impl fmt::Display for LastedText {
    ghost output = { λ l. Some (lines.lasted_text l.0) };

    fn fmt<W: fmt::Write>(&self, f: &mut fmt::Formatter<W>) -> fmt::Result {
        match self.0 {
            Some(millis) => {
                let span = SpanText(millis);
                write!(f, ", lasted {span}")
            }
            None => Ok(()),
        }
    }
}

/// When a run started, and how long it took.
#[derive(Drop)]
struct TimesText<'a>(&'a View);

impl fmt::Display for TimesText<'_> {
    ghost output = { λ t. Some (lines.times_text t.0.now) };

    fn fmt<W: fmt::Write>(&self, f: &mut fmt::Formatter<W>) -> fmt::Result {
        let started = Fact(", started ", start_moment(self.0.events.get()), "");
        let lasted = LastedText(run_span(self.0));
        write!(f, "{started}{lasted}")
    }
}

/// The highest attempt; nothing if that is the first, or there is none.
#[derive(Clone, Copy)]
struct AttemptsText(u64);

impl fmt::Display for AttemptsText {
    ghost output = { λ a. Some (lines.attempts_text a.0) };

    fn fmt<W: fmt::Write>(&self, f: &mut fmt::Formatter<W>) -> fmt::Result {
        let attempts = self.0;
        if 1 < attempts {
            write!(f, ", {attempts} attempts")
        } else {
            Ok(())
        }
    }
}

/// A cause by its type, if it has one, and its message; nothing if both are empty.
#[derive(Drop)]
struct CauseText<'a>(&'a str, &'a str);

impl fmt::Display for CauseText<'_> {
    ghost output = { λ c. Some (lines.because_by c.0.now c.1.now) };

    fn fmt<W: fmt::Write>(&self, f: &mut fmt::Formatter<W>) -> fmt::Result {
        if self.0.is_empty() {
            let message = Fact(", because ", self.1, "");
            return write!(f, "{message}");
        }
        let kind = Excerpt(self.0);
        let message = Fact(": ", self.1, "");
        write!(f, ", because {kind}{message}")
    }
}

/// What is told of a run behind its status.
#[derive(Drop)]
struct TailText<'a>(&'a View);

impl fmt::Display for TailText<'_> {
    ghost output = { λ t. Some (lines.tail_text t.0.now) };

    fn fmt<W: fmt::Write>(&self, f: &mut fmt::Formatter<W>) -> fmt::Result {
        let times = TimesText(self.0);
        let attempts = AttemptsText(most_attempts(self.0.events.get()));
        let cause = CauseText(cause_type(self.0), cause_message(self.0));
        write!(f, "{times}{attempts}{cause}")
    }
}

/// Writes the line of the run in the file of this name.
#[tactic(auto, unfolding(crate::specs::RunLines::run_line))]
pub(crate) fn write_run_line<O: Write>(name: &str, view: &View, writer: &mut O) -> io::Result<()>
    ensures { OnOk result
        (Appends (O.contents writer.old) (O.contents writer.new) (lines.run_line name.now view.now)) }
{
    let name = Shown(name);
    let head = HeadText(view);
    let tail = TailText(view);
    write!(writer, "{name}: {head}{tail}\n")
}
