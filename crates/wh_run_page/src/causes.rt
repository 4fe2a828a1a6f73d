//! Why something failed, on a page: the failure and its causes, whole, and their stack traces.

ghost use Rattle.std.specs.Prelude.{◌≡◌, ◌++◌, Some, IfOk, OnOk, map};
ghost use Rattle.std.specs.Fmt.{DisplaysOnOk};
ghost use Rattle.std.specs.List.{flat_map};
ghost use Rattle.std.specs.Str.Lines.{lines};
ghost use Rattle.wh_run_page.specs.Causes as causes;

use crate::words::{AfterLabel, copy_text};
use std::alloc::{AllocError, Global};
use std::fmt;
use wh_events::{OutOfMemory, Text};
use wh_view::{ViewedEvent, ViewedFailure};

/// A failure: its type, if it has one, and its message.
#[derive(Drop)]
struct FailureWords<'a>(&'a ViewedFailure);

impl fmt::Display for FailureWords<'_> {
    ghost output = { λ w. Some (causes.failure_words w.0.now) };

    fn fmt<W: fmt::Write>(&self, f: &mut fmt::Formatter<W>) -> fmt::Result {
        let kind = self.0.kind.get();
        let message = self.0.message.get();
        if kind.is_empty() {
            return write!(f, "{message}");
        }
        let message = AfterLabel(": ", message);
        write!(f, "{kind}{message}")
    }
}

/// Writes the causes of a failure, the nearest first.
fn write_causes<W: fmt::Write>(failures: &[ViewedFailure], f: &mut fmt::Formatter<W>) -> fmt::Result
    ensures { DisplaysOnOk W.write_str_gives f.old result (Some (flat_map causes.cause_words failures.now)) f.new }
{
    for failure in failures {
        let words = FailureWords(failure);
        write!(f, " <- {words}")?;
    }
    Ok(())
}

/// The causes of a failure.
#[derive(Drop)]
struct CauseWords<'a>(&'a [ViewedFailure]);

impl fmt::Display for CauseWords<'_> {
    ghost output = { λ c. Some (flat_map causes.cause_words c.0.now) };

    fn fmt<W: fmt::Write>(&self, f: &mut fmt::Formatter<W>) -> fmt::Result {
        write_causes(self.0, f)
    }
}

/// Why something failed, after a label; nothing if the event does not tell of a failure.
#[derive(Drop)]
pub(crate) struct Reason<'a>(pub(crate) &'static str, pub(crate) &'a ViewedEvent);

impl fmt::Display for Reason<'_> {
    ghost output = { λ r. Some (causes.reason r.0.now r.1.now) };

    #[tactic(auto, unfolding(crate::specs::Causes::reason))]
    fn fmt<W: fmt::Write>(&self, f: &mut fmt::Formatter<W>) -> fmt::Result {
        match self.1.details.failures.get() {
            [] => {
                let reason = AfterLabel(self.0, self.1.failure.get());
                write!(f, "{reason}")
            }
            [first, others @ ..] => {
                let label = self.0;
                let first = FailureWords(first);
                let others = CauseWords(others);
                let cause = AfterLabel(", cause ", self.1.details.ending.cause.get());
                write!(f, "{label}{first}{others}{cause}")
            }
        }
    }
}

/// Which timeout a workflow task ran into, and why something was not tried again, after other
/// words.
#[derive(Drop)]
pub(crate) struct EndingWords<'a>(pub(crate) &'a ViewedEvent);

impl fmt::Display for EndingWords<'_> {
    ghost output = { λ e. Some (causes.ending_words e.0.now) };

    fn fmt<W: fmt::Write>(&self, f: &mut fmt::Formatter<W>) -> fmt::Result {
        let ending = &self.0.details.ending;
        let timeout = AfterLabel(", timeout ", ending.timeout_type.get());
        let retries = AfterLabel(", retry state ", ending.retry_state.get());
        write!(f, "{timeout}{retries}")
    }
}

/// Returns the lines of a text. `AllocError` if there is no memory for the list.
fn lines_of(alloc: Global, text: &str) -> Result<Vec<&str>, AllocError>
    ensures { IfOk result (λ all. map (λ line. line.now) all.items ≡ lines text.now) }
{
    text.lines().collect(alloc)
}

/// Adds lines, each without what it is indented by.
fn push_lines(alloc: Global, texts: &[&str], all: &mut Vec<Text>) -> Result<(), OutOfMemory>
    ensures { OnOk result
        (all.new.items ≡ all.old.items ++ map causes.line_text (map (λ line. line.now) texts.now)) }
{
    for text in texts {
        let text = copy_text(alloc, text.trim_start())?;
        all.push(text)?;
    }
    Ok(())
}

/// Adds the stack trace of a failure after the failure in words, if it has one.
fn push_trace(
    alloc: Global,
    failure: &ViewedFailure,
    all: &mut Vec<Text>,
) -> Result<(), OutOfMemory>
    ensures { OnOk result (all.new.items ≡ all.old.items ++ causes.trace_of failure.now) }
{
    if failure.stack_trace.get().is_empty() {
        return Ok(());
    }
    let words = FailureWords(failure);
    all.push(Text::new(format!(in alloc; "{words}")?))?;
    let lines = lines_of(alloc, failure.stack_trace.get())?;
    push_lines(alloc, lines.as_slice(), all)
}

/// Returns the stack traces of failures, line by line.
pub(crate) fn traces_of(alloc: Global, failures: &[ViewedFailure]) -> Result<Vec<Text>, OutOfMemory>
    ensures { IfOk result (λ all. all.items ≡ flat_map causes.trace_of failures.now) }
{
    let mut all = Vec::new(alloc);
    for failure in failures {
        push_trace(alloc, failure, &mut all)?;
    }
    Ok(all)
}
