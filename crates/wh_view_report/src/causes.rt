//! Why something failed: the failure and its causes.

ghost use Rattle.std.specs.Prelude.{◌≡◌, Some};
ghost use Rattle.std.specs.Fmt.{DisplaysOnOk};
ghost use Rattle.std.specs.List.{flat_map};
ghost use Rattle.wh_view_report.specs.Causes as causes;

use crate::cut::{Excerpt, LabelText};
use std::fmt;
use wh_events::EventKind;
use wh_view::{ViewedEvent, ViewedFailure};

/// A failure: its type, if it has one, and its message.
#[derive(Drop)]
struct FailureText<'a>(&'a ViewedFailure);

impl fmt::Display for FailureText<'_> {
    ghost output = { λ t. Some (causes.failure_text t.0.now) };

    fn fmt<W: fmt::Write>(&self, f: &mut fmt::Formatter<W>) -> fmt::Result {
        let kind = self.0.kind.get();
        let message = self.0.message.get();
        if kind.is_empty() {
            let message = Excerpt(message);
            return write!(f, "{message}");
        }
        let kind = Excerpt(kind);
        let message = LabelText(": ", message);
        write!(f, "{kind}{message}")
    }
}

/// Writes the causes of a failure, the nearest first.
fn write_causes<W: fmt::Write>(failures: &[ViewedFailure], f: &mut fmt::Formatter<W>) -> fmt::Result
    ensures { DisplaysOnOk W.write_str_gives f.old result (Some (flat_map causes.cause_text failures.now)) f.new }
{
    for failure in failures {
        let text = FailureText(failure);
        write!(f, " <- {text}")?;
    }
    Ok(())
}

/// The causes of a failure.
#[derive(Drop)]
struct CauseTexts<'a>(&'a [ViewedFailure]);

impl fmt::Display for CauseTexts<'_> {
    ghost output = { λ c. Some (flat_map causes.cause_text c.0.now) };

    fn fmt<W: fmt::Write>(&self, f: &mut fmt::Formatter<W>) -> fmt::Result {
        write_causes(self.0, f)
    }
}

/// Returns what stands before a failure: the start of an activity tells that of the attempt before.
fn reason_label(event: &ViewedEvent) -> &'static str
    ensures { result.now ≡ causes.reason_label event.now.read.kind }
{
    match event.read.kind {
        Some(EventKind::ActivityTaskStarted { .. }) => ", after ",
        _ => ", because ",
    }
}

/// Why something failed, after other words; nothing if the event does not tell of a failure.
#[derive(Drop)]
pub(crate) struct Because<'a>(pub(crate) &'a ViewedEvent);

impl fmt::Display for Because<'_> {
    ghost output = { λ b. Some (causes.because_text b.0.now) };

    #[tactic(auto, unfolding(crate::specs::Causes::because_text))]
    fn fmt<W: fmt::Write>(&self, f: &mut fmt::Formatter<W>) -> fmt::Result {
        match self.0.details.failures.get() {
            [] => {
                let reason = LabelText(reason_label(self.0), self.0.failure.get());
                write!(f, "{reason}")
            }
            [first, others @ ..] => {
                let label = reason_label(self.0);
                let first = FailureText(first);
                let others = CauseTexts(others);
                let cause = LabelText(", cause ", self.0.details.ending.cause.get());
                write!(f, "{label}{first}{others}{cause}")
            }
        }
    }
}

/// Why something was not tried again, or which timeout a workflow task ran into, after other words.
#[derive(Drop)]
pub(crate) struct EndingText<'a>(pub(crate) &'a ViewedEvent);

impl fmt::Display for EndingText<'_> {
    ghost output = { λ e. Some (causes.ending_text e.0.now) };

    fn fmt<W: fmt::Write>(&self, f: &mut fmt::Formatter<W>) -> fmt::Result {
        let ending = &self.0.details.ending;
        let timeout = LabelText(", timeout ", ending.timeout_type.get());
        let retries = LabelText(", retry state ", ending.retry_state.get());
        write!(f, "{timeout}{retries}")
    }
}
