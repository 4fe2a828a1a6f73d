//! Answers to tasks that the server did not take.

ghost use Rattle.std.specs.Prelude.{◌≡◌};
ghost use Rattle.wh_notes.specs.Untaken.{completed_of, completes, failed_of, failures_of, none_untaken};
ghost use Rattle.wh_notes.specs.Untaken.{refused_of, untaken_together, with_completion, with_untaken};

use wh_client::{AnswerKind, Receipt};

/// Answers to tasks that the server did not take, by what became of them. A count stops at
/// 2^64 - 1.
#[derive(Clone, Copy, Debug)]
pub struct UntakenAnswers {
    /// Those whose task the server no longer had.
    pub not_found: u64,
    /// Those that the server refused as invalid (code 3). It has failed the workflow tasks among
    /// them itself.
    pub invalid: u64,
    /// Those that it refused for another reason, or of whose call no response came, also if it
    /// could not be made.
    pub lost: u64,
    /// Those among the first two that complete their task. The host counts these tasks as
    /// completed, and the tasks of all others as failed, but for those whose history is malformed,
    /// which it never took.
    pub completions: u64,
}

/// Returns whether an answer completes its task.
pub(crate) fn completes(kind: AnswerKind) -> bool
    ensures { result ≡ completes kind }
{
    match kind {
        AnswerKind::WorkflowCompletion | AnswerKind::ActivityCompletion => true,
        AnswerKind::WorkflowFailure | AnswerKind::ActivityFailure => false,
    }
}

/// Returns one more, if the answer completes its task.
fn with_completion(completions: u64, completes: bool) -> u64
    ensures { result ≡ with_completion completes completions }
{
    if completes {
        completions.saturating_add(1)
    } else {
        completions
    }
}

impl UntakenAnswers {
    /// Returns the counts of no answer.
    pub fn none() -> UntakenAnswers
        ensures { result ≡ none_untaken }
    {
        UntakenAnswers {
            not_found: 0,
            invalid: 0,
            lost: 0,
            completions: 0,
        }
    }

    /// Counts an answer that completes its task, or does not, by what became of it. One whose call
    /// got no response is lost.
    pub(crate) fn add(&mut self, receipt: Receipt, completes: bool)
        ensures { self.new ≡ with_untaken receipt completes self.old }
    {
        match receipt {
            Receipt::NotFound => {
                self.not_found = self.not_found.saturating_add(1);
                self.completions = with_completion(self.completions, completes);
            }
            Receipt::Invalid => {
                self.invalid = self.invalid.saturating_add(1);
                self.completions = with_completion(self.completions, completes);
            }
            Receipt::Cut | Receipt::Lost | Receipt::NoMemory => {
                self.lost = self.lost.saturating_add(1);
            }
            Receipt::Acknowledged | Receipt::Discarded | Receipt::Withheld | Receipt::Replaced => {}
        }
    }

    /// Adds those of another source.
    pub(crate) fn add_all(&mut self, other: UntakenAnswers)
        ensures { self.new ≡ untaken_together self.old other }
    {
        self.not_found = self.not_found.saturating_add(other.not_found);
        self.invalid = self.invalid.saturating_add(other.invalid);
        self.lost = self.lost.saturating_add(other.lost);
        self.completions = self.completions.saturating_add(other.completions);
    }

    /// Returns how many were refused, or got no response: all but those whose task the server no
    /// longer had.
    pub fn refused_answers(self) -> u64
        ensures { result ≡ refused_of self }
    {
        self.invalid.saturating_add(self.lost)
    }

    /// Returns how many that were not lost fail their task.
    pub fn failures(self) -> u64
        ensures { result ≡ failures_of self }
    {
        self.not_found
            .saturating_add(self.invalid)
            .saturating_sub(self.completions)
    }

    /// Returns how many tasks are completed, of so many that the host counts as completed.
    pub fn completed_tasks(self, counted: u64) -> u64
        ensures { result ≡ completed_of self counted }
    {
        counted.saturating_sub(self.completions)
    }

    /// Returns how many tasks have failed, of so many that the host counts as failed.
    pub fn failed_tasks(self, counted: u64) -> u64
        ensures { result ≡ failed_of self counted }
    {
        counted.saturating_sub(self.failures().saturating_add(self.lost))
    }
}
