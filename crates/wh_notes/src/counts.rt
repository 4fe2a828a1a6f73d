//! What is counted of the polls and the answers of workers.

ghost use Rattle.std.specs.Prelude.{◌≡◌};
ghost use Rattle.wh_notes.specs.Counts.{counts_together, no_source_counts, with_answer, with_note, with_poll, with_time};

use crate::times::{add_time, add_times, no_times};
use crate::untaken::{UntakenAnswers, completes};
use wh_client::{AnswerKind, PollOutcome, Receipt, SentAnswer, SourceNote};
use wh_metrics::TaskTimes;

/// What the sources of all workers have done. A count stops at 2^64 - 1.
#[derive(Clone, Copy, Debug)]
pub struct SourceCounts {
    /// Polls that got a result or an error.
    pub polls: u64,
    /// Polls that got an empty response.
    pub empty_polls: u64,
    /// The answers that the server did not take.
    pub untaken: UntakenAnswers,
    /// How long workflow tasks took whose answer the server took.
    pub workflow_times: TaskTimes,
    /// How long activity tasks took whose answer the server took.
    pub activity_times: TaskTimes,
}

impl SourceCounts {
    /// Returns the counts of sources that have done nothing.
    pub fn none() -> SourceCounts
        ensures { result ≡ no_source_counts }
    {
        SourceCounts {
            polls: 0,
            empty_polls: 0,
            untaken: UntakenAnswers::none(),
            workflow_times: no_times(),
            activity_times: no_times(),
        }
    }

    /// Counts a poll.
    fn count_poll(&mut self, outcome: PollOutcome)
        ensures { self.new ≡ with_poll outcome self.old }
    {
        self.polls = self.polls.saturating_add(1);
        match outcome {
            PollOutcome::Empty => self.empty_polls = self.empty_polls.saturating_add(1),
            PollOutcome::Task | PollOutcome::Failure => {}
        }
    }

    /// Counts how long a task took that got such an answer.
    fn count_time(&mut self, kind: AnswerKind, microseconds: u64)
        ensures { self.new ≡ with_time kind microseconds self.old }
    {
        match kind {
            AnswerKind::WorkflowCompletion | AnswerKind::WorkflowFailure => {
                add_time(&mut self.workflow_times, microseconds);
            }
            AnswerKind::ActivityCompletion | AnswerKind::ActivityFailure => {
                add_time(&mut self.activity_times, microseconds);
            }
        }
    }

    /// Counts an answer that was sent: how long its task took, if the server took the answer, and
    /// otherwise the answer among those that it did not take.
    fn count_answer(&mut self, answer: SentAnswer)
        ensures { self.new ≡ with_answer answer self.old }
    {
        let SentAnswer {
            kind,
            receipt,
            microseconds,
        } = answer;
        match receipt {
            Receipt::Acknowledged | Receipt::Discarded => self.count_time(kind, microseconds),
            Receipt::NotFound
            | Receipt::Invalid
            | Receipt::Withheld
            | Receipt::Replaced
            | Receipt::Cut
            | Receipt::Lost
            | Receipt::NoMemory => self.untaken.add(receipt, completes(kind)),
        }
    }

    /// Counts what a source notes.
    pub fn count(&mut self, note: SourceNote)
        ensures { self.new ≡ with_note note self.old }
    {
        match note {
            SourceNote::Poll(outcome) => self.count_poll(outcome),
            SourceNote::Answer(answer) => self.count_answer(answer),
        }
    }

    /// Adds what another source has counted.
    pub fn add(&mut self, other: SourceCounts)
        ensures { self.new ≡ counts_together self.old other }
    {
        self.polls = self.polls.saturating_add(other.polls);
        self.empty_polls = self.empty_polls.saturating_add(other.empty_polls);
        self.untaken.add_all(other.untaken);
        add_times(&mut self.workflow_times, other.workflow_times);
        add_times(&mut self.activity_times, other.activity_times);
    }
}
