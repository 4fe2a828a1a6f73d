//! What a source keeps about its polls.

ghost use Rattle.std.specs.Prelude.{◌≡◌, [], Ok, IfErr, IfOk, false};
ghost use Rattle.wh_notes.specs.Polls.{end_of, EndsPoll, MayEnd, Reports, WaitsAfter, WaitsFor, polled_of};
ghost use Rattle.wh_notes.specs.Polls.{NotesEnd, NotesPoll, ended_after, ended_by, outcome_of};
ghost use Rattle.wh_notes.specs.Tallies.{no_failures, with_end, with_result};
ghost use Rattle.wh_notes.specs.Troubles.{HasFailed};
ghost use Rattle.wh_tasks.specs.Source.{FailsOnly, IfTask};
ghost use Rattle.wh_notes.specs.declared.results.PollResult.TheVariants.{Task};

use crate::notes::SourceNotes;
use crate::results::PollResult;
use crate::tallies::Tally;
use crate::texts::{PollWords, poll_text};
use crate::troubles::Trouble;
use wh_client::{AskFault, Connection, PollEnd, PollOutcome, SourceNote, poll_end};
use wh_tasks::{Polled, SourceFault};

/// What a source has noted, how often it has failed, its latest failed polls, and whether polling
/// has failed for good.
#[derive(Drop)]
pub struct Journal {
    /// What it has noted of its polls and answers.
    pub notes: SourceNotes,
    /// How often it has failed.
    pub tally: Tally,
    /// The polls that have failed in a row.
    pub trouble: Trouble,
    /// Whether no later poll can succeed.
    pub ended: bool,
}

/// Returns what follows after a failed poll.
fn end_of(fault: &AskFault) -> PollEnd
    ensures { result ≡ end_of fault.now }
{
    match fault {
        AskFault::Closed => PollEnd::Closed,
        AskFault::Output => PollEnd::Never,
        AskFault::Refused { status, .. } => poll_end(*status),
        AskFault::Unreadable
        | AskFault::TooManyPages
        | AskFault::History(_)
        | AskFault::OutOfMemory => PollEnd::Later,
    }
}

/// Returns what a source reports to its worker for the result of a poll.
fn polled_of<T>(poll: PollResult<T>) -> Polled<T>
    ensures { result ≡ polled_of poll }
{
    match poll {
        PollResult::Task(task) => Polled::Task(task),
        PollResult::Empty | PollResult::Settled | PollResult::Lost(_) => Polled::Nothing,
    }
}

/// Returns what the result of a poll is noted as.
fn outcome_of<T>(poll: &PollResult<T>) -> PollOutcome
    ensures { result ≡ outcome_of poll.now }
{
    match poll {
        PollResult::Empty => PollOutcome::Empty,
        PollResult::Task(_) | PollResult::Settled | PollResult::Lost(_) => PollOutcome::Task,
    }
}

impl Journal {
    /// Returns an empty journal: no poll has failed, so that there was no wait.
    pub fn new() -> Journal
        ensures notes { result.notes ≡ [] }
        ensures tally { result.tally ≡ no_failures }
        ensures trouble { HasFailed 0 result.trouble }
        ensures open { result.ended ≡ false }
    {
        Journal {
            notes: SourceNotes::new(),
            tally: Tally::new(),
            trouble: Trouble::new(),
            ended: false,
        }
    }

    /// Notes a failed poll, reports it and waits. If no later poll can succeed, none is made any
    /// more by any worker of the process, so that it ends. Returns what the source reports to its
    /// worker.
    fn end_failed_poll<L: Connection, T>(
        &mut self,
        connection: &L,
        words: PollWords<'_>,
        fault: &AskFault,
    ) -> Result<Polled<T>, SourceFault>
        requires { MayEnd L.fails fault.now }
        ensures ends { EndsPoll (end_of fault.now) result }
        ensures notes { NotesEnd (end_of fault.now) self.old.notes self.new.notes }
        ensures failures { FailsOnly result self.old.tally.failures self.new.tally.failures }
        ensures tally { self.new.tally ≡ with_end (end_of fault.now) self.old.tally }
        ensures trouble { WaitsAfter (end_of fault.now) self.old.trouble self.new.trouble }
        ensures ended { self.new.ended ≡ ended_by (end_of fault.now) self.old.ended }
    {
        let end = end_of(fault);
        if end == PollEnd::Closed {
            return Ok(Polled::Closed);
        }
        let failure = SourceNote::Poll(PollOutcome::Failure);
        self.notes.note(connection, failure);
        if end == PollEnd::Never {
            connection.stop_polls();
        }
        let text = poll_text(connection.allocator(), words, fault, end);
        self.trouble.meet(connection, text);
        if end == PollEnd::Later {
            return Ok(Polled::Nothing);
        }
        self.ended = true;
        Err(self.tally.count_failure(true))
    }

    /// Notes a poll that got a result. If its task is given up that is reported, and the worker
    /// waits as after a failed poll. Returns what the source reports to its worker.
    fn count_result<L: Connection, T: Drop>(
        &mut self,
        connection: &L,
        poll: PollResult<T>,
    ) -> Polled<T>
        ensures is { result ≡ polled_of poll }
        ensures notes { NotesPoll (Ok poll) self.old.notes self.new.notes }
        ensures failures { self.new.tally.failures ≡ self.old.tally.failures }
        ensures tally { self.new.tally ≡ with_result (Ok poll) self.old.tally }
        ensures trouble { WaitsFor (Ok poll) self.old.trouble self.new.trouble }
        ensures ended { self.new.ended ≡ self.old.ended }
    {
        match poll {
            PollResult::Lost(text) => {
                self.notes
                    .note(connection, SourceNote::Poll(PollOutcome::Task));
                self.tally.lose_task();
                self.trouble.meet(connection, text);
                Polled::Nothing
            }
            poll => {
                self.trouble.end(connection);
                self.notes
                    .note(connection, SourceNote::Poll(outcome_of(&poll)));
                polled_of(poll)
            }
        }
    }

    /// Notes a poll, unless it was closed. Returns what the source reports to its worker.
    pub fn note_poll<L: Connection, T: Drop>(
        &mut self,
        connection: &L,
        words: PollWords<'_>,
        poll: Result<PollResult<T>, AskFault>,
    ) -> Result<Polled<T>, SourceFault>
        requires { IfErr poll (MayEnd L.fails) }
        ensures task { IfOk result (IfTask (λ task. poll ≡ Ok (Task task))) }
        ensures reports { Reports poll result }
        ensures notes { NotesPoll poll self.old.notes self.new.notes }
        ensures failures { FailsOnly result self.old.tally.failures self.new.tally.failures }
        ensures tally { self.new.tally ≡ with_result poll self.old.tally }
        ensures trouble { WaitsFor poll self.old.trouble self.new.trouble }
        ensures ended { self.new.ended ≡ ended_after poll self.old.ended }
    {
        match poll {
            Ok(poll) => Ok(self.count_result(connection, poll)),
            Err(fault) => self.end_failed_poll(connection, words, &fault),
        }
    }
}
