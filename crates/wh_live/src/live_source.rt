//! A source of tasks from a server.

ghost use Rattle.std.specs.Prelude.{◌≡◌, None, Some};
ghost use Rattle.wh_live.specs.Deliveries.{ComesFrom, Delivers, Fetches, fresh};
ghost use Rattle.wh_notes.specs.Notes.{counts_of};
ghost use Rattle.wh_tasks.specs.declared.source.RunUse.{RunUse};

use crate::activities::answer_activity;
use crate::answering::answer_workflow;
use crate::fetching::whole;
use crate::polling::{poll_activity, poll_workflow};
use crate::query_handler::QueryHandler;
use crate::tasks::OpenTask;
use std::marker::Model;
use wh_client::{Client, Connection, LiveOptions, TaskQueueKind};
use wh_events::{Event, GhostList, RunKey};
use wh_notes::{Journal, SourceCounts, Tally};
use wh_replay::Answer;
use wh_slots::TaskName;
use wh_tasks::{
    Acceptance, ActivityAnswer, ActivityCell, ActivityTask, Polled, RunUse, Sent, SourceFault,
    TaskSource, WorkflowTask,
};

/// Returns the task whose run may be cached after its answer.
fn cacheable_task(run: RunUse, name: TaskName) -> Option<TaskName>
    ensures cached { run ≡ RunUse.Cache → result ≡ Some name }
    ensures discarded { run ≡ RunUse.Discard → result ≡ None }
{
    match run {
        RunUse::Cache => Some(name),
        RunUse::Discard => None,
    }
}

/// A source of tasks from a Temporal server, for one worker. It delivers what it reads from the
/// results of its polls, and fetches the histories of runs page by page (Temporal documentation,
/// "Workers" and "Sticky Execution").
///
/// An answer counts as taken if the server acknowledged it, if the server no longer needs it (the
/// task is over, or the server has failed it itself), and if it was withheld on purpose: a failure
/// is only sent in the first attempt of a task. The run of a task may be cached only if the server
/// acknowledged the answer, and did not say that it has discarded the task.
///
/// It has one task at a time: a task that is not answered before the next poll is left to time out.
/// A query that comes alone is passed, during the poll, to what answers queries beside the workers.
/// One that comes with a task is answered with it, by the handler of queries. If the server does not
/// accept so large an answer, it is sent again without the results; so it is sent at once if there
/// was no memory for them, or for the answer with them. The server asks such queries again alone.
#[derive(Drop)]
pub struct LiveSource<'a, L: Connection, Q: QueryHandler> {
    client: Client<'a, L>,
    query_handler: &'a Q,
    role: TaskQueueKind,
    current: Option<OpenTask>,
    journal: Journal,
    acknowledged: Option<TaskName>,
    taken: GhostList<(TaskName, Sent)>,
}

impl<'a, L: Connection, Q: QueryHandler> Model for LiveSource<'a, L, Q> {
    ghost use Rattle.std.specs.Prelude.{option_map};
    ghost use Rattle.wh_client.specs.Roles.{polls_sticky};
    ghost use Rattle.wh_live.specs.Deliveries.{LiveView};
    ghost use Rattle.wh_live.specs.Private.Opening.{HasLater, later_kept};
    ghost use Rattle.wh_notes.specs.Polls.{IsOverIfEnded};

    ghost Value = { LiveView };

    ghost view = { λ s. record {
      role = s.role;
      names = s.client.options.now.names;
      answers = s.taken.items;
      tally = s.journal.tally;
      notes = s.journal.notes;
      acknowledged = s.acknowledged;
      later = option_map later_kept s.current;
    } };

    ghost invariant = { λ s. HasLater L.gives s.client.options.now.names (polls_sticky s.role) s.current
        × Q.ready s.query_handler.now × IsOverIfEnded L.fails s.journal.ended };
}

impl<'a, L: Connection, Q: QueryHandler> LiveSource<'a, L, Q> {
    /// Returns a source of a role that has not polled yet. It notes in the cell which activity task
    /// runs, for a handler that sends heartbeats.
    pub fn new(
        connection: &'a L,
        query_handler: &'a Q,
        options: &'a LiveOptions,
        role: TaskQueueKind,
        cell: Option<&'a ActivityCell>,
    ) -> LiveSource<'a, L, Q>
        requires { Q.ready query_handler.now }
        ensures { result ≡ fresh role options.entry.now.names }
    {
        LiveSource {
            client: Client {
                connection,
                options,
                cell,
            },
            query_handler,
            role,
            current: None,
            journal: Journal::new(),
            acknowledged: None,
            taken: GhostList::new(),
        }
    }

    /// Returns how often it has failed.
    pub fn tally(&self) -> Tally
        ensures { result ≡ self.now.tally }
    {
        self.journal.tally
    }

    /// Returns what is counted of its polls and answers.
    pub fn counts(&self) -> SourceCounts
        ensures { result ≡ counts_of self.now.notes }
    {
        self.journal.notes.counts()
    }
}

impl<L: Connection, Q: QueryHandler> TaskSource for LiveSource<'_, L, Q> {
    ghost answers = { λ source. source.answers };

    ghost failures = { λ source. source.tally.failures };

    ghost delivers = { λ source. Delivers L.gives source.names source.role };

    ghost fetches = { λ source. Fetches L.gives source.names source.role };

    ghost comes_from = { ComesFrom };

    ghost caches = { λ source name. source.acknowledged ≡ Some name };

    fn poll_workflow(&mut self) -> Result<Polled<WorkflowTask>, SourceFault> {
        self.acknowledged = None;
        poll_workflow(
            &self.client,
            self.role,
            &mut self.journal,
            &mut self.current,
        )
    }

    fn poll_activity(&mut self) -> Result<Polled<ActivityTask>, SourceFault> {
        poll_activity(
            &self.client,
            self.role,
            &mut self.journal,
            &mut self.current,
        )
    }

    fn whole(&mut self, key: &RunKey, up_to: u64) -> Result<Vec<Event>, SourceFault> {
        whole(
            &self.client,
            &mut self.journal.tally,
            &mut self.journal.notes,
            &mut self.current,
            key,
            up_to,
        )
    }

    fn answer_workflow(&mut self, name: TaskName, answer: Answer) -> Result<(), SourceFault> {
        self.answer_replayed(name, answer, &[], 0).sent
    }

    fn answer_replayed(
        &mut self,
        name: TaskName,
        answer: Answer,
        events: &[Event],
        steps: u64,
    ) -> Acceptance {
        let current = self.current.take();
        let accepted = answer_workflow(
            &self.client,
            self.query_handler,
            &mut self.journal.tally,
            &mut self.journal.notes,
            &mut self.taken,
            current,
            name,
            answer,
            events,
            steps,
        );
        self.acknowledged = cacheable_task(accepted.run, name);
        accepted
    }

    fn without_answer(&self) -> RunUse {
        RunUse::Discard
    }

    fn answer_activity(
        &mut self,
        name: TaskName,
        answer: ActivityAnswer,
    ) -> Result<(), SourceFault> {
        let current = self.current.take();
        answer_activity(
            &self.client,
            &mut self.journal.tally,
            &mut self.journal.notes,
            &mut self.taken,
            current,
            name,
            answer,
        )
    }
}
