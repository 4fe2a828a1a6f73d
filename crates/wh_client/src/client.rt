//! The client of a server: its polls, and the histories that it fetches.

ghost use Rattle.std.specs.Prelude.{◌≡◌, [], IfErr, IfOk, Some, codes, map};
ghost use Rattle.serde_json.specs.View.{view};
ghost use Rattle.wh_messages.specs.Responses.{poll_seen};
ghost use Rattle.wh_client.specs.Histories.{CanNotBeRead, CarriesNothing, CarriesUnknown, HandsOn, HasAllMembers, IsWhole, ReadsEvents};
ghost use Rattle.wh_client.specs.Pages.{ReadsNotOn};
ghost use Rattle.wh_messages.specs.Requests.{poll_activity, poll_workflow};
ghost use Rattle.wh_commands.specs.CarryingOver.{carried_in, carried_seen};
ghost use Rattle.wh_client.specs.Polls.{IsActivityPoll, IsWorkflowPoll};
ghost use Rattle.wh_client.specs.Refusals.{HasItsStatus, HasNoMeaning, IsFaultBy, of_page};

use crate::asking::{AskFault, ask_poll};
use crate::codes::StatusCode;
use crate::connection::Connection;
use crate::options::LiveOptions;
use crate::pages::{append_pages, ask_first_page};
use serde_json::Value;
use std::alloc::Global;
use wh_commands::{CarriedOver, carried_over};
use wh_events::{Event, RunKey, Text};
use wh_json::{ReadFault, read_members};
use wh_messages::{
    ActivityPoll, HistoryPage, WorkflowPoll, activity_poll, poll_activity, poll_workflow,
    workflow_poll,
};
use wh_tasks::ActivityCell;

/// The client of a server for one worker, with what all workers of a process share.
#[derive(Drop)]
pub struct Client<'a, L> {
    /// The connection over which it makes calls.
    pub connection: &'a L,
    /// The worker's options.
    pub options: &'a LiveOptions,
    /// What is known of the activity task that the worker runs, if its handler may send heartbeats.
    pub cell: Option<&'a ActivityCell>,
}

/// Returns the fault of a poll whose history page could not be fetched. A refused page says nothing
/// about later polls.
fn of_page(fault: AskFault) -> AskFault
    ensures meaning { HasNoMeaning result }
    ensures is { result ≡ of_page fault }
{
    match fault {
        AskFault::Refused { code, message, .. } => AskFault::Refused {
            status: StatusCode::Other,
            code,
            message,
        },
        fault => fault,
    }
}

/// Reads what a run carries over from the page with which its history begins.
fn carried_in_page(page: &HistoryPage) -> Result<CarriedOver, AskFault>
    ensures carried { IfOk result (λ carried.
        carried_in (map view page.now.members.items) ≡ Some (carried_seen carried)) }
    ensures failed { IfErr result (CarriesNothing (map view page.now.members.items)) }
    ensures refused { IfErr result HasNoMeaning }
{
    match carried_over(page.members.as_slice())? {
        Some(carried) => Ok(carried),
        None => Err(AskFault::Unreadable),
    }
}

/// Reads the events of a history. `History` says why they are malformed, `OutOfMemory` that there
/// was no memory for them.
pub fn read_history(alloc: Global, members: &[Value]) -> Result<Vec<Event>, AskFault>
    ensures read { IfOk result (λ events. ReadsEvents (map view members.now) events.items) }
    ensures unread { IfErr result (CanNotBeRead (map view members.now)) }
{
    match read_members(alloc, members) {
        Ok(events) => Ok(events),
        Err(ReadFault::OutOfMemory) => Err(AskFault::OutOfMemory),
        Err(fault) => Err(AskFault::History(fault)),
    }
}

impl<L: Connection> Client<'_, L> {
    /// Returns the allocator that it uses.
    pub fn allocator(&self) -> Global {
        self.connection.allocator()
    }

    /// Polls the sticky queue, or the one that all workers poll, for workflow tasks, and returns
    /// the id of the poll and what the response means. The error says why there is no result: a
    /// refusal has the status of its code.
    pub fn ask_workflow(&self, sticky: bool) -> Result<(u64, WorkflowPoll), AskFault>
        ensures polled { IfOk result (λ polled.
            IsWorkflowPoll L.gives self.now.options.now.names sticky (poll_seen polled.1)) }
        ensures failed { IfErr result (IsFaultBy (L.fails (codes "PollWorkflowTaskQueue")
            (poll_workflow self.now.options.now.names sticky))) }
        ensures refused { IfErr result HasItsStatus }
    {
        let params = poll_workflow(self.allocator(), &self.options.names, sticky)?;
        let (id, value) = ask_poll(self.connection, "PollWorkflowTaskQueue", params)?;
        let poll = workflow_poll(self.allocator(), value)?;
        Ok((id, poll))
    }

    /// Polls for activity tasks, and returns the id of the poll and what the response means. The
    /// error says why there is no result: a refusal has the status of its code.
    pub fn ask_activity(&self) -> Result<(u64, ActivityPoll), AskFault>
        ensures polled { IfOk result (λ polled.
            IsActivityPoll L.gives self.now.options.now.names polled.1) }
        ensures failed { IfErr result (IsFaultBy (L.fails (codes "PollActivityTaskQueue")
            (poll_activity self.now.options.now.names))) }
        ensures refused { IfErr result HasItsStatus }
    {
        let params = poll_activity(self.allocator(), &self.options.names)?;
        let (id, value) = ask_poll(self.connection, "PollActivityTaskQueue", params)?;
        let poll = activity_poll(self.allocator(), &value)?;
        Ok((id, poll))
    }

    /// Returns all events of a task's history, as JSON values: those that it came with, and those
    /// of the pages after them. The error says why a page could not be fetched. If the server
    /// refused it, the status is `Other`, since that says nothing about later polls.
    pub fn with_pages(
        &self,
        run: &RunKey,
        next_page: Text,
        members: Vec<Value>,
    ) -> Result<Vec<Value>, AskFault>
        ensures all { IfOk result (λ all. HasAllMembers L.gives self.now.options.now.names run.now next_page
            (map view members.items) (map view all.items)) }
        ensures failed { IfErr result
            (ReadsNotOn L.gives L.fails self.now.options.now.names run.now next_page) }
        ensures refused { IfErr result HasNoMeaning }
    {
        let mut all = members;
        if next_page.get().is_empty() {
            return Ok(all);
        }
        match append_pages(
            self.connection,
            &self.options.names,
            run,
            next_page,
            &mut all,
        ) {
            Ok(()) => Ok(all),
            Err(fault) => Err(of_page(fault)),
        }
    }

    /// Fetches what a run carries over to the one that continues it, from the first page of its
    /// history that has an event. The error says why it could not be fetched: `Unreadable` also if
    /// that event is not the one that starts the run, or no page has an event, and `TooManyPages`
    /// if 1,000,000 pages have none and more are to come. If the server refused a page, the status
    /// is `Other`, since that says nothing about the task.
    pub fn fetch_carried(&self, run: &RunKey) -> Result<CarriedOver, AskFault>
        ensures carried { IfOk result (λ carried.
            HandsOn L.gives self.now.options.now.names run.now (carried_seen carried)) }
        ensures failed { IfErr result
            (CarriesUnknown L.gives L.fails self.now.options.now.names run.now) }
        ensures refused { IfErr result HasNoMeaning }
    {
        match ask_first_page(self.connection, &self.options.names, run) {
            Ok(page) => carried_in_page(&page),
            Err(fault) => Err(of_page(fault)),
        }
    }

    /// Fetches the history of a run from its first event, as JSON values. The error says why it
    /// could not be fetched.
    pub fn fetch_history(&self, run: &RunKey) -> Result<Vec<Value>, AskFault>
        ensures whole { IfOk result (λ members.
            IsWhole L.gives self.now.options.now.names run.now (map view members.items)) }
        ensures failed { IfErr result
            (ReadsNotOn L.gives L.fails self.now.options.now.names run.now []) }
    {
        let first = Text::new(String::new(self.allocator()));
        let mut members = Vec::new(self.allocator());
        append_pages(
            self.connection,
            &self.options.names,
            run,
            first,
            &mut members,
        )?;
        Ok(members)
    }
}
