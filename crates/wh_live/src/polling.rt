//! Polls for tasks.

ghost use Rattle.std.specs.Prelude.{◌≡◌, ◌≢◌, ◌↔◌, [], IfErr, IfOk, IsErr, Ok, Some, map};
ghost use Rattle.serde_json.specs.View.{view};
ghost use Rattle.wh_client.specs.Histories.{ReadsEvents};
ghost use Rattle.wh_client.specs.Refusals.{HasItsStatus};
ghost use Rattle.wh_client.specs.Roles.{polls_sticky};
ghost use Rattle.wh_client.specs.declared.asking.AskFault.TheVariants as asked;
ghost use Rattle.wh_messages.specs.Responses.{task_seen};
ghost use Rattle.wh_tasks.specs.Source.{FailsOnly, IfTask};
ghost use Rattle.wh_tasks.specs.declared.source.Polled.TheVariants as polled;
ghost use Rattle.wh_live.specs.Deliveries.{AreLater, FromActivities, FromQueue, IsActivityOf, IsActivityTask};
ghost use Rattle.wh_live.specs.Deliveries.{IsTaskOf, IsWorkflowTask};
ghost use Rattle.wh_live.specs.Private.Opening.{IsOpened, OnTask, Opens, OpensActivity, StaysOpen};
ghost use Rattle.wh_live.specs.Private.Opening.{HasPollResult, HasActivityResult, IsLost, IsSilent, IsTask};
ghost use Rattle.wh_live.specs.Private.Opening.{IsActivityFault, IsCutShort, IsWorkflowFault, MayOpen, MayRead};
ghost use Rattle.wh_live.specs.Private.Opening.{GivesOpened, HasLater, OpensPolled, OpensPolledActivity, OpensQueued};
ghost use Rattle.wh_live.specs.Private.Opening.{ActivitiesCameTo, ClosesActivities, ClosesQueue, LeavesOpen, QueueCameTo};
ghost use Rattle.wh_live.specs.Private.Opening.{later_events};
ghost use Rattle.wh_live.specs.Private.Noting.{NotesPolled, NotesTaken};
ghost use Rattle.wh_notes.specs.Polls.{IsOverIfEnded};
ghost use Rattle.wh_replay.specs.Runs.{follows};

use crate::answering::fail_unreadable;
use crate::fetching::append_copies;
use crate::queries::hand_query_on;
use crate::tasks::OpenTask;
use crate::texts::lost_text;
use serde_json::Value;
use std::alloc::Global;
use wh_client::{AskFault, Client, Connection, Receipt, TaskQueueKind, read_history};
use wh_events::{Event, Items, OutOfMemory, RunKey};
use wh_messages::{ActivityPoll, PolledActivity, PolledTask, WorkflowPoll, fault_in_history};
use wh_notes::{Journal, PollResult, PollWords, SourceNotes};
use wh_tasks::{ActivityTask, Polled, SourceFault, WorkflowTask};

/// Opens the task that a poll returned, so that it is the one to be answered.
fn open_polled<T>(
    current: &mut Option<OpenTask>,
    polled: Result<Polled<(OpenTask, T)>, SourceFault>,
) -> Result<Polled<T>, SourceFault>
    ensures { IsOpened polled current.old result current.new }
{
    match polled {
        Ok(Polled::Task((task, given))) => {
            *current = Some(task);
            Ok(Polled::Task(given))
        }
        Ok(Polled::Nothing) => Ok(Polled::Nothing),
        Ok(Polled::Closed) => Ok(Polled::Closed),
        Err(fault) => Err(fault),
    }
}

/// Returns whether events begin with the first one of a history.
fn begins_with_first(events: &[Event]) -> bool
    ensures { result ≡ follows 0 events.now }
{
    match events.first() {
        Some(event) => event.number.get() == 1,
        None => false,
    }
}

/// Copies the events of a task, unless they begin with the first one of its run.
fn later_events(alloc: Global, events: &[Event]) -> Result<Vec<Event>, OutOfMemory>
    ensures { IfOk result (λ later. later.items ≡ later_events events.now) }
{
    let mut later = Vec::new(alloc);
    if !begins_with_first(events) {
        append_copies(&mut later, events)?;
    }
    Ok(later)
}

/// Returns the open task, to be answered later, and the task to be delivered.
fn task_pair(
    alloc: Global,
    task: OpenTask,
    run: RunKey,
    events: Vec<Event>,
) -> Result<(OpenTask, WorkflowTask), OutOfMemory>
    ensures task { IfOk result (λ given. (given.1.run ≡ run) × (given.1.events ≡ events.items)) }
    ensures opened { IfOk result (λ given. StaysOpen task given.0 given.1.name) }
    ensures later { IfOk result (λ given. given.0.later.items ≡ later_events given.1.events) }
{
    let mut task = task;
    task.events = events.len();
    task.note_events(events.as_slice());
    task.later = later_events(alloc, events.as_slice())?;
    let delivered = WorkflowTask {
        name: task.name,
        run,
        events: Items::new(events),
    };
    Ok((task, delivered))
}

/// Gives up a task whose history could not be fetched or read, with the fault and the run for a
/// report. If the bridge has closed there is no more to be reported, and the error says so.
fn give_up<L: Connection, T>(
    client: &Client<'_, L>,
    task: &OpenTask,
    fault: AskFault,
) -> Result<PollResult<T>, AskFault>
    ensures lost { IfOk result IsLost }
    ensures closed { IfErr result (λ why. why ≡ asked.Closed) }
    ensures ends { IsErr result ↔ (fault ≡ asked.Closed) }
{
    match fault {
        AskFault::Closed => Err(AskFault::Closed),
        fault => Ok(PollResult::Lost(lost_text(client.allocator(), task, &fault))),
    }
}

/// Reads the events of a task and returns the open task and the one to be delivered. If the events
/// are malformed the task is failed.
fn read_task<L: Connection>(
    client: &Client<'_, L>,
    task: OpenTask,
    run: RunKey,
    members: &[Value],
    notes: &mut SourceNotes,
) -> Result<PollResult<(OpenTask, WorkflowTask)>, AskFault>
    requires { L.shows task.since }
    ensures task { IfOk result (OnTask (λ taken.
        (taken.1.run ≡ run) × ReadsEvents (map view members.now) taken.1.events)) }
    ensures opened { IfOk result (OnTask (λ taken. StaysOpen task taken.0 taken.1.name)) }
    ensures later { IfOk result (OnTask (λ taken. taken.0.later.items ≡ later_events taken.1.events)) }
    ensures brings { IfOk result (MayRead L.gives L.fails client.now.options.now.names task (map view members.now)) }
    ensures silent { IfErr result IsSilent }
    ensures unclosed { IfErr result (λ why. why ≢ asked.Closed) }
    ensures noted { NotesTaken L.gives L.shows result notes.old notes.new }
{
    match read_history(client.allocator(), members) {
        Ok(events) => Ok(PollResult::Task(task_pair(client.allocator(), task, run, events)?)),
        Err(AskFault::History(fault)) => {
            let fault = fault_in_history(fault, members);
            match fail_unreadable(client, &task, &fault, notes) {
                Receipt::NoMemory => Err(AskFault::OutOfMemory),
                _ => Ok(PollResult::Settled),
            }
        }
        Err(fault) => give_up(client, &task, fault),
    }
}

/// Opens the workflow task that the poll of an id returned, with all pages of its history. If they
/// could not be fetched the task is given up. The error says that the bridge has closed, or that
/// there was no memory.
fn open_task<L: Connection>(
    client: &Client<'_, L>,
    id: u64,
    polled: PolledTask,
    notes: &mut SourceNotes,
) -> Result<PollResult<(OpenTask, WorkflowTask)>, AskFault>
    ensures task { IfOk result (OnTask (λ taken.
        IsTaskOf L.gives client.now.options.now.names (task_seen polled) taken.1)) }
    ensures opened { IfOk result (OnTask (λ taken. Opens L.shows id (task_seen polled) taken.0 taken.1.name)) }
    ensures later { IfOk result (OnTask (λ taken. taken.0.later.items ≡ later_events taken.1.events)) }
    ensures brings { IfOk result
        (MayOpen L.gives L.fails client.now.options.now.names (task_seen polled)) }
    ensures silent { IfErr result IsSilent }
    ensures closed { IfErr result (λ why. why ≡ asked.Closed →
        IsCutShort L.gives L.fails client.now.options.now.names (task_seen polled)) }
    ensures noted { NotesTaken L.gives L.shows result notes.old notes.new }
{
    let since = client.connection.microseconds();
    let PolledTask {
        token,
        run,
        attempt,
        members,
        next_page,
        queries,
    } = polled;
    let key = run.try_copy()?;
    let mut opened = OpenTask::new(client.allocator(), id, since, token, key);
    opened.attempt = attempt;
    opened.queries = queries;
    match client.with_pages(&run, next_page, members) {
        Ok(members) => read_task(client, opened, run, members.as_slice(), notes),
        Err(fault) => give_up(client, &opened, fault),
    }
}

/// Polls for workflow tasks and reads the result. One that can't be read is a fault.
#[tactic(auto, using(crate::proofs::Silent::silent_has_status))]
fn take_workflow<L: Connection>(
    client: &Client<'_, L>,
    sticky: bool,
    notes: &mut SourceNotes,
) -> Result<PollResult<(OpenTask, WorkflowTask)>, AskFault>
    ensures task { IfOk result (OnTask (λ taken.
        IsWorkflowTask L.gives client.now.options.now.names sticky taken.1)) }
    ensures opened { IfOk result (OnTask (λ taken.
        OpensPolled L.gives L.shows client.now.options.now.names sticky taken.0 taken.1)) }
    ensures later { IfOk result (OnTask (λ taken.
        AreLater L.gives client.now.options.now.names (Some sticky) taken.0.run taken.0.later.items)) }
    ensures brings { IfOk result (HasPollResult L.gives L.fails client.now.options.now.names sticky) }
    ensures failed { IfErr result
        (IsWorkflowFault L.gives L.fails client.now.options.now.names sticky) }
    ensures refused { IfErr result HasItsStatus }
    ensures noted { NotesTaken L.gives L.shows result notes.old notes.new }
{
    let (id, poll) = client.ask_workflow(sticky)?;
    match poll {
        WorkflowPoll::Task(polled) => open_task(client, id, polled, notes),
        WorkflowPoll::Nothing => Ok(PollResult::Empty),
        WorkflowPoll::Query(query) => {
            hand_query_on(client, query);
            Ok(PollResult::Settled)
        }
        WorkflowPoll::Unreadable => Err(AskFault::Unreadable),
    }
}

/// Opens the activity task that the poll of an id returned.
fn open_activity<L: Connection>(
    client: &Client<'_, L>,
    id: u64,
    polled: PolledActivity,
) -> Result<PollResult<(OpenTask, ActivityTask)>, AskFault>
    ensures task { IfOk result (OnTask (λ taken. IsActivityOf polled taken.1)) }
    ensures opened { IfOk result (OnTask (λ taken. OpensActivity L.shows id polled taken.0 taken.1.name)) }
    ensures later { IfOk result (OnTask (λ taken. taken.0.later.items ≡ [])) }
    ensures brings { IfOk result IsTask }
    ensures silent { IfErr result IsSilent }
    ensures unclosed { IfErr result (λ why. why ≢ asked.Closed) }
{
    let since = client.connection.microseconds();
    let PolledActivity {
        token,
        run,
        id: activity_id,
        activity,
        input,
        info,
    } = polled;
    client.begin_activity(&token, info);
    let key = run.try_copy()?;
    let what = activity.try_copy()?;
    let mut opened = OpenTask::new(client.allocator(), id, since, token, key);
    opened.what = what;
    let task = ActivityTask {
        name: opened.name,
        run,
        id: activity_id,
        activity,
        input,
    };
    Ok(PollResult::Task((opened, task)))
}

/// Polls for activity tasks and reads the result. One that can't be read is a fault.
#[tactic(auto, using(crate::proofs::Silent::silent_has_status))]
fn take_activity<L: Connection>(
    client: &Client<'_, L>,
) -> Result<PollResult<(OpenTask, ActivityTask)>, AskFault>
    ensures task { IfOk result (OnTask (λ taken.
        IsActivityTask L.gives client.now.options.now.names taken.1)) }
    ensures opened { IfOk result (OnTask (λ taken.
        OpensPolledActivity L.gives L.shows client.now.options.now.names taken.0 taken.1)) }
    ensures later { IfOk result (OnTask (λ taken. taken.0.later.items ≡ [])) }
    ensures brings { IfOk result (HasActivityResult L.gives client.now.options.now.names) }
    ensures failed { IfErr result (IsActivityFault L.gives L.fails client.now.options.now.names) }
    ensures refused { IfErr result HasItsStatus }
{
    let (id, poll) = client.ask_activity()?;
    match poll {
        ActivityPoll::Task(polled) => open_activity(client, id, polled),
        ActivityPoll::Nothing => Ok(PollResult::Empty),
        ActivityPoll::Unreadable => Err(AskFault::Unreadable),
    }
}

/// Polls for workflow tasks, as the source of a role. A worker of activities polls for none.
pub(crate) fn poll_workflow<L: Connection>(
    client: &Client<'_, L>,
    role: TaskQueueKind,
    journal: &mut Journal,
    current: &mut Option<OpenTask>,
) -> Result<Polled<WorkflowTask>, SourceFault>
    ensures task { IfOk result (IfTask
        (FromQueue L.gives client.now.options.now.names (polls_sticky role))) }
    ensures opened { GivesOpened (OpensQueued L.gives L.shows client.now.options.now.names (polls_sticky role))
        result current.new }
    ensures later { HasLater L.gives client.now.options.now.names (polls_sticky role) current.old →
        HasLater L.gives client.now.options.now.names (polls_sticky role) current.new }
    ensures failures { FailsOnly result journal.old.tally.failures journal.new.tally.failures }
    ensures ended { IsOverIfEnded L.fails journal.old.ended → IsOverIfEnded L.fails journal.new.ended }
    ensures closed { result ≡ Ok polled.Closed →
        ClosesQueue L.gives L.fails client.now.options.now.names (polls_sticky role) journal.old.ended }
    ensures stays { LeavesOpen result current.old current.new }
    ensures noted { NotesPolled L.shows (QueueCameTo L.gives L.fails client.now.options.now.names (polls_sticky role))
        result journal.old.notes journal.new.notes }
{
    if journal.ended {
        return Ok(Polled::Closed);
    }
    let Some(sticky) = role.polls_sticky() else {
        return Ok(Polled::Closed);
    };
    let taken = take_workflow(client, sticky, &mut journal.notes);
    let words = PollWords::for_workflows(&client.options.names, sticky);
    let polled = journal.note_poll(client.connection, words, taken);
    open_polled(current, polled)
}

/// Polls for activity tasks, as the source of a role. Only a worker of activities polls for them.
pub(crate) fn poll_activity<L: Connection>(
    client: &Client<'_, L>,
    role: TaskQueueKind,
    journal: &mut Journal,
    current: &mut Option<OpenTask>,
) -> Result<Polled<ActivityTask>, SourceFault>
    ensures task { IfOk result (IfTask
        (FromActivities L.gives client.now.options.now.names role)) }
    ensures opened { GivesOpened (OpensPolledActivity L.gives L.shows client.now.options.now.names)
        result current.new }
    ensures later { HasLater L.gives client.now.options.now.names (polls_sticky role) current.old →
        HasLater L.gives client.now.options.now.names (polls_sticky role) current.new }
    ensures failures { FailsOnly result journal.old.tally.failures journal.new.tally.failures }
    ensures ended { IsOverIfEnded L.fails journal.old.ended → IsOverIfEnded L.fails journal.new.ended }
    ensures closed { result ≡ Ok polled.Closed →
        ClosesActivities L.gives L.fails client.now.options.now.names role journal.old.ended }
    ensures stays { LeavesOpen result current.old current.new }
    ensures noted { NotesPolled L.shows (ActivitiesCameTo L.gives L.fails client.now.options.now.names)
        result journal.old.notes journal.new.notes }
{
    if journal.ended || role != TaskQueueKind::Activities {
        return Ok(Polled::Closed);
    }
    let taken = take_activity(client);
    let words = PollWords::for_activities(&client.options.names);
    let polled = journal.note_poll(client.connection, words, taken);
    open_polled(current, polled)
}
