//! Completes workflow tasks with the results of the queries that came with them.

ghost use Rattle.std.specs.Prelude.{◌≡◌, ◌≢◌};
ghost use Rattle.serde_json.specs.Data.{no_members};
ghost use Rattle.serde_json.specs.View.{view};
ghost use Rattle.wh_client.specs.declared.codes.Receipt.TheVariants.{Replaced, Withheld};
ghost use Rattle.wh_commands.specs.CarryingOver.{carried_seen};
ghost use Rattle.wh_live.specs.Private.Answering.{CompletesAnswered, CompletesQueried, CompletesWith};
ghost use Rattle.wh_live.specs.Private.Answering.{CompletesWritten, IsFailedInstead, IsReceiptOrSmaller};
ghost use Rattle.wh_live.specs.Private.Answering.{ReplacesUnwritten};
ghost use Rattle.wh_live.specs.Private.Noting.{NotesCompletion};

use crate::answering::{complete_with, receive, replace_unwritten, report_of};
use crate::query_handler::QueryHandler;
use crate::tasks::OpenTask;
use crate::texts::oversized_text;
use serde_json::Map;
use wh_client::{AnswerKind, AskFault, Client, Connection, Receipt, Request};
use wh_commands::{CarriedOver, RequestFault};
use wh_events::Event;
use wh_notes::SourceNotes;
use wh_workflow::Command;

/// What is reported if there is no memory for the results of a task's queries, or for the completion
/// with them.
const WITHOUT_RESULTS: &str =
    "out of memory; its completion is sent without the results of queries";

/// Reports that the completion of a task is sent again without the results of its queries.
fn report_oversized<L: Connection>(client: &Client<'_, L>, task: &OpenTask, fault: &AskFault) {
    if let Ok(text) = oversized_text(client.allocator(), fault) {
        report_of(client, task, text.as_str());
    }
}

/// Completes a workflow task with commands, after the events that they were replayed from, without
/// results of queries, and with what its run carries over.
fn complete_alone<L: Connection>(
    client: &Client<'_, L>,
    task: &OpenTask,
    commands: &[Command],
    events: &[Event],
    carried: &CarriedOver,
    notes: &mut SourceNotes,
) -> Receipt
    ensures sent { result ≢ Withheld }
    ensures received { CompletesWith L.gives L.fails client.now.options.now task.now commands.now
        events.now no_members (carried_seen carried.now) result }
    ensures replaced { result ≡ Replaced →
        IsFailedInstead L.gives L.fails client.now.options.now.names task.now }
    ensures noted { NotesCompletion L.shows task.now.since result notes.old notes.new }
{
    let none = Map::new(client.allocator());
    complete_with(client, task, commands, events, none, carried, notes)
}

/// Sends the completion of a workflow task with the results of its queries. If it is larger than the
/// server accepts, the task is completed without them: the server asks such queries again alone.
fn send_answered<L: Connection>(
    client: &Client<'_, L>,
    task: &OpenTask,
    request: Request,
    commands: &[Command],
    events: &[Event],
    carried: &CarriedOver,
    notes: &mut SourceNotes,
) -> Receipt
    ensures sent { result ≢ Withheld }
    ensures received { IsReceiptOrSmaller L.gives L.fails request.method.now (view request.params)
        (CompletesWith L.gives L.fails client.now.options.now task.now commands.now events.now no_members
        (carried_seen carried.now)) result }
    ensures replaced { result ≡ Replaced →
        IsFailedInstead L.gives L.fails client.now.options.now.names task.now }
    ensures noted { NotesCompletion L.shows task.now.since result notes.old notes.new }
{
    match client.send(request) {
        Err(fault) if fault.is_too_large() => {
            report_oversized(client, task, &fault);
            complete_alone(client, task, commands, events, carried, notes)
        }
        sent => receive(client, task, AnswerKind::WorkflowCompletion, sent, notes),
    }
}

/// Completes a workflow task without the results of its queries, since there is no memory for these,
/// and reports that: the server asks such queries again alone.
fn complete_without_results<L: Connection>(
    client: &Client<'_, L>,
    task: &OpenTask,
    commands: &[Command],
    events: &[Event],
    carried: &CarriedOver,
    notes: &mut SourceNotes,
) -> Receipt
    ensures sent { result ≢ Withheld }
    ensures received { CompletesWith L.gives L.fails client.now.options.now task.now commands.now
        events.now no_members (carried_seen carried.now) result }
    ensures replaced { result ≡ Replaced →
        IsFailedInstead L.gives L.fails client.now.options.now.names task.now }
    ensures noted { NotesCompletion L.shows task.now.since result notes.old notes.new }
{
    report_of(client, task, WITHOUT_RESULTS);
    complete_alone(client, task, commands, events, carried, notes)
}

/// Completes a workflow task whose completion with the results of its queries can't be written: by
/// one without them, if there was no memory for it. Otherwise the task is failed.
fn complete_unwritten<L: Connection>(
    client: &Client<'_, L>,
    task: &OpenTask,
    fault: &RequestFault,
    commands: &[Command],
    events: &[Event],
    carried: &CarriedOver,
    notes: &mut SourceNotes,
) -> Receipt
    ensures sent { result ≢ Withheld }
    ensures received { ReplacesUnwritten (CompletesWith L.gives L.fails client.now.options.now
        task.now commands.now events.now no_members (carried_seen carried.now)) fault.now result }
    ensures replaced { result ≡ Replaced →
        IsFailedInstead L.gives L.fails client.now.options.now.names task.now }
    ensures noted { NotesCompletion L.shows task.now.since result notes.old notes.new }
{
    match fault {
        RequestFault::OutOfMemory => {
            complete_without_results(client, task, commands, events, carried, notes)
        }
        RequestFault::TooLong { .. }
        | RequestFault::NotScheduled { .. }
        | RequestFault::NeverSent { .. } => replace_unwritten(client, task, fault, notes),
    }
}

/// Completes a workflow task by what was written for the completion with the results of its queries.
fn complete_written<L: Connection>(
    client: &Client<'_, L>,
    task: &OpenTask,
    written: Result<Request, RequestFault>,
    commands: &[Command],
    events: &[Event],
    carried: &CarriedOver,
    notes: &mut SourceNotes,
) -> Receipt
    ensures sent { result ≢ Withheld }
    ensures received { CompletesWritten L.gives L.fails (CompletesWith L.gives L.fails
        client.now.options.now task.now commands.now events.now no_members (carried_seen carried.now))
        written result }
    ensures replaced { result ≡ Replaced →
        IsFailedInstead L.gives L.fails client.now.options.now.names task.now }
    ensures noted { NotesCompletion L.shows task.now.since result notes.old notes.new }
{
    match written {
        Ok(request) => send_answered(client, task, request, commands, events, carried, notes),
        Err(fault) => complete_unwritten(client, task, &fault, commands, events, carried, notes),
    }
}

/// Completes a workflow task with commands, after the events that they were replayed from, with the
/// results of the queries that came with it, and with what its run carries over. Without memory for
/// the results, or for the completion with them, the task is completed without them: the server asks
/// such queries again alone.
fn complete_queried<L: Connection, Q: QueryHandler>(
    client: &Client<'_, L>,
    query_handler: &Q,
    task: &OpenTask,
    commands: &[Command],
    events: &[Event],
    carried: &CarriedOver,
    notes: &mut SourceNotes,
) -> Receipt
    requires { Q.ready query_handler.now }
    ensures sent { result ≢ Withheld }
    ensures received { CompletesQueried (Q.gives_results query_handler.now) L.gives L.fails
        client.now.options.now task.now commands.now events.now (carried_seen carried.now) result }
    ensures replaced { result ≡ Replaced →
        IsFailedInstead L.gives L.fails client.now.options.now.names task.now }
    ensures noted { NotesCompletion L.shows task.now.since result notes.old notes.new }
{
    let alloc = client.allocator();
    let Ok(results) = query_handler.answer_queries(alloc, events, &task.queries) else {
        return complete_without_results(client, task, commands, events, carried, notes);
    };
    let written = client.completion_request(&task.token, commands, events, results, carried);
    complete_written(client, task, written, commands, events, carried, notes)
}

/// Completes a workflow task with commands, after the events that they were replayed from, with the
/// results of the queries that came with it, if any did, and with what its run carries over.
pub(crate) fn complete_answered<L: Connection, Q: QueryHandler>(
    client: &Client<'_, L>,
    query_handler: &Q,
    task: &OpenTask,
    commands: &[Command],
    events: &[Event],
    carried: &CarriedOver,
    notes: &mut SourceNotes,
) -> Receipt
    requires { Q.ready query_handler.now }
    ensures sent { result ≢ Withheld }
    ensures received { CompletesAnswered (Q.gives_results query_handler.now) L.gives L.fails
        client.now.options.now task.now commands.now events.now (carried_seen carried.now) result }
    ensures replaced { result ≡ Replaced →
        IsFailedInstead L.gives L.fails client.now.options.now.names task.now }
    ensures noted { NotesCompletion L.shows task.now.since result notes.old notes.new }
{
    if task.queries.is_empty() {
        return complete_alone(client, task, commands, events, carried, notes);
    }
    complete_queried(
        client,
        query_handler,
        task,
        commands,
        events,
        carried,
        notes,
    )
}
