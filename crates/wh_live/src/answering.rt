//! Answers workflow tasks, and sends, notes and records answers.

ghost use Rattle.std.specs.Prelude.{◌≡◌, ◌≢◌, ◌≤◌, ◌<◌, ◌-◌, ◌↔◌, ◌++◌, ◌∷◌, [], true, false, None, Ok, IsTrue, IsOk, IfOk, MatchResult, OnOk, OnErr};
ghost use Rattle.serde_json.specs.View.{members_view};
ghost use Rattle.wh_client.specs.Codes.{is_taken};
ghost use Rattle.wh_client.specs.declared.codes.Receipt.TheVariants.{Acknowledged, NoMemory, Replaced, Withheld};
ghost use Rattle.wh_commands.specs.CarryingOver.{carried_seen};
ghost use Rattle.wh_commands.specs.declared.fault.RequestFault.TheVariants.{OutOfMemory as Unwritten};
ghost use Rattle.wh_messages.specs.declared.request.FailedCause.TheVariants.{TooLarge, Unhandled};
ghost use Rattle.wh_tasks.specs.declared.source.Sent.TheVariants.{Workflow as OfWorkflow};
ghost use Rattle.wh_tasks.specs.Source.{FailsOnly};
ghost use Rattle.wh_live.specs.Answers.{cause_of, receipt_of};
ghost use Rattle.wh_live.specs.Private.Answering.{AnswersOpen, CompletesTask, CompletesWith, FailsTask, HasAnswer, IsAnswerReceipt, IsOpenReceipt, IsReplaced, Settles, IsFailed, IsFailedInstead, WithholdsLater, is_reported, receipt_of_sent, reports_refusal, run_use};
ghost use Rattle.wh_live.specs.Private.Noting.{NotesAnswer, NotesCommands, NotesCompletion, NotesFailure, NotesOpen};
ghost use Rattle.wh_live.specs.Private.Noting.{NotesReplaced, NotesReply, NotesWritten, SettlesUnread};
ghost use Rattle.wh_notes.specs.Tallies.{settled};
ghost use Rattle.wh_live.specs.Private.Receipts.{IsRequestReceipt};

use crate::query_handler::QueryHandler;
use crate::task_log::log_workflow;
use crate::task_queries::complete_answered;
use crate::tasks::OpenTask;
use crate::texts::{lost_text, replay_text, request_text};
use std::alloc::AllocError;
use wh_client::{
    AnswerKind, AskFault, Client, Connection, Receipt, Request, SentAnswer, SourceNote, StatusCode,
    accepted_answer, refused_answer,
};
use wh_commands::{CarriedOver, Members, RequestFault, continues_as_new};
use wh_events::{Event, GhostList, OutOfMemory};
use wh_json::ReadFault;
use wh_messages::FailedCause;
use wh_notes::{SourceNotes, Tally, fault_text, history_text};
use wh_replay::{Answer, Fault};
use wh_slots::TaskName;
use wh_tasks::{Acceptance, RunUse, Sent, SourceFault};
use wh_workflow::Command;

/// Returns whether a failure is sent in this attempt of a task. A server hands out a failed task
/// again at once.
fn sends_failure(attempt: u64) -> bool
    ensures { (result ≡ true) ↔ attempt ≤ 1 }
{
    attempt <= 1
}

/// Returns the cause with which a fault is sent.
fn cause_of(fault: &Fault) -> FailedCause
    ensures { result ≡ cause_of fault.now }
{
    match fault {
        Fault::Mismatch { .. } => FailedCause::Nondeterministic,
        Fault::NotATask | Fault::Place { .. } | Fault::Workflow { .. } => FailedCause::Unhandled,
    }
}

/// Returns what became of an answer whose call failed.
fn receipt_of(fault: &AskFault) -> Receipt
    ensures is { result ≡ receipt_of fault.now }
    ensures unacknowledged { result ≢ Acknowledged }
    ensures sent { result ≢ Withheld }
{
    match fault {
        AskFault::Refused { status, .. } => refused_answer(*status),
        AskFault::Closed => Receipt::Cut,
        AskFault::OutOfMemory => Receipt::NoMemory,
        AskFault::Output | AskFault::Unreadable | AskFault::TooManyPages | AskFault::History(_) =>
            Receipt::Lost,
    }
}

/// Returns whether a refused answer is reported, by its status and message. It is not if the task
/// is over, nor if the run had new events while its answer closed it (`UnhandledCommand`): both are
/// normal.
fn reports_refusal(status: StatusCode, message: &str) -> bool
    ensures { result ≡ reports_refusal status message.now }
{
    match status {
        StatusCode::NotFound => false,
        StatusCode::InvalidArgument => message != "UnhandledCommand",
        StatusCode::Cancelled
        | StatusCode::PermissionDenied
        | StatusCode::Unauthenticated
        | StatusCode::Other => true,
    }
}

/// Returns whether the failed call of an answer is reported.
fn is_reported(fault: &AskFault) -> bool
    ensures { result ≡ is_reported fault.now }
{
    match fault {
        AskFault::Refused {
            status,
            message,
            ..
        } => reports_refusal(*status, message.as_str()),
        AskFault::Closed | AskFault::OutOfMemory => false,
        AskFault::Output | AskFault::Unreadable | AskFault::TooManyPages | AskFault::History(_) =>
            true,
    }
}

/// Returns what becomes of the run of a task, by what became of the answer.
fn run_use(receipt: Receipt) -> RunUse
    ensures { result ≡ run_use receipt }
{
    if receipt.keeps_run() {
        RunUse::Cache
    } else {
        RunUse::Discard
    }
}

/// Reports something about a task.
pub(crate) fn report_of<L: Connection>(client: &Client<'_, L>, task: &OpenTask, what: &str) {
    if let Ok(text) = task.describe(client.allocator(), what) {
        client.connection.report(text.as_str());
    }
}

/// Reports what went wrong with a task.
fn report_fault<L: Connection>(client: &Client<'_, L>, task: &OpenTask, fault: &AskFault) {
    if let Ok(text) = fault_text(client.allocator(), fault) {
        report_of(client, task, text.as_str());
    }
}

/// Reports why the history of a task has no usable result.
fn report_lost<L: Connection>(client: &Client<'_, L>, task: &OpenTask, fault: &AskFault) {
    if let Ok(text) = lost_text(client.allocator(), task, fault) {
        client.connection.report(text.as_str());
    }
}

/// Returns what became of an answer, by what its call came to: whether the server discarded the
/// task, or why it failed. Reports that if it was refused or lost and that is not normal.
fn receipt_of_call<L: Connection>(
    client: &Client<'_, L>,
    task: &OpenTask,
    sent: Result<bool, AskFault>,
) -> Receipt
    ensures is { result ≡ receipt_of_sent sent }
    ensures sent { result ≢ Withheld }
    ensures kept { result ≢ Replaced }
{
    match sent {
        Ok(is_discarded) => accepted_answer(is_discarded),
        Err(fault) => {
            if is_reported(&fault) {
                report_fault(client, task, &fault);
            }
            receipt_of(&fault)
        }
    }
}

/// Returns what is noted of an answer to a task that was sent, at this time in microseconds of the
/// connection's clock.
fn sent_answer(task: &OpenTask, kind: AnswerKind, receipt: Receipt, now: u64) -> SentAnswer
    ensures { result
        ≡ record { kind = kind; receipt = receipt; microseconds = now - task.now.since } }
{
    SentAnswer {
        kind,
        receipt,
        microseconds: now.saturating_sub(task.since),
    }
}

/// Returns what became of an answer that was sent, as [`receipt_of_call`] does, and notes it.
pub(crate) fn receive<L: Connection>(
    client: &Client<'_, L>,
    task: &OpenTask,
    kind: AnswerKind,
    sent: Result<bool, AskFault>,
    notes: &mut SourceNotes,
) -> Receipt
    ensures is { result ≡ receipt_of_sent sent }
    ensures sent { result ≢ Withheld }
    ensures kept { result ≢ Replaced }
    ensures noted { NotesAnswer L.shows task.now.since kind result notes.old notes.new }
{
    let receipt = receipt_of_call(client, task, sent);
    let now = client.connection.microseconds();
    let answer = sent_answer(task, kind, receipt, now);
    notes.note(client.connection, SourceNote::Answer(answer));
    receipt
}

/// Sends an answer to a task, if there was memory for it.
pub(crate) fn send_written<L: Connection>(
    client: &Client<'_, L>,
    task: &OpenTask,
    kind: AnswerKind,
    request: Result<Request, OutOfMemory>,
    notes: &mut SourceNotes,
) -> Receipt
    ensures received { MatchResult request
        (λ request. IsRequestReceipt L.gives L.fails request result) (λ _. result ≡ NoMemory) }
    ensures sent { result ≢ Withheld }
    ensures kept { result ≢ Replaced }
    ensures noted { NotesWritten L.shows task.now.since kind result notes.old notes.new }
{
    match request {
        Ok(request) => {
            let sent = client.send(request);
            receive(client, task, kind, sent, notes)
        }
        Err(_) => Receipt::NoMemory,
    }
}

/// Fails a workflow task, unless this is a later attempt of it. Reports the failure in any case.
fn fail<L: Connection>(
    client: &Client<'_, L>,
    task: &OpenTask,
    cause: FailedCause,
    message: &str,
    notes: &mut SourceNotes,
) -> Receipt
    ensures later { (result ≡ Withheld) ↔ (1 < task.now.attempt) }
    ensures sent { result ≢ Withheld →
        FailsTask L.gives L.fails client.now.options.now.names task.now.token cause result }
    ensures kept { result ≢ Replaced }
    ensures noted { NotesFailure L.shows task.now.since result notes.old notes.new }
{
    report_of(client, task, message);
    if !sends_failure(task.attempt) {
        return Receipt::Withheld;
    }
    let request = client.failure_request(&task.token, cause, message);
    send_written(client, task, AnswerKind::WorkflowFailure, request, notes)
}

/// Fails a workflow task because of a fault of replay.
fn fail_replay<L: Connection>(
    client: &Client<'_, L>,
    task: &OpenTask,
    fault: &Fault,
    notes: &mut SourceNotes,
) -> Receipt
    ensures later { result ≢ NoMemory → (result ≡ Withheld) ↔ (1 < task.now.attempt) }
    ensures sent { result ≢ Withheld →
        FailsTask L.gives L.fails client.now.options.now.names task.now.token (cause_of fault.now) result }
    ensures kept { result ≢ Replaced }
    ensures noted { NotesFailure L.shows task.now.since result notes.old notes.new }
{
    match replay_text(client.allocator(), fault) {
        Ok(text) => fail(client, task, cause_of(fault), text.as_str(), notes),
        Err(_) => Receipt::NoMemory,
    }
}

/// Fails a workflow task whose history is malformed.
pub(crate) fn fail_unreadable<L: Connection>(
    client: &Client<'_, L>,
    task: &OpenTask,
    fault: &ReadFault,
    notes: &mut SourceNotes,
) -> Receipt
    ensures later { result ≢ NoMemory → (result ≡ Withheld) ↔ (1 < task.now.attempt) }
    ensures sent { result ≢ Withheld →
        FailsTask L.gives L.fails client.now.options.now.names task.now.token Unhandled result }
    ensures noted { NotesFailure L.shows task.now.since result notes.old notes.new }
{
    match history_text(client.allocator(), fault) {
        Ok(text) => fail(client, task, FailedCause::Unhandled, text.as_str(), notes),
        Err(_) => Receipt::NoMemory,
    }
}

/// Fails a workflow task whose answer can't be sent, with the reason. Without memory for that the
/// task is not failed.
fn replace<L: Connection>(
    client: &Client<'_, L>,
    task: &OpenTask,
    cause: FailedCause,
    reason: Result<String, AllocError>,
    notes: &mut SourceNotes,
) -> Receipt
    ensures replaced { IsReplaced result }
    ensures failed { result ≡ Replaced →
        IsFailed L.gives L.fails client.now.options.now.names task.now.token task.now.attempt cause }
    ensures noted { NotesReplaced L.shows task.now.since result notes.old notes.new }
{
    let Ok(text) = reason else {
        return Receipt::NoMemory;
    };
    match fail(client, task, cause, text.as_str(), notes) {
        Receipt::NoMemory => Receipt::NoMemory,
        _ => Receipt::Replaced,
    }
}

/// Sends the completion of a workflow task. If it is larger than the server accepts, the task is
/// failed instead.
fn send_completed<L: Connection>(
    client: &Client<'_, L>,
    task: &OpenTask,
    request: Request,
    notes: &mut SourceNotes,
) -> Receipt
    ensures received { IsRequestReceipt L.gives L.fails request result }
    ensures sent { result ≢ Withheld }
    ensures failed { result ≡ Replaced →
        IsFailed L.gives L.fails client.now.options.now.names task.now.token task.now.attempt TooLarge }
    ensures noted { NotesCompletion L.shows task.now.since result notes.old notes.new }
{
    match client.send(request) {
        Err(fault) if fault.is_too_large() => {
            let reason = fault_text(client.allocator(), &fault);
            replace(client, task, FailedCause::TooLarge, reason, notes)
        }
        sent => receive(client, task, AnswerKind::WorkflowCompletion, sent, notes),
    }
}

/// Fails a workflow task whose completion can't be written, unless there is no memory.
pub(crate) fn replace_unwritten<L: Connection>(
    client: &Client<'_, L>,
    task: &OpenTask,
    fault: &RequestFault,
    notes: &mut SourceNotes,
) -> Receipt
    ensures replaced { IsReplaced result }
    ensures memory { fault.now ≡ Unwritten → result ≡ NoMemory }
    ensures failed { result ≡ Replaced →
        IsFailed L.gives L.fails client.now.options.now.names task.now.token task.now.attempt Unhandled }
    ensures noted { NotesReplaced L.shows task.now.since result notes.old notes.new }
{
    match fault {
        RequestFault::OutOfMemory => Receipt::NoMemory,
        RequestFault::TooLong { .. }
        | RequestFault::NotScheduled { .. }
        | RequestFault::NeverSent { .. } => {
            let reason = request_text(client.allocator(), fault);
            replace(client, task, FailedCause::Unhandled, reason, notes)
        }
    }
}

/// Completes a workflow task with commands, after the events that they were replayed from, with
/// results of queries, and with what its run carries over.
pub(crate) fn complete_with<L: Connection>(
    client: &Client<'_, L>,
    task: &OpenTask,
    commands: &[Command],
    events: &[Event],
    results: Members,
    carried: &CarriedOver,
    notes: &mut SourceNotes,
) -> Receipt
    ensures sent { result ≢ Withheld }
    ensures received { CompletesWith L.gives L.fails client.now.options.now task.now commands.now
        events.now (members_view results.entries) (carried_seen carried.now) result }
    ensures replaced { result ≡ Replaced →
        IsFailedInstead L.gives L.fails client.now.options.now.names task.now }
    ensures noted { NotesCompletion L.shows task.now.since result notes.old notes.new }
{
    match client.completion_request(&task.token, commands, events, results, carried) {
        Ok(request) => send_completed(client, task, request, notes),
        Err(fault) => replace_unwritten(client, task, &fault, notes),
    }
}

/// Completes a workflow task with commands, after the events that they were replayed from. If they
/// continue the run as a new one, what it carries over is fetched first.
fn complete<L: Connection, Q: QueryHandler>(
    client: &Client<'_, L>,
    query_handler: &Q,
    task: &OpenTask,
    commands: &[Command],
    events: &[Event],
    notes: &mut SourceNotes,
) -> Receipt
    requires { Q.ready query_handler.now }
    ensures sent { result ≢ Withheld }
    ensures received { CompletesTask (Q.gives_results query_handler.now) L.gives L.fails
        client.now.options.now task.now commands.now events.now result }
    ensures replaced { result ≡ Replaced →
        IsFailedInstead L.gives L.fails client.now.options.now.names task.now }
    ensures noted { NotesCommands L.gives L.fails L.shows client.now.options.now.names task.now
        commands.now result notes.old notes.new }
{
    if !continues_as_new(commands) {
        let carried = CarriedOver::nothing();
        return complete_answered(
            client,
            query_handler,
            task,
            commands,
            events,
            &carried,
            notes,
        );
    }
    match client.fetch_carried(&task.run) {
        Ok(carried) => {
            complete_answered(
                client,
                query_handler,
                task,
                commands,
                events,
                &carried,
                notes,
            )
        }
        Err(fault) => receipt_of_call(client, task, Err(fault)),
    }
}

/// Answers a workflow task.
fn respond<L: Connection, Q: QueryHandler>(
    client: &Client<'_, L>,
    query_handler: &Q,
    task: &OpenTask,
    answer: &Answer,
    events: &[Event],
    notes: &mut SourceNotes,
) -> Receipt
    requires { Q.ready query_handler.now }
    ensures kept_back { WithholdsLater task.now answer.now result }
    ensures received { result ≢ Withheld → HasAnswer (Q.gives_results query_handler.now)
        L.gives L.fails client.now.options.now task.now answer.now events.now result }
    ensures replaced { result ≡ Replaced →
        IsFailedInstead L.gives L.fails client.now.options.now.names task.now }
    ensures noted { NotesReply L.gives L.fails L.shows client.now.options.now.names answer.now
        task.now result notes.old notes.new }
{
    match answer {
        Answer::Complete(commands) => {
            complete(client, query_handler, task, commands.get(), events, notes)
        }
        Answer::Fail(fault) => fail_replay(client, task, fault, notes),
    }
}

/// Fails the open task if its history is malformed, and reports any other fault. Returns whether it
/// is a fault of the source: the bridge was open, and no usable result came, or there was no memory
/// to fail the task.
pub(crate) fn settle_unread<L: Connection>(
    client: &Client<'_, L>,
    current: &mut Option<OpenTask>,
    fault: &AskFault,
    notes: &mut SourceNotes,
) -> bool
    ensures settles { SettlesUnread L.gives L.fails L.shows client.now.options.now.names current.old fault.now result
        notes.old notes.new }
    ensures settled { current.new ≡ None }
{
    let Some(task) = current.take() else {
        return true;
    };
    match fault {
        AskFault::History(why) => fail_unreadable(client, &task, why, notes) == Receipt::NoMemory,
        AskFault::Closed => false,
        AskFault::Output
        | AskFault::Refused { .. }
        | AskFault::Unreadable
        | AskFault::TooManyPages
        | AskFault::OutOfMemory => {
            report_lost(client, &task, fault);
            true
        }
    }
}

/// Answers the open workflow task, if it has this name, and logs how it ended.
fn answer_open<L: Connection, Q: QueryHandler>(
    client: &Client<'_, L>,
    query_handler: &Q,
    current: &Option<OpenTask>,
    name: TaskName,
    answer: &Answer,
    events: &[Event],
    steps: u64,
    notes: &mut SourceNotes,
) -> Receipt
    requires { Q.ready query_handler.now }
    ensures received { IsOpenReceipt (IsAnswerReceipt (Q.gives_results query_handler.now)
        L.gives L.fails client.now.options.now answer.now events.now) current.now name result }
    ensures noted { NotesOpen (NotesReply L.gives L.fails L.shows client.now.options.now.names answer.now)
        current.now name result notes.old notes.new }
{
    let Some(task) = current else {
        return Receipt::Lost;
    };
    if task.name != name {
        return Receipt::Lost;
    }
    let receipt = respond(client, query_handler, task, answer, events, notes);
    log_workflow(client, task, answer, events, steps, receipt);
    receipt
}

/// Answers the workflow task of a name, and records the answer if it counts as taken. The run may
/// be cached if the server acknowledged the answer and did not discard the task.
pub(crate) fn answer_workflow<L: Connection, Q: QueryHandler>(
    client: &Client<'_, L>,
    query_handler: &Q,
    tally: &mut Tally,
    notes: &mut SourceNotes,
    taken: &mut GhostList<(TaskName, Sent)>,
    current: Option<OpenTask>,
    name: TaskName,
    answer: Answer,
    events: &[Event],
    steps: u64,
) -> Acceptance
    requires { Q.ready query_handler.now }
    ensures sent { OnOk result.sent (taken.new.items ≡ taken.old.items ++ (name, OfWorkflow answer) ∷ []) }
    ensures unsent { OnErr result.sent (taken.new.items ≡ taken.old.items) }
    ensures run { result.run ≡ RunUse.Cache → AnswersOpen (IsAnswerReceipt (Q.gives_results query_handler.now)
        L.gives L.fails client.now.options.now answer events.now) current name Acknowledged }
    ensures settled { Settles (λ receipt.
        IsOpenReceipt (IsAnswerReceipt (Q.gives_results query_handler.now)
        L.gives L.fails client.now.options.now answer events.now) current name receipt
        × NotesOpen (NotesReply L.gives L.fails L.shows client.now.options.now.names answer)
        current name receipt notes.old notes.new)
        result.sent tally.old tally.new }
    ensures failures { FailsOnly result.sent tally.old.failures tally.new.failures }
{
    let receipt = answer_open(
        client,
        query_handler,
        &current,
        name,
        &answer,
        events,
        steps,
        notes,
    );
    let sent = settle(tally, taken, receipt, (name, Sent::Workflow(answer)));
    Acceptance {
        sent,
        run: run_use(receipt),
    }
}

/// Counts an answer that does not count as taken, and records one that does.
pub(crate) fn settle(
    tally: &mut Tally,
    taken: &mut GhostList<(TaskName, Sent)>,
    receipt: Receipt,
    sent: (TaskName, Sent),
) -> Result<(), SourceFault>
    ensures sent { OnOk result (taken.new.items ≡ taken.old.items ++ sent ∷ []) }
    ensures unsent { OnErr result (taken.new.items ≡ taken.old.items) }
    ensures taken { IsTrue (is_taken receipt) ↔ IsOk result }
    ensures failures { FailsOnly result tally.old.failures tally.new.failures }
    ensures tally { tally.new ≡ settled receipt tally.old }
{
    if receipt.is_taken() {
        *taken = taken.with(&sent);
        return Ok(());
    }
    match receipt {
        Receipt::NoMemory => Err(SourceFault::OutOfMemory),
        Receipt::Lost => Err(tally.count_failure(true)),
        _ => Err(tally.count_failure(false)),
    }
}
