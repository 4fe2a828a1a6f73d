//! Answers activity tasks.

ghost use Rattle.std.specs.Prelude.{◌≡◌, ◌++◌, ◌∷◌, [], IfOk, OnOk, OnErr};
ghost use Rattle.wh_tasks.specs.declared.source.Sent.TheVariants.{Activity as OfActivity};
ghost use Rattle.wh_tasks.specs.Source.{FailsOnly};
ghost use Rattle.wh_live.specs.Kinds.{kind_of};
ghost use Rattle.wh_live.specs.Private.Activities.{IsActivityReceipt, IsActivityRequest};
ghost use Rattle.wh_live.specs.Private.Answering.{IsOpenReceipt, Settles};
ghost use Rattle.wh_live.specs.Private.Noting.{NotesActivity, NotesOpen};

use crate::answering::{send_written, settle};
use crate::task_log::log_activity;
use crate::tasks::OpenTask;
use wh_client::{AnswerKind, Client, Connection, Receipt, Request};
use wh_events::{GhostList, OutOfMemory};
use wh_notes::{SourceNotes, Tally};
use wh_slots::TaskName;
use wh_tasks::{ActivityAnswer, Sent, SourceFault};

/// Writes the answer to an activity task. A failed activity is answered as canceled if a
/// heartbeat's response said that it is to be canceled (`was_canceled`).
fn activity_request<L: Connection>(
    client: &Client<'_, L>,
    task: &OpenTask,
    answer: &ActivityAnswer,
    was_canceled: bool,
) -> Result<Request, OutOfMemory>
    ensures { IfOk result
        (IsActivityRequest client.now.options.now.names task.now.token answer.now was_canceled) }
{
    match answer {
        ActivityAnswer::Completed(outcome) => client.activity_completed(&task.token, outcome.get()),
        ActivityAnswer::Failed(failure) => client.activity_failed(
            &task.token,
            failure.message.get(),
            &failure.failure_type,
            failure.retryable,
            was_canceled,
        ),
    }
}

/// Returns which answer an activity task gets.
fn kind_of(answer: &ActivityAnswer) -> AnswerKind
    ensures { result ≡ kind_of answer.now }
{
    match answer {
        ActivityAnswer::Completed(_) => AnswerKind::ActivityCompletion,
        ActivityAnswer::Failed(_) => AnswerKind::ActivityFailure,
    }
}

/// Answers an activity task and logs how it ended.
fn respond<L: Connection>(
    client: &Client<'_, L>,
    task: &OpenTask,
    answer: &ActivityAnswer,
    notes: &mut SourceNotes,
) -> Receipt
    ensures received { IsActivityReceipt L.gives L.fails client.now.options.now.names answer.now task.now result }
    ensures noted { NotesActivity L.shows answer.now task.now result notes.old notes.new }
{
    let was_canceled = client.was_canceled(&task.token);
    let request = activity_request(client, task, answer, was_canceled);
    let receipt = send_written(client, task, kind_of(answer), request, notes);
    log_activity(client, task, answer, was_canceled, receipt);
    receipt
}

/// Answers the open activity task, if it has this name.
fn answer_open<L: Connection>(
    client: &Client<'_, L>,
    current: &Option<OpenTask>,
    name: TaskName,
    answer: &ActivityAnswer,
    notes: &mut SourceNotes,
) -> Receipt
    ensures received { IsOpenReceipt
        (IsActivityReceipt L.gives L.fails client.now.options.now.names answer.now)
        current.now name result }
    ensures noted { NotesOpen (NotesActivity L.shows answer.now) current.now name result notes.old notes.new }
{
    let Some(task) = current else {
        return Receipt::Lost;
    };
    if task.name != name {
        return Receipt::Lost;
    }
    respond(client, task, answer, notes)
}

/// Answers the activity task of a name, and records the answer if it counts as taken.
pub(crate) fn answer_activity<L: Connection>(
    client: &Client<'_, L>,
    tally: &mut Tally,
    notes: &mut SourceNotes,
    taken: &mut GhostList<(TaskName, Sent)>,
    current: Option<OpenTask>,
    name: TaskName,
    answer: ActivityAnswer,
) -> Result<(), SourceFault>
    ensures sent { OnOk result (taken.new.items ≡ taken.old.items ++ (name, OfActivity answer) ∷ []) }
    ensures unsent { OnErr result (taken.new.items ≡ taken.old.items) }
    ensures failures { FailsOnly result tally.old.failures tally.new.failures }
    ensures settled { Settles (λ receipt. IsOpenReceipt
        (IsActivityReceipt L.gives L.fails client.now.options.now.names answer) current name receipt
        × NotesOpen (NotesActivity L.shows answer) current name receipt notes.old notes.new)
        result tally.old tally.new }
{
    let receipt = answer_open(client, &current, name, &answer, notes);
    settle(tally, taken, receipt, (name, Sent::Activity(answer)))
}
