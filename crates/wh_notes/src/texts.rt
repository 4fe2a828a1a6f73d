//! Describes failed calls and polls in words.

ghost use Rattle.std.specs.Prelude.{◌≡◌, IfOk, codes, if◌then◌else◌, string_bytes};
ghost use Rattle.wh_notes.specs.Texts.{fault_text, lost_poll_text, poll_text, refusal_text, refused_poll_text};
ghost use Rattle.wh_tester.specs.Report as report;

use std::alloc::{AllocError, Global};
use wh_client::{AskFault, PollEnd};
use wh_commands::WorkerNames;
use wh_json::ReadFault;
use wh_tester::{FaultText, Shown};

/// Describes why a call has no usable result: of a refusal its message, as names are shown, and its
/// code. `AllocError` if there was no memory for the text.
pub fn fault_text(alloc: Global, fault: &AskFault) -> Result<String, AllocError>
    ensures { IfOk result (λ text. string_bytes text ≡ fault_text fault.now) }
{
    match fault {
        AskFault::Closed => String::from_str(alloc, "the bridge has closed"),
        AskFault::Output => String::from_str(alloc, "a request can't be written"),
        AskFault::Refused { code, message, .. } => refusal_text(alloc, *code, message.as_str()),
        AskFault::Unreadable => String::from_str(alloc, "a result can't be read"),
        AskFault::TooManyPages => String::from_str(alloc, "a history has too many pages"),
        AskFault::History(fault) => history_text(alloc, fault),
        AskFault::OutOfMemory => String::from_str(alloc, "out of memory"),
    }
}

/// A poll, in the words of the line that tells why it failed.
#[derive(Clone, Copy)]
pub struct PollWords<'a> {
    /// Its method.
    pub method: &'static str,
    /// Its Task Queue.
    pub queue: &'a str,
    /// What becomes of a task that it got.
    pub loss: &'static str,
}

impl<'a> PollWords<'a> {
    /// Returns the words of a poll for workflow tasks, of the sticky queue or of the normal one.
    pub fn for_workflows(names: &'a WorkerNames, sticky: bool) -> PollWords<'a>
        ensures method { result.method.now ≡ codes "PollWorkflowTaskQueue" }
        ensures queue { result.queue.now
            ≡ (if sticky then names.entry.now.sticky_queue else names.entry.now.task_queue) }
        ensures loss { result.loss.now ≡ codes "a task that it got is given up, and comes again" }
    {
        let queue = if sticky {
            &names.sticky_queue
        } else {
            &names.task_queue
        };
        PollWords {
            method: "PollWorkflowTaskQueue",
            queue: queue.get(),
            loss: "a task that it got is given up, and comes again",
        }
    }

    /// Returns the words of a poll for activity tasks.
    pub fn for_activities(names: &'a WorkerNames) -> PollWords<'a>
        ensures method { result.method.now ≡ codes "PollActivityTaskQueue" }
        ensures queue { result.queue.now ≡ names.entry.now.task_queue }
        ensures loss { result.loss.now ≡ codes "a task that it got is given up, and the activity times out" }
    {
        PollWords {
            method: "PollActivityTaskQueue",
            queue: names.task_queue.get(),
            loss: "a task that it got is given up, and the activity times out",
        }
    }
}

/// Describes a refused poll: in the words of the bridge, and with what follows if no later poll can
/// succeed.
fn refused_poll_text(alloc: Global, text: String, end: PollEnd) -> Result<String, AllocError>
    ensures { IfOk result (λ told. string_bytes told ≡ refused_poll_text (string_bytes text) end) }
{
    match end {
        PollEnd::Never => format!(in alloc;
            "{text}: no more tasks are polled for; the program ends, and is to be started again"
        ),
        PollEnd::Later | PollEnd::Closed => Ok(text),
    }
}

/// Describes a poll that has no usable result: which one it was, why, what is lost, and whether it is
/// made again.
fn lost_poll_text(
    alloc: Global,
    words: PollWords<'_>,
    text: &str,
    end: PollEnd,
) -> Result<String, AllocError>
    ensures { IfOk result (λ told. string_bytes told ≡ lost_poll_text words.entry text.now end) }
{
    let PollWords {
        method,
        queue,
        loss,
    } = words;
    let queue = Shown(queue);
    match end {
        PollEnd::Never => format!(in alloc; "{method} of {queue}: {text}; not made again"),
        PollEnd::Later | PollEnd::Closed => format!(in alloc;
            "{method} of {queue}: {text}; {loss}; made again"
        ),
    }
}

/// Describes why a poll failed, by what follows. `AllocError` if there was no memory for the text.
pub(crate) fn poll_text(
    alloc: Global,
    words: PollWords<'_>,
    fault: &AskFault,
    end: PollEnd,
) -> Result<String, AllocError>
    ensures { IfOk result (λ told. string_bytes told ≡ poll_text words.entry fault.now end) }
{
    let text = fault_text(alloc, fault)?;
    match fault {
        AskFault::Refused { .. } => refused_poll_text(alloc, text, end),
        AskFault::Closed
        | AskFault::Output
        | AskFault::Unreadable
        | AskFault::TooManyPages
        | AskFault::History(_)
        | AskFault::OutOfMemory => lost_poll_text(alloc, words, text.as_str(), end),
    }
}

/// Describes the error of a refused call.
fn refusal_text(alloc: Global, code: i64, message: &str) -> Result<String, AllocError>
    ensures { IfOk result (λ text. string_bytes text ≡ refusal_text code message.now) }
{
    let message = Shown(message);
    format!(in alloc; "{message} (code {code})")
}

/// Describes why the events of a history are malformed. `AllocError` if there was no memory for the
/// text.
pub fn history_text(alloc: Global, fault: &ReadFault) -> Result<String, AllocError>
    ensures { IfOk result (λ text. string_bytes text ≡ report.fault_text fault.now) }
{
    let fault = FaultText(fault);
    format!(in alloc; "{fault}")
}
