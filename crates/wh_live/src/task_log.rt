//! Logs a line for each answered task.

use crate::tasks::{OpenTask, workflow_type};
use wh_client::{Client, Connection, Receipt};
use wh_events::Event;
use wh_replay::Answer;
use wh_tasks::ActivityAnswer;
use wh_tester::Shown;

/// Returns in words how a task ended.
fn outcome_words(answered: &'static str, receipt: Receipt) -> &'static str {
    match receipt {
        Receipt::Acknowledged => answered,
        Receipt::Discarded => "discarded",
        Receipt::Replaced => "failed",
        Receipt::Withheld => "failed again, not sent",
        Receipt::NotFound => "over before its answer",
        Receipt::Invalid => "refused",
        Receipt::Cut | Receipt::Lost => "answer lost",
        Receipt::NoMemory => "out of memory",
    }
}

/// Returns how many commands an answer has.
fn count_commands(answer: &Answer) -> usize {
    match answer {
        Answer::Complete(commands) => commands.get().len(),
        Answer::Fail(_) => 0,
    }
}

/// Returns the type of a task's workflow: that of the events from which it was replayed, or else
/// the one that was noted.
fn type_of<'a>(open: &'a OpenTask, held: &'a [Event]) -> &'a str {
    match workflow_type(held) {
        Some(name) => name.get(),
        None => open.what.get(),
    }
}

/// Logs how a workflow task ended, if tasks are logged: its run and type, how many events it came
/// with, whether it was a hit of the cache, and how many steps replay took.
pub(crate) fn log_workflow<L: Connection>(
    client: &Client<'_, L>,
    open: &OpenTask,
    answer: &Answer,
    held: &[Event],
    steps: u64,
    receipt: Receipt,
) {
    if !client.options.verbose {
        return;
    }
    let found = if open.from_first { "miss" } else { "hit" };
    let answered = match answer {
        Answer::Complete(_) => "completed",
        Answer::Fail(_) => "failed",
    };
    let what = Shown(type_of(open, held));
    let (events, commands) = (open.events, count_commands(answer));
    let outcome = outcome_words(answered, receipt);
    if let Ok(text) = format!(in client.allocator();
        "workflow {what}: {events} events, {found}, {steps} steps, {commands} commands, {outcome}"
    ) {
        log_of(client, open, text.as_str());
    }
}

/// Logs how an activity task ended, if tasks are logged: its run and type, and whether it was
/// canceled.
pub(crate) fn log_activity<L: Connection>(
    client: &Client<'_, L>,
    open: &OpenTask,
    answer: &ActivityAnswer,
    was_canceled: bool,
    receipt: Receipt,
) {
    if !client.options.verbose {
        return;
    }
    let answered = match answer {
        ActivityAnswer::Completed(_) => "completed",
        ActivityAnswer::Failed(_) if was_canceled => "canceled",
        ActivityAnswer::Failed(_) => "failed",
    };
    let what = Shown(open.what.get());
    let outcome = outcome_words(answered, receipt);
    if let Ok(text) = format!(in client.allocator(); "activity {what}: {outcome}") {
        log_of(client, open, text.as_str());
    }
}

/// Logs something about a task, with its run.
fn log_of<L: Connection>(client: &Client<'_, L>, open: &OpenTask, what: &str) {
    if let Ok(text) = open.describe(client.allocator(), what) {
        client.connection.log(text.as_str());
    }
}
