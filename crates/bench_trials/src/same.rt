//! Compares two answers. Each function returns true only for answers that are equal.
ghost use Rattle.std.specs.Prelude.{◌≡◌, IsTrue};

use wh_events::{Items, Payload, Text};
use wh_replay::Answer;
use wh_slots::TaskName;
use wh_tasks::Sent;
use wh_workflow::Command;

/// A value that can be compared.
pub(crate) trait Same {
    ghost use Rattle.std.specs.Prelude.{◌≡◌, IsTrue};

    /// Returns whether both are the same.
    fn is_same(&self, other: &Self) -> bool
        ensures { IsTrue result → self.now ≡ other.now };
}

/// Returns whether both lists have the same items in the same order.
pub(crate) fn same_all<T: Same>(left: &[T], right: &[T]) -> bool
    ensures { IsTrue result → left.now ≡ right.now }
{
    if left.len() != right.len() {
        return false;
    }
    for place in 0..left.len() {
        if !left[place].is_same(&right[place]) {
            return false;
        }
    }
    true
}

impl Same for Payload {
    fn is_same(&self, other: &Payload) -> bool {
        self.encoding.get() == other.encoding.get() && self.content.get() == other.content.get()
    }
}

/// Returns whether both texts are the same.
fn same_text(left: &Text, right: &Text) -> bool
    ensures { IsTrue result → left.now ≡ right.now }
{
    left.get() == right.get()
}

/// Returns whether both names and inputs are the same.
fn same_call(
    name: &Text,
    input: &Items<Payload>,
    other_name: &Text,
    other_input: &Items<Payload>,
) -> bool
    ensures name { IsTrue result → name.now ≡ other_name.now }
    ensures input { IsTrue result → input.now ≡ other_input.now }
{
    same_text(name, other_name) && same_all(input.get(), other_input.get())
}

/// Returns whether both ids, names and inputs are the same.
fn same_work(
    id: &Text,
    name: &Text,
    input: &Items<Payload>,
    other_id: &Text,
    other_name: &Text,
    other_input: &Items<Payload>,
) -> bool
    ensures id { IsTrue result → id.now ≡ other_id.now }
    ensures name { IsTrue result → name.now ≡ other_name.now }
    ensures input { IsTrue result → input.now ≡ other_input.now }
{
    same_text(id, other_id) && same_call(name, input, other_name, other_input)
}

/// Returns whether both commands start the same.
#[rattlefmt::skip]
fn same_order(left: &Command, right: &Command) -> bool
    ensures { IsTrue result → left.now ≡ right.now }
{
    match (left, right) {
        (Command::StartActivity { id, activity, input },
         Command::StartActivity { id: other, activity: name, input: given }) =>
            same_work(id, activity, input, other, name, given),
        (Command::StartChild { workflow_id, workflow, input },
         Command::StartChild { workflow_id: other, workflow: name, input: given }) =>
            same_work(workflow_id, workflow, input, other, name, given),
        (Command::SignalExternal { workflow_id, signal, input },
         Command::SignalExternal { workflow_id: other, signal: name, input: given }) =>
            same_work(workflow_id, signal, input, other, name, given),
        _ => false,
    }
}

/// Returns whether both commands close the run in the same way.
#[rattlefmt::skip]
fn same_close(left: &Command, right: &Command) -> bool
    ensures { IsTrue result → left.now ≡ right.now }
{
    match (left, right) {
        (Command::Complete { result: given }, Command::Complete { result: other }) =>
            same_all(given.get(), other.get()),
        (Command::Fail { message }, Command::Fail { message: other }) => same_text(message, other),
        (Command::Cancel, Command::Cancel) => true,
        (Command::ContinueAsNew { workflow, input },
         Command::ContinueAsNew { workflow: other, input: given }) =>
            same_call(workflow, input, other, given),
        _ => false,
    }
}

impl Same for Command {
    /// Requests for versions are never the same, since none is sent.
    #[rattlefmt::skip]
    fn is_same(&self, other: &Command) -> bool {
        match (self, other) {
            (Command::CancelActivity { id }, Command::CancelActivity { id: other }) => same_text(id, other),
            (Command::StartTimer { id, seconds }, Command::StartTimer { id: other, seconds: time }) =>
                *seconds == *time && same_text(id, other),
            (Command::CancelTimer { id }, Command::CancelTimer { id: other }) => same_text(id, other),
            (Command::CancelChild { workflow_id }, Command::CancelChild { workflow_id: other }) =>
                same_text(workflow_id, other),
            (Command::Marker { change_id, version }, Command::Marker { change_id: other, version: number }) =>
                *version == *number && same_text(change_id, other),
            _ => same_order(self, other) || same_close(self, other),
        }
    }
}

/// Returns whether both answers are the same. Answers to activities never are.
fn same_answer(left: &Sent, right: &Sent) -> bool
    ensures { IsTrue result → left.now ≡ right.now }
{
    match (left, right) {
        (Sent::Workflow(Answer::Complete(commands)), Sent::Workflow(Answer::Complete(others))) => {
            same_all(commands.get(), others.get())
        }
        (Sent::Workflow(Answer::Fail(fault)), Sent::Workflow(Answer::Fail(other))) => {
            *fault == *other
        }
        _ => false,
    }
}

impl Same for (TaskName, Sent) {
    fn is_same(&self, other: &(TaskName, Sent)) -> bool {
        self.0 == other.0 && same_answer(&self.1, &other.1)
    }
}
