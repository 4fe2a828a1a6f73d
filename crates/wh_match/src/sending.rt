//! What is sent of the issued commands.
ghost use Rattle.std.specs.Prelude.{◌≡◌, length, IfOk};
ghost use Rattle.wh_workflow.specs.Scripts.{act_of};
ghost use Rattle.wh_match.specs.Issuing.{is_sent_by, reduced_by};

use crate::act::{Act, left_open, read_act, some_cancels};
use std::alloc::Global;
use wh_events::OutOfMemory;
use wh_workflow::Command;

/// Returns whether a command between earlier and later ones is sent.
fn is_sent(late: bool, earlier: &[Command], later: &[Command], command: &Command) -> bool
    ensures { result ≡ is_sent_by late earlier.now later.now (act_of command.now) }
{
    match read_act(command) {
        Act::Opens { kind, id } => !some_cancels(kind, id, later),
        Act::Cancels { kind, id } => !left_open(kind, id, earlier) && !late,
        Act::Asks { .. } => false,
        Act::Closes | Act::Other => true,
    }
}

/// Returns what is sent of the issued commands; `late` says of each whether it was a late cancel.
pub(crate) fn sent_commands(
    alloc: Global,
    late: &[bool],
    issued: &[Command],
) -> Result<Vec<Command>, OutOfMemory>
    requires { length late.now ≡ length issued.now }
    ensures { IfOk result (λ sent. sent.items ≡ reduced_by late.now issued.now) }
{
    let mut sent = Vec::new(alloc);
    for (place, command) in issued.iter().enumerate() {
        if is_sent(late[place], &issued[..place], &issued[place + 1..], command) {
            sent.push(command.try_copy()?)?;
        }
    }
    Ok(sent)
}
