//! Whether commands match a record.
ghost use Rattle.std.specs.Prelude.{◌≡◌, ◌+◌, ◌<◌, ◌≤◌, length};
ghost use Rattle.std.specs.Result.{result_err};
ghost use Rattle.wh_events.specs.Cuts.{commanded};
ghost use Rattle.wh_machines.specs.Lookups.{events_between};
ghost use Rattle.wh_workflow.specs.Names.{mismatch};

use wh_events::{Class, Event};
use wh_machines::Track;
use wh_workflow::{Command, Mismatch};

/// Returns the first difference between commands and the commanded events.
fn mismatch(history: &[Event], commands: &[Command], events: &[Event]) -> Option<Mismatch>
    ensures { result ≡ mismatch history.now commands.now (commanded events.now) }
{
    let mut index = 0;
    for event in events {
        if matches!(event.class(), Class::Commanded) {
            if index == commands.len() {
                return Some(Mismatch::CommandMissing {
                    event: event.number,
                });
            }
            if !commands[index].names(history, &event.body) {
                return Some(Mismatch::Different {
                    event: event.number,
                });
            }
            index += 1;
        }
    }
    if index < commands.len() {
        return Some(Mismatch::CommandExtra {
            index: index as u64 + 1,
        });
    }
    None
}

/// Compares commands with the record strictly between two events of the track. They match if the
/// record has as many commanded events as there are commands, and each command and the event in its
/// place are named alike. Commands and events are compared by kind and name, and not by input,
/// result or time. (Temporal documentation, commands:
/// <https://docs.temporal.io/references/commands>; the check that replay makes:
/// <https://docs.temporal.io/workflow-definition#deterministic-constraints>.)
///
/// `from` is below `to`, which is at most one more than the count of the events. Number 0 stands
/// before the first event. `Mismatch` says where both differ first. Nothing is changed, and no
/// memory is taken.
pub fn matches(commands: &[Command], track: &Track, from: u64, to: u64) -> Result<(), Mismatch>
    requires rising { from < to }
    requires within { to ≤ length track.now + 1 }
    ensures { result_err result ≡ mismatch track.now commands.now (commanded (events_between track.now from to)) }
{
    match mismatch(track.events(), commands, track.between(from, to)) {
        None => Ok(()),
        Some(difference) => Err(difference),
    }
}
