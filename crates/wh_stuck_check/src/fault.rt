//! The first command of a list that is at fault.
ghost use Rattle.std.specs.Prelude.{◌≡◌, map};
ghost use Rattle.wh_stuck_check.specs.Faults.{state_of, stays_open, open_fault, cancel_fault, act_fault, fault_from};
ghost use Rattle.wh_stuck_check.specs.Private.Seen.{name_seen, act_seen, situation_seen};

use crate::acts::{Act, act_of};
use crate::names::{ThingName, is_named};
use crate::situation::{Situation, act, not_open};
use crate::things::{is_free, is_running, may_cancel};
use wh_events::{Text, Thing};
use wh_possible_runs::{ThingState, Touch};
use wh_workflow::{Command, WorkflowFault};

/// A command that is at fault.
#[derive(Clone, Copy)]
pub struct StuckCommand {
    /// Its place among the commands that the job is given, counted from 0.
    pub place: usize,
    /// Why it is at fault: `IdInUse`, `IdReused`, `NotOpen` or `AlreadyCancelling`.
    pub fault: WorkflowFault,
    /// Whether this command is not at fault any more once the thing has ended, which was open before
    /// the task.
    pub heals: bool,
}

/// The state of the thing with this name. One that has none of the names is not open.
fn state_of(names: &[ThingName], thing: Thing, id: &Text, things: &[ThingState]) -> ThingState
    ensures { result ≡ state_of (map name_seen names.now) thing id.now things.now }
{
    for (place, name) in names.iter().enumerate() {
        if things.len() <= place {
            return not_open();
        }
        if is_named(thing, id, name) {
            return things[place];
        }
    }
    not_open()
}

/// Whether the thing was open before the task, and the commands of the task did not open it again.
fn stays_open(now: ThingState) -> bool
    ensures { result ≡ stays_open now }
{
    match now.touch {
        Touch::Untouched => is_running(now.phase),
        Touch::Canceled => is_running(now.phase),
        Touch::Opened => false,
        Touch::Withdrawn => false,
    }
}

/// Why a command at this place can't open the thing, if it can't.
fn open_fault(place: usize, thing: Thing, now: ThingState) -> Option<StuckCommand>
    ensures { result ≡ open_fault place thing now }
{
    if is_free(thing, now) {
        return None;
    }
    let fault = match now.touch {
        Touch::Withdrawn => WorkflowFault::IdReused,
        Touch::Untouched => WorkflowFault::IdInUse,
        Touch::Opened => WorkflowFault::IdInUse,
        Touch::Canceled => WorkflowFault::IdInUse,
    };
    Some(StuckCommand {
        place,
        fault,
        heals: stays_open(now),
    })
}

/// Why a command at this place can't cancel the thing, if it can't.
fn cancel_fault(place: usize, thing: Thing, now: ThingState) -> Option<StuckCommand>
    ensures { result ≡ cancel_fault place thing now }
{
    if may_cancel(now) {
        return None;
    }
    let heals = stays_open(now);
    let fault = if heals && !matches!(thing, Thing::Timer) {
        WorkflowFault::AlreadyCancelling
    } else {
        WorkflowFault::NotOpen
    };
    Some(StuckCommand {
        place,
        fault,
        heals,
    })
}

/// Why a command at this place is at fault, if it is.
fn act_fault(
    place: usize,
    names: &[ThingName],
    act: &Act,
    things: &[ThingState],
) -> Option<StuckCommand>
    ensures { result ≡ act_fault place (map name_seen names.now) (act_seen act.now) things.now }
{
    match act {
        Act::Opens(thing, id) => open_fault(place, *thing, state_of(names, *thing, id, things)),
        Act::Cancels(thing, id) => cancel_fault(place, *thing, state_of(names, *thing, id, things)),
        Act::Asks(_, _, _) => None,
        Act::Closes => None,
        Act::Other => None,
    }
}

/// The first of these commands that is at fault, if one is.
pub(crate) fn fault_in(
    names: &[ThingName],
    commands: &[Command],
    now: Situation,
) -> Option<StuckCommand>
    ensures { result ≡ fault_from 0 (map name_seen names.now) commands.now (situation_seen now) }
{
    let mut now = now;
    for (place, command) in commands.iter().enumerate() {
        let act_now = act_of(command);
        let fault = act_fault(place, names, &act_now, now.things.as_slice());
        if fault.is_some() {
            return fault;
        }
        act(names, &act_now, &mut now);
    }
    None
}
