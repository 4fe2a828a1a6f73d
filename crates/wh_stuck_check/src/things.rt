//! A thing that a run opens under an id, as a state machine.
ghost use Rattle.std.specs.Prelude.{◌≡◌};
ghost use Rattle.wh_workflow.specs.Scripts.{is_timer};
ghost use Rattle.wh_possible_runs.specs.Things.{is_free, may_cancel, touch_after_cancel, phase_after_task, is_opened, is_running, is_untold, next_thing};
ghost use Rattle.wh_possible_runs.specs.Shown.{phase_number, touch_number};
ghost use Rattle.wh_stuck_check.specs.Private.Seen.{change_seen, phase_left};

use wh_events::Thing;
use wh_possible_runs::{Phase, ThingState, Touch};

/// What changes a thing within a task.
#[derive(Clone, Copy)]
pub(crate) enum Change {
    /// A command opens it.
    Opens,
    /// A command cancels it.
    Cancels,
    /// The run is told that it has ended.
    Ends,
    /// The run is told that a child has started.
    Starts,
}

/// Whether the thing is a timer.
fn is_timer(thing: Thing) -> bool
    ensures { result ≡ is_timer thing }
{
    matches!(thing, Thing::Timer)
}

/// Whether a command may open the thing.
pub(crate) fn is_free(thing: Thing, now: ThingState) -> bool
    ensures { result ≡ is_free thing (now.phase) (now.touch) }
{
    match now.touch {
        Touch::Opened => false,
        Touch::Withdrawn => false,
        Touch::Untouched => match now.phase {
            Phase::Open => false,
            Phase::AskedToCancel => false,
            Phase::Absent => true,
            Phase::Ended => true,
            Phase::EndTold => true,
        },
        Touch::Canceled => match now.phase {
            Phase::Open => is_timer(thing),
            Phase::AskedToCancel => false,
            Phase::Absent => true,
            Phase::Ended => true,
            Phase::EndTold => true,
        },
    }
}

/// Whether a command may cancel the thing.
pub(crate) fn may_cancel(now: ThingState) -> bool
    ensures { result ≡ may_cancel (now.phase) (now.touch) }
{
    match now.touch {
        Touch::Opened => true,
        Touch::Withdrawn => false,
        Touch::Untouched => match now.phase {
            Phase::Absent => false,
            Phase::Open => true,
            Phase::AskedToCancel => false,
            Phase::Ended => true,
            Phase::EndTold => true,
        },
        Touch::Canceled => match now.phase {
            Phase::Absent => false,
            Phase::Open => false,
            Phase::AskedToCancel => false,
            Phase::Ended => true,
            Phase::EndTold => true,
        },
    }
}

/// What a cancel has done with the thing.
fn touch_after_cancel(now: ThingState) -> Touch
    ensures { result ≡ touch_after_cancel (now.phase) (now.touch) }
{
    match now.touch {
        Touch::Opened => Touch::Withdrawn,
        Touch::Withdrawn => Touch::Withdrawn,
        Touch::Canceled => Touch::Canceled,
        Touch::Untouched => match now.phase {
            Phase::Open => Touch::Canceled,
            Phase::Absent => Touch::Untouched,
            Phase::AskedToCancel => Touch::Untouched,
            Phase::Ended => Touch::Untouched,
            Phase::EndTold => Touch::Untouched,
        },
    }
}

/// Whether the run is still to be told that the thing has ended.
pub(crate) fn is_untold(phase: Phase) -> bool
    ensures { result ≡ is_untold phase }
{
    match phase {
        Phase::Ended => true,
        Phase::Absent => false,
        Phase::Open => false,
        Phase::AskedToCancel => false,
        Phase::EndTold => false,
    }
}

/// Whether the thing is open on the server.
pub(crate) fn is_running(phase: Phase) -> bool
    ensures { result ≡ is_running phase }
{
    match phase {
        Phase::Open => true,
        Phase::AskedToCancel => true,
        Phase::Absent => false,
        Phase::Ended => false,
        Phase::EndTold => false,
    }
}

/// The thing once this changes it. `None` if a command is at fault, or no server tells so.
pub(crate) fn changed(change: Change, thing: Thing, now: ThingState) -> Option<ThingState>
    ensures { result ≡ change_seen change thing now }
{
    match change {
        Change::Opens => {
            if is_free(thing, now) {
                Some(ThingState {
                    touch: Touch::Opened,
                    ..now
                })
            } else {
                None
            }
        }
        Change::Cancels => {
            if may_cancel(now) {
                Some(ThingState {
                    touch: touch_after_cancel(now),
                    ..now
                })
            } else {
                None
            }
        }
        Change::Ends => {
            if is_untold(now.phase) {
                Some(ThingState {
                    phase: Phase::EndTold,
                    ..now
                })
            } else {
                None
            }
        }
        Change::Starts => {
            if (is_running(now.phase) || is_untold(now.phase)) && !now.started {
                Some(ThingState {
                    started: true,
                    ..now
                })
            } else {
                None
            }
        }
    }
}

/// What the thing is after the task, if the commands did not open it.
fn phase_left(thing: Thing, phase: Phase, canceled: bool) -> Phase
    ensures { result ≡ phase_left thing phase canceled }
{
    match phase {
        Phase::Open => {
            if canceled {
                if is_timer(thing) {
                    Phase::Absent
                } else {
                    Phase::AskedToCancel
                }
            } else {
                Phase::Open
            }
        }
        Phase::Absent => Phase::Absent,
        Phase::AskedToCancel => Phase::AskedToCancel,
        Phase::Ended => Phase::Absent,
        Phase::EndTold => Phase::Absent,
    }
}

/// What the thing is after the task.
fn phase_after_task(thing: Thing, now: ThingState) -> Phase
    ensures { result ≡ phase_after_task thing (now.phase) (now.touch) }
{
    match now.touch {
        Touch::Opened => Phase::Open,
        Touch::Withdrawn => Phase::Absent,
        Touch::Untouched => phase_left(thing, now.phase, false),
        Touch::Canceled => phase_left(thing, now.phase, true),
    }
}

/// Whether the commands of the task have opened the thing.
fn is_opened(touch: Touch) -> bool
    ensures { result ≡ is_opened touch }
{
    match touch {
        Touch::Opened => true,
        Touch::Untouched => false,
        Touch::Withdrawn => false,
        Touch::Canceled => false,
    }
}

/// The thing when the next task begins, in which it has ended or not. `None` if it can't have.
pub(crate) fn next_thing(ended: bool, thing: Thing, now: ThingState) -> Option<ThingState>
    ensures { result ≡ next_thing ended thing now }
{
    let phase = phase_after_task(thing, now);
    let started = is_running(phase) && (now.started && !is_opened(now.touch));
    if ended && !is_running(phase) {
        return None;
    }
    Some(ThingState {
        phase: if ended { Phase::Ended } else { phase },
        touch: Touch::Untouched,
        started,
    })
}

/// The number of a phase.
pub(crate) fn phase_number(phase: Phase) -> u8
    ensures { result ≡ phase_number phase }
{
    match phase {
        Phase::Absent => 0,
        Phase::Open => 1,
        Phase::AskedToCancel => 2,
        Phase::Ended => 3,
        Phase::EndTold => 4,
    }
}

/// The number of a touch.
pub(crate) fn touch_number(touch: Touch) -> u8
    ensures { result ≡ touch_number (touch) }
{
    match touch {
        Touch::Untouched => 0,
        Touch::Opened => 1,
        Touch::Withdrawn => 2,
        Touch::Canceled => 3,
    }
}
