//! An activity whose input says what it does, with which live work is tried.

ghost use Rattle.std.specs.Prelude.{◌≡◌, IfOk};
ghost use Rattle.order.specs.Steps.{IsHeard, IsStepsAnswer, IsTaken, step_kind};

use crate::labels::stops;
use crate::till::called_off;
use std::alloc::Global;
use std::sync::Wait;
use std::thread;
use std::time::{Clock, Duration};
use wh_events::{OutOfMemory, Payload};
use wh_tasks::{ActivityAnswer, ActivityFailure, Heartbeat};
use wh_workflow::{no_payloads, text_of};

/// How long a step waits, in milliseconds.
const WAIT: u64 = 500;

/// What a step asks for.
#[derive(Clone, Copy)]
pub(crate) enum StepKind {
    /// That half a second goes by.
    Wait,
    /// That the activity fails.
    Fail,
    /// That the step is sent as the details of a heartbeat.
    Beat,
}

/// Returns what a step asks for.
fn step_kind(step: &Payload) -> StepKind
    ensures { result ≡ step_kind step.now }
{
    let content = step.content.get();
    if content == b"\"wait\"".as_slice() {
        StepKind::Wait
    } else if content == b"\"fail\"".as_slice() {
        StepKind::Fail
    } else {
        StepKind::Beat
    }
}

/// Sends a step as the details of a heartbeat, and returns the failure of the activity if the
/// response says that it is needed no more.
fn beat<H: Heartbeat>(
    alloc: Global,
    step: &Payload,
    heartbeat: &mut H,
) -> Result<Option<ActivityFailure>, OutOfMemory>
    ensures { IfOk result (IsHeard H.brings step.now) }
{
    let details = [step.try_copy()?];
    let response = heartbeat.send(&details)?;
    if stops(response) {
        Ok(Some(called_off(alloc)?))
    } else {
        Ok(None)
    }
}

/// Takes a step, and returns the failure of the activity if it ends there.
fn take_step<R: Wait + Clock, H: Heartbeat>(
    rt: &R,
    alloc: Global,
    step: &Payload,
    heartbeat: &mut H,
) -> Result<Option<ActivityFailure>, OutOfMemory>
    ensures { IfOk result (IsTaken H.brings step.now) }
{
    match step_kind(step) {
        StepKind::Wait => {
            thread::sleep(rt, Duration::from_millis(WAIT));
            Ok(None)
        }
        StepKind::Fail => {
            let message = text_of(alloc, "failed")?;
            Ok(Some(ActivityFailure::plain(message)))
        }
        StepKind::Beat => beat(alloc, step, heartbeat),
    }
}

/// Takes the steps, one payload each, in their order: `"wait"` waits for half a second, `"fail"`
/// fails the activity, and any other is sent as the details of a heartbeat. If the response says
/// that the activity is needed no more, it fails as called off. After the last step it is completed,
/// without a result.
pub(crate) fn run_steps<R: Wait + Clock, H: Heartbeat>(
    rt: &R,
    alloc: Global,
    steps: &[Payload],
    heartbeat: &mut H,
) -> Result<ActivityAnswer, OutOfMemory>
    ensures { IfOk result (IsStepsAnswer H.brings steps.now) }
{
    for step in steps {
        if let Some(failure) = take_step(rt, alloc, step, heartbeat)? {
            return Ok(ActivityAnswer::Failed(failure));
        }
    }
    Ok(ActivityAnswer::Completed(no_payloads(alloc)))
}
