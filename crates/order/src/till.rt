//! The activities of orders.

ghost use Rattle.std.specs.Prelude.{◌≡◌, IfOk, length};
ghost use Rattle.order.specs.Labels.{IsLabelsAnswer, called_off};
ghost use Rattle.order.specs.Till.{till_answer};

use crate::charging::receipt;
use crate::labels::{LabelsEnd, count_payload, first_label, print_labels};
use std::alloc::Global;
use wh_events::{Items, OutOfMemory, Payload};
use wh_poll::{ActivityAnswer, ActivityFailure, ActivityTask};
use wh_tasks::{Heartbeat, HeartbeatHandler};
use wh_workflow::text_of;

/// Charges cards, with their receipts as results, and prints labels of parcels, with their number
/// as the result.
#[derive(Drop)]
pub struct Till {
    /// The allocator for results and failure messages.
    pub alloc: Global,
}

/// Returns the failure of labels that are needed no more, with a type for retry policies.
pub(crate) fn called_off(alloc: Global) -> Result<ActivityFailure, OutOfMemory>
    ensures { IfOk result (λ failure. failure ≡ called_off) }
{
    let message = text_of(alloc, "called off")?;
    let failure_type = text_of(alloc, "CalledOff")?;
    Ok(ActivityFailure {
        message,
        failure_type: Some(failure_type),
        retryable: true,
    })
}

/// Prints a label for each payload, and sends a heartbeat after each. Those that an earlier attempt
/// has printed are left out.
fn run_labels<H: Heartbeat>(
    alloc: Global,
    input: &Items<Payload>,
    heartbeat: &mut H,
) -> Result<ActivityAnswer, OutOfMemory>
    ensures { IfOk result (IsLabelsAnswer H.brings H.tells (length input.now)) }
{
    let labels = input.get().len();
    let first = first_label(alloc, labels, heartbeat)?;
    let printing = print_labels(alloc, first, labels, heartbeat)?;
    match printing.end {
        LabelsEnd::Done => {
            let count = count_payload(alloc, labels)?;
            let result = Items::new(vec![in alloc; count]?);
            Ok(ActivityAnswer::Completed(result))
        }
        LabelsEnd::CalledOff => Ok(ActivityAnswer::Failed(called_off(alloc)?)),
    }
}

/// Runs an activity that sends no heartbeats.
fn run_charge(alloc: Global, task: &ActivityTask) -> Result<ActivityAnswer, OutOfMemory>
    ensures { IfOk result (λ answer. answer ≡ till_answer task.now) }
{
    match receipt(task.activity.get(), &task.input)? {
        Some(result) => Ok(ActivityAnswer::Completed(result)),
        None => {
            let message = text_of(alloc, "no such activity")?;
            let failure = ActivityFailure::not_found(alloc, message)?;
            Ok(ActivityAnswer::Failed(failure))
        }
    }
}

impl HeartbeatHandler for Till {
    ghost use Rattle.order.specs.Till.{MayAnswer};

    ghost may = { λ till. MayAnswer };

    fn run<H: Heartbeat>(
        &mut self,
        task: &ActivityTask,
        heartbeat: &mut H,
    ) -> Result<ActivityAnswer, OutOfMemory> {
        if task.activity.get() == "PrintLabels" {
            run_labels(self.alloc, &task.input, heartbeat)
        } else {
            run_charge(self.alloc, task)
        }
    }
}
