//! Prints labels of parcels.

ghost use Rattle.std.specs.Prelude.{◌≡◌, ◌≤◌, ◌++◌, ◌∷◌, [], IfOk};
ghost use Rattle.order.specs.Labels.{ArePrinted, IsFirstLabel, count_payload, counted, printed_before, stops};
ghost use Rattle.order.specs.declared.labels.LabelStep.TheVariants.{Heard, Printed};

use crate::orders::json;
use std::alloc::Global;
use wh_author_tools::json_number;
use wh_events::{GhostList, Items, OutOfMemory, Payload};
use wh_tasks::{Heartbeat, HeartbeatResponse};

/// One step of a task that prints labels.
#[derive(Clone, Copy, PartialEq, Eq, Debug)]
pub(crate) enum LabelStep {
    /// The label of this number was printed, counted from 0.
    Printed(usize),
    /// A heartbeat got this response.
    Heard(HeartbeatResponse),
}

/// How a task that prints labels ends.
#[derive(Clone, Copy, PartialEq, Eq, Debug)]
pub(crate) enum LabelsEnd {
    /// All labels are printed.
    Done,
    /// The response to a heartbeat said that no more labels are needed.
    CalledOff,
}

/// What became of a task that prints labels.
#[derive(Drop)]
pub(crate) struct Printing {
    /// How it ended.
    pub(crate) end: LabelsEnd,
    /// Its steps, in order.
    pub(crate) steps: GhostList<LabelStep>,
}

/// Returns whether no more labels are needed after such a response.
pub(crate) fn stops(response: HeartbeatResponse) -> bool
    ensures { result ≡ stops response }
{
    match response {
        HeartbeatResponse::CancelRequested | HeartbeatResponse::Gone => true,
        HeartbeatResponse::GoOn | HeartbeatResponse::Unheard => false,
    }
}

/// Returns the number of printed labels as a payload.
pub(crate) fn count_payload(alloc: Global, printed: usize) -> Result<Payload, OutOfMemory>
    ensures { IfOk result (λ payload. payload ≡ count_payload printed) }
{
    json(alloc, format!(in alloc; "{printed}")?)
}

/// Returns a number that was told, if it is one of these labels, otherwise 0.
fn number_told(told: Option<i64>, labels: usize) -> usize
    ensures is { result ≡ counted told labels }
    ensures within { result ≤ labels }
{
    let Some(told) = told else {
        return 0;
    };
    match usize::try_from(told) {
        Ok(printed) if printed <= labels => printed,
        _ => 0,
    }
}

/// Returns how many of these labels an earlier attempt has printed, by the details of its last
/// heartbeat.
fn printed_before(
    alloc: Global,
    details: &Option<Items<Payload>>,
    labels: usize,
) -> Result<usize, OutOfMemory>
    ensures is { IfOk result (λ printed. printed ≡ printed_before details.now labels) }
    ensures within { IfOk result (λ printed. printed ≤ labels) }
{
    match details {
        Some(details) => Ok(number_told(json_number(alloc, details.get(), 0)?, labels)),
        None => Ok(0),
    }
}

/// Returns the number of the first label to be printed, counted from 0: an earlier attempt has
/// printed those before it. `OutOfMemory` if there was no memory to read what that one told.
pub(crate) fn first_label<H: Heartbeat>(
    alloc: Global,
    labels: usize,
    heartbeat: &H,
) -> Result<usize, OutOfMemory>
    ensures resumed { IfOk result (IsFirstLabel H.tells labels) }
    ensures within { IfOk result (λ first. first ≤ labels) }
{
    let info = heartbeat.info()?;
    printed_before(alloc, &info.heartbeat_details, labels)
}

/// Prints the label of a number. A real label printer would be called here.
fn print_label(number: usize, steps: &mut GhostList<LabelStep>)
    ensures { steps.new.items ≡ steps.old.items ++ Printed number ∷ [] }
{
    *steps = steps.with(&LabelStep::Printed(number));
}

/// Sends a heartbeat with the number of printed labels and returns the response.
fn tell<H: Heartbeat>(
    alloc: Global,
    printed: usize,
    heartbeat: &mut H,
    steps: &mut GhostList<LabelStep>,
) -> Result<HeartbeatResponse, OutOfMemory>
    ensures brought { IfOk result (H.brings (count_payload printed ∷ [])) }
    ensures told { IfOk result (λ response. steps.new.items ≡ steps.old.items ++ Heard response ∷ []) }
{
    let details = [count_payload(alloc, printed)?];
    let response = heartbeat.send(&details)?;
    *steps = steps.with(&LabelStep::Heard(response));
    Ok(response)
}

/// Prints the labels from the first one on, up to this many. Each is followed by a heartbeat with
/// the number of labels that are printed by then. After a response that the activity is to be
/// canceled, or that its task is gone, no more are printed. `OutOfMemory` if there was no memory for
/// a heartbeat: the labels before it are printed.
pub(crate) fn print_labels<H: Heartbeat>(
    alloc: Global,
    first: usize,
    labels: usize,
    heartbeat: &mut H,
) -> Result<Printing, OutOfMemory>
    requires { first ≤ labels }
    ensures { IfOk result (λ printing. ArePrinted H.brings first labels printing.end printing.steps.items) }
{
    let mut steps = GhostList::new();
    for printed in 0..labels - first {
        let number = first + printed;
        print_label(number, &mut steps);
        let response = tell(alloc, number + 1, heartbeat, &mut steps)?;
        if stops(response) {
            return Ok(Printing {
                end: LabelsEnd::CalledOff,
                steps,
            });
        }
    }
    Ok(Printing {
        end: LabelsEnd::Done,
        steps,
    })
}
