//! Which commands are valid, by how the things stand at the cut.
ghost use Rattle.std.specs.Prelude.{◌≡◌, IfOk};
ghost use Rattle.std.specs.Result.{result_err};
ghost use Rattle.wh_machines.specs.Lookups.{thing_of};
ghost use Rattle.wh_match.specs.Private.Faults.{still_open_by, is_late_by, is_canceled_by, opening_fault_by};
ghost use Rattle.wh_match.specs.Private.Faults.{cancel_fault_by};

use crate::act::{is_withdrawn, left_open, some_cancels, some_opens};
use crate::standing::Standing;
use wh_events::OpenKind;
use wh_workflow::{Command, WorkflowFault};

/// Returns whether a thing that stands so at the cut is still open after the earlier commands.
fn still_open(standing: Standing, earlier: &[Command], kind: OpenKind, id: &str) -> bool
    ensures { result ≡ still_open_by standing earlier.now (thing_of kind) id.now }
{
    left_open(kind, id, earlier)
        || (standing.is_open
            && !(matches!(kind, OpenKind::Timer) && some_cancels(kind, id, earlier)))
}

/// Returns whether a cancel comes late: an outside event of this activation closed what it cancels.
fn is_late(standing: Standing, earlier: &[Command], kind: OpenKind, id: &str) -> bool
    ensures { result ≡ is_late_by standing earlier.now (thing_of kind) id.now }
{
    !standing.is_open && !some_opens(kind, id, earlier) && standing.is_ended
}

/// Returns whether the activity or child was canceled before.
fn is_canceled(standing: Standing, earlier: &[Command], kind: OpenKind, id: &str) -> bool
    ensures { result ≡ is_canceled_by standing earlier.now (thing_of kind) id.now }
{
    !matches!(kind, OpenKind::Timer)
        && (standing.is_cancelling || (standing.is_open && some_cancels(kind, id, earlier)))
}

/// Returns why a command can't open a thing.
pub(crate) fn opening_fault(
    standing: Standing,
    earlier: &[Command],
    kind: OpenKind,
    id: &str,
) -> Option<WorkflowFault>
    ensures { result ≡ opening_fault_by standing earlier.now (thing_of kind) id.now }
{
    if still_open(standing, earlier, kind, id) {
        Some(WorkflowFault::IdInUse)
    } else if is_withdrawn(kind, id, earlier) {
        Some(WorkflowFault::IdReused)
    } else {
        None
    }
}

/// Judges a cancel: returns whether it comes late, or why it is invalid.
pub(crate) fn judge_cancel(
    standing: Standing,
    earlier: &[Command],
    kind: OpenKind,
    id: &str,
) -> Result<bool, WorkflowFault>
    ensures fault { result_err result ≡ cancel_fault_by standing earlier.now (thing_of kind) id.now }
    ensures late { IfOk result (λ late. late ≡ is_late_by standing earlier.now (thing_of kind) id.now) }
{
    let late = is_late(standing, earlier, kind, id);
    if !still_open(standing, earlier, kind, id) && !late {
        Err(WorkflowFault::NotOpen)
    } else if is_canceled(standing, earlier, kind, id) {
        Err(WorkflowFault::AlreadyCancelling)
    } else {
        Ok(late)
    }
}
