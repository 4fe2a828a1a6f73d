//! The totals of a host without the answers that the server did not take.

ghost use Rattle.std.specs.Prelude.{◌≡◌};
ghost use Rattle.wh_work.specs.Untaken.{settled};

use wh_host::Totals;
use wh_notes::UntakenAnswers;

/// Returns the totals of a host, in which no task counts as completed or failed whose answer the
/// server did not take.
pub(crate) fn taken_totals(totals: Totals, answers: UntakenAnswers) -> Totals
    ensures { result ≡ settled totals answers }
{
    Totals {
        completed: answers.completed_tasks(totals.completed),
        failed: answers.failed_tasks(totals.failed),
        ..totals
    }
}
