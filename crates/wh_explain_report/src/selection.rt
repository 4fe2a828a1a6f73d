//! Selects tasks of an explanation.

ghost use Rattle.std.specs.Prelude.{◌≡◌, ◌≤◌, length};
ghost use Rattle.wh_explain_report.specs.Selections as selections;

use crate::sharing::shares;
use wh_events::EventNo;
use wh_explain::ExplainedTask;
use wh_view_report::Selection;

/// The most tasks that are shown before the one with a fault, of those that share its things.
const BEFORE: usize = 4;

/// Returns how many tasks start before the event of a number.
fn started_before(number: EventNo, tasks: &[ExplainedTask]) -> usize
    ensures is { result ≡ selections.started_before number tasks.now }
    ensures within { result ≤ length tasks.now }
{
    tasks
        .iter()
        .filter(|task| task.at.get() < number.get())
        .count()
}

/// Returns the task at an index, with the two before and the two after it.
#[tactic(auto, using(std::proofs::lemmas::List::take_min))]
fn around(index: usize, tasks: &[ExplainedTask]) -> &[ExplainedTask]
    requires { index ≤ length tasks.now }
    ensures { result.now ≡ selections.around index tasks.now }
{
    let end = (index + 3).min(tasks.len());
    let front = &tasks[..end];
    &front[index.saturating_sub(2)..]
}

/// Returns the tasks that are selected.
pub(crate) fn select_tasks(selection: Selection, tasks: &[ExplainedTask]) -> &[ExplainedTask]
    ensures { result.now ≡ selections.selected selection tasks.now }
{
    match selection {
        Selection::All => tasks,
        Selection::Last(count) => &tasks[tasks.len().saturating_sub(count)..],
        Selection::Around(number) => around(started_before(number, tasks), tasks),
    }
}

/// Returns the tasks that are selected, or all if nothing is selected.
pub(crate) fn selected_or_all(
    selection: Option<Selection>,
    tasks: &[ExplainedTask],
) -> &[ExplainedTask]
    ensures { result.now ≡ selections.selected_or_all selection tasks.now }
{
    match selection {
        Some(selection) => select_tasks(selection, tasks),
        None => tasks,
    }
}

/// Returns how many tasks before one with a fault share its things.
fn sharing_count(fault: &ExplainedTask, before: &[ExplainedTask]) -> usize
    ensures is { result ≡ length (selections.sharing fault.now before.now) }
    ensures within { result ≤ length before.now }
{
    before.iter().filter(|task| shares(fault, task)).count()
}

/// Returns how many of the tasks that share its things are left out.
pub(crate) fn skipped_count(fault: &ExplainedTask, before: &[ExplainedTask]) -> usize
    ensures { result ≡ selections.skipped fault.now before.now }
{
    sharing_count(fault, before).saturating_sub(BEFORE)
}

/// Returns how many of the tasks before one with a fault are left out.
pub(crate) fn left_count(fault: &ExplainedTask, before: &[ExplainedTask]) -> usize
    ensures { result ≡ selections.left_before fault.now before.now }
{
    let count = sharing_count(fault, before);
    before.len() - (count - count.saturating_sub(BEFORE))
}
