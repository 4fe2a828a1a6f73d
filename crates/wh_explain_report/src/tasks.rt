//! Writes the tasks of an explanation: those that are selected, those that share things with the
//! task that has a fault, or all, with alike ones folded.

ghost use Rattle.std.specs.Prelude.{◌≡◌, ◌<◌, ◌^◌, OnOk, drop};
ghost use Rattle.std.specs.List.{flat_map};
ghost use Rattle.std.specs.Io.KnownBytes.{Appends};
ghost use Rattle.wh_explain_report.specs.Selections.{sharing};
ghost use Rattle.wh_explain_report.specs.TaskTexts as texts;
ghost use Rattle.wh_explain_report.specs.Texts.{task_text};

use crate::alike::alike_tasks;
use crate::selection::{left_count, select_tasks, skipped_count};
use crate::sharing::shares;
use crate::showing::{write_task, write_tasks};
use std::io;
use std::io::Write;
use wh_explain::ExplainedTask;
use wh_view_report::Selection;

/// Writes how many tasks are left out, if some are.
fn write_left<O: Write>(left: usize, writer: &mut O) -> io::Result<()>
    ensures { OnOk result (Appends (O.contents writer.old) (O.contents writer.new) (texts.left_line left)) }
{
    if left == 0 {
        return Ok(());
    }
    write!(
        writer,
        "{left} tasks are left out: --all shows them, --last N or --around EVENT some of them\n"
    )
}

/// Writes the tasks that are selected.
fn write_selected<O: Write>(
    selection: Selection,
    tasks: &[ExplainedTask],
    writer: &mut O,
) -> io::Result<()>
    ensures { OnOk result (Appends (O.contents writer.old) (O.contents writer.new)
        (texts.selected_text selection tasks.now)) }
{
    let chosen = select_tasks(selection, tasks);
    write_left(tasks.len().saturating_sub(chosen.len()), writer)?;
    write_tasks(chosen, writer)
}

/// Writes a task, unless more are to be left out.
fn write_unless<O: Write>(left: usize, task: &ExplainedTask, writer: &mut O) -> io::Result<()>
    ensures { OnOk result
        (Appends (O.contents writer.old) (O.contents writer.new) (texts.text_unless left task.now)) }
{
    if left == 0 {
        write_task(task, writer)
    } else {
        Ok(())
    }
}

/// Writes the tasks that share things with one that has a fault, but for the first few of them.
fn write_after<O: Write>(
    fault: &ExplainedTask,
    skipped: usize,
    before: &[ExplainedTask],
    writer: &mut O,
) -> io::Result<()>
    ensures { OnOk result (Appends (O.contents writer.old) (O.contents writer.new)
        (flat_map task_text (drop skipped (sharing fault.now before.now)))) }
{
    let mut left = skipped;
    for task in before {
        if !shares(fault, task) {
            continue;
        }
        write_unless(left, task, writer)?;
        left = left.saturating_sub(1);
    }
    Ok(())
}

/// Writes the last tasks that share things with one that has a fault, and how many are left out.
#[tactic(auto, unfolding(crate::specs::TaskTexts::before_text))]
fn write_before<O: Write>(
    fault: &ExplainedTask,
    before: &[ExplainedTask],
    writer: &mut O,
) -> io::Result<()>
    ensures { OnOk result (Appends (O.contents writer.old) (O.contents writer.new)
        (texts.before_text fault.now before.now)) }
{
    write_left(left_count(fault, before), writer)?;
    write_after(fault, skipped_count(fault, before), before, writer)
}

/// Writes the last task, which has a fault, after those that share its things.
fn write_faulty<O: Write>(tasks: &[ExplainedTask], writer: &mut O) -> io::Result<()>
    ensures { OnOk result (Appends (O.contents writer.old) (O.contents writer.new) (texts.faulty_text tasks.now)) }
{
    let Some(fault) = tasks.last() else {
        return Ok(());
    };
    write_before(fault, &tasks[..tasks.len() - 1], writer)?;
    write_task(fault, writer)
}

/// Writes how many tasks are alike, if some are.
fn write_fold<O: Write>(count: usize, last: &ExplainedTask, writer: &mut O) -> io::Result<()>
    ensures { OnOk result (Appends (O.contents writer.old) (O.contents writer.new) (texts.fold_line count last.now)) }
{
    if count == 0 {
        return Ok(());
    }
    let at = last.at.get();
    write!(
        writer,
        "{count} more tasks, up to that at {at}, are alike but for numbers and times\n"
    )
}

/// Writes how many tasks are alike, and then the next task, if it is not like the one before it.
fn write_unlike<O: Write>(
    alike: bool,
    count: usize,
    before: &ExplainedTask,
    task: &ExplainedTask,
    writer: &mut O,
) -> io::Result<()>
    ensures { OnOk result (Appends (O.contents writer.old) (O.contents writer.new)
        (texts.unlike_text alike count before.now task.now)) }
{
    if alike {
        return Ok(());
    }
    write_fold(count, before, writer)?;
    write_task(task, writer)
}

/// Returns how many tasks are alike, with one more.
fn next_count(alike: bool, count: usize) -> usize
    requires { count < 2 ^ 63 }
    ensures { result ≡ texts.next_count alike count }
{
    if alike { count + 1 } else { 0 }
}

/// Writes tasks after another one, with alike ones folded.
fn write_rest<O: Write>(
    first: &ExplainedTask,
    rest: &[ExplainedTask],
    writer: &mut O,
) -> io::Result<()>
    ensures { OnOk result (Appends (O.contents writer.old) (O.contents writer.new)
        (texts.folded_from first.now 0 rest.now)) }
{
    let mut before = first;
    let mut count = 0;
    for task in rest {
        let alike = alike_tasks(before, task);
        write_unlike(alike, count, before, task, writer)?;
        count = next_count(alike, count);
        before = task;
    }
    write_fold(count, before, writer)
}

/// Writes all tasks, with alike ones folded.
fn write_all<O: Write>(tasks: &[ExplainedTask], writer: &mut O) -> io::Result<()>
    ensures { OnOk result (Appends (O.contents writer.old) (O.contents writer.new) (texts.folded_text tasks.now)) }
{
    let Some(first) = tasks.first() else {
        return Ok(());
    };
    write_task(first, writer)?;
    write_rest(first, &tasks[1..], writer)
}

/// Writes the tasks that are selected. If nothing is selected, it writes all tasks of a history
/// without a fault, with alike ones folded, or else the last task, after those that share its
/// things.
pub(crate) fn write_chosen<O: Write>(
    selection: Option<Selection>,
    good: bool,
    tasks: &[ExplainedTask],
    writer: &mut O,
) -> io::Result<()>
    ensures { OnOk result (Appends (O.contents writer.old) (O.contents writer.new)
        (texts.chosen_text selection good tasks.now)) }
{
    match selection {
        Some(selection) => write_selected(selection, tasks, writer),
        None => if good {
            write_all(tasks, writer)
        } else {
            write_faulty(tasks, writer)
        },
    }
}
