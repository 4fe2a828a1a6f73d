//! Writes a view with its tasks folded: of tasks that repeat others a line tells how many they are.

ghost use Rattle.std.specs.Prelude.{◌≡◌, ◌∷◌, ◌++◌, ◌<◌, ◌≤◌, ◌^◌, [], OnOk, drop, length, slice_get, slice_range, if◌then◌else◌};
ghost use Rattle.std.specs.List.{list_any};
ghost use Rattle.std.specs.Io.KnownBytes.{Appends};
ghost use Rattle.wh_view_report.specs.Alike.{alike_tasks};
ghost use Rattle.wh_view_report.specs.Folding as folding;
ghost use Rattle.wh_view_report.specs.Private.Folds as folds;

use crate::alike::alike_tasks;
use crate::begins::{Begins, begins_with};
use crate::text::{is_quiet, write_bottom, write_event, write_top};
use crate::words::Number;
use std::io;
use std::io::Write;
use wh_view::{View, ViewedEvent};

/// Returns whether there is an event at an index, and it belongs to the task of the number.
fn belongs(view: &View, number: usize, at: usize) -> bool
    ensures { result ≡ folds.belongs view.now number (slice_get view.now.events at) }
{
    match view.events.get().get(at) {
        Some(event) => view.task_of(event) == number,
        None => false,
    }
}

/// Returns the index behind the last event of the task whose first event is at an index.
fn end_of(view: &View, at: usize) -> usize
    requires { at < length view.now.events }
    ensures after { at < result }
    ensures within { result ≤ length view.now.events }
    ensures task { folding.tasks_in view.now (drop at view.now.events)
        ≡ slice_range view.now.events at result ∷ folding.tasks_in view.now (drop result view.now.events) }
{
    let number = view.task_of(&view.events.get()[at]);
    let mut end = at + 1;
    while belongs(view, number, end) {
        end += 1;
    }
    end
}

/// Returns whether a task is like one of the four that stand before an index.
fn repeats(view: &View, begins: Begins, at: usize, task: &[ViewedEvent]) -> bool
    requires within { at ≤ length view.now.events }
    requires order { folds.AreInOrder begins at }
    ensures { result ≡ list_any (alike_tasks view.now task.now) (folds.ranges view.now.events begins at) }
{
    let events = view.events.get();
    alike_tasks(view, task, &events[begins.last..at])
        || alike_tasks(view, task, &events[begins.second..begins.last])
        || alike_tasks(view, task, &events[begins.third..begins.second])
        || alike_tasks(view, task, &events[begins.fourth..begins.third])
}

/// Writes the lines of a task.
fn write_task<O: Write>(view: &View, task: &[ViewedEvent], writer: &mut O) -> io::Result<()>
    ensures { OnOk result
        (Appends (O.contents writer.old) (O.contents writer.new) (folding.task_text view.now task.now)) }
{
    for event in task {
        if !is_quiet(event) {
            write_event(view, event, writer)?;
        }
    }
    Ok(())
}

/// Writes the line for tasks that are not shown, the last event of which is this one.
#[tactic(auto, unfolding(crate::specs::Folding::fold_line))]
fn write_fold_line<O: Write>(
    view: &View,
    tasks: usize,
    events: usize,
    last: &ViewedEvent,
    writer: &mut O,
) -> io::Result<()>
    ensures { OnOk result (Appends (O.contents writer.old) (O.contents writer.new)
        (folding.fold_line view.now tasks events last.now)) }
{
    let task = view.task_of(last);
    let number = Number(last);
    write!(
        writer,
        "{tasks} more tasks, up to task {task} {number}, repeat tasks before them but for ids, numbers, times and values: {events} events, which --all shows\n"
    )
}

/// Writes the line for tasks that are not shown and have these events, if there are some.
fn write_fold<O: Write>(
    view: &View,
    tasks: usize,
    events: &[ViewedEvent],
    writer: &mut O,
) -> io::Result<()>
    ensures { OnOk result (Appends (O.contents writer.old) (O.contents writer.new)
        (folding.fold_text view.now tasks events.now)) }
{
    match events.last() {
        Some(last) => write_fold_line(view, tasks, events.len(), last, writer),
        None => Ok(()),
    }
}

/// Writes the line for the tasks before one that are not shown, and then this one, unless it
/// repeats one of them.
fn write_unless<O: Write>(
    repeats: bool,
    view: &View,
    tasks: usize,
    events: &[ViewedEvent],
    task: &[ViewedEvent],
    writer: &mut O,
) -> io::Result<()>
    ensures { OnOk result (Appends (O.contents writer.old) (O.contents writer.new)
        (folds.text_unless repeats view.now tasks events.now task.now)) }
{
    if repeats {
        return Ok(());
    }
    write_fold(view, tasks, events, writer)?;
    write_task(view, task, writer)
}

/// Tasks before an index that are not shown.
#[derive(Clone, Copy)]
struct Fold {
    /// How many they are.
    tasks: usize,
    /// The index of the first event of them.
    start: usize,
}

/// Returns the tasks that are not shown, when a task has been passed that ends at the index.
fn fold_with(repeats: bool, fold: Fold, end: usize) -> Fold
    requires { fold.tasks < 2 ^ 63 }
    ensures { result ≡ folds.fold_with repeats fold end }
{
    if repeats {
        Fold {
            tasks: fold.tasks + 1,
            start: fold.start,
        }
    } else {
        Fold {
            tasks: 0,
            start: end,
        }
    }
}

/// Writes the lines of the tasks, and in place of those that repeat others how many they are.
fn write_parts<O: Write>(view: &View, writer: &mut O) -> io::Result<()>
    ensures { OnOk result
        (Appends (O.contents writer.old) (O.contents writer.new) (folding.parts_text view.now)) }
{
    let events = view.events.get();
    let mut begins = Begins {
        last: 0,
        second: 0,
        third: 0,
        fourth: 0,
    };
    let mut fold = Fold { tasks: 0, start: 0 };
    let mut at = 0;
    while at < events.len() {
        let end = end_of(view, at);
        let task = &events[at..end];
        let repeats = repeats(view, begins, at, task);
        write_unless(
            repeats,
            view,
            fold.tasks,
            &events[fold.start..at],
            task,
            writer,
        )?;
        fold = fold_with(repeats, fold, end);
        begins = begins_with(begins, at);
        at = end;
    }
    write_fold(view, fold.tasks, &events[fold.start..at], writer)
}

/// Writes the lines of the tasks, folded, and the last lines.
fn write_below<O: Write>(view: &View, writer: &mut O) -> io::Result<()>
    ensures { OnOk result (Appends (O.contents writer.old) (O.contents writer.new)
        (folding.below_text view.now)) }
{
    write_parts(view, writer)?;
    write_bottom(view, writer)
}

/// Writes a view with its tasks folded.
#[tactic(auto, unfolding(crate::specs::Folding::folded_text))]
pub(crate) fn write_folded<O: Write>(view: &View, writer: &mut O) -> io::Result<()>
    ensures { OnOk result
        (Appends (O.contents writer.old) (O.contents writer.new) (folding.folded_text view.now)) }
{
    write_top(view, writer)?;
    write_below(view, writer)
}
