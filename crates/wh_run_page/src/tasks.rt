//! The workflow tasks of a run, as those of its page.

ghost use Rattle.std.specs.Prelude.{◌≡◌, ◌+◌, ◌<◌, ◌≤◌, ◌^◌, ◌++◌, IfOk, OnOk, length, map, option_map};
ghost use Rattle.std.specs.List.{list_any};
ghost use Rattle.wh_html.specs.Views.{first_shown};
ghost use Rattle.wh_run_page.specs.Tasks as tasks;
ghost use Rattle.wh_view.specs.Runs.{status_of};

use crate::causes::traces_of;
use crate::event_words::event_words;
use crate::headings::{Sought, first_like, heading};
use crate::moments::{moment_or, number_of};
use std::alloc::Global;
use wh_events::{Items, OutOfMemory};
use wh_html::{Moment, Side, Task, TaskLine, first_items, first_shown, shown_items};
use wh_view::{EventUse, RunStatus, View, ViewedEvent};
use wh_view_report::is_quiet;

/// Adjacent events that belong to one task.
#[derive(Clone, Copy)]
pub(crate) struct Group {
    /// The number of the task.
    number: usize,
    /// The index of the first event.
    first: usize,
    /// How many events there are.
    count: usize,
}

/// Returns whether the event of the fault is at a place.
fn is_at(fault: Option<u64>, place: u64) -> bool
    ensures { result ≡ tasks.is_at fault place }
{
    match fault {
        Some(other) => other == place,
        None => false,
    }
}

/// Returns the side of the line of an event.
fn side_of(word: EventUse) -> Side
    ensures { result ≡ tasks.side_of word }
{
    match word {
        EventUse::Told => Side::Told,
        EventUse::Gives => Side::Gives,
        EventUse::Completes | EventUse::Other => Side::Recorded,
    }
}

/// Returns the side of the line of an event: `Fault` for the event of the fault.
fn side_at(fault: Option<u64>, event: &ViewedEvent) -> Side
    ensures { result ≡ tasks.side_at fault event.now }
{
    if is_at(fault, event.place) {
        Side::Fault
    } else {
        side_of(event.word())
    }
}

/// Returns the line of an event.
fn line_of(
    alloc: Global,
    view: &View,
    fault: Option<u64>,
    event: &ViewedEvent,
) -> Result<TaskLine, OutOfMemory>
    ensures { IfOk result (λ line. line ≡ tasks.line_of view.now fault event.now) }
{
    let text = event_words(alloc, view, event)?;
    let trace = Items::new(traces_of(alloc, event.details.failures.get())?);
    Ok(TaskLine {
        side: side_at(fault, event),
        event: Some(number_of(event)),
        text,
        trace,
    })
}

/// Returns whether an event has a line.
fn has_line(fault: Option<u64>, event: &ViewedEvent) -> bool
    ensures { result ≡ tasks.has_line fault event.now }
{
    is_at(fault, event.place) || !is_quiet(event)
}

/// Adds the line of an event, if it has one.
fn push_line(
    alloc: Global,
    view: &View,
    fault: Option<u64>,
    event: &ViewedEvent,
    lines: &mut Vec<TaskLine>,
) -> Result<(), OutOfMemory>
    ensures { OnOk result (lines.new.items ≡ lines.old.items ++ tasks.line_if view.now fault event.now) }
{
    if has_line(fault, event) {
        let line = line_of(alloc, view, fault, event)?;
        lines.push(line)?;
    }
    Ok(())
}

/// Returns the lines of events.
fn lines_of(
    alloc: Global,
    view: &View,
    fault: Option<u64>,
    events: &[ViewedEvent],
) -> Result<Vec<TaskLine>, OutOfMemory>
    ensures { IfOk result (λ lines. lines.items ≡ tasks.lines_of view.now fault events.now) }
{
    let mut lines = Vec::new(alloc);
    for event in events {
        push_line(alloc, view, fault, event, &mut lines)?;
    }
    Ok(lines)
}

/// Returns the first event with which a workflow task starts, or else the first event.
fn start_of<'v>(events: &'v [ViewedEvent]) -> Option<&'v ViewedEvent>
    ensures { option_map (λ e. e.now) result ≡ tasks.start_of events.now }
{
    match first_like(Sought::Start, events) {
        Some(event) => Some(event),
        None => events.first(),
    }
}

/// Returns whether one of the events is that of the fault.
fn is_faulty(fault: Option<u64>, events: &[ViewedEvent]) -> bool
    ensures { result ≡ list_any (λ event. tasks.is_at fault event.place) events.now }
{
    events.iter().any(|event| is_at(fault, event.place))
}

/// Returns a task of these events.
#[tactic(auto, unfolding(crate::specs::Tasks::task_of))]
fn task_of(
    alloc: Global,
    view: &View,
    times: &[u64],
    fault: Option<u64>,
    number: usize,
    events: &[ViewedEvent],
) -> Result<Task, OutOfMemory>
    ensures { IfOk result (λ task. task ≡ tasks.task_of view.now times.now fault number events.now) }
{
    let heading = heading(alloc, view, number, events)?;
    let lines = Items::new(lines_of(alloc, view, fault, events)?);
    Ok(Task {
        heading,
        started: moment_or(times, start_of(events)),
        lines,
        faulty: is_faulty(fault, events),
    })
}

/// Returns the current group after the next event, which belongs to the task of this number.
#[tactic(auto, unfolding(crate::specs::Tasks::next_group))]
fn next_group(group: Group, number: usize) -> Group
    requires { group.first + group.count + 1 < 2 ^ 64 }
    ensures next { result ≡ tasks.next_group group number }
    ensures end { result.first + result.count ≡ group.first + group.count + 1 }
{
    if number == group.number {
        Group {
            number: group.number,
            first: group.first,
            count: group.count + 1,
        }
    } else {
        Group {
            number,
            first: group.first + group.count,
            count: 1,
        }
    }
}

/// Adds the group if the next event, of the task of this number, does not continue it.
#[tactic(auto, unfolding(crate::specs::Tasks::closed_by))]
fn push_closed(groups: &mut Vec<Group>, group: Group, number: usize) -> Result<(), OutOfMemory>
    ensures { OnOk result (groups.new.items ≡ groups.old.items ++ tasks.closed_by group number) }
{
    if number != group.number {
        groups.push(group)?;
    }
    Ok(())
}

/// Returns the groups of events by the numbers of their tasks, with the events of `first` before
/// them.
#[tactic(auto, unfolding(crate::specs::Tasks::groups_from))]
fn groups_from(alloc: Global, first: Group, numbers: &[usize]) -> Result<Vec<Group>, OutOfMemory>
    requires { first.first + first.count < 2 ^ 63 }
    ensures { IfOk result (λ groups. groups.items ≡ tasks.groups_from first numbers.now) }
{
    let mut groups = Vec::new(alloc);
    let mut group = first;
    for number in numbers {
        push_closed(&mut groups, group, *number)?;
        group = next_group(group, *number);
    }
    groups.push(group)?;
    Ok(groups)
}

/// Returns the groups of events by the numbers of their tasks.
#[tactic(auto, unfolding(crate::specs::Tasks::groups_of))]
fn groups_of(alloc: Global, numbers: &[usize]) -> Result<Vec<Group>, OutOfMemory>
    ensures { IfOk result (λ groups. groups.items ≡ tasks.groups_of numbers.now) }
{
    match numbers {
        [] => Ok(Vec::new(alloc)),
        [number, rest @ ..] => groups_from(
            alloc,
            Group {
                number: *number,
                first: 0,
                count: 1,
            },
            rest,
        ),
    }
}

/// Returns the events of a group.
fn events_of(events: &[ViewedEvent], group: Group) -> &[ViewedEvent]
    ensures { result.now ≡ tasks.events_of events.now group }
{
    let first = group.first.min(events.len());
    first_items(&events[first..], group.count)
}

/// Returns the task of a group.
fn task_at(
    alloc: Global,
    view: &View,
    times: &[u64],
    fault: Option<u64>,
    group: Group,
) -> Result<Task, OutOfMemory>
    ensures { IfOk result (λ task. task ≡ tasks.task_at view.now times.now fault group) }
{
    let events = events_of(view.events.get(), group);
    task_of(alloc, view, times, fault, group.number, events)
}

/// Returns the tasks of groups.
fn tasks_in(
    alloc: Global,
    view: &View,
    times: &[u64],
    fault: Option<u64>,
    groups: &[Group],
) -> Result<Vec<Task>, OutOfMemory>
    ensures { IfOk result (λ all. all.items ≡ map (tasks.task_at view.now times.now fault) groups.now) }
{
    let mut all = Vec::new(alloc);
    for group in groups {
        let task = task_at(alloc, view, times, fault, *group)?;
        all.push(task)?;
    }
    Ok(all)
}

/// Returns whether a run is open.
fn is_running(status: RunStatus) -> bool
    ensures { result ≡ tasks.is_running status }
{
    matches!(status, RunStatus::Running)
}

/// Returns the moment at which the task of a group starts.
fn start_at(view: &View, times: &[u64], group: Group) -> Moment
    ensures { result ≡ tasks.start_at view.now times.now group }
{
    moment_or(times, start_of(events_of(view.events.get(), group)))
}

/// Returns the moments at which the tasks of groups start.
fn starts_of(
    alloc: Global,
    view: &View,
    times: &[u64],
    groups: &[Group],
) -> Result<Vec<Moment>, OutOfMemory>
    ensures { IfOk result (λ starts. starts.items ≡ map (tasks.start_at view.now times.now) groups.now) }
{
    let mut starts = Vec::new(alloc);
    for group in groups {
        starts.push(start_at(view, times, *group))?;
    }
    Ok(starts)
}

/// Returns how many tasks are left out before those that the page shows, if these are all groups.
fn earlier_of(
    alloc: Global,
    view: &View,
    times: &[u64],
    groups: &[Group],
    fault: Option<Moment>,
) -> Result<usize, OutOfMemory>
    ensures index { let starts = map (tasks.start_at view.now times.now) groups.now in
        IfOk result (λ earlier. earlier ≡ first_shown starts fault (tasks.is_running (status_of view.now.events))) }
    ensures within { IfOk result (λ earlier. earlier ≤ length groups.now) }
{
    let starts = starts_of(alloc, view, times, groups)?;
    Ok(first_shown(starts.as_slice(), fault, is_running(view.status())))
}

/// The tasks of a run that its page shows.
#[derive(Drop)]
pub(crate) struct ShownTasks {
    /// The tasks.
    pub(crate) tasks: Items<Task>,
    /// How many are left out before them.
    pub(crate) earlier: usize,
    /// How many the run has in all.
    pub(crate) total: usize,
}

/// Returns the tasks of a run that its page shows, by the place and the moment of the fault.
#[tactic(auto, using(crate::proofs::Few::shown_map))]
pub(crate) fn shown_tasks(
    alloc: Global,
    view: &View,
    times: &[u64],
    place: Option<u64>,
    fault: Option<Moment>,
) -> Result<ShownTasks, OutOfMemory>
    ensures tasks { IfOk result (λ all. all.tasks ≡ tasks.shown_tasks view.now times.now place fault) }
    ensures earlier { IfOk result (λ all. all.earlier ≡ tasks.earlier_of view.now times.now fault) }
    ensures total { IfOk result (λ all. all.total ≡ length (tasks.groups_of view.now.tasks)) }
{
    let groups = groups_of(alloc, view.tasks.get())?;
    let earlier = earlier_of(alloc, view, times, groups.as_slice(), fault)?;
    let shown = shown_items(groups.as_slice(), earlier);
    let tasks = Items::new(tasks_in(alloc, view, times, place, shown)?);
    Ok(ShownTasks {
        tasks,
        earlier,
        total: groups.len(),
    })
}
