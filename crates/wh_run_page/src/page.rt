//! Makes the page of a run.

ghost use Rattle.std.specs.Prelude.{◌≡◌, IfOk};
ghost use Rattle.wh_run_page.specs.Pages as pages;

use crate::choosing::chosen_things;
use crate::facts::{facts_of, notes_of};
use crate::lanes::lanes_of;
use crate::moments::{event_at, index_at, moment_if, times_of};
use crate::rows::{firsts_of, placed_things, row_count};
use crate::said::Said;
use crate::sums::sums_of;
use crate::tasks::shown_tasks;
use crate::waits::waits_of;
use std::alloc::Global;
use wh_events::{Items, OutOfMemory};
use wh_html::Page;
use wh_view::{View, ViewedThing};

/// Makes the page of a run whose events have these times, with these of its things.
#[tactic(auto, unfolding(crate::specs::Pages::timed_page))]
fn timed_page(
    alloc: Global,
    view: &View,
    times: &[u64],
    said: Said,
    shown: &[ViewedThing],
) -> Result<Page, OutOfMemory>
    ensures { IfOk result (λ page. page ≡ pages.timed_page view.now times.now said shown.now) }
{
    let facts = Items::new(facts_of(alloc, view, times)?);
    let waits = Items::new(waits_of(alloc, view)?);
    let firsts = firsts_of(alloc, view, shown)?;
    let placed = placed_things(alloc, view, shown, firsts.as_slice())?;
    let lanes = Items::new(lanes_of(alloc, view, times, placed.as_slice())?);
    let sums = Items::new(sums_of(alloc, view)?);
    let fault = moment_if(times, event_at(view.events.get(), index_at(said.place)));
    let tasks = shown_tasks(alloc, view, times, said.place, fault)?;
    let notes = Items::new(notes_of(alloc, view, said.note)?);
    Ok(Page {
        title: said.title,
        verdict: said.verdict,
        good: said.good,
        facts,
        waits,
        difference: said.difference,
        fault,
        lanes,
        rows: row_count(firsts.as_slice()),
        things: view.things.get().len(),
        sums,
        tasks: tasks.tasks,
        earlier: tasks.earlier,
        all_tasks: tasks.total,
        notes,
    })
}

/// Makes the page of a run from the view of its history and from what is said of it.
///
/// Its title, verdict, difference and first note come from `said`, and its fault is the event at
/// the place in `said`. Each thing of the view has a lane, in the order of the view: with the id
/// and the type of the event that opened it, the moments of the events that opened, started and
/// ended it and that requested its cancellation, how long it waited for its start and how long it
/// took from there, the outcome by the event that ended it, and the attempt of the event that
/// started it. In place of a type and an id a marker of an SDK has the name and the kind of what it
/// records, but a side effect its kind and its id. The outcome of a version is its number. Of more
/// than 300 things those have one that have the event of the fault, then those
/// that failed, then those that are open, and then the slowest. Each has its own row of the
/// picture; of more than 40 lanes those of one type share a row, which tells how many of the type
/// the run opened, how many of these have a lane, how many failed and how many are open. The page
/// has the sums of the view, of each type the count, the median of the times, and the longest with
/// its event.
/// Adjacent events that belong to one task are one task. Of more than 300 tasks those around the
/// event of the fault are shown, or else the last ones of an open run and the first ones of a
/// closed one. Each event of a task that is shown has a line, except `WorkflowTaskScheduled` and
/// `WorkflowTaskStarted`; the sides of the lines separate activation jobs, commands, and what else
/// is recorded. The event of the fault always has a line,
/// with `Side::Fault`. An event is shown with its number, or with its place if it has no number or
/// one that does not follow the number before. An event without a time has that of the event
/// before. The line of an event that tells of a failure has its causes, and their stack traces. If
/// the run is open, the page says what it waits for. The work is proportional to the number of
/// events.
///
/// Returns `OutOfMemory` if there is no memory for the page.
pub fn page_of(alloc: Global, view: &View, said: Said) -> Result<Page, OutOfMemory>
    ensures { IfOk result (λ page. pages.IsPageOf view.now said page) }
{
    let times = times_of(alloc, view.events.get())?;
    let shown = chosen_things(alloc, view, times.as_slice(), index_at(said.place))?;
    timed_page(alloc, view, times.as_slice(), said, shown.as_slice())
}
