//! What an open run waits for, as its page says it.

ghost use Rattle.std.specs.Prelude.{◌≡◌, ◌++◌, IfOk, OnOk, map, option_map};
ghost use Rattle.std.specs.List.{flat_map};
ghost use Rattle.wh_run_page.specs.Waits as waits;

use crate::moments::event_at;
use crate::words::copy_text;
use std::alloc::Global;
use wh_events::{OutOfMemory, Text};
use wh_html::first_items;
use wh_view::{OpenTask, RunStatus, View, ViewedThing};
use wh_view_report::{AwaitedTask, AwaitedThing};

/// The most things that a page says a run waits for.
const NAMED: usize = 40;

/// Returns the things that have not ended.
fn open_things(alloc: Global, things: &[ViewedThing]) -> Result<Vec<ViewedThing>, OutOfMemory>
    ensures { IfOk result (λ pending. pending.items ≡ waits.open_things things.now) }
{
    let mut pending = Vec::new(alloc);
    for thing in things {
        if thing.ended.is_none() {
            pending.push(*thing)?;
        }
    }
    Ok(pending)
}

/// Returns a thing for which a run waits, in words; nothing if no event opened it.
fn thing_words(alloc: Global, view: &View, thing: &ViewedThing) -> Result<Text, OutOfMemory>
    ensures { IfOk result (λ words. words ≡ waits.thing_words view.now thing.now) }
{
    match event_at(view.events.get(), Some(thing.opened)) {
        Some(event) => {
            let words = AwaitedThing(view, thing, event);
            Ok(Text::new(format!(in alloc; "{words}")?))
        }
        None => copy_text(alloc, ""),
    }
}

/// Returns things for which a run waits, in words.
fn things_words(
    alloc: Global,
    view: &View,
    things: &[ViewedThing],
) -> Result<Vec<Text>, OutOfMemory>
    ensures { IfOk result (λ all. all.items ≡ map (waits.thing_words view.now) things.now) }
{
    let mut all = Vec::new(alloc);
    for thing in things {
        let words = thing_words(alloc, view, thing)?;
        all.push(words)?;
    }
    Ok(all)
}

/// Adds how many more things a run waits for, if there are more.
fn push_more(alloc: Global, left: usize, all: &mut Vec<Text>) -> Result<(), OutOfMemory>
    ensures { OnOk result (all.new.items ≡ all.old.items ++ waits.more left) }
{
    if left != 0 {
        all.push(Text::new(format!(in alloc; "{left} more")?))?;
    }
    Ok(())
}

/// Adds the workflow task for which a run waits, if there is one.
fn push_task(
    alloc: Global,
    view: &View,
    task: Option<OpenTask>,
    all: &mut Vec<Text>,
) -> Result<(), OutOfMemory>
    ensures { OnOk result (all.new.items ≡ all.old.items ++ waits.task_words view.now task) }
{
    let Some(task) = task else {
        return Ok(());
    };
    if let Some(event) = event_at(view.events.get(), Some(task.scheduled)) {
        let words = AwaitedTask(view, task, event);
        all.push(Text::new(format!(in alloc; "{words}")?))?;
    }
    Ok(())
}

/// Adds that nothing is open of what a run may wait for, if nothing else is said.
fn push_nothing(alloc: Global, all: &mut Vec<Text>) -> Result<(), OutOfMemory>
    ensures { OnOk result (all.new.items ≡ waits.or_nothing all.old.items) }
{
    if all.is_empty() {
        all.push(copy_text(
            alloc,
            "no activity, timer, child workflow, request or workflow task is open",
        )?)?;
    }
    Ok(())
}

/// Returns what a run that is open waits for.
#[tactic(auto, unfolding(crate::specs::Waits::open_waits))]
fn open_waits(alloc: Global, view: &View) -> Result<Vec<Text>, OutOfMemory>
    ensures { IfOk result (λ all. all.items ≡ waits.open_waits view.now) }
{
    let pending = open_things(alloc, view.things.get())?;
    let mut all = things_words(alloc, view, first_items(pending.as_slice(), NAMED))?;
    push_more(alloc, pending.len().saturating_sub(NAMED), &mut all)?;
    push_task(alloc, view, view.open_task(), &mut all)?;
    push_nothing(alloc, &mut all)?;
    Ok(all)
}

/// Returns what a run waits for; nothing if it is closed.
pub(crate) fn waits_of(alloc: Global, view: &View) -> Result<Vec<Text>, OutOfMemory>
    ensures { IfOk result (λ all. all.items ≡ waits.waits_of view.now) }
{
    match view.status() {
        RunStatus::Running => open_waits(alloc, view),
        _ => Ok(Vec::new(alloc)),
    }
}
