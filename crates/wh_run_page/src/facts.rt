//! The facts that a page states of a run above its picture, and the notes below.

ghost use Rattle.std.specs.Prelude.{◌≡◌, ◌++◌, ◌∷◌, [], Some, codes, decimal, get_or, IfOk, OnOk};
ghost use Rattle.wh_run_page.specs.Facts as facts;
ghost use Rattle.wh_view.specs.Runs.{closing_in};

use crate::moments::moment_of;
use crate::words::copy_text;
use std::alloc::Global;
use std::fmt;
use wh_events::{OutOfMemory, Text};
use wh_html::{Fact, SpanText, Stamp};
use wh_view::View;
use wh_view_report::{completed_count, mark_of, status_word, workflow_type};

/// Adds a fact.
fn push_fact(
    alloc: Global,
    list: &mut Vec<Fact>,
    name: &str,
    value: Text,
) -> Result<(), OutOfMemory>
    ensures { OnOk result (list.new.items ≡ list.old.items ++ (facts.fact name.now value ∷ [])) }
{
    let name = copy_text(alloc, name)?;
    list.push(Fact { name, value })?;
    Ok(())
}

/// Returns the first of the times; 0 if there is none.
fn first_time(times: &[u64]) -> u64
    ensures { result ≡ get_or times.now 0 0 }
{
    match times.first() {
        Some(time) => *time,
        None => 0,
    }
}

/// Returns the last of the times; 0 if there is none.
fn last_time(times: &[u64]) -> u64
    ensures { result ≡ facts.last_time times.now }
{
    match times.last() {
        Some(time) => *time,
        None => 0,
    }
}

/// Returns when a run started, as text.
fn start_text(alloc: Global, times: &[u64]) -> Result<Text, OutOfMemory>
    ensures { IfOk result (λ text. text ≡ facts.started times.now) }
{
    let first = Stamp(first_time(times));
    Ok(Text::new(format!(in alloc; "{first}")?))
}

/// Returns how long a run lasted, as text.
fn duration_text(alloc: Global, times: &[u64]) -> Result<Text, OutOfMemory>
    ensures { IfOk result (λ text. text ≡ facts.lasted times.now) }
{
    let span = SpanText(last_time(times).saturating_sub(first_time(times)));
    Ok(Text::new(format!(in alloc; "{span}")?))
}

/// Returns a number as text.
fn count(alloc: Global, number: usize) -> Result<Text, OutOfMemory>
    ensures { IfOk result (λ text. text ≡ decimal number) }
{
    Ok(Text::new(format!(in alloc; "{number}")?))
}

/// Returns a name of a run as text, or that it is not recorded.
fn name_text(alloc: Global, name: &str) -> Result<Text, OutOfMemory>
    ensures { IfOk result (λ text. text ≡ facts.name_text name.now) }
{
    if name.is_empty() {
        return copy_text(alloc, "not recorded");
    }
    copy_text(alloc, name)
}

/// Returns the workflow id of the parent of a run as text, or that it has none.
fn parent_text(alloc: Global, name: &str) -> Result<Text, OutOfMemory>
    ensures { IfOk result (λ text. text ≡ facts.parent_text name.now) }
{
    if name.is_empty() {
        return copy_text(alloc, "no parent");
    }
    copy_text(alloc, name)
}

/// The event that closes a run, and when; nothing if the run is open.
#[derive(Drop)]
struct ClosingWords<'a>(&'a View, &'a [u64]);

impl fmt::Display for ClosingWords<'_> {
    ghost output = { λ c. Some (facts.closing_words c.1.now (closing_in c.0.now.events)) };

    fn fmt<W: fmt::Write>(&self, f: &mut fmt::Formatter<W>) -> fmt::Result {
        match self.0.closing_event() {
            Some(event) => {
                let moment = moment_of(self.1, event);
                let number = moment.event;
                let time = Stamp(moment.millis);
                write!(f, " by event {number}, {time}")
            }
            None => Ok(()),
        }
    }
}

/// Returns whether a run is open, or how it was closed, by which event and when, as text.
fn status_text(alloc: Global, view: &View, times: &[u64]) -> Result<Text, OutOfMemory>
    ensures { IfOk result (λ text. text ≡ facts.status_text view.now times.now) }
{
    let status = status_word(view.status());
    let closing = ClosingWords(view, times);
    Ok(Text::new(format!(in alloc; "{status}{closing}")?))
}

/// Returns the run in which the workflow goes on; empty if there is none.
fn next_run(view: &View) -> &str
    ensures { result.now ≡ facts.next_run (closing_in view.now.events) }
{
    match view.closing_event() {
        Some(event) => event.details.ending.next_run_id.get(),
        None => "",
    }
}

/// Adds a fact, if its value is not empty.
fn push_if(alloc: Global, list: &mut Vec<Fact>, name: &str, value: &str) -> Result<(), OutOfMemory>
    ensures { OnOk result (list.new.items ≡ list.old.items ++ facts.fact_if name.now value.now) }
{
    if value.is_empty() {
        return Ok(());
    }
    push_fact(alloc, list, name, copy_text(alloc, value)?)
}

/// Returns the facts that each run has.
#[tactic(auto, unfolding(crate::specs::Facts::main_facts))]
fn main_facts(alloc: Global, view: &View, times: &[u64]) -> Result<Vec<Fact>, OutOfMemory>
    ensures { IfOk result (λ all. all.items ≡ facts.main_facts view.now times.now) }
{
    let events = view.events.get();
    let run = &view.run;
    let mut all = Vec::new(alloc);
    let kind = copy_text(alloc, workflow_type(events))?;
    push_fact(alloc, &mut all, "Workflow type", kind)?;
    let workflow_id = name_text(alloc, run.workflow_id.get())?;
    push_fact(alloc, &mut all, "Workflow id", workflow_id)?;
    let run_id = name_text(alloc, run.run_id.get())?;
    push_fact(alloc, &mut all, "Run id", run_id)?;
    let task_queue = name_text(alloc, run.task_queue.get())?;
    push_fact(alloc, &mut all, "Task Queue", task_queue)?;
    let parent = parent_text(alloc, run.parent_workflow_id.get())?;
    push_fact(alloc, &mut all, "Parent", parent)?;
    let status = status_text(alloc, view, times)?;
    push_fact(alloc, &mut all, "Status", status)?;
    push_fact(alloc, &mut all, "Started", start_text(alloc, times)?)?;
    push_fact(alloc, &mut all, "Lasted", duration_text(alloc, times)?)?;
    push_fact(alloc, &mut all, "Events", count(alloc, events.len())?)?;
    let task_count = count(alloc, completed_count(events))?;
    push_fact(alloc, &mut all, "Tasks completed", task_count)?;
    Ok(all)
}

/// Returns the facts of a run: its workflow type, its names, how it ended, its times, its counts,
/// and the runs before and after it.
#[tactic(auto, unfolding(crate::specs::Facts::facts_of))]
pub(crate) fn facts_of(alloc: Global, view: &View, times: &[u64]) -> Result<Vec<Fact>, OutOfMemory>
    ensures { IfOk result (λ all. all.items ≡ facts.facts_of view.now times.now) }
{
    let mut all = main_facts(alloc, view, times)?;
    let previous = view.run.previous_run_id.get();
    push_if(alloc, &mut all, "Goes on from run", previous)?;
    push_if(alloc, &mut all, "Goes on in run", next_run(view))?;
    Ok(all)
}

/// Returns how many events have something wrong with them.
fn marked_count(view: &View) -> usize
    ensures { result ≡ facts.marked_count view.now }
{
    view.events
        .get()
        .iter()
        .filter(|event| !mark_of(view, event).is_empty())
        .count()
}

/// Returns the note on how many events have something wrong with them, if some have.
fn marked_note(alloc: Global, count: usize) -> Result<Option<Text>, OutOfMemory>
    ensures { IfOk result (λ note. note ≡ facts.marked_note count) }
{
    if count == 0 {
        return Ok(None);
    }
    let note = format!(in alloc;
        "Events that are not as a worker expects them: {count}. The lines of their tasks say why."
    )?;
    Ok(Some(Text::new(note)))
}

/// Adds a note, if there is one.
fn push_note(notes: &mut Vec<Text>, note: Option<Text>) -> Result<(), OutOfMemory>
    ensures { OnOk result (notes.new.items ≡ notes.old.items ++ facts.note_items note) }
{
    match note {
        Some(note) => Ok(notes.push(note)?),
        None => Ok(()),
    }
}

/// Returns what else a reader has to know: a note on the verdict, if there is one, and how many
/// events have something wrong with them, if some have.
pub(crate) fn notes_of(
    alloc: Global,
    view: &View,
    note: Option<Text>,
) -> Result<Vec<Text>, OutOfMemory>
    ensures { IfOk result (λ notes. notes.items ≡ facts.notes_of view.now note) }
{
    let mut notes = Vec::new(alloc);
    push_note(&mut notes, note)?;
    push_note(&mut notes, marked_note(alloc, marked_count(view))?)?;
    Ok(notes)
}
