//! The headings of the workflow tasks of a page.

ghost use Rattle.std.specs.Prelude.{◌≡◌, Some, IfOk, option_map};
ghost use Rattle.wh_run_page.specs.Headings as headings;

use crate::event_words::EventTitle;
use std::alloc::Global;
use std::fmt;
use wh_events::{EventKind, OutOfMemory, Text};
use wh_view::{EventUse, View, ViewedEvent};

/// Which events of a task are looked for.
#[derive(Clone, Copy)]
pub(crate) enum Sought {
    /// Those with which a workflow task starts.
    Start,
    /// Those that become activation jobs of the workflow.
    Told,
    /// Those that record its commands.
    Given,
}

/// Returns whether an event is one that is looked for.
fn is_sought(sought: Sought, event: &ViewedEvent) -> bool
    ensures { result ≡ headings.is_sought sought event.now }
{
    match sought {
        Sought::Start => matches!(&event.read.kind, Some(EventKind::WorkflowTaskStarted)),
        Sought::Told => matches!(event.word(), EventUse::Told),
        Sought::Given => matches!(event.word(), EventUse::Gives),
    }
}

/// Returns the first event that is looked for.
#[tactic(auto, unfolding(crate::specs::Headings::first_like))]
pub(crate) fn first_like<'v>(sought: Sought, events: &'v [ViewedEvent]) -> Option<&'v ViewedEvent>
    ensures { option_map (λ e. e.now) result ≡ headings.first_like sought events.now }
{
    for event in events {
        if is_sought(sought, event) {
            return Some(event);
        }
    }
    None
}

/// Returns how many events are looked for.
fn count_like(sought: Sought, events: &[ViewedEvent]) -> usize
    ensures { result ≡ headings.count_like sought events.now }
{
    events
        .iter()
        .filter(|event| is_sought(sought, event))
        .count()
}

/// How many more there are than one, if there are more.
#[derive(Clone, Copy)]
struct MoreCount(usize);

impl fmt::Display for MoreCount {
    ghost output = { λ m. Some (headings.more_text m.0) };

    fn fmt<W: fmt::Write>(&self, f: &mut fmt::Formatter<W>) -> fmt::Result {
        let count = self.0;
        if 1 < count {
            let more = count - 1;
            write!(f, " and {more} more")
        } else {
            Ok(())
        }
    }
}

/// A label and the first of so many events; nothing if there is none.
#[derive(Drop)]
struct First<'a> {
    label: &'static str,
    view: &'a View,
    count: usize,
    event: Option<&'a ViewedEvent>,
}

impl fmt::Display for First<'_> {
    ghost output = { λ p. Some (headings.part_text p.view.now p.label.now p.count (option_map (λ e. e.now) p.event)) };

    fn fmt<W: fmt::Write>(&self, f: &mut fmt::Formatter<W>) -> fmt::Result {
        match self.event {
            Some(event) => {
                let label = self.label;
                let title = EventTitle(self.view, event);
                let more = MoreCount(self.count);
                write!(f, "{label}{title}{more}")
            }
            None => Ok(()),
        }
    }
}

/// Returns the heading of a task of these events: its number, the first of its activation jobs, and
/// the first of its commands, each with how many more there are.
#[tactic(auto, unfolding(crate::specs::Headings::heading))]
pub(crate) fn heading(
    alloc: Global,
    view: &View,
    number: usize,
    events: &[ViewedEvent],
) -> Result<Text, OutOfMemory>
    ensures { IfOk result (λ text. text ≡ headings.heading view.now number events.now) }
{
    let told = First {
        label: ": told ",
        view,
        count: count_like(Sought::Told, events),
        event: first_like(Sought::Told, events),
    };
    let given = First {
        label: ", gives ",
        view,
        count: count_like(Sought::Given, events),
        event: first_like(Sought::Given, events),
    };
    Ok(Text::new(format!(in alloc; "Task {number}{told}{given}")?))
}
