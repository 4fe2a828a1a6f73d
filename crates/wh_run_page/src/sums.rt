//! What the things of each type come to, as a page says it.

ghost use Rattle.std.specs.Prelude.{◌≡◌, ◌++◌, Some, IfOk, OnOk};
ghost use Rattle.std.specs.List.{flat_map};
ghost use Rattle.wh_run_page.specs.Sums as sums;

use crate::lanes::lane_kind;
use crate::moments::{event_at, number_of};
use crate::words::{AfterLabel, known_span};
use std::alloc::Global;
use std::fmt;
use wh_events::{OutOfMemory, Text};
use wh_html::{Longest, SpanText, SumOfType};
use wh_view::{Lengths, TypeSum, View, ViewedEvent};

/// Returns the kind of the thing of an event, in a word; empty if it has none.
fn kind_at(view: &View, event: &ViewedEvent) -> &'static str
    ensures { result.now ≡ sums.kind_at view.now event.now }
{
    match view.thing_of(event) {
        Some(thing) => lane_kind(thing.kind).word(),
        None => "",
    }
}

/// The kind of the things of a type, and the type if they have one, by the event that opened the
/// first of them.
#[derive(Drop)]
struct SumName<'a>(&'a View, &'a ViewedEvent);

impl fmt::Display for SumName<'_> {
    ghost output = { λ n. Some (sums.sum_name n.0.now n.1.now) };

    fn fmt<W: fmt::Write>(&self, f: &mut fmt::Formatter<W>) -> fmt::Result {
        let kind = kind_at(self.0, self.1);
        let type_name = AfterLabel(" ", self.1.type_name());
        write!(f, "{kind}{type_name}")
    }
}

/// Returns the median of the times of a type, if one is known.
fn median_of(lengths: Option<Lengths>) -> Option<u64>
    ensures { result ≡ sums.median_of lengths }
{
    match lengths {
        Some(lengths) => Some(lengths.median),
        None => None,
    }
}

/// Returns the longest of the times of a type, with the event that opened what took so long.
fn longest_in(alloc: Global, view: &View, lengths: Lengths) -> Result<Option<Longest>, OutOfMemory>
    ensures { IfOk result (λ longest. longest ≡ sums.longest_in view.now lengths) }
{
    match event_at(view.events.get(), Some(lengths.slowest.opened)) {
        Some(event) => {
            let span = SpanText(lengths.slowest.millis);
            Ok(Some(Longest {
                words: Text::new(format!(in alloc; "{span}")?),
                event: number_of(event),
            }))
        }
        None => Ok(None),
    }
}

/// Returns the longest of the times of a type, if one is known.
fn longest_of(
    alloc: Global,
    view: &View,
    lengths: Option<Lengths>,
) -> Result<Option<Longest>, OutOfMemory>
    ensures { IfOk result (λ longest. longest ≡ sums.longest_of view.now lengths) }
{
    match lengths {
        Some(lengths) => longest_in(alloc, view, lengths),
        None => Ok(None),
    }
}

/// Returns what the things of a type come to, the first of which an event opened.
#[tactic(auto, unfolding(crate::specs::Sums::sum_of))]
fn sum_of(
    alloc: Global,
    view: &View,
    sum: &TypeSum,
    event: &ViewedEvent,
) -> Result<SumOfType, OutOfMemory>
    ensures { IfOk result (λ one. one ≡ sums.sum_of view.now sum.now event.now) }
{
    let name = SumName(view, event);
    let name = Text::new(format!(in alloc; "{name}")?);
    let median = known_span(alloc, median_of(sum.lengths))?;
    let longest = longest_of(alloc, view, sum.lengths)?;
    Ok(SumOfType {
        name,
        times: sum.times,
        failed: sum.failed,
        pending: sum.still_open,
        median,
        longest,
    })
}

/// Adds what the things of a type come to.
fn push_sum(
    alloc: Global,
    view: &View,
    sum: &TypeSum,
    all: &mut Vec<SumOfType>,
) -> Result<(), OutOfMemory>
    ensures { OnOk result (all.new.items ≡ all.old.items ++ sums.sum_at view.now sum.now) }
{
    if let Some(event) = event_at(view.events.get(), Some(sum.first)) {
        let one = sum_of(alloc, view, sum, event)?;
        all.push(one)?;
    }
    Ok(())
}

/// Returns what the activities, timers and child workflows of each type come to, in the order of
/// the first of each.
pub(crate) fn sums_of(alloc: Global, view: &View) -> Result<Vec<SumOfType>, OutOfMemory>
    ensures { IfOk result (λ all. all.items ≡ sums.sums_of view.now) }
{
    let mut all = Vec::new(alloc);
    for sum in view.sums.get() {
        push_sum(alloc, view, sum, &mut all)?;
    }
    Ok(all)
}
