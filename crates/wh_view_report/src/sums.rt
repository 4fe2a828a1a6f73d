//! What the activities, timers and child workflows of each type come to, a line for each type.

ghost use Rattle.std.specs.Prelude.{◌≡◌, OnOk, Some};
ghost use Rattle.std.specs.List.{flat_map};
ghost use Rattle.std.specs.Io.KnownBytes.{Appends};
ghost use Rattle.wh_view_report.specs.Sums as sums;

use crate::cut::LabelText;
use crate::waits::kind_text;
use crate::words::Reference;
use std::io::Write;
use std::{fmt, io};
use wh_html::SpanText;
use wh_view::{Lengths, TypeSum, View, ViewedEvent};

/// So many of the things, before a word; nothing if there are none.
#[derive(Clone, Copy)]
struct Count(usize, &'static str);

impl fmt::Display for Count {
    ghost output = { λ c. Some (sums.count_text c.0 c.1.now) };

    fn fmt<W: fmt::Write>(&self, f: &mut fmt::Formatter<W>) -> fmt::Result {
        let count = self.0;
        if count == 0 {
            return Ok(());
        }
        let word = self.1;
        write!(f, ", {count} {word}")
    }
}

/// The median and the longest of the times of a type; nothing if no time is known.
#[derive(Drop)]
struct LengthsText<'a>(&'a View, Option<Lengths>);

impl fmt::Display for LengthsText<'_> {
    ghost output = { λ l. Some (sums.lengths_text l.0.now l.1) };

    fn fmt<W: fmt::Write>(&self, f: &mut fmt::Formatter<W>) -> fmt::Result {
        match self.1 {
            Some(lengths) => {
                let median = SpanText(lengths.median);
                let longest = SpanText(lengths.slowest.millis);
                let slowest = Reference(" ", self.0, Some(lengths.slowest.opened));
                write!(f, ", median {median}, longest {longest}{slowest}")
            }
            None => Ok(()),
        }
    }
}

/// Returns the kind of the thing of an event, in a word or two; empty if it has none.
fn kind_at(view: &View, event: &ViewedEvent) -> &'static str
    ensures { result.now ≡ sums.kind_at view.now event.now }
{
    match view.thing_of(event) {
        Some(thing) => kind_text(thing.kind),
        None => "",
    }
}

/// Writes the line of a type, the first thing of which an event opened.
#[tactic(auto, unfolding(crate::specs::Sums::sum_line))]
fn write_sum_of<O: Write>(
    view: &View,
    sum: &TypeSum,
    event: &ViewedEvent,
    writer: &mut O,
) -> io::Result<()>
    ensures { OnOk result
        (Appends (O.contents writer.old) (O.contents writer.new) (sums.sum_line view.now sum.now event.now)) }
{
    let kind = kind_at(view, event);
    let name = LabelText(" ", event.type_name());
    let times = sum.times;
    let failed = Count(sum.failed, "failed");
    let open = Count(sum.still_open, "open");
    let lengths = LengthsText(view, sum.lengths);
    write!(
        writer,
        "{kind}{name}: {times} times{failed}{open}{lengths}\n"
    )
}

/// Writes the line of a type.
fn write_sum<O: Write>(view: &View, sum: &TypeSum, writer: &mut O) -> io::Result<()>
    ensures { OnOk result
        (Appends (O.contents writer.old) (O.contents writer.new) (sums.sum_text view.now sum.now)) }
{
    match view.events.get().get(sum.first) {
        Some(event) => write_sum_of(view, sum, event, writer),
        None => Ok(()),
    }
}

/// Writes a line for each type of activities and child workflows, and one for the timers.
pub(crate) fn write_sums<O: Write>(view: &View, writer: &mut O) -> io::Result<()>
    ensures { OnOk result (Appends (O.contents writer.old) (O.contents writer.new)
        (flat_map (sums.sum_text view.now) view.now.sums)) }
{
    for sum in view.sums.get() {
        write_sum(view, sum, writer)?;
    }
    Ok(())
}
