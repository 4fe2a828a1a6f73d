//! What the activities, timers and child workflows of each type come to, an object of JSON for each
//! type.

ghost use Rattle.std.specs.Prelude.{◌≡◌, OnOk, Some};
ghost use Rattle.std.specs.List.{flat_map};
ghost use Rattle.std.specs.Io.KnownBytes.{Appends};
ghost use Rattle.wh_view_json.specs.Sums as json;

use crate::parts::{PlaceMember, kind_word, place_at};
use crate::texts::{SecondsMember, TextMember};
use std::io::Write;
use std::{fmt, io};
use wh_view::{Lengths, TypeSum, View, ViewedEvent};

/// The median and the longest of the times of a type, as further members of an object; nothing if
/// no time is known.
#[derive(Drop)]
struct LengthMembers<'a>(&'a View, Option<Lengths>);

impl fmt::Display for LengthMembers<'_> {
    ghost output = { λ l. Some (json.length_members l.0.now l.1) };

    fn fmt<W: fmt::Write>(&self, f: &mut fmt::Formatter<W>) -> fmt::Result {
        match self.1 {
            Some(lengths) => {
                let median = SecondsMember("median", Some(lengths.median));
                let longest = SecondsMember("longest", Some(lengths.slowest.millis));
                let place = place_at(self.0, Some(lengths.slowest.opened));
                let slowest = PlaceMember("longestOpened", place);
                write!(f, "{median}{longest}{slowest}")
            }
            None => Ok(()),
        }
    }
}

/// Returns the kind of the thing of an event, in Temporal's words; empty if it has none.
fn kind_at(view: &View, event: &ViewedEvent) -> &'static str
    ensures { result.now ≡ json.kind_at view.now event.now }
{
    match view.thing_of(event) {
        Some(thing) => kind_word(thing.kind),
        None => "",
    }
}

/// Writes the object of a type, the first thing of which an event opened.
#[tactic(auto, unfolding(crate::specs::Sums::sum_object))]
fn write_sum_of<O: Write>(
    view: &View,
    sum: &TypeSum,
    event: &ViewedEvent,
    writer: &mut O,
) -> io::Result<()>
    ensures { OnOk result
        (Appends (O.contents writer.old) (O.contents writer.new) (json.sum_object view.now sum.now event.now)) }
{
    let kind = kind_at(view, event);
    let name = TextMember("type", event.type_name());
    let times = sum.times;
    let failed = sum.failed;
    let open = sum.still_open;
    let lengths = LengthMembers(view, sum.lengths);
    write!(
        writer,
        "{{\"sum\":\"{kind}\"{name},\"times\":{times},\"failed\":{failed},\"open\":{open}{lengths}}}\n"
    )
}

/// Writes the object of a type.
fn write_sum<O: Write>(view: &View, sum: &TypeSum, writer: &mut O) -> io::Result<()>
    ensures { OnOk result
        (Appends (O.contents writer.old) (O.contents writer.new) (json.type_object view.now sum.now)) }
{
    match view.events.get().get(sum.first) {
        Some(event) => write_sum_of(view, sum, event, writer),
        None => Ok(()),
    }
}

/// Writes an object for each type of activities and child workflows, and one for the timers.
pub(crate) fn write_sums<O: Write>(view: &View, writer: &mut O) -> io::Result<()>
    ensures { OnOk result (Appends (O.contents writer.old) (O.contents writer.new)
        (flat_map (json.type_object view.now) view.now.sums)) }
{
    for sum in view.sums.get() {
        write_sum(view, sum, writer)?;
    }
    Ok(())
}
