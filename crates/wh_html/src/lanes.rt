//! Writes the things of the picture.

ghost use Rattle.std.specs.Prelude.{◌≡◌, Some};
ghost use Rattle.wh_html.specs.Html.{bytes, each};
ghost use Rattle.wh_html.specs.Axes.{place_of};
ghost use Rattle.wh_html.specs.Lanes.{hit_class, is_at, is_hit, event_html, span_html, spans_html, thing_html, title_html, bar_html, end_of, bars_html, dot_html, is_at_once, sign_html, cancel_html, classes_html};
ghost use Rattle.wh_html.specs.Lanes.{type_room, id_room, label_html, shared_label_html, said_html, count_html, times_html, counts_html, room_class, ground_html, part_html, top_of, lane_html};

use crate::axis::{RIGHT, Stop, place_of};
use crate::escaping::{Escaped, char_count};
use crate::page::{Kind, Lane, Moment, RowPart};
use crate::times::Stamp;
use std::fmt;
use wh_events::Text;

/// Where the first row begins, in units of the picture from the top.
const TOP: u64 = 70;

/// The height of a row, in units of the picture.
const HEIGHT: u64 = 22;

/// Returns where a row begins, in units of the picture from the top.
pub(crate) fn top_of(row: usize) -> u64
    ensures { result ≡ top_of row }
{
    TOP + HEIGHT * (row.min(300) as u64)
}

/// Returns whether the event is that of the moment.
fn is_at(event: u64, moment: Option<Moment>) -> bool
    ensures { result ≡ is_at event moment }
{
    match moment {
        Some(moment) => moment.event == event,
        None => false,
    }
}

/// Returns whether the event of the fault opened, started or ended the thing.
fn is_hit(lane: &Lane, fault: Option<Moment>) -> bool
    ensures { result ≡ is_hit lane.now fault }
{
    match fault {
        Some(fault) => {
            let opened = lane.opened.event == fault.event;
            let started = is_at(fault.event, lane.started);
            let ended = is_at(fault.event, lane.ended);
            opened || started || ended
        }
        None => false,
    }
}

/// Returns the class of the style sheet that marks what has the fault.
pub(crate) fn hit_class(hit: bool) -> &'static str
    ensures { result.now ≡ hit_class hit }
{
    if hit { " hit" } else { "" }
}

/// An event and its time, after the words for what happened.
#[derive(Clone, Copy)]
struct EventWords(&'static str, Option<Moment>);

impl fmt::Display for EventWords {
    ghost output = { λ e. Some (bytes (event_html e.0.now e.1)) };

    fn fmt<W: fmt::Write>(&self, f: &mut fmt::Formatter<W>) -> fmt::Result {
        match self.1 {
            Some(moment) => {
                let words = self.0;
                let event = moment.event;
                let time = Stamp(moment.millis);
                write!(f, "{words} by event {event}, {time}")
            }
            None => Ok(()),
        }
    }
}

/// How long something took, after the words for it, if that is known.
#[derive(Drop)]
struct SpanWords<'a>(&'static str, &'a Option<Text>);

impl fmt::Display for SpanWords<'_> {
    ghost output = { λ s. Some (bytes (span_html s.0.now s.1.now)) };

    fn fmt<W: fmt::Write>(&self, f: &mut fmt::Formatter<W>) -> fmt::Result {
        match self.1 {
            Some(span) => {
                let words = self.0;
                let span = Escaped {
                    text: span,
                    most: 100,
                };
                write!(f, "{words}{span}")
            }
            None => Ok(()),
        }
    }
}

/// How long a thing waited for its start, and how long it took.
#[derive(Drop)]
struct ThingSpans<'a>(&'a Lane);

impl fmt::Display for ThingSpans<'_> {
    ghost output = { λ s. Some (bytes (spans_html s.0.now.waited s.0.now.took)) };

    fn fmt<W: fmt::Write>(&self, f: &mut fmt::Formatter<W>) -> fmt::Result {
        let waited = SpanWords(", waited ", &self.0.waited);
        let took = SpanWords(", took ", &self.0.took);
        write!(f, "{waited}{took}")
    }
}

/// The type of a thing, if it has one, and its id.
#[derive(Drop)]
struct ThingName<'a>(&'a Lane);

impl fmt::Display for ThingName<'_> {
    ghost output = { λ n. Some (bytes (thing_html n.0.now.type_name n.0.now.name)) };

    fn fmt<W: fmt::Write>(&self, f: &mut fmt::Formatter<W>) -> fmt::Result {
        let id = Escaped {
            text: &self.0.name,
            most: 100,
        };
        match &self.0.type_name {
            Some(type_name) => {
                let type_name = Escaped {
                    text: type_name,
                    most: 100,
                };
                write!(f, "{type_name} {id}")
            }
            None => write!(f, "{id}"),
        }
    }
}

/// The title of a thing: its kind, its type, its id and its events.
#[derive(Drop)]
struct Title<'a>(&'a Lane);

impl fmt::Display for Title<'_> {
    ghost output = { λ t. Some (bytes (title_html t.0.now)) };

    #[tactic(auto, unfolding(crate::specs::Lanes::title_html))]
    fn fmt<W: fmt::Write>(&self, f: &mut fmt::Formatter<W>) -> fmt::Result {
        let lane = self.0;
        let kind = lane.kind.word();
        let name = ThingName(lane);
        let opened = EventWords("opened", Some(lane.opened));
        let started = EventWords("; started", lane.started);
        let ended = EventWords("; ended", lane.ended);
        let spans = ThingSpans(lane);
        let words = Escaped {
            text: &lane.words,
            most: 100,
        };
        write!(
            f,
            "<title>{kind} {name}: {opened}{started}{ended}{spans}: {words}</title>"
        )
    }
}

/// A bar of a class from one place to another, at least three units wide.
#[derive(Clone, Copy)]
struct Bar {
    class: &'static str,
    from: u64,
    to: u64,
}

impl fmt::Display for Bar {
    ghost output = { λ b. Some (bytes (bar_html b.class.now b.from b.to)) };

    fn fmt<W: fmt::Write>(&self, f: &mut fmt::Formatter<W>) -> fmt::Result {
        let class = self.class;
        let from = self.from;
        let width = self.to.saturating_sub(from).max(3);
        write!(
            f,
            "<rect class=\"{class}\" x=\"{from}\" y=\"4\" width=\"{width}\" height=\"14\" rx=\"3\"/>"
        )
    }
}

/// Returns where the bar of a thing ends: at the right end while it is open.
fn end_of(stops: &[Stop], ended: Option<Moment>) -> u64
    ensures { result ≡ end_of stops.now ended }
{
    match ended {
        Some(ended) => place_of(stops, ended.millis),
        None => RIGHT,
    }
}

/// The bar of a thing from its opening to its end, with the part before its start pale.
#[derive(Drop)]
struct Bars<'a>(&'a [Stop], &'a Lane);

impl fmt::Display for Bars<'_> {
    ghost output = { λ b. Some (bytes (bars_html b.0.now b.1.now.opened b.1.now.started b.1.now.ended)) };

    fn fmt<W: fmt::Write>(&self, f: &mut fmt::Formatter<W>) -> fmt::Result {
        let opened = place_of(self.0, self.1.opened.millis);
        let ended = end_of(self.0, self.1.ended);
        match self.1.started {
            Some(started) => {
                let started = place_of(self.0, started.millis);
                let wait = Bar {
                    class: "wait",
                    from: opened,
                    to: started,
                };
                let bar = Bar {
                    class: "bar",
                    from: started,
                    to: ended,
                };
                write!(f, "{wait}{bar}")
            }
            None => {
                let bar = Bar {
                    class: "bar",
                    from: opened,
                    to: ended,
                };
                write!(f, "{bar}")
            }
        }
    }
}

/// Returns whether things of the kind happen at once.
fn is_at_once(kind: Kind) -> bool
    ensures { result ≡ is_at_once kind }
{
    matches!(kind, Kind::Signal | Kind::Marker)
}

/// The sign of a thing: a dot if it happens at once, or else its bar.
#[derive(Drop)]
struct Sign<'a>(&'a [Stop], &'a Lane);

impl fmt::Display for Sign<'_> {
    ghost output = { λ s. Some (bytes (sign_html s.0.now s.1.now)) };

    fn fmt<W: fmt::Write>(&self, f: &mut fmt::Formatter<W>) -> fmt::Result {
        if is_at_once(self.1.kind) {
            let x = place_of(self.0, self.1.opened.millis);
            write!(f, "<circle class=\"bar\" cx=\"{x}\" cy=\"11\" r=\"5\"/>")
        } else {
            let bars = Bars(self.0, self.1);
            write!(f, "{bars}")
        }
    }
}

/// A stroke where the cancellation of a thing was requested, if it was.
#[derive(Drop)]
struct CancelMark<'a>(&'a [Stop], Option<Moment>);

impl fmt::Display for CancelMark<'_> {
    ghost output = { λ m. Some (bytes (cancel_html m.0.now m.1)) };

    fn fmt<W: fmt::Write>(&self, f: &mut fmt::Formatter<W>) -> fmt::Result {
        match self.1 {
            Some(moment) => {
                let x = place_of(self.0, moment.millis);
                write!(
                    f,
                    "<rect class=\"cancel\" x=\"{x}\" y=\"1\" width=\"3\" height=\"20\"/>"
                )
            }
            None => Ok(()),
        }
    }
}

/// The classes of a thing in the style sheet: its kind, its outcome, and whether it has the fault.
#[derive(Drop)]
pub struct Classes<'a>(pub &'a Lane, pub Option<Moment>);

impl fmt::Display for Classes<'_> {
    ghost output = { λ c. Some (bytes (classes_html c.0.now c.1)) };

    fn fmt<W: fmt::Write>(&self, f: &mut fmt::Formatter<W>) -> fmt::Result {
        let kind = self.0.kind.word();
        let outcome = self.0.outcome.class();
        let hit = hit_class(is_hit(self.0, self.1));
        write!(f, "{kind} {outcome}{hit}")
    }
}

/// Returns how many characters of a type a label has beside an id of so many: 27 with those of the
/// id if these are 14 at most, else 20.
fn type_room(id: usize) -> usize
    ensures { result ≡ type_room id }
{
    if id <= 14 { 27 - id } else { 20 }
}

/// Returns how many characters of an id a label has beside those of a type.
fn id_room(name: usize, id: usize) -> usize
    ensures { result ≡ id_room name id }
{
    27_usize.saturating_sub(name.min(type_room(id)))
}

/// The label of a thing alone in its row: its type with its id, or else its id alone.
#[derive(Drop)]
struct Label<'a>(&'a Lane);

impl fmt::Display for Label<'_> {
    ghost output = { λ l. Some (bytes (label_html l.0.now.type_name l.0.now.name)) };

    fn fmt<W: fmt::Write>(&self, f: &mut fmt::Formatter<W>) -> fmt::Result {
        match &self.0.type_name {
            Some(type_name) => {
                let count = char_count(self.0.name.get());
                let room = id_room(char_count(type_name.get()), count);
                let type_name = Escaped {
                    text: type_name,
                    most: type_room(count),
                };
                let id = Escaped {
                    text: &self.0.name,
                    most: room,
                };
                write!(f, "{type_name} <tspan class=\"id\">{id}</tspan>")
            }
            None => {
                let name = Escaped {
                    text: &self.0.name,
                    most: 25,
                };
                write!(f, "{name}")
            }
        }
    }
}

/// The label of things that share a row: their type, or the name of what happens at once, or else
/// their kind.
#[derive(Drop)]
struct SharedLabel<'a>(&'a Lane);

impl fmt::Display for SharedLabel<'_> {
    ghost output = { λ l. Some (bytes (shared_label_html l.0.now.kind l.0.now.type_name l.0.now.name)) };

    fn fmt<W: fmt::Write>(&self, f: &mut fmt::Formatter<W>) -> fmt::Result {
        if let Some(type_name) = &self.0.type_name {
            let type_name = Escaped {
                text: type_name,
                most: 25,
            };
            return write!(f, "{type_name}");
        }
        if is_at_once(self.0.kind) {
            let name = Escaped {
                text: &self.0.name,
                most: 25,
            };
            return write!(f, "{name}");
        }
        let kind = self.0.kind.word();
        write!(f, "{kind}")
    }
}

/// The outcome of a thing in words, beside its bar.
#[derive(Drop)]
struct OutcomeWords<'a>(&'a Text);

impl fmt::Display for OutcomeWords<'_> {
    ghost output = { λ s. Some (bytes (said_html s.0.now)) };

    fn fmt<W: fmt::Write>(&self, f: &mut fmt::Formatter<W>) -> fmt::Result {
        let words = Escaped {
            text: self.0,
            most: 22,
        };
        write!(f, "<text class=\"said\" x=\"846\" y=\"15\">{words}</text>")
    }
}

/// How many things have an outcome, if some have it.
#[derive(Clone, Copy)]
struct OutcomeCount(&'static str, usize);

impl fmt::Display for OutcomeCount {
    ghost output = { λ c. Some (bytes (count_html c.0.now c.1)) };

    fn fmt<W: fmt::Write>(&self, f: &mut fmt::Formatter<W>) -> fmt::Result {
        if self.1 == 0 {
            return Ok(());
        }
        let count = self.1;
        let outcome = self.0;
        write!(f, ", {count} {outcome}")
    }
}

/// Of how many things a row tells, and how many of them are drawn, if not all are.
#[derive(Clone, Copy)]
struct RowTimes {
    things: usize,
    drawn: usize,
}

impl fmt::Display for RowTimes {
    ghost output = { λ t. Some (bytes (times_html t.things t.drawn)) };

    fn fmt<W: fmt::Write>(&self, f: &mut fmt::Formatter<W>) -> fmt::Result {
        let things = self.things;
        let drawn = self.drawn;
        if things == drawn {
            write!(f, "{things} times")
        } else {
            write!(f, "{drawn} of {things}")
        }
    }
}

/// Of how many things a row tells, beside the bars.
#[derive(Clone, Copy)]
struct RowCounts {
    things: usize,
    drawn: usize,
    failed: usize,
    pending: usize,
}

impl fmt::Display for RowCounts {
    ghost output = { λ c. Some (bytes (counts_html c.things c.drawn c.failed c.pending)) };

    fn fmt<W: fmt::Write>(&self, f: &mut fmt::Formatter<W>) -> fmt::Result {
        let times = RowTimes {
            things: self.things,
            drawn: self.drawn,
        };
        let failed = OutcomeCount("failed", self.failed);
        let pending = OutcomeCount("open", self.pending);
        write!(
            f,
            "<text class=\"said\" x=\"846\" y=\"15\">{times}{failed}{pending}</text>"
        )
    }
}

/// Returns the classes of the ground of a row.
fn room_class(row: usize) -> &'static str
    ensures { result.now ≡ room_class row }
{
    if row % 2 == 0 { "room" } else { "room odd" }
}

/// The ground of a row.
#[derive(Clone, Copy)]
struct Ground(usize);

impl fmt::Display for Ground {
    ghost output = { λ g. Some (bytes (ground_html g.0)) };

    fn fmt<W: fmt::Write>(&self, f: &mut fmt::Formatter<W>) -> fmt::Result {
        let class = room_class(self.0);
        write!(f, "<rect class=\"{class}\" width=\"1000\" height=\"22\"/>")
    }
}

/// What a thing says of its row: its own label and outcome, those of all that share the row, or
/// nothing if an earlier one says that.
#[derive(Drop)]
struct PartWords<'a>(&'a Lane);

impl fmt::Display for PartWords<'_> {
    ghost output = { λ p. Some (bytes (part_html p.0.now)) };

    #[tactic(auto, unfolding(crate::specs::Lanes::part_html))]
    fn fmt<W: fmt::Write>(&self, f: &mut fmt::Formatter<W>) -> fmt::Result {
        let ground = Ground(self.0.row);
        match self.0.part {
            RowPart::Alone => {
                let label = Label(self.0);
                let said = OutcomeWords(&self.0.words);
                write!(f, "{ground}<text x=\"12\" y=\"15\">{label}</text>{said}")
            }
            RowPart::First {
                things,
                drawn,
                failed,
                pending,
            } => {
                let label = SharedLabel(self.0);
                let counts = RowCounts {
                    things,
                    drawn,
                    failed,
                    pending,
                };
                write!(f, "{ground}<text x=\"12\" y=\"15\">{label}</text>{counts}")
            }
            RowPart::Later => Ok(()),
        }
    }
}

/// A thing in its row.
#[derive(Drop)]
struct LaneRow<'a> {
    fault: Option<Moment>,
    stops: &'a [Stop],
    lane: &'a Lane,
}

impl fmt::Display for LaneRow<'_> {
    ghost output = { λ r. Some (bytes (lane_html r.fault r.stops.now r.lane.now)) };

    #[tactic(auto, unfolding(crate::specs::Lanes::lane_html))]
    fn fmt<W: fmt::Write>(&self, f: &mut fmt::Formatter<W>) -> fmt::Result {
        let classes = Classes(self.lane, self.fault);
        let y = top_of(self.lane.row);
        let title = Title(self.lane);
        let part = PartWords(self.lane);
        let sign = Sign(self.stops, self.lane);
        let mark = CancelMark(self.stops, self.lane.cancelling);
        write!(
            f,
            "<g class=\"lane {classes}\" transform=\"translate(0 {y})\">{title}{part}{sign}{mark}</g>\n"
        )
    }
}

/// Things, each in its row.
#[derive(Drop)]
pub(crate) struct LaneRows<'a> {
    pub(crate) fault: Option<Moment>,
    pub(crate) stops: &'a [Stop],
    pub(crate) lanes: &'a [Lane],
}

impl fmt::Display for LaneRows<'_> {
    ghost output = { λ r. Some (bytes (each (lane_html r.fault r.stops.now) r.lanes.now)) };

    fn fmt<W: fmt::Write>(&self, f: &mut fmt::Formatter<W>) -> fmt::Result {
        for lane in self.lanes {
            let row = LaneRow {
                fault: self.fault,
                stops: self.stops,
                lane,
            };
            write!(f, "{row}")?;
        }
        Ok(())
    }
}
