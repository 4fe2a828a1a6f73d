//! Writes the picture: time from left to right, and each thing in its row.

ghost use Rattle.std.specs.Prelude.{◌≡◌, Some};
ghost use Rattle.wh_html.specs.Html.{bytes, each};
ghost use Rattle.wh_html.specs.Pictures.{undrawn_html, opening_html, gap_word_html, mark_at_html, before_html, stop_html, first_time, tick_html, fault_html, picture_html};

use crate::axis::{Gap, Stop, place_of};
use crate::escaping::Escaped;
use crate::lanes::{LaneRows, hit_class, top_of};
use crate::page::{Lane, Moment, Task};
use crate::times::{SpanText, Stamp};
use std::fmt;

/// The least room for the words of a gap, in units of the picture.
const GAP_WORD: u64 = 48;

/// How many of the things are drawn, if not all are.
#[derive(Clone, Copy)]
struct Undrawn {
    lanes: usize,
    total: usize,
}

impl fmt::Display for Undrawn {
    ghost output = { λ u. Some (bytes (undrawn_html u.lanes u.total)) };

    fn fmt<W: fmt::Write>(&self, f: &mut fmt::Formatter<W>) -> fmt::Result {
        let lanes = self.lanes;
        let total = self.total;
        if lanes == total {
            return Ok(());
        }
        write!(
            f,
            "<p class=\"soft\">{lanes} of {total} things are drawn: first those of the fault, then those that failed, then those that are open, and of the others the slowest.</p>\n"
        )
    }
}

/// The beginning of a picture.
#[derive(Clone, Copy)]
struct PictureStart {
    lanes: usize,
    rows: usize,
    total: usize,
}

impl fmt::Display for PictureStart {
    ghost output = { λ o. Some (bytes (opening_html o.lanes o.rows o.total)) };

    fn fmt<W: fmt::Write>(&self, f: &mut fmt::Formatter<W>) -> fmt::Result {
        let lanes = self.lanes;
        let undrawn = Undrawn {
            lanes,
            total: self.total,
        };
        let rows = self.rows;
        let height = top_of(rows) + 10;
        write!(
            f,
            "<section>\n<h2 id=\"picture\">Timeline</h2>\n{undrawn}<div class=\"scroll picture\" tabindex=\"0\" role=\"region\" aria-labelledby=\"picture\">\n<svg viewBox=\"0 0 1000 {height}\" role=\"img\" aria-labelledby=\"picture\" aria-describedby=\"picture-words\">\n<desc id=\"picture-words\">{lanes} things in {rows} rows, from opening to end. The table below has the same times.</desc>\n<defs><pattern id=\"gap\" width=\"6\" height=\"6\" patternUnits=\"userSpaceOnUse\" patternTransform=\"rotate(45)\"><line class=\"hatch\" y2=\"6\"/></pattern></defs>\n"
        )
    }
}

/// The words of a gap, if there is room for them.
#[derive(Clone, Copy)]
struct GapWord {
    from: u64,
    to: u64,
    millis: u64,
}

impl fmt::Display for GapWord {
    ghost output = { λ g. Some (bytes (gap_word_html g.from g.to g.millis)) };

    fn fmt<W: fmt::Write>(&self, f: &mut fmt::Formatter<W>) -> fmt::Result {
        if GAP_WORD <= self.to.saturating_sub(self.from) {
            let x = self.from / 2 + self.to / 2;
            let span = SpanText(self.millis);
            write!(f, "<text class=\"scale\" x=\"{x}\" y=\"34\">{span}</text>")
        } else {
            Ok(())
        }
    }
}

/// The gap before a stop, if it has one.
#[derive(Clone, Copy)]
struct Before {
    bottom: u64,
    to: u64,
    gap: Option<Gap>,
}

impl fmt::Display for Before {
    ghost output = { λ b. Some (bytes (before_html b.bottom b.to b.gap)) };

    fn fmt<W: fmt::Write>(&self, f: &mut fmt::Formatter<W>) -> fmt::Result {
        match self.gap {
            Some(gap) => {
                let span = SpanText(gap.millis);
                let from = gap.from;
                let width = self.to.saturating_sub(from);
                let height = self.bottom.saturating_sub(20);
                let word = GapWord {
                    from,
                    to: self.to,
                    millis: gap.millis,
                };
                write!(
                    f,
                    "<g><title>{span}, drawn shorter</title><rect class=\"gap\" x=\"{from}\" y=\"20\" width=\"{width}\" height=\"{height}\"/>{word}</g>\n"
                )
            }
            None => Ok(()),
        }
    }
}

/// A mark of the scale, with the time since the first stop; nothing if the stop has no mark.
#[derive(Drop)]
struct ScaleMark<'a> {
    bottom: u64,
    first: u64,
    stop: &'a Stop,
}

impl fmt::Display for ScaleMark<'_> {
    ghost output = { λ m. Some (bytes (mark_at_html m.bottom m.first m.stop.now)) };

    fn fmt<W: fmt::Write>(&self, f: &mut fmt::Formatter<W>) -> fmt::Result {
        if self.stop.marked {
            let x = self.stop.x;
            let bottom = self.bottom;
            let span = SpanText(self.stop.millis.saturating_sub(self.first));
            write!(
                f,
                "<text class=\"scale\" x=\"{x}\" y=\"14\">+{span}</text><line class=\"grid\" x1=\"{x}\" x2=\"{x}\" y1=\"20\" y2=\"{bottom}\"/>\n"
            )
        } else {
            Ok(())
        }
    }
}

/// The gaps and the marks of the scale at stops.
#[derive(Drop)]
struct ScaleMarks<'a> {
    bottom: u64,
    first: u64,
    stops: &'a [Stop],
}

impl fmt::Display for ScaleMarks<'_> {
    ghost output = { λ s. Some (bytes (each (stop_html s.bottom s.first) s.stops.now)) };

    fn fmt<W: fmt::Write>(&self, f: &mut fmt::Formatter<W>) -> fmt::Result {
        for stop in self.stops {
            let before = Before {
                bottom: self.bottom,
                to: stop.x,
                gap: stop.gap,
            };
            let mark = ScaleMark {
                bottom: self.bottom,
                first: self.first,
                stop,
            };
            write!(f, "{before}{mark}")?;
        }
        Ok(())
    }
}

/// Returns the first of the times; 0 if there is none.
fn first_time(stops: &[Stop]) -> u64
    ensures { result ≡ first_time stops.now }
{
    match stops.first() {
        Some(stop) => stop.millis,
        None => 0,
    }
}

/// The tick of a task.
#[derive(Drop)]
struct Tick<'a>(&'a [Stop], &'a Task);

impl fmt::Display for Tick<'_> {
    ghost output = { λ t. Some (bytes (tick_html t.0.now t.1.now)) };

    fn fmt<W: fmt::Write>(&self, f: &mut fmt::Formatter<W>) -> fmt::Result {
        let x = place_of(self.0, self.1.started.millis).saturating_sub(1);
        let hit = hit_class(self.1.faulty);
        let heading = Escaped {
            text: &self.1.heading,
            most: 100,
        };
        let event = self.1.started.event;
        let time = Stamp(self.1.started.millis);
        write!(
            f,
            "<rect class=\"tick{hit}\" x=\"{x}\" y=\"47\" width=\"3\" height=\"14\" rx=\"1\"><title>{heading}, event {event}, {time}</title></rect>\n"
        )
    }
}

/// The ticks of tasks.
#[derive(Drop)]
struct Ticks<'a>(&'a [Stop], &'a [Task]);

impl fmt::Display for Ticks<'_> {
    ghost output = { λ t. Some (bytes (each (tick_html t.0.now) t.1.now)) };

    fn fmt<W: fmt::Write>(&self, f: &mut fmt::Formatter<W>) -> fmt::Result {
        for task in self.1 {
            let tick = Tick(self.0, task);
            write!(f, "{tick}")?;
        }
        Ok(())
    }
}

/// The line of the fault, if there is one.
#[derive(Drop)]
struct FaultLine<'a> {
    stops: &'a [Stop],
    bottom: u64,
    fault: Option<Moment>,
}

impl fmt::Display for FaultLine<'_> {
    ghost output = { λ l. Some (bytes (fault_html l.stops.now l.bottom l.fault)) };

    fn fmt<W: fmt::Write>(&self, f: &mut fmt::Formatter<W>) -> fmt::Result {
        match self.fault {
            Some(fault) => {
                let x = place_of(self.stops, fault.millis);
                let event = fault.event;
                let bottom = self.bottom;
                write!(
                    f,
                    "<g><title>event {event}</title><path class=\"fault\" d=\"M{x} 40V{bottom}\"/><text class=\"fault-word\" x=\"{x}\" y=\"36\">event {event}</text></g>\n"
                )
            }
            None => Ok(()),
        }
    }
}

/// The end of the picture, with the key to its signs.
const CLOSING: &str =
    "</svg>\n</div>\n<p class=\"soft key\"><span class=\"activity\">activity</span><span class=\"timer\">timer</span><span class=\"child\">child</span><span class=\"signal\">signal</span><span class=\"request\">request</span><span class=\"marker\">marker</span><span class=\"none\">pale: not started yet, still open, or canceled</span><span class=\"none\">red edge: failed</span><span class=\"none\">upright stroke: its cancellation was requested</span><span class=\"none\">Many things of a type share a row; 8 of 412: of 412 in all, 8 are drawn.</span><span class=\"none\">Time runs to the right, with some room for each step; hatched: longer than it is drawn.</span></p>\n</section>\n";

/// The picture of things and tasks.
#[derive(Drop)]
pub struct Picture<'a> {
    /// The event of the fault, if there is one.
    pub fault: Option<Moment>,
    /// The stops of the axis.
    pub stops: &'a [Stop],
    /// The things that are drawn.
    pub lanes: &'a [Lane],
    /// How many rows they have.
    pub rows: usize,
    /// How many things there are in all.
    pub total: usize,
    /// The tasks that have a tick.
    pub tasks: &'a [Task],
}

impl fmt::Display for Picture<'_> {
    ghost output = { λ p. Some (bytes (picture_html p.fault p.stops.now p.lanes.now p.rows p.total p.tasks.now)) };

    #[tactic(auto, unfolding(crate::specs::Pictures::picture_html))]
    fn fmt<W: fmt::Write>(&self, f: &mut fmt::Formatter<W>) -> fmt::Result {
        let bottom = top_of(self.rows);
        let opening = PictureStart {
            lanes: self.lanes.len(),
            rows: self.rows,
            total: self.total,
        };
        let scale = ScaleMarks {
            bottom,
            first: first_time(self.stops),
            stops: self.stops,
        };
        let ticks = Ticks(self.stops, self.tasks);
        let lanes = LaneRows {
            fault: self.fault,
            stops: self.stops,
            lanes: self.lanes,
        };
        let fault = FaultLine {
            stops: self.stops,
            bottom,
            fault: self.fault,
        };
        write!(
            f,
            "{opening}{scale}<text x=\"12\" y=\"58\">workflow tasks</text>\n{ticks}{lanes}{fault}{CLOSING}"
        )
    }
}
