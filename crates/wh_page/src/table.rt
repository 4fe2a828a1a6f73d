//! Writes the things of a run as a table.

ghost use Rattle.std.specs.Prelude.{◌≡◌, Some};
ghost use Rattle.wh_html.specs.Html.{bytes, each};
ghost use Rattle.wh_page.specs.Tables.{count_html, moment_html, length_html, label_html, attempts_html, row_head_html, row_html, table_html};

use crate::frame::{NAME, WORDS};
use std::fmt;
use wh_events::Text;
use wh_html::{Classes, Escaped, Lane, Moment, Stamp};

/// How many of all things are shown, and how many are left out.
#[derive(Clone, Copy)]
pub(crate) struct Count {
    pub(crate) shown: usize,
    pub(crate) total: usize,
}

impl fmt::Display for Count {
    ghost output = { λ c. Some (bytes (count_html c.shown c.total)) };

    fn fmt<W: fmt::Write>(&self, f: &mut fmt::Formatter<W>) -> fmt::Result {
        let shown = self.shown;
        let total = self.total;
        if shown == total {
            write!(f, "<p class=\"soft\">{total} in all.</p>\n")
        } else {
            let left = total.saturating_sub(shown);
            write!(
                f,
                "<p class=\"soft\">{shown} of {total} are shown; {left} are left out.</p>\n"
            )
        }
    }
}

/// A cell with a time and its event, or an empty one.
#[derive(Clone, Copy)]
struct MomentCell(Option<Moment>);

impl fmt::Display for MomentCell {
    ghost output = { λ c. Some (bytes (moment_html c.0)) };

    fn fmt<W: fmt::Write>(&self, f: &mut fmt::Formatter<W>) -> fmt::Result {
        match self.0 {
            Some(moment) => {
                let time = Stamp(moment.millis);
                let event = moment.event;
                write!(
                    f,
                    "<td class=\"time\">{time} <span class=\"event\">event {event}</span></td>"
                )
            }
            None => write!(f, "<td></td>"),
        }
    }
}

/// A cell with a length of time, or an empty one.
#[derive(Drop)]
pub(crate) struct LengthCell<'a>(pub(crate) &'a Option<Text>);

impl fmt::Display for LengthCell<'_> {
    ghost output = { λ c. Some (bytes (length_html c.0.now)) };

    fn fmt<W: fmt::Write>(&self, f: &mut fmt::Formatter<W>) -> fmt::Result {
        match self.0 {
            Some(length) => {
                let length = Escaped {
                    text: length,
                    most: 100,
                };
                write!(f, "<td class=\"time\">{length}</td>")
            }
            None => write!(f, "<td></td>"),
        }
    }
}

/// The label of a thing: its type and below it its id, or else its id alone.
#[derive(Drop)]
struct Label<'a>(&'a Lane);

impl fmt::Display for Label<'_> {
    ghost output = { λ l. Some (bytes (label_html l.0.now.type_name l.0.now.name)) };

    fn fmt<W: fmt::Write>(&self, f: &mut fmt::Formatter<W>) -> fmt::Result {
        let name = Escaped {
            text: &self.0.name,
            most: NAME,
        };
        match &self.0.type_name {
            Some(type_name) => {
                let type_name = Escaped {
                    text: type_name,
                    most: NAME,
                };
                write!(f, "{type_name} <span class=\"event\">{name}</span>")
            }
            None => write!(f, "{name}"),
        }
    }
}

/// A cell with a number of attempts, or an empty one.
#[derive(Clone, Copy)]
struct AttemptsCell(Option<u64>);

impl fmt::Display for AttemptsCell {
    ghost output = { λ c. Some (bytes (attempts_html c.0)) };

    fn fmt<W: fmt::Write>(&self, f: &mut fmt::Formatter<W>) -> fmt::Result {
        match self.0 {
            Some(attempts) => write!(f, "<td>{attempts}</td>"),
            None => write!(f, "<td></td>"),
        }
    }
}

/// The head of the row of a thing.
#[derive(Drop)]
struct RowHead<'a>(Option<Moment>, &'a Lane);

impl fmt::Display for RowHead<'_> {
    ghost output = { λ r. Some (bytes (row_head_html r.0 r.1.now)) };

    fn fmt<W: fmt::Write>(&self, f: &mut fmt::Formatter<W>) -> fmt::Result {
        let classes = Classes(self.1, self.0);
        let label = Label(self.1);
        let kind = self.1.kind.word();
        write!(
            f,
            "<tr class=\"{classes}\"><th scope=\"row\">{label}</th><td class=\"kind\">{kind}</td>"
        )
    }
}

/// The row of a thing.
#[derive(Drop)]
struct ThingRow<'a>(Option<Moment>, &'a Lane);

impl fmt::Display for ThingRow<'_> {
    ghost output = { λ r. Some (bytes (row_html r.0 r.1.now)) };

    #[tactic(auto, unfolding(crate::specs::Tables::row_html))]
    fn fmt<W: fmt::Write>(&self, f: &mut fmt::Formatter<W>) -> fmt::Result {
        let lane = self.1;
        let head = RowHead(self.0, lane);
        let opened = MomentCell(Some(lane.opened));
        let started = MomentCell(lane.started);
        let ended = MomentCell(lane.ended);
        let waited = LengthCell(&lane.waited);
        let took = LengthCell(&lane.took);
        let words = Escaped {
            text: &lane.words,
            most: WORDS,
        };
        let attempts = AttemptsCell(lane.attempts);
        write!(
            f,
            "{head}{opened}{started}{ended}{waited}{took}<td class=\"words\">{words}</td>{attempts}</tr>\n"
        )
    }
}

/// The rows of things.
#[derive(Drop)]
struct ThingRows<'a>(Option<Moment>, &'a [Lane]);

impl fmt::Display for ThingRows<'_> {
    ghost output = { λ r. Some (bytes (each (row_html r.0) r.1.now)) };

    fn fmt<W: fmt::Write>(&self, f: &mut fmt::Formatter<W>) -> fmt::Result {
        for lane in self.1 {
            let row = ThingRow(self.0, lane);
            write!(f, "{row}")?;
        }
        Ok(())
    }
}

/// The table of the things that are shown, out of so many in all.
#[derive(Drop)]
pub(crate) struct ThingTable<'a> {
    pub(crate) fault: Option<Moment>,
    pub(crate) lanes: &'a [Lane],
    pub(crate) total: usize,
}

impl fmt::Display for ThingTable<'_> {
    ghost output = { λ t. Some (bytes (table_html t.fault t.lanes.now t.total)) };

    #[tactic(auto, unfolding(crate::specs::Tables::table_html))]
    fn fmt<W: fmt::Write>(&self, f: &mut fmt::Formatter<W>) -> fmt::Result {
        let count = Count {
            shown: self.lanes.len(),
            total: self.total,
        };
        let rows = ThingRows(self.fault, self.lanes);
        write!(
            f,
            "<section>\n<h2 id=\"things\">What was opened</h2>\n{count}<div class=\"scroll\" tabindex=\"0\" role=\"region\" aria-labelledby=\"things\">\n<table>\n<thead><tr><th scope=\"col\">Name</th><th scope=\"col\">Kind</th><th scope=\"col\">Opened</th><th scope=\"col\">Started</th><th scope=\"col\">Ended</th><th scope=\"col\">Waited</th><th scope=\"col\">Took</th><th scope=\"col\">Outcome</th><th scope=\"col\">Attempts</th></tr></thead>\n<tbody>\n{rows}</tbody>\n</table>\n</div>\n</section>\n"
        )
    }
}
