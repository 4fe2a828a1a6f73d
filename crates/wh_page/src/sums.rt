//! Writes what the things of each type come to, as a table.

ghost use Rattle.std.specs.Prelude.{Some};
ghost use Rattle.wh_html.specs.Html.{bytes, each};
ghost use Rattle.wh_page.specs.Sums.{longest_html, counts_html, sum_html, filled_html, sums_html};

use crate::frame::NAME;
use crate::table::{Count, LengthCell};
use std::fmt;
use wh_html::{Escaped, Longest, SumOfType, first_items};

/// The most types that the table has.
const TYPES: usize = 100;

/// A cell with the longest time and a link to the event that opened what took so long, or an empty
/// one.
#[derive(Drop)]
struct LongestCell<'a>(&'a Option<Longest>);

impl fmt::Display for LongestCell<'_> {
    ghost output = { λ c. Some (bytes (longest_html c.0.now)) };

    fn fmt<W: fmt::Write>(&self, f: &mut fmt::Formatter<W>) -> fmt::Result {
        match self.0 {
            Some(longest) => {
                let words = Escaped {
                    text: &longest.words,
                    most: 100,
                };
                let event = longest.event;
                write!(
                    f,
                    "<td class=\"time\">{words} <a class=\"event\" href=\"#event-{event}\">event {event}</a></td>"
                )
            }
            None => write!(f, "<td></td>"),
        }
    }
}

/// The cells with how many things of a type there are, failed and are open.
#[derive(Clone, Copy)]
struct CountCells {
    times: usize,
    failed: usize,
    pending: usize,
}

impl fmt::Display for CountCells {
    ghost output = { λ c. Some (bytes (counts_html c.times c.failed c.pending)) };

    fn fmt<W: fmt::Write>(&self, f: &mut fmt::Formatter<W>) -> fmt::Result {
        let times = self.times;
        let failed = self.failed;
        let pending = self.pending;
        write!(f, "<td>{times}</td><td>{failed}</td><td>{pending}</td>")
    }
}

/// The row of a type.
#[derive(Drop)]
struct SumRow<'a>(&'a SumOfType);

impl fmt::Display for SumRow<'_> {
    ghost output = { λ r. Some (bytes (sum_html r.0.now)) };

    #[tactic(auto, unfolding(crate::specs::Sums::sum_html))]
    fn fmt<W: fmt::Write>(&self, f: &mut fmt::Formatter<W>) -> fmt::Result {
        let name = Escaped {
            text: &self.0.name,
            most: NAME,
        };
        let counts = CountCells {
            times: self.0.times,
            failed: self.0.failed,
            pending: self.0.pending,
        };
        let median = LengthCell(&self.0.median);
        let longest = LongestCell(&self.0.longest);
        write!(
            f,
            "<tr><th scope=\"row\">{name}</th>{counts}{median}{longest}</tr>\n"
        )
    }
}

/// The rows of types.
#[derive(Drop)]
struct SumRows<'a>(&'a [SumOfType]);

impl fmt::Display for SumRows<'_> {
    ghost output = { λ r. Some (bytes (each sum_html r.0.now)) };

    fn fmt<W: fmt::Write>(&self, f: &mut fmt::Formatter<W>) -> fmt::Result {
        for sum in self.0 {
            let row = SumRow(sum);
            write!(f, "{row}")?;
        }
        Ok(())
    }
}

/// The table of the first types, out of all.
#[derive(Drop)]
struct FilledSums<'a>(&'a [SumOfType]);

impl fmt::Display for FilledSums<'_> {
    ghost output = { λ t. Some (bytes (filled_html t.0.now)) };

    #[tactic(auto, unfolding(crate::specs::Sums::filled_html))]
    fn fmt<W: fmt::Write>(&self, f: &mut fmt::Formatter<W>) -> fmt::Result {
        let shown = first_items(self.0, TYPES);
        let count = Count {
            shown: shown.len(),
            total: self.0.len(),
        };
        let rows = SumRows(shown);
        write!(
            f,
            "<section class=\"sums\">\n<h2 id=\"sums\">By type</h2>\n{count}<div class=\"scroll\" tabindex=\"0\" role=\"region\" aria-labelledby=\"sums\">\n<table>\n<thead><tr><th scope=\"col\">Type</th><th scope=\"col\">Times</th><th scope=\"col\">Failed</th><th scope=\"col\">Open</th><th scope=\"col\">Median</th><th scope=\"col\">Longest</th></tr></thead>\n<tbody>\n{rows}</tbody>\n</table>\n</div>\n</section>\n"
        )
    }
}

/// The table of what the things of each type come to, if there are some.
#[derive(Drop)]
pub(crate) struct SumTable<'a>(pub(crate) &'a [SumOfType]);

impl fmt::Display for SumTable<'_> {
    ghost output = { λ t. Some (bytes (sums_html t.0.now)) };

    fn fmt<W: fmt::Write>(&self, f: &mut fmt::Formatter<W>) -> fmt::Result {
        if self.0.is_empty() {
            return Ok(());
        }
        let table = FilledSums(self.0);
        write!(f, "{table}")
    }
}
