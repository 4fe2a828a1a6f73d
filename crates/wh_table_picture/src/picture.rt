//! The picture: the rows of a table by their states, and where each leads to.
ghost use Rattle.std.specs.Prelude.{◌≡◌, Some};
ghost use Rattle.wh_html.specs.Html.{bytes, each};
ghost use Rattle.wh_table_picture.specs.Pictures.{top_of, lane_of, name_class, conditions_html, gives_html, marks_html, edge_html};
ghost use Rattle.wh_table_picture.specs.Pictures.{lanes, target_html, stub_html};
ghost use Rattle.wh_table_picture.specs.Pictures.{is_taken, row_class};
ghost use Rattle.wh_table_picture.specs.Pictures.{tip_html, arrow_html, way_to_html, way_html, state_html, job_html, commands_html};
ghost use Rattle.wh_table_picture.specs.Pictures.{mark_class, end_class, row_html, drawn_html, picture_html, marked_html};

use crate::layout::{PictureRow, RowWay, StateMark, has_row};
use crate::paths::RowPath;
use crate::style::{STYLE_OF_MARKS, STYLE_OF_ROWS};
use std::fmt;
use wh_events::Text;
use wh_html::Escaped;

/// Where a row begins, from above.
fn top_of(place: usize) -> u64
    ensures { result ≡ top_of place }
{
    10 + 46 * (place.min(400) as u64)
}

/// How many lanes there are.
const LANES: usize = 25;

/// How far to the right the lines of a lane go.
fn lane_of(lane: usize) -> u64
    ensures { result ≡ lane_of lane }
{
    710 + 11 * (lane.min(LANES) as u64)
}

/// How the name of a state stands that is marked so.
fn mark_class(mark: StateMark) -> &'static str
    ensures { result.now ≡ mark_class mark }
{
    match mark {
        StateMark::Unmarked => "name",
        StateMark::Passed => "name passed",
        StateMark::Last => "name last",
    }
}

/// How the name of a state stands at a row: at the first of the state as it is marked, and at a
/// later one.
fn name_class(begins: bool, mark: StateMark) -> &'static str
    ensures { result.now ≡ name_class begins mark }
{
    if begins {
        mark_class(mark)
    } else {
        "name again"
    }
}

/// How the box of the end stands, even if that is the last.
fn end_class(ended: bool) -> &'static str
    ensures { result.now ≡ end_class ended }
{
    if ended { "end last" } else { "end" }
}

/// Whether one of the paths takes the row of this number.
fn is_taken(paths: &[RowPath], number: usize) -> bool
    ensures { result ≡ is_taken paths.now number }
{
    for path in paths {
        if has_row(path.rows.get(), number) {
            return true;
        }
    }
    false
}

/// How a row stands that a path takes, or another one.
fn row_class(taken: bool) -> &'static str
    ensures { result.now ≡ row_class taken }
{
    if taken { "row taken" } else { "row" }
}

/// The conditions of a row, if it has some.
#[derive(Drop)]
struct Conditions<'a>(&'a Text);

impl fmt::Display for Conditions<'_> {
    ghost output = { λ own. Some (bytes (conditions_html own.0.now)) };

    fn fmt<W: fmt::Write>(&self, f: &mut fmt::Formatter<W>) -> fmt::Result {
        if self.0.get().is_empty() {
            return Ok(());
        }
        let words = Escaped {
            text: self.0,
            most: 30,
        };
        write!(f, "<tspan class=\"soft\" dx=\"8\">if {words}</tspan>")
    }
}

/// The commands of a row.
#[derive(Drop)]
struct Gives<'a>(&'a Text);

impl fmt::Display for Gives<'_> {
    ghost output = { λ own. Some (bytes (gives_html own.0.now)) };

    fn fmt<W: fmt::Write>(&self, f: &mut fmt::Formatter<W>) -> fmt::Result {
        if self.0.get().is_empty() {
            return write!(f, "<tspan class=\"soft\">nothing</tspan>");
        }
        let words = Escaped {
            text: self.0,
            most: 64,
        };
        write!(f, "{words}")
    }
}

/// The marks of a row, if it has some.
#[derive(Drop)]
struct RowMarks<'a>(&'a Text);

impl fmt::Display for RowMarks<'_> {
    ghost output = { λ own. Some (bytes (marks_html own.0.now)) };

    fn fmt<W: fmt::Write>(&self, f: &mut fmt::Formatter<W>) -> fmt::Result {
        if self.0.get().is_empty() {
            return Ok(());
        }
        let words = Escaped {
            text: self.0,
            most: 24,
        };
        write!(f, "<tspan class=\"soft\" dx=\"8\">{words}</tspan>")
    }
}

/// The upper edge of a state, at its first row.
#[derive(Clone, Copy)]
struct Edge {
    place: usize,
    begins: bool,
}

impl fmt::Display for Edge {
    ghost output = { λ own. Some (bytes (edge_html own.place own.begins)) };

    fn fmt<W: fmt::Write>(&self, f: &mut fmt::Formatter<W>) -> fmt::Result {
        if self.begins {
            let top = top_of(self.place);
            write!(
                f,
                "<line class=\"edge\" x1=\"10\" x2=\"690\" y1=\"{top}\" y2=\"{top}\"/>"
            )
        } else {
            Ok(())
        }
    }
}

/// The tip of a line.
#[derive(Clone, Copy)]
struct Tip(RowWay);

impl fmt::Display for Tip {
    ghost output = { λ own. Some (bytes (tip_html own.0)) };

    fn fmt<W: fmt::Write>(&self, f: &mut fmt::Formatter<W>) -> fmt::Result {
        let colour = self.0.lane % 5;
        let to = top_of(self.0.place) + 14;
        write!(
            f,
            "<path class=\"tip to{colour}\" d=\"M690 {to}l9 -5v10z\"/>"
        )
    }
}

/// A line from the place of a row, by the lane of its way, to the place where that leads.
#[derive(Clone, Copy)]
struct Arrow {
    place: usize,
    way: RowWay,
}

impl fmt::Display for Arrow {
    ghost output = { λ own. Some (bytes (arrow_html own.place own.way)) };

    fn fmt<W: fmt::Write>(&self, f: &mut fmt::Formatter<W>) -> fmt::Result {
        let colour = self.way.lane % 5;
        let from = top_of(self.place) + 34;
        let lane = lane_of(self.way.lane);
        let to = top_of(self.way.place) + 14;
        let tip = Tip(self.way);
        write!(
            f,
            "<path class=\"way to{colour}\" d=\"M690 {from}H{lane}V{to}H698\"/>{tip}"
        )
    }
}

/// The name of the state that a way leads to, or that it closes the run.
#[derive(Drop)]
struct Target<'a> {
    closes: bool,
    name: &'a Text,
}

impl fmt::Display for Target<'_> {
    ghost output = { λ own. Some (bytes (target_html own.closes own.name.now)) };

    fn fmt<W: fmt::Write>(&self, f: &mut fmt::Formatter<W>) -> fmt::Result {
        if self.closes {
            return write!(f, "closed");
        }
        let name = Escaped {
            text: self.name,
            most: 30,
        };
        write!(f, "{name}")
    }
}

/// A line from the place of a row that ends with the name of the state to which its way leads.
#[derive(Drop)]
struct Stub<'a> {
    place: usize,
    way: RowWay,
    name: &'a Text,
}

impl fmt::Display for Stub<'_> {
    ghost output = { λ own. Some (bytes (stub_html own.place own.way own.name.now)) };

    fn fmt<W: fmt::Write>(&self, f: &mut fmt::Formatter<W>) -> fmt::Result {
        let colour = self.way.lane % 5;
        let from = top_of(self.place) + 34;
        let base = top_of(self.place) + 38;
        let target = Target {
            closes: self.way.closes,
            name: self.name,
        };
        write!(
            f,
            "<path class=\"way to{colour}\" d=\"M690 {from}h14\"/><text class=\"stub\" x=\"708\" y=\"{base}\">&#8594; {target}</text>"
        )
    }
}

/// Where a row leads to: a line there, or a stub with the name if there is no lane for it.
#[derive(Drop)]
struct WayTo<'a> {
    place: usize,
    way: RowWay,
    name: &'a Text,
}

impl fmt::Display for WayTo<'_> {
    ghost output = { λ own. Some (bytes (way_to_html own.place own.way own.name.now)) };

    fn fmt<W: fmt::Write>(&self, f: &mut fmt::Formatter<W>) -> fmt::Result {
        if self.way.lane < LANES {
            let arrow = Arrow {
                place: self.place,
                way: self.way,
            };
            return write!(f, "{arrow}");
        }
        let stub = Stub {
            place: self.place,
            way: self.way,
            name: self.name,
        };
        write!(f, "{stub}")
    }
}

/// Where a row leads to, unless it stays in its state.
#[derive(Drop)]
struct WayPart<'a>(&'a PictureRow);

impl fmt::Display for WayPart<'_> {
    ghost output = { λ own. Some (bytes (way_html own.0.now)) };

    fn fmt<W: fmt::Write>(&self, f: &mut fmt::Formatter<W>) -> fmt::Result {
        match self.0.way {
            Some(way) => {
                let way = WayTo {
                    place: self.0.place,
                    way,
                    name: &self.0.next,
                };
                write!(f, "{way}")
            }
            None => Ok(()),
        }
    }
}

/// The box of a row, with the name of its state.
#[derive(Drop)]
struct StateBox<'a>(&'a PictureRow);

impl fmt::Display for StateBox<'_> {
    ghost output = { λ own. Some (bytes (state_html own.0.now)) };

    fn fmt<W: fmt::Write>(&self, f: &mut fmt::Formatter<W>) -> fmt::Result {
        let top = top_of(self.0.place);
        let middle = top_of(self.0.place) + 20;
        let class = name_class(self.0.begins, self.0.mark);
        let whole = Escaped {
            text: &self.0.state,
            most: 300,
        };
        let state = Escaped {
            text: &self.0.state,
            most: 17,
        };
        write!(
            f,
            "<rect class=\"box\" x=\"10\" y=\"{top}\" width=\"680\" height=\"46\"/><text class=\"{class}\" x=\"24\" y=\"{middle}\"><title>{whole}</title>{state}</text>"
        )
    }
}

/// The job of a row, with its conditions.
#[derive(Drop)]
struct JobWords<'a>(&'a PictureRow);

impl fmt::Display for JobWords<'_> {
    ghost output = { λ own. Some (bytes (job_html own.0.now)) };

    fn fmt<W: fmt::Write>(&self, f: &mut fmt::Formatter<W>) -> fmt::Result {
        let middle = top_of(self.0.place) + 20;
        let job = Escaped {
            text: &self.0.job,
            most: 40,
        };
        let conditions = Conditions(&self.0.conditions);
        write!(
            f,
            "<text class=\"job\" x=\"180\" y=\"{middle}\">{job}{conditions}</text>"
        )
    }
}

/// The commands of a row, with its marks.
#[derive(Drop)]
struct CommandWords<'a>(&'a PictureRow);

impl fmt::Display for CommandWords<'_> {
    ghost output = { λ own. Some (bytes (commands_html own.0.now)) };

    fn fmt<W: fmt::Write>(&self, f: &mut fmt::Formatter<W>) -> fmt::Result {
        let bottom = top_of(self.0.place) + 37;
        let gives = Gives(&self.0.gives);
        let marks = RowMarks(&self.0.marks);
        write!(
            f,
            "<text class=\"gives\" x=\"180\" y=\"{bottom}\">{gives}{marks}</text>"
        )
    }
}

/// A row of the picture, marked where a path takes it.
#[derive(Drop)]
struct RowPart<'a> {
    paths: &'a [RowPath],
    line: &'a PictureRow,
}

impl fmt::Display for RowPart<'_> {
    ghost output = { λ own. Some (bytes (row_html own.paths.now own.line.now)) };

    fn fmt<W: fmt::Write>(&self, f: &mut fmt::Formatter<W>) -> fmt::Result {
        let class = row_class(self.line.taken || is_taken(self.paths, self.line.number));
        let state = StateBox(self.line);
        let job = JobWords(self.line);
        let commands = CommandWords(self.line);
        let edge = Edge {
            place: self.line.place,
            begins: self.line.begins,
        };
        let way = WayPart(self.line);
        write!(
            f,
            "<g class=\"{class}\">{state}{job}{commands}{edge}{way}</g>\n"
        )
    }
}

/// The rows of the picture.
#[derive(Drop)]
struct RowParts<'a> {
    paths: &'a [RowPath],
    lines: &'a [PictureRow],
}

impl fmt::Display for RowParts<'_> {
    ghost output = { λ own. Some (bytes (each (row_html own.paths.now) own.lines.now)) };

    fn fmt<W: fmt::Write>(&self, f: &mut fmt::Formatter<W>) -> fmt::Result {
        for line in self.lines {
            let row = RowPart {
                paths: self.paths,
                line,
            };
            write!(f, "{row}")?;
        }
        Ok(())
    }
}

/// The rows of a picture and the end, which may be the last.
#[derive(Drop)]
struct Drawn<'a> {
    paths: &'a [RowPath],
    lines: &'a [PictureRow],
    ended: bool,
}

impl fmt::Display for Drawn<'_> {
    ghost output = { λ own. Some (bytes (drawn_html own.paths.now own.lines.now own.ended)) };

    fn fmt<W: fmt::Write>(&self, f: &mut fmt::Formatter<W>) -> fmt::Result {
        let rows = RowParts {
            paths: self.paths,
            lines: self.lines,
        };
        let class = end_class(self.ended);
        let end = top_of(self.lines.len()) + 6;
        let word = top_of(self.lines.len()) + 28;
        write!(
            f,
            "{rows}<rect class=\"{class}\" x=\"10\" y=\"{end}\" width=\"680\" height=\"34\"/><text class=\"name\" x=\"24\" y=\"{word}\">closed</text>\n</svg>\n</div>\n"
        )
    }
}

/// The picture of rows, of which those are marked that paths take.
#[derive(Drop)]
pub(crate) struct TablePicture<'a> {
    pub paths: &'a [RowPath],
    pub lines: &'a [PictureRow],
}

impl fmt::Display for TablePicture<'_> {
    ghost output = { λ own. Some (bytes (picture_html own.paths.now own.lines.now)) };

    #[tactic(auto, unfolding(crate::specs::Pictures::picture_html))]
    fn fmt<W: fmt::Write>(&self, f: &mut fmt::Formatter<W>) -> fmt::Result {
        let count = self.lines.len();
        let height = top_of(count) + 54;
        let drawn = Drawn {
            paths: self.paths,
            lines: self.lines,
            ended: false,
        };
        write!(
            f,
            "<section>\n<h2 id=\"states\">States</h2>\n<div class=\"scroll picture\" tabindex=\"0\" role=\"region\" aria-labelledby=\"states\">\n<svg viewBox=\"0 0 1000 {height}\" role=\"img\" aria-labelledby=\"states\" aria-describedby=\"states-words\">\n<desc id=\"states-words\">The rows of {count} by their states, and where each leads to. The table below says the same.</desc>\n{drawn}</section>\n"
        )
    }
}

/// The picture of rows some of which are marked, in its box, for the heading whose id is `way` on
/// another page, which has the colours of a page of a run.
#[derive(Drop)]
pub struct MarkedPicture<'a> {
    /// The rows.
    pub lines: &'a [PictureRow],
    /// Whether the end is the last.
    pub ended: bool,
}

impl fmt::Display for MarkedPicture<'_> {
    ghost output = { λ own. Some (bytes (marked_html own.lines.now own.ended)) };

    #[tactic(auto, unfolding(crate::specs::Pictures::marked_html))]
    fn fmt<W: fmt::Write>(&self, f: &mut fmt::Formatter<W>) -> fmt::Result {
        let count = self.lines.len();
        let height = top_of(count) + 54;
        let drawn = Drawn {
            paths: &[],
            lines: self.lines,
            ended: self.ended,
        };
        write!(
            f,
            "<div class=\"scroll picture\" tabindex=\"0\" role=\"region\" aria-labelledby=\"way\">\n<svg class=\"marked\" viewBox=\"0 0 1000 {height}\" role=\"img\" aria-labelledby=\"way\" aria-describedby=\"way-words\">\n<desc id=\"way-words\">The rows of {count} by their states, and where each leads to. Those that were taken are marked, with the states that were passed.</desc>\n<style>\n{STYLE_OF_ROWS}{STYLE_OF_MARKS}</style>\n{drawn}"
        )
    }
}
