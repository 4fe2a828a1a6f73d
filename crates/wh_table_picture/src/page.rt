//! The page of a table: what is found of it, the picture, and its rows.
ghost use Rattle.std.specs.Prelude.{◌≡◌, Some, OnOk};
ghost use Rattle.std.specs.Io.KnownBytes.{Appends};
ghost use Rattle.wh_html.specs.Html.{bytes, each};
ghost use Rattle.wh_table_picture.specs.Pages.{verdict_class, head_html, verdict_html, front_html, item_html};
ghost use Rattle.wh_table_picture.specs.Pages.{cell_html, when_html, table_row_html, table_html};
ghost use Rattle.wh_table_picture.specs.Pages.{items_html, states_html, page_html};

use crate::drawing::Drawing;
use crate::layout::PictureRow;
use crate::legend::Legend;
use crate::paths::RowPath;
use crate::picture::TablePicture;
use crate::promises::Promises;
use crate::style::{STYLE_OF_PAGE, STYLE_OF_PRINT, STYLE_OF_ROWS};
use std::io::Write;
use std::{fmt, io};
use wh_events::Text;
use wh_html::Escaped;
use wh_table_check::{TableCheck, TableFinding, is_good, verdict_word};

/// The most characters of a name that a page shows.
const NAME: usize = 300;

/// The most characters of the words of a member of a row.
const WORDS: usize = 2_000;

/// How a verdict stands: that of a good table, or of another one.
fn verdict_class(own: &TableCheck) -> &'static str
    ensures { result.now ≡ verdict_class own.now }
{
    if is_good(own) { "ok" } else { "bad" }
}

/// What stands before the body: the title of the page and the style sheet.
#[derive(Drop)]
struct PageHead<'a>(&'a Drawing);

impl fmt::Display for PageHead<'_> {
    ghost output = { λ own. Some (bytes (head_html own.0.now)) };

    #[tactic(auto, unfolding(crate::specs::Pages::head_html))]
    fn fmt<W: fmt::Write>(&self, f: &mut fmt::Formatter<W>) -> fmt::Result {
        let name = Escaped {
            text: &self.0.checked.name,
            most: NAME,
        };
        write!(
            f,
            "<!doctype html>\n<html lang=\"en\">\n<head>\n<meta charset=\"utf-8\">\n<meta name=\"viewport\" content=\"width=device-width, initial-scale=1\">\n<meta name=\"color-scheme\" content=\"light dark\">\n<meta http-equiv=\"Content-Security-Policy\" content=\"default-src 'none'; style-src 'unsafe-inline'\">\n<title>{name}</title>\n<style>\n{STYLE_OF_PAGE}{STYLE_OF_ROWS}{STYLE_OF_PRINT}</style>\n</head>\n<body>\n"
        )
    }
}

/// The name of the file, and the verdict.
#[derive(Drop)]
struct FileVerdict<'a>(&'a Drawing);

impl fmt::Display for FileVerdict<'_> {
    ghost output = { λ own. Some (bytes (verdict_html own.0.now)) };

    fn fmt<W: fmt::Write>(&self, f: &mut fmt::Formatter<W>) -> fmt::Result {
        let name = Escaped {
            text: &self.0.checked.name,
            most: NAME,
        };
        let class = verdict_class(&self.0.checked);
        let verdict = verdict_word(&self.0.checked);
        let count = self.0.checked.rows;
        write!(
            f,
            "<header>\n<h1>{name}</h1>\n<p class=\"verdict {class}\">{verdict}, {count} rows</p>\n"
        )
    }
}

/// What stands before the findings.
#[derive(Drop)]
struct Front<'a>(&'a Drawing);

impl fmt::Display for Front<'_> {
    ghost output = { λ own. Some (bytes (front_html own.0.now)) };

    fn fmt<W: fmt::Write>(&self, f: &mut fmt::Formatter<W>) -> fmt::Result {
        let head = PageHead(self.0);
        let verdict = FileVerdict(self.0);
        let title = Escaped {
            text: &self.0.title,
            most: 600,
        };
        write!(f, "{head}{verdict}<p>{title}</p>\n</header>\n<main>\n")
    }
}

/// A finding, as an item of a list.
#[derive(Drop)]
struct Item<'a>(&'a TableFinding);

impl fmt::Display for Item<'_> {
    ghost output = { λ own. Some (bytes (item_html own.0.now)) };

    fn fmt<W: fmt::Write>(&self, f: &mut fmt::Formatter<W>) -> fmt::Result {
        let text = Escaped {
            text: &self.0.text,
            most: 600,
        };
        write!(f, "<li>{text}</li>\n")
    }
}

/// Findings, as items of a list.
#[derive(Drop)]
struct FindingItems<'a>(&'a [TableFinding]);

impl fmt::Display for FindingItems<'_> {
    ghost output = { λ own. Some (bytes (each item_html own.0.now)) };

    fn fmt<W: fmt::Write>(&self, f: &mut fmt::Formatter<W>) -> fmt::Result {
        for found in self.0 {
            let item = Item(found);
            write!(f, "{item}")?;
        }
        Ok(())
    }
}

/// A list of findings under its heading, if there are some.
#[derive(Drop)]
struct FindingList<'a> {
    heading: &'static str,
    list: &'a [TableFinding],
}

impl fmt::Display for FindingList<'_> {
    ghost output = { λ own. Some (bytes (items_html own.heading.now own.list.now)) };

    fn fmt<W: fmt::Write>(&self, f: &mut fmt::Formatter<W>) -> fmt::Result {
        if self.list.is_empty() {
            return Ok(());
        }
        let heading = self.heading;
        let items = FindingItems(self.list);
        write!(
            f,
            "<section>\n<h2>{heading}</h2>\n<ul>\n{items}</ul>\n</section>\n"
        )
    }
}

/// A cell of the table.
#[derive(Drop)]
struct Cell<'a>(&'a Text);

impl fmt::Display for Cell<'_> {
    ghost output = { λ own. Some (bytes (cell_html own.0.now)) };

    fn fmt<W: fmt::Write>(&self, f: &mut fmt::Formatter<W>) -> fmt::Result {
        let words = Escaped {
            text: self.0,
            most: WORDS,
        };
        write!(f, "<td>{words}</td>")
    }
}

/// What a row is for: its number, its state, its job and its conditions.
#[derive(Drop)]
struct When<'a>(&'a PictureRow);

impl fmt::Display for When<'_> {
    ghost output = { λ own. Some (bytes (when_html own.0.now)) };

    fn fmt<W: fmt::Write>(&self, f: &mut fmt::Formatter<W>) -> fmt::Result {
        let number = self.0.number;
        let state = Cell(&self.0.state);
        let job = Cell(&self.0.job);
        let conditions = Cell(&self.0.conditions);
        write!(f, "<th scope=\"row\">{number}</th>{state}{job}{conditions}")
    }
}

/// A row of the table.
#[derive(Drop)]
struct TableRow<'a>(&'a PictureRow);

impl fmt::Display for TableRow<'_> {
    ghost output = { λ own. Some (bytes (table_row_html own.0.now)) };

    fn fmt<W: fmt::Write>(&self, f: &mut fmt::Formatter<W>) -> fmt::Result {
        let when = When(self.0);
        let gives = Cell(&self.0.gives);
        let next = Cell(&self.0.next);
        let marks = Cell(&self.0.marks);
        write!(f, "<tr>{when}{gives}{next}{marks}</tr>\n")
    }
}

/// The rows of the table.
#[derive(Drop)]
struct TableRows<'a>(&'a [PictureRow]);

impl fmt::Display for TableRows<'_> {
    ghost output = { λ own. Some (bytes (each table_row_html own.0.now)) };

    fn fmt<W: fmt::Write>(&self, f: &mut fmt::Formatter<W>) -> fmt::Result {
        for line in self.0 {
            let row = TableRow(line);
            write!(f, "{row}")?;
        }
        Ok(())
    }
}

/// The rows as a table.
#[derive(Drop)]
struct RowTable<'a>(&'a [PictureRow]);

impl fmt::Display for RowTable<'_> {
    ghost output = { λ own. Some (bytes (table_html own.0.now)) };

    fn fmt<W: fmt::Write>(&self, f: &mut fmt::Formatter<W>) -> fmt::Result {
        let rows = TableRows(self.0);
        write!(
            f,
            "<section>\n<h2 id=\"rows\">Rows</h2>\n<div class=\"scroll\" tabindex=\"0\" role=\"region\" aria-labelledby=\"rows\">\n<table>\n<thead><tr><th scope=\"col\">Row</th><th scope=\"col\">State</th><th scope=\"col\">Job</th><th scope=\"col\">If</th><th scope=\"col\">Gives</th><th scope=\"col\">Then</th><th scope=\"col\">Marks</th></tr></thead>\n<tbody>\n{rows}</tbody>\n</table>\n</div>\n</section>\n"
        )
    }
}

/// What is marked, the picture and the rows, if there are some.
#[derive(Drop)]
struct States<'a> {
    paths: &'a [RowPath],
    lines: &'a [PictureRow],
}

impl fmt::Display for States<'_> {
    ghost output = { λ own. Some (bytes (states_html own.paths.now own.lines.now)) };

    fn fmt<W: fmt::Write>(&self, f: &mut fmt::Formatter<W>) -> fmt::Result {
        if self.lines.is_empty() {
            return Ok(());
        }
        let legend = Legend(self.paths);
        let picture = TablePicture {
            paths: self.paths,
            lines: self.lines,
        };
        let table = RowTable(self.lines);
        write!(f, "{legend}{picture}{table}")
    }
}

/// Writes the page of a table as one HTML file: the verdict, its faults and warnings, its promises,
/// each with a mark, a picture of its states (inline SVG, no script), in which the rows of each
/// path that breaks a promise are marked, and its rows as a table. Whatever the table holds stands
/// there as text. After an error some of it may have been written.
#[tactic(auto, unfolding(crate::specs::Pages::page_html))]
pub fn write_page<W: Write>(drawing: &Drawing, writer: &mut W) -> io::Result<()>
    ensures { OnOk result (Appends (W.contents writer.old) (W.contents writer.new) (bytes (page_html drawing.now))) }
{
    let front = Front(drawing);
    let faults = FindingList {
        heading: "Faults",
        list: drawing.checked.faults.get(),
    };
    let warnings = FindingList {
        heading: "Warnings",
        list: drawing.checked.warnings.get(),
    };
    let promises = Promises(&drawing.checked.promises);
    let states = States {
        paths: drawing.paths.get(),
        lines: drawing.lines.get(),
    };
    write!(
        writer,
        "{front}{faults}{warnings}{promises}{states}</main>\n</body>\n</html>\n"
    )
}
