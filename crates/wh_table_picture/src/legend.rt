//! What the marks of a picture tell.
ghost use Rattle.std.specs.Prelude.{◌≡◌, Some};
ghost use Rattle.wh_html.specs.Html.{bytes, each};
ghost use Rattle.wh_table_picture.specs.Pictures.{taken_html, path_html, legend_html};

use crate::paths::RowPath;
use std::fmt;
use wh_html::Escaped;

/// The number of a row that a path takes, with a space before it.
#[derive(Drop)]
struct TakenRow<'a>(&'a usize);

impl fmt::Display for TakenRow<'_> {
    ghost output = { λ own. Some (bytes (taken_html own.0.now)) };

    fn fmt<W: fmt::Write>(&self, f: &mut fmt::Formatter<W>) -> fmt::Result {
        let number = *self.0;
        write!(f, " {number}")
    }
}

/// The numbers of the rows that a path takes.
#[derive(Drop)]
struct TakenRows<'a>(&'a [usize]);

impl fmt::Display for TakenRows<'_> {
    ghost output = { λ own. Some (bytes (each taken_html own.0.now)) };

    fn fmt<W: fmt::Write>(&self, f: &mut fmt::Formatter<W>) -> fmt::Result {
        for row in self.0 {
            let one = TakenRow(row);
            write!(f, "{one}")?;
        }
        Ok(())
    }
}

/// A path: what it tells, and its rows.
#[derive(Drop)]
struct PathItem<'a>(&'a RowPath);

impl fmt::Display for PathItem<'_> {
    ghost output = { λ own. Some (bytes (path_html own.0.now)) };

    fn fmt<W: fmt::Write>(&self, f: &mut fmt::Formatter<W>) -> fmt::Result {
        let text = Escaped {
            text: &self.0.text,
            most: 600,
        };
        let rows = TakenRows(self.0.rows.get());
        write!(f, "<li>{text}: rows{rows}</li>\n")
    }
}

/// Paths, as items of a list.
#[derive(Drop)]
struct PathItems<'a>(&'a [RowPath]);

impl fmt::Display for PathItems<'_> {
    ghost output = { λ own. Some (bytes (each path_html own.0.now)) };

    fn fmt<W: fmt::Write>(&self, f: &mut fmt::Formatter<W>) -> fmt::Result {
        for path in self.0 {
            let item = PathItem(path);
            write!(f, "{item}")?;
        }
        Ok(())
    }
}

/// What the marks tell, if there are some.
#[derive(Drop)]
pub(crate) struct Legend<'a>(pub(crate) &'a [RowPath]);

impl fmt::Display for Legend<'_> {
    ghost output = { λ own. Some (bytes (legend_html own.0.now)) };

    fn fmt<W: fmt::Write>(&self, f: &mut fmt::Formatter<W>) -> fmt::Result {
        if self.0.is_empty() {
            return Ok(());
        }
        let items = PathItems(self.0);
        write!(
            f,
            "<section>\n<h2>Marked</h2>\n<p>The rows of each way that breaks a promise are marked.</p>\n<ul class=\"legend\">\n{items}</ul>\n</section>\n"
        )
    }
}
