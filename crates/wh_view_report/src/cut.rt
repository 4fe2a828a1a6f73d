//! Texts as reports show them: cut after 80 characters.

ghost use Rattle.std.specs.Prelude.{◌≡◌, ◌∷◌, [], Some, length};
ghost use Rattle.std.specs.Fmt.{DisplaysOnOk};
ghost use Rattle.std.specs.Str.{chars};
ghost use Rattle.wh_view_report.specs.Cut.{is_hidden, shown_char, front, rest_text, cut, label_text};

use std::fmt;
use wh_html::is_unseen;

/// The most characters of a text that are shown.
pub(crate) const WIDTH: usize = 80;

/// Returns whether a character is not shown: a control character of ASCII, or another one that would
/// not be seen.
fn is_hidden(c: char) -> bool
    ensures { result ≡ is_hidden c }
{
    c < ' ' || c == '\u{7f}' || is_unseen(c)
}

/// Returns a character as it is shown: `?` for one that would not be seen as what it is
/// (`wh_html::is_unseen`), and for a control character of ASCII.
pub fn shown_char(c: char) -> char
    ensures { result ≡ shown_char c }
{
    if is_hidden(c) { '?' } else { c }
}

/// Writes the first characters of a text.
#[tactic(auto, unfolding(crate::specs::Cut::front))]
fn write_front<W: fmt::Write>(text: &str, f: &mut fmt::Formatter<W>) -> fmt::Result
    ensures { DisplaysOnOk W.write_str_gives f.old result (Some (front text.now)) f.new }
{
    for c in text.chars().take(WIDTH) {
        let c = shown_char(c);
        write!(f, "{c}")?;
    }
    Ok(())
}

/// The first characters of a text.
#[derive(Drop)]
struct Prefix<'a>(&'a str);

impl fmt::Display for Prefix<'_> {
    ghost output = { λ t. Some (front t.0.now) };

    fn fmt<W: fmt::Write>(&self, f: &mut fmt::Formatter<W>) -> fmt::Result {
        write_front(self.0, f)
    }
}

/// Returns how many characters a text has.
fn char_count(text: &str) -> usize
    ensures { result ≡ length (chars text.now) }
{
    text.chars().count()
}

/// What follows the front of a text of so many characters: their number, if there are more than 80.
#[derive(Clone, Copy)]
struct Rest(usize);

impl fmt::Display for Rest {
    ghost output = { λ r. Some (rest_text r.0) };

    fn fmt<W: fmt::Write>(&self, f: &mut fmt::Formatter<W>) -> fmt::Result {
        let count = self.0;
        if WIDTH < count {
            write!(f, ".. ({count} characters)")
        } else {
            Ok(())
        }
    }
}

/// The first 80 characters of a text, with `?` for each character that `shown_char` does not show.
/// If the text is longer, the number of its characters follows.
#[derive(Drop)]
pub struct Excerpt<'a>(pub &'a str);

impl fmt::Display for Excerpt<'_> {
    ghost output = { λ t. Some (cut t.0.now) };

    #[tactic(auto, unfolding(crate::specs::Cut::cut))]
    fn fmt<W: fmt::Write>(&self, f: &mut fmt::Formatter<W>) -> fmt::Result {
        let front = Prefix(self.0);
        let rest = Rest(char_count(self.0));
        write!(f, "{front}{rest}")
    }
}

/// A text after a label; nothing if the text is empty.
#[derive(Drop)]
pub(crate) struct LabelText<'a>(pub(crate) &'static str, pub(crate) &'a str);

impl fmt::Display for LabelText<'_> {
    ghost output = { λ l. Some (label_text l.0.now l.1.now) };

    fn fmt<W: fmt::Write>(&self, f: &mut fmt::Formatter<W>) -> fmt::Result {
        if self.1.is_empty() {
            return Ok(());
        }
        let label = self.0;
        let text = Excerpt(self.1);
        write!(f, "{label}{text}")
    }
}
