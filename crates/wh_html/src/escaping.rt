//! Texts within HTML.

ghost use Rattle.std.specs.Prelude.{◌≡◌, Some, MatchOption, length};
ghost use Rattle.std.specs.Str.{chars};
ghost use Rattle.std.specs.Fmt.{DisplaysOnOk};
ghost use Rattle.wh_html.specs.Escaping.{is_unseen, seen, reference_of, escaped_char, escaped_first, rest_of, escaped};

use std::fmt;
use wh_events::Text;

/// The first characters of a text, escaped for HTML. `&`, `<`, `>` and quotation marks are written
/// as character references
/// (<https://html.spec.whatwg.org/multipage/syntax.html#character-references>). A control character
/// of ASCII is replaced by its picture (U+2400 to U+2421); another control character, one that
/// changes the direction of writing, and U+FFFE and U+FFFF, which XML forbids
/// (<https://www.w3.org/TR/xml/#charsets>), by U+FFFD. If the text is longer, `…` follows.
#[derive(Drop)]
pub struct Escaped<'a> {
    /// The text.
    pub text: &'a Text,
    /// The most characters of it that are shown.
    pub most: usize,
}

/// Returns whether a character would not be seen as what it is: a control character beyond ASCII,
/// one that changes the direction of writing, or one that XML forbids.
pub fn is_unseen(c: char) -> bool
    ensures { result ≡ is_unseen c }
{
    matches!(
        c,
        '\u{80}'..='\u{9f}'
            | '\u{200e}'..='\u{200f}'
            | '\u{2028}'..='\u{202e}'
            | '\u{2066}'..='\u{2069}'
            | '\u{fffe}'..='\u{ffff}'
            | '\u{61c}'
            | '\u{feff}'
    )
}

/// Returns a character as it is shown.
fn visible_char(c: char) -> char
    ensures { result ≡ seen c }
{
    if c < ' ' {
        char::from_u32(0x2400 + c as u32).unwrap_or('\u{fffd}')
    } else if c == '\u{7f}' {
        '\u{2421}'
    } else if is_unseen(c) {
        '\u{fffd}'
    } else {
        c
    }
}

/// Returns the character reference of a character that HTML can't have as itself, if it is one.
fn reference_of(c: char) -> Option<&'static str>
    ensures { MatchOption result (reference_of c ≡ None) (λ reference. reference_of c ≡ Some reference.now) }
{
    match c {
        '&' => Some("&amp;"),
        '<' => Some("&lt;"),
        '>' => Some("&gt;"),
        '"' => Some("&quot;"),
        '\'' => Some("&#39;"),
        _ => None,
    }
}

/// A character within HTML.
#[derive(Clone, Copy)]
struct EscapedChar(char);

impl fmt::Display for EscapedChar {
    ghost output = { λ e. Some (escaped_char e.0) };

    fn fmt<W: fmt::Write>(&self, f: &mut fmt::Formatter<W>) -> fmt::Result {
        let c = visible_char(self.0);
        match reference_of(c) {
            Some(reference) => write!(f, "{reference}"),
            None => write!(f, "{c}"),
        }
    }
}

/// Writes the first `most` characters of a text.
#[tactic(auto, unfolding(crate::specs::Escaping::escaped_first))]
fn write_first<W: fmt::Write>(text: &str, most: usize, f: &mut fmt::Formatter<W>) -> fmt::Result
    ensures { DisplaysOnOk W.write_str_gives f.old result (Some (escaped_first most text.now)) f.new }
{
    for c in text.chars().take(most) {
        let c = EscapedChar(c);
        write!(f, "{c}")?;
    }
    Ok(())
}

/// Returns how many characters a text has.
pub(crate) fn char_count(text: &str) -> usize
    ensures { result ≡ length (chars text.now) }
{
    text.chars().count()
}

/// Returns `…` if a text has more than `most` characters, and nothing otherwise.
fn rest_of(text: &str, most: usize) -> &'static str
    ensures { result.now ≡ rest_of most text.now }
{
    if most < char_count(text) { "…" } else { "" }
}

impl fmt::Display for Escaped<'_> {
    ghost output = { λ e. Some (escaped e.most e.text.now) };

    fn fmt<W: fmt::Write>(&self, f: &mut fmt::Formatter<W>) -> fmt::Result {
        let text = self.text.get();
        write_first(text, self.most, f)?;
        let rest = rest_of(text, self.most);
        write!(f, "{rest}")
    }
}
