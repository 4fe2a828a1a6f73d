//! Members of JSON with texts and lengths of time.

ghost use Rattle.std.specs.Prelude.{◌≡◌, Some};
ghost use Rattle.std.specs.Fmt.{DisplaysOnOk};
ghost use Rattle.wh_view_json.specs.Texts as json;

use std::fmt;
use wh_html::Stamp;
use wh_view_report::shown_char;

/// The most characters of a text in a member.
const MOST: usize = 1_000;

/// A character within a string of JSON (RFC 8259, section 7), as the text of a view shows it.
#[derive(Clone, Copy)]
struct JsonChar(char);

impl fmt::Display for JsonChar {
    ghost output = { λ c. Some (json.json_char c.0) };

    fn fmt<W: fmt::Write>(&self, f: &mut fmt::Formatter<W>) -> fmt::Result {
        let c = shown_char(self.0);
        if c == '"' || c == '\\' {
            write!(f, "\\{c}")
        } else {
            write!(f, "{c}")
        }
    }
}

/// Writes the first characters of a text within a string of JSON.
#[tactic(auto, unfolding(crate::specs::Texts::json_text))]
fn write_json_text<W: fmt::Write>(text: &str, f: &mut fmt::Formatter<W>) -> fmt::Result
    ensures { DisplaysOnOk W.write_str_gives f.old result (Some (json.json_text text.now)) f.new }
{
    for c in text.chars().take(MOST) {
        let c = JsonChar(c);
        write!(f, "{c}")?;
    }
    Ok(())
}

/// A text within a string of JSON.
#[derive(Drop)]
struct JsonText<'a>(&'a str);

impl fmt::Display for JsonText<'_> {
    ghost output = { λ t. Some (json.json_text t.0.now) };

    fn fmt<W: fmt::Write>(&self, f: &mut fmt::Formatter<W>) -> fmt::Result {
        write_json_text(self.0, f)
    }
}

/// The first 1,000 characters of a text under a key, as a further member of an object (RFC 8259),
/// with `?` for each control character and each one that changes the direction of writing; nothing
/// if the text is empty.
#[derive(Drop)]
pub struct TextMember<'a>(pub &'static str, pub &'a str);

impl fmt::Display for TextMember<'_> {
    ghost output = { λ t. Some (json.text_member t.0.now t.1.now) };

    fn fmt<W: fmt::Write>(&self, f: &mut fmt::Formatter<W>) -> fmt::Result {
        if self.1.is_empty() {
            return Ok(());
        }
        let key = self.0;
        let text = JsonText(self.1);
        write!(f, ",\"{key}\":\"{text}\"")
    }
}

/// A length of time in milliseconds, as a further member of an object in seconds; nothing if it is
/// not known.
#[derive(Clone, Copy)]
pub struct SecondsMember(pub &'static str, pub Option<u64>);

impl fmt::Display for SecondsMember {
    ghost output = { λ s. Some (json.seconds_member s.0.now s.1) };

    fn fmt<W: fmt::Write>(&self, f: &mut fmt::Formatter<W>) -> fmt::Result {
        match self.1 {
            Some(millis) => {
                let key = self.0;
                let seconds = millis / 1_000;
                let tenths = millis % 1_000 / 100;
                let hundredths = millis % 100 / 10;
                let thousandths = millis % 10;
                write!(f, ",\"{key}\":{seconds}.{tenths}{hundredths}{thousandths}")
            }
            None => Ok(()),
        }
    }
}

/// When something is due, as a further member of an object; nothing if that is not known.
#[derive(Clone, Copy)]
pub(crate) struct UntilMember(pub(crate) Option<u64>);

impl fmt::Display for UntilMember {
    ghost output = { λ u. Some (json.until_member u.0) };

    fn fmt<W: fmt::Write>(&self, f: &mut fmt::Formatter<W>) -> fmt::Result {
        match self.0 {
            Some(millis) => {
                let stamp = Stamp(millis);
                write!(f, ",\"until\":\"{stamp}\"")
            }
            None => Ok(()),
        }
    }
}
