//! Payloads that are plain JSON strings, read without a JSON library.
ghost use Rattle.std.specs.Prelude.{◌≡◌, true, false, Some, None, MatchOption};
ghost use Rattle.std.specs.List.{list_all};
ghost use Rattle.std.specs.Str.{is_utf8};
ghost use Rattle.wh_workflow.specs.PlainTexts.{is_plain, plain, quoted, plain_text, payload_text};

use wh_events::Payload;

/// Returns whether a JSON string may hold the byte unescaped (RFC 8259, section 7): it is not a
/// control character (below the space), a quotation mark or a backslash.
fn is_plain(byte: u8) -> bool
    ensures { result ≡ is_plain byte }
{
    byte >= b' ' && byte != b'"' && byte != b'\\'
}

/// Returns whether a JSON string may hold each of the bytes unescaped.
fn all_plain(bytes: &[u8]) -> bool
    ensures { result ≡ list_all is_plain bytes.now }
{
    bytes.iter().all(|byte| is_plain(*byte))
}

/// Returns the bytes as a text, or `None` if they are not UTF-8.
pub fn text_in(bytes: &[u8]) -> Option<&str>
    ensures { MatchOption result (is_utf8 bytes.now ≡ false)
        (λ text. (is_utf8 bytes.now ≡ true) × (text.now ≡ bytes.now)) }
{
    match str::from_utf8(bytes) {
        Ok(text) => Some(text),
        Err(_) => None,
    }
}

/// Returns the bytes as a text that a JSON string may hold unescaped. `None` if they are empty, or
/// not such a text.
fn plain(bytes: &[u8]) -> Option<&str>
    ensures { MatchOption result (plain bytes.now ≡ None) (λ text. plain bytes.now ≡ Some text.now) }
{
    if bytes.is_empty() || !all_plain(bytes) {
        return None;
    }
    text_in(bytes)
}

/// Returns the bytes between two quotation marks, or `None` if one of the marks is missing.
fn unquote(bytes: &[u8]) -> Option<&[u8]>
    ensures { MatchOption result (quoted bytes.now ≡ None) (λ inner. quoted bytes.now ≡ Some inner.now) }
{
    bytes.strip_prefix(b"\"")?.strip_suffix(b"\"")
}

/// Returns the text of a plain JSON string: a quotation mark, at least one character of UTF-8, and
/// a quotation mark, where no character between is a quotation mark, a backslash or a control
/// character (below the space; RFC 8259, section 7). `None` for anything else, also for a string
/// with an escape, which only a JSON library reads, and for JSON with whitespace around it.
pub fn plain_text(json: &[u8]) -> Option<&str>
    ensures { MatchOption result (plain_text json.now ≡ None) (λ text. plain_text json.now ≡ Some text.now) }
{
    plain(unquote(json)?)
}

/// Returns the text of the payload of this number, counted from 0, if its content is a plain JSON
/// string. `None` if it is not, or if there is no such payload.
pub fn payload_text(input: &[Payload], number: usize) -> Option<&str>
    ensures { MatchOption result (payload_text input.now number ≡ None)
        (λ name. payload_text input.now number ≡ Some name.now) }
{
    plain_text(input.get(number)?.content.get())
}
