//! Compares texts without their decimal digits.

ghost use Rattle.std.specs.Prelude.{◌≡◌, ◌≤◌, ◌<◌, drop, length, get_or, true};
ghost use Rattle.wh_view_report.specs.Digits as digits;

/// Returns whether a byte is no decimal digit.
fn is_plain(byte: u8) -> bool
    ensures { result ≡ digits.is_plain byte }
{
    !(48 <= byte && byte <= 57)
}

/// Returns the first position at or after `from` without a decimal digit; the end of the text if
/// only digits follow.
fn next_plain(text: &[u8], from: usize) -> usize
    requires { from ≤ length text.now }
    ensures within { result ≤ length text.now }
    ensures same { digits.plain (drop result text.now) ≡ digits.plain (drop from text.now) }
    ensures stops { result < length text.now → digits.is_plain (get_or text.now result 0) ≡ true }
{
    let mut at = from;
    while at < text.len() && !is_plain(text[at]) {
        at += 1;
    }
    at
}

/// Returns whether two texts are the same except for decimal digits.
fn alike_bytes(one: &[u8], other: &[u8]) -> bool
    ensures { result ≡ digits.alike_texts one.now other.now }
{
    let mut at = 0;
    for byte in one {
        if !is_plain(*byte) {
            continue;
        }
        at = next_plain(other, at);
        if at == other.len() || other[at] != *byte {
            return false;
        }
        at += 1;
    }
    next_plain(other, at) == other.len()
}

/// Returns whether two texts are the same except for decimal digits.
pub fn alike_texts(one: &str, other: &str) -> bool
    ensures { result ≡ digits.alike_texts one.now other.now }
{
    alike_bytes(one.as_bytes(), other.as_bytes())
}
