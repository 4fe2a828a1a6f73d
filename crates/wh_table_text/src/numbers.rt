//! Reads decimal numbers.
ghost use Rattle.std.specs.Prelude.{◌≡◌};
ghost use Rattle.std.specs.List.{list_all};
ghost use Rattle.std.specs.Char.{is_ascii_digit};
ghost use Rattle.wh_json.specs.Fields.{number_in};
ghost use Rattle.wh_table_text.specs.Numbers.{below, seconds_in, version_in};

/// Returns whether the text has only decimal digits.
fn is_digits(text: &str) -> bool
    ensures { result ≡ list_all is_ascii_digit text.now }
{
    for byte in text.as_bytes() {
        if !byte.is_ascii_digit() {
            return false;
        }
    }
    true
}

/// Returns the number of one to nineteen decimal digits. `None` if the text is anything else.
#[tactic(auto, unfolding(wh_json::specs::Fields::number_in))]
pub fn number_in(text: &str) -> Option<u64>
    ensures { result ≡ number_in text.now }
{
    if text.is_empty() || 19 < text.len() || !is_digits(text) {
        return None;
    }
    text.parse::<u64>().ok()
}

/// Returns the number of one to nineteen decimal digits, if it is below `end`.
pub(crate) fn number_below(end: u64, text: &str) -> Option<u64>
    ensures { result ≡ below end (number_in text.now) }
{
    let number = number_in(text)?;
    if number < end { Some(number) } else { None }
}

/// Returns the seconds of a timer: at most 315,576,000,000, the most of a Protocol Buffers
/// duration.
pub(crate) fn seconds_in(text: &str) -> Option<u64>
    ensures { result ≡ seconds_in text.now }
{
    number_below(315_576_000_001, text)
}

/// Returns the number of a version: -1, or 0 to 2^31 - 1.
pub(crate) fn version_in(text: &str) -> Option<i32>
    ensures { result ≡ version_in text.now }
{
    if text == "-1" {
        return Some(-1);
    }
    let number = number_in(text)?;
    if number < 2_147_483_648 {
        Some(number as i32)
    } else {
        None
    }
}
