//! Reads lengths of time, as the JSON of histories writes them.

ghost use Rattle.std.specs.Prelude.{◌≡◌};
ghost use Rattle.std.specs.Char.{is_ascii_digit};
ghost use Rattle.std.specs.List.{list_all};
ghost use Rattle.wh_json.specs.Fields.{number_in};
ghost use Rattle.wh_times.specs.Durations as durations;

/// The most seconds of a duration (<https://protobuf.dev/reference/protobuf/google.protobuf/#duration>).
const MOST_SECONDS: u64 = 315_576_000_000;

/// Returns whether the text has only decimal digits.
fn is_digits(text: &str) -> bool
    ensures { result ≡ list_all is_ascii_digit text.now }
{
    text.as_bytes().iter().all(|byte| byte.is_ascii_digit())
}

/// Returns the number that a text of one to nineteen decimal digits denotes, or `None` for any
/// other text.
#[tactic(auto, unfolding(wh_json::specs::Fields::number_in))]
fn digits_in(text: &str) -> Option<u64>
    ensures { result ≡ number_in text.now }
{
    if text.is_empty() || 19 < text.len() || !is_digits(text) {
        return None;
    }
    text.parse::<u64>().ok()
}

/// Returns what stands before the unit `s`, or the whole text if there is none.
fn before_unit(text: &str) -> &str
    ensures { result.now ≡ durations.before_unit text.now }
{
    match text.split_once('s') {
        Some((digits, _)) => digits,
        None => text,
    }
}

/// Returns what stands before the point, or the whole text if there is none.
fn whole_part(digits: &str) -> &str
    ensures { result.now ≡ durations.whole_part digits.now }
{
    match digits.split_once('.') {
        Some((whole, _)) => whole,
        None => digits,
    }
}

/// Returns what stands after the point, or an empty text if there is none.
fn fraction(digits: &str) -> &str
    ensures { result.now ≡ durations.fraction digits.now }
{
    match digits.split_once('.') {
        Some((_, rest)) => rest,
        None => "",
    }
}

/// Returns the thousandths of a fraction of these digits, rounded down. There are none, or 3, 6 or
/// 9.
fn thousandths(digits: &str) -> Option<u64>
    ensures { result ≡ durations.thousandths digits.now }
{
    match digits.len() {
        0 => Some(0),
        3 => digits_in(digits),
        6 => Some(digits_in(digits)? / 1_000),
        9 => Some(digits_in(digits)? / 1_000_000),
        _ => None,
    }
}

/// Returns so many seconds and thousandths of a second in milliseconds. `None` if there are more
/// seconds than a duration can have, or more than 999 thousandths.
fn in_milliseconds(seconds: u64, parts: u64) -> Option<u64>
    ensures { result ≡ durations.in_milliseconds seconds parts }
{
    if seconds <= MOST_SECONDS && parts < 1_000 {
        Some(seconds * 1_000 + parts)
    } else {
        None
    }
}

/// Returns the length of time that a text denotes, in milliseconds, rounded down: a number of
/// seconds, perhaps a point and 3, 6 or 9 further digits, and the unit `s`, as proto3 JSON writes a
/// duration. `None` for any other text, also for a negative duration; but the unit, and what stands
/// behind it, is not looked at.
pub fn duration_in(text: &str) -> Option<u64>
    ensures { result ≡ durations.duration_in text.now }
{
    let digits = before_unit(text);
    let seconds = digits_in(whole_part(digits))?;
    let parts = thousandths(fraction(digits))?;
    in_milliseconds(seconds, parts)
}
