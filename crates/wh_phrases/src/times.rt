//! Writes times as text.

ghost use Rattle.std.specs.Prelude.{◌≡◌, Some};
ghost use Rattle.wh_json.specs.Fields.{time_of};
ghost use Rattle.wh_phrases.specs.Times.{instant_text, places_of, time_text};

use arrayvec::ArrayString;
use jiff_core::Timestamp;
use jiff_fmt::temporal::DateTimePrinter;
use std::fmt;

/// Returns how many decimal places a fraction of so many billionths needs: none, 3, 6 or 9.
fn places_of(fraction: u32) -> u8
    ensures { result ≡ places_of fraction }
{
    if fraction == 0 {
        0
    } else if fraction % 1_000_000 == 0 {
        3
    } else if fraction % 1_000 == 0 {
        6
    } else {
        9
    }
}

/// Returns an instant in UTC as text. The reader of histories reads it as the same instant.
fn instant_text(time: Timestamp) -> ArrayString<33>
    ensures text { result.bytes ≡ instant_text time.nanosecond }
    ensures reads { time_of result.bytes ≡ Some time.nanosecond }
{
    let fraction = time.nanosecond.rem_euclid(1_000_000_000) as u32;
    let printer = DateTimePrinter::new().precision(Some(places_of(fraction)));
    printer.timestamp_text(time)
}

/// A time in nanoseconds from 1970-01-01T00:00:00Z, as RFC 3339 writes it.
#[derive(Clone, Copy)]
pub(crate) struct TimeText(pub(crate) i128);

impl fmt::Display for TimeText {
    ghost output = { λ t. Some (time_text t.0) };

    fn fmt<W: fmt::Write>(&self, f: &mut fmt::Formatter<W>) -> fmt::Result {
        match Timestamp::from_nanosecond(self.0) {
            Ok(time) => {
                let text = instant_text(time);
                let text = text.as_str();
                write!(f, "{text}")
            }
            Err(_) => {
                let time = self.0;
                write!(f, "{time} ns")
            }
        }
    }
}
