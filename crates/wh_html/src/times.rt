//! Times and spans of time, as text.

ghost use Rattle.std.specs.Prelude.{◌≡◌, ◌<◌, Some};
ghost use Rattle.wh_html.specs.Times.{two, years_before, year_of, month_of, day_of, fraction_text, clock_text, stamp_text};
ghost use Rattle.wh_html.specs.Times.{pair_text, brief_text, units_text, long_text, span_text};

use std::fmt;

/// The latest time that is written: the end of the year 9999, in milliseconds from
/// 1970-01-01T00:00:00Z.
pub const LAST_TIME: u64 = 253_402_300_799_999;

/// A date of the calendar.
#[derive(Clone, Copy)]
struct Date {
    year: u64,
    month: u64,
    day: u64,
}

/// A number below 100, as two digits.
#[derive(Clone, Copy)]
struct Two(u64);

impl fmt::Display for Two {
    ghost output = { λ t. Some (two t.0) };

    fn fmt<W: fmt::Write>(&self, f: &mut fmt::Formatter<W>) -> fmt::Result {
        let tens = self.0 / 10;
        let ones = self.0 % 10;
        write!(f, "{tens}{ones}")
    }
}

/// Returns the whole years before a day of an era: of 400 years that begin on a first of March.
fn years_before(day: u64) -> u64
    requires { day < 146_097 }
    ensures { result ≡ years_before day }
{
    (day + day / 36_524).saturating_sub(day / 1_460 + day / 146_096) / 365
}

/// Returns the date of a day, counted from 1970-01-01. Years are counted from March on, so that a
/// leap day is the last of its year.
fn date_of(day: u64) -> Date
    requires { day < 3_000_000 }
    ensures year { result.year ≡ year_of day }
    ensures month { result.month ≡ month_of day }
    ensures day { result.day ≡ day_of day }
{
    let since = day + 719_468;
    let in_era = since % 146_097;
    let years = years_before(in_era);
    let in_year = (in_era + years / 100).saturating_sub(365 * years + years / 4);
    let months = (5 * in_year + 2) / 153;
    let day = (in_year + 1).saturating_sub((153 * months + 2) / 5);
    let year = since / 146_097 * 400 + years;
    if months < 10 {
        Date {
            year,
            month: months + 3,
            day,
        }
    } else {
        Date {
            year: year + 1,
            month: months - 9,
            day,
        }
    }
}

/// A fraction of a second in milliseconds, if there is one: `.250`.
#[derive(Clone, Copy)]
struct Fraction(u64);

impl fmt::Display for Fraction {
    ghost output = { λ t. Some (fraction_text t.0) };

    fn fmt<W: fmt::Write>(&self, f: &mut fmt::Formatter<W>) -> fmt::Result {
        if self.0 == 0 {
            return Ok(());
        }
        let tens = Two(self.0 / 10);
        let ones = self.0 % 10;
        write!(f, ".{tens}{ones}")
    }
}

/// The time of day of a time in milliseconds, in UTC.
#[derive(Clone, Copy)]
struct Clock(u64);

impl fmt::Display for Clock {
    ghost output = { λ t. Some (clock_text t.0) };

    #[tactic(auto, unfolding(crate::specs::Times::clock_text))]
    fn fmt<W: fmt::Write>(&self, f: &mut fmt::Formatter<W>) -> fmt::Result {
        let hour = Two(self.0 / 3_600_000 % 24);
        let minute = Two(self.0 / 60_000 % 60);
        let second = Two(self.0 / 1_000 % 60);
        let fraction = Fraction(self.0 % 1_000);
        write!(f, "{hour}:{minute}:{second}{fraction}")
    }
}

/// A time in milliseconds from 1970-01-01T00:00:00Z, in UTC, as the JSON of histories has times:
/// `2024-05-01T10:00:03.250Z`, with no fraction if it is a whole second
/// (<https://protobuf.dev/programming-guides/json/>). A time later than `LAST_TIME` is written as
/// `LAST_TIME`.
#[derive(Clone, Copy)]
pub struct Stamp(pub u64);

impl fmt::Display for Stamp {
    ghost output = { λ t. Some (stamp_text t.0) };

    #[tactic(auto, unfolding(crate::specs::Times::instant_text))]
    fn fmt<W: fmt::Write>(&self, f: &mut fmt::Formatter<W>) -> fmt::Result {
        let millis = self.0.min(LAST_TIME);
        let date = date_of(millis / 86_400_000);
        let year = date.year;
        let month = Two(date.month);
        let day = Two(date.day);
        let clock = Clock(millis);
        write!(f, "{year}-{month}-{day}T{clock}Z")
    }
}

/// A span of time by two units, the smaller one only if there are some of it: `5 min 33 s`, `14 d`.
#[derive(Clone, Copy)]
struct UnitPair {
    large: u64,
    unit: &'static str,
    small: u64,
    part: &'static str,
}

impl fmt::Display for UnitPair {
    ghost output = { λ p. Some (pair_text p.large p.unit.now p.small p.part.now) };

    fn fmt<W: fmt::Write>(&self, f: &mut fmt::Formatter<W>) -> fmt::Result {
        let large = self.large;
        let unit = self.unit;
        let small = self.small;
        let part = self.part;
        if small == 0 {
            write!(f, "{large} {unit}")
        } else {
            write!(f, "{large} {unit} {small} {part}")
        }
    }
}

/// A span of time below ten seconds, in milliseconds: `80 ms`, `0.3 s`.
#[derive(Clone, Copy)]
struct BriefSpan(u64);

impl fmt::Display for BriefSpan {
    ghost output = { λ b. Some (brief_text b.0) };

    fn fmt<W: fmt::Write>(&self, f: &mut fmt::Formatter<W>) -> fmt::Result {
        let millis = self.0;
        if millis < 100 {
            return write!(f, "{millis} ms");
        }
        let seconds = millis / 1_000;
        let tenths = millis % 1_000 / 100;
        write!(f, "{seconds}.{tenths} s")
    }
}

/// Returns a span of a minute or more, in seconds, by its two largest units.
fn unit_pair(seconds: u64) -> UnitPair
    ensures { pair_text result.large result.unit.now result.small result.part.now ≡ units_text seconds }
{
    if seconds < 3_600 {
        UnitPair {
            large: seconds / 60,
            unit: "min",
            small: seconds % 60,
            part: "s",
        }
    } else if seconds < 86_400 {
        UnitPair {
            large: seconds / 3_600,
            unit: "h",
            small: seconds / 60 % 60,
            part: "min",
        }
    } else {
        UnitPair {
            large: seconds / 86_400,
            unit: "d",
            small: seconds / 3_600 % 24,
            part: "h",
        }
    }
}

/// A span of time of ten seconds or more, in seconds.
#[derive(Clone, Copy)]
struct LongSpan(u64);

impl fmt::Display for LongSpan {
    ghost output = { λ l. Some (long_text l.0) };

    fn fmt<W: fmt::Write>(&self, f: &mut fmt::Formatter<W>) -> fmt::Result {
        let seconds = self.0;
        if seconds < 60 {
            return write!(f, "{seconds} s");
        }
        let pair = unit_pair(seconds);
        write!(f, "{pair}")
    }
}

/// A span of time in milliseconds, rounded down to what is shown: `0.3 s`, `5 min 33 s`, `14 d`.
#[derive(Clone, Copy)]
pub struct SpanText(pub u64);

impl fmt::Display for SpanText {
    ghost output = { λ t. Some (span_text t.0) };

    #[tactic(auto, unfolding(crate::specs::Times::span_text))]
    fn fmt<W: fmt::Write>(&self, f: &mut fmt::Formatter<W>) -> fmt::Result {
        let millis = self.0;
        if millis < 10_000 {
            let brief = BriefSpan(millis);
            return write!(f, "{brief}");
        }
        let long = LongSpan(millis / 1_000);
        write!(f, "{long}")
    }
}
