//! Lengths of time as texts.

ghost use Rattle.std.specs.Prelude.{Some};
ghost use Rattle.wh_metrics.specs.Times.{milliseconds_text, seconds_text, thousandths};

use std::fmt;

/// Three digits: how many thousandths there are beside whole numbers.
#[derive(Clone, Copy)]
struct Thousandths(u64);

impl fmt::Display for Thousandths {
    ghost output = { λ t. Some (thousandths t.0) };

    fn fmt<W: fmt::Write>(&self, f: &mut fmt::Formatter<W>) -> fmt::Result {
        let hundreds = self.0 / 100 % 10;
        let tens = self.0 / 10 % 10;
        let ones = self.0 % 10;
        write!(f, "{hundreds}{tens}{ones}")
    }
}

/// So many microseconds in milliseconds, with three digits behind the point.
#[derive(Clone, Copy)]
pub(crate) struct Milliseconds(pub(crate) u64);

impl fmt::Display for Milliseconds {
    ghost output = { λ t. Some (milliseconds_text t.0) };

    fn fmt<W: fmt::Write>(&self, f: &mut fmt::Formatter<W>) -> fmt::Result {
        let whole = self.0 / 1000;
        let rest = Thousandths(self.0);
        write!(f, "{whole}.{rest}")
    }
}

/// So many microseconds in seconds, with six digits behind the point.
#[derive(Clone, Copy)]
pub(crate) struct Seconds(pub(crate) u64);

impl fmt::Display for Seconds {
    ghost output = { λ t. Some (seconds_text t.0) };

    fn fmt<W: fmt::Write>(&self, f: &mut fmt::Formatter<W>) -> fmt::Result {
        let whole = self.0 / 1_000_000;
        let milliseconds = Thousandths(self.0 / 1000);
        let rest = Thousandths(self.0);
        write!(f, "{whole}.{milliseconds}{rest}")
    }
}
