//! Writes lines, one after another.

ghost use Rattle.std.specs.Prelude.{◌≡◌, ◌++◌, ◌∷◌, [], OnOk, OnErr, IsErr, true, false, string_bytes};
ghost use Rattle.std.specs.Io.KnownBytes.{Appends};

use std::io;
use std::io::Write;

/// Writes a line and a line feed, and flushes. After an error part of the line may have been
/// written.
fn write_line<W: Write>(out: &mut W, line: &str) -> io::Result<()>
    ensures { OnOk result (Appends (W.contents out.old) (W.contents out.new) (line.now ++ 10 ∷ [])) }
{
    out.write_all(line.as_bytes())?;
    out.write_all(b"\n")?;
    out.flush()
}

/// Writes lines, and none after one that could not be written.
#[derive(Drop)]
pub(crate) struct Output<W> {
    out: W,
    failed: bool,
}

impl<W: Write> Output<W> {
    /// Returns an output that writes to `out`.
    pub(crate) fn new(out: W) -> Output<W>
        ensures { (result.out ≡ out) × (result.failed ≡ false) }
    {
        Output { out, failed: false }
    }

    /// Writes a line and a line feed, and flushes. Returns false if the line, or one before it,
    /// could not be written: part of it may have been, and nothing is written from then on.
    pub(crate) fn put(&mut self, line: &str) -> bool
        ensures whole { result ≡ true
            → Appends (W.contents self.old.out) (W.contents self.new.out) (line.now ++ 10 ∷ []) }
        ensures works { result ≡ true → (self.old.failed ≡ false) × (self.new.failed ≡ false) }
        ensures fails { result ≡ false → self.new.failed ≡ true }
        ensures stays { self.old.failed ≡ true → (result ≡ false) × (self.new.out ≡ self.old.out) }
    {
        if self.failed {
            return false;
        }
        if write_line(&mut self.out, line).is_err() {
            self.failed = true;
            return false;
        }
        true
    }
}
