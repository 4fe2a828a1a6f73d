//! A writer whose reader may close it, such as a pipe.

ghost use Rattle.std.specs.Prelude.{◌≡◌, ◌⊎◌, ◌↔◌, IsTrue, false};
ghost use Rattle.wh_console.specs.Private.Outlets.{SaysClosed};

use std::io;
use std::io::{ErrorKind, Write};

/// A writer that remembers whether its reader closed it.
#[derive(Drop)]
pub struct Outlet<O> {
    writer: O,
    closed: bool,
}

/// Returns whether the result of a write says that the reader closed the writer.
fn says_closed<T>(answer: &io::Result<T>) -> bool
    ensures { IsTrue result ↔ SaysClosed answer.now }
{
    match answer {
        Ok(_) => false,
        Err(error) => error.kind() == ErrorKind::BrokenPipe,
    }
}

impl<O> Outlet<O> {
    /// Wraps a writer that is not known to be closed.
    pub fn new(writer: O) -> Outlet<O>
        ensures writer { result.writer ≡ writer }
        ensures open { result.closed ≡ false }
    {
        Outlet {
            writer,
            closed: false,
        }
    }

    /// Returns whether a write or a flush has reported that the reader closed it
    /// (`ErrorKind::BrokenPipe`).
    pub fn is_closed(&self) -> bool
        ensures { result ≡ self.now.closed }
    {
        self.closed
    }

    /// Notes whether the result of a write says that the writer is closed.
    fn note<T>(&mut self, answer: &io::Result<T>)
        ensures writer { self.new.writer ≡ self.old.writer }
        ensures closed { IsTrue self.new.closed ↔ (IsTrue self.old.closed ⊎ SaysClosed answer.now) }
    {
        if says_closed(answer) {
            self.closed = true;
        }
    }
}

impl<O: Write> Write for Outlet<O> {
    ghost contents = { λ outlet. O.contents outlet.writer };

    fn write(&mut self, buf: &[u8]) -> io::Result<usize> {
        let answer = self.writer.write(buf);
        self.note(&answer);
        answer
    }

    fn flush(&mut self) -> io::Result<()> {
        let answer = self.writer.flush();
        self.note(&answer);
        answer
    }

    fn write_all(&mut self, buf: &[u8]) -> io::Result<()> {
        let answer = self.writer.write_all(buf);
        self.note(&answer);
        answer
    }
}
