//! The standard error, as a writer.

use std::io;
use std::io::{Eprint, ErrorKind, Write};

/// The standard error, as a writer. It accepts only UTF-8: for other bytes it returns
/// `ErrorKind::InvalidData` and writes none of them.
#[derive(Drop)]
pub struct ErrorPrinter<'a, R> {
    to: &'a R,
}

impl<'a, R> ErrorPrinter<'a, R> {
    /// Returns a writer to the standard error of a runtime.
    pub fn new(to: &'a R) -> ErrorPrinter<'a, R> {
        ErrorPrinter { to }
    }
}

impl<R: Eprint> Write for ErrorPrinter<'_, R> {
    fn write(&mut self, buf: &[u8]) -> io::Result<usize> {
        match std::str::from_utf8(buf) {
            Ok(text) => {
                self.to.eprint(text)?;
                Ok(buf.len())
            }
            Err(_) => Err(io::Error::from(ErrorKind::InvalidData)),
        }
    }

    fn flush(&mut self) -> io::Result<()> {
        Ok(())
    }
}
