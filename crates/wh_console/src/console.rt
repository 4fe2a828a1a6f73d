//! The console.

ghost use Rattle.std.specs.Prelude.{◌≡◌, List, None, OnOk, false, true};
ghost use Rattle.std.specs.Io.KnownBytes.{Appends};
ghost use Rattle.wh_console.specs.Consoles.{Reported};

use crate::outlet::Outlet;
use std::io;
use std::io::Write;
use std::marker::Model;

/// A message that a program reports on its standard error.
pub trait Message {
    ghost use Rattle.std.specs.Prelude.{ℕ, List, OnOk};
    ghost use Rattle.std.specs.Io.KnownBytes.{Appends};

    /// The text that is reported, from the name by which the program was called.
    ghost text: { Self → List ℕ → List ℕ };

    /// Writes the text. After an error part of it may have been written.
    fn write<E: Write>(self, name: &str, writer: &mut E) -> io::Result<()>
        ensures { OnOk result (Appends (E.contents writer.old) (E.contents writer.new) (text self name.now)) };
}

/// The standard output and the standard error of a program, and the name by which it was called.
/// Contracts see the name, what each of the two streams has received (where that is known), whether
/// the reader of the output closed it, and whether every message was written in full.
#[derive(Drop)]
pub struct Console<'a, O: Write, E: Write> {
    name: &'a str,
    /// The standard output.
    pub output: Outlet<O>,
    errors: E,
    whole: bool,
}

impl<'a, O: Write, E: Write> Model for Console<'a, O, E> {
    ghost use Rattle.wh_console.specs.Consoles.{ConsoleView};

    ghost Value = { ConsoleView };

    ghost view = { λ c. record {
      name = c.name.now;
      output = O.contents c.output.writer;
      closed = c.output.closed;
      errors = E.contents c.errors;
      whole = c.whole;
    } };
}

impl<'a, O: Write, E: Write> Console<'a, O, E> {
    /// Returns a console to which nothing was written or reported yet.
    pub fn new(name: &'a str, output: O, errors: E) -> Console<'a, O, E>
        ensures { result ≡ record {
          name = name.entry.now;
          output = O.contents output;
          closed = false;
          errors = E.contents errors;
          whole = true;
        } }
    {
        Console {
            name,
            output: Outlet::new(output),
            errors,
            whole: true,
        }
    }

    /// Returns whether the reader of the output closed it.
    pub fn is_closed(&self) -> bool
        ensures { result ≡ self.now.closed }
    {
        self.output.is_closed()
    }

    /// Reports a message. An error of the standard error is not returned: the console only notes
    /// that a message was not written in full.
    pub fn report<M: Message>(&mut self, message: M)
        ensures { Reported self.old self.new (M.text message) }
    {
        match message.write(self.name, &mut self.errors) {
            Ok(()) => {}
            Err(_) => self.whole = false,
        }
    }
}
