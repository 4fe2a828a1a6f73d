//! What is read of inputs.

ghost use Rattle.std.specs.Prelude.{IfErr, IfOk};
ghost use Rattle.wh_console.specs.Inputs.{IsUnreadFrom};
ghost use Rattle.wh_diagnostics.specs.Readings.{IsReadAs};

use std::rt::Files;
use wh_console::{Input, InputFault, Origin, read_input};

/// What reads inputs. A function over it knows of no bytes but those that it is given here.
pub trait InputReader {
    ghost use Rattle.std.specs.Prelude.{IfErr, IfOk};
    ghost use Rattle.wh_console.specs.Inputs.{IsUnreadFrom};
    ghost use Rattle.wh_diagnostics.specs.Readings.{Gives};

    /// Which bytes there may be where an input comes from.
    ghost gives: { Gives };

    /// Returns the bytes of an input, by where it comes from. `Unreadable` if it can't be read.
    fn read(&self, origin: Origin) -> Result<Vec<u8>, InputFault>
        ensures bytes { IfOk result (gives origin) }
        ensures unread { IfErr result (IsUnreadFrom origin) };
}

impl<R: Files + AllocGlobal> InputReader for R {
    ghost use Rattle.wh_console.specs.Inputs.{IsReadFrom};

    ghost gives = { IsReadFrom };

    fn read(&self, origin: Origin) -> Result<Vec<u8>, InputFault> {
        read_input(self, origin)
    }
}

/// Returns an input as a file: its name, and the bytes that are read of it. `Unreadable` if it
/// can't be read.
pub fn file_from<R: InputReader>(rt: &R, input: Input) -> Result<(String, Vec<u8>), InputFault>
    ensures read { IfOk result (IsReadAs R.gives input) }
    ensures unread { IfErr result (IsUnreadFrom input.origin) }
{
    let Input { name, origin } = input;
    let bytes = rt.read(origin)?;
    Ok((name, bytes))
}
