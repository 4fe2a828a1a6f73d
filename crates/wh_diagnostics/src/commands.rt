//! A program that has only some of the commands.

ghost use Rattle.std.specs.Prelude.{OnOk};
ghost use Rattle.std.specs.Io.KnownBytes.{Appends};
ghost use Rattle.wh_diagnostics.specs.Commands.{HasLacked, lacking_text};

use std::io;
use std::io::Write;
use wh_console::{Console, Message};
use wh_tester::Shown;

/// The status of a run that asks for a command which the program lacks.
const LACKED: u8 = 2;

/// That the program has only some commands, and not the one that is asked for.
#[derive(Clone, Copy)]
struct Lacking {
    /// What the commands are called.
    commands: &'static str,
}

/// Writes that a program of a name has only these commands.
fn write_lacking<E: Write>(commands: &str, name: &str, writer: &mut E) -> io::Result<()>
    ensures { OnOk result (Appends (E.contents writer.old) (E.contents writer.new)
        (lacking_text commands.now name.now)) }
{
    let name = Shown(name);
    writeln!(writer, "{name}: this program has only {commands}")
}

impl Message for Lacking {
    ghost text = { λ lacking. lacking_text lacking.commands.now };

    fn write<E: Write>(self, name: &str, writer: &mut E) -> io::Result<()> {
        write_lacking(self.commands, name, writer)
    }
}

/// Reports that the program has only these commands, and not the one that is asked for, and returns
/// the status, which is 2.
pub fn lack<O: Write, E: Write>(commands: &'static str, console: &mut Console<'_, O, E>) -> u8
    ensures { HasLacked commands.now console.old console.new result }
{
    console.report(Lacking { commands });
    LACKED
}
