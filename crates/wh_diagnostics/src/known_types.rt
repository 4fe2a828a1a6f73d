//! Reports the workflow types that are registered, if a file has another one.
ghost use Rattle.std.specs.Prelude.{OnOk};
ghost use Rattle.std.specs.Io.KnownBytes.{Appends};
ghost use Rattle.wh_diagnostics.specs.KnownTypes.{known_types_text};

use std::io;
use std::io::Write;
use wh_console::Message;
use wh_tester::Shown;

/// The registered workflow types, which are reported if the workflow type of a file is not among
/// them.
#[derive(Clone, Copy, Debug)]
pub struct KnownTypes<'a> {
    /// The types, as in `Nap, Greet`. If this is empty, nothing is reported.
    pub types: &'a str,
    /// Whether the workflow type of a file is not registered.
    pub lacking: bool,
}

/// Writes which workflow types are registered, if the workflow type of a file is not.
fn write_types<E: Write>(types: &str, lacking: bool, name: &str, writer: &mut E) -> io::Result<()>
    ensures { OnOk result (Appends (E.contents writer.old) (E.contents writer.new)
        (known_types_text types.now lacking name.now)) }
{
    if !lacking || types.is_empty() {
        return Ok(());
    }
    let name = Shown(name);
    writeln!(
        writer,
        "{name}: there is code for the workflow types {types}"
    )
}

impl Message for KnownTypes<'_> {
    ghost text = { λ known. known_types_text known.types.now known.lacking };

    fn write<E: Write>(self, name: &str, writer: &mut E) -> io::Result<()> {
        write_types(self.types, self.lacking, name, writer)
    }
}
