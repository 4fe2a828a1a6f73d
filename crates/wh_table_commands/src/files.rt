//! Reads files of tables.

ghost use Rattle.std.specs.Prelude.{◌≡◌, IfErr, IfOk};
ghost use Rattle.wh_diagnostics.specs.Readings.{IsUnread};
ghost use Rattle.wh_table_commands.specs.Files.{IsTableOf, table_of};

use wh_console::Input;
use wh_diagnostics::{Failure, InputReader, file_from};
use wh_events::{Items, Text};

/// A file that has been read.
#[derive(Drop)]
pub struct TableFile {
    /// Its name.
    pub name: Text,
    /// Its bytes.
    pub bytes: Items<u8>,
}

/// A file as that of a table.
pub(crate) fn table_of(file: (String, Vec<u8>)) -> TableFile
    ensures { result ≡ table_of file }
{
    let (name, bytes) = file;
    TableFile {
        name: Text::new(name),
        bytes: Items::new(bytes),
    }
}

/// Reads an input as the file of a table.
pub(crate) fn table_file<R: InputReader>(rt: &R, input: Input) -> Result<TableFile, Failure>
    ensures read { IfOk result (IsTableOf R.gives input) }
    ensures why { IfErr result (IsUnread input) }
{
    let file = file_from(rt, input)?;
    Ok(table_of(file))
}
