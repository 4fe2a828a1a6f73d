//! The file at a path.

ghost use Rattle.std.specs.Prelude.{IfErr, IfOk};
ghost use Rattle.wh_diagnostics.specs.Files.{IsFileAt, IsInputAt, IsUnreadFile};
ghost use Rattle.wh_diagnostics.specs.Listings.{IsUnreadAt};

use crate::failures::{Failure, unreadable_path};
use crate::readings::{InputReader, file_from};
use std::io;
use wh_console::{Input, input_at};
use wh_events::Text;

/// Returns the input at a path, or the standard input. `Unreadable` if the path names neither, as
/// one that names a folder.
fn input_of<R: io::Input + AllocGlobal>(rt: &R, path: Text) -> Result<Input, Failure>
    ensures found { IfOk result (IsInputAt path) }
    ensures refused { IfErr result (IsUnreadAt path) }
{
    match input_at(rt, path.get(), false) {
        Ok(input) => Ok(input),
        Err(fault) => Err(unreadable_path(path, fault)),
    }
}

/// Returns the file at a path, or the standard input, with its name. `Unreadable` if the path names
/// neither, as one that names a folder, or if what it names can't be read. Other than `OutOfMemory`
/// there is no failure but this.
pub fn file_at<R: InputReader + io::Input + AllocGlobal>(
    rt: &R,
    path: Text,
) -> Result<(String, Vec<u8>), Failure>
    ensures read { IfOk result (IsFileAt R.gives path) }
    ensures unread { IfErr result (IsUnreadFile path) }
{
    let input = input_of(rt, path)?;
    let file = file_from(rt, input)?;
    Ok(file)
}
