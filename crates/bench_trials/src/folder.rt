//! The files of a folder.

use std::rt::Files;
use wh_console::{Input, folder_inputs, read_input};

/// The files of a folder whose names end in `.json`, by name and bytes, in the order of the bytes
/// of their names. `None` if one of them can't be read, for example if a name is not UTF-8.
pub(crate) fn files_of<R: Files + AllocGlobal + Clone + Drop>(
    rt: &R,
    dir: &str,
) -> Option<Vec<(String, Vec<u8>)>> {
    let listing = folder_inputs(rt, dir, false).ok()?;
    if !listing.bad_names.is_empty() {
        return None;
    }
    let mut files = Vec::new(rt.alloc());
    for Input { name, origin } in listing.inputs {
        files.push((name, read_input(rt, origin).ok()?)).ok()?;
    }
    Some(files)
}
