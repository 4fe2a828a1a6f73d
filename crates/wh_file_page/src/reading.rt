//! A history file is read for its page. Its text is parsed once.

ghost use Rattle.std.specs.Prelude.{◌≡◌, ◌≢◌, ℕ, Err, IfOk, List, Ok, map};
ghost use Rattle.serde_json.specs.View.{view};
ghost use Rattle.wh_file_page.specs.Readings.{IsReadAs};
ghost use Rattle.wh_json.specs.Events.{document_within};
ghost use Rattle.wh_json.specs.declared.fault.ReadFault.{ReadFault};
ghost use Rattle.wh_view.specs.Views.{IsViewIn, members_of};

use crate::fault::PageFault;
use serde_json::Value;
use std::alloc::Global;
use wh_events::Event;
use wh_json::{ReadFault, events_in, read_document, read_members};
use wh_view::{View, view_members};

/// What is read of a file.
#[derive(Drop)]
pub(crate) struct FileReading {
    /// Its view.
    pub(crate) view: View,
    /// The result of reading its history, which is not read if only what is recorded is asked for.
    pub(crate) read: Option<Result<Vec<Event>, ReadFault>>,
}

/// The JSON value of bytes.
fn document_of(alloc: Global, bytes: &[u8]) -> Result<Value, PageFault>
    ensures document { IfOk result (λ document. document_within bytes.now ≡ Ok (view document)) }
    ensures unviewed { (fault : ReadFault) → result ≡ Err (PageFault.Unviewed fault)
        → document_within bytes.now ≡ Err fault }
    ensures output { result ≢ Err PageFault.Output }
{
    match read_document(alloc, bytes) {
        Ok(document) => Ok(document),
        Err(ReadFault::OutOfMemory) => Err(PageFault::OutOfMemory),
        Err(fault) => Err(PageFault::Unviewed(fault)),
    }
}

/// Reads a history from its members, unless only what is recorded is asked for.
fn read_as(
    alloc: Global,
    members: &[Value],
    only_recorded: bool,
) -> Option<Result<Vec<Event>, ReadFault>>
    ensures { (bytes : List ℕ) → members_of bytes ≡ Ok (map view members.now)
        → IsReadAs only_recorded bytes result }
{
    if only_recorded {
        None
    } else {
        Some(read_members(alloc, members))
    }
}

/// Reads a file.
pub(crate) fn read_file(
    alloc: Global,
    bytes: &[u8],
    only_recorded: bool,
) -> Result<FileReading, PageFault>
    ensures view { IfOk result (λ file. IsViewIn bytes.now file.view) }
    ensures read { IfOk result (λ file. IsReadAs only_recorded bytes.now file.read) }
    ensures unviewed { (fault : ReadFault) → result ≡ Err (PageFault.Unviewed fault)
        → members_of bytes.now ≡ Err fault }
    ensures output { result ≢ Err PageFault.Output }
{
    let document = document_of(alloc, bytes)?;
    let Some(members) = events_in(&document) else {
        return Err(PageFault::Unviewed(ReadFault::NoEvents));
    };
    let view = view_members(alloc, members)?;
    let read = read_as(alloc, members, only_recorded);
    Ok(FileReading { view, read })
}
