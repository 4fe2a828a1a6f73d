//! Where bytes are not JSON.

ghost use Rattle.std.specs.Prelude.{◌≡◌, IfOk, is_none, is_some};
ghost use Rattle.wh_file_faults.specs.Details.{mark_of};
ghost use Rattle.wh_json.specs.Fields.{document};

use serde_json::Value;
use serde_json::error::Category;
use std::alloc::Global;
use wh_events::OutOfMemory;

/// A place in bytes: where the reader of JSON stops.
#[derive(Clone, Copy, Debug, Drop, PartialEq, Eq)]
pub struct Position {
    /// The line, from 1.
    pub line: usize,
    /// The byte in the line, from 1. If the bytes end too soon, it is the last byte of the line,
    /// and 0 if the line has none.
    pub column: usize,
}

/// What bytes begin with that are not JSON text in UTF-8.
#[derive(Clone, Copy, Debug, Drop, PartialEq, Eq)]
pub enum EncodingMark {
    /// The byte order mark of UTF-8, which a JSON text may not begin with.
    ByteOrderMark,
    /// That of UTF-16.
    Utf16,
}

/// The mark that bytes begin with, if they begin with one.
pub(crate) fn mark_of(bytes: &[u8]) -> Option<EncodingMark>
    ensures { result ≡ mark_of bytes.now }
{
    if bytes.starts_with(&[0xEF, 0xBB, 0xBF]) {
        Some(EncodingMark::ByteOrderMark)
    } else if bytes.starts_with(&[0xFE, 0xFF]) || bytes.starts_with(&[0xFF, 0xFE]) {
        Some(EncodingMark::Utf16)
    } else {
        None
    }
}

/// Where the reader of JSON stops, if it does not read the bytes, however many there are.
pub(crate) fn position_of(alloc: Global, bytes: &[u8]) -> Result<Option<Position>, OutOfMemory>
    ensures { IfOk result (λ position. is_some position ≡ is_none (document bytes.now)) }
{
    let Err(error) = Value::from_slice(alloc, bytes) else {
        return Ok(None);
    };
    match error.classify() {
        Category::Memory => Err(OutOfMemory),
        _ => Ok(Some(Position {
            line: error.line(),
            column: error.column(),
        })),
    }
}
