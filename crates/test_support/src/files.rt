//! Files of histories in short words, and reports of them.

use crate::histories::{HistoryFault, json};
use std::alloc::Global;
use std::io::Write;

/// Returns the bytes of a file of this history; none if the history is empty. The fault is that of
/// its words.
pub fn bytes_of(alloc: Global, history: &'static str) -> Result<Vec<u8>, HistoryFault> {
    if history.is_empty() {
        return Ok(Vec::new(alloc));
    }
    Ok(json(alloc, history)?.into_bytes())
}

/// Returns a report followed by its status. `None` if it is not a text, or an allocation was
/// refused.
pub fn with_status(mut report: Vec<u8>, status: u8) -> Option<String> {
    write!(report, "status {status}").ok()?;
    String::from_utf8(report).ok()
}
