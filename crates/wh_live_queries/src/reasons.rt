//! Describes why a query has no result.

use std::alloc::{AllocError, Global};
use wh_client::AskFault;
use wh_tester::FaultText;

/// Describes why a query has no result that is malformed or whose history could not be read.
pub(crate) fn reason_of(alloc: Global, fault: &AskFault) -> Result<String, AllocError> {
    match fault {
        AskFault::History(fault) => {
            let fault = FaultText(fault);
            format!(in alloc; "{fault}")
        }
        AskFault::Unreadable => String::from_str(alloc, "the query can't be read"),
        AskFault::OutOfMemory => String::from_str(alloc, "out of memory"),
        AskFault::Closed | AskFault::Output | AskFault::Refused { .. } | AskFault::TooManyPages =>
            String::from_str(alloc, "the history of the run can't be fetched"),
    }
}
