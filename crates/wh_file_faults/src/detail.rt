//! The detail of a file's fault.

ghost use Rattle.std.specs.Prelude.{◌≡◌, IfErr, IfOk, true};
ghost use Rattle.wh_file_faults.specs.Details.{IsDetailBy, IsJsonDetail, IsUnreadDetail, detail_of, has_detail, is_parsed_again};
ghost use Rattle.wh_json.specs.declared.fault.ReadFault.TheVariants.{BadJson};

use crate::fields::lacks;
use crate::places::contradiction_at;
use crate::position::{EncodingMark, Position, mark_of, position_of};
use std::alloc::Global;
use wh_events::{EventNo, OutOfMemory, Text};
use wh_json::ReadFault;
use wh_replay::Fault;
use wh_tester::Verdict;

/// What the report of a fault does not name. An event is given by its place in the history, counted
/// from 1. As a text it is that in words.
#[derive(Drop)]
pub enum FaultDetail {
    /// The file is not JSON.
    NotJson {
        /// Where the reader stops.
        position: Position,
        /// What the file begins with, if that is not JSON text in UTF-8.
        mark: Option<EncodingMark>,
    },
    /// The event lacks a field.
    Lacks {
        /// The place of the event.
        at: u64,
        /// The field: `eventTime`, or a path within the event's attributes.
        field: Text,
    },
    /// The event follows one that closes the run.
    Follows {
        /// The place of the event.
        at: u64,
        /// The number of the event that closes the run.
        close: EventNo,
    },
    /// The event refers to another event by its number.
    Refers {
        /// The place of the event.
        at: u64,
        /// The number of the event to which it refers.
        number: u64,
    },
    /// The event names a child workflow by its workflow id.
    Names {
        /// The place of the event.
        at: u64,
        /// The workflow id.
        workflow_id: Text,
    },
}

/// Returns where bytes are not JSON, if they are not. `OutOfMemory` if there was no memory to read
/// them.
#[tactic(auto, using(crate::proofs::Documents::is_there))]
pub fn json_detail(alloc: Global, bytes: &[u8]) -> Result<Option<FaultDetail>, OutOfMemory>
    ensures { IfOk result (IsJsonDetail bytes.now) }
{
    let mark = mark_of(bytes);
    match position_of(alloc, bytes)? {
        Some(position) => Ok(Some(FaultDetail::NotJson { position, mark })),
        None => Ok(None),
    }
}

/// Returns where bytes are not JSON, if that is the verdict on them. They are read a second time
/// then, and only then. `OutOfMemory` if there was no memory for that.
pub fn unread_detail(
    alloc: Global,
    verdict: &Verdict,
    bytes: &[u8],
) -> Result<Option<FaultDetail>, OutOfMemory>
    ensures detail { IfOk result (IsUnreadDetail verdict.now bytes.now) }
    ensures memory { IfErr result (λ _. verdict.now ≡ Verdict.Unreadable BadJson) }
{
    match verdict {
        Verdict::Unreadable(ReadFault::BadJson) => json_detail(alloc, bytes),
        _ => Ok(None),
    }
}

/// Returns the detail of an event of which a verdict is the fault, from the bytes of the file: the
/// field that it lacks, the event that closed the run before it, or what it refers to. The bytes
/// are read again for these verdicts only. Returns `OutOfMemory` if there is no memory for that.
pub fn detail_of(
    alloc: Global,
    verdict: &Verdict,
    bytes: &[u8],
) -> Result<Option<FaultDetail>, OutOfMemory>
    ensures detail { IfOk result (λ detail. detail ≡ detail_of verdict.now bytes.now) }
    ensures memory { IfErr result (λ _. has_detail verdict.now ≡ true) }
{
    match verdict {
        Verdict::Unreadable(ReadFault::MissingField { at }) => lacks(alloc, bytes, *at),
        Verdict::Faulty(Fault::Place { at, fault }) => contradiction_at(alloc, bytes, *at, *fault),
        _ => Ok(None),
    }
}

/// Returns the detail of a file's fault from its verdict and its bytes: where it is not JSON, or what
/// the fault omits of an event. The bytes are read again then. Returns `OutOfMemory` if there is no
/// memory for that.
pub fn file_detail(
    alloc: Global,
    verdict: &Verdict,
    bytes: &[u8],
) -> Result<Option<FaultDetail>, OutOfMemory>
    ensures detail { IfOk result (IsDetailBy verdict.now bytes.now) }
    ensures memory { IfErr result (λ _. is_parsed_again verdict.now ≡ true) }
{
    match verdict {
        Verdict::Unreadable(ReadFault::BadJson) => unread_detail(alloc, verdict, bytes),
        _ => detail_of(alloc, verdict, bytes),
    }
}
