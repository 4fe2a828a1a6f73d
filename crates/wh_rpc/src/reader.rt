//! Reads the lines that the bridge writes.

ghost use Rattle.std.specs.Prelude.{◌≡◌, true, IfSome, if◌then◌else◌};
ghost use Rattle.wh_rpc.specs.Private.Losses.{EndsAtLoss, IsFollowed, may_be_response};

use crate::bad_line::BadLine;
use crate::calls::Caller;
use crate::input::next_line;
use crate::response::{RpcMessage, read_line};
use std::alloc::Global;
use std::fmt::Display;
use std::io::BufRead;
use std::sync::Wait;
use thiserror::Error;

/// How many skipped lines are reported one by one.
const MOST_REPORTED: u64 = 100;

/// Why a line is skipped, or ends the connection.
#[derive(Debug, Drop, Error)]
enum Unused {
    /// It is malformed.
    #[error("is passed over: {0}")]
    Unread(BadLine),
    /// It is a response, and no call of its id is open.
    #[error("is passed over: no call waits for id {id}")]
    NotOpen { id: u64 },
    /// It is malformed, and may have been a response.
    #[error("ends the connection: {0}")]
    Lost(BadLine),
}

/// Returns whether a malformed line may have been a response, whose call would then wait forever:
/// it is too long, there was no memory for it, or it begins with `{` and is not UTF-8, is not JSON,
/// or has a number that is out of range.
fn may_be_response(fault: BadLine, bytes: &[u8]) -> bool
    ensures { result ≡ may_be_response fault bytes.now }
{
    match fault {
        BadLine::TooLong | BadLine::OutOfMemory => true,
        BadLine::NotUtf8 | BadLine::NotJson | BadLine::NumberOutOfRange => bytes.first()
            == Some(&b'{'),
        BadLine::NotObject
        | BadLine::NotResponse
        | BadLine::TwoOutcomes
        | BadLine::BadId
        | BadLine::NoOutcome
        | BadLine::BadError => false,
    }
}

/// Delivers a response, or lets polls fail after a shutdown.
fn act_on<R: Wait, C: Caller>(rt: &R, calls: &C, line: RpcMessage) -> Result<(), Unused> {
    match line {
        RpcMessage::Shutdown => {
            calls.shut_down(rt);
            Ok(())
        }
        RpcMessage::Response(response) => {
            let id = response.id;
            if calls.deliver(rt, response) {
                Ok(())
            } else {
                Err(Unused::NotOpen { id })
            }
        }
    }
}

/// Returns whether a malformed line is skipped or ends the connection.
fn unusable_line(fault: BadLine, bytes: &[u8]) -> Unused
    ensures { result ≡ (if may_be_response fault bytes.now then Unused.Lost fault else Unused.Unread fault) }
{
    if may_be_response(fault, bytes) {
        Unused::Lost(fault)
    } else {
        Unused::Unread(fault)
    }
}

/// Reads a line and does what it says.
fn take_line<R: Wait, C: Caller>(
    rt: &R,
    alloc: Global,
    calls: &C,
    bytes: &[u8],
) -> Result<(), Unused>
    ensures { EndsAtLoss bytes.now result }
{
    match read_line(alloc, bytes) {
        Ok(line) => act_on(rt, calls, line),
        Err(fault) => Err(unusable_line(fault, bytes)),
    }
}

/// How many lines were read, and how many of them were not used.
#[derive(Drop)]
struct LineCounts {
    lines: u64,
    unused: u64,
}

/// Counts a line that is not used, and reports why on standard error, if fewer than `MOST_REPORTED`
/// were reported before.
fn report<R: Eprint, N: Display>(rt: &R, name: &N, counts: &mut LineCounts, why: &Unused) {
    if counts.unused < MOST_REPORTED {
        let number = counts.lines;
        let _ = eprintln!(rt; "{name}: line {number} of the bridge {why}");
    }
    counts.unused = counts.unused.saturating_add(1);
}

/// Reports how many more lines were not used than were reported one by one.
fn report_rest<R: Eprint, N: Display>(rt: &R, name: &N, counts: &LineCounts) {
    if MOST_REPORTED < counts.unused {
        let more = counts.unused - MOST_REPORTED;
        let _ = eprintln!(rt; "{name}: {more} more lines of the bridge were passed over");
    }
}

/// Reads the next line of the input and does what it says. Returns whether to go on: not at the end
/// of the input, nor after a malformed line that may have been a response.
fn take_next<R: Wait + Eprint, N: Display, B: BufRead, C: Caller>(
    rt: &R,
    alloc: Global,
    name: &N,
    input: &mut B,
    calls: &C,
    counts: &mut LineCounts,
) -> bool
    ensures { result ≡ true → IfSome (B.remaining input.old) (λ bytes. IsFollowed bytes (B.remaining input.new)) }
{
    let Ok(Some(line)) = next_line(alloc, input) else {
        return false;
    };
    counts.lines = counts.lines.saturating_add(1);
    match take_line(rt, alloc, calls, line.as_slice()) {
        Ok(()) => true,
        Err(why) => {
            report(rt, name, counts, &why);
            !matches!(why, Unused::Lost(_))
        }
    }
}

/// Reads lines to the end of the input and delivers each response to the call of its id.
///
/// A line that is malformed, or whose call is not open, changes nothing. It is reported on standard
/// error after the name: the first hundred of them each with its number and the reason, and at the
/// end how many more there were. Once the bridge sends notice that it shuts down, new polls fail
/// with `Closed`.
///
/// At the end of the input, and if it cannot be read, all calls end: those that wait and all new
/// ones fail with `Closed`. So they do after a malformed line that may have been a response, which
/// is reported too: one of more than `MAX_LINE` bytes, one for which there was no memory, one that
/// begins with `{` and is not JSON, or has a number that is out of range. Nothing after such a line
/// is read.
pub fn read_lines<R: Wait + Eprint, N: Display, B: BufRead + Drop, C: Caller>(
    rt: &R,
    alloc: Global,
    name: &N,
    mut input: B,
    calls: &C,
) {
    let mut counts = LineCounts {
        lines: 0,
        unused: 0,
    };
    for _ in 1..u64::MAX {
        if !take_next(rt, alloc, name, &mut input, calls, &mut counts) {
            break;
        }
    }
    calls.close(rt);
    report_rest(rt, name, &counts);
}
