//! Reads the lines of an input.

ghost use Rattle.std.specs.Prelude.{◌≡◌, ◌≤◌, ◌==◌, ◌||◌, IfOk, IfSome, OnOk, Some};
ghost use Rattle.std.specs.Prelude.{length, min, option_map, take};
ghost use Rattle.std.specs.Io.BufRead.{take_through, strip_last};
ghost use Rattle.std.specs.Io.KnownBytes.{Consumes};
ghost use Rattle.wh_rpc.specs.Responses.{longest};
ghost use Rattle.wh_rpc.specs.Private.Input.{ReadsOn, after_read, has_end, next_of, read_of};

use crate::response::MAX_LINE;
use std::alloc::Global;
use std::io;
use std::io::{BufRead, ErrorKind};

/// Returns the first bytes, at most `room` of them.
fn at_most(bytes: &[u8], room: usize) -> &[u8]
    ensures { result.now ≡ take (min room (length bytes.now)) bytes.now }
{
    &bytes[..room.min(bytes.len())]
}

/// Returns how many bytes there are up to and including the first line feed, or in all if there is
/// none, and whether there is one.
fn line_length(bytes: &[u8]) -> (usize, bool)
    ensures within { result.0 ≤ length bytes.now }
    ensures through { take result.0 bytes.now ≡ take_through 10 bytes.now }
    ensures end { result.1 ≡ has_end bytes.now }
{
    let mut count = 0;
    for byte in bytes {
        count += 1;
        if *byte == b'\n' {
            return (count, true);
        }
    }
    (count, false)
}

/// Returns whether a line is complete after a part of `count` bytes: the part ends it, or is empty,
/// or fills the room that was left.
fn is_read(has_end: bool, count: usize, room: usize) -> bool
    ensures { result ≡ (has_end || ((count == 0) || (count == room))) }
{
    has_end || count == 0 || count == room
}

/// Moves bytes that the input has buffered to the end of `line`, which grows to at most `MAX_LINE +
/// 1` bytes. Returns whether the line is complete: it has its end, or that many bytes, or the input
/// has ended. After an error the rest of the line may be missing.
fn read_on<B: BufRead>(input: &mut B, line: &mut Vec<u8>) -> io::Result<bool>
    requires { length line.old.items ≤ longest }
    ensures { IfOk result
        (ReadsOn (B.remaining input.old) (B.remaining input.new) line.old.items line.new.items) }
{
    let room = MAX_LINE + 1 - line.len();
    let shown = match input.fill_buf() {
        Ok(shown) => at_most(shown, room),
        Err(e) if e.kind() == ErrorKind::Interrupted => return Ok(false),
        Err(e) => return Err(e),
    };
    let (count, has_end) = line_length(shown);
    line.extend_from_slice(&shown[..count])?;
    input.consume(count);
    Ok(is_read(has_end, count, room))
}

/// Takes the next line out of the input, up to and including its end, but at most `MAX_LINE + 1`
/// bytes of it. At the end of the input it is empty. After an error some of the input may be lost.
fn read_part<B: BufRead>(alloc: Global, input: &mut B) -> io::Result<Vec<u8>>
    ensures bytes { IfOk result (λ line. IfSome (B.remaining input.old) (λ bytes. line.items ≡ read_of bytes)) }
    ensures left { IfOk result (λ line. Consumes (B.remaining input.old) (B.remaining input.new) line.items) }
{
    let mut line = Vec::new(alloc);
    for _ in 0..u64::MAX {
        if read_on(input, &mut line)? {
            return Ok(line);
        }
    }
    Err(io::Error::from(ErrorKind::TimedOut))
}

/// Returns the line without its line feed, if it has one.
fn without_end(mut line: Vec<u8>) -> Vec<u8>
    ensures { result.items ≡ strip_last 10 line.items }
{
    if line.last() == Some(&b'\n') {
        line.pop();
    }
    line
}

/// Takes the next line out of the input and returns it without its end, or `None` at the end of the
/// input. Of a line of more than `MAX_LINE` bytes it returns the first `MAX_LINE + 1` and leaves
/// the rest in the input. After an error some of the input may be lost.
pub(crate) fn next_line<B: BufRead>(alloc: Global, input: &mut B) -> io::Result<Option<Vec<u8>>>
    ensures line { IfOk result (λ line. IfSome (B.remaining input.old)
        (λ bytes. option_map (λ line. line.items) line ≡ next_of bytes)) }
    ensures left { OnOk result (IfSome (B.remaining input.old)
        (λ bytes. B.remaining input.new ≡ Some (after_read bytes))) }
{
    let line = read_part(alloc, input)?;
    if line.is_empty() {
        return Ok(None);
    }
    Ok(Some(without_end(line)))
}
