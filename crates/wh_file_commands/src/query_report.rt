//! The command `query` over a file that is there already.

ghost use Rattle.std.specs.Prelude.{◌≡◌, ◌≢◌, ◌++◌, Err, IfOk, OnOk};
ghost use Rattle.std.specs.Io.KnownBytes.{Appends};
ghost use Rattle.wh_file_commands.specs.Queried.{IsQueried, is_answered, status_of};
ghost use Rattle.wh_file_commands.specs.QueryTexts.{queried_as, record_as};

use crate::queried::{Queried, query_file};
use crate::query_texts::result_as;
use std::alloc::Global;
use std::io;
use std::io::Write;
use wh_console::Format;
use wh_report::{CommandFault, Record, write_json_record};
use wh_tester::{is_good, write_line};
use wh_workflow::{Query, QueryResult, Queryable};

/// Whether a query gave payloads.
fn is_answered(given: &QueryResult) -> bool
    ensures { result ≡ is_answered given.now }
{
    match given {
        QueryResult::Answered(_) => true,
        QueryResult::Failed(_) => false,
    }
}

/// The status of a query: 0 if the file is good and the query was answered, and else 1.
pub fn status_of(queried: &Queried) -> u8
    ensures { result ≡ status_of queried.now }
{
    if is_good(&queried.own.line.verdict) && is_answered(&queried.given) {
        0
    } else {
        1
    }
}

/// Writes what the report of replay has of a file.
fn write_record<O: Write>(own: &Record, format: Format, writer: &mut O) -> io::Result<()>
    ensures { OnOk result (Appends (O.contents writer.old) (O.contents writer.new) (record_as format own.now)) }
{
    match format {
        Format::Text => write_line(&own.line, writer),
        Format::Json => write_json_record(own, writer),
    }
}

/// Writes what the report of replay has of a file, and then a text.
fn write_all<O: Write>(
    own: &Record,
    format: Format,
    text: &[u8],
    writer: &mut O,
) -> Result<(), CommandFault>
    ensures written { OnOk result
        (Appends (O.contents writer.old) (O.contents writer.new) (record_as format own.now ++ text.now)) }
    ensures output { result ≢ Err CommandFault.OutOfMemory }
{
    let Ok(()) = write_record(own, format, writer) else {
        return Err(CommandFault::Output);
    };
    match writer.write_all(text) {
        Ok(()) => Ok(()),
        Err(_) => Err(CommandFault::Output),
    }
}

/// Writes what came of a query: what the report of replay has of the file, and then the result. A
/// payload that is a JSON text under the encoding `json/plain`, on one line, is written as it is,
/// and any other as an object with its encoding and its content in base64 (RFC 4648). As text each
/// payload has a line, and so has the reason of a query that failed; as JSON (RFC 8259) the result
/// is an object on a line, with `queryResult`, a list of the payloads, or `queryFailed`, the
/// reason. Nothing is written if the answer is `OutOfMemory`.
pub fn write_queried<O: Write>(
    alloc: Global,
    queried: &Queried,
    format: Format,
    writer: &mut O,
) -> Result<(), CommandFault>
    ensures written { OnOk result
        (Appends (O.contents writer.old) (O.contents writer.new) (queried_as format queried.now)) }
    ensures unwritten { result ≡ Err CommandFault.OutOfMemory → writer.new ≡ writer.old }
{
    let Ok(text) = result_as(alloc, &queried.given, format) else {
        return Err(CommandFault::OutOfMemory);
    };
    write_all(&queried.own, format, text.as_slice(), writer)
}

/// Queries a history file, given by name and bytes, with the code of `W`, writes what came of it,
/// and gives that. Nothing is written if the answer is `OutOfMemory`.
pub fn query_command<W: Queryable, O: Write>(
    alloc: Global,
    file: (String, Vec<u8>),
    query: &Query,
    format: Format,
    writer: &mut O,
) -> Result<Queried, CommandFault>
    ensures queried { IfOk result (IsQueried W.program W.queries file query.now) }
    ensures written { IfOk result (λ queried.
        Appends (O.contents writer.old) (O.contents writer.new) (queried_as format queried)) }
    ensures unwritten { result ≡ Err CommandFault.OutOfMemory → writer.new ≡ writer.old }
{
    let Ok(queried) = query_file::<W>(alloc, file, query) else {
        return Err(CommandFault::OutOfMemory);
    };
    match write_queried(alloc, &queried, format, writer) {
        Ok(()) => Ok(queried),
        Err(fault) => {
            drop(queried);
            Err(fault)
        }
    }
}
