//! The command `query`.

ghost use Rattle.std.specs.Prelude.{◌≡◌, Err, IfErr, IfOk, Some};
ghost use Rattle.wh_console.specs.Consoles.{IsQuiet, Printed};
ghost use Rattle.wh_diagnostics.specs.Failures.{IsWriteFailure};
ghost use Rattle.wh_diagnostics.specs.Files.{HasCarriedOut};
ghost use Rattle.wh_diagnostics.specs.Printing.{IsRefused};
ghost use Rattle.wh_file_commands.specs.Queries.{HasQueried, IsUnasked, IsUnqueried};
ghost use Rattle.wh_file_commands.specs.QueryInputs.{query_of};
ghost use Rattle.wh_file_commands.specs.Queried.{IsQueried};
ghost use Rattle.wh_file_commands.specs.QueryTexts.{queried_as};

use crate::queried::Queried;
use crate::query_inputs::query_of;
use crate::query_report::{query_command, status_of};
use std::alloc::Global;
use std::io;
use std::io::Write;
use wh_console::{Console, Format, Outlet};
use wh_diagnostics::{Failure, InputReader, KnownTypes, file_at, flush_answer};
use wh_events::Text;
use wh_file_faults::CommandFault;
use wh_tester::is_no_code;
use wh_workflow::{Query, Queryable};

/// Queries a file, and writes what came of that.
fn print_query<W: Queryable, O: Write, E: Write>(
    alloc: Global,
    file: (String, Vec<u8>),
    query: &Query,
    format: Format,
    console: &mut Console<'_, O, E>,
) -> Result<Queried, CommandFault>
    ensures queried { IfOk result (IsQueried W.program W.queries file query.now) }
    ensures printed { IfOk result (λ queried. Printed console.old console.new (queried_as format queried)) }
    ensures quiet { IsQuiet console.old console.new }
    ensures unwritten { result ≡ Err CommandFault.OutOfMemory → console.new.output ≡ console.old.output }
{
    query_command::<W, Outlet<O>>(alloc, file, query, format, &mut console.output)
}

/// Queries a file, writes what came of that, and once it is out, reports where the file is no JSON
/// or that its workflow type is not registered, and which types are.
fn query_file<W: Queryable, O: Write, E: Write>(
    alloc: Global,
    file: (String, Vec<u8>),
    query: &Query,
    format: Format,
    types: &str,
    console: &mut Console<'_, O, E>,
) -> Result<u8, Failure>
    ensures queried { IfOk result (HasQueried W.program W.queries types.now (Some query.now) format file
        console.old console.new) }
    ensures refused { IfErr result (IsRefused console.old console.new) }
    ensures why { IfErr result IsWriteFailure }
{
    let queried = match print_query::<W, O, E>(alloc, file, query, format, console) {
        Ok(queried) => queried,
        Err(fault) => return flush_answer(Err(fault), console),
    };
    let status = match flush_answer(Ok(status_of(&queried)), console) {
        Ok(status) => status,
        Err(failure) => {
            drop(queried);
            return Err(failure);
        }
    };
    let Queried { own, given } = queried;
    drop(given);
    let lacking = is_no_code(&own.line.verdict);
    console.report(own);
    console.report(KnownTypes { types, lacking });
    Ok(status)
}

/// The query that words of the command line ask for.
fn query_asked(alloc: Global, query_type: Text, words: Vec<Text>) -> Result<Query, Failure>
    ensures query { IfOk result (λ query. query_of query_type words.items ≡ Some query) }
    ensures why { IfErr result (IsUnasked (query_of query_type words.items)) }
{
    match query_of(alloc, query_type, words.as_slice()) {
        Ok(Some(query)) => Ok(query),
        Ok(None) => Err(Failure::BadInput),
        Err(_) => Err(Failure::OutOfMemory),
    }
}

/// Queries the history at a path with words as the arguments, writes what came of that, and once it
/// is out, reports where the file is no JSON or that its workflow type is not registered, and then
/// `types`, which are, unless they are empty.
///
/// `BadInput` if a word is no JSON. `Unreadable` if the history can't be read, and `Output` if the
/// answer can't be written. Other than `OutOfMemory` there is no failure but these. After a failure
/// nothing was reported, and nothing was written unless it is `Output`.
pub fn query_path<W: Queryable, R: InputReader + io::Input + AllocGlobal, O: Write, E: Write>(
    rt: &R,
    path: Text,
    query_type: Text,
    words: Vec<Text>,
    format: Format,
    types: &str,
    console: &mut Console<'_, O, E>,
) -> Result<u8, Failure>
    ensures queried { let asked = query_of query_type words.items in IfOk result (HasCarriedOut R.gives
        (HasQueried W.program W.queries types.now asked format) path console.old console.new) }
    ensures refused { IfErr result (IsRefused console.old console.new) }
    ensures why { IfErr result (IsUnqueried R.gives (query_of query_type words.items) path) }
{
    let query = query_asked(rt.alloc(), query_type, words)?;
    let file = file_at(rt, path)?;
    query_file::<W, O, E>(rt.alloc(), file, &query, format, types, console)
}
