//! The command `explain`.

ghost use Rattle.std.specs.Prelude.{◌≡◌, IfErr, IfOk, string_bytes};
ghost use Rattle.wh_console.specs.Consoles.{IsQuiet, Reported};
ghost use Rattle.wh_diagnostics.specs.Failures.{IsWriteFailure};
ghost use Rattle.wh_diagnostics.specs.Files.{HasCarriedOut, IsNotCarriedOut};
ghost use Rattle.wh_file_commands.specs.Explanations.{HasExplained};
ghost use Rattle.wh_file_faults.specs.DetailTexts.{detail_lines};
ghost use Rattle.wh_explain_report.specs.Explained.{IsExplained};

use std::alloc::Global;
use std::io;
use std::io::Write;
use wh_console::{Console, Format, Outlet};
use wh_diagnostics::{Diagnostic, Failure, InputReader, file_at, flush_answer};
use wh_events::Text;
use wh_explain_report::{explain_file, line_status};
use wh_file_faults::{CommandFault, FaultDetail, unread_detail};
use wh_tester::Line;
use wh_view_report::Selection;
use wh_workflow::Workflow;

/// Reports where a file is no JSON, if it is none.
fn report_detail<O: Write, E: Write>(
    file: Text,
    detail: Option<FaultDetail>,
    console: &mut Console<'_, O, E>,
)
    ensures { Reported console.old console.new (detail_lines file detail) }
{
    match detail {
        Some(detail) => console.report(Diagnostic::BadJson { file, detail }),
        None => {}
    }
}

/// Writes the explanation of a file, and returns its line.
fn print_explanation<W: Workflow, O: Write, E: Write>(
    alloc: Global,
    name: String,
    bytes: &[u8],
    selection: Option<Selection>,
    format: Format,
    console: &mut Console<'_, O, E>,
) -> Result<Line, CommandFault>
    ensures quiet { IsQuiet console.old console.new }
    ensures explained { IfOk result (IsExplained W.program (string_bytes name) bytes.now selection format
        console.old.output console.new.output) }
{
    explain_file::<W, Outlet<O>>(alloc, name, bytes, selection, format, &mut console.output)
}

/// Explains a file, and once that is out, reports where it is no JSON, if that is why it can't be
/// read.
fn explain<W: Workflow, O: Write, E: Write>(
    alloc: Global,
    name: String,
    bytes: Vec<u8>,
    selection: Option<Selection>,
    format: Format,
    console: &mut Console<'_, O, E>,
) -> Result<u8, Failure>
    ensures explained { IfOk result
        (HasExplained W.program selection format (name, bytes) console.old console.new) }
    ensures quiet { IfErr result (λ _. IsQuiet console.old console.new) }
    ensures why { IfErr result IsWriteFailure }
{
    let seen = bytes.as_slice();
    let line = match print_explanation::<W, O, E>(alloc, name, seen, selection, format, console) {
        Ok(line) => line,
        Err(fault) => return flush_answer(Err(fault), console),
    };
    let status = flush_answer(Ok(line_status(&line)), console)?;
    let Line {
        name: file,
        verdict,
    } = line;
    let Ok(detail) = unread_detail(alloc, &verdict, seen) else {
        return Err(Failure::OutOfMemory);
    };
    report_detail(file, detail, console);
    Ok(status)
}

/// Explains the history at a path: the tasks that are selected, or those that matter, and what is
/// recorded in it if its workflow type is not registered. Once that is out, reports where it is no
/// JSON. The status is that of its replay.
///
/// `Unreadable` if the history can't be read, and `Output` if the explanation can't be written.
/// Other than `OutOfMemory` there is no failure but these. After a failure nothing was reported.
pub fn explain_path<W: Workflow, R: InputReader + io::Input + AllocGlobal, O: Write, E: Write>(
    rt: &R,
    path: Text,
    selection: Option<Selection>,
    format: Format,
    console: &mut Console<'_, O, E>,
) -> Result<u8, Failure>
    ensures explained { IfOk result
        (HasCarriedOut R.gives (HasExplained W.program selection format) path console.old console.new) }
    ensures quiet { IfErr result (λ _. IsQuiet console.old console.new) }
    ensures why { IfErr result (IsNotCarriedOut R.gives (λ file. IsWriteFailure) path) }
{
    let (name, bytes) = file_at(rt, path)?;
    explain::<W, O, E>(rt.alloc(), name, bytes, selection, format, console)
}
