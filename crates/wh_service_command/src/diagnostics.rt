//! What is reported of a service beside its report.

ghost use Rattle.std.specs.Prelude.{◌≡◌, None, OnOk, option_map};
ghost use Rattle.std.specs.Io.KnownBytes.{Appends};
ghost use Rattle.wh_file_faults.specs.DetailTexts.{omitted_lines};
ghost use Rattle.wh_service_command.specs.Diagnostics.{failure_line, failure_lines, fault_lines};
ghost use Rattle.wh_service_command.specs.Diagnostics.{faults_lack_code, is_reported_before, line_if, service_lines};

use std::io;
use std::io::Write;
use wh_console::Message;
use wh_diagnostics::write_line;
use wh_file_faults::write_omitted;
use wh_service::{FileFailure, FileFault, RepeatedFailure, ServiceEnd, is_repeat, repeats};
use wh_tester::{Shown, is_no_code};

/// That a worker has a fault.
const WORKER_FAULT: &str = "a worker has a fault: a call of its source failed";

/// That not all that is recorded was compared.
const UNCOMPARED: &str =
    "the last task of a recorded history is not compared with its record; replay does that";

/// What is reported of a service beside its report.
#[derive(Drop)]
pub(crate) struct ServiceNotes {
    /// How the service ended.
    pub(crate) end: ServiceEnd,
}

/// Whether the workflow type of a file with one of these faults is not registered.
pub(crate) fn faults_lack_code(faults: &[FileFault]) -> bool
    ensures { result ≡ faults_lack_code faults.now }
{
    faults.iter().any(|fault| is_no_code(&fault.line.verdict))
}

/// Writes that a file is not JSON, or that its workflow type is not registered.
fn write_fault<E: Write>(fault: &FileFault, name: &str, writer: &mut E) -> io::Result<()>
    ensures { OnOk result (Appends (E.contents writer.old) (E.contents writer.new)
        (omitted_lines fault.now.line fault.now.detail name.now)) }
{
    write_omitted(&fault.line, &fault.detail, name, writer)
}

/// Writes one line for each file that is not JSON, or whose workflow type is not registered.
fn write_faults<E: Write>(faults: Vec<FileFault>, name: &str, writer: &mut E) -> io::Result<()>
    ensures { OnOk result (Appends (E.contents writer.old) (E.contents writer.new)
        (fault_lines faults.items name.now)) }
{
    for fault in faults {
        let written = write_fault(&fault, name, writer);
        drop(fault);
        written?;
    }
    Ok(())
}

/// Whether a failed task repeats the one before it, if there is one.
fn is_reported_before(before: Option<&FileFailure>, failure: &FileFailure) -> bool
    ensures { result ≡ is_reported_before (option_map (λ one. one.now) before.entry) failure.now }
{
    match before {
        Some(before) => is_repeat(before, failure),
        None => false,
    }
}

/// Writes why a task failed, and how many of those after it repeat that, unless it repeats the one
/// before.
fn write_failure<E: Write>(
    before: Option<&FileFailure>,
    failure: &FileFailure,
    rest: &[FileFailure],
    name: &str,
    writer: &mut E,
) -> io::Result<()>
    ensures { let line = failure_line (option_map (λ one. one.now) before.entry) failure.now rest.now name.now in
        OnOk result (Appends (E.contents writer.old) (E.contents writer.new) line) }
{
    if is_reported_before(before, failure) {
        return Ok(());
    }
    let more = repeats(failure, rest);
    let failure = RepeatedFailure { failure, more };
    let name = Shown(name);
    writeln!(writer, "{name}: {failure}")
}

/// Writes why tasks failed, a line for each, but for those that repeat one.
fn write_failures<E: Write>(failures: &[FileFailure], name: &str, writer: &mut E) -> io::Result<()>
    ensures { OnOk result (Appends (E.contents writer.old) (E.contents writer.new)
        (failure_lines None failures.now name.now)) }
{
    let mut before = None;
    for index in 0..failures.len() {
        let failure = &failures[index];
        write_failure(before, failure, &failures[index + 1..], name, writer)?;
        before = Some(failure);
    }
    Ok(())
}

/// Writes a line under the program's name, if there is reason for it.
fn write_line_if<E: Write>(told: bool, text: &str, name: &str, writer: &mut E) -> io::Result<()>
    ensures { OnOk result (Appends (E.contents writer.old) (E.contents writer.new) (line_if told text.now name.now)) }
{
    if told {
        write_line(text, name, writer)
    } else {
        Ok(())
    }
}

/// Writes where files are not JSON and why tasks failed, and then a line if a worker has a fault,
/// and one if `serve` did not compare all that is recorded.
fn write_service<E: Write>(end: ServiceEnd, name: &str, writer: &mut E) -> io::Result<()>
    ensures { OnOk result (Appends (E.contents writer.old) (E.contents writer.new) (service_lines end name.now)) }
{
    let ServiceEnd {
        failures,
        uncompared,
        faultless,
        file_faults,
        ..
    } = end;
    write_faults(file_faults, name, writer)?;
    write_failures(failures.as_slice(), name, writer)?;
    write_line_if(!faultless, WORKER_FAULT, name, writer)?;
    write_line_if(uncompared, UNCOMPARED, name, writer)
}

impl Message for ServiceNotes {
    ghost use Rattle.wh_service_command.specs.Diagnostics.{service_lines};

    ghost text = { λ notes. service_lines notes.end };

    fn write<E: Write>(self, name: &str, writer: &mut E) -> io::Result<()> {
        write_service(self.end, name, writer)
    }
}
