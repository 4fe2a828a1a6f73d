//! Writes the diagnostics of commands to the standard error.

ghost use Rattle.std.specs.Prelude.{◌≡◌, ◌++◌, OnOk, codes};
ghost use Rattle.std.specs.Io.KnownBytes.{Appends};
ghost use Rattle.wh_tester.specs.Report.{fault_text};
ghost use Rattle.wh_diagnostics.specs.Diagnostics.{bad_name_line, bad_name_lines, diagnostic_text, entry_line, failed_text, file_line, named_line, path_line, reason_line};

use crate::failures::Failure;
use std::io;
use std::io::Write;
use wh_console::{Message, Reason};
use wh_events::Text;
use wh_file_faults::{FaultDetail, write_detail};
use wh_json::ReadFault;
use wh_tester::{FaultText, Shown};

/// What a command may report on the standard error.
#[derive(Drop)]
pub enum Diagnostic {
    /// A folder has no file whose name ends in `.json`.
    NoFiles {
        /// The path of the folder.
        dir: Text,
    },
    /// Files of a folder are left out because their names are not UTF-8.
    BadNames {
        /// The path of the folder.
        dir: Text,
        /// Their names, with `?` for each byte that is not part of a character.
        names: Vec<String>,
    },
    /// A file is not JSON.
    BadJson {
        /// The name of the file.
        file: Text,
        /// Where it stops being JSON.
        detail: FaultDetail,
    },
    /// There is no full report.
    Failed {
        /// The reason.
        failure: Failure,
    },
}

/// Writes a line under the program's name. After an error part of it may have been written.
pub fn write_line<E: Write>(text: &str, name: &str, writer: &mut E) -> io::Result<()>
    ensures written { OnOk result
        (Appends (E.contents writer.old) (E.contents writer.new) (named_line text.now name.now)) }
{
    let name = Shown(name);
    writeln!(writer, "{name}: {text}")
}

/// Writes a text that ends its own line.
fn write_text<E: Write>(text: &str, writer: &mut E) -> io::Result<()>
    ensures { OnOk result (Appends (E.contents writer.old) (E.contents writer.new) text.now) }
{
    write!(writer, "{text}")
}

/// Writes that a folder has no file whose name ends in `.json`.
fn write_no_files<E: Write>(dir: &str, name: &str, writer: &mut E) -> io::Result<()>
    ensures { OnOk result (Appends (E.contents writer.old) (E.contents writer.new)
        (named_line (codes "no .json file in " ++ dir.now) name.now)) }
{
    let name = Shown(name);
    writeln!(writer, "{name}: no .json file in {dir}")
}

/// Writes a line about a file, under the program's name.
fn write_file_line<E: Write>(file: &str, why: &str, name: &str, writer: &mut E) -> io::Result<()>
    ensures { OnOk result (Appends (E.contents writer.old) (E.contents writer.new)
        (file_line file.now why.now name.now)) }
{
    let file = Shown(file);
    let name = Shown(name);
    writeln!(writer, "{name}: {file}: {why}")
}

/// Writes why a path can't be read.
fn write_path<E: Write>(path: &str, why: &str, name: &str, writer: &mut E) -> io::Result<()>
    ensures { OnOk result (Appends (E.contents writer.old) (E.contents writer.new)
        (path_line path.now why.now name.now)) }
{
    let name = Shown(name);
    writeln!(writer, "{name}: cannot read {path}: {why}")
}

/// Writes why an entry of a folder can't be read.
fn write_entry<E: Write>(
    dir: &str,
    entry: &str,
    why: &str,
    name: &str,
    writer: &mut E,
) -> io::Result<()>
    ensures { OnOk result (Appends (E.contents writer.old) (E.contents writer.new)
        (entry_line dir.now entry.now why.now name.now)) }
{
    let entry = Shown(entry);
    let name = Shown(name);
    writeln!(writer, "{name}: cannot read {dir}/{entry}: {why}")
}

/// Writes that an entry of a folder can't be read because its name is not UTF-8.
fn write_bad_name<E: Write>(dir: &str, entry: &String, name: &str, writer: &mut E) -> io::Result<()>
    ensures { OnOk result (Appends (E.contents writer.old) (E.contents writer.new)
        (bad_name_line dir.now entry.now name.now)) }
{
    write_entry(
        dir,
        entry.as_str(),
        "its name is no UTF-8 text",
        name,
        writer,
    )
}

/// Writes one line for each entry of a folder that can't be read because its name is not UTF-8.
fn write_bad_names<E: Write>(
    dir: &str,
    entries: &[String],
    name: &str,
    writer: &mut E,
) -> io::Result<()>
    ensures { OnOk result (Appends (E.contents writer.old) (E.contents writer.new)
        (bad_name_lines dir.now entries.now name.now)) }
{
    for entry in entries {
        write_bad_name(dir, entry, name, writer)?;
    }
    Ok(())
}

/// Writes what can't be read, and why: a folder, a file, or an entry of a folder.
fn write_unreadable<E: Write>(
    dir: &str,
    entry: &Option<String>,
    reason: Reason,
    name: &str,
    writer: &mut E,
) -> io::Result<()>
    ensures { OnOk result (Appends (E.contents writer.old) (E.contents writer.new)
        (reason_line dir.now entry.now reason name.now)) }
{
    let why = reason.words();
    match entry {
        Some(entry) => write_entry(dir, entry.as_str(), why, name, writer),
        None => write_path(dir, why, name, writer),
    }
}

/// Writes why the events in a file can't be shown.
fn write_not_viewed<E: Write>(
    file: &str,
    fault: &ReadFault,
    name: &str,
    writer: &mut E,
) -> io::Result<()>
    ensures { OnOk result (Appends (E.contents writer.old) (E.contents writer.new)
        (file_line file.now (codes "unreadable, " ++ fault_text fault.now) name.now)) }
{
    let file = Shown(file);
    let fault = FaultText(fault);
    let name = Shown(name);
    writeln!(writer, "{name}: {file}: unreadable, {fault}")
}

/// Writes why a command has no full report.
fn write_failed<E: Write>(failure: &Failure, name: &str, writer: &mut E) -> io::Result<()>
    ensures { OnOk result (Appends (E.contents writer.old) (E.contents writer.new) (failed_text failure.now name.now)) }
{
    match failure {
        Failure::BadLine { text } => write_text(text.get(), writer),
        Failure::BadArguments => write_line("arguments must be UTF-8 text", name, writer),
        Failure::FewSlots => write_line("slots must be at least workers", name, writer),
        Failure::BadInput => write_line("the arguments of a query must be JSON", name, writer),
        Failure::Unreadable { dir, entry, reason } => {
            write_unreadable(dir.get(), entry, *reason, name, writer)
        }
        Failure::NotJson { file, detail } => write_detail(file.get(), detail, name, writer),
        Failure::NotViewed { file, fault } => write_not_viewed(file.get(), fault, name, writer),
        Failure::NotText { file } => write_file_line(file.get(), "not UTF-8 text", name, writer),
        Failure::BadPolicies { file, why } => write_file_line(file.get(), why.get(), name, writer),
        Failure::Output => write_line("cannot write", name, writer),
        Failure::OutOfMemory => write_line("out of memory", name, writer),
    }
}

/// Writes a diagnostic.
fn write_diagnostic<E: Write>(diagnostic: &Diagnostic, name: &str, writer: &mut E) -> io::Result<()>
    ensures { OnOk result (Appends (E.contents writer.old) (E.contents writer.new)
        (diagnostic_text diagnostic.now name.now)) }
{
    match diagnostic {
        Diagnostic::NoFiles { dir } => write_no_files(dir.get(), name, writer),
        Diagnostic::BadNames { dir, names } => write_bad_names(
            dir.get(),
            names.as_slice(),
            name,
            writer,
        ),
        Diagnostic::BadJson { file, detail } => write_detail(file.get(), detail, name, writer),
        Diagnostic::Failed { failure } => write_failed(failure, name, writer),
    }
}

impl Message for Diagnostic {
    ghost use Rattle.wh_diagnostics.specs.Diagnostics.{diagnostic_text};

    ghost text = { diagnostic_text };

    fn write<E: Write>(self, name: &str, writer: &mut E) -> io::Result<()> {
        let written = write_diagnostic(&self, name, writer);
        drop(self);
        written
    }
}
