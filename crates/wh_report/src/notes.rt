//! What is reported of files beside their report: the command sent and the event recorded where
//! they differ, what their lines omit, and their warnings.

ghost use Rattle.std.specs.Prelude.{OnOk};
ghost use Rattle.std.specs.Io.KnownBytes.{Appends};
ghost use Rattle.wh_report.specs.Notes.{difference_lines, record_lines, warning_line, warning_lines};

use crate::records::Record;
use std::io;
use std::io::Write;
use wh_console::Message;
use wh_file_faults::write_omitted;
use wh_phrases::{OtherValue, OtherValueText, SidesText};
use wh_tester::Shown;

/// Writes the command sent and the event recorded where a file's replay differs, if it does.
fn write_difference<E: Write>(own: &Record, name: &str, writer: &mut E) -> io::Result<()>
    ensures { OnOk result (Appends (E.contents writer.old) (E.contents writer.new)
        (difference_lines own.now.line.name own.now.difference name.now)) }
{
    let Some(pairing) = &own.difference else {
        return Ok(());
    };
    let file = Shown(own.line.name.get());
    let sides = SidesText(pairing);
    let name = Shown(name);
    writeln!(writer, "{name}: {file}: {sides}")
}

/// Writes a warning: a value of a file that differs from what is recorded.
fn write_warning<E: Write>(
    file: &str,
    value: &OtherValue,
    name: &str,
    writer: &mut E,
) -> io::Result<()>
    ensures { OnOk result (Appends (E.contents writer.old) (E.contents writer.new)
        (warning_line file.now value.now name.now)) }
{
    let file = Shown(file);
    let value = OtherValueText(value);
    let name = Shown(name);
    writeln!(writer, "{name}: {file}: {value}")
}

/// Writes the warnings of a file, one line for each.
fn write_warnings<E: Write>(
    file: &str,
    values: &[OtherValue],
    name: &str,
    writer: &mut E,
) -> io::Result<()>
    ensures { OnOk result (Appends (E.contents writer.old) (E.contents writer.new)
        (warning_lines file.now values.now name.now)) }
{
    for value in values {
        write_warning(file, value, name, writer)?;
    }
    Ok(())
}

/// Writes the lines of a file beside the report: its difference, what its line omits, and its
/// warnings.
fn write_record<E: Write>(own: &Record, name: &str, writer: &mut E) -> io::Result<()>
    ensures { OnOk result (Appends (E.contents writer.old) (E.contents writer.new) (record_lines own.now name.now)) }
{
    write_difference(own, name, writer)?;
    write_omitted(&own.line, &own.detail, name, writer)?;
    write_warnings(own.line.name.get(), own.warnings.get(), name, writer)
}

impl Message for Record {
    ghost use Rattle.wh_report.specs.Notes.{record_lines};

    ghost text = { λ own. record_lines own };

    fn write<E: Write>(self, name: &str, writer: &mut E) -> io::Result<()> {
        let written = write_record(&self, name, writer);
        drop(self);
        written
    }
}
