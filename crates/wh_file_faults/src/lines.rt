//! The lines of what the line of a file omits.

ghost use Rattle.std.specs.Prelude.{OnOk};
ghost use Rattle.std.specs.Io.KnownBytes.{Appends};
ghost use Rattle.wh_file_faults.specs.DetailTexts.{detail_line, detail_lines, omitted_lines, type_lines};
ghost use Rattle.wh_tester.specs.UnknownTypes.{unregistered_type};

use crate::detail::FaultDetail;
use std::io;
use std::io::Write;
use wh_tester::{Line, NoCodeText, Shown, unregistered_type};

/// Writes the line of the detail of a file's fault, under the name of a program. After an error
/// part of it may have been written.
pub fn write_detail<E: Write>(
    file: &str,
    detail: &FaultDetail,
    name: &str,
    writer: &mut E,
) -> io::Result<()>
    ensures written { OnOk result (Appends (E.contents writer.old) (E.contents writer.new)
        (detail_line file.now detail.now name.now)) }
{
    let file = Shown(file);
    let name = Shown(name);
    writeln!(writer, "{name}: {file}: {detail}")
}

/// Writes that there is no code for a workflow type, if that is the verdict on a file.
fn write_type<E: Write>(line: &Line, name: &str, writer: &mut E) -> io::Result<()>
    ensures { OnOk result (Appends (E.contents writer.old) (E.contents writer.new)
        (type_lines line.now.name (unregistered_type line.now.verdict) name.now)) }
{
    let Some(kind) = unregistered_type(&line.verdict) else {
        return Ok(());
    };
    let file = Shown(line.name.get());
    let name = Shown(name);
    let text = NoCodeText(kind);
    writeln!(writer, "{name}: {file}: {text}")
}

/// Writes the detail of a file's fault, if there is one.
fn write_detail_of<E: Write>(
    line: &Line,
    detail: &Option<FaultDetail>,
    name: &str,
    writer: &mut E,
) -> io::Result<()>
    ensures { OnOk result (Appends (E.contents writer.old) (E.contents writer.new)
        (detail_lines line.now.name detail.now name.now)) }
{
    match detail {
        Some(detail) => write_detail(line.name.get(), detail, name, writer),
        None => Ok(()),
    }
}

/// Writes what the line of a file omits, under the name of a program: the workflow type that there is
/// no code for, and the detail of its fault, if there is one. After an error part of it may have been
/// written.
pub fn write_omitted<E: Write>(
    line: &Line,
    detail: &Option<FaultDetail>,
    name: &str,
    writer: &mut E,
) -> io::Result<()>
    ensures written { OnOk result (Appends (E.contents writer.old) (E.contents writer.new)
        (omitted_lines line.now detail.now name.now)) }
{
    write_type(line, name, writer)?;
    write_detail_of(line, detail, name, writer)
}
