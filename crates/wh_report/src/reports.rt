//! The report of records, as text or as JSON.

ghost use Rattle.std.specs.Prelude.{◌≡◌, ◌≢◌, ◌++◌, ◌∷◌, [], Err, IfOk, OnOk, codes};
ghost use Rattle.std.specs.List.{flat_map, list_all, list_any};
ghost use Rattle.std.specs.Io.KnownBytes.{Appends};
ghost use Rattle.wh_phrases.specs.Json.{difference_members};
ghost use Rattle.wh_file_faults.specs.DetailTexts.{detail_members, type_members};
ghost use Rattle.wh_tester.specs.Json.{following};
ghost use Rattle.wh_tester.specs.UnknownTypes.{unregistered_type};
ghost use Rattle.wh_phrases.specs.Texts.{value_object};
ghost use Rattle.wh_tester.specs.Report.{all_good, good_count, is_good, line_text};
ghost use Rattle.wh_report.specs.Reports.{json_record, lines_of, members_after, object_after, records_status, report_as, report_of, some_value, warning_members};

use crate::records::Record;
use std::io;
use std::io::Write;
use wh_console::{Format, ReplayOptions};
use wh_file_faults::{CommandFault, FaultDetailMembers, NoCodeMember};
use wh_phrases::{DifferenceMembers, OtherValue, OtherValueObject};
use wh_tester::{Line, is_good, write_json_totals, write_line, write_open_json_line, write_totals};

/// Whether a file is good.
fn is_good_file(own: &Record) -> bool
    ensures { result ≡ is_good own.now.line.verdict }
{
    is_good(&own.line.verdict)
}

/// How many files are good.
fn good_count(records: &[Record]) -> usize
    ensures { result ≡ good_count (lines_of records.now) }
{
    records
        .iter()
        .filter(|own| is_good(&own.line.verdict))
        .count()
}

/// Whether each file is good.
fn are_good(records: &[Record]) -> bool
    ensures { result ≡ list_all (λ own. is_good own.line.verdict) records.now }
{
    records.iter().all(|own| is_good_file(own))
}

/// Whether values of a file differ.
fn has_warnings(own: &Record) -> bool
    ensures { result ≡ some_value own.now.warnings }
{
    !own.warnings.get().is_empty()
}

/// Whether values of files differ.
fn have_warnings(records: &[Record]) -> bool
    ensures { result ≡ list_any (λ own. some_value own.warnings) records.now }
{
    records.iter().any(|own| has_warnings(own))
}

/// The status of a report: 1 if a file is not good, and else 3 if values of one differ, and 0
/// if none do.
#[tactic(auto, using(crate::proofs::Lines::all_of_map))]
pub fn status_of(records: &[Record]) -> u8
    ensures { result ≡ records_status records.now }
{
    if !are_good(records) {
        1
    } else if have_warnings(records) {
        3
    } else {
        0
    }
}

/// Writes the lines of files.
fn write_lines<O: Write>(records: &[Record], writer: &mut O) -> io::Result<()>
    ensures { OnOk result
        (Appends (O.contents writer.old) (O.contents writer.new) (flat_map (λ own. line_text own.line) records.now)) }
{
    for one in records {
        write_line(&one.line, writer)?;
    }
    Ok(())
}

/// Writes the object of a value that differs, after others.
fn write_object_after<O: Write>(value: &OtherValue, writer: &mut O) -> io::Result<()>
    ensures { OnOk result (Appends (O.contents writer.old) (O.contents writer.new) (object_after value.now)) }
{
    let value = OtherValueObject(value);
    write!(writer, ",{value}")
}

/// Writes the objects of values that differ, each after others.
fn write_after<O: Write>(values: &[OtherValue], writer: &mut O) -> io::Result<()>
    ensures { OnOk result (Appends (O.contents writer.old) (O.contents writer.new) (flat_map object_after values.now)) }
{
    for value in values {
        write_object_after(value, writer)?;
    }
    Ok(())
}

/// Writes the beginning of the member of the values that differ, with the first of them.
fn write_first<O: Write>(first: &OtherValue, writer: &mut O) -> io::Result<()>
    ensures { let text = codes ",\"warnings\":[" ++ value_object first.now in
        OnOk result (Appends (O.contents writer.old) (O.contents writer.new) text) }
{
    let first = OtherValueObject(first);
    write!(writer, ",\"warnings\":[{first}")
}

/// Writes the member of the values that differ, the first of them and the others.
fn write_some<O: Write>(first: &OtherValue, others: &[OtherValue], writer: &mut O) -> io::Result<()>
    ensures { let text = following (warning_members (first.now ∷ others.now)) in
        OnOk result (Appends (O.contents writer.old) (O.contents writer.new) text) }
{
    write_first(first, writer)?;
    write_after(others, writer)?;
    write!(writer, "]")
}

/// Writes the member of the values that differ, if some do.
fn write_warnings<O: Write>(values: &[OtherValue], writer: &mut O) -> io::Result<()>
    ensures { OnOk result
        (Appends (O.contents writer.old) (O.contents writer.new) (following (warning_members values.now))) }
{
    match values {
        [] => Ok(()),
        [first, others @ ..] => write_some(first, others, writer),
    }
}

/// Writes the members of a file that stand after the text of its fault, but for its warnings.
fn write_notes<O: Write>(own: &Record, writer: &mut O) -> io::Result<()>
    ensures { let kind = following (type_members (unregistered_type own.now.line.verdict)) in
        let detail = following (detail_members own.now.detail) in
        let difference = following (difference_members own.now.difference) in
        OnOk result (Appends (O.contents writer.old) (O.contents writer.new) (kind ++ (detail ++ difference))) }
{
    let kind = NoCodeMember(&own.line.verdict);
    let detail = FaultDetailMembers(own.detail.as_ref());
    let difference = DifferenceMembers(own.difference.as_ref());
    write!(writer, "{kind}{detail}{difference}")
}

/// Writes the members of a file that stand after the text of its fault.
fn write_members<O: Write>(own: &Record, writer: &mut O) -> io::Result<()>
    ensures { OnOk result
        (Appends (O.contents writer.old) (O.contents writer.new) (following (members_after own.now))) }
{
    write_notes(own, writer)?;
    write_warnings(own.warnings.get(), writer)
}

/// Writes the object of a file, as the report as JSON has it. After an error some of it may have
/// been written.
#[tactic(auto, using(crate::proofs::Lines::object_written))]
pub fn write_json_record<O: Write>(own: &Record, writer: &mut O) -> io::Result<()>
    ensures { OnOk result (Appends (O.contents writer.old) (O.contents writer.new) (json_record own.now)) }
{
    write_open_json_line(&own.line, writer)?;
    write_members(own, writer)?;
    write!(writer, "}}\n")
}

/// Writes the objects of files.
fn write_objects<O: Write>(records: &[Record], writer: &mut O) -> io::Result<()>
    ensures { OnOk result (Appends (O.contents writer.old) (O.contents writer.new) (flat_map json_record records.now)) }
{
    for one in records {
        write_json_record(one, writer)?;
    }
    Ok(())
}

/// Writes the report of records: a line for each file, in their order, and then a line with the
/// number of files and of good ones. As JSON (RFC 8259) each is an object, that of a file as
/// `wh_tester::write_json_line` writes it, and that of the totals with `files` and `ok`. The object
/// of a file has after the text of its fault: what that omits, as `wh_file_faults::NoCodeMember`
/// and `wh_file_faults::FaultDetailMembers` write it; what is sent and what is recorded, if they
/// differ; and `warnings`, the list of its values that differ, each with `event`, `kind`, `sent`
/// and `recorded`, if there are some. Each line goes to the writer as it is made. After an error
/// some of the report may have been written.
pub fn write_report<O: Write>(records: &[Record], format: Format, writer: &mut O) -> io::Result<()>
    ensures { OnOk result (Appends (O.contents writer.old) (O.contents writer.new) (report_as format records.now)) }
{
    let files = records.len();
    let good = good_count(records);
    match format {
        Format::Json => {
            write_objects(records, writer)?;
            write_json_totals(files, good, writer)
        }
        Format::Text => {
            write_lines(records, writer)?;
            write_totals(files, good, writer)
        }
    }
}

/// Writes the report of records in the format that options ask for, and gives its status: 1 if a
/// file is not good, and else 3 if values of one differ, and 0 if none do. The other options change
/// nothing here: `replay_inputs` obeys `strict_values` when it makes the records, and
/// `require_files` and `progress` are for who lists the files, as `replay_paths` of
/// `wh_replay_command`.
pub fn report<O: Write>(
    records: &[Record],
    options: ReplayOptions,
    writer: &mut O,
) -> Result<u8, CommandFault>
    ensures written { OnOk result
        (Appends (O.contents writer.old) (O.contents writer.new) (report_of options records.now)) }
    ensures status { IfOk result (λ status. status ≡ records_status records.now) }
    ensures output { result ≢ Err CommandFault.OutOfMemory }
{
    let Ok(()) = write_report(records, options.format, writer) else {
        return Err(CommandFault::Output);
    };
    Ok(status_of(records))
}
