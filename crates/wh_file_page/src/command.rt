//! The page of a history file is written.

ghost use Rattle.std.specs.Prelude.{◌≡◌, ◌≢◌, Bool, Err, IfErr, IfOk, IsOk, OnOk};
ghost use Rattle.std.specs.Io.KnownBytes.{Appends};
ghost use Rattle.wh_file_page.specs.Pages.{title_of, IsPageOf, IsPaged};
ghost use Rattle.wh_file_page.specs.Readings.{IsReadAs};
ghost use Rattle.wh_file_page.specs.RunTables.{IsTableOf, table_html};
ghost use Rattle.wh_html.specs.Html.{bytes as bytes_of};
ghost use Rattle.wh_json.specs.declared.fault.ReadFault.{ReadFault};
ghost use Rattle.wh_page.specs.Pages.{page_html};
ghost use Rattle.wh_html.specs.Views.{IsAxisOf};
ghost use Rattle.wh_view.specs.Views.{members_of};

use crate::fault::PageFault;
use crate::reading::{FileReading, read_file};
use crate::run_table::{RunTable, TablePart, table_as};
use crate::said::said_as;
use std::alloc::Global;
use std::io;
use std::io::Write;
use wh_page::{Axis, Page, axis_of, write_body, write_end};
use wh_run_page::page_of;
use wh_view::View;
use wh_view_report::workflow_type;
use wh_workflow::Workflow;

/// A page with its axis and the table of its run, and the status of its report.
#[derive(Drop)]
struct Prepared {
    page: Page,
    axis: Axis,
    table: Option<RunTable>,
    status: u8,
}

/// The title of the page of a file: its name; of standard input, whose name is `-`, the workflow
/// type, if it has one.
fn title_of<'v>(name: &'v str, view: &'v View) -> &'v str
    ensures { result.now ≡ title_of name.now view.now }
{
    let type_name = workflow_type(view.events.get());
    if name != "-" || type_name.is_empty() {
        name
    } else {
        type_name
    }
}

/// The page of a file that was read.
fn page_with<W: Workflow>(
    alloc: Global,
    name: &str,
    bytes: &[u8],
    file: FileReading,
) -> Result<Prepared, PageFault>
    ensures page { (only_recorded : Bool) → IsReadAs only_recorded bytes.now file.read → IfOk result (λ own.
        IsPageOf W.program only_recorded name.now bytes.now file.view own.page own.status) }
    ensures axis { IfOk result (λ own. IsAxisOf own.page own.axis.stops) }
    ensures table { (only_recorded : Bool) → IsReadAs only_recorded bytes.now file.read
        → IfOk result (λ own. IsTableOf only_recorded bytes.now own.table) }
    ensures memory { IfErr result (λ fault. fault ≡ PageFault.OutOfMemory) }
{
    let FileReading { view, read } = file;
    let table = table_as(alloc, &read)?;
    let own = said_as::<W>(alloc, title_of(name, &view), bytes, read)?;
    let page = page_of(alloc, &view, own.said)?;
    let axis = axis_of(alloc, &page)?;
    Ok(Prepared {
        page,
        axis,
        table,
        status: own.status,
    })
}

/// Writes a page, with the table of its run before its end.
fn write_page<O: Write>(own: &Prepared, writer: &mut O) -> io::Result<()>
    requires { IsAxisOf own.now.page own.now.axis.stops }
    ensures { let html = page_html own.now.axis.stops own.now.page (table_html own.now.table) in
        OnOk result (Appends (O.contents writer.old) (O.contents writer.new) (bytes_of html)) }
{
    write_body(&own.page, &own.axis, writer)?;
    let table = TablePart(&own.table);
    write!(writer, "{table}")?;
    write_end(writer)
}

/// Writes the page of a history file, given by name and bytes: one HTML file, which needs no script
/// and fetches nothing. Whatever the history holds stands in it as text. The title is the name, or
/// the workflow type if the name is `-` and there is a type.
///
/// It shows what the bytes hold, as `wh_view::view_of` views it, also where the reader of histories
/// refuses an event. The file is parsed once, and once more only if an event lacks a field or is not
/// in place. It is replayed once with the code of `W`: the page has the verdict in the words of its
/// line in the report of replay, both sides of a difference, and marks the event that the verdict is
/// about. The status is that of the report: 0 if the verdict is good, and else 1. With
/// `only_recorded` nothing is replayed, the page has no verdict, and the status is 0.
///
/// If the type is `Table` or `Table:NAME`, the first payload of the start's input is a table and a
/// workflow task was started, the page has that table as `wh_table_picture` draws it, with marks at
/// the rows that the run takes in a replay, up to its fault if it has one. This does not depend on
/// `W`: a history of these types, and no other, is replayed once more as the run of a table.
/// Otherwise, and with `only_recorded`, the page has no table.
///
/// `Unviewed` if the bytes have no list of events. Nothing is written then, nor if the answer
/// is `OutOfMemory`. `Output` if they have one, and the page can't be written; some of it may have
/// been written then.
pub fn page_command<W: Workflow, O: Write>(
    alloc: Global,
    name: &str,
    bytes: &[u8],
    only_recorded: bool,
    writer: &mut O,
) -> Result<u8, PageFault>
    ensures paged { IfOk result (IsPaged W.program only_recorded name.now bytes.now
        (O.contents writer.old) (O.contents writer.new)) }
    ensures unviewed { (fault : ReadFault) → result ≡ Err (PageFault.Unviewed fault)
        → members_of bytes.now ≡ Err fault }
    ensures output { result ≡ Err PageFault.Output → IsOk (members_of bytes.now) }
    ensures unwritten { IfErr result (λ fault. fault ≢ PageFault.Output → writer.new ≡ writer.old) }
{
    let file = read_file(alloc, bytes, only_recorded)?;
    let own = page_with::<W>(alloc, name, bytes, file)?;
    match write_page(&own, writer) {
        Ok(()) => Ok(own.status),
        Err(_) => Err(PageFault::Output),
    }
}
