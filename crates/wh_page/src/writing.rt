//! Writes a page as HTML.

ghost use Rattle.std.specs.Prelude.{OnOk};
ghost use Rattle.std.specs.Io.KnownBytes.{Appends};
ghost use Rattle.wh_html.specs.Html.{bytes};
ghost use Rattle.wh_html.specs.Views.{IsAxisOf};
ghost use Rattle.wh_page.specs.Pages.{body_html, end_html};

use crate::frame::Frame;
use crate::sums::SumTable;
use crate::table::ThingTable;
use crate::tasks::{Notes, Tasks, Waits};
use std::io;
use std::io::Write;
use wh_html::{Axis, Page, Picture};

/// Writes a page, but for its end, with its times at the stops of an axis.
#[tactic(auto, unfolding(crate::specs::Pages::body_html))]
fn write_parts<W: Write>(page: &Page, axis: &Axis, writer: &mut W) -> io::Result<()>
    ensures { let html = body_html axis.now.stops page.now in
        OnOk result (Appends (W.contents writer.old) (W.contents writer.new) (bytes html)) }
{
    let frame = Frame(page);
    let waits = Waits(page.waits.get());
    let notes = Notes(page.notes.get());
    let picture = Picture {
        fault: page.fault,
        stops: axis.stops.get(),
        lanes: page.lanes.get(),
        rows: page.rows,
        total: page.things,
        tasks: page.tasks.get(),
    };
    let sums = SumTable(page.sums.get());
    let table = ThingTable {
        fault: page.fault,
        lanes: page.lanes.get(),
        total: page.things,
    };
    let tasks = Tasks {
        tasks: page.tasks.get(),
        before: page.earlier,
        total: page.all_tasks,
    };
    write!(writer, "{frame}{waits}{notes}{picture}{sums}{table}{tasks}")
}

/// Writes a page as one HTML file, but for its end. `axis` must be the axis of the page, as
/// `axis_of` returns it; the picture has its times there. More sections may follow, and then
/// `write_end`. After an error part of the page may have been written.
pub fn write_body<W: Write>(page: &Page, axis: &Axis, writer: &mut W) -> io::Result<()>
    requires { IsAxisOf page.now axis.now.stops }
    ensures { let html = body_html axis.now.stops page.now in
        OnOk result (Appends (W.contents writer.old) (W.contents writer.new) (bytes html)) }
{
    write_parts(page, axis, writer)
}

/// Writes the end of a page. After an error part of it may have been written.
pub fn write_end<W: Write>(writer: &mut W) -> io::Result<()>
    ensures { OnOk result (Appends (W.contents writer.old) (W.contents writer.new) (bytes end_html)) }
{
    write!(
        writer,
        "</main>\n<footer class=\"soft\"><p>Times are in UTC.</p></footer>\n</body>\n</html>\n"
    )
}
