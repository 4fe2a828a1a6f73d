//! What is reported of live tasks that were served.

ghost use Rattle.std.specs.Prelude.{◌≡◌, OnOk};
ghost use Rattle.std.specs.Io.KnownBytes.{Appends};
ghost use Rattle.wh_work.specs.Reports.{calls_text, json_calls_text, json_live_text, json_totals_text};
ghost use Rattle.wh_work.specs.Reports.{live_status, live_text};

use crate::untaken::taken_totals;
use std::io;
use std::io::Write;
use wh_console::{Format, Message};
use wh_crew::LiveEnd;
use wh_host::Totals;
use wh_notes::SourceCounts;

/// The status of `work`: 0 if no call of a source failed, and else 1.
pub fn live_status(end: &LiveEnd) -> u8
    ensures { result ≡ live_status end.now }
{
    if end.tally.faults == 0 { 0 } else { 1 }
}

/// Writes the polls of live tasks, and the answers that the server did not take.
fn write_calls<E: Write>(end: &LiveEnd, writer: &mut E) -> io::Result<()>
    ensures { OnOk result (Appends (E.contents writer.old) (E.contents writer.new) (calls_text end.now)) }
{
    let SourceCounts {
        polls,
        empty_polls,
        untaken,
        ..
    } = end.sources;
    let refused = untaken.refused_answers();
    writeln!(
        writer,
        "polls {}, empty polls {}, answers not found {}, answers refused {}",
        polls, empty_polls, untaken.not_found, refused
    )
}

/// Writes how live tasks ended: the totals, without the answers that the server did not take, and
/// the polls and those answers, a line each.
fn write_text_end<E: Write>(end: &LiveEnd, writer: &mut E) -> io::Result<()>
    ensures { OnOk result (Appends (E.contents writer.old) (E.contents writer.new) (live_text end.now)) }
{
    let totals = taken_totals(end.totals, end.sources.untaken);
    writeln!(writer, "{totals}")?;
    write_calls(end, writer)
}

/// Writes the totals as the first members of an object of JSON.
fn write_json_totals<E: Write>(totals: &Totals, writer: &mut E) -> io::Result<()>
    ensures { OnOk result (Appends (E.contents writer.old) (E.contents writer.new) (json_totals_text totals.now)) }
{
    write!(
        writer,
        "{{\"taken\":{},\"completed\":{},\"failed\":{},\"inHand\":{}",
        totals.taken, totals.completed, totals.failed, totals.in_hand
    )
}

/// Writes the polls, and the answers that the server did not take, as the last members of an object
/// of JSON.
fn write_json_calls<E: Write>(end: &LiveEnd, writer: &mut E) -> io::Result<()>
    ensures { OnOk result (Appends (E.contents writer.old) (E.contents writer.new) (json_calls_text end.now)) }
{
    let SourceCounts {
        polls,
        empty_polls,
        untaken,
        ..
    } = end.sources;
    let refused = untaken.refused_answers();
    writeln!(
        writer,
        ",\"polls\":{},\"emptyPolls\":{},\"answersNotFound\":{},\"answersRefused\":{}}}",
        polls, empty_polls, untaken.not_found, refused
    )
}

/// Writes how live tasks ended as an object of JSON.
fn write_json_end<E: Write>(end: &LiveEnd, writer: &mut E) -> io::Result<()>
    ensures { OnOk result (Appends (E.contents writer.old) (E.contents writer.new) (json_live_text end.now)) }
{
    let totals = taken_totals(end.totals, end.sources.untaken);
    write_json_totals(&totals, writer)?;
    write_json_calls(end, writer)
}

/// How live tasks ended, as `work` reports it.
#[derive(Clone, Copy)]
pub struct LiveReport {
    /// What is left of them.
    pub end: LiveEnd,
    /// In which form they are written.
    pub format: Format,
}

impl Message for LiveReport {
    ghost use Rattle.wh_work.specs.Reports.{report_text};

    ghost text = { report_text };

    fn write<E: Write>(self, _name: &str, writer: &mut E) -> io::Result<()> {
        match self.format {
            Format::Text => write_text_end(&self.end, writer),
            Format::Json => write_json_end(&self.end, writer),
        }
    }
}
