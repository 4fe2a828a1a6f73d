//! The lines of progress.

ghost use Rattle.std.specs.Prelude.{◌≡◌, OnOk, Some};
ghost use Rattle.std.specs.Io.KnownBytes.{Appends};
ghost use Rattle.wh_diagnostics.specs.ProgressLines.{end_text, fault_word, line_text, progress_words};

use crate::progress_modes::ProgressMode;
use std::io::Write;
use std::{fmt, io};
use wh_console::Message;
use wh_tester::Shown;

/// How far the work on files has come. As a text: `40 of 200 files, 2 faults`.
#[derive(Clone, Copy, PartialEq, Eq, Debug)]
pub struct Progress {
    /// How many files are done.
    pub done: usize,
    /// How many files there are.
    pub total: usize,
    /// How many of those that are done have a fault.
    pub faults: usize,
}

/// The word for so many faults.
fn fault_word(faults: usize) -> &'static str
    ensures { result.now ≡ fault_word faults }
{
    if faults == 1 { "fault" } else { "faults" }
}

impl fmt::Display for Progress {
    ghost output = { λ progress. Some (progress_words progress) };

    fn fmt<W: fmt::Write>(&self, f: &mut fmt::Formatter<W>) -> fmt::Result {
        let Progress {
            done,
            total,
            faults,
        } = *self;
        let word = fault_word(faults);
        write!(f, "{done} of {total} files, {faults} {word}")
    }
}

/// A line of progress.
#[derive(Clone, Copy, Debug)]
pub struct ProgressLine {
    /// How it is shown. If it is hidden, nothing is written.
    pub mode: ProgressMode,
    /// How far the work has come.
    pub progress: Progress,
}

/// Writes a line of progress, as it is shown.
fn write_progress<E: Write>(
    mode: ProgressMode,
    progress: Progress,
    name: &str,
    writer: &mut E,
) -> io::Result<()>
    ensures { OnOk result (Appends (E.contents writer.old) (E.contents writer.new)
        (line_text mode progress name.now)) }
{
    let name = Shown(name);
    match mode {
        ProgressMode::Hidden => Ok(()),
        ProgressMode::Lines => writeln!(writer, "{name}: {progress}"),
        ProgressMode::InPlace => write!(writer, "\r{name}: {progress}\u{1b}[K"),
    }
}

impl Message for ProgressLine {
    ghost text = { λ line. line_text line.mode line.progress };

    fn write<E: Write>(self, name: &str, writer: &mut E) -> io::Result<()> {
        write_progress(self.mode, self.progress, name, writer)
    }
}

/// The end of progress: what erases a line that is written over itself.
#[derive(Clone, Copy, Debug)]
pub struct ProgressEnd {
    /// How it was shown.
    pub mode: ProgressMode,
    /// How many lines progress of all files has. If it is none, nothing is written.
    pub lines: usize,
}

/// Writes what erases the line that is written over itself, if progress of all files has one.
fn write_end<E: Write>(
    mode: ProgressMode,
    lines: usize,
    name: &str,
    writer: &mut E,
) -> io::Result<()>
    ensures { OnOk result (Appends (E.contents writer.old) (E.contents writer.new)
        (end_text mode lines name.now)) }
{
    match (mode, lines) {
        (ProgressMode::InPlace, 1..) => write!(writer, "\r\u{1b}[K"),
        _ => Ok(()),
    }
}

impl Message for ProgressEnd {
    ghost text = { λ end. end_text end.mode end.lines };

    fn write<E: Write>(self, name: &str, writer: &mut E) -> io::Result<()> {
        write_end(self.mode, self.lines, name, writer)
    }
}
