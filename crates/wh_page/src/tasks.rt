//! Writes the tasks of a run, what it waits for, and the notes.

ghost use Rattle.std.specs.Prelude.{◌≡◌, Some, position};
ghost use Rattle.wh_html.specs.Html.{bytes, each};
ghost use Rattle.wh_page.specs.TaskTexts.{number_html, anchor_html, trace_line_html, more_html, trace_html, line_head_html, line_html, left_html, is_fault, left_before, shown_lines};
ghost use Rattle.wh_page.specs.TaskTexts.{left_after, lines_html, open_words, task_html, task_count_html, tasks_html, note_html, waits_html, notes_html};

use crate::frame::{NAME, WORDS};
use std::fmt;
use wh_events::Text;
use wh_html::{Escaped, Side, Stamp, Task, TaskLine, first_items};

/// The most lines of a task that are shown.
const LINES: usize = 40;

/// How many of them precede the line of the fault, if there are as many.
const BEFORE: usize = 20;

/// The most lines of stack traces that are shown at the line of an event.
const TRACE: usize = 100;

/// The event of a line, if there is one.
#[derive(Clone, Copy)]
struct LineEvent(Option<u64>);

impl fmt::Display for LineEvent {
    ghost output = { λ e. Some (bytes (number_html e.0)) };

    fn fmt<W: fmt::Write>(&self, f: &mut fmt::Formatter<W>) -> fmt::Result {
        match self.0 {
            Some(event) => write!(f, "event {event}"),
            None => Ok(()),
        }
    }
}

/// The id by which a link leads to the line of an event, if it has one.
#[derive(Clone, Copy)]
struct Anchor(Option<u64>);

impl fmt::Display for Anchor {
    ghost output = { λ a. Some (bytes (anchor_html a.0)) };

    fn fmt<W: fmt::Write>(&self, f: &mut fmt::Formatter<W>) -> fmt::Result {
        match self.0 {
            Some(event) => write!(f, " id=\"event-{event}\""),
            None => Ok(()),
        }
    }
}

/// Lines of stack traces.
#[derive(Drop)]
struct TraceLines<'a>(&'a [Text]);

impl fmt::Display for TraceLines<'_> {
    ghost output = { λ t. Some (bytes (each trace_line_html t.0.now)) };

    fn fmt<W: fmt::Write>(&self, f: &mut fmt::Formatter<W>) -> fmt::Result {
        for line in self.0 {
            let line = Escaped {
                text: line,
                most: NAME,
            };
            write!(f, "{line}\n")?;
        }
        Ok(())
    }
}

/// How many lines of stack traces are left out, if some are.
#[derive(Clone, Copy)]
struct More(usize);

impl fmt::Display for More {
    ghost output = { λ m. Some (bytes (more_html m.0)) };

    fn fmt<W: fmt::Write>(&self, f: &mut fmt::Formatter<W>) -> fmt::Result {
        if self.0 == 0 {
            return Ok(());
        }
        let left = self.0;
        write!(f, "<p class=\"soft\">{left} more lines.</p>\n")
    }
}

/// Stack traces, folded, if there are some.
#[derive(Drop)]
struct Trace<'a>(&'a [Text]);

impl fmt::Display for Trace<'_> {
    ghost output = { λ t. Some (bytes (trace_html t.0.now)) };

    fn fmt<W: fmt::Write>(&self, f: &mut fmt::Formatter<W>) -> fmt::Result {
        if self.0.is_empty() {
            return Ok(());
        }
        let lines = TraceLines(first_items(self.0, TRACE));
        let more = More(self.0.len().saturating_sub(TRACE));
        write!(
            f,
            "<details class=\"trace\"><summary>Stack trace</summary>\n<pre>{lines}</pre>\n{more}</details>"
        )
    }
}

/// A line of a task without the stack traces.
#[derive(Drop)]
struct LineHead<'a>(&'a TaskLine);

impl fmt::Display for LineHead<'_> {
    ghost output = { λ r. Some (bytes (line_head_html r.0.now)) };

    #[tactic(auto, unfolding(crate::specs::TaskTexts::line_head_html))]
    fn fmt<W: fmt::Write>(&self, f: &mut fmt::Formatter<W>) -> fmt::Result {
        let side = self.0.side.word();
        let anchor = Anchor(self.0.event);
        let event = LineEvent(self.0.event);
        let text = Escaped {
            text: &self.0.text,
            most: WORDS,
        };
        write!(
            f,
            "<li class=\"{side}\"{anchor}><span class=\"side-word\">{side}</span> <span class=\"event\">{event}</span> <code>{text}</code>"
        )
    }
}

/// A line of a task.
#[derive(Drop)]
struct LineRow<'a>(&'a TaskLine);

impl fmt::Display for LineRow<'_> {
    ghost output = { λ r. Some (bytes (line_html r.0.now)) };

    #[tactic(auto, unfolding(crate::specs::TaskTexts::line_html))]
    fn fmt<W: fmt::Write>(&self, f: &mut fmt::Formatter<W>) -> fmt::Result {
        let head = LineHead(self.0);
        let trace = Trace(self.0.trace.get());
        write!(f, "{head}{trace}</li>\n")
    }
}

/// Lines of a task.
#[derive(Drop)]
struct LineRows<'a>(&'a [TaskLine]);

impl fmt::Display for LineRows<'_> {
    ghost output = { λ r. Some (bytes (each line_html r.0.now)) };

    fn fmt<W: fmt::Write>(&self, f: &mut fmt::Formatter<W>) -> fmt::Result {
        for line in self.0 {
            let row = LineRow(line);
            write!(f, "{row}")?;
        }
        Ok(())
    }
}

/// How many lines of a task are left out before or after those that are shown, if some are.
#[derive(Clone, Copy)]
struct Left {
    words: &'static str,
    left: usize,
}

impl fmt::Display for Left {
    ghost output = { λ l. Some (bytes (left_html l.words.now l.left)) };

    fn fmt<W: fmt::Write>(&self, f: &mut fmt::Formatter<W>) -> fmt::Result {
        if self.left == 0 {
            return Ok(());
        }
        let left = self.left;
        let words = self.words;
        write!(
            f,
            "<li class=\"note\"><span class=\"side-word\">{left}{words}</span></li>\n"
        )
    }
}

/// Returns whether a line has the fault.
fn is_fault(side: Side) -> bool
    ensures { result ≡ is_fault side }
{
    matches!(side, Side::Fault)
}

/// Returns the index of the first line that has the fault.
fn fault_line(lines: &[TaskLine]) -> Option<usize>
    ensures { result ≡ position (λ line. is_fault line.side) lines.now }
{
    lines.iter().position(|line| is_fault(line.side))
}

/// Returns how many lines are left out before those that are shown.
fn left_before(lines: &[TaskLine]) -> usize
    ensures { result ≡ left_before lines.now }
{
    let fault = fault_line(lines).unwrap_or(0);
    fault
        .saturating_sub(BEFORE)
        .min(lines.len().saturating_sub(LINES))
}

/// Returns the lines that are shown.
fn shown_lines(lines: &[TaskLine]) -> &[TaskLine]
    ensures { result.now ≡ shown_lines lines.now }
{
    first_items(&lines[left_before(lines)..], LINES)
}

/// Returns the attributes that open the lines of a task with the fault, and mark it.
fn open_words(faulty: bool) -> &'static str
    ensures { result.now ≡ open_words faulty }
{
    if faulty { " class=\"hit\" open" } else { "" }
}

/// Returns how many lines are left out after those that are shown.
fn left_after(lines: &[TaskLine]) -> usize
    ensures { result ≡ left_after lines.now }
{
    lines
        .len()
        .saturating_sub(LINES)
        .saturating_sub(left_before(lines))
}

/// The lines of a task that are shown, and how many are left out before and after them.
#[derive(Drop)]
struct TaskLines<'a>(&'a [TaskLine]);

impl fmt::Display for TaskLines<'_> {
    ghost output = { λ l. Some (bytes (lines_html l.0.now)) };

    #[tactic(auto, unfolding(crate::specs::TaskTexts::lines_html))]
    fn fmt<W: fmt::Write>(&self, f: &mut fmt::Formatter<W>) -> fmt::Result {
        let before = Left {
            words: " before",
            left: left_before(self.0),
        };
        let rows = LineRows(shown_lines(self.0));
        let after = Left {
            words: " more",
            left: left_after(self.0),
        };
        write!(f, "{before}{rows}{after}")
    }
}

/// A task, with the lines of it that are shown.
#[derive(Drop)]
struct TaskPart<'a>(&'a Task);

impl fmt::Display for TaskPart<'_> {
    ghost output = { λ p. Some (bytes (task_html p.0.now)) };

    #[tactic(auto, unfolding(crate::specs::TaskTexts::task_html))]
    fn fmt<W: fmt::Write>(&self, f: &mut fmt::Formatter<W>) -> fmt::Result {
        let open = open_words(self.0.faulty);
        let heading = Escaped {
            text: &self.0.heading,
            most: NAME,
        };
        let event = self.0.started.event;
        let time = Stamp(self.0.started.millis);
        let lines = TaskLines(self.0.lines.get());
        write!(
            f,
            "<details{open}><summary>{heading} <span class=\"time\">event {event}, {time}</span></summary>\n<ol>\n{lines}</ol>\n</details>\n"
        )
    }
}

/// Tasks.
#[derive(Drop)]
struct TaskParts<'a>(&'a [Task]);

impl fmt::Display for TaskParts<'_> {
    ghost output = { λ p. Some (bytes (each task_html p.0.now)) };

    fn fmt<W: fmt::Write>(&self, f: &mut fmt::Formatter<W>) -> fmt::Result {
        for task in self.0 {
            let part = TaskPart(task);
            write!(f, "{part}")?;
        }
        Ok(())
    }
}

/// How many of all tasks are shown, and how many are left out before and after them.
#[derive(Clone, Copy)]
struct TaskCount {
    shown: usize,
    before: usize,
    total: usize,
}

impl fmt::Display for TaskCount {
    ghost output = { λ c. Some (bytes (task_count_html c.shown c.before c.total)) };

    fn fmt<W: fmt::Write>(&self, f: &mut fmt::Formatter<W>) -> fmt::Result {
        let shown = self.shown;
        let total = self.total;
        if shown == total {
            write!(f, "<p class=\"soft\">{total} in all.</p>\n")
        } else {
            let before = self.before;
            let after = total.saturating_sub(shown).saturating_sub(before);
            write!(
                f,
                "<p class=\"soft\">{shown} of {total} are shown; {before} before them and {after} after them are left out.</p>\n"
            )
        }
    }
}

/// The tasks that are shown, with so many left out before them, out of so many in all.
#[derive(Drop)]
pub(crate) struct Tasks<'a> {
    pub(crate) tasks: &'a [Task],
    pub(crate) before: usize,
    pub(crate) total: usize,
}

impl fmt::Display for Tasks<'_> {
    ghost output = { λ t. Some (bytes (tasks_html t.tasks.now t.before t.total)) };

    #[tactic(auto, unfolding(crate::specs::TaskTexts::tasks_html))]
    fn fmt<W: fmt::Write>(&self, f: &mut fmt::Formatter<W>) -> fmt::Result {
        let count = TaskCount {
            shown: self.tasks.len(),
            before: self.before,
            total: self.total,
        };
        let parts = TaskParts(self.tasks);
        write!(f, "<section>\n<h2>Tasks</h2>\n{count}{parts}</section>\n")
    }
}

/// Notes as items of a list.
#[derive(Drop)]
struct NoteItems<'a>(&'a [Text]);

impl fmt::Display for NoteItems<'_> {
    ghost output = { λ i. Some (bytes (each note_html i.0.now)) };

    fn fmt<W: fmt::Write>(&self, f: &mut fmt::Formatter<W>) -> fmt::Result {
        for note in self.0 {
            let note = Escaped {
                text: note,
                most: NAME,
            };
            write!(f, "<li>{note}</li>\n")?;
        }
        Ok(())
    }
}

/// What an open run waits for, if it is one.
#[derive(Drop)]
pub(crate) struct Waits<'a>(pub(crate) &'a [Text]);

impl fmt::Display for Waits<'_> {
    ghost output = { λ w. Some (bytes (waits_html w.0.now)) };

    fn fmt<W: fmt::Write>(&self, f: &mut fmt::Formatter<W>) -> fmt::Result {
        if self.0.is_empty() {
            return Ok(());
        }
        let items = NoteItems(self.0);
        write!(
            f,
            "<section class=\"waits\">\n<h2>What the run waits for</h2>\n<ul>\n{items}</ul>\n</section>\n"
        )
    }
}

/// Notes, if there are some.
#[derive(Drop)]
pub(crate) struct Notes<'a>(pub(crate) &'a [Text]);

impl fmt::Display for Notes<'_> {
    ghost output = { λ n. Some (bytes (notes_html n.0.now)) };

    fn fmt<W: fmt::Write>(&self, f: &mut fmt::Formatter<W>) -> fmt::Result {
        if self.0.is_empty() {
            return Ok(());
        }
        let items = NoteItems(self.0);
        write!(
            f,
            "<section>\n<h2>Notes</h2>\n<ul>\n{items}</ul>\n</section>\n"
        )
    }
}
