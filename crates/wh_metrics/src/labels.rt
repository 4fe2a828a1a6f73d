//! The labels that distinguish workers in Prometheus.

ghost use Rattle.std.specs.Prelude.{◌≡◌, MatchOption, None, Some};
ghost use Rattle.std.specs.Fmt.{DisplaysOnOk};
ghost use Rattle.wh_metrics.specs.Labels.{escape_of, escaped, escaped_char, label_text, labels_text};

use std::fmt;

/// Whose counts they are. It distinguishes the files of several processes, since no two samples of
/// a scrape may have the same name and labels.
#[derive(Clone, Copy, Debug)]
pub struct WorkerLabels<'a> {
    /// The namespace of the Task Queue.
    pub namespace: &'a str,
    /// The Task Queue.
    pub task_queue: &'a str,
    /// The name that the server knows the process by.
    pub identity: &'a str,
}

/// What stands for a character in the value of a label, if it can't stand as itself.
fn escape_of(c: char) -> Option<&'static str>
    ensures { MatchOption result (escape_of c ≡ None) (λ escape. escape_of c ≡ Some escape.now) }
{
    match c {
        '\\' => Some("\\\\"),
        '"' => Some("\\\""),
        '\n' => Some("\\n"),
        _ => None,
    }
}

/// A character in the value of a label.
#[derive(Clone, Copy)]
struct LabelChar(char);

impl fmt::Display for LabelChar {
    ghost output = { λ e. Some (escaped_char e.0) };

    fn fmt<W: fmt::Write>(&self, f: &mut fmt::Formatter<W>) -> fmt::Result {
        let c = self.0;
        match escape_of(c) {
            Some(escape) => write!(f, "{escape}"),
            None => write!(f, "{c}"),
        }
    }
}

/// Writes the value of a label.
#[tactic(auto, unfolding(crate::specs::Labels::escaped))]
fn write_escaped<W: fmt::Write>(text: &str, f: &mut fmt::Formatter<W>) -> fmt::Result
    ensures { DisplaysOnOk W.write_str_gives f.old result (Some (escaped text.now)) f.new }
{
    for c in text.chars() {
        let c = LabelChar(c);
        write!(f, "{c}")?;
    }
    Ok(())
}

/// The value of a label.
#[derive(Drop)]
struct LabelValue<'a>(&'a str);

impl fmt::Display for LabelValue<'_> {
    ghost output = { λ e. Some (escaped e.0.now) };

    fn fmt<W: fmt::Write>(&self, f: &mut fmt::Formatter<W>) -> fmt::Result {
        write_escaped(self.0, f)
    }
}

/// A label with its value.
#[derive(Clone, Copy)]
struct Label<'a> {
    name: &'a str,
    value: &'a str,
}

impl fmt::Display for Label<'_> {
    ghost output = { λ l. Some (label_text l.name.now l.value.now) };

    fn fmt<W: fmt::Write>(&self, f: &mut fmt::Formatter<W>) -> fmt::Result {
        let name = self.name;
        let value = LabelValue(self.value);
        write!(f, "{name}=\"{value}\"")
    }
}

/// The labels of each sample, as they stand between its braces. A `\` stands before `\` and `"`,
/// and `\n` in place of a line feed.
impl fmt::Display for WorkerLabels<'_> {
    ghost output = { λ w. Some (labels_text w.namespace.now w.task_queue.now w.identity.now) };

    fn fmt<W: fmt::Write>(&self, f: &mut fmt::Formatter<W>) -> fmt::Result {
        let namespace = Label {
            name: "namespace",
            value: self.namespace,
        };
        let queue = Label {
            name: "task_queue",
            value: self.task_queue,
        };
        let identity = Label {
            name: "identity",
            value: self.identity,
        };
        write!(f, "{namespace},{queue},{identity}")
    }
}
