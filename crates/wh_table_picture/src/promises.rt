//! The promises of a table, each with its mark.
ghost use Rattle.std.specs.Prelude.{◌≡◌, Some};
ghost use Rattle.wh_html.specs.Html.{bytes, each};
ghost use Rattle.wh_table_picture.specs.Promises.{promise_class, promise_mark, given_html, job_html, jobs_html};
ghost use Rattle.wh_table_picture.specs.Promises.{detail_html, promise_html, lone_html, list_html, promises_html};

use std::fmt;
use wh_events::Text;
use wh_html::Escaped;
use wh_row_rules::{PhraseFinding, PromiseFinding, PromiseFindings, PromiseVerdict, WayStep};
use wh_table_check::{list_words, outcome_detail};

/// The class of a promise of which this is found.
fn promise_class(outcome: &PhraseFinding) -> &'static str
    ensures { result.now ≡ promise_class outcome.now }
{
    match outcome {
        PhraseFinding::Decided(PromiseVerdict::Kept) => "kept",
        PhraseFinding::Decided(PromiseVerdict::Broken(_)) => "broken",
        _ => "undecided",
    }
}

/// The mark of a promise of which this is found: a sign and a word.
fn promise_mark(outcome: &PhraseFinding) -> &'static str
    ensures { result.now ≡ promise_mark outcome.now }
{
    match outcome {
        PhraseFinding::Decided(PromiseVerdict::Kept) => "&#10003; kept",
        PhraseFinding::Decided(PromiseVerdict::Broken(_)) => "&#10007; broken",
        PhraseFinding::Decided(PromiseVerdict::NotDecided(_)) => "? not decided",
        PhraseFinding::NoPromise => "? no promise",
    }
}

/// The commands that a job is given.
#[derive(Drop)]
struct CommandsPart<'a>(&'a Text);

impl fmt::Display for CommandsPart<'_> {
    ghost output = { λ own. Some (bytes (given_html own.0.now)) };

    fn fmt<W: fmt::Write>(&self, f: &mut fmt::Formatter<W>) -> fmt::Result {
        if self.0.get().is_empty() {
            return write!(f, " <span class=\"soft\">gives nothing</span>");
        }
        let words = Escaped {
            text: self.0,
            most: 2_000,
        };
        write!(f, " <span class=\"soft\">gives</span> <code>{words}</code>")
    }
}

/// A job of a scenario, as an item of a list.
#[derive(Drop)]
struct JobItem<'a>(&'a WayStep);

impl fmt::Display for JobItem<'_> {
    ghost output = { λ own. Some (bytes (job_html own.0.now)) };

    fn fmt<W: fmt::Write>(&self, f: &mut fmt::Formatter<W>) -> fmt::Result {
        let job = Escaped {
            text: &self.0.job,
            most: 300,
        };
        let given = CommandsPart(&self.0.gives);
        write!(f, "<li><code>{job}</code>{given}</li>\n")
    }
}

/// Jobs, as items of a list.
#[derive(Drop)]
struct JobItems<'a>(&'a [WayStep]);

impl fmt::Display for JobItems<'_> {
    ghost output = { λ own. Some (bytes (each job_html own.0.now)) };

    fn fmt<W: fmt::Write>(&self, f: &mut fmt::Formatter<W>) -> fmt::Result {
        for line in self.0 {
            let item = JobItem(line);
            write!(f, "{item}")?;
        }
        Ok(())
    }
}

/// The jobs that break a promise, if it is broken.
#[derive(Drop)]
struct JobList<'a>(&'a PhraseFinding);

impl fmt::Display for JobList<'_> {
    ghost output = { λ own. Some (bytes (jobs_html own.0.now)) };

    fn fmt<W: fmt::Write>(&self, f: &mut fmt::Formatter<W>) -> fmt::Result {
        match self.0 {
            PhraseFinding::Decided(PromiseVerdict::Broken(breach)) => {
                let items = JobItems(breach.way.as_slice());
                write!(f, "\n<ol class=\"jobs\">\n{items}</ol>\n")
            }
            _ => Ok(()),
        }
    }
}

/// What else is said of a promise, if something is.
#[derive(Drop)]
struct Detail<'a>(&'a PhraseFinding);

impl fmt::Display for Detail<'_> {
    ghost output = { λ own. Some (bytes (detail_html own.0.now)) };

    fn fmt<W: fmt::Write>(&self, f: &mut fmt::Formatter<W>) -> fmt::Result {
        let words = outcome_detail(self.0);
        if words.is_empty() {
            return Ok(());
        }
        write!(f, " <span class=\"soft\">{words}</span>")
    }
}

/// A promise with its mark, as an item of a list.
#[derive(Drop)]
struct PromiseItem<'a>(&'a PromiseFinding);

impl fmt::Display for PromiseItem<'_> {
    ghost output = { λ own. Some (bytes (promise_html own.0.now)) };

    fn fmt<W: fmt::Write>(&self, f: &mut fmt::Formatter<W>) -> fmt::Result {
        let class = promise_class(&self.0.outcome);
        let mark = promise_mark(&self.0.outcome);
        let phrase = Escaped {
            text: &self.0.phrase,
            most: 600,
        };
        let detail = Detail(&self.0.outcome);
        let jobs = JobList(&self.0.outcome);
        write!(
            f,
            "<li class=\"{class}\"><span class=\"mark\">{mark}</span> <code>{phrase}</code>{detail}{jobs}</li>\n"
        )
    }
}

/// Promises, as items of a list.
#[derive(Drop)]
struct PromiseItems<'a>(&'a [PromiseFinding]);

impl fmt::Display for PromiseItems<'_> {
    ghost output = { λ own. Some (bytes (each promise_html own.0.now)) };

    fn fmt<W: fmt::Write>(&self, f: &mut fmt::Formatter<W>) -> fmt::Result {
        for line in self.0 {
            let item = PromiseItem(line);
            write!(f, "{item}")?;
        }
        Ok(())
    }
}

/// That no promise can be read, and why.
#[derive(Drop)]
struct LonePart(&'static str);

impl fmt::Display for LonePart {
    ghost output = { λ own. Some (bytes (lone_html own.0.now)) };

    fn fmt<W: fmt::Write>(&self, f: &mut fmt::Formatter<W>) -> fmt::Result {
        let why = self.0;
        write!(
            f,
            "<section>\n<h2>Promises</h2>\n<p class=\"undecided\"><span class=\"mark\">? not read</span> {why}</p>\n</section>\n"
        )
    }
}

/// The promises of a table, if it has some.
#[derive(Drop)]
pub(crate) struct Promises<'a>(pub(crate) &'a PromiseFindings);

impl fmt::Display for Promises<'_> {
    ghost output = { λ own. Some (bytes (promises_html own.0.now)) };

    fn fmt<W: fmt::Write>(&self, f: &mut fmt::Formatter<W>) -> fmt::Result {
        match self.0 {
            PromiseFindings::Each(list) => {
                let list = PromiseList(list.get());
                write!(f, "{list}")
            }
            other => {
                let lone = LonePart(list_words(other));
                write!(f, "{lone}")
            }
        }
    }
}

/// Promises under their heading, if there are some.
#[derive(Drop)]
struct PromiseList<'a>(&'a [PromiseFinding]);

impl fmt::Display for PromiseList<'_> {
    ghost output = { λ own. Some (bytes (list_html own.0.now)) };

    fn fmt<W: fmt::Write>(&self, f: &mut fmt::Formatter<W>) -> fmt::Result {
        if self.0.is_empty() {
            return Ok(());
        }
        let items = PromiseItems(self.0);
        write!(
            f,
            "<section>\n<h2>Promises</h2>\n<ol class=\"promises\">\n{items}</ol>\n</section>\n"
        )
    }
}
