//! The object of a run in an overview of histories as JSON.

ghost use Rattle.std.specs.Prelude.{◌≡◌, OnOk, Some};
ghost use Rattle.std.specs.Io.KnownBytes.{Appends};
ghost use Rattle.wh_explain_report.specs.RunObjects as objects;

use crate::run_facts::{cause_message, cause_type, most_attempts, start_moment, start_type};
use std::io::Write;
use std::{fmt, io};
use wh_tester::EscapedName;
use wh_view::View;
use wh_view_json::{SecondsMember, TextMember};
use wh_view_report::{run_span, status_word};

/// The workflow type, the workflow id and the run id of a run, as further members of an object.
#[derive(Drop)]
struct NameMembers<'a>(&'a View);

impl fmt::Display for NameMembers<'_> {
    ghost output = { λ n. Some (objects.name_members n.0.now) };

    fn fmt<W: fmt::Write>(&self, f: &mut fmt::Formatter<W>) -> fmt::Result {
        let kind = TextMember("type", start_type(self.0.events.get()));
        let workflow_id = TextMember("workflowId", self.0.run.workflow_id.get());
        let run_id = TextMember("runId", self.0.run.run_id.get());
        write!(f, "{kind}{workflow_id}{run_id}")
    }
}

/// When a run started, and how long it took, as further members of an object.
#[derive(Drop)]
struct TimeMembers<'a>(&'a View);

impl fmt::Display for TimeMembers<'_> {
    ghost output = { λ t. Some (objects.time_members t.0.now) };

    fn fmt<W: fmt::Write>(&self, f: &mut fmt::Formatter<W>) -> fmt::Result {
        let started = TextMember("started", start_moment(self.0.events.get()));
        let lasted = SecondsMember("seconds", run_span(self.0));
        write!(f, "{started}{lasted}")
    }
}

/// Whether a run is open, or how it was closed, and its times, as further members of an object.
#[derive(Drop)]
struct StatusMembers<'a>(&'a View);

impl fmt::Display for StatusMembers<'_> {
    ghost output = { λ s. Some (objects.status_members s.0.now) };

    fn fmt<W: fmt::Write>(&self, f: &mut fmt::Formatter<W>) -> fmt::Result {
        let status = status_word(self.0.status());
        let times = TimeMembers(self.0);
        write!(f, ",\"status\":\"{status}\"{times}")
    }
}

/// The highest attempt, as a further member of an object; nothing if no activity was started.
#[derive(Clone, Copy)]
struct AttemptsMember(u64);

impl fmt::Display for AttemptsMember {
    ghost output = { λ a. Some (objects.attempts_member a.0) };

    fn fmt<W: fmt::Write>(&self, f: &mut fmt::Formatter<W>) -> fmt::Result {
        let attempts = self.0;
        if attempts == 0 {
            return Ok(());
        }
        write!(f, ",\"attempts\":{attempts}")
    }
}

/// The highest attempt, and why a run was closed, as further members of an object.
#[derive(Drop)]
struct EndMembers<'a>(&'a View);

impl fmt::Display for EndMembers<'_> {
    ghost output = { λ e. Some (objects.end_members e.0.now) };

    fn fmt<W: fmt::Write>(&self, f: &mut fmt::Formatter<W>) -> fmt::Result {
        let attempts = AttemptsMember(most_attempts(self.0.events.get()));
        let cause = TextMember("cause", cause_message(self.0));
        let cause_type = TextMember("causeType", cause_type(self.0));
        write!(f, "{attempts}{cause}{cause_type}")
    }
}

/// Writes the object of the run in the file of this name.
#[tactic(auto, unfolding(crate::specs::RunObjects::run_object))]
pub(crate) fn write_run_object<O: Write>(name: &str, view: &View, writer: &mut O) -> io::Result<()>
    ensures { OnOk result
        (Appends (O.contents writer.old) (O.contents writer.new) (objects.run_object name.now view.now)) }
{
    let name = EscapedName(name);
    let names = NameMembers(view);
    let status = StatusMembers(view);
    let end = EndMembers(view);
    write!(writer, "{{\"file\":\"{name}\"{names}{status}{end}}}\n")
}
