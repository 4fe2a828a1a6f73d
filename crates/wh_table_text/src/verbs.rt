//! The first words of phrases.
ghost use Rattle.std.specs.Prelude.{◌≡◌};
ghost use Rattle.wh_table_text.specs.Verbs.{meaning, child_verbs, closing_verbs, run_verbs};
ghost use Rattle.wh_table_text.specs.Verbs.{job_verb, command_verb, source_of};

use wh_rows::Source;

/// The first word of a phrase for a job.
#[derive(Clone, Copy)]
pub(crate) enum JobVerb {
    Start,
    Signal,
    Cancel,
    Done,
    Failed,
    Fired,
    ChildStarted,
    ChildDone,
    ChildCanceled,
    ChildFailed,
    Version,
}

/// The first word of a phrase for a command.
#[derive(Clone, Copy)]
pub(crate) enum CommandVerb {
    Activity,
    CancelActivity,
    Timer,
    CancelTimer,
    Child,
    CancelChild,
    Signal,
    Ask,
    Complete,
    Fail,
    Cancel,
    Continue,
    Again,
}

/// Returns what the first word of a job means that is about a child workflow or a version.
fn child_verb(word: &str) -> Option<JobVerb>
    ensures { result ≡ meaning child_verbs word.now }
{
    if word == "child-started" {
        Some(JobVerb::ChildStarted)
    } else if word == "child-done" {
        Some(JobVerb::ChildDone)
    } else if word == "child-canceled" {
        Some(JobVerb::ChildCanceled)
    } else if word == "child-failed" {
        Some(JobVerb::ChildFailed)
    } else if word == "version" {
        Some(JobVerb::Version)
    } else {
        None
    }
}

/// Returns what the first word of a job means.
#[tactic(auto, unfolding(crate::specs::Verbs::job_verb))]
pub(crate) fn job_verb(word: &str) -> Option<JobVerb>
    ensures { result ≡ job_verb word.now }
{
    if word == "start" {
        Some(JobVerb::Start)
    } else if word == "signal" {
        Some(JobVerb::Signal)
    } else if word == "cancel" {
        Some(JobVerb::Cancel)
    } else if word == "done" {
        Some(JobVerb::Done)
    } else if word == "failed" {
        Some(JobVerb::Failed)
    } else if word == "fired" {
        Some(JobVerb::Fired)
    } else {
        child_verb(word)
    }
}

/// Returns what the first word of a command means that closes the run.
fn closing_verb(word: &str) -> Option<CommandVerb>
    ensures { result ≡ meaning closing_verbs word.now }
{
    if word == "complete" {
        Some(CommandVerb::Complete)
    } else if word == "fail" {
        Some(CommandVerb::Fail)
    } else if word == "cancel" {
        Some(CommandVerb::Cancel)
    } else if word == "continue" {
        Some(CommandVerb::Continue)
    } else if word == "again" {
        Some(CommandVerb::Again)
    } else {
        None
    }
}

/// Returns what the first word of a command means that is about another run, asks for a version or
/// closes the run.
fn run_verb(word: &str) -> Option<CommandVerb>
    ensures { result ≡ meaning run_verbs word.now }
{
    if word == "child" {
        Some(CommandVerb::Child)
    } else if word == "cancel-child" {
        Some(CommandVerb::CancelChild)
    } else if word == "signal" {
        Some(CommandVerb::Signal)
    } else if word == "ask" {
        Some(CommandVerb::Ask)
    } else {
        closing_verb(word)
    }
}

/// Returns what the first word of a command means.
#[tactic(auto, unfolding(crate::specs::Verbs::command_verb))]
pub(crate) fn command_verb(word: &str) -> Option<CommandVerb>
    ensures { result ≡ command_verb word.now }
{
    if word == "activity" {
        Some(CommandVerb::Activity)
    } else if word == "cancel-activity" {
        Some(CommandVerb::CancelActivity)
    } else if word == "timer" {
        Some(CommandVerb::Timer)
    } else if word == "cancel-timer" {
        Some(CommandVerb::CancelTimer)
    } else {
        run_verb(word)
    }
}

/// Returns the source of an input or a result that a word names.
pub(crate) fn source_of(word: &str) -> Option<Source>
    ensures { result ≡ source_of word.now }
{
    if word == "" {
        Some(Source::Nothing)
    } else if word == "input" {
        Some(Source::Input)
    } else if word == "brought" {
        Some(Source::Brought)
    } else if word == "kept" {
        Some(Source::Kept)
    } else {
        None
    }
}
