//! Compares the jobs that two rows are for.
ghost use Rattle.std.specs.Prelude.{◌≡◌};
ghost use Rattle.wh_rows.specs.declared.row.JobPattern.TheVariants as patterns;
ghost use Rattle.wh_rows.specs.Rules.{covers};

use crate::commands::text_eq;
use wh_events::Text;
use wh_rows::JobPattern;

/// Returns whether the pattern matches each job that gives this version of the change.
pub(crate) fn covers_version(pattern: &JobPattern<Text>, change: &Text, version: i32) -> bool
    ensures { result ≡ covers pattern.now (patterns.Version change.now version) }
{
    match pattern {
        JobPattern::Version(name, number) => text_eq(name, change) && *number == version,
        JobPattern::AnyVersion(name) => text_eq(name, change),
        _ => false,
    }
}

/// Returns whether the pattern matches each job that gives a version of the change, whichever it
/// is.
pub(crate) fn covers_any_version(pattern: &JobPattern<Text>, change: &Text) -> bool
    ensures { result ≡ covers pattern.now (patterns.AnyVersion change.now) }
{
    match pattern {
        JobPattern::AnyVersion(name) => text_eq(name, change),
        _ => false,
    }
}

/// Returns whether the pattern matches each job of this child being canceled.
fn covers_canceled(pattern: &JobPattern<Text>, id: &Text) -> bool
    ensures { result ≡ covers pattern.now (patterns.ChildCanceled id.now) }
{
    match pattern {
        JobPattern::ChildCanceled(name) => text_eq(name, id),
        JobPattern::ChildNotDone(name) => text_eq(name, id),
        _ => false,
    }
}

/// Returns whether this pattern matches each job that the other one matches.
pub fn covers(pattern: &JobPattern<Text>, other: &JobPattern<Text>) -> bool
    ensures { result ≡ covers pattern.now other.now }
{
    match other {
        JobPattern::Start => matches!(pattern, JobPattern::Start),
        JobPattern::CancelRequested => matches!(pattern, JobPattern::CancelRequested),
        JobPattern::Signal(name) => match pattern {
            JobPattern::Signal(given) => text_eq(given, name),
            _ => false,
        },
        JobPattern::Done(id) => match pattern {
            JobPattern::Done(given) => text_eq(given, id),
            _ => false,
        },
        JobPattern::NotDone(id) => match pattern {
            JobPattern::NotDone(given) => text_eq(given, id),
            _ => false,
        },
        JobPattern::Fired(id) => match pattern {
            JobPattern::Fired(given) => text_eq(given, id),
            _ => false,
        },
        JobPattern::ChildStarted(id) => match pattern {
            JobPattern::ChildStarted(given) => text_eq(given, id),
            _ => false,
        },
        JobPattern::ChildDone(id) => match pattern {
            JobPattern::ChildDone(given) => text_eq(given, id),
            _ => false,
        },
        JobPattern::ChildNotDone(id) => match pattern {
            JobPattern::ChildNotDone(given) => text_eq(given, id),
            _ => false,
        },
        JobPattern::ChildCanceled(id) => covers_canceled(pattern, id),
        JobPattern::Version(change, version) => covers_version(pattern, change, *version),
        JobPattern::AnyVersion(change) => covers_any_version(pattern, change),
    }
}
