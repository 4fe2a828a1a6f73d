//! Which patterns share jobs.
ghost use Rattle.std.specs.Prelude.{◌≡◌, map};
ghost use Rattle.wh_rows.specs.Deciding.{number_of, text_of, texts_apart, versions_apart, apart, is_among};

use crate::patterns::covers;
use wh_events::Text;
use wh_rows::JobPattern;

/// Returns the number of a pattern: those of two numbers share no job.
fn number_of(pattern: &JobPattern<Text>) -> u8
    ensures { result ≡ number_of pattern.now }
{
    match pattern {
        JobPattern::Start => 1,
        JobPattern::Signal(_) => 2,
        JobPattern::CancelRequested => 3,
        JobPattern::Done(_) => 4,
        JobPattern::NotDone(_) => 5,
        JobPattern::Fired(_) => 6,
        JobPattern::ChildStarted(_) => 7,
        JobPattern::ChildDone(_) => 8,
        JobPattern::ChildCanceled(_) | JobPattern::ChildNotDone(_) => 9,
        JobPattern::Version(_, _) | JobPattern::AnyVersion(_) => 10,
    }
}

/// Returns the text of a pattern: an id, the name of a signal or of a change; empty if it has none.
pub fn text_of(pattern: &JobPattern<Text>) -> &str
    ensures { result.now ≡ text_of pattern.now }
{
    match pattern {
        JobPattern::Start | JobPattern::CancelRequested => "",
        JobPattern::Signal(text)
        | JobPattern::Done(text)
        | JobPattern::NotDone(text)
        | JobPattern::Fired(text)
        | JobPattern::ChildStarted(text)
        | JobPattern::ChildDone(text)
        | JobPattern::ChildCanceled(text)
        | JobPattern::ChildNotDone(text)
        | JobPattern::Version(text, _)
        | JobPattern::AnyVersion(text) => text.get(),
    }
}

/// Returns whether the texts differ, whatever the name of the run.
fn texts_apart(one: &str, other: &str) -> bool
    ensures { result ≡ texts_apart one.now other.now }
{
    one != other && (one != "@" && other != "@")
}

/// Returns whether the patterns are for two versions.
fn versions_apart(one: &JobPattern<Text>, other: &JobPattern<Text>) -> bool
    ensures { result ≡ versions_apart one.now other.now }
{
    match one {
        JobPattern::Version(_, number) => match other {
            JobPattern::Version(_, version) => *number != *version,
            _ => false,
        },
        _ => false,
    }
}

/// Returns whether no job is of both patterns, whatever the name of the run.
pub fn are_apart(one: &JobPattern<Text>, other: &JobPattern<Text>) -> bool
    ensures { result ≡ apart one.now other.now }
{
    if number_of(one) == number_of(other) {
        texts_apart(text_of(one), text_of(other)) || versions_apart(one, other)
    } else {
        true
    }
}

/// Returns whether each job of the pattern is of one of these.
pub fn is_among(one: &JobPattern<Text>, patterns: &[&JobPattern<Text>]) -> bool
    ensures { result ≡ is_among one.now (map (λ pattern. pattern.now) patterns.now) }
{
    for other in patterns {
        if covers(other, one) {
            return true;
        }
    }
    false
}
