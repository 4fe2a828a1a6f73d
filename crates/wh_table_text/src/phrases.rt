//! The meaning of the phrases of a table.
ghost use Rattle.std.specs.Prelude.{◌≡◌, option_map};
ghost use Rattle.wh_table_text.specs.Words.{phrase_seen};
ghost use Rattle.wh_table_text.specs.Phrases.{pattern_shown, template_shown, naming_shown};
ghost use Rattle.wh_table_text.specs.Phrases.{pattern_of, template_of, compared, condition_of, effect_of, naming_of};

use crate::counters::{NamedCounter, counter_named};
use crate::numbers::{number_below, number_in, seconds_in, version_in};
use crate::verbs::{CommandVerb, JobVerb, source_of};
use crate::words::PhraseWords;
use wh_rows::{CommandTemplate, Condition, Counter, JobPattern, Naming, RowEffect};

/// Returns the jobs that a phrase describes.
pub(crate) fn pattern_of<'a>(verb: JobVerb, phrase: &PhraseWords<'a>) -> Option<JobPattern<&'a str>>
    ensures { option_map pattern_shown result ≡ pattern_of verb (phrase_seen phrase.now) }
{
    match verb {
        JobVerb::Start => {
            if phrase.has_none() {
                Some(JobPattern::Start)
            } else {
                None
            }
        }
        JobVerb::Cancel => {
            if phrase.has_none() {
                Some(JobPattern::CancelRequested)
            } else {
                None
            }
        }
        JobVerb::Signal => Some(JobPattern::Signal(phrase.name()?)),
        JobVerb::Done => Some(JobPattern::Done(phrase.name()?)),
        JobVerb::Failed => Some(JobPattern::NotDone(phrase.name()?)),
        JobVerb::Fired => Some(JobPattern::Fired(phrase.name()?)),
        JobVerb::ChildStarted => Some(JobPattern::ChildStarted(phrase.name()?)),
        JobVerb::ChildDone => Some(JobPattern::ChildDone(phrase.name()?)),
        JobVerb::ChildCanceled => Some(JobPattern::ChildCanceled(phrase.name()?)),
        JobVerb::ChildFailed => Some(JobPattern::ChildNotDone(phrase.name()?)),
        JobVerb::Version => {
            if phrase.has_pair() {
                Some(JobPattern::Version(phrase.first, version_in(phrase.second)?))
            } else {
                Some(JobPattern::AnyVersion(phrase.name()?))
            }
        }
    }
}

/// Returns the command that a phrase describes.
pub(crate) fn template_of<'a>(
    verb: CommandVerb,
    phrase: &PhraseWords<'a>,
) -> Option<CommandTemplate<&'a str>>
    ensures { option_map template_shown result ≡ template_of verb (phrase_seen phrase.now) }
{
    match verb {
        CommandVerb::CancelActivity => Some(CommandTemplate::CancelActivity(phrase.name()?)),
        CommandVerb::CancelTimer => Some(CommandTemplate::CancelTimer(phrase.name()?)),
        CommandVerb::CancelChild => Some(CommandTemplate::CancelChild(phrase.name()?)),
        CommandVerb::Fail => Some(CommandTemplate::Fail(phrase.after)),
        CommandVerb::Cancel => {
            if phrase.has_none() {
                Some(CommandTemplate::Cancel)
            } else {
                None
            }
        }
        CommandVerb::Complete => Some(CommandTemplate::Complete(source_of(phrase.after)?)),
        // An empty type continues as a new run of the same table.
        CommandVerb::Again => Some(CommandTemplate::ContinueAsNew("", source_of(phrase.after)?)),
        CommandVerb::Continue => {
            if !phrase.has_kind() {
                return None;
            }
            Some(CommandTemplate::ContinueAsNew(phrase.first, source_of(phrase.second)?))
        }
        CommandVerb::Activity => {
            if !phrase.has_two() {
                return None;
            }
            Some(CommandTemplate::StartActivity(
                phrase.first,
                phrase.second,
                source_of(phrase.third)?,
            ))
        }
        CommandVerb::Child => {
            if !phrase.has_two() {
                return None;
            }
            Some(CommandTemplate::StartChild(phrase.first, phrase.second, source_of(phrase.third)?))
        }
        CommandVerb::Signal => {
            if !phrase.has_two() {
                return None;
            }
            Some(CommandTemplate::SignalExternal(
                phrase.first,
                phrase.second,
                source_of(phrase.third)?,
            ))
        }
        CommandVerb::Timer => {
            if !phrase.has_pair() {
                return None;
            }
            Some(CommandTemplate::StartTimer(phrase.first, seconds_in(phrase.second)?))
        }
        CommandVerb::Ask => {
            if !phrase.has_two() {
                return None;
            }
            Some(CommandTemplate::Ask(
                phrase.first,
                version_in(phrase.second)?,
                version_in(phrase.third)?,
            ))
        }
    }
}

/// Returns the condition on a counter with this sign (`<` or `>=`) and number.
fn comparison(counter: Counter, sign: &str, number: u64) -> Option<Condition>
    ensures { result ≡ compared counter sign.now number }
{
    if sign == "<" {
        Some(Condition::Below(counter, number))
    } else if sign == ">=" {
        Some(Condition::AtLeast(counter, number))
    } else {
        None
    }
}

/// Returns the condition that a phrase describes.
pub(crate) fn condition_of(names: &[NamedCounter], phrase: &PhraseWords) -> Option<Condition>
    ensures { result ≡ condition_of names.now (phrase_seen phrase.now) }
{
    if !phrase.has_pair() {
        return None;
    }
    let counter = counter_named(names, phrase.verb)?;
    let number = number_in(phrase.second)?;
    comparison(counter, phrase.first, number)
}

/// Returns the mark that a phrase describes.
pub(crate) fn effect_of(names: &[NamedCounter], phrase: &PhraseWords) -> Option<RowEffect>
    ensures { result ≡ effect_of names.now (phrase_seen phrase.now) }
{
    if phrase.verb == "keep" {
        if phrase.has_none() {
            Some(RowEffect::Keep)
        } else {
            None
        }
    } else if phrase.verb == "up" {
        Some(RowEffect::Up(counter_named(names, phrase.name()?)?))
    } else if phrase.verb == "zero" {
        Some(RowEffect::Zero(counter_named(names, phrase.name()?)?))
    } else {
        None
    }
}

/// Returns the naming of runs that a phrase describes: by a payload whose number, counted from 0,
/// is below 65,536.
pub(crate) fn naming_of<'a>(phrase: &PhraseWords<'a>) -> Option<Naming<&'a str>>
    ensures { option_map naming_shown result ≡ naming_of (phrase_seen phrase.now) }
{
    if phrase.verb != "payload" {
        return None;
    }
    let number = number_below(65_536, phrase.first)?;
    Some(Naming::ByPayload(number as usize, phrase.second, phrase.third))
}
