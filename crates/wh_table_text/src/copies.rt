//! Copies borrowed texts into owned ones.
ghost use Rattle.std.specs.Prelude.{◌≡◌, Ok};
ghost use Rattle.wh_table_text.specs.Phrases.{pattern_shown, template_shown, naming_shown};
ghost use Rattle.wh_row_rules.specs.Outcome.{Gives};

use crate::fault::ReadResult;
use std::alloc::Global;
use wh_events::Text;
use wh_rows::{CommandTemplate, JobPattern, Naming};

/// Returns an owned copy of the text.
pub(crate) fn text_copy(alloc: Global, text: &str) -> ReadResult<Text>
    ensures { Gives (λ text. text) result (Ok text.now) }
{
    Ok(Text::new(String::from_str(alloc, text)?))
}

/// Returns owned copies of two texts.
pub(crate) fn text_pair(alloc: Global, first: &str, second: &str) -> ReadResult<(Text, Text)>
    ensures first { Gives (λ texts. texts.0) result (Ok first.now) }
    ensures second { Gives (λ texts. texts.1) result (Ok second.now) }
{
    let first = text_copy(alloc, first)?;
    let second = text_copy(alloc, second)?;
    Ok((first, second))
}

/// Returns a copy of the pattern that owns its texts.
pub(crate) fn pattern_copy(
    alloc: Global,
    pattern: &JobPattern<&str>,
) -> ReadResult<JobPattern<Text>>
    ensures { Gives (λ pattern. pattern) result (Ok (pattern_shown pattern.now)) }
{
    Ok(match pattern {
        JobPattern::Start => JobPattern::Start,
        JobPattern::Signal(name) => JobPattern::Signal(text_copy(alloc, name)?),
        JobPattern::CancelRequested => JobPattern::CancelRequested,
        JobPattern::Done(id) => JobPattern::Done(text_copy(alloc, id)?),
        JobPattern::NotDone(id) => JobPattern::NotDone(text_copy(alloc, id)?),
        JobPattern::Fired(id) => JobPattern::Fired(text_copy(alloc, id)?),
        JobPattern::ChildStarted(id) => JobPattern::ChildStarted(text_copy(alloc, id)?),
        JobPattern::ChildDone(id) => JobPattern::ChildDone(text_copy(alloc, id)?),
        JobPattern::ChildCanceled(id) => JobPattern::ChildCanceled(text_copy(alloc, id)?),
        JobPattern::ChildNotDone(id) => JobPattern::ChildNotDone(text_copy(alloc, id)?),
        JobPattern::Version(id, number) => JobPattern::Version(text_copy(alloc, id)?, *number),
        JobPattern::AnyVersion(id) => JobPattern::AnyVersion(text_copy(alloc, id)?),
    })
}

/// Returns a copy of the command that owns its texts.
pub(crate) fn template_copy(
    alloc: Global,
    template: &CommandTemplate<&str>,
) -> ReadResult<CommandTemplate<Text>>
    ensures { Gives (λ template. template) result (Ok (template_shown template.now)) }
{
    Ok(match template {
        CommandTemplate::StartActivity(id, kind, source) => {
            let (id, kind) = text_pair(alloc, id, kind)?;
            CommandTemplate::StartActivity(id, kind, *source)
        }
        CommandTemplate::CancelActivity(id) => {
            CommandTemplate::CancelActivity(text_copy(alloc, id)?)
        }
        CommandTemplate::StartTimer(id, seconds) => {
            CommandTemplate::StartTimer(text_copy(alloc, id)?, *seconds)
        }
        CommandTemplate::CancelTimer(id) => CommandTemplate::CancelTimer(text_copy(alloc, id)?),
        CommandTemplate::StartChild(id, kind, source) => {
            let (id, kind) = text_pair(alloc, id, kind)?;
            CommandTemplate::StartChild(id, kind, *source)
        }
        CommandTemplate::CancelChild(id) => CommandTemplate::CancelChild(text_copy(alloc, id)?),
        CommandTemplate::SignalExternal(id, name, source) => {
            let (id, name) = text_pair(alloc, id, name)?;
            CommandTemplate::SignalExternal(id, name, *source)
        }
        CommandTemplate::Ask(id, min, max) => {
            CommandTemplate::Ask(text_copy(alloc, id)?, *min, *max)
        }
        CommandTemplate::Complete(source) => CommandTemplate::Complete(*source),
        CommandTemplate::Fail(message) => CommandTemplate::Fail(text_copy(alloc, message)?),
        CommandTemplate::Cancel => CommandTemplate::Cancel,
        CommandTemplate::ContinueAsNew(kind, source) => {
            CommandTemplate::ContinueAsNew(text_copy(alloc, kind)?, *source)
        }
    })
}

/// Returns a copy of the naming that owns its texts.
pub(crate) fn naming_copy(alloc: Global, naming: &Naming<&str>) -> ReadResult<Naming<Text>>
    ensures { Gives (λ naming. naming) result (Ok (naming_shown naming.now)) }
{
    Ok(match naming {
        Naming::Nameless => Naming::Nameless,
        Naming::ByPayload(number, prefix, other) => {
            let (prefix, other) = text_pair(alloc, prefix, other)?;
            Naming::ByPayload(*number, prefix, other)
        }
    })
}
