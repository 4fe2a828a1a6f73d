//! The rules for the commands of a row.
ghost use Rattle.std.specs.Prelude.{◌≡◌, bytes_eq};
ghost use Rattle.wh_rows.specs.Rows.{closes, some_closes};
ghost use Rattle.wh_rows.specs.Rules.{asks, ends_well, opens_same, opens_again, opens_once, is_range, are_ranges};
ghost use Rattle.wh_row_rules.specs.Ends.{stops, range_is_one};

use wh_events::Text;
use wh_rows::CommandTemplate;

/// Returns whether both texts are equal.
pub fn text_eq(text: &Text, other: &Text) -> bool
    ensures { result ≡ bytes_eq text.now other.now }
{
    text.get() == other.get()
}

/// Returns whether the command asks for a version.
fn asks(template: &CommandTemplate<Text>) -> bool
    ensures { result ≡ asks template.now }
{
    matches!(template, CommandTemplate::Ask(_, _, _))
}

/// Returns whether the command closes the run.
pub fn closes(template: &CommandTemplate<Text>) -> bool
    ensures { result ≡ closes template.now }
{
    match template {
        CommandTemplate::Complete(_) => true,
        CommandTemplate::Fail(_) => true,
        CommandTemplate::Cancel => true,
        CommandTemplate::ContinueAsNew(_, _) => true,
        _ => false,
    }
}

/// Returns whether one of the commands closes the run.
pub fn some_closes(templates: &[CommandTemplate<Text>]) -> bool
    ensures { result ≡ some_closes templates.now }
{
    for template in templates {
        if closes(template) {
            return true;
        }
    }
    false
}

/// Returns whether nothing may follow the command.
fn stops(template: &CommandTemplate<Text>) -> bool
    ensures { result ≡ stops template.now }
{
    asks(template) || closes(template)
}

/// Returns whether no command but the last one asks for a version or closes the run.
pub fn ends_well(templates: &[CommandTemplate<Text>]) -> bool
    ensures { result ≡ ends_well templates.now }
{
    let mut stopped = false;
    for template in templates {
        if stopped {
            return false;
        }
        stopped = stops(template);
    }
    true
}

/// Returns whether both commands start something of the same kind with the same id.
fn opens_same(template: &CommandTemplate<Text>, other: &CommandTemplate<Text>) -> bool
    ensures { result ≡ opens_same template.now other.now }
{
    match template {
        CommandTemplate::StartActivity(id, _, _) => match other {
            CommandTemplate::StartActivity(given, _, _) => text_eq(id, given),
            _ => false,
        },
        CommandTemplate::StartTimer(id, _) => match other {
            CommandTemplate::StartTimer(given, _) => text_eq(id, given),
            _ => false,
        },
        CommandTemplate::StartChild(id, _, _) => match other {
            CommandTemplate::StartChild(given, _, _) => text_eq(id, given),
            _ => false,
        },
        _ => false,
    }
}

/// Returns whether one of the commands starts something of the same kind with the same id as this
/// one.
fn opens_again(template: &CommandTemplate<Text>, rest: &[CommandTemplate<Text>]) -> bool
    ensures { result ≡ opens_again template.now rest.now }
{
    for other in rest {
        if opens_same(template, other) {
            return true;
        }
    }
    false
}

/// Returns whether no two of the commands start something of the same kind with the same id.
pub(crate) fn opens_once(templates: &[CommandTemplate<Text>]) -> bool
    ensures { result ≡ opens_once templates.now }
{
    for (index, template) in templates.iter().enumerate() {
        if opens_again(template, &templates[index + 1..]) {
            return false;
        }
    }
    true
}

/// Returns whether the range of versions is valid: the least is at least -1, the greatest is at
/// least 0, and not below the least.
fn is_range(least: i32, greatest: i32) -> bool
    ensures { result ≡ is_range least greatest }
{
    !(greatest < least || (least < -1 || greatest < 0))
}

/// Returns whether the command asks for a valid range of versions, or for none.
fn range_is_one(template: &CommandTemplate<Text>) -> bool
    ensures { result ≡ range_is_one template.now }
{
    match template {
        CommandTemplate::Ask(_, least, greatest) => is_range(*least, *greatest),
        _ => true,
    }
}

/// Returns whether each range of versions that the commands ask for is valid.
pub(crate) fn are_ranges(templates: &[CommandTemplate<Text>]) -> bool
    ensures { result ≡ are_ranges templates.now }
{
    for template in templates {
        if !range_is_one(template) {
            return false;
        }
    }
    true
}
