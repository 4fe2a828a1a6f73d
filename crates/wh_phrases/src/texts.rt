//! The text of a value that differs, and its object in JSON.

ghost use Rattle.std.specs.Prelude.{◌≡◌, Some};
ghost use Rattle.wh_phrases.specs.Texts.{kind_word, value_object, value_text};

use crate::comparing::{OtherValue, ValueKind};
use std::fmt;
use wh_tester::{EscapedName, Shown};

/// What a value is.
fn kind_word(kind: ValueKind) -> &'static str
    ensures { result.now ≡ kind_word kind }
{
    match kind {
        ValueKind::Input => "input",
        ValueKind::Result => "result",
        ValueKind::Duration => "duration",
        ValueKind::Failure => "failure",
    }
}

/// `event NUMBER: KIND: sends SENT, recorded RECORDED`, where the kind is `input`, `result`,
/// `duration` or `failure`, and both sides are shown as names in reports are.
#[derive(Drop)]
pub struct OtherValueText<'a>(pub &'a OtherValue);

impl fmt::Display for OtherValueText<'_> {
    ghost output = { λ v. Some (value_text v.0.now) };

    #[tactic(auto, unfolding(crate::specs::Texts::value_text))]
    fn fmt<W: fmt::Write>(&self, f: &mut fmt::Formatter<W>) -> fmt::Result {
        let number = self.0.event.get();
        let kind = kind_word(self.0.kind);
        let sent = Shown(self.0.sent.get());
        let recorded = Shown(self.0.recorded.get());
        write!(
            f,
            "event {number}: {kind}: sends {sent}, recorded {recorded}"
        )
    }
}

/// The same as an object in JSON (RFC 8259): its members are `event`, `kind`, `sent` and
/// `recorded`.
#[derive(Drop)]
pub struct OtherValueObject<'a>(pub &'a OtherValue);

impl fmt::Display for OtherValueObject<'_> {
    ghost output = { λ v. Some (value_object v.0.now) };

    #[tactic(auto, unfolding(crate::specs::Texts::value_object))]
    fn fmt<W: fmt::Write>(&self, f: &mut fmt::Formatter<W>) -> fmt::Result {
        let number = self.0.event.get();
        let kind = kind_word(self.0.kind);
        let sent = EscapedName(self.0.sent.get());
        let recorded = EscapedName(self.0.recorded.get());
        write!(
            f,
            "{{\"event\":{number},\"kind\":\"{kind}\",\"sent\":\"{sent}\",\"recorded\":\"{recorded}\"}}"
        )
    }
}
