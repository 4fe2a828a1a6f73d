//! Finds the attributes of events, also of types that the reader of histories does not read.

ghost use Rattle.std.specs.Prelude.{◌≡◌, IfOk, option_map};
ghost use Rattle.serde_json.specs.View.{view, members_view};
ghost use Rattle.wh_view.specs.Attributes.{holds_attributes, attributes_among, attributes_of, inner, text, inner_text};

use serde_json::{Map, Value};
use std::alloc::Global;
use wh_events::{OutOfMemory, Text};
use wh_json::{attributes_in, field, text_of};
use wh_markers::copy_text;

/// Returns whether a member of this name holds the attributes of an event.
fn holds_attributes(name: &str) -> bool
    ensures { result ≡ holds_attributes name.now }
{
    name.as_bytes().ends_with(b"EventAttributes".as_slice())
}

/// Returns the first of the members that holds attributes.
fn attributes_among(members: &Map<String, Value>) -> Option<&Value>
    ensures { option_map (λ v. view v.now) result ≡ attributes_among (members_view members.now.entries) }
{
    for (name, value) in members.iter() {
        if holds_attributes(name.as_str()) {
            return Some(value);
        }
    }
    None
}

/// Returns the attributes of an event: those of its type if the reader of histories reads it, or
/// else the first member that holds attributes.
pub(crate) fn attributes_of(member: &Value) -> Option<&Value>
    ensures { option_map (λ v. view v.now) result ≡ attributes_of (view member.now) }
{
    match attributes_in(member) {
        Some(attributes) => Some(attributes),
        None => attributes_among(member.as_object()?),
    }
}

/// Returns the member with a name of the member with another.
#[tactic(auto, unfolding(crate::specs::Attributes::inner))]
pub(crate) fn inner<'v>(value: Option<&'v Value>, outer: &str, name: &str) -> Option<&'v Value>
    ensures { option_map (λ v. view v.now) result
        ≡ inner outer.now name.now (option_map (λ v. view v.now) value.entry) }
{
    field(field(value, outer), name)
}

/// Returns the text that the member with a name is; empty if it is absent, or none.
#[tactic(auto, unfolding(crate::specs::Attributes::text))]
fn text<'v>(value: Option<&'v Value>, name: &str) -> &'v str
    ensures { result.now ≡ text name.now (option_map (λ v. view v.now) value.entry) }
{
    text_of(field(value, name))
}

/// Returns the text that a member of a member is; empty if it is absent, or none.
#[tactic(auto, unfolding(crate::specs::Attributes::inner_text))]
pub(crate) fn inner_text<'v>(value: Option<&'v Value>, outer: &str, name: &str) -> &'v str
    ensures { result.now ≡ inner_text outer.now name.now (option_map (λ v. view v.now) value.entry) }
{
    text_of(inner(value, outer, name))
}

/// Copies the text that the member with a name is.
pub(crate) fn copy_member(
    alloc: Global,
    value: Option<&Value>,
    name: &str,
) -> Result<Text, OutOfMemory>
    ensures { IfOk result (λ copy. copy ≡ text name.now (option_map (λ v. view v.now) value.entry)) }
{
    copy_text(alloc, text(value, name))
}

/// Copies the text that a member of a member is.
pub(crate) fn copy_inner(
    alloc: Global,
    value: Option<&Value>,
    outer: &str,
    name: &str,
) -> Result<Text, OutOfMemory>
    ensures { IfOk result (λ copy.
        copy ≡ inner_text outer.now name.now (option_map (λ v. view v.now) value.entry)) }
{
    copy_text(alloc, inner_text(value, outer, name))
}
