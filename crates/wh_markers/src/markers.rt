//! What a marker records.

ghost use Rattle.std.specs.Prelude.{◌≡◌, IfOk, option_map};
ghost use Rattle.serde_json.specs.View.{view};
ghost use Rattle.wh_markers.specs.Forms.{form_of};
ghost use Rattle.wh_markers.specs.Markers as markers;

use crate::forms::{MarkerForm, MarkerKind, Spot, form_for};
use crate::payloads::copy_text;
use crate::scalars::{Scalar, scalar_at};
use serde_json::Value;
use std::alloc::Global;
use wh_events::{OutOfMemory, Text};
use wh_json::{field, text_of};

/// What a marker records.
#[derive(Drop)]
pub struct RecordedMarker {
    /// The kind of that.
    pub kind: MarkerKind,
    /// The type of a local activity, the id of a side effect or of a change, or the name of a
    /// patch; empty if the marker has none that can be read.
    pub name: Text,
    /// The attempt of a local activity, or the version of a change, if it can be read.
    pub number: Option<i64>,
    /// Whether it is a patch that is deprecated.
    pub deprecated: bool,
}

/// Returns the name that a value is: a text, or the digits of a number; else an empty one.
fn name_in(alloc: Global, scalar: Scalar) -> Result<Text, OutOfMemory>
    ensures { IfOk result (λ name. name ≡ markers.name_in scalar) }
{
    match scalar {
        Scalar::Word(text) => Ok(text),
        Scalar::Number(number) => Ok(Text::new(format!(in alloc; "{number}")?)),
        Scalar::Flag(_) | Scalar::Nothing => copy_text(alloc, ""),
    }
}

/// Returns the number that a value is.
fn number_in(scalar: Scalar) -> Option<i64>
    ensures { result ≡ markers.number_in scalar }
{
    match scalar {
        Scalar::Number(number) => Some(number),
        Scalar::Word(_) | Scalar::Flag(_) | Scalar::Nothing => None,
    }
}

/// Returns whether a value is `true`.
fn is_true(scalar: Scalar) -> bool
    ensures { result ≡ markers.is_true scalar }
{
    match scalar {
        Scalar::Flag(flag) => flag,
        Scalar::Word(_) | Scalar::Number(_) | Scalar::Nothing => false,
    }
}

/// Returns the value at a spot of the details.
fn at_spot(alloc: Global, spot: &Spot, details: &Value) -> Result<Scalar, OutOfMemory>
    ensures { IfOk result (λ scalar.
        scalar ≡ markers.at_spot (spot.now.detail.now, spot.now.member.now) (view details.now)) }
{
    scalar_at(alloc, details, spot.detail, spot.member)
}

/// Returns what a marker of none of the forms records.
fn other_marker(alloc: Global) -> Result<RecordedMarker, OutOfMemory>
    ensures { IfOk result (λ marker. marker ≡ markers.other_marker) }
{
    let name = copy_text(alloc, "")?;
    Ok(RecordedMarker {
        kind: MarkerKind::Other,
        name,
        number: None,
        deprecated: false,
    })
}

/// Returns what a marker with these details records, if it is of the form.
fn marker_of_form(
    alloc: Global,
    details: &Value,
    form: &MarkerForm,
) -> Result<RecordedMarker, OutOfMemory>
    ensures { IfOk result (λ marker. marker ≡ markers.marker_of_form (view details.now) (form_of form.now)) }
{
    let number = number_in(at_spot(alloc, &form.number, details)?);
    let deprecated = is_true(at_spot(alloc, &form.deprecated, details)?);
    let name = name_in(alloc, at_spot(alloc, &form.name, details)?)?;
    Ok(RecordedMarker {
        kind: form.kind,
        name,
        number,
        deprecated,
    })
}

/// Returns what a marker of this name with these details records.
fn marker_named(
    alloc: Global,
    name: &str,
    details: Option<&Value>,
) -> Result<RecordedMarker, OutOfMemory>
    ensures { IfOk result (λ marker.
        marker ≡ markers.marker_named name.now (option_map (λ v. view v.now) details.entry)) }
{
    let Some(details) = details else {
        return other_marker(alloc);
    };
    match form_for(name, details) {
        Some(form) => marker_of_form(alloc, details, form),
        None => other_marker(alloc),
    }
}

/// Returns what a marker records, by the attributes of its event: their `markerName` and `details`,
/// in the first of these forms (the sources of the SDKs) that has the marker's name and one of the
/// details in which it says what it records:
///
/// | Marker | Records | SDK |
/// |---|---|---|
/// | `Version` | the version `version` of the change `change-id` | Go, PHP |
/// | `Version` | the version `version` of the change `changeId` | Java |
/// | `SideEffect` | the side effect `side-effect-id` (Java: without an id) | Go, PHP, Java |
/// | `MutableSideEffect` | the mutable side effect `side-effect-id` (Java: `id`) | Go, PHP, Java |
/// | `LocalActivity` | attempt `meta.atpt` of the local activity `type` | Java |
/// | `LocalActivity` | attempt `data.Attempt` of the local activity `data.ActivityType` | Go, PHP |
/// | `core_patch` | the patch `patch-data.id`, if so `patch-data.deprecated` | Core |
/// | `core_local_activity` | attempt `data.attempt` of the local `data.activity_type` | Core |
///
/// Core is what the SDKs for TypeScript, Python, .NET and Ruby stand on.
///
/// A detail is JSON in its first payload, or the first value of a list in its place. What can't be
/// read is absent, and a marker of none of the forms is `Other`. Fails with `OutOfMemory` if there
/// was no memory for that.
#[tactic(auto, unfolding(crate::specs::Markers::marker_of))]
pub fn marker_of(alloc: Global, attributes: Option<&Value>) -> Result<RecordedMarker, OutOfMemory>
    ensures { IfOk result (λ marker. marker ≡ markers.marker_of (option_map (λ v. view v.now) attributes.entry)) }
{
    let name = text_of(field(attributes, "markerName"));
    marker_named(alloc, name, field(attributes, "details"))
}
