//! The forms in which the SDKs of Temporal record markers.

ghost use Rattle.std.specs.Prelude.{◌≡◌, option_map};
ghost use Rattle.std.specs.List.{find};
ghost use Rattle.serde_json.specs.View.{view};
ghost use Rattle.wh_markers.specs.Forms as forms;

use serde_json::Value;
use wh_json::field;

/// What a marker records.
#[derive(Clone, Copy, Debug)]
pub enum MarkerKind {
    /// The result of a local activity.
    LocalActivity,
    /// The value of a side effect.
    SideEffect,
    /// The value of a mutable side effect.
    MutableSideEffect,
    /// The version of a change (`GetVersion`).
    Version,
    /// That the code has a patch (`patched`, `deprecatePatch`).
    Patch,
    /// Anything else.
    Other,
}

/// Where a value stands in the details of a marker: in the detail with this key, and there in the
/// member with this name, or the whole of it if the name is empty. It stands nowhere if the key is
/// empty.
pub(crate) struct Spot {
    /// The key of the detail.
    pub(crate) detail: &'static str,
    /// The name of the member.
    pub(crate) member: &'static str,
}

/// A form in which an SDK records a marker.
pub(crate) struct MarkerForm {
    /// The name of the marker.
    pub(crate) marker: &'static str,
    /// What it records.
    pub(crate) kind: MarkerKind,
    /// The name or the id of that.
    pub(crate) name: Spot,
    /// The attempt of a local activity, or the version of a change.
    pub(crate) number: Spot,
    /// Whether a patch is deprecated.
    pub(crate) deprecated: Spot,
}

/// The forms: those of the SDK for Go, which PHP uses too, and of the SDK for Java, then those of
/// the SDKs for TypeScript, Python, .NET and Ruby. In Java the result of a local activity may be
/// the detail `data`.
#[rattlefmt::skip]
static FORMS: [MarkerForm; 10] = [
    MarkerForm { marker: "Version", kind: MarkerKind::Version,
        name: Spot { detail: "change-id", member: "" }, number: Spot { detail: "version", member: "" },
        deprecated: Spot { detail: "", member: "" } },
    MarkerForm { marker: "Version", kind: MarkerKind::Version,
        name: Spot { detail: "changeId", member: "" }, number: Spot { detail: "version", member: "" },
        deprecated: Spot { detail: "", member: "" } },
    MarkerForm { marker: "SideEffect", kind: MarkerKind::SideEffect,
        name: Spot { detail: "side-effect-id", member: "" }, number: Spot { detail: "", member: "" },
        deprecated: Spot { detail: "", member: "" } },
    MarkerForm { marker: "SideEffect", kind: MarkerKind::SideEffect,
        name: Spot { detail: "", member: "" }, number: Spot { detail: "", member: "" },
        deprecated: Spot { detail: "", member: "" } },
    MarkerForm { marker: "MutableSideEffect", kind: MarkerKind::MutableSideEffect,
        name: Spot { detail: "side-effect-id", member: "" }, number: Spot { detail: "", member: "" },
        deprecated: Spot { detail: "", member: "" } },
    MarkerForm { marker: "MutableSideEffect", kind: MarkerKind::MutableSideEffect,
        name: Spot { detail: "id", member: "" }, number: Spot { detail: "", member: "" },
        deprecated: Spot { detail: "", member: "" } },
    MarkerForm { marker: "LocalActivity", kind: MarkerKind::LocalActivity,
        name: Spot { detail: "type", member: "" }, number: Spot { detail: "meta", member: "atpt" },
        deprecated: Spot { detail: "", member: "" } },
    MarkerForm { marker: "LocalActivity", kind: MarkerKind::LocalActivity,
        name: Spot { detail: "data", member: "ActivityType" }, number: Spot { detail: "data", member: "Attempt" },
        deprecated: Spot { detail: "", member: "" } },
    MarkerForm { marker: "core_patch", kind: MarkerKind::Patch,
        name: Spot { detail: "patch-data", member: "id" }, number: Spot { detail: "", member: "" },
        deprecated: Spot { detail: "patch-data", member: "deprecated" } },
    MarkerForm { marker: "core_local_activity", kind: MarkerKind::LocalActivity,
        name: Spot { detail: "data", member: "activity_type" }, number: Spot { detail: "data", member: "attempt" },
        deprecated: Spot { detail: "", member: "" } },
];

/// Returns whether details have a detail with the key, or the key is empty.
fn has_detail(details: &Value, detail: &str) -> bool
    ensures { result ≡ forms.has_detail detail.now (view details.now) }
{
    detail.is_empty() || field(Some(details), detail).is_some()
}

/// Returns whether a marker with this name and these details is of the form.
fn is_of_form(form: &MarkerForm, marker: &str, details: &Value) -> bool
    ensures { result ≡ forms.is_of_form marker.now (view details.now) (forms.form_of form.now) }
{
    form.marker == marker && has_detail(details, form.name.detail)
}

/// Returns the first of the forms of which a marker with this name and these details is.
#[tactic(auto, unfolding(crate::specs::Forms::form_among))]
fn form_in<'t>(rows: &'t [MarkerForm], marker: &str, details: &Value) -> Option<&'t MarkerForm>
    ensures { option_map (λ form. forms.form_of form.now) result
        ≡ forms.form_among rows.now marker.now (view details.now) }
{
    for form in rows {
        if is_of_form(form, marker, details) {
            return Some(form);
        }
    }
    None
}

/// Returns the form of which a marker with this name and these details is, if it is of one.
pub(crate) fn form_for(marker: &str, details: &Value) -> Option<&'static MarkerForm>
    ensures { option_map (λ form. forms.form_of form.now) result
        ≡ forms.form_for marker.now (view details.now) }
{
    form_in(&FORMS, marker, details)
}
