//! Reads payloads and their metadata.

ghost use Rattle.std.specs.Prelude.{◌≡◌, option_map};
ghost use Rattle.serde_json.specs.View.{view, members_view};
ghost use Rattle.wh_payload_metadata.specs.Payloads.{is_payloads, data_of, metadata_of, encoding_in, have_more, have_other};

use serde_json::{Map, Value};
use wh_json::{field, text_of};

/// Whether a member of this name is a list of payloads.
pub(crate) fn is_payloads(name: &str) -> bool
    ensures { result ≡ is_payloads name.now }
{
    name == "payloads"
}

/// The data of a payload, or the empty text if it has none.
pub(crate) fn data_of(payload: &Value) -> &str
    ensures { result.now ≡ data_of (view payload.now) }
{
    text_of(field(Some(payload), "data"))
}

/// The metadata of a payload.
pub(crate) fn metadata_of(payload: &Value) -> Option<&Value>
    ensures { option_map (λ v. view v.now) result ≡ metadata_of (view payload.now) }
{
    field(Some(payload), "metadata")
}

/// The encoding that metadata name, or the empty text if they name none.
pub(crate) fn encoding_in<'v>(metadata: Option<&'v Value>) -> &'v str
    ensures { result.now ≡ encoding_in (option_map (λ v. view v.now) metadata.entry) }
{
    text_of(field(metadata, "encoding"))
}

/// Whether one of these members has another name than `encoding`.
fn have_other(members: &Map<String, Value>) -> bool
    ensures { result ≡ have_other (members_view members.now.entries) }
{
    for (name, _value) in members.iter() {
        if name.as_str() != "encoding" {
            return true;
        }
    }
    false
}

/// Whether metadata are an object with a member beside `encoding`.
pub(crate) fn have_more(metadata: &Value) -> bool
    ensures { result ≡ have_more (view metadata.now) }
{
    match metadata.as_object() {
        Some(members) => have_other(members),
        None => false,
    }
}
