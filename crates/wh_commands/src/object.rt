//! Builds JSON objects, member by member.

ghost use Rattle.std.specs.Prelude.{◌≡◌, IfOk, OnOk, codes, option_map};
ghost use Rattle.serde_json.specs.Data.{string, put};
ghost use Rattle.serde_json.specs.View.{view, members_view};
ghost use Rattle.wh_commands.specs.Commands.{failure, failure_with, named};
ghost use Rattle.wh_commands.specs.Durations.{duration_text};
ghost use Rattle.wh_commands.specs.Objects.{with_member};
ghost use Rattle.wh_commands.specs.Payloads.{payloads_written};

use crate::payload::payloads_value;
use serde_json::{Map, Value, json, put};
use std::alloc::{AllocError, Global};
use wh_events::Payload;

/// The members of a JSON object.
pub type Members = Map<String, Value>;

/// Adds a text under a name.
pub fn put_text(
    members: &mut Members,
    alloc: Global,
    name: &str,
    text: &str,
) -> Result<(), AllocError>
    ensures { OnOk result (members_view members.new.entries
        ≡ put name.now (string text.now) (members_view members.old.entries)) }
{
    let text = Value::try_from_str(alloc, text)?;
    put(members, alloc, name, text)
}

/// Adds a copy of a value under a name, if there is a value.
pub(crate) fn put_copy(
    members: &mut Members,
    alloc: Global,
    name: &str,
    value: &Option<Value>,
) -> Result<(), AllocError>
    ensures { OnOk result (members_view members.new.entries
        ≡ with_member name.now (option_map view value.now) (members_view members.old.entries)) }
{
    let Some(value) = value else {
        return Ok(());
    };
    put(members, alloc, name, value.clone()?)
}

/// Adds a type or a queue under a name, as an object with the type's or queue's own name.
pub(crate) fn put_named(
    members: &mut Members,
    alloc: Global,
    name: &str,
    own: &str,
) -> Result<(), AllocError>
    ensures { OnOk result (members_view members.new.entries
        ≡ put name.now (named own.now) (members_view members.old.entries)) }
{
    let own = json!(in alloc; {"name": own})?;
    put(members, alloc, name, own)
}

/// Adds a duration of whole seconds under a name.
pub fn put_duration(
    members: &mut Members,
    alloc: Global,
    name: &str,
    seconds: u64,
) -> Result<(), AllocError>
    ensures { OnOk result (members_view members.new.entries
        ≡ put name.now (string (duration_text seconds)) (members_view members.old.entries)) }
{
    let text = format!(in alloc; "{seconds}s")?;
    put(members, alloc, name, Value::String(text))
}

/// Adds payloads under a name.
pub fn put_payloads(
    members: &mut Members,
    alloc: Global,
    name: &str,
    payloads: &[Payload],
) -> Result<(), AllocError>
    ensures { OnOk result (members_view members.new.entries
        ≡ put name.now (payloads_written payloads.now) (members_view members.old.entries)) }
{
    let payloads = payloads_value(alloc, payloads)?;
    put(members, alloc, name, payloads)
}

/// Writes a failure with its `applicationFailureInfo`.
pub(crate) fn failure_with(alloc: Global, info: Value, message: &str) -> Result<Value, AllocError>
    ensures { IfOk result (λ value. view value ≡ failure_with (view info) message.now) }
{
    json!(in alloc; {"message": message, "source": "wfhost", "applicationFailureInfo": info})
}

/// Writes a failure.
fn failure(alloc: Global, message: &str) -> Result<Value, AllocError>
    ensures { IfOk result (λ value. view value ≡ failure message.now) }
{
    json!(in alloc; {"message": message, "source": "wfhost", "applicationFailureInfo": {}})
}

/// Adds a failure under the name `failure`.
pub fn put_failure(members: &mut Members, alloc: Global, message: &str) -> Result<(), AllocError>
    ensures { OnOk result (members_view members.new.entries
        ≡ put (codes "failure") (failure message.now) (members_view members.old.entries)) }
{
    let failure = failure(alloc, message)?;
    put(members, alloc, "failure", failure)
}
