//! Writes requests.

ghost use Rattle.std.specs.Prelude.{◌≡◌, ◌<◌, Some, false, IfOk, string_bytes};
ghost use Rattle.serde_json.specs.Data.{depth};
ghost use Rattle.serde_json.specs.Read.{read, max_depth};
ghost use Rattle.serde_json.specs.View.{view};
ghost use Rattle.serde_json.specs.Written.{compact_text, has_float};
ghost use Rattle.wh_rpc.specs.Requests.{request_data, IsOneLine};

use serde_json::{Value, json};
use std::alloc::{AllocError, Global};

/// Returns a request as a JSON value.
fn request_value(alloc: Global, id: u64, method: &str, params: Value) -> Result<Value, AllocError>
    ensures { IfOk result (λ value. view value ≡ request_data id method.now (view params)) }
{
    json!(in alloc; {"id": id, "jsonrpc": "2.0", "method": method, "params": params})
}

/// Returns the text of a request, without a line feed. It is one line: no byte in it is below 32.
/// If the parameters hold no float it is compact. It reads back as the request, unless the
/// parameters nest deeper than 126. An error if there was no memory for it.
pub fn request_text(
    alloc: Global,
    id: u64,
    method: &str,
    params: Value,
) -> Result<String, AllocError>
    ensures text { IfOk result (λ text. has_float (view params) ≡ false
        → string_bytes text ≡ compact_text (request_data id method.now (view params))) }
    ensures one_line { IfOk result (λ text. IsOneLine (string_bytes text)) }
    ensures reads_back { IfOk result (λ text. depth (view params) < max_depth
        → read (string_bytes text) ≡ Some (request_data id method.now (view params))) }
{
    let request = request_value(alloc, id, method, params)?;
    request.to_string(alloc)
}
