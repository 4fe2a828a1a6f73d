//! Reads the error messages of a server.

ghost use Rattle.std.specs.Prelude.{◌≡◌, ◌↔◌, pos, true};
ghost use Rattle.wh_messages.specs.Refusals.{IsTooLarge};

/// The status code for a message that is too large: `RESOURCE_EXHAUSTED` (gRPC, "Status codes").
const RESOURCE_EXHAUSTED: i64 = 8;

/// Returns whether the code is `RESOURCE_EXHAUSTED`.
fn is_exhausted(code: i64) -> bool
    ensures { (result ≡ true) ↔ (code ≡ pos 8) }
{
    code == RESOURCE_EXHAUSTED
}

/// Returns whether a server refused an answer because it is larger than a message may be, so that
/// sending it again is useless. gRPC servers and clients use the same words, as in `grpc: received
/// message larger than max (5000000 vs. 4194304)`.
pub fn is_too_large(code: i64, message: &str) -> bool
    ensures { (result ≡ true) ↔ IsTooLarge code message.now }
{
    is_exhausted(code) && message.contains("larger than max")
}
