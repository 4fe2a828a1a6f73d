//! Reads policies from a text.

ghost use Rattle.std.specs.Prelude.{◌≡◌, ◌≤◌, ℕ, List, IfErr, IfNone, IfOk, IfSome, None, Some, length};
ghost use Rattle.std.specs.Str.{IsUtf8};
ghost use Rattle.toml.specs.Errors.{IsMemory, IsWithin};
ghost use Rattle.toml.specs.Parse.{parse_document};
ghost use Rattle.toml.specs.View.{table_view};
ghost use Rattle.wh_policies.specs.Excesses.{AreFree};
ghost use Rattle.wh_policies.specs.Lines.{line_at};
ghost use Rattle.wh_policies.specs.Policies.{GivesPolicies, IsRead, IsRefused, knows_table};
ghost use Rattle.wh_policies.specs.TomlTables.{AllKnown};

use crate::fault::{KeyFault, PolicyFault};
use crate::judging::{policies_in, stays};
use crate::policies::Policies;
use std::alloc::Global;
use toml::Table;
use wh_events::Text;

/// The maximum length of a policy file in bytes.
const MOST_BYTES: usize = 65_536;

/// Returns bytes as text, if they are UTF-8.
fn text_of(bytes: &[u8]) -> Option<&str>
    ensures text { IfSome result (λ text. text.now ≡ bytes.now) }
    ensures none { IfNone result (¬ (IsUtf8 bytes.now)) }
{
    match str::from_utf8(bytes) {
        Ok(text) => Some(text),
        Err(_) => None,
    }
}

/// Returns the line of a position in a text, counted from 1.
fn line_at(text: &str, place: usize) -> u64
    requires { place ≤ length text.now }
    ensures { result ≡ line_at place text.now }
{
    let before = &text.as_bytes()[..place];
    let mut line = 1;
    for byte in before {
        if *byte == b'\n' {
            line += 1;
        }
    }
    line
}

/// Returns where and why a text is not TOML, or `OutOfMemory`.
fn no_toml(alloc: Global, text: &str, error: &toml::de::Error) -> PolicyFault
    requires within { IsWithin text.now error.now }
    requires refused { ¬ (IsMemory error.now) → parse_document text.now ≡ None }
    ensures { IsRefused text.now result }
{
    let place = match error.span() {
        Some(span) => span.start,
        None => return PolicyFault::OutOfMemory,
    };
    match String::from_str(alloc, error.message()) {
        Ok(reason) => PolicyFault::NoToml {
            line: line_at(text, place),
            reason: Text::new(reason),
        },
        Err(_) => PolicyFault::OutOfMemory,
    }
}

/// Parses a text as TOML.
fn document_of(alloc: Global, text: &str) -> Result<Table, PolicyFault>
    ensures ok { IfOk result (λ document. parse_document text.now ≡ Some (table_view document)) }
    ensures refused { IfErr result (IsRefused text.now) }
{
    match toml::table_from_str(alloc, text) {
        Ok(document) => Ok(document),
        Err(error) => Err(no_toml(alloc, text, &error)),
    }
}

/// Returns the fault of a key in the first bytes of a text, if they are TOML and have one.
fn fault_in(alloc: Global, bytes: &[u8], plain: &Policies) -> Option<KeyFault> {
    let Ok(document) = toml::table_from_str(alloc, text_of(bytes)?) else {
        return None;
    };
    match policies_in(alloc, &document, plain) {
        Ok(policies) => {
            drop::<Policies>(policies);
            None
        }
        Err(fault) => Some(fault),
    }
}

/// Returns the fault of a key with its line.
fn in_line(fault: KeyFault, line: u64) -> PolicyFault
    ensures { (text : List ℕ) → IsRefused text result }
{
    match fault {
        KeyFault::Unknown { key } => PolicyFault::UnknownKey { key, line },
        KeyFault::Bad { key } => PolicyFault::BadValue { key, line },
        KeyFault::Above { key, limit } => PolicyFault::Above { key, limit, line },
        KeyFault::OutOfMemory => PolicyFault::OutOfMemory,
    }
}

/// Returns the first fault of a text's keys: that of the shortest run of lines from the start that
/// is TOML and has one of the whole text. If no such run has one, it is `whole`, the fault of the
/// whole text.
fn first_fault(alloc: Global, bytes: &[u8], plain: &Policies, whole: KeyFault) -> PolicyFault
    ensures { (text : List ℕ) → IsRefused text result }
{
    let mut line = 1;
    for (index, byte) in bytes.iter().enumerate() {
        if *byte == b'\n' {
            if let Some(fault) = fault_in(alloc, &bytes[..index + 1], plain) {
                if stays(&fault, &whole) {
                    return in_line(fault, line);
                }
            }
            line = u64::saturating_add(line, 1);
        }
    }
    in_line(whole, line)
}

/// Reads policies with these defaults from the document of a text and judges them, or returns the
/// first fault of its keys.
fn policies_of_text(
    alloc: Global,
    document: &Table,
    bytes: &[u8],
    plain: &Policies,
) -> Result<Policies, PolicyFault>
    ensures known { IfOk result (λ _. AllKnown knows_table (table_view document.now)) }
    ensures given { IfOk result (GivesPolicies (table_view document.now) plain.now) }
    ensures free { IfOk result AreFree }
    ensures refused { (text : List ℕ) → IfErr result (IsRefused text) }
{
    match policies_in(alloc, document, plain) {
        Ok(policies) => Ok(policies),
        Err(fault) => Err(first_fault(alloc, bytes, plain, fault)),
    }
}

/// Reads policies from a text in TOML 1.1. Unless it says otherwise, each activity has this
/// Start-To-Close Timeout in seconds and this maximum number of attempts. A text that is not TOML
/// is refused as such; otherwise the fault is that of the first line with one. After an error there
/// are no policies.
pub fn read_policies(
    alloc: Global,
    bytes: &[u8],
    start_to_close: u32,
    attempts: u32,
) -> Result<Policies, PolicyFault>
    ensures read { IfOk result (IsRead start_to_close attempts bytes.now) }
    ensures refused { IfErr result (IsRefused bytes.now) }
{
    if bytes.len() > MOST_BYTES {
        return Err(PolicyFault::TooLong);
    }
    let Some(text) = text_of(bytes) else {
        return Err(PolicyFault::NoText);
    };
    let document = document_of(alloc, text)?;
    let plain = Policies::plain(alloc, start_to_close, attempts);
    policies_of_text(alloc, &document, bytes, &plain)
}
