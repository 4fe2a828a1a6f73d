//! Values that every workflow makes: texts, and empty inputs and results.
ghost use Rattle.std.specs.Prelude.{◌≡◌, [], IfOk};

use std::alloc::Global;
use wh_events::{Items, OutOfMemory, Payload, Text};

/// Returns the text of a literal. Fails with `OutOfMemory` if there was no memory for it.
pub fn text_of(alloc: Global, literal: &str) -> Result<Text, OutOfMemory>
    ensures { IfOk result (λ text. text ≡ literal.now) }
{
    Ok(Text::new(String::from_str(alloc, literal)?))
}

/// Returns the texts of two literals. Fails with `OutOfMemory` if there was no memory for one of
/// them.
pub fn texts_of(alloc: Global, first: &str, second: &str) -> Result<(Text, Text), OutOfMemory>
    ensures first { IfOk result (λ texts. texts.0 ≡ first.now) }
    ensures second { IfOk result (λ texts. texts.1 ≡ second.now) }
{
    let first = text_of(alloc, first)?;
    let second = text_of(alloc, second)?;
    Ok((first, second))
}

/// Returns an input or a result without a payload. It takes no memory.
pub fn no_payloads(alloc: Global) -> Items<Payload>
    ensures { result ≡ [] }
{
    Items::new(Vec::new(alloc))
}
