//! Tables of rows, each with an input and the expected result.

use std::alloc::{AllocError, Global};
use std::fmt;
use std::fmt::Debug;

/// Returns the input and the expected result of a row. `None` if the row has no ` => `.
pub fn row(line: &'static str) -> Option<(&'static str, &'static str)> {
    line.split_once(" => ")
}

/// Returns the text before a sign, or all of it if there is no sign, and leaves the text after the
/// sign.
pub fn cut(text: &mut &'static str, sign: &str) -> &'static str {
    let (front, rest) = text.split_once(sign).unwrap_or((text, ""));
    *text = rest;
    front
}

/// Returns the number before a space, and leaves the text after the space. `None` if there is no
/// number.
pub fn next_number(text: &mut &'static str) -> Option<u64> {
    cut(text, " ").parse::<u64>().ok()
}

/// The marks around names and numbers in a derived `Debug` text.
const MARKS: [&str; 6] = [
    "Text { text: ",
    "Items { items: ",
    "EventNo { number: ",
    " {",
    " }",
    "\"",
];

/// Returns the derived `Debug` text of a value without the marks around its names and numbers. The
/// error is that of an allocation.
pub fn shown<T: Debug>(alloc: Global, value: &T) -> Result<String, AllocError> {
    let mut text = format!(in alloc; "{value:?}")?;
    for mark in MARKS {
        text = text.as_str().replace(alloc, mark, "")?;
    }
    Ok(text)
}

/// Why words are not as expected.
#[derive(Drop)]
pub enum Unlike {
    /// They are different. The text has them and the expected ones.
    Words(String),
    /// An allocation was refused.
    OutOfMemory,
}

impl Debug for Unlike {
    fn fmt<W: fmt::Write>(&self, f: &mut fmt::Formatter<W>) -> fmt::Result {
        match self {
            Unlike::Words(words) => f.write_str(words.as_str()),
            Unlike::OutOfMemory => f.write_str("out of memory"),
        }
    }
}

impl From<AllocError> for Unlike {
    fn from(_error: AllocError) -> Unlike {
        Unlike::OutOfMemory
    }
}

/// Checks that the words are as expected.
pub fn same(alloc: Global, words: &str, wanted: &str) -> Result<(), Unlike> {
    if words == wanted {
        return Ok(());
    }
    Err(Unlike::Words(format!(in alloc; "{words} in place of {wanted}")?))
}

/// Checks that the `Debug` text of the value is as expected.
pub fn wants<T: Debug + Drop>(alloc: Global, value: T, wanted: &str) -> Result<(), Unlike> {
    let text = shown(alloc, &value)?;
    same(alloc, text.as_str(), wanted)
}

/// Adds a value to a list. If an allocation is refused, the list is as it was.
pub fn push<T: Drop>(list: &mut Vec<T>, value: T) -> Result<(), AllocError> {
    list.reserve(1)?;
    list.push_reserved(value);
    Ok(())
}

/// Returns these words so many times, followed by others. The error is that of an allocation.
pub fn repeated(alloc: Global, words: &str, count: usize, end: &str) -> Result<String, AllocError> {
    let mut text = words.repeat(alloc, count)?;
    text.push_str(end)?;
    Ok(text)
}
