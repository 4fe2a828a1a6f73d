//! Splits texts into words and parts.
ghost use Rattle.std.specs.Prelude.{◌≡◌, ◌<◌, IfOk, map, nat_eq, string_bytes, MatchOption, option_map};
ghost use Rattle.std.specs.List.{slice_split};
ghost use Rattle.std.specs.Str.Lines.{lines};
ghost use Rattle.wh_author_tools.specs.JobTexts.{head_word, after_space, words_after};
ghost use Rattle.wh_author_tools.specs.Scenarios.{at_arrow};

use std::alloc::{AllocError, Global};

/// Returns the text before the first space, or all of it if there is none.
pub(crate) fn head_word(words: &str) -> &str
    ensures { result.now ≡ head_word words.now }
{
    match words.split_once(' ') {
        Some((word, _)) => word,
        None => words,
    }
}

/// Returns the text after the first space, or an empty one if there is none.
fn after_space(words: &str) -> &str
    ensures { result.now ≡ after_space words.now }
{
    match words.split_once(' ') {
        Some((_, rest)) => rest,
        None => "",
    }
}

/// Returns the text after the first space, without whitespace around it.
pub(crate) fn words_after(words: &str) -> &str
    ensures { result.now ≡ words_after words.now }
{
    after_space(words).trim()
}

/// Returns the parts of a text between separators. `AllocError` if there is no memory for the list.
pub fn parts_at(alloc: Global, text: &str, separator: char) -> Result<Vec<&str>, AllocError>
    requires { separator < 128 }
    ensures { IfOk result
        (λ parts. map (λ part. part.now) parts.items ≡ slice_split (λ byte. nat_eq byte separator) text.now) }
{
    text.split(separator).collect(alloc)
}

/// Returns the lines of a text. `AllocError` if there is no memory for the list.
pub fn lines_of(alloc: Global, text: &str) -> Result<Vec<&str>, AllocError>
    ensures { IfOk result (λ all. map (λ line. line.now) all.items ≡ lines text.now) }
{
    text.lines().collect(alloc)
}

/// Returns the text before the first arrow (`=>`) of a line, and the text after it. `None` if there
/// is no arrow.
pub fn at_arrow(line: &str) -> Option<(&str, &str)>
    ensures { option_map (λ sides. (sides.0.now, sides.1.now)) result ≡ at_arrow line.now }
{
    line.split_once("=>")
}
