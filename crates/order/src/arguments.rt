//! The arguments that a program of orders is started with.

ghost use Rattle.std.specs.Prelude.{◌≡◌, length, ltb};

/// Returns whether a command line has arguments: whether a word stands after the first one, which
/// is the program's name.
pub fn has_arguments(words: &[String]) -> bool
    ensures words { result ≡ ltb 1 (length words.now) }
{
    words.len() > 1
}
