//! Splits phrases at their marks.
ghost use Rattle.std.specs.Prelude.{◌≡◌, codes, option_map};
ghost use Rattle.wh_promise_phrases.specs.Marks.{at_mark};

/// Returns the text before the first colon with a space behind it, and the text after both. `None`
/// if there is no such colon.
pub(crate) fn at_colon(text: &str) -> Option<(&str, &str)>
    ensures { option_map (λ sides. (sides.0.now, sides.1.now)) result ≡ at_mark (codes ": ") text.now }
{
    text.split_once(": ")
}

/// Returns the text before the first comma with a space behind it, and the text after both. `None`
/// if there is no such comma.
pub(crate) fn at_comma(text: &str) -> Option<(&str, &str)>
    ensures { option_map (λ sides. (sides.0.now, sides.1.now)) result ≡ at_mark (codes ", ") text.now }
{
    text.split_once(", ")
}
