//! What holds of every value that differs, each law as the contract of a function that does
//! nothing.

ghost use Rattle.wh_phrases.specs.ValueSides.{EncodingsAreShown};

/// Sides of one payload each that differ in its encoding alone are shown with their encodings, and
/// not alike, if each encoding is a text in UTF-8 and not empty.
pub fn encodings_are_shown()
    ensures { EncodingsAreShown }
{}
