//! Laws of markers, each as the contract of a function that does nothing.

ghost use Rattle.wh_markers.specs.Laws.{AreRead, OthersAreOther, ShorthandSaysTheSame};

/// What each SDK records is read from it: the name or the id, the number, and whether a patch is
/// deprecated.
pub fn markers_are_read()
    ensures { AreRead }
{}

/// A marker with a name of none of the SDKs' is `Other`, whatever its details are.
pub fn others_are_other()
    ensures { OthersAreOther }
{}

/// What is read is the same whether payloads are written in full or in shorthand.
pub fn shorthand_says_the_same()
    ensures { ShorthandSaysTheSame }
{}
