//! What holds of texts within HTML, of every axis and of labels, each law as the contract of a
//! function that does nothing.
ghost use Rattle.wh_html.specs.Laws.{TextsAreHarmless, TextsAreRead};
ghost use Rattle.wh_html.specs.PictureLaws.{PlacesRise, PlacesEnd, LabelsFit, ShortIdsAreWhole};

/// A text within HTML has neither `<`, `>` nor a quotation mark, and no control character of ASCII.
pub fn texts_are_harmless()
    ensures { TextsAreHarmless }
{}

/// A reader of HTML reads the first characters of an escaped text back, each as it is shown.
pub fn texts_are_read()
    ensures { TextsAreRead }
{}

/// If the stops of an axis go to the right, a later time never stands further left, and no time
/// stands beyond the right end.
pub fn places_rise()
    ensures rise { PlacesRise }
    ensures end { PlacesEnd }
{}

/// A label in the picture has no more than 27 characters of a type and an id, and an id of 14 or
/// fewer whole, as `local activity`.
pub fn labels_fit()
    ensures fit { LabelsFit }
    ensures whole { ShortIdsAreWhole }
{}
