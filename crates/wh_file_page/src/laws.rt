//! What holds of each page of a file, and of each path of a run through its table. Each law is the
//! contract of a function that does nothing.
ghost use Rattle.wh_file_page.specs.Laws.{TextsAreNoTags};
ghost use Rattle.wh_file_page.specs.WayLaws.{TakesWhatIsFollowed};

/// The tags of a page are those of the page without its texts, also where it has the table of a run:
/// no text that a history holds has a part in them.
pub fn texts_are_no_tags()
    ensures { TextsAreNoTags }
{}

/// The row whose number is found is the one that a step of the workflow follows.
pub fn takes_what_is_followed()
    ensures { TakesWhatIsFollowed }
{}
