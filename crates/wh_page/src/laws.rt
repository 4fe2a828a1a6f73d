//! What holds of every page, each law as the contract of a function that does nothing.
ghost use Rattle.wh_page.specs.Laws.{TextsAreNoTags, FaultHasALine, ShowsItsParts};

/// The tags of a page stay the same if each of its texts is replaced by an empty one, also with any
/// further HTML that has the same tags: no text of a history becomes part of a tag.
pub fn texts_are_no_tags()
    ensures { TextsAreNoTags }
{}

/// If a line of a task has the fault, such a line is among the 40 that are shown.
pub fn faults_have_lines()
    ensures { FaultHasALine }
{}

/// A page contains its verdict, the row of each of its first 100 types, the row of each thing that
/// it shows, and each task that it shows, each in one piece.
pub fn pages_show_their_parts()
    ensures { ShowsItsParts }
{}
