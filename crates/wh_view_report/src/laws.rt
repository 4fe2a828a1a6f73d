//! What holds of views whose tasks are folded, each law as the contract of a function that does
//! nothing.

ghost use Rattle.wh_view_report.specs.Laws.{PartsHaveAllEvents, PartsHaveAllTasks};
ghost use Rattle.wh_view_report.specs.Laws.{FoldedAreLikeShown, FoldedAreLikeOneOfFour, ShownAreLikeNoneOfFour};

/// Folding loses nothing: the tasks that are written, and those of which a line tells how many they
/// are, have all events of the history, each once and in their order.
pub fn parts_have_all_events()
    ensures { PartsHaveAllEvents }
{}

/// Folding leaves out what repeats, and nothing else: each task of the history is shown or folded;
/// one that is folded is like one that is shown before it; and just those are folded that are like
/// one of the four before them.
pub fn folded_tasks_repeat()
    ensures tasks { PartsHaveAllTasks }
    ensures shown { FoldedAreLikeShown }
    ensures folded { FoldedAreLikeOneOfFour }
    ensures others { ShownAreLikeNoneOfFour }
{}
