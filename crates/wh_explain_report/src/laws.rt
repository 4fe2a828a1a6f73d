//! What holds of every text, and of what an overview tells, each law as the contract of a function
//! that does nothing.
ghost use Rattle.wh_explain_report.specs.Laws.{AttemptsAreHighest, CountsAddUp, NamesArePrintable};

/// A name is shown without control characters, and without any that is not ASCII.
pub fn names_are_printable()
    ensures { NamesArePrintable }
{}

/// The attempts that an overview tells of a run are the highest attempt of an activity of it: no
/// event starts a later one, and one starts just this, unless it is 0.
pub fn attempts_are_highest()
    ensures { AttemptsAreHighest }
{}

/// The numbers of the runs with each status, which the last line of an overview tells, add up to the
/// number of all runs, and this with that of the files without a run to the number of all files.
pub fn counts_add_up()
    ensures { CountsAddUp }
{}
