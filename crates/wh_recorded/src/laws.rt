//! Laws of recorded histories and of lists of calls. Each law is the contract of a function that
//! does nothing.
ghost use Rattle.wh_recorded.specs.Order.{EachStandsAtItsRank, NothingElseStands, AsManyAsTasks, NamesAreOwn};
ghost use Rattle.wh_recorded.specs.Calls.{PollsGoInRounds, EnoughPollsGiveAll, PollGivesNext};
ghost use Rattle.wh_recorded.specs.Calls.{ClosedWhereAllGiven, PolledAreGiven, GivenNamesAreOwn};

/// In the order of the rounds, the n-th task of a history, counted from 0, comes after the first n
/// tasks of each history and after the n-th tasks of the histories before it. The order has these
/// tasks and nothing else, so each task comes once.
pub fn rounds_are_said()
    ensures ranks { EachStandsAtItsRank }
    ensures tasks { NothingElseStands }
    ensures length { AsManyAsTasks }
{}

/// In every list of calls of a new source, the polls return the tasks in the order of the rounds,
/// each once, and `Closed` exactly when all have been returned. The tasks that a tally counts as
/// polled are those returned.
pub fn polls_go_in_rounds()
    ensures order { PollsGoInRounds }
    ensures all { EnoughPollsGiveAll }
    ensures next { PollGivesNext }
    ensures closed { ClosedWhereAllGiven }
    ensures polled { PolledAreGiven }
{}

/// If the histories have different indices, and in each history the numbers of the events rise and
/// are less than 2^64, tasks have different names, and no name is returned twice.
pub fn names_are_own()
    ensures tasks { NamesAreOwn }
    ensures given { GivenNamesAreOwn }
{}
