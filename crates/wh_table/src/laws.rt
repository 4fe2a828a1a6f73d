//! What holds for all runs that get their table with their input. Each law is the contract of a
//! function without a body.
ghost use Rattle.wh_table.specs.Laws.{FollowsItsTable, FailsWithoutTable};

/// If its first payload reads as a table, a run gives at each job, from its start on, the commands
/// of that table's rows, as a table of the program would. If they continue as a new run of the
/// table, that gets the table too.
pub fn follows_its_table()
    ensures { FollowsItsTable }
{}

/// If its first payload is not a table, a run fails at its start, with the reason, and gives no
/// further commands.
pub fn fails_without_table()
    ensures { FailsWithoutTable }
{}
