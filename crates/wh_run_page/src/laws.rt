//! What holds of every page of a run, each law as the contract of a function that does nothing.
ghost use Rattle.wh_run_page.specs.Laws.{TasksAreInARow, EndsAreShown, BeginningsAreShown};
ghost use Rattle.wh_run_page.specs.Laws.{GroupsAreRuns, LinesAreAllEvents, ThingsAreAsManyAsFit, FaultIsShown, WorstAreShown, RowsAreTold, RowsAddUp, RowsTellOfTheirThings};

/// If each group is written out as the number of its task, once for each of its events, the result
/// is the list of the tasks to which the events belong, in their order. No two adjacent groups are
/// of one task.
pub fn groups_are_runs()
    ensures { GroupsAreRuns }
{}

/// If a view has a task for each event, as `view_of` returns it, the lines of the tasks of its run,
/// one after another, are those of its events, each once and in their order: no event that has a
/// line is left out of the tasks, and none is in two.
pub fn lines_are_all_events()
    ensures { LinesAreAllEvents }
{}

/// A page shows no more than 300 tasks, one after another in the run, and tells how many precede
/// them and how many there are in all. If nothing is at fault, the page of an open run shows its
/// last tasks, and that of a closed one its first.
pub fn tasks_are_few()
    ensures few { TasksAreInARow }
    ensures ends { EndsAreShown }
    ensures beginnings { BeginningsAreShown }
{}

/// A page shows all things, or just 300 of more. If the event of the fault opened, started or ended a
/// thing, the page shows such a thing. A thing that failed is left out only if each that is shown
/// has the event of the fault or failed; one that is open, only if each that is shown has that
/// event, failed or is open; any other, only if each that is shown does, or took as long.
pub fn faults_are_shown()
    ensures fit { ThingsAreAsManyAsFit }
    ensures fault { FaultIsShown }
    ensures worst { WorstAreShown }
{}

/// As many lanes of a page tell of their row as the page has rows; the others are later ones. What
/// they say is drawn in their rows adds up to all lanes. No row tells that more things are drawn, or
/// that more failed or are open, than it has.
pub fn rows_are_told()
    ensures told { RowsAreTold }
    ensures sum { RowsAddUp }
    ensures things { RowsTellOfTheirThings }
{}
