//! What holds of every live work, each law as the contract of a function that does nothing.

ghost use Rattle.wh_work.specs.Plans.{RunsAreKeptBesideAStickyQueue, StickyQueueKeepsRuns};
ghost use Rattle.wh_work.specs.Plans.{TwoKeepWhatIsAskedFor};
ghost use Rattle.wh_work.specs.Untaken.{OutcomesAddUp};

/// Runs are kept between their tasks exactly when their tasks come by a sticky queue, which takes
/// two workers; then as many are kept as is asked for. (Temporal documentation, "Sticky
/// Execution".)
pub fn runs_are_kept_beside_a_sticky_queue()
    ensures kept { RunsAreKeptBesideAStickyQueue }
    ensures sticky { StickyQueueKeepsRuns }
    ensures asked { TwoKeepWhatIsAskedFor }
{}

/// What becomes of tasks adds up: each task that was taken is completed, or has failed, or the
/// server no longer had it, or its answer was refused, or it is in hand; if each answer that the
/// server did not take was to a task of these totals, and is counted under what the host counts the
/// task as.
pub fn outcomes_add_up()
    ensures { OutcomesAddUp }
{}
