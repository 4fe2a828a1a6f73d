//! Laws of a host that serves tasks, over its definitions alone.
ghost use Rattle.std.specs.Prelude.{ℕ, List};
ghost use Rattle.wh_poll.specs.Steady.{Table, IsTable, Steady, beginning, Move, Moves, AllAnswered, IsSteady};

use wh_workflow::Workflow;

/// The cache can't be seen in the answers. A source delivers tasks and fetches histories of one
/// table, whose events are numbered by their places. Whatever the capacity and the bound of the
/// cache, 0 too, and whatever is used, given back, evicted, finished, reserved and released, in any
/// order: each task is answered by replay of its history from the first event up to the task, and
/// each run that is cached or being processed holds a beginning of its history.
pub fn cache_unseen<W: Workflow>()
    ensures { (table : Table) (workflow activity capacity bound : ℕ) (moves : List Move) (end : Steady) → IsTable table
        → Moves W.program table (beginning workflow activity capacity bound) moves end
        → AllAnswered W.program table moves × IsSteady table end }
{}
