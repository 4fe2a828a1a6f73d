//! What holds for all tables and their promises. Each law is the contract of a function without a
//! body.
ghost use Rattle.wh_rows.specs.Laws.{FirstRowCounts, NoRowChangesNothing, ClosesForGood, LastCommandCloses};
ghost use Rattle.wh_rows.specs.Laws.{StateChangesByRow, WithinBounds, HiddenIsNeverTaken, AnswersAreHeard};
ghost use Rattle.wh_rows.specs.Promises.{PromisesAll};
ghost use Rattle.wh_rows.specs.Queries.{TellsItsState};

use crate::promising::Promising;
use crate::table::Table;

/// The first row that fits decides, whatever rows come after it. If none fits, there are no
/// commands, and a start sets only the name and the input of the run.
pub fn first_row_counts<T: Table>()
    ensures first { FirstRowCounts T.table }
    ensures none { NoRowChangesNothing T.table }
{}

/// No command follows one that closes the run, neither in its step nor at any later job.
pub fn closes_for_good<T: Table>()
    ensures step { LastCommandCloses T.table }
    ensures later { ClosesForGood T.table }
{}

/// The state of a run changes only by a row that fits and names the new state.
pub fn state_changes_by_row<T: Table>()
    ensures { StateChangesByRow T.table }
{}

/// No counter exceeds its bound, whatever jobs come.
pub fn counters_stay_within_bounds<T: Table>()
    ensures { WithinBounds T.table }
{}

/// A row that an earlier one hides (the rule `HiddenBy`) never applies: without it, the table does
/// the same.
pub fn hidden_row_is_never_taken()
    ensures { HiddenIsNeverTaken }
{}

/// A version that a row asks for is never ignored: in the state after that row, a row fits each
/// version that may be the answer.
pub fn answers_are_heard<T: Table>()
    ensures { AnswersAreHeard T.table }
{}

/// The query `state` is answered in each state, by one payload: a JSON text that reads as the name
/// of the run's state, whatever characters that name has.
pub fn tells_its_state()
    ensures { TellsItsState }
{}

/// A run of a table keeps each promise of the table, whatever jobs come after its start, in
/// whatever order and number.
pub fn keeps_its_promises<T: Promising>()
    ensures { PromisesAll T.table T.promises }
{}
