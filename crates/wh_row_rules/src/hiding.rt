//! Finds rows that never apply, since an earlier one hides them.
ghost use Rattle.std.specs.Prelude.{◌≡◌, option_map};
ghost use Rattle.wh_rows.specs.Rules.{hides, hidden_from};
ghost use Rattle.wh_row_rules.specs.Broken.{broken_rule};

use crate::bounds::all_follow;
use crate::commands::text_eq;
use crate::fault::BrokenRule;
use crate::owned::OwnedRow;
use crate::patterns::covers;

/// Returns whether the earlier row fits whenever the later one does.
fn hides(earlier: &OwnedRow, later: &OwnedRow) -> bool
    ensures { result ≡ hides earlier.now later.now }
{
    (earlier.state.get() == "any" || text_eq(&earlier.state, &later.state))
        && (covers(&earlier.job, &later.job)
            && all_follow(later.conditions.get(), earlier.conditions.get()))
}

/// Returns the rule `HiddenBy` with the number of the first of the `before` earlier rows that hides
/// the row, or `None` if none does.
pub(crate) fn hidden_by(before: usize, rows: &[OwnedRow], row: &OwnedRow) -> Option<BrokenRule>
    ensures { result ≡ option_map broken_rule (hidden_from 1 before rows.now row.now) }
{
    for (index, earlier) in rows.iter().enumerate() {
        if index == before {
            return None;
        }
        if hides(earlier, row) {
            return Some(BrokenRule::HiddenBy(index as u64 + 1));
        }
    }
    None
}
