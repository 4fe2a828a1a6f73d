//! Which row a run takes.
ghost use Rattle.std.specs.Prelude.{◌≡◌};
ghost use Rattle.wh_file_page.specs.Ways.{number_for};
ghost use Rattle.wh_rows.specs.Rows.{fits, is_for_state};

use wh_row_rules::OwnedRow;
use wh_rows::{RowsState, all_hold, is_for_job};
use wh_workflow::Job;

/// Whether a row for that state is for the one that the run is in.
fn is_for_state(name: &str, state: &RowsState) -> bool
    ensures { result ≡ is_for_state name.now state.now }
{
    !state.closed && (name == "any" || name == state.at.get())
}

/// Whether a row fits.
fn fits(row: &OwnedRow, state: &RowsState, job: &Job) -> bool
    ensures { result ≡ fits row.now state.now job.now }
{
    is_for_state(row.state.get(), state)
        && is_for_job(&row.job, state, job)
        && all_hold(row.conditions.get(), state.counts)
}

/// Returns the number of the first row that fits, counted from 1.
pub(crate) fn number_for(rows: &[OwnedRow], state: &RowsState, job: &Job) -> Option<usize>
    ensures { result ≡ number_for rows.now state.now job.now }
{
    for (place, row) in rows.iter().enumerate() {
        if fits(row, state, job) {
            return Some(place + 1);
        }
    }
    None
}
