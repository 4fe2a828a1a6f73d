//! How files are split into batches.

ghost use Rattle.std.specs.Prelude.{◌≡◌};
ghost use Rattle.wh_diagnostics.specs.Batches.{batch_size, reported_batches};

use crate::progress_modes::ProgressMode;

/// How many files are in a batch at least.
const LEAST: usize = 64;

/// How many batches of files there are at most, but for one more of what is left.
const MOST_BATCHES: usize = 20;

/// Returns how many of so many files are in a batch: 64, so that each thread has some, or a
/// twentieth of them if that is more.
pub fn batch_size(total: usize) -> usize
    ensures size { result ≡ batch_size total }
{
    LEAST.max(total / MOST_BATCHES)
}

/// Returns after how many batches of so many files progress is reported: after each but the last,
/// and after none if it is hidden.
pub fn reported_batches(mode: ProgressMode, total: usize) -> usize
    ensures batches { result ≡ reported_batches mode total }
{
    match mode {
        ProgressMode::Hidden => 0,
        ProgressMode::Lines | ProgressMode::InPlace => {
            total.saturating_sub(1) / batch_size(total)
        }
    }
}
