//! What must hold of a host after a soak.
ghost use Rattle.std.specs.Prelude.{◌≡◌, ◌↔◌, IsOk, OnOk, map, true};
ghost use Rattle.bench_trials.specs.Sound.{IsSound};

use crate::alike::are_alike;
use crate::soak::serving::{Findings, Tally};
use wh_host::Totals;

/// Checks the totals of a closed host, and what its workers counted.
fn check(totals: Totals, tally: Tally) -> Result<(), &'static str>
    ensures { IsOk result ↔ IsSound totals tally }
{
    let taken = u128::from(totals.taken);
    if u128::from(totals.completed) + u128::from(totals.failed) != taken {
        return Err("what was taken is not what was completed and what failed");
    }
    if totals.in_hand != 0 {
        return Err("tasks are in hand after the last worker ended");
    }
    if u128::from(tally.hits) + u128::from(tally.misses) != taken || totals.taken != tally.tasks {
        return Err("not every task was taken and answered once");
    }
    Ok(())
}

/// Checks the results of a soak with a cache: the host's totals, the counts of the workers, that
/// the host drained, that runs were evicted if there is a cache, and that the answers are those of
/// a plain soak without a cache.
pub(crate) fn judge(found: &Findings, plain: &Findings, cache: usize) -> Result<(), &'static str>
    ensures sound { OnOk result (IsSound found.now.totals found.now.tally) }
    ensures drained { OnOk result (found.now.is_drained ≡ true) }
    ensures same { OnOk result
        (map (λ s. s.answers) found.now.sources.items ≡ map (λ s. s.answers) plain.now.sources.items) }
{
    check(found.totals, found.tally)?;
    if !found.is_drained {
        return Err("a slot was reserved on a host that drains");
    }
    if 0 < cache && found.evicted == 0 {
        return Err("no cached run was evicted");
    }
    if !are_alike(found.sources.as_slice(), plain.sources.as_slice()) {
        return Err("the answers are not those that are given without a cache");
    }
    Ok(())
}
