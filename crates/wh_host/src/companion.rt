//! Companions, which observe a host while its workers run.

ghost use Rattle.std.specs.Prelude.{◌≡◌, is_some};

use crate::end_signal::EndSignal;
use crate::ledger::Seat;
use crate::{Counts, Host};
use std::sync::Wait;
use std::sync::ledger::Ledger;
use wh_workflow::Workflow;

/// Observes a host while its workers run, in a thread beside them. It decides when it needs the
/// counts of the host, and then gets them.
pub trait Companion {
    /// Waits until it needs the counts of the host, and returns `true`. Returns `false` when it is
    /// done. It is not called again then. The host is closed only after that, so the companion must
    /// look at the signal: it must not go on waiting if the workers have ended.
    fn wait(&self, signal: &EndSignal) -> bool;

    /// Receives what the host counted, and what it caches and holds now, or `None` if the workers
    /// take all seats that a host may have.
    fn report(&self, counts: Option<Counts>);
}

/// Returns what the host counts, caches and holds, if there is a seat for that.
fn counts_at<R: Wait, W: Workflow, T: Ledger, C: Ledger, F: Ledger>(
    rt: &R,
    host: &Host<W, T, C, F>,
    spare: &mut Option<Seat<T, C, F>>,
) -> Option<Counts>
    ensures seat { spare.new ≡ spare.old }
    ensures counts { is_some result ≡ is_some spare.old }
{
    match spare {
        Some(seat) => Some(host.lock(rt).counts(seat)),
        None => None,
    }
}

/// Reports the counts of the host to the companion, as often as the companion needs them. The seat
/// counts nothing, and comes back as it was.
pub fn accompany<R: Wait, W: Workflow, T: Ledger, C: Ledger, F: Ledger, P: Companion>(
    rt: &R,
    host: &Host<W, T, C, F>,
    mut spare: Option<Seat<T, C, F>>,
    signal: &EndSignal,
    companion: &P,
) -> Option<Seat<T, C, F>>
    ensures { result ≡ spare }
{
    for _round in rt.forever() {
        if !companion.wait(signal) {
            break;
        }
        let counts = counts_at(rt, host, &mut spare);
        companion.report(counts);
    }
    spare
}
