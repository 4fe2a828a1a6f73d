//! The lock around the state.
ghost use Rattle.std.specs.Prelude.{◌≡◌, ◌<◌, ◌+◌, ◌↔◌, IfOk, IfErr, IsErr, Err, vec_len};
ghost use Rattle.std.specs.Prelude.{replicate};
ghost use Rattle.std.specs.Sync.Mutex.{mutex_guard_value};
ghost use Rattle.wh_host.specs.Shares.{no_shares, sums_of};
ghost use Rattle.wh_slots.specs.Sizes.{IsConfig};
ghost use Rattle.wh_host.specs.Machine.{IsBlankOf, IsHost, totals_of};

use crate::ledger::{Seat, SeatsMissing};
use crate::open_fault::OpenFault;
use crate::reply::Totals;
use crate::state::HostState;
use std::alloc::Global;
use std::sync::ledger::{Blank, Ledger};
use std::sync::{Mutex, MutexGuard, Wait};
use wh_slots::Config;
use wh_workflow::Workflow;

/// A worker host that threads share: one lock around its state. Each thread has a seat of its own,
/// and calls the methods of `HostState` through the guard that `lock` returns.
#[derive(Drop)]
pub struct Host<W: Workflow, T: Ledger, C: Ledger, F: Ledger> {
    state: Mutex<HostState<W, T, C, F>>,
}

impl<W: Workflow, T: Ledger, C: Ledger, F: Ledger> Host<W, T, C, F> {
    /// Opens a host with all places free, an empty cache and empty books. Returns it with its
    /// seats, which counted nothing yet. Each of the three blanks has as many parts as there are
    /// seats. Returns `BadConfig` if a size is not within its range, and `OutOfMemory` if there was
    /// no memory.
    pub fn open(
        alloc: Global,
        config: Config,
        taken: Blank,
        completed: Blank,
        failed: Blank,
    ) -> Result<(Self, Vec<Seat<T, C, F>>), OpenFault>
        requires taken { IsBlankOf config taken T.name T.parts }
        requires completed { IsBlankOf config completed C.name C.parts }
        requires failed { IsBlankOf config failed F.name F.parts }
        ensures seats { IfOk result (λ opened. opened.1.items ≡ replicate config.seats no_shares) }
        ensures bad { (result ≡ Err OpenFault.BadConfig) ↔ (¬ IsConfig config) }
    {
        let (state, seats) = HostState::open(alloc, config, taken, completed, failed)?;
        Ok((
            Host {
                state: Mutex::new(state),
            },
            seats,
        ))
    }

    /// Waits for the lock, and returns a guard of the state. Whatever any threads reserved, used,
    /// gave back, finished and evicted before, the state has these properties:
    /// - Each cached run has the machines, versions and unsent commands that replay of its held
    ///   events from the first gives, and also the state, as `Run::state` says of every run.
    /// - Each slot is free, reserved for one poll, or held by one named task.
    /// - Each task taken is completed, failed or being processed.
    pub fn lock<R: Wait>(&self, rt: &R) -> MutexGuard<'_, HostState<W, T, C, F>>
        ensures { IsHost W.program (mutex_guard_value result) }
    {
        let guard = self.state.lock(rt);
        guard.invariant();
        guard
    }

    /// Closes the host, and returns what all seats counted together, which is what the books show.
    /// Each task taken is completed, failed or being processed. If a seat is missing, returns
    /// `SeatsMissing`, the host and the seats.
    pub fn close(
        self,
        seats: Vec<Seat<T, C, F>>,
    ) -> Result<Totals, (Self, Vec<Seat<T, C, F>>, SeatsMissing)>
        ensures gathered { IfOk result (λ totals. totals ≡ totals_of (sums_of seats.items)) }
        ensures balanced { IfOk result (λ totals. totals.taken ≡ totals.completed + totals.failed + totals.in_hand) }
        ensures missing { IsErr result ↔ (vec_len seats < T.parts) }
        ensures back { IfErr result (λ refused. refused.1 ≡ seats) }
    {
        let Host { state } = self;
        match state.into_inner().close(seats) {
            Ok(totals) => Ok(totals),
            Err((state, seats, missing)) => Err((
                Host {
                    state: Mutex::new(state),
                },
                seats,
                missing,
            )),
        }
    }
}
