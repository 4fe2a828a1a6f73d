//! The host of a service.

ghost use Rattle.std.specs.Prelude.{◌≡◌, IfOk, vec_len};
ghost use Rattle.wh_slots.specs.Sizes.{IsConfig};
ghost use Rattle.wh_service.specs.Services.{IsHosted};

use std::alloc::Global;
use std::sync::Wait;
use std::thread::Threads;
use wh_events::OutOfMemory;
use wh_host::{Config, OpenFault};
use wh_poll::{HostEnd, NoActivities, NoObserver, WorkerSetup, run_host};
use wh_recorded::ScriptSource;
use wh_workflow::Workflow;

/// What a worker of a service begins with: a source over the histories that it is assigned.
pub type ServiceSetup = WorkerSetup<ScriptSource, NoActivities, NoObserver>;

/// What is left of the host of a service.
pub type ServiceHost = HostEnd<ScriptSource, NoActivities, NoObserver>;

/// Opens a host of these sizes, runs a worker for each setup until its source has no more tasks,
/// and closes the host.
pub fn host_of<W: Workflow + Send, R: Threads + Wait + Sync>(
    rt: &R,
    alloc: Global,
    config: Config,
    setups: Vec<ServiceSetup>,
) -> Result<ServiceHost, OutOfMemory>
    requires sizes { IsConfig config }
    requires seats { config.seats ≡ vec_len setups }
    ensures { IfOk result (IsHosted W.program config setups) }
{
    match run_host::<W, _, _, _, _>(rt, alloc, config, setups) {
        Ok(end) => Ok(end),
        Err(OpenFault::OutOfMemory) => Err(OutOfMemory),
        Err(OpenFault::BadConfig) => unreachable!(),
    }
}
