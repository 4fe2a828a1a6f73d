//! Recorded histories are served by a host, and the report is written.

ghost use Rattle.std.specs.Prelude.{◌≡◌, ◌≢◌, Err, IfOk, All, map};
ghost use Rattle.wh_slots.specs.Sizes.{IsConfig};
ghost use Rattle.wh_service.specs.Readings.{reading, readings_of};
ghost use Rattle.wh_service.specs.Services.{HasItsTurns, IsEndOf, IsHost, IsServed, IsServiceOf, leaves, status_of};

use crate::assignment::assign_sources;
use crate::failures::FileFailure;
use crate::file_faults::FileFault;
use crate::host::{ServiceHost, ServiceSetup};
use crate::outcomes::{Service, gather};
use crate::readings::{ReadFile, ReadFiles};
use crate::rows::{are_good, write_service};
use std::alloc::Global;
use std::io::Write;
use wh_events::OutOfMemory;
use wh_file_faults::CommandFault;
use wh_host::Config;
use wh_poll::{NoActivities, NoObserver, WorkerSetup};
use wh_recorded::ScriptSource;

/// A setup for each source: without activities, without an observer, and with as many turns as the
/// source has tasks, and one more for each kind of tasks, by which the worker learns that there are
/// no more.
fn service_setups(
    alloc: Global,
    sources: Vec<ScriptSource>,
) -> Result<Vec<ServiceSetup>, OutOfMemory>
    ensures sources { IfOk result (λ setups. map (λ setup. setup.source) setups.items ≡ sources.items) }
    ensures turns { IfOk result (λ setups. All HasItsTurns setups.items) }
{
    let mut setups = Vec::new(alloc);
    for source in sources {
        let turns = source.deliveries().saturating_add(2);
        setups.push(WorkerSetup {
            source,
            handler: NoActivities { alloc },
            observer: NoObserver,
            turns,
        })?;
    }
    Ok(setups)
}

/// Serves the files by a host of these sizes.
fn serve_all<F: Fn(Config, Vec<ServiceSetup>) -> Result<ServiceHost, OutOfMemory>>(
    alloc: Global,
    files: Vec<ReadFile>,
    config: Config,
    host: F,
) -> Result<Service, OutOfMemory>
where
    F: Drop,
    requires sizes { IsConfig config }
    requires runs { IsHost (F.pre host) (leaves (F.post host)) }
    ensures { IfOk result (IsServiceOf (leaves (F.post host)) config (map reading files.items)) }
{
    let (assigned, sources) = assign_sources(alloc, files, config.seats)?;
    let setups = service_setups(alloc, sources)?;
    let end = host(config, setups)?;
    gather(alloc, assigned, end)
}

/// The status: 0 if each file was read, no task failed and no worker has a fault, and else 1.
fn status_of(service: &Service) -> u8
    ensures { result ≡ status_of service.now.faultless service.now.rows.items service.now.totals }
{
    if service.faultless && service.totals.failed == 0 && are_good(service.rows.as_slice()) {
        0
    } else {
        1
    }
}

/// What is reported of a service beside its report.
#[derive(Drop)]
pub struct ServiceEnd {
    /// The status: 0 if each file was read, no task failed and no worker has a fault, else 1.
    pub status: u8,
    /// The failed tasks, in the order of the files and, within a file, of its tasks.
    pub failures: Vec<FileFailure>,
    /// Whether the last task of a history that was served has a record: it is completed in the
    /// history. A task is compared with its record when the next one is replayed, so this record
    /// was compared with nothing, whether a task failed or not.
    pub uncompared: bool,
    /// Whether no worker has a fault: no call of its source failed. After a fault a worker goes on,
    /// so all tasks may be completed beside one.
    pub faultless: bool,
    /// Where files are not JSON and which workflow types are not registered, in the order of the
    /// files.
    pub file_faults: Vec<FileFault>,
}

/// What a host left of files that it served, whose report is not written yet.
#[derive(Drop)]
pub struct PendingReport {
    pub(crate) service: Service,
    pub(crate) file_faults: Vec<FileFault>,
}

/// Serves the tasks of files that were read by a host of these sizes. File by file the workers are
/// assigned the histories in turn. Of equal names each has the counts and the failed tasks of the
/// first that its worker was assigned. `host` runs the host, as `host_of` does.
pub fn serve_read<F: Fn(Config, Vec<ServiceSetup>) -> Result<ServiceHost, OutOfMemory>>(
    alloc: Global,
    read: ReadFiles,
    config: Config,
    host: F,
) -> Result<PendingReport, OutOfMemory>
where
    F: Drop,
    requires sizes { IsConfig config }
    requires runs { IsHost (F.pre host) (leaves (F.post host)) }
    ensures served { IfOk result
        (IsServed (leaves (F.post host)) config (readings_of read) read.faults.items) }
{
    let ReadFiles { files, faults } = read;
    let service = serve_all(alloc, files, config, host)?;
    Ok(PendingReport {
        service,
        file_faults: faults,
    })
}

/// Writes the report of files that were served, a line for each file in their order, then the
/// totals, and returns what else is reported of them. The fault is `Output`; then part of the
/// report may be written.
pub fn report_served<O: Write>(
    served: PendingReport,
    writer: &mut O,
) -> Result<ServiceEnd, CommandFault>
    ensures written { IfOk result (IsEndOf served (O.contents writer.old) (O.contents writer.new)) }
    ensures output { result ≢ Err CommandFault.OutOfMemory }
{
    let PendingReport {
        service,
        file_faults,
    } = served;
    let status = status_of(&service);
    let Service {
        rows,
        totals,
        failures,
        uncompared,
        faultless,
    } = service;
    match write_service(rows, totals, writer) {
        Ok(()) => Ok(ServiceEnd {
            status,
            failures,
            uncompared,
            faultless,
            file_faults,
        }),
        Err(_) => Err(CommandFault::Output),
    }
}
