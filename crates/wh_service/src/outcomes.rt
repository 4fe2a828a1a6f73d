//! What came of the files: it is gathered of what the workers leave.

ghost use Rattle.std.specs.Prelude.{◌≡◌, ◌<◌, ◌++◌, IfOk, OnOk, is_none, length, map, vec_len};
ghost use Rattle.std.specs.List.{list_all, list_any};
ghost use Rattle.wh_recorded.specs.Rounds.{tally_of, has_last_record};
ghost use Rattle.wh_service.specs.Rows.{counts_from, row_from, rows_from, failures_of, failures_from};

use crate::assignment::AssignedFile;
use crate::failures::FileFailure;
use crate::rows::{FileCounts, FileRow};
use std::alloc::Global;
use wh_events::OutOfMemory;
use wh_host::Totals;
use wh_poll::{HostEnd, NoActivities, NoObserver, WorkerEnd};
use wh_recorded::ScriptSource;

/// What the workers did.
#[derive(Drop)]
pub(crate) struct Service {
    pub(crate) rows: Vec<FileRow>,
    pub(crate) totals: Totals,
    /// Whether no worker has a fault.
    pub(crate) faultless: bool,
    /// The failed tasks, in the order of the files.
    pub(crate) failures: Vec<FileFailure>,
    /// Whether the last task of a history has a record, which it was not compared with.
    pub(crate) uncompared: bool,
}

/// How many tasks of a file the source of its worker gave, and how they ended.
fn counts_in(source: &ScriptSource, name: &str) -> FileCounts
    ensures { result ≡ counts_from (tally_of source.now name.now) }
{
    match source.tally(name) {
        Some((tasks, completed, failed)) => FileCounts {
            tasks,
            completed,
            failed,
        },
        None => FileCounts {
            tasks: 0,
            completed: 0,
            failed: 0,
        },
    }
}

/// What came of a file, as the source of its worker has it.
fn row_of(file: AssignedFile, source: &ScriptSource) -> FileRow
    ensures { result ≡ row_from source.now file }
{
    let AssignedFile { name, fault } = file;
    let outcome = match fault {
        Some(fault) => Err(fault),
        None => Ok(counts_in(source, name.get())),
    };
    FileRow { name, outcome }
}

/// What a worker of a service leaves.
type ServiceWorker = WorkerEnd<ScriptSource, NoActivities, NoObserver>;

/// Adds the failed tasks of a file, as the source of its worker has them.
#[tactic(auto, using(crate::proofs::FileRows::more_failures))]
fn add_failures(
    file: &AssignedFile,
    source: &ScriptSource,
    failures: &mut Vec<FileFailure>,
) -> Result<(), OutOfMemory>
    ensures { OnOk result (failures.new.items ≡ failures.old.items ++ failures_of source.now file.now) }
{
    let None = &file.fault else {
        return Ok(());
    };
    for task in source.failed_tasks(file.name.get())? {
        failures.push(FileFailure {
            name: file.name.try_copy()?,
            task,
        })?;
    }
    Ok(())
}

/// The rows of the files, which were assigned to the workers in turn, and their failed tasks.
fn rows_of(
    alloc: Global,
    files: Vec<AssignedFile>,
    workers: &[ServiceWorker],
) -> Result<(Vec<FileRow>, Vec<FileFailure>), OutOfMemory>
    requires { 0 < length workers.now }
    ensures rows { IfOk result (λ both.
        both.0.items ≡ rows_from (map (λ worker. worker.source) workers.now) 0 files.items) }
    ensures failures { IfOk result (λ both.
        both.1.items ≡ failures_from (map (λ worker. worker.source) workers.now) 0 files.items) }
{
    let mut rows = Vec::new(alloc);
    let mut failures = Vec::new(alloc);
    for file in files {
        let place = rows.len() % workers.len();
        let source = &workers[place].source;
        add_failures(&file, source, &mut failures)?;
        rows.push(row_of(file, source))?;
    }
    Ok((rows, failures))
}

/// Whether the last task of a history has a record.
fn have_last_records(workers: &[ServiceWorker]) -> bool
    ensures { result ≡ list_any (λ worker. has_last_record worker.source) workers.now }
{
    workers.iter().any(|worker| worker.source.has_last_record())
}

/// Whether the source of a worker had no fault.
fn is_faultless(worker: &ServiceWorker) -> bool
    ensures { result ≡ is_none worker.now.fault }
{
    worker.fault.is_none()
}

/// Whether no worker has a fault.
fn are_faultless(workers: &[ServiceWorker]) -> bool
    ensures { result ≡ list_all (λ worker. is_none worker.fault) workers.now }
{
    workers.iter().all(|worker| is_faultless(worker))
}

/// Gathers what workers did with the files that were assigned to them.
pub(crate) fn gather(
    alloc: Global,
    assigned: Vec<AssignedFile>,
    end: HostEnd<ScriptSource, NoActivities, NoObserver>,
) -> Result<Service, OutOfMemory>
    requires { 0 < vec_len end.workers }
    ensures rows { IfOk result (λ service.
        service.rows.items ≡ rows_from (map (λ worker. worker.source) end.workers.items) 0 assigned.items) }
    ensures totals { IfOk result (λ service. service.totals ≡ end.totals) }
    ensures faultless { IfOk result (λ service.
        service.faultless ≡ list_all (λ worker. is_none worker.fault) end.workers.items) }
    ensures failures { IfOk result (λ service.
        service.failures.items ≡ failures_from (map (λ worker. worker.source) end.workers.items) 0 assigned.items) }
    ensures uncompared { IfOk result (λ service.
        service.uncompared ≡ list_any (λ worker. has_last_record worker.source) end.workers.items) }
{
    let HostEnd {
        workers,
        totals,
        ..
    } = end;
    let (rows, failures) = rows_of(alloc, assigned, workers.as_slice())?;
    Ok(Service {
        rows,
        totals,
        faultless: are_faultless(workers.as_slice()),
        failures,
        uncompared: have_last_records(workers.as_slice()),
    })
}
