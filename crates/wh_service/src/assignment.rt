//! Files are assigned to workers.

ghost use Rattle.std.specs.Prelude.{◌≡◌, ◌<◌, ◌++◌, ℕ, [], IfOk, OnOk, get_or, length, map, replicate, vec_len};
ghost use Rattle.wh_recorded.specs.Rounds.{opening_stage};
ghost use Rattle.wh_service.specs.Assignment.{assigned_as, assigned_to, histories_seen, history_of, no_source};
ghost use Rattle.wh_service.specs.Readings.{reading};

use crate::readings::ReadFile;
use std::alloc::Global;
use wh_events::{Event, OutOfMemory, Text};
use wh_json::ReadFault;
use wh_recorded::ScriptSource;

/// A file by its name, and why it cannot be read, if so.
#[derive(Drop)]
pub(crate) struct AssignedFile {
    pub(crate) name: Text,
    pub(crate) fault: Option<ReadFault>,
}

/// The histories of a worker: each with the index of its file, its name and its events.
type WorkerHistories = Vec<(u64, String, Vec<Event>)>;

/// An empty list for each worker.
fn no_histories(alloc: Global, workers: usize) -> Result<Vec<WorkerHistories>, OutOfMemory>
    ensures { IfOk result (λ lists. map histories_seen lists.items ≡ replicate workers []) }
{
    let mut lists = Vec::new(alloc);
    for _worker in 0..workers {
        lists.push(Vec::new(alloc))?;
    }
    Ok(lists)
}

/// Assigns a file to a worker: its history goes to the worker's list under the index of the file.
fn assign_file(
    alloc: Global,
    index: u64,
    file: ReadFile,
    list: &mut WorkerHistories,
) -> Result<AssignedFile, OutOfMemory>
    ensures assigned { IfOk result (λ assigned. assigned ≡ assigned_as (reading file)) }
    ensures list { OnOk result (histories_seen list.new ≡ histories_seen list.old ++ history_of index (reading file)) }
{
    let ReadFile { name, outcome } = file;
    let fault = match outcome {
        Ok(events) => {
            let copy = String::from_str(alloc, name.as_str())?;
            list.push((index, copy, events))?;
            None
        }
        Err(fault) => Some(fault),
    };
    Ok(AssignedFile {
        name: Text::new(name),
        fault,
    })
}

/// Assigns the histories of the files to the workers in turn.
fn assign_files(
    alloc: Global,
    files: Vec<ReadFile>,
    lists: &mut [WorkerHistories],
) -> Result<Vec<AssignedFile>, OutOfMemory>
    requires { 0 < length lists.old }
    ensures lists { length lists.new ≡ length lists.old }
    ensures assigned { IfOk result (λ assigned. assigned.items ≡ map assigned_as (map reading files.items)) }
    ensures histories { OnOk result ((worker : ℕ) → worker < length lists.old →
        let own = assigned_to (length lists.old) worker (map reading files.items) in
        get_or (map histories_seen lists.new) worker [] ≡ get_or (map histories_seen lists.old) worker [] ++ own) }
{
    let mut assigned = Vec::new(alloc);
    for file in files {
        let worker = assigned.len() % lists.len();
        let file = assign_file(alloc, assigned.len() as u64, file, &mut lists[worker])?;
        assigned.push(file)?;
    }
    Ok(assigned)
}

/// A source over each worker's histories.
fn sources_of(alloc: Global, lists: Vec<WorkerHistories>) -> Result<Vec<ScriptSource>, OutOfMemory>
    ensures { IfOk result (λ sources. sources.items ≡ map (λ list. opening_stage (histories_seen list)) lists.items) }
{
    let mut sources = Vec::new(alloc);
    for list in lists {
        sources.push(ScriptSource::new(alloc, list)?)?;
    }
    Ok(sources)
}

/// The files, assigned to so many workers, and a source over the histories of each worker.
pub(crate) fn assign_sources(
    alloc: Global,
    files: Vec<ReadFile>,
    workers: usize,
) -> Result<(Vec<AssignedFile>, Vec<ScriptSource>), OutOfMemory>
    requires { 0 < workers }
    ensures assigned { IfOk result (λ both. both.0.items ≡ map assigned_as (map reading files.items)) }
    ensures count { IfOk result (λ both. vec_len both.1 ≡ workers) }
    ensures histories { IfOk result (λ both. (worker : ℕ) → worker < workers →
        get_or both.1.items worker no_source ≡ opening_stage (assigned_to workers worker (map reading files.items))) }
{
    let mut lists = no_histories(alloc, workers)?;
    let assigned = assign_files(alloc, files, lists.as_mut_slice())?;
    let sources = sources_of(alloc, lists)?;
    Ok((assigned, sources))
}
