//! The histories that are served, made of a few files over and over.
ghost use Rattle.std.specs.Prelude.{◌<◌, length};

use std::alloc::{AllocError, Global};
use std::io;
use std::io::ErrorKind;
use wh_events::{Event, RunKey, Text};
use wh_json::read_events;
use wh_recorded::ScriptSource;

/// The run id of each history's key.
const RUN_ID: &str = "recorded";

/// A file by its name, with its bytes.
pub(crate) type File = (String, Vec<u8>);

/// The name and the bytes of the history of an index: `nap-17` is made of `nap.json`.
fn history_at(alloc: Global, files: &[File], index: u64) -> Result<(String, &[u8]), AllocError>
    requires { 0 < length files.now }
{
    let (name, bytes) = &files[(index % files.len() as u64) as usize];
    let stem = name.strip_suffix(".json").unwrap_or(name.as_str());
    Ok((format!(in alloc; "{stem}-{index}")?, bytes.as_slice()))
}

/// The key of the run of the history of an index.
fn key_of(alloc: Global, files: &[File], index: u64) -> Result<RunKey, AllocError>
    requires { 0 < length files.now }
{
    let run_id = Text::new(String::from_str(alloc, RUN_ID)?);
    match history_at(alloc, files, index) {
        Ok((name, _)) => Ok(RunKey {
            workflow_id: Text::new(name),
            run_id,
        }),
        Err(error) => {
            drop(run_id);
            Err(error)
        }
    }
}

/// Adds the keys of the runs of so many histories.
fn push_keys(
    alloc: Global,
    keys: &mut Vec<RunKey>,
    files: &[File],
    histories: u64,
) -> Result<(), AllocError>
    requires { 0 < length files.now }
{
    for index in 0..histories {
        keys.push(key_of(alloc, files, index)?)?;
    }
    Ok(())
}

/// The keys of the runs of so many histories.
pub(crate) fn keys_of(
    alloc: Global,
    files: &[File],
    histories: u64,
) -> Result<Vec<RunKey>, AllocError>
    requires { 0 < length files.now }
{
    let mut keys = Vec::new(alloc);
    let pushed = push_keys(alloc, &mut keys, files, histories);
    pushed.and(Ok(keys))
}

/// A history by its number and its name, with its events.
type History = (u64, String, Vec<Event>);

/// The history of an index.
fn read_history(alloc: Global, files: &[File], index: u64) -> io::Result<History>
    requires { 0 < length files.now }
{
    let (name, bytes) = history_at(alloc, files, index)?;
    match read_events(alloc, bytes) {
        Ok(events) => Ok((index, name, events)),
        Err(fault) => {
            drop(fault);
            drop(name);
            Err(ErrorKind::InvalidData.into())
        }
    }
}

/// Adds those of so many histories that are dealt to a worker, where they are dealt in turn.
fn deal(
    alloc: Global,
    dealt: &mut Vec<History>,
    files: &[File],
    histories: u64,
    worker: u64,
    workers: u64,
) -> io::Result<()>
    requires files { 0 < length files.now }
    requires workers { 0 < workers }
{
    for index in 0..histories {
        if index % workers == worker {
            dealt.push(read_history(alloc, files, index)?)?;
        }
    }
    Ok(())
}

/// The source of a worker, where so many histories are dealt to the workers in turn.
fn source_of(
    alloc: Global,
    files: &[File],
    histories: u64,
    worker: u64,
    workers: u64,
) -> io::Result<ScriptSource>
    requires files { 0 < length files.now }
    requires workers { 0 < workers }
{
    let mut dealt = Vec::new(alloc);
    let given = deal(alloc, &mut dealt, files, histories, worker, workers);
    match ScriptSource::new(alloc, given.and(Ok(dealt))?) {
        Ok(source) => Ok(source),
        Err(_) => Err(ErrorKind::OutOfMemory.into()),
    }
}

/// Adds a source for each of so many workers, to whom so many histories are dealt in turn.
fn push_sources(
    alloc: Global,
    sources: &mut Vec<ScriptSource>,
    files: &[File],
    histories: u64,
    workers: u64,
) -> io::Result<()>
    requires { 0 < length files.now }
{
    for worker in 0..workers {
        sources.push(source_of(alloc, files, histories, worker, workers)?)?;
    }
    Ok(())
}

/// A source for each of so many workers, to whom so many histories are dealt in turn.
pub(crate) fn sources_of(
    alloc: Global,
    files: &[File],
    histories: u64,
    workers: u64,
) -> io::Result<Vec<ScriptSource>>
    requires { 0 < length files.now }
{
    let mut sources = Vec::new(alloc);
    let pushed = push_sources(alloc, &mut sources, files, histories, workers);
    pushed.and(Ok(sources))
}

/// How many tasks the sources have together.
pub(crate) fn tasks_of(sources: &[ScriptSource]) -> u64 {
    let mut tasks: u64 = 0;
    for source in sources {
        tasks = tasks.saturating_add(source.deliveries());
    }
    tasks
}
