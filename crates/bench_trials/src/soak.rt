//! Soaks a worker host: many workers serve many short histories while another thread evicts runs at
//! random. Their answers are compared with those of as many workers without a cache.
ghost use Rattle.std.specs.Prelude.{◌<◌, length};

mod histories;
mod hits;
mod judging;
mod serving;

use crate::folder::files_of;
use crate::soak::histories::{File, keys_of, sources_of, tasks_of};
use crate::soak::judging::judge;
use crate::soak::serving::{Findings, serve};
use std::alloc::Global;
use std::io;
use std::io::{Eprint, ErrorKind, Print};
use std::rt::Runtime;
use std::sync::Wait;
use std::thread::Threads;
use std::time::Clock;
use wh_events::RunKey;
use wh_sample_workflows::All;

/// A soak to be done.
#[derive(Clone, Copy)]
pub(crate) struct Soak<'a> {
    /// The folder of the files that the histories are read from.
    pub(crate) dir: &'a str,
    /// How many workers serve.
    pub(crate) workers: u64,
    /// How many runs the cache holds.
    pub(crate) cache: usize,
    /// How many histories are served.
    pub(crate) histories: u64,
}

/// Writes the figures, which differ in each soak, to standard error.
fn print_figures<R: Eprint>(rt: &R, found: &Findings) -> io::Result<()> {
    let (hits, misses) = (found.tally.hits, found.tally.misses);
    let (evicted, micros) = (found.evicted, found.micros);
    let rate = found.totals.taken.saturating_mul(1_000_000) / micros.max(1);
    eprintln!(rt;
        "evicted {evicted}, hits {hits}, misses {misses}, microseconds {micros}, tasks a second {rate}"
    )
}

/// Writes what was checked to standard output.
fn print_checked<R: Print>(rt: &R, found: &Findings) -> io::Result<()> {
    let (tasks, totals) = (found.tally.tasks, found.totals);
    let (taken, in_hand) = (totals.taken, totals.in_hand);
    let (completed, failed) = (totals.completed, totals.failed);
    println!(rt;
        "{tasks} answers, equal to those without a cache\ntaken {taken}, completed {completed}, failed {failed}, in hand {in_hand}"
    )
}

/// Soaks the host once, on new sources, with a cache of so many runs, while the runs of the keys
/// are evicted.
fn soak_once<R: Clock + Threads + Wait + Sync>(
    rt: &R,
    alloc: Global,
    soak: Soak<'_>,
    files: &[File],
    keys: &[RunKey],
    cache: usize,
) -> io::Result<Findings>
    requires { 0 < length files.now }
{
    let sources = sources_of(alloc, files, soak.histories, soak.workers)?;
    let tasks = tasks_of(sources.as_slice());
    serve::<All, R>(rt, alloc, sources, tasks, keys, cache)
}

/// Returns what a soak refuted compared with the plain one, if anything, and prints it otherwise.
fn judge_and_print<R: Print + Eprint>(
    rt: &R,
    found: &Findings,
    plain: &Findings,
    cache: usize,
) -> io::Result<Result<(), &'static str>> {
    let judged = judge(found, plain, cache);
    if judged.is_ok() {
        print_figures(rt, found)?;
        print_checked(rt, found)?;
    }
    Ok(judged)
}

/// Soaks the host, after a plain soak without a cache, and returns what the soak refuted, if
/// anything.
fn soak_beside<R: Clock + Print + Eprint + Threads + Wait + Sync>(
    rt: &R,
    alloc: Global,
    soak: Soak<'_>,
    files: &[File],
    keys: &[RunKey],
) -> io::Result<Result<(), &'static str>>
    requires { 0 < length files.now }
{
    let plain = soak_once(rt, alloc, soak, files, &[], 0)?;
    let found = soak_once(rt, alloc, soak, files, keys, soak.cache);
    let judged = match &found {
        Ok(found) => judge_and_print(rt, found, &plain, soak.cache),
        Err(error) => Err(error.kind().into()),
    };
    drop(found);
    drop(plain);
    judged
}

/// Soaks the host on the files, which are not empty.
fn soak_files<R: Clock + Print + Eprint + Threads + Wait + Sync>(
    rt: &R,
    alloc: Global,
    soak: Soak<'_>,
    files: &[File],
) -> io::Result<Result<(), &'static str>> {
    if files.is_empty() {
        return Err(ErrorKind::NotFound.into());
    }
    let keys = keys_of(alloc, files, soak.histories)?;
    let judged = soak_beside(rt, alloc, soak, files, keys.as_slice());
    drop(keys);
    judged
}

/// Soaks the host, and returns what the soak refuted, if anything.
fn run<R: Runtime + AllocGlobal + Threads + Wait + Sync>(
    rt: &R,
    soak: Soak<'_>,
) -> io::Result<Result<(), &'static str>> {
    let Some(files) = files_of(rt, soak.dir) else {
        return Err(ErrorKind::NotFound.into());
    };
    let judged = soak_files(rt, rt.alloc(), soak, files.as_slice());
    drop(files);
    judged
}

/// Soaks the host, and returns whether nothing was refuted. `None` if there was no soak. Standard
/// error has the reason for either.
pub(crate) fn tell<R: Runtime + AllocGlobal + Threads + Wait + Sync>(
    rt: &R,
    soak: Soak<'_>,
) -> Option<bool> {
    match run(rt, soak) {
        Ok(Ok(())) => Some(true),
        Ok(Err(refuted)) => {
            let _ = eprintln!(rt; "bench_trials: {refuted}");
            Some(false)
        }
        Err(error) => {
            let _ = eprintln!(rt; "bench_trials: {error}");
            None
        }
    }
}
