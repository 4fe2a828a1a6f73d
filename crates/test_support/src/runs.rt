//! Runs in words.

use crate::histories::{HistoryFault, events_after};
use crate::rows::shown;
use std::alloc::{AllocError, Global};
use wh_replay::{AdvanceFault, Run, RunFault};
use wh_workflow::{Meter, Workflow};

/// Returns the version of the change `chg`.
fn version_text(alloc: Global, version: Option<i32>) -> Result<String, AllocError> {
    match version {
        Some(version) => format!(in alloc; ", chg is {version}"),
        None => Ok(String::new(alloc)),
    }
}

/// Returns a run as text, after a word and a number of steps: how many events it holds, its unsent
/// commands, and the version of the change `chg`. The error is that of an allocation.
pub fn run_text<W: Workflow>(
    alloc: Global,
    word: &str,
    steps: u64,
    run: &Run<W>,
) -> Result<String, AllocError> {
    let held = run.held_len();
    let commands = shown(alloc, &run.commands())?;
    let version = version_text(alloc, run.version("chg"))?;
    format!(in alloc; "{word}{steps} steps, holds {held}, {commands}{version}")
}

/// Returns the result of advancing a run in so many steps, as text.
fn advanced_text<W: Workflow>(
    alloc: Global,
    steps: u64,
    advanced: &Result<Run<W>, AdvanceFault<W>>,
) -> Result<String, AllocError> {
    match advanced {
        Ok(run) => run_text(alloc, "", steps, run),
        Err(AdvanceFault::NotATask(run)) => run_text(alloc, "NotATask, ", steps, run),
        Err(AdvanceFault::Gap(run)) => run_text(alloc, "Gap, ", steps, run),
        Err(AdvanceFault::Fault(fault)) => shown(alloc, &RunFault::Fault(*fault)),
        Err(AdvanceFault::OutOfMemory) => shown(alloc, &RunFault::OutOfMemory),
    }
}

/// Returns the result of advancing a run by the events of a history after those that it holds, or
/// after as many as the history says itself. The fault is that of its words.
pub fn advance<W: Workflow>(
    alloc: Global,
    run: Run<W>,
    history: &'static str,
) -> Result<String, HistoryFault> {
    let mut meter = Meter::new();
    let new = events_after(alloc, history, run.held_len())?;
    let advanced = run.advance(alloc, new, &mut meter);
    let text = advanced_text(alloc, meter.count(), &advanced);
    drop(advanced);
    Ok(text?)
}
