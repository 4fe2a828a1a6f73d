//! A run of a workflow that never frees memory. The peak of the process's memory, which Linux keeps
//! in a file, shows whether advancing by one task steps only that task.
use crate::keeper::Keeper;
use crate::long_run::LongRun;
use std::io::{Eprint, Print};
use std::rt::Files;
use std::str;
use wh_console::read_file;
use wh_workflow::Meter;

/// The run, whose workflow allocates a block of memory at each signal.
const LONG: LongRun = LongRun {
    workflow: "Keeper",
    timers: 0,
};

/// How many tasks are completed before the call.
const TASKS: u64 = 200;

/// How many KiB the replay of these tasks takes at least: seven eighths of a block for each.
const LEAST: u64 = TASKS * 896;

/// How many KiB the call takes at most: 16 blocks.
const MOST: u64 = 16 * 1024;

/// The KiB that a size of the process's status says.
fn kib_of(size: &str) -> Option<u64> {
    size.trim().strip_suffix(" kB")?.parse::<u64>().ok()
}

/// The peak that the process's status names.
fn peak_in(status: &[u8]) -> Option<u64> {
    let Ok(status) = str::from_utf8(status) else {
        return None;
    };
    for line in status.lines() {
        if let Some(size) = line.strip_prefix("VmHWM:") {
            return kib_of(size);
        }
    }
    None
}

/// The most memory, in KiB, that the process has had so far.
fn peak<R: Files + AllocGlobal>(rt: &R) -> Option<u64> {
    let status = read_file(rt, "/proc/self/status").ok()?;
    let peak = peak_in(status.as_slice());
    drop(status);
    peak
}

/// By how many KiB the peak rises in the replay of all tasks, and then in the call that advances by
/// one more. `None` if there is no run, or no peak.
fn rises<R: Files + AllocGlobal>(rt: &R) -> Option<(u64, u64)> {
    let first = peak(rt)?;
    let run = LONG.replayed::<Keeper>(rt.alloc(), TASKS, &mut Meter::new());
    let (run, more) = run.zip(LONG.next_task(rt.alloc(), TASKS).ok())?;
    let before = peak(rt);
    drop(run.advance(rt.alloc(), more, &mut Meter::new()).ok()?);
    let (before, after) = before.zip(peak(rt))?;
    Some((before.saturating_sub(first), after.saturating_sub(before)))
}

/// Prints whether the peak shows a replay, and whether the call stepped only the new task, and
/// returns whether both hold. `None` if the peak can't be read.
pub(crate) fn tell<R: Files + Print + Eprint + AllocGlobal>(rt: &R) -> Option<bool> {
    let (replay, call) = rises(rt)?;
    let (shows, is_within) = (LEAST <= replay, call <= MOST);
    let _ = eprintln!(rt; "the peak rose by {replay} KiB in the replay, by {call} KiB in the call");
    let _ = println!(rt; "the replay of {TASKS} tasks shows in the peak of memory: {shows}");
    let _ = println!(rt; "one more task takes 16 MiB at most: {is_within}");
    Some(shows && is_within)
}
