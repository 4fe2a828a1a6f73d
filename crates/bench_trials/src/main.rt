//! Tries the libraries. `wh_replay::replay_history` is compared with replay as its definition computes it:
//! by going through the list of events anew for each place, each task and each look-up, in
//! quadratic time. The steps and the time of calls of `Run::advance` on a long run are printed, and
//! the peak of the process's memory shows whether a call steps only its own task. bench/growths.py
//! counts the growths of memory and the instructions of one call, and refuses single growths. Calls
//! of the libraries are made by their names, for tests/refusals.py. A host is soaked, for
//! bench/soak.py.
#![tactic(auto)]

mod alike;
mod blink;
mod calls;
mod comparing;
mod cuts;
mod folder;
mod generated;
mod growing;
mod keeper;
mod long_run;
mod lookups;
mod notation;
mod peak;
mod places;
mod replay;
mod same;
mod samples;
mod soak;
mod things;

use crate::growing::Plan;
use crate::soak::Soak;
use std::env;
use std::env::Env;
use std::io::Eprint;
use std::process::ExitCode;
use std::rt::Runtime;
use std::sync::Wait;
use std::thread::Threads;

/// How the program is called.
const USAGE: &str =
    "bench_trials [NAME | TASKS CALLS | FOLDER WORKERS CACHE HISTORIES]: the name of one call; or 1 to 650 completed tasks before 0 to 100 calls; or a soak by 1 to 64 workers with a cache of 0 to 10000 runs over 1 to 100000 histories; or all that is tried";

/// The calls that are made if everything is tried.
const FEW: Plan = Plan {
    tasks: 100,
    calls: 3,
};

/// The soak that is done if everything is tried.
const SMALL: Soak<'static> = Soak {
    dir: samples::FOLDER,
    workers: 4,
    cache: 10,
    histories: 20,
};

/// What is to be tried.
#[derive(Clone, Copy)]
enum Request<'a> {
    /// The call of a name.
    Named(&'a str),
    /// The calls of a plan.
    Calls(Plan),
    /// A soak of a host.
    Soak(Soak<'a>),
    /// The calls of a small plan, the peak of memory, the comparison, each call that has a name,
    /// and a small soak.
    All,
}

/// The number that the text writes, if it is one from the least to the most.
fn count_of(text: &str, least: u64, most: u64) -> Option<u64> {
    let Ok(count) = text.parse::<u64>() else {
        return None;
    };
    if count < least || most < count {
        return None;
    }
    Some(count)
}

/// The calls that two words ask for.
fn calls_of<'a>(tasks: &str, calls: &str) -> Option<Request<'a>> {
    let tasks = count_of(tasks, 1, 650)?;
    let calls = count_of(calls, 0, 100)?;
    Some(Request::Calls(Plan { tasks, calls }))
}

/// The soak that a folder and three words ask for.
fn soak_of<'a>(dir: &'a str, workers: &str, cache: &str, histories: &str) -> Option<Request<'a>> {
    let workers = count_of(workers, 1, 64)?;
    let cache = count_of(cache, 0, 10_000)? as usize;
    let histories = count_of(histories, 1, 100_000)?;
    Some(Request::Soak(Soak {
        dir,
        workers,
        cache,
        histories,
    }))
}

/// The request of the words of the command line.
fn asked_by(words: &[String]) -> Option<Request<'_>> {
    match words {
        [] | [_] => Some(Request::All),
        [_, name] => Some(Request::Named(name.as_str())),
        [_, tasks, calls] => calls_of(tasks.as_str(), calls.as_str()),
        [_, dir, workers, cache, histories] => soak_of(
            dir.as_str(),
            workers.as_str(),
            cache.as_str(),
            histories.as_str(),
        ),
        _ => None,
    }
}

/// The words of the command line.
fn words_of<R: Env + AllocGlobal>(rt: &R) -> Option<Vec<String>> {
    env::args(rt).ok()?.collect(rt.alloc()).ok()
}

/// Tries everything, and returns whether all of it holds. `None` if it can't be tried.
fn try_all<R: Runtime + AllocGlobal + Threads + Wait + Sync>(rt: &R) -> Option<bool> {
    let is_alone = peak::tell(rt)?;
    growing::tell(rt, rt.alloc(), FEW)?;
    let is_same = samples::tell(rt).ok()?;
    calls::call_all(rt, rt.alloc(), "")?;
    let is_sound = soak::tell(rt, SMALL)?;
    Some(is_alone && is_same && is_sound)
}

/// Tries what is requested, and returns whether all of it holds. `None` if it can't be tried.
fn run<R: Runtime + AllocGlobal + Threads + Wait + Sync>(
    rt: &R,
    asked: Request<'_>,
) -> Option<bool> {
    match asked {
        Request::Named(name) => calls::call_all(rt, rt.alloc(), name)?,
        Request::Calls(plan) => growing::tell(rt, rt.alloc(), plan)?,
        Request::Soak(soak) => return soak::tell(rt, soak),
        Request::All => return try_all(rt),
    }
    Some(true)
}

/// Prints how the program is called.
fn tell_usage<R: Eprint>(rt: &R) -> ExitCode {
    let _ = eprintln!(rt; "{USAGE}");
    ExitCode::from(2)
}

/// The status is 0 if all that was tried holds, 1 if some of it does not, and 2 if it could not be
/// tried: because of a bad command line, or because the histories, a clock or memory are missing.
fn main(rt: HostRuntime) -> ExitCode {
    let Some(words) = words_of(&rt) else {
        return tell_usage(&rt);
    };
    let Some(asked) = asked_by(words.as_slice()) else {
        return tell_usage(&rt);
    };
    let Some(holds) = run(&rt, asked) else {
        let _ = eprintln!(&rt; "bench_trials: could not be tried");
        return ExitCode::from(2);
    };
    ExitCode::from(u8::from(!holds))
}
