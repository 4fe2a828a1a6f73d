//! A soak: workers with a thread each serve tasks while another thread evicts runs at random.
ghost use Rattle.std.specs.Prelude.{◌≡◌, IfOk, replicate, vec_len};
ghost use denote.Param.Send.{IsSend};
ghost use Rattle.wh_host.specs.Shares.{no_shares};

use crate::soak::hits::HitCount;
use rand_core::utils::NextWord;
use rand_pcg::Pcg32;
use std::alloc::{AllocError, Global};
use std::io::ErrorKind;
use std::marker::Brand;
use std::sync::Wait;
use std::sync::atomic::{AtomicBool, Ordering};
use std::sync::ledger::{Blank, Ledger};
use std::thread::Threads;
use std::time::{Clock, Duration, Instant};
use std::{io, thread};
use wh_events::{OutOfMemory, RunKey};
use wh_host::{Config, Evict, Host, Seat, Totals};
use wh_poll::{NoActivities, WorkerEnd, WorkerSetup, run_on_host};
use wh_recorded::ScriptSource;
use wh_slots::{ReserveFault, SlotKind};
use wh_workflow::Workflow;

/// How many slots of each kind the host has.
const SLOTS: usize = 1_000;

/// How often the evicting thread sleeps at most.
const MOST_ROUNDS: u32 = 10_000;

/// How many runs it evicts each time.
const ROUND: u32 = 64;

/// For how many microseconds it sleeps then.
const PAUSE: u64 = 2_000;

/// The counts of workers.
#[derive(Clone, Copy)]
pub(crate) struct Tally {
    /// The tasks that their sources had.
    pub(crate) tasks: u64,
    /// The tasks that were answered from a cached run.
    pub(crate) hits: u64,
    /// The tasks that were answered without one.
    pub(crate) misses: u64,
}

/// The results of a soak.
#[derive(Drop)]
pub(crate) struct Findings {
    /// What the closed host counted.
    pub(crate) totals: Totals,
    /// What the workers counted.
    pub(crate) tally: Tally,
    /// How many runs were cached when they were evicted.
    pub(crate) evicted: u64,
    /// Whether nothing could be reserved once the host drained.
    pub(crate) is_drained: bool,
    /// For how many microseconds the workers served.
    pub(crate) micros: u64,
    /// The sources of the workers, with what they were sent.
    pub(crate) sources: Vec<ScriptSource>,
}

/// The setup of a worker.
type SoakSetup = WorkerSetup<ScriptSource, NoActivities, HitCount>;

/// The end of a worker.
type SoakEnd = WorkerEnd<ScriptSource, NoActivities, HitCount>;

/// The seats that are returned, and the ends of their workers.
type Ended<T, C, F> = (Vec<Seat<T, C, F>>, Vec<SoakEnd>);

/// A setup for each source, with so many turns at most.
fn setups_of(
    alloc: Global,
    sources: Vec<ScriptSource>,
    turns: u64,
) -> Result<Vec<SoakSetup>, AllocError>
    ensures { IfOk result (λ setups. vec_len setups ≡ vec_len sources) }
{
    let mut setups = Vec::new(alloc);
    for source in sources {
        setups.push(WorkerSetup {
            source,
            handler: NoActivities { alloc },
            observer: HitCount { hits: 0, misses: 0 },
            turns,
        })?;
    }
    Ok(setups)
}

/// Evicts a run, and returns whether it was cached.
fn evict<R: Wait, W: Workflow, T: Ledger, C: Ledger, F: Ledger>(
    rt: &R,
    host: &Host<W, T, C, F>,
    key: &RunKey,
) -> bool {
    let evicted = host.lock(rt).evict(key);
    matches!(evicted, Evict::Evicted)
}

/// Evicts a few runs picked at random, and returns how many of them were cached.
fn evict_some<R: Wait, W: Workflow, T: Ledger, C: Ledger, F: Ledger>(
    rt: &R,
    host: &Host<W, T, C, F>,
    keys: &[RunKey],
    random: &mut Pcg32,
) -> u64 {
    let mut evicted: u64 = 0;
    for _run in 0..ROUND {
        let picked = keys.get(random.next_word() as usize % keys.len().max(1));
        if let Some(key) = picked
            && evict(rt, host, key)
        {
            evicted = evicted.saturating_add(1);
        }
    }
    evicted
}

/// Evicts each run, and returns how many of them were cached.
fn evict_each<R: Wait, W: Workflow, T: Ledger, C: Ledger, F: Ledger>(
    rt: &R,
    host: &Host<W, T, C, F>,
    keys: &[RunKey],
) -> u64 {
    let mut evicted: u64 = 0;
    for key in keys {
        if evict(rt, host, key) {
            evicted = evicted.saturating_add(1);
        }
    }
    evicted
}

/// Evicts runs picked at random, a few at a time, until the workers have ended, and at most
/// `MOST_ROUNDS` times; then each run once. Returns how many of them were cached.
fn evict_all<R: Wait + Clock, W: Workflow, T: Ledger, C: Ledger, F: Ledger>(
    rt: &R,
    host: &Host<W, T, C, F>,
    keys: &[RunKey],
    have_ended: &AtomicBool,
) -> u64 {
    let mut evicted: u64 = 0;
    let mut random = Pcg32::new(42, 54);
    for _round in 0..MOST_ROUNDS {
        if have_ended.load(Ordering::SeqCst) {
            break;
        }
        evicted = evicted.saturating_add(evict_some(rt, host, keys, &mut random));
        thread::sleep(rt, Duration::from_micros(PAUSE));
    }
    evicted.saturating_add(evict_each(rt, host, keys))
}

/// What happened while the setups ran.
#[derive(Clone, Copy)]
struct Run {
    /// How many runs were cached when they were evicted.
    evicted: u64,
    /// For how many microseconds the workers served.
    micros: u64,
}

/// How many microseconds have passed since an instant of the clock.
fn micros_since<R: Clock>(rt: &R, begun: io::Result<Instant>) -> io::Result<u64> {
    let elapsed = begun?.elapsed(rt)?;
    Ok(u64::try_from(elapsed.as_micros()).unwrap_or(u64::MAX))
}

/// The result, with what happened meanwhile.
fn timed<E: Drop>(
    ended: Result<E, OutOfMemory>,
    evicted: u64,
    micros: io::Result<u64>,
) -> io::Result<(E, Run)> {
    match ended {
        Ok(ended) => match micros {
            Ok(micros) => Ok((ended, Run { evicted, micros })),
            Err(error) => {
                drop(ended);
                Err(error)
            }
        },
        Err(OutOfMemory) => {
            drop(micros);
            Err(ErrorKind::OutOfMemory.into())
        }
    }
}

/// Runs the setups, evicts runs beside them, and measures the time.
fn serve_posts<
    R: Threads + Wait + Clock + Sync,
    W: Workflow + Send,
    T: Ledger + Send,
    C: Ledger + Send,
    F: Ledger + Send,
>(
    rt: &R,
    alloc: Global,
    host: &Host<W, T, C, F>,
    seats: Vec<Seat<T, C, F>>,
    setups: Vec<SoakSetup>,
    keys: &[RunKey],
) -> io::Result<(Ended<T, C, F>, Run)>
    requires { seats.items ≡ replicate (vec_len setups) no_shares }
{
    let begun = Instant::now(rt);
    let have_ended = AtomicBool::new(false);
    let (ended, evicted) = thread::join(
        rt,
        || -> Result<Ended<T, C, F>, OutOfMemory>
            requires workflow { IsSend W.row }
            requires state { IsSend W.State.row }
            requires seats { seats.items ≡ replicate (vec_len setups) no_shares }
        {
            let ended = run_on_host(rt, alloc, host, seats, setups);
            have_ended.store(true, Ordering::SeqCst);
            ended
        },
        || evict_all(rt, host, keys, &have_ended),
    );
    timed(ended, evicted, micros_since(rt, begun))
}

/// Whether no slot of a kind can be reserved, since the host drains.
fn is_refused<R: Wait, W: Workflow, T: Ledger, C: Ledger, F: Ledger>(
    rt: &R,
    host: &Host<W, T, C, F>,
    kind: SlotKind,
) -> bool {
    let reserved = host.lock(rt).reserve(kind);
    matches!(reserved, Err(ReserveFault::Draining))
}

/// Drains the host, and returns whether no slot of either kind can be reserved then.
fn drain<R: Wait, W: Workflow, T: Ledger, C: Ledger, F: Ledger>(
    rt: &R,
    host: &Host<W, T, C, F>,
) -> bool {
    host.lock(rt).drain();
    is_refused(rt, host, SlotKind::Workflow) && is_refused(rt, host, SlotKind::Activity)
}

/// The counts of the workers, whose sources had so many tasks.
fn tally_of(left: &[SoakEnd], tasks: u64) -> Tally {
    let (mut hits, mut misses) = (0u64, 0u64);
    for worker in left {
        hits = hits.saturating_add(worker.observer.hits);
        misses = misses.saturating_add(worker.observer.misses);
    }
    Tally {
        tasks,
        hits,
        misses,
    }
}

/// Adds the source that a worker leaves.
fn push_source(sources: &mut Vec<ScriptSource>, worker: SoakEnd) -> Result<(), AllocError> {
    Ok(sources.push(worker.source)?)
}

/// The sources that the workers leave.
fn sources_left(alloc: Global, left: Vec<SoakEnd>) -> Result<Vec<ScriptSource>, AllocError> {
    let mut sources = Vec::new(alloc);
    for worker in left {
        push_source(&mut sources, worker)?;
    }
    Ok(sources)
}

/// Closes a host, and returns the ends of its setups with the counts of the host.
fn end<W: Workflow, T: Ledger, C: Ledger, F: Ledger>(
    alloc: Global,
    host: Host<W, T, C, F>,
    ended: Ended<T, C, F>,
    run: Run,
    is_drained: bool,
    tasks: u64,
) -> io::Result<Findings> {
    let (seats, left) = ended;
    let totals = host.close(seats).ok();
    let tally = tally_of(left.as_slice(), tasks);
    let sources = sources_left(alloc, left)?;
    let Some(totals) = totals else {
        drop(sources);
        return Err(ErrorKind::Other.into());
    };
    Ok(Findings {
        totals,
        tally,
        evicted: run.evicted,
        is_drained,
        micros: run.micros,
        sources,
    })
}

/// Opens a host, runs the setups, drains the host and closes it.
fn soak_with<
    R: Threads + Wait + Clock + Sync,
    W: Workflow + Send,
    T: Ledger + Send,
    C: Ledger + Send,
    F: Ledger + Send,
>(
    rt: &R,
    alloc: Global,
    setups: Vec<SoakSetup>,
    tasks: u64,
    keys: &[RunKey],
    config: Config,
    taken: Blank,
    completed: Blank,
    failed: Blank,
) -> io::Result<Findings>
    requires seats { config.seats ≡ vec_len setups }
    requires taken { (taken.name ≡ T.name) × (taken.parts ≡ T.parts) × (taken.parts ≡ config.seats) }
    requires completed { (completed.name ≡ C.name) × (completed.parts ≡ C.parts) × (completed.parts ≡ config.seats) }
    requires failed { (failed.name ≡ F.name) × (failed.parts ≡ F.parts) × (failed.parts ≡ config.seats) }
{
    let Ok((host, seats)) = Host::<W, T, C, F>::open(alloc, config, taken, completed, failed) else {
        return Err(ErrorKind::InvalidInput.into());
    };
    let served = serve_posts(rt, alloc, &host, seats, setups, keys);
    let is_drained = drain(rt, &host);
    match served {
        Ok((ended, run)) => end(alloc, host, ended, run, is_drained, tasks),
        Err(error) => {
            drop(host);
            Err(error)
        }
    }
}

/// Serves so many tasks of the sources, each by a worker, with a cache of so many runs, while the
/// runs of the keys are evicted. A worker serves each kind of tasks by turns, so it has two turns
/// for each task, and two to learn that there are no more.
pub(crate) fn serve<W: Workflow + Send, R: Threads + Wait + Clock + Sync>(
    rt: &R,
    alloc: Global,
    sources: Vec<ScriptSource>,
    tasks: u64,
    keys: &[RunKey],
    cache: usize,
) -> io::Result<Findings> {
    let turns = tasks.saturating_mul(2).saturating_add(2);
    let setups = setups_of(alloc, sources, turns)?;
    let config = Config {
        workflow_slots: SLOTS,
        activity_slots: SLOTS,
        cache,
        cache_events: 0,
        seats: setups.len(),
    };
    let seats = setups.len() as u64;
    soak_with::<R, W, Brand, Brand, Brand>(
        rt,
        alloc,
        setups,
        tasks,
        keys,
        config,
        Blank::new(seats),
        Blank::new(seats),
        Blank::new(seats),
    )
}
