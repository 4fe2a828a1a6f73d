//! The workers of live tasks.

ghost use Rattle.std.specs.Prelude.{◌≡◌, ◌+◌, ◌||◌, IfOk, is_some, length, vec_len};
ghost use Rattle.wh_crew.specs.Serving.{AreServed};
ghost use Rattle.wh_slots.specs.Sizes.{IsConfig};

use crate::metrics_file::{FileReplacer, MetricsFile};
use crate::plan::LivePlan;
use crate::progress::ProgressReporter;
use crate::sources::SourceCounter;
use crate::watch::Watch;
use std::alloc::Global;
use std::sync::{Arc, Wait};
use std::thread::Threads;
use std::time::Clock;
use wh_crew::{LiveEnd, LiveHeartbeat, serve_live};
use wh_events::OutOfMemory;
use wh_host::OpenFault;
use wh_payload_metadata::KeepingCalls;
use wh_rpc::Caller;
use wh_tasks::{ActivityCell, HeartbeatHandler, WithHeartbeat};
use wh_workflow::Queryable;

/// A handler with its heartbeat, as a live worker runs activities by.
type LiveHandler<'a, B, R, C> = WithHeartbeat<B, LiveHeartbeat<'a, R, C>>;

/// The members of a crew, each with its handler and a watch.
type LiveCrew<'a, 'p, 's, B, R, C> = Vec<(LiveHandler<'a, B, R, C>, Watch<'p, 'a, 's, R>)>;

/// Live work: the plan, the calls by which its tasks come, and the program's name.
#[derive(Drop)]
struct LiveWork<'a, R, C> {
    rt: &'a R,
    name: &'a str,
    calls: &'a C,
    plan: &'a LivePlan,
}

/// What counts live work: what the sources do in any case, and the turns if they are reported or
/// kept.
#[derive(Drop)]
struct LiveCounts<'p, 'a, 's, R> {
    sources: &'s SourceCounter<'a, R>,
    progress: Option<&'p ProgressReporter<'a, 's, R>>,
}

/// A cell for each worker, in which its source and its heartbeat find the activity task that it
/// runs.
fn cells_of(alloc: Global, seats: usize) -> Result<Vec<Arc<ActivityCell>>, OutOfMemory>
    ensures { IfOk result (λ cells. vec_len cells ≡ seats) }
{
    let mut cells = Vec::new(alloc);
    for _seat in 0..seats {
        let Ok(cell) = Arc::new(alloc, ActivityCell::new()) else {
            return Err(OutOfMemory);
        };
        cells.push(cell)?;
    }
    Ok(cells)
}

/// A handler that sends heartbeats over the calls, and a watch, for the worker of each cell.
fn crew_of<'a, 'p, 's, R, C: Caller, B: Drop, M: Fn() -> B>(
    work: &LiveWork<'a, R, C>,
    progress: Option<&'p ProgressReporter<'a, 's, R>>,
    make: &M,
    cells: &[Arc<ActivityCell>],
) -> Result<LiveCrew<'a, 'p, 's, B, R, C>, OutOfMemory>
    requires { M.IsAlwaysCallable make.now }
    ensures { IfOk result (λ crew. vec_len crew ≡ length cells.now) }
{
    let names = &work.plan.options.names;
    let mut crew = Vec::new(work.calls.allocator());
    for cell in cells {
        let cell = Arc::try_clone(cell)?;
        let heartbeat = LiveHeartbeat::new(work.rt, work.calls, names.try_copy()?, cell);
        let handler = make();
        let member = (WithHeartbeat { handler, heartbeat }, Watch(progress));
        crew.push(member)?;
    }
    Ok(crew)
}

/// The file that counts are kept in: there is one exactly if the plan names one.
fn metrics_file<'a>(
    alloc: Global,
    plan: &'a LivePlan,
) -> Result<Option<MetricsFile<'a>>, OutOfMemory>
    ensures { IfOk result (λ file. is_some file ≡ is_some plan.now.metrics) }
{
    match &plan.metrics {
        Some(path) => {
            let file = MetricsFile::new(alloc, path.get(), &plan.options.names)?;
            Ok(Some(file))
        }
        None => Ok(None),
    }
}

/// What reports and keeps the counts: there is one exactly if the plan asks for either.
fn progress_of<'a, 's, R: Wait + Clock, C: Caller>(
    work: &LiveWork<'a, R, C>,
    sources: &'s SourceCounter<'a, R>,
) -> Result<Option<ProgressReporter<'a, 's, R>>, OutOfMemory>
    ensures { IfOk result (λ progress.
        is_some progress ≡ (is_some work.now.plan.now.stats || is_some work.now.plan.now.metrics)) }
{
    let plan = work.plan;
    let file = metrics_file(work.calls.allocator(), plan)?;
    if plan.stats.is_none() && file.is_none() {
        return Ok(None);
    }
    let progress = ProgressReporter::new(
        work.rt,
        work.name,
        plan.stats,
        plan.format,
        file,
        sources,
    );
    Ok(Some(progress))
}

/// What reports and keeps the counts, if something does, and a cell for each worker.
fn parts_of<'a, 's, R: Wait + Clock, C: Caller>(
    work: &LiveWork<'a, R, C>,
    sources: &'s SourceCounter<'a, R>,
) -> Result<(Option<ProgressReporter<'a, 's, R>>, Vec<Arc<ActivityCell>>), OutOfMemory>
    ensures { IfOk result (λ parts. vec_len parts.1 ≡ work.now.plan.now.config.seats) }
{
    let progress = progress_of(work, sources)?;
    let cells = cells_of(work.calls.allocator(), work.plan.config.seats)?;
    Ok((progress, cells))
}

/// Keeps that nothing is counted yet, if counts are kept, and starts to read what the bridge writes.
/// Returns whether it could.
fn begin<R: Wait + Eprint + FileReplacer + AllocGlobal, L: FnOnce() -> bool>(
    progress: Option<&ProgressReporter<R>>,
    listen: L,
) -> bool
    requires { L.IsAlwaysCallable listen }
{
    if let Some(progress) = progress {
        progress.begin();
    }
    listen()
}

/// Keeps the counts of the end, if they are kept.
fn note_end<R: Wait + Eprint + FileReplacer + AllocGlobal>(
    progress: Option<&ProgressReporter<R>>,
    end: &LiveEnd,
) {
    if let Some(progress) = progress {
        progress.end(end);
    }
}

/// Serves the tasks that come by the calls until there are no more, by this crew, with a cell for
/// each member.
fn serve_crew<
    'a,
    'p,
    's,
    W: Queryable + Send,
    R: Threads + Wait + Clock + Eprint + FileReplacer + AllocGlobal + Sync,
    C: Caller + Sync,
    B: HeartbeatHandler + Send + Drop,
>(
    work: &LiveWork<'a, R, C>,
    counters: &LiveCounts<'p, 'a, 's, R>,
    crew: LiveCrew<'a, 'p, 's, B, R, C>,
    cells: &[Arc<ActivityCell>],
) -> Result<LiveEnd, OutOfMemory>
    requires sizes { IsConfig work.now.plan.now.config }
    requires seats { vec_len crew ≡ work.now.plan.now.config.seats }
    ensures served { IfOk result (λ end. AreServed work.now.plan.now.config
        work.now.plan.now.options work.now.plan.now.workers end) }
    ensures balanced { IfOk result (λ end.
        end.totals.taken ≡ end.totals.completed + end.totals.failed + end.totals.in_hand) }
{
    let plan = work.plan;
    let end = serve_live::<
        W,
        R,
        C,
        LiveHandler<B, R, C>,
        Watch<R>,
        ProgressReporter<R>,
        SourceCounter<R>,
    >(
        work.rt,
        work.calls.allocator(),
        work.name,
        plan.config,
        work.calls,
        &plan.options,
        plan.workers as usize,
        crew,
        cells,
        counters.progress,
        counters.sources,
    );
    match end {
        Ok(end) => {
            note_end(counters.progress, &end);
            Ok(end)
        }
        Err(OpenFault::OutOfMemory) => Err(OutOfMemory),
        Err(OpenFault::BadConfig) => unreachable!(),
    }
}

/// Serves the tasks that come by the calls, as [`serve_calls`] does, with a worker for each cell.
fn serve_cells<
    'a,
    'p,
    's,
    W: Queryable + Send,
    R: Threads + Wait + Clock + Eprint + FileReplacer + AllocGlobal + Sync,
    C: Caller + Sync,
    L: FnOnce() -> bool,
    B: HeartbeatHandler + Send + Drop,
    M: Fn() -> B,
>(
    work: &LiveWork<'a, R, C>,
    counters: &LiveCounts<'p, 'a, 's, R>,
    listen: L,
    make: &M,
    cells: &[Arc<ActivityCell>],
) -> Result<LiveEnd, OutOfMemory>
where
    L: Drop,
    requires sizes { IsConfig work.now.plan.now.config }
    requires seats { length cells.now ≡ work.now.plan.now.config.seats }
    requires listens { L.IsAlwaysCallable listen }
    requires makes { M.IsAlwaysCallable make.now }
    ensures served { IfOk result (λ end. AreServed work.now.plan.now.config
        work.now.plan.now.options work.now.plan.now.workers end) }
    ensures balanced { IfOk result (λ end.
        end.totals.taken ≡ end.totals.completed + end.totals.failed + end.totals.in_hand) }
{
    match crew_of(work, counters.progress, make, cells) {
        Ok(crew) => {
            if !begin(counters.progress, listen) {
                drop(crew);
                return Err(OutOfMemory);
            }
            serve_crew::<W, R, C, B>(work, counters, crew, cells)
        }
        Err(fault) => {
            drop(listen);
            Err(fault)
        }
    }
}

/// Serves the tasks that come by the calls, as [`serve_calls`] does, and counts them here.
fn serve_over<
    W: Queryable + Send,
    R: Threads + Wait + Clock + Eprint + FileReplacer + AllocGlobal + Sync,
    C: Caller + Sync,
    L: FnOnce() -> bool,
    B: HeartbeatHandler + Send + Drop,
    M: Fn() -> B,
>(work: &LiveWork<'_, R, C>, listen: L, make: &M) -> Result<LiveEnd, OutOfMemory>
where
    L: Drop,
    requires sizes { IsConfig work.now.plan.now.config }
    requires listens { L.IsAlwaysCallable listen }
    requires makes { M.IsAlwaysCallable make.now }
    ensures served { IfOk result (λ end. AreServed work.now.plan.now.config
        work.now.plan.now.options work.now.plan.now.workers end) }
    ensures balanced { IfOk result (λ end.
        end.totals.taken ≡ end.totals.completed + end.totals.failed + end.totals.in_hand) }
{
    let sources = &SourceCounter::new(work.rt);
    match parts_of(work, sources) {
        Ok((progress, cells)) => {
            let counters = LiveCounts {
                sources,
                progress: progress.as_ref(),
            };
            let end = serve_cells::<W, R, C, L, B, M>(
                work,
                &counters,
                listen,
                make,
                cells.as_slice(),
            );
            drop(cells);
            drop(progress);
            end
        }
        Err(fault) => {
            drop(listen);
            Err(fault)
        }
    }
}

/// Starts to read what the bridge writes, by `listen`, which says whether it could, and serves the
/// tasks that come by the calls until there are no more: by a host of the sizes of the plan, with a
/// handler for each worker, which `make` makes, and which sends heartbeats over the same calls for
/// the activity task that its worker runs. The metadata of payloads, and the header of a run, which
/// its start and its signals set, go on with the requests that answer the run's tasks. Lines on the
/// standard error begin with the program's name. Counts are reported and kept as the plan says; if
/// they can't be kept, that is reported, and the work goes on.
///
/// `OutOfMemory` if there was no memory to begin with, or `listen` could not; no call is made then.
pub fn serve_calls<
    W: Queryable + Send,
    R: Threads + Wait + Clock + Eprint + FileReplacer + AllocGlobal + Sync,
    C: Caller + Sync,
    L: FnOnce() -> bool,
    B: HeartbeatHandler + Send + Drop,
    M: Fn() -> B,
>(
    rt: &R,
    name: &str,
    calls: &C,
    listen: L,
    make: &M,
    plan: LivePlan,
) -> Result<LiveEnd, OutOfMemory>
where
    L: Drop,
    requires sizes { IsConfig plan.config }
    requires listens { L.IsAlwaysCallable listen }
    requires makes { M.IsAlwaysCallable make.now }
    ensures served { IfOk result (λ end. AreServed plan.config plan.options plan.workers end) }
    ensures balanced { IfOk result (λ end.
        end.totals.taken ≡ end.totals.completed + end.totals.failed + end.totals.in_hand) }
{
    match KeepingCalls::new(calls, plan.config.cache) {
        Ok(keeping) => {
            let work = LiveWork {
                rt,
                name,
                calls: &keeping,
                plan: &plan,
            };
            let end = serve_over::<W, R, KeepingCalls<C>, L, B, M>(&work, listen, make);
            drop(keeping);
            end
        }
        Err(_) => {
            drop(listen);
            drop(plan);
            Err(OutOfMemory)
        }
    }
}
