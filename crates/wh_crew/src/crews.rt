//! The workers of a host.

ghost use Rattle.std.specs.Prelude.{◌≡◌, ◌≤◌, ◌<◌, true, IfOk, Some, is_some, length, map, nat_lt, replicate, vec_len};
ghost use Rattle.wh_crew.specs.Counts.{tallies_of};
ghost use Rattle.wh_crew.specs.Crews.{normal_workers, role_at, sources_of};
ghost use Rattle.wh_notes.specs.Notes.{all_counts};

use std::alloc::Global;
use std::sync::Arc;
use wh_client::{Connection, LiveOptions, TaskQueueKind};
use wh_events::OutOfMemory;
use wh_live::{LiveSource, QueryHandler};
use wh_notes::{SourceCounts, Tally};
use wh_poll::{WorkerEnd, WorkerSetup};
use wh_tasks::ActivityCell;

/// Returns how many of the workflow workers poll the queue that all workers poll: one in five and
/// at least one, or all of them if runs are not cached. If runs are cached, two workers or more
/// poll both queues.
pub(crate) fn normal_workers(workers: usize, has_cache: bool) -> usize
    ensures is { result ≡ normal_workers workers has_cache }
    ensures normal { 1 ≤ workers → (1 ≤ result) × (result ≤ workers) }
    ensures sticky { (has_cache ≡ true) → 2 ≤ workers → result < workers }
{
    if has_cache {
        usize::max(workers / 5, 1)
    } else {
        workers
    }
}

/// Returns the role of the worker at a place: first come those of the queue that all poll, then
/// those of the sticky queue, and then those of activities.
fn role_at(normal: usize, workers: usize, place: usize) -> TaskQueueKind
    ensures { result ≡ role_at normal workers place }
{
    if workers <= place {
        TaskQueueKind::Activities
    } else if place < normal {
        TaskQueueKind::Normal
    } else {
        TaskQueueKind::Sticky
    }
}

/// Returns the cell of a place, if it has one.
fn cell_at(cells: &[Arc<ActivityCell>], place: usize) -> Option<&ActivityCell>
    ensures { is_some result ≡ nat_lt place (length cells.now) }
{
    match cells.get(place) {
        Some(cell) => Some(&**cell),
        None => None,
    }
}

/// Returns a setup for each worker, with the role and the cell of its place and 2^64 - 1 turns.
/// `OutOfMemory` if there was no memory.
pub(crate) fn setups_of<'a, L: Connection, Q: QueryHandler, A: Drop, O: Drop>(
    alloc: Global,
    connection: &'a L,
    query_handler: &'a Q,
    options: &'a LiveOptions,
    workers: usize,
    crew: Vec<(A, O)>,
    cells: &'a [Arc<ActivityCell>],
) -> Result<Vec<WorkerSetup<LiveSource<'a, L, Q>, A, O>>, OutOfMemory>
    requires { Q.ready query_handler.now }
    ensures count { IfOk result (λ setups. vec_len setups ≡ vec_len crew) }
    ensures members { IfOk result (λ setups. map (λ setup. (setup.handler, setup.observer)) setups.items ≡ crew.items) }
    ensures sources { IfOk result (λ setups. map (λ setup. setup.source) setups.items
        ≡ sources_of options.entry.now.names (normal_workers workers (is_some options.entry.now.sticky)) workers
        (vec_len crew)) }
    ensures turns { IfOk result (λ setups. map (λ setup. setup.turns) setups.items ≡ replicate (vec_len crew) u64.MAX) }
{
    let normal = normal_workers(workers, options.sticky.is_some());
    let mut setups = Vec::new(alloc);
    for (handler, observer) in crew {
        let role = role_at(normal, workers, setups.len());
        let cell = cell_at(cells, setups.len());
        let source = LiveSource::new(connection, query_handler, options, role, cell);
        setups.push(WorkerSetup {
            source,
            handler,
            observer,
            turns: u64::MAX,
        })?;
    }
    Ok(setups)
}

/// Returns how often all sources have failed together.
pub(crate) fn total_tally<L: Connection, Q: QueryHandler, A, O>(
    left: &[WorkerEnd<LiveSource<'_, L, Q>, A, O>],
) -> Tally
    ensures { result ≡ tallies_of (map (λ worker. worker.source.tally) left.now) }
{
    let mut all = Tally::new();
    for worker in left {
        all.add(worker.source.tally());
    }
    all
}

/// Returns what all sources have done together.
pub(crate) fn total_counts<L: Connection, Q: QueryHandler, A, O>(
    left: &[WorkerEnd<LiveSource<'_, L, Q>, A, O>],
) -> SourceCounts
    ensures { result ≡ all_counts (λ worker. worker.source.notes) left.now }
{
    let mut all = SourceCounts::none();
    for worker in left {
        all.add(worker.source.counts());
    }
    all
}
