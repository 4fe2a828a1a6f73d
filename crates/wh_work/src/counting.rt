//! What is counted of the turns of workers, and what is shown of it.

ghost use Rattle.std.specs.Prelude.{◌≡◌, ◌≤◌, ◌-◌, max};
ghost use Rattle.wh_work.specs.Progress.{answered, end_metrics, ended, found, held_of, metrics_now, metrics_of};
ghost use Rattle.wh_work.specs.Progress.{NoCounterFalls, NoTimeFalls, no_lower, no_lower_times, no_turns};
ghost use Rattle.wh_work.specs.Progress.{nothing, rate_of, slots_of, with_turn};

use wh_crew::LiveEnd;
use wh_host::{Counts, Outcome};
use wh_metrics::{Gauges, Metrics, TaskSlots, TaskTimes};
use wh_notes::SourceCounts;
use wh_poll::{Served, SourceFault};
use wh_slots::SlotCount;

/// What was counted of the turns of workers. A count stops at 2^64 - 1.
#[derive(Clone, Copy)]
pub(crate) struct TurnCounts {
    /// Tasks that ended as completed.
    pub(crate) completed: u64,
    /// Tasks that ended as failed.
    pub(crate) failed: u64,
    /// Workflow tasks that were answered from a cached run.
    pub(crate) hits: u64,
    /// Workflow tasks that were answered without one.
    pub(crate) misses: u64,
}

impl TurnCounts {
    /// There was no turn.
    pub(crate) fn none() -> TurnCounts
        ensures { result ≡ no_turns }
    {
        TurnCounts {
            completed: 0,
            failed: 0,
            hits: 0,
            misses: 0,
        }
    }

    /// Counts how a task ended.
    fn end(&mut self, outcome: Outcome)
        ensures { self.new ≡ ended outcome self.old }
    {
        match outcome {
            Outcome::Completed => self.completed = self.completed.saturating_add(1),
            Outcome::Failed => self.failed = self.failed.saturating_add(1),
        }
    }

    /// Counts whether a workflow task was answered from a cached run.
    fn find(&mut self, hit: bool)
        ensures { self.new ≡ found hit self.old }
    {
        if hit {
            self.hits = self.hits.saturating_add(1);
        } else {
            self.misses = self.misses.saturating_add(1);
        }
    }

    /// Counts a turn.
    pub(crate) fn add(&mut self, turn: Result<Served, SourceFault>)
        ensures { self.new ≡ with_turn turn self.old }
    {
        match turn {
            Ok(Served::Workflow { hit, outcome, .. }) => {
                self.find(hit);
                self.end(outcome);
            }
            Ok(Served::Activity { outcome, .. }) => self.end(outcome),
            _ => {}
        }
    }
}

/// The slots of a kind.
fn slots_of(count: SlotCount) -> TaskSlots
    ensures { result ≡ slots_of count }
{
    TaskSlots {
        used: (count.reserved as u64).saturating_add(count.held as u64),
        available: count.free as u64,
    }
}

/// What a host holds.
fn held_of(counts: Counts) -> Gauges
    ensures { result ≡ held_of counts }
{
    Gauges {
        in_hand: counts.in_hand,
        cached: counts.cached as u64,
        cached_events: counts.cached_events,
        workflow: slots_of(counts.workflow),
        activity: slots_of(counts.activity),
    }
}

/// What is shown of these turns, of what the sources have done, and of what the host holds, if that
/// is known.
fn metrics_of(turns: TurnCounts, sources: SourceCounts, held: Option<Gauges>) -> Metrics
    ensures { result ≡ metrics_of turns sources held }
{
    Metrics {
        completed: turns.completed,
        failed: turns.failed,
        held,
        hits: turns.hits,
        misses: turns.misses,
        polls: sources.polls,
        empty_polls: sources.empty_polls,
        not_found: sources.untaken.not_found,
        refused: sources.untaken.refused_answers(),
        workflow_times: sources.workflow_times,
        activity_times: sources.activity_times,
    }
}

/// Nothing is counted, and it is not known what the host holds.
pub(crate) fn nothing() -> Metrics
    ensures { result ≡ nothing }
{
    metrics_of(TurnCounts::none(), SourceCounts::none(), None)
}

/// What is counted now, without the answers that the server did not take. The tasks that ended are
/// those of the host, if it gives them; otherwise those that turns told of, which is none whose
/// answer was lost.
pub(crate) fn metrics_now(
    turns: TurnCounts,
    sources: SourceCounts,
    counts: Option<Counts>,
) -> Metrics
    ensures { result ≡ metrics_now turns sources counts }
{
    let answers = sources.untaken;
    match counts {
        Some(counts) => {
            let tasks = TurnCounts {
                completed: answers.completed_tasks(counts.completed),
                failed: answers.failed_tasks(counts.failed),
                ..turns
            };
            metrics_of(tasks, sources, Some(held_of(counts)))
        }
        None => {
            let tasks = TurnCounts {
                completed: answers.completed_tasks(turns.completed),
                failed: turns.failed.saturating_sub(answers.failures()),
                ..turns
            };
            metrics_of(tasks, sources, None)
        }
    }
}

/// What was counted in all: the totals of the host, without the answers that the server did not
/// take, these answers, the polls, which runs were cached, and how long tasks took. The host holds
/// nothing then.
pub(crate) fn end_metrics(turns: TurnCounts, end: &LiveEnd) -> Metrics
    ensures { result ≡ end_metrics turns end.now }
{
    let answers = end.sources.untaken;
    let totals = end.totals;
    let tasks = TurnCounts {
        completed: answers.completed_tasks(totals.completed),
        failed: answers.failed_tasks(totals.failed),
        ..turns
    };
    metrics_of(tasks, end.sources, None)
}

/// The times of tasks, none of which is lower than it was last.
fn no_lower_times(last: TaskTimes, now: TaskTimes) -> TaskTimes
    ensures is { result ≡ no_lower_times last now }
    ensures stands { NoTimeFalls last result }
{
    TaskTimes {
        count: last.count.max(now.count),
        sum: last.sum.max(now.sum),
        longest: last.longest.max(now.longest),
    }
}

/// The counts, none of which is lower than it was last, beside what the host holds. An answer that
/// the server did not take is counted before the host has finished its task, so the counts of tasks
/// could fall for a moment, which Prometheus takes for a new process.
pub(crate) fn no_lower(last: Metrics, now: Metrics) -> Metrics
    ensures is { result ≡ no_lower last now }
    ensures stands { NoCounterFalls last result }
{
    Metrics {
        completed: last.completed.max(now.completed),
        failed: last.failed.max(now.failed),
        held: now.held,
        hits: last.hits.max(now.hits),
        misses: last.misses.max(now.misses),
        polls: last.polls.max(now.polls),
        empty_polls: last.empty_polls.max(now.empty_polls),
        not_found: last.not_found.max(now.not_found),
        refused: last.refused.max(now.refused),
        workflow_times: no_lower_times(last.workflow_times, now.workflow_times),
        activity_times: no_lower_times(last.activity_times, now.activity_times),
    }
}

/// How many tasks are over.
pub(crate) fn answered_tasks(metrics: &Metrics) -> u64
    ensures { result ≡ answered metrics.now }
{
    let taken = metrics.completed.saturating_add(metrics.failed);
    taken.saturating_add(metrics.not_found.saturating_add(metrics.refused))
}

/// How many tasks ended a second, of so many in as many milliseconds, rounded.
pub(crate) fn rate_of(since: u64, more: u64) -> u64
    requires { 1 ≤ since }
    ensures { result ≡ rate_of since more }
{
    more.saturating_mul(1000).saturating_add(since / 2) / since
}
