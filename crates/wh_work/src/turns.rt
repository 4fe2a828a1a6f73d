//! What is counted of the turns of all workers, and what is reported.

ghost use Rattle.std.specs.Prelude.{◌≡◌, ◌-◌, false, max};
ghost use Rattle.wh_work.specs.Progress.{NoCounterFalls, answered, end_metrics, metrics_now, no_lower};
ghost use Rattle.wh_work.specs.Progress.{no_turns, nothing, rate_of};

use crate::counting::{
    TurnCounts, answered_tasks, end_metrics, metrics_now, no_lower, nothing, rate_of,
};
use wh_crew::LiveEnd;
use wh_host::Counts;
use wh_metrics::Metrics;
use wh_notes::SourceCounts;

/// What was counted of the workers' turns, and what was reported last.
#[derive(Clone, Copy)]
pub(crate) struct Turns {
    /// What was counted, with the answers that the server did not take.
    pub(crate) counts: TurnCounts,
    /// The counts that were reported last.
    last: Metrics,
    /// When they were reported, in milliseconds of a clock that never goes back.
    reported: u64,
    /// Whether the counts could not be kept the last time.
    pub(crate) unkept: bool,
}

/// What is reported: the counts so far, and how many tasks ended a second since the last time.
#[derive(Clone, Copy)]
pub(crate) struct Report {
    pub(crate) metrics: Metrics,
    pub(crate) rate: u64,
}

impl Turns {
    /// Nothing is counted, from this time on, in milliseconds.
    pub(crate) fn new(now: u64) -> Turns
        ensures { result ≡ record { counts = no_turns; last = nothing; reported = now; unkept = false } }
    {
        Turns {
            counts: TurnCounts::none(),
            last: nothing(),
            reported: now,
            unkept: false,
        }
    }

    /// How many tasks ended a second since the last time, if these are the counts now, rounded.
    fn rate(&self, now: u64, metrics: &Metrics) -> u64
        ensures { result ≡ rate_of (max (now - self.now.reported) 1)
            (answered metrics.now - answered self.now.last) }
    {
        let since = now.saturating_sub(self.reported).max(1);
        rate_of(
            since,
            answered_tasks(metrics).saturating_sub(answered_tasks(&self.last)),
        )
    }

    /// What is to be reported, with what the sources have done, and with what the host counts and
    /// holds, if it gives that. No count is lower than the last time.
    pub(crate) fn report(
        &mut self,
        now: u64,
        sources: SourceCounts,
        counts: Option<Counts>,
    ) -> Report
        ensures metrics { result.metrics
            ≡ no_lower self.old.last (metrics_now self.old.counts sources counts) }
        ensures rate { result.rate ≡ rate_of (max (now - self.old.reported) 1)
            (answered result.metrics - answered self.old.last) }
        ensures kept { self.new ≡ record self.old { last = result.metrics; reported = now } }
        ensures stands { NoCounterFalls self.old.last result.metrics }
    {
        let metrics = no_lower(self.last, metrics_now(self.counts, sources, counts));
        let rate = self.rate(now, &metrics);
        self.last = metrics;
        self.reported = now;
        Report { metrics, rate }
    }

    /// What was counted in all, by how live work ended. No count is lower than the last time that
    /// counts were reported.
    pub(crate) fn end(&self, end: &LiveEnd) -> Metrics
        ensures metrics { result ≡ no_lower self.now.last (end_metrics self.now.counts end.now) }
        ensures stands { NoCounterFalls self.now.last result }
    {
        no_lower(self.last, end_metrics(self.counts, end))
    }
}
