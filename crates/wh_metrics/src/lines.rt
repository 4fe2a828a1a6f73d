//! Counts as a line.

ghost use Rattle.std.specs.Prelude.{Some};
ghost use Rattle.wh_metrics.specs.Lines.{counts_text, held_json, held_text, json_text, kinds_json};
ghost use Rattle.wh_metrics.specs.Lines.{kinds_text, outcomes_text, slots_json, times_json, times_text};

use crate::metrics::{Gauges, Metrics, TaskSlots, TaskTimes};
use crate::times::Milliseconds;
use std::fmt;

/// What the host holds, in words, with a comma behind it; nothing if that is not known.
#[derive(Clone, Copy)]
struct HeldText(Option<Gauges>);

impl fmt::Display for HeldText {
    ghost output = { λ t. Some (held_text t.0) };

    fn fmt<W: fmt::Write>(&self, f: &mut fmt::Formatter<W>) -> fmt::Result {
        let Some(held) = self.0 else {
            return Ok(());
        };
        let Gauges {
            in_hand,
            cached,
            cached_events,
            ..
        } = held;
        write!(
            f,
            "in hand {in_hand}, cached {cached} runs with {cached_events} events and KiB of input, "
        )
    }
}

/// How long tasks of a kind took, in words.
#[derive(Clone, Copy)]
struct TimesText(TaskTimes);

impl fmt::Display for TimesText {
    ghost output = { λ t. Some (times_text t.0) };

    fn fmt<W: fmt::Write>(&self, f: &mut fmt::Formatter<W>) -> fmt::Result {
        let count = self.0.count;
        let sum = Milliseconds(self.0.sum);
        let longest = Milliseconds(self.0.longest);
        write!(f, "{count} in {sum} ms, longest {longest} ms")
    }
}

/// How long the tasks of each kind took, in words, with a comma before each.
#[derive(Clone, Copy)]
struct KindsText(Metrics);

impl fmt::Display for KindsText {
    ghost output = { λ t. Some (kinds_text t.0) };

    fn fmt<W: fmt::Write>(&self, f: &mut fmt::Formatter<W>) -> fmt::Result {
        let workflow = TimesText(self.0.workflow_times);
        let activity = TimesText(self.0.activity_times);
        write!(f, ", workflow tasks {workflow}, activity tasks {activity}")
    }
}

/// The tasks that are over, by their outcome, in words, with a comma behind them.
#[derive(Clone, Copy)]
struct OutcomesText(Metrics);

impl fmt::Display for OutcomesText {
    ghost output = { λ t. Some (outcomes_text t.0) };

    fn fmt<W: fmt::Write>(&self, f: &mut fmt::Formatter<W>) -> fmt::Result {
        let Metrics {
            completed,
            failed,
            not_found,
            refused,
            ..
        } = self.0;
        write!(
            f,
            "completed {completed}, failed {failed}, not found {not_found}, refused {refused}, "
        )
    }
}

/// Counts in words: the tasks by their outcome, what the host holds if that is known, workflow
/// tasks with a cached run and without one, how many tasks ended a second, and how long the tasks
/// of each kind took.
#[derive(Clone, Copy, Debug)]
pub struct CountsLine {
    /// The counts.
    pub metrics: Metrics,
    /// How many tasks ended a second since the line before.
    pub rate: u64,
}

impl fmt::Display for CountsLine {
    ghost output = { λ line. Some (counts_text line.metrics line.rate) };

    fn fmt<W: fmt::Write>(&self, f: &mut fmt::Formatter<W>) -> fmt::Result {
        let Metrics { hits, misses, .. } = self.metrics;
        let outcomes = OutcomesText(self.metrics);
        let held = HeldText(self.metrics.held);
        let kinds = KindsText(self.metrics);
        let rate = self.rate;
        write!(
            f,
            "{outcomes}{held}hits {hits}, misses {misses}, {rate} tasks a second{kinds}"
        )
    }
}

/// The slots of a kind, as an object of JSON.
#[derive(Clone, Copy)]
struct SlotsJson(TaskSlots);

impl fmt::Display for SlotsJson {
    ghost output = { λ s. Some (slots_json s.0) };

    fn fmt<W: fmt::Write>(&self, f: &mut fmt::Formatter<W>) -> fmt::Result {
        let TaskSlots { used, available } = self.0;
        write!(f, "{{\"used\":{used},\"available\":{available}}}")
    }
}

/// What the host holds, as members of an object of JSON, each with a comma before it; none if that
/// is not known.
#[derive(Clone, Copy)]
struct HeldJson(Option<Gauges>);

impl fmt::Display for HeldJson {
    ghost output = { λ t. Some (held_json t.0) };

    fn fmt<W: fmt::Write>(&self, f: &mut fmt::Formatter<W>) -> fmt::Result {
        let Some(held) = self.0 else {
            return Ok(());
        };
        let Gauges {
            in_hand,
            cached,
            cached_events,
            ..
        } = held;
        let workflow = SlotsJson(held.workflow);
        let activity = SlotsJson(held.activity);
        write!(
            f,
            ",\"inHand\":{in_hand},\"cachedRuns\":{cached},\"cachedEvents\":{cached_events},\"workflowSlots\":{workflow},\"activitySlots\":{activity}"
        )
    }
}

/// How long tasks of a kind took, as an object of JSON.
#[derive(Clone, Copy)]
struct TimesJson(TaskTimes);

impl fmt::Display for TimesJson {
    ghost output = { λ t. Some (times_json t.0) };

    fn fmt<W: fmt::Write>(&self, f: &mut fmt::Formatter<W>) -> fmt::Result {
        let count = self.0.count;
        let sum = Milliseconds(self.0.sum);
        let longest = Milliseconds(self.0.longest);
        write!(
            f,
            "{{\"count\":{count},\"milliseconds\":{sum},\"longestMilliseconds\":{longest}}}"
        )
    }
}

/// How long the tasks of each kind took, as members of an object of JSON, each with a comma before
/// it.
#[derive(Clone, Copy)]
struct KindsJson(Metrics);

impl fmt::Display for KindsJson {
    ghost output = { λ t. Some (kinds_json t.0) };

    fn fmt<W: fmt::Write>(&self, f: &mut fmt::Formatter<W>) -> fmt::Result {
        let workflow = TimesJson(self.0.workflow_times);
        let activity = TimesJson(self.0.activity_times);
        write!(
            f,
            ",\"workflowTasks\":{workflow},\"activityTasks\":{activity}"
        )
    }
}

/// The same counts, and those of polls, as an object of JSON.
#[derive(Clone, Copy, Debug)]
pub struct JsonLine {
    /// The counts.
    pub metrics: Metrics,
    /// How many tasks ended a second since the line before.
    pub rate: u64,
}

impl fmt::Display for JsonLine {
    ghost output = { λ line. Some (json_text line.metrics line.rate) };

    fn fmt<W: fmt::Write>(&self, f: &mut fmt::Formatter<W>) -> fmt::Result {
        let Metrics {
            completed,
            failed,
            hits,
            misses,
            polls,
            empty_polls,
            not_found,
            refused,
            ..
        } = self.metrics;
        let held = HeldJson(self.metrics.held);
        let kinds = KindsJson(self.metrics);
        let rate = self.rate;
        write!(
            f,
            "{{\"completed\":{completed},\"failed\":{failed}{held},\"hits\":{hits},\"misses\":{misses},"
        )?;
        write!(
            f,
            "\"polls\":{polls},\"emptyPolls\":{empty_polls},\"answersNotFound\":{not_found},\"answersRefused\":{refused},\"tasksPerSecond\":{rate}{kinds}}}"
        )
    }
}
