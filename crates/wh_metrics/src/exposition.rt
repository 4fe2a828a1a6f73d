//! Counts in the form that Prometheus reads.

ghost use Rattle.std.specs.Prelude.{◌≡◌, Some};
ghost use Rattle.wh_metrics.specs.Labels.{labels_text};
ghost use Rattle.wh_metrics.specs.Exposition.{amount_text, counters_text, head_text, help_of, holdings_text, kind_of};
ghost use Rattle.wh_metrics.specs.Exposition.{kinds_text, metrics_text, name_of, sample_text, single_text, slots_text};
ghost use Rattle.wh_metrics.specs.Exposition.{summary_text, tasks_text, times_text};

use crate::labels::WorkerLabels;
use crate::metrics::{Gauges, Metrics, TaskTimes};
use crate::times::Seconds;
use std::fmt;

/// What stands before the samples of a metric: what it means, and its type.
#[derive(Clone, Copy)]
struct MetricMetadata<'a> {
    name: &'a str,
    kind: &'a str,
    help: &'a str,
}

impl fmt::Display for MetricMetadata<'_> {
    ghost output = { λ h. Some (head_text h.name.now h.kind.now h.help.now) };

    fn fmt<W: fmt::Write>(&self, f: &mut fmt::Formatter<W>) -> fmt::Result {
        let MetricMetadata { name, kind, help } = *self;
        write!(f, "# HELP {name} {help}\n# TYPE {name} {kind}\n")
    }
}

/// What a sample says.
#[derive(Clone, Copy)]
enum Amount {
    /// How many there are.
    Count(u64),
    /// A length of time in microseconds. It is shown in seconds.
    Time(u64),
}

impl fmt::Display for Amount {
    ghost output = { λ a. Some (amount_text a) };

    fn fmt<W: fmt::Write>(&self, f: &mut fmt::Formatter<W>) -> fmt::Result {
        match *self {
            Amount::Count(count) => write!(f, "{count}"),
            Amount::Time(microseconds) => {
                let seconds = Seconds(microseconds);
                write!(f, "{seconds}")
            }
        }
    }
}

/// A sample of a metric, with a label after those of the process, if it has one of its own.
#[derive(Clone, Copy)]
struct Sample<'a> {
    name: &'a str,
    labels: WorkerLabels<'a>,
    more: &'a str,
    amount: Amount,
}

impl fmt::Display for Sample<'_> {
    ghost output = { λ s. Some (sample_text s.name.now
        (labels_text s.labels.namespace.now s.labels.task_queue.now s.labels.identity.now) s.more.now s.amount) };

    fn fmt<W: fmt::Write>(&self, f: &mut fmt::Formatter<W>) -> fmt::Result {
        let Sample {
            name,
            labels,
            more,
            amount,
        } = *self;
        write!(f, "{name}{{{labels}{more}}} {amount}\n")
    }
}

/// The type of a metric that only rises.
const COUNTER: &str = "counter";

/// The type of a metric that rises and falls.
const GAUGE: &str = "gauge";

/// A metric of one sample.
#[derive(Clone, Copy)]
enum SingleMetric {
    Hits,
    Misses,
    Polls,
    EmptyPolls,
    InHand,
    CacheSize,
    CacheWeight,
}

impl SingleMetric {
    /// Its name.
    fn name(self) -> &'static str
        ensures { result.now ≡ name_of self }
    {
        match self {
            SingleMetric::Hits => "wfhost_sticky_cache_hit_total",
            SingleMetric::Misses => "wfhost_sticky_cache_miss_total",
            SingleMetric::Polls => "wfhost_polls_total",
            SingleMetric::EmptyPolls => "wfhost_polls_empty_total",
            SingleMetric::InHand => "wfhost_tasks_in_hand",
            SingleMetric::CacheSize => "wfhost_sticky_cache_size",
            SingleMetric::CacheWeight => "wfhost_sticky_cache_events",
        }
    }

    /// What it means.
    fn help(self) -> &'static str
        ensures { result.now ≡ help_of self }
    {
        match self {
            SingleMetric::Hits => "Workflow tasks that were answered from a cached run.",
            SingleMetric::Misses => "Workflow tasks that were answered without a cached run.",
            SingleMetric::Polls => "Polls that got a result or an error.",
            SingleMetric::EmptyPolls => "Polls that got an empty response.",
            SingleMetric::InHand => "Tasks in hand.",
            SingleMetric::CacheSize => "Runs in the sticky cache.",
            SingleMetric::CacheWeight =>
                "Weight of the cached runs: one for each event and each whole KiB of a run's input.",
        }
    }

    /// Its type.
    fn kind(self) -> &'static str
        ensures { result.now ≡ kind_of self }
    {
        match self {
            SingleMetric::Hits
            | SingleMetric::Misses
            | SingleMetric::Polls
            | SingleMetric::EmptyPolls => COUNTER,
            SingleMetric::InHand | SingleMetric::CacheSize | SingleMetric::CacheWeight => GAUGE,
        }
    }
}

/// A metric of one sample, with the labels of the process, and its count.
#[derive(Clone, Copy)]
struct Single<'a>(WorkerLabels<'a>, SingleMetric, u64);

impl fmt::Display for Single<'_> {
    ghost output = { λ s. Some (single_text s.1
        (labels_text s.0.namespace.now s.0.task_queue.now s.0.identity.now) s.2) };

    fn fmt<W: fmt::Write>(&self, f: &mut fmt::Formatter<W>) -> fmt::Result {
        let Single(labels, metric, count) = *self;
        let name = metric.name();
        let head = MetricMetadata {
            name,
            kind: metric.kind(),
            help: metric.help(),
        };
        let sample = Sample {
            name,
            labels,
            more: "",
            amount: Amount::Count(count),
        };
        write!(f, "{head}{sample}")
    }
}

/// A metric with a sample for each kind of tasks.
#[derive(Clone, Copy)]
struct ByKind<'a> {
    head: MetricMetadata<'a>,
    labels: WorkerLabels<'a>,
    workflow: Amount,
    activity: Amount,
}

/// The label of workflow tasks.
const WORKFLOW: &str = ",worker_type=\"WorkflowWorker\"";

/// The label of activity tasks.
const ACTIVITY: &str = ",worker_type=\"ActivityWorker\"";

impl fmt::Display for ByKind<'_> {
    ghost output = { λ k. Some (kinds_text k.head.name.now k.head.kind.now k.head.help.now
        (labels_text k.labels.namespace.now k.labels.task_queue.now k.labels.identity.now) k.workflow k.activity) };

    fn fmt<W: fmt::Write>(&self, f: &mut fmt::Formatter<W>) -> fmt::Result {
        let head = self.head;
        let workflow = Sample {
            name: head.name,
            labels: self.labels,
            more: WORKFLOW,
            amount: self.workflow,
        };
        let activity = Sample {
            more: ACTIVITY,
            amount: self.activity,
            ..workflow
        };
        write!(f, "{head}{workflow}{activity}")
    }
}

/// Tasks by their outcome.
#[derive(Clone, Copy)]
struct TaskOutcomes<'a> {
    labels: WorkerLabels<'a>,
    metrics: Metrics,
}

impl fmt::Display for TaskOutcomes<'_> {
    ghost output = { λ t. Some (tasks_text
        (labels_text t.labels.namespace.now t.labels.task_queue.now t.labels.identity.now) t.metrics) };

    fn fmt<W: fmt::Write>(&self, f: &mut fmt::Formatter<W>) -> fmt::Result {
        let TaskOutcomes { labels, metrics } = *self;
        let name = "wfhost_tasks_total";
        let head = MetricMetadata {
            name,
            kind: COUNTER,
            help: "Tasks that are over, by what became of them.",
        };
        let completed = Sample {
            name,
            labels,
            more: ",outcome=\"completed\"",
            amount: Amount::Count(metrics.completed),
        };
        let failed = Sample {
            more: ",outcome=\"failed\"",
            amount: Amount::Count(metrics.failed),
            ..completed
        };
        let not_found = Sample {
            more: ",outcome=\"not_found\"",
            amount: Amount::Count(metrics.not_found),
            ..completed
        };
        let refused = Sample {
            more: ",outcome=\"refused\"",
            amount: Amount::Count(metrics.refused),
            ..completed
        };
        write!(f, "{head}{completed}{failed}{not_found}{refused}")
    }
}

/// How long tasks of a kind took together, and how many they were.
#[derive(Clone, Copy)]
struct Summary<'a> {
    labels: WorkerLabels<'a>,
    more: &'a str,
    times: TaskTimes,
}

impl fmt::Display for Summary<'_> {
    ghost output = { λ s. Some (summary_text
        (labels_text s.labels.namespace.now s.labels.task_queue.now s.labels.identity.now) s.more.now s.times) };

    fn fmt<W: fmt::Write>(&self, f: &mut fmt::Formatter<W>) -> fmt::Result {
        let sum = Sample {
            name: "wfhost_task_seconds_sum",
            labels: self.labels,
            more: self.more,
            amount: Amount::Time(self.times.sum),
        };
        let count = Sample {
            name: "wfhost_task_seconds_count",
            amount: Amount::Count(self.times.count),
            ..sum
        };
        write!(f, "{sum}{count}")
    }
}

/// How long tasks took, by their kind, and the longest of each kind.
#[derive(Clone, Copy)]
struct Times<'a> {
    labels: WorkerLabels<'a>,
    metrics: Metrics,
}

impl fmt::Display for Times<'_> {
    ghost output = { λ t. Some (times_text
        (labels_text t.labels.namespace.now t.labels.task_queue.now t.labels.identity.now) t.metrics) };

    fn fmt<W: fmt::Write>(&self, f: &mut fmt::Formatter<W>) -> fmt::Result {
        let Times { labels, metrics } = *self;
        let head = MetricMetadata {
            name: "wfhost_task_seconds",
            kind: "summary",
            help: "How long tasks took, from the poll to the acknowledged answer.",
        };
        let workflow = Summary {
            labels,
            more: WORKFLOW,
            times: metrics.workflow_times,
        };
        let activity = Summary {
            labels,
            more: ACTIVITY,
            times: metrics.activity_times,
        };
        let longest = ByKind {
            head: MetricMetadata {
                name: "wfhost_task_longest_seconds",
                kind: GAUGE,
                help: "How long the longest task took.",
            },
            labels,
            workflow: Amount::Time(metrics.workflow_times.longest),
            activity: Amount::Time(metrics.activity_times.longest),
        };
        write!(f, "{head}{workflow}{activity}{longest}")
    }
}

/// Slots by their use.
#[derive(Clone, Copy)]
struct SlotUse<'a> {
    labels: WorkerLabels<'a>,
    held: Gauges,
}

impl fmt::Display for SlotUse<'_> {
    ghost output = { λ t. Some (slots_text
        (labels_text t.labels.namespace.now t.labels.task_queue.now t.labels.identity.now) t.held) };

    fn fmt<W: fmt::Write>(&self, f: &mut fmt::Formatter<W>) -> fmt::Result {
        let Gauges {
            workflow,
            activity,
            ..
        } = self.held;
        let used = ByKind {
            head: MetricMetadata {
                name: "wfhost_worker_task_slots_used",
                kind: GAUGE,
                help: "Task slots that a task has, or a poll.",
            },
            labels: self.labels,
            workflow: Amount::Count(workflow.used),
            activity: Amount::Count(activity.used),
        };
        let available = ByKind {
            head: MetricMetadata {
                name: "wfhost_worker_task_slots_available",
                help: "Task slots that are free.",
                ..used.head
            },
            workflow: Amount::Count(workflow.available),
            activity: Amount::Count(activity.available),
            ..used
        };
        write!(f, "{used}{available}")
    }
}

/// What the host holds, if that is known.
#[derive(Clone, Copy)]
struct Holdings<'a> {
    labels: WorkerLabels<'a>,
    held: Option<Gauges>,
}

impl fmt::Display for Holdings<'_> {
    ghost output = { λ t. Some (holdings_text
        (labels_text t.labels.namespace.now t.labels.task_queue.now t.labels.identity.now) t.held) };

    fn fmt<W: fmt::Write>(&self, f: &mut fmt::Formatter<W>) -> fmt::Result {
        let Some(held) = self.held else {
            return Ok(());
        };
        let labels = self.labels;
        let in_hand = Single(labels, SingleMetric::InHand, held.in_hand);
        let runs = Single(labels, SingleMetric::CacheSize, held.cached);
        let events = Single(labels, SingleMetric::CacheWeight, held.cached_events);
        let slots = SlotUse { labels, held };
        write!(f, "{in_hand}{runs}{events}{slots}")
    }
}

/// The counters of one sample: workflow tasks with a cached run and without one, and polls.
#[derive(Clone, Copy)]
struct SingleCounters<'a> {
    labels: WorkerLabels<'a>,
    metrics: Metrics,
}

impl fmt::Display for SingleCounters<'_> {
    ghost output = { λ t. Some (counters_text
        (labels_text t.labels.namespace.now t.labels.task_queue.now t.labels.identity.now) t.metrics) };

    fn fmt<W: fmt::Write>(&self, f: &mut fmt::Formatter<W>) -> fmt::Result {
        let SingleCounters { labels, metrics } = *self;
        let hits = Single(labels, SingleMetric::Hits, metrics.hits);
        let misses = Single(labels, SingleMetric::Misses, metrics.misses);
        let polls = Single(labels, SingleMetric::Polls, metrics.polls);
        let empty = Single(labels, SingleMetric::EmptyPolls, metrics.empty_polls);
        write!(f, "{hits}{misses}{polls}{empty}")
    }
}

/// The counts of a process, as the text that Prometheus reads: of each metric what it means, its
/// type and its samples, each ended by a line feed (Prometheus documentation, "Exposition
/// formats"). The names are those of Temporal's documentation ("SDK metrics reference") if a metric
/// of it means the same. What the host holds is omitted if that is not known.
#[derive(Clone, Copy, Debug)]
pub struct Exposition<'a> {
    /// Whose counts they are.
    pub labels: WorkerLabels<'a>,
    /// The counts.
    pub metrics: Metrics,
}

impl fmt::Display for Exposition<'_> {
    ghost output = { λ t. Some (metrics_text
        (labels_text t.labels.namespace.now t.labels.task_queue.now t.labels.identity.now) t.metrics) };

    fn fmt<W: fmt::Write>(&self, f: &mut fmt::Formatter<W>) -> fmt::Result {
        let Exposition { labels, metrics } = *self;
        let tasks = TaskOutcomes { labels, metrics };
        let counters = SingleCounters { labels, metrics };
        let times = Times { labels, metrics };
        let holdings = Holdings {
            labels,
            held: metrics.held,
        };
        write!(f, "{tasks}{counters}{times}{holdings}")
    }
}
