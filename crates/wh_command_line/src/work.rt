//! The options of `work`: their names, their limits, and the size of a host that they stand for.

ghost use Rattle.std.specs.Prelude.{◌≡◌, ◌≢◌, ◌↔◌, ◌≤◌, ◌+◌, [], IsTrue, false, Some, Err, IfOk, IfErr, codes};
ghost use Rattle.clap.specs.Words.{App, app_of, found_of, new_app, rows_of};
ghost use Rattle.clap.specs.declared.builder.Command.TheViews.{out-Command as fields_of};
ghost use Rattle.wh_slots.specs.Sizes.{IsConfig};
ghost use Rattle.wh_command_line.specs.Given.{GivesText, LacksName, value_named};
ghost use Rattle.wh_command_line.specs.Lines.{StandsFor, work};
ghost use Rattle.wh_command_line.specs.Refusals.{IfBad};
ghost use Rattle.wh_command_line.specs.Options.{AreLimits, IsWithinWorkLimits, LacksSlots};
ghost use Rattle.wh_command_line.specs.Options.{with_names, with_limits, with_reports};
ghost use Rattle.wh_command_line.specs.Sizes.{config_of};
ghost use Rattle.wh_command_line.specs.Work.{GivesBeside, GivesFiles, GivesLimits, GivesLimitsWithin, GivesWork};
ghost use Rattle.wh_command_line.specs.Work.{LacksWork};

use crate::command_line::{
    Refusal, as_needed, bad_line, flag_argument, flag_given, format_given, option_argument,
    subcommand, text_given, text_if_given, with_argument, with_default, with_number, with_sizes,
};
use crate::options::{Helps, NumberOption};
use crate::serve_options::ServeOptions;
use clap::{ArgMatches, Command};
use std::alloc::{AllocError, Global};
use wh_console::Format;
use wh_events::Text;
use wh_slots::{Config, MOST_SEATS};

/// The exit statuses, as the help of `work` lists them.
const STATUSES: &str = "\
Status:
  0  it was told to shut down, or its input ended, and no call failed for good
  1  a call failed for good
  2  it did not begin; standard error says why";

/// The most seconds of a duration.
const MOST_SECONDS: u64 = u32::MAX as u64;

/// How many workers poll for workflow tasks.
const WORKERS: NumberOption = NumberOption {
    name: "workers",
    otherwise: "2",
    value_name: "N",
    about: "How many workers poll for workflow tasks",
    least: 1,
    most: MOST_SEATS as u64,
};

/// How many workers poll for activity tasks.
const ACTIVITY_WORKERS: NumberOption = NumberOption {
    name: "activity-workers",
    otherwise: "0",
    value_name: "N",
    about: "How many workers more poll for activity tasks, of 64 workers at most",
    least: 0,
    most: 63,
};

/// The Start-To-Close Timeout of an activity.
const ACTIVITY_TIMEOUT: NumberOption = NumberOption {
    name: "activity-timeout",
    otherwise: "60",
    value_name: "SECONDS",
    about: "How long an activity may take from its start",
    least: 1,
    most: MOST_SECONDS,
};

/// How often an activity is attempted.
const ACTIVITY_ATTEMPTS: NumberOption = NumberOption {
    name: "activity-attempts",
    otherwise: "1",
    value_name: "N",
    about: "How often an activity is tried, where 0 leaves it to the server",
    least: 0,
    most: u16::MAX as u64,
};

/// How long a task waits for the worker that has its run in the cache.
const STICKY_TIMEOUT: NumberOption = NumberOption {
    name: "sticky-timeout",
    otherwise: "10",
    value_name: "SECONDS",
    about: "How long a task waits for the workers that keep its run",
    least: 1,
    most: MOST_SECONDS,
};

/// The time from one line of counts to the next.
const STATS: NumberOption = NumberOption {
    name: "stats",
    otherwise: "",
    value_name: "SECONDS",
    about: "Prints the counts on the standard error at this interval",
    least: 1,
    most: MOST_SECONDS,
};

/// The help of each option of `work` that takes a number and is not an option of `serve`.
#[derive(Drop)]
pub(crate) struct WorkHelps {
    workers: String,
    activity_workers: String,
    activity_timeout: String,
    activity_attempts: String,
    sticky_timeout: String,
    stats: String,
}

impl WorkHelps {
    pub(crate) fn new(alloc: Global) -> Result<WorkHelps, AllocError> {
        Ok(WorkHelps {
            workers: WORKERS.help(alloc)?,
            activity_workers: ACTIVITY_WORKERS.help(alloc)?,
            activity_timeout: ACTIVITY_TIMEOUT.help(alloc)?,
            activity_attempts: ACTIVITY_ATTEMPTS.help(alloc)?,
            sticky_timeout: STICKY_TIMEOUT.help(alloc)?,
            stats: STATS.help(alloc)?,
        })
    }
}

/// Returns the subcommand `work`, with only its help.
fn work_alone<'a>(alloc: Global) -> Command<'a>
    ensures app { app_of result ≡ new_app (codes "work") }
    ensures local { (fields_of result).has_globals ≡ false }
{
    let command = subcommand(
        alloc,
        "work",
        "Serves live tasks, which it asks for and answers in JSON on the standard output and input",
    );
    command.after_help(STATUSES)
}

/// Adds to a subcommand the options for the Task Queue, the namespace and the worker's identity. An
/// error of the subcommand is returned.
fn with_names<'a>(
    alloc: Global,
    command: Result<Command<'a>, AllocError>,
) -> Result<Command<'a>, AllocError>
    ensures { (app : App) → IfOk command.entry (StandsFor app) → IfOk result (StandsFor (with_names app)) }
{
    let queue = option_argument(
        alloc,
        "task-queue",
        "NAME",
        "The Task Queue whose tasks are served",
    );
    let command = with_argument(command, as_needed(queue));
    let namespace = option_argument(
        alloc,
        "namespace",
        "NAME",
        "The namespace of the Task Queue",
    );
    let command = with_argument(command, with_default(namespace, "default"));
    let identity = option_argument(
        alloc,
        "identity",
        "NAME",
        "The identity that the server records for this process",
    );
    with_argument(command, with_default(identity, "wfhost"))
}

/// Adds to a subcommand the options that bound activities and waits. An error of the subcommand is
/// returned.
fn with_limits<'a>(
    alloc: Global,
    command: Result<Command<'a>, AllocError>,
    helps: &'a WorkHelps,
) -> Result<Command<'a>, AllocError>
    ensures { (app : App) → IfOk command.entry (StandsFor app) → IfOk result (StandsFor (with_limits app)) }
{
    let command = with_number(
        alloc,
        command,
        &ACTIVITY_WORKERS,
        helps.activity_workers.as_str(),
    );
    let command = with_number(
        alloc,
        command,
        &ACTIVITY_TIMEOUT,
        helps.activity_timeout.as_str(),
    );
    let command = with_number(
        alloc,
        command,
        &ACTIVITY_ATTEMPTS,
        helps.activity_attempts.as_str(),
    );
    let policies = option_argument(
        alloc,
        "policies",
        "FILE",
        "A TOML file that says what the server is asked for with activities, children and failures",
    );
    let command = with_argument(command, policies);
    with_number(
        alloc,
        command,
        &STICKY_TIMEOUT,
        helps.sticky_timeout.as_str(),
    )
}

/// Adds to a subcommand the options that say what is reported. An error of the subcommand is
/// returned.
fn with_reports<'a>(
    alloc: Global,
    command: Result<Command<'a>, AllocError>,
    helps: &'a WorkHelps,
) -> Result<Command<'a>, AllocError>
    ensures { (app : App) → IfOk command.entry (StandsFor app) → IfOk result (StandsFor (with_reports app)) }
{
    let verbose = flag_argument(
        alloc,
        "verbose",
        "Prints a line for each task on the standard error",
    );
    let command = with_argument(command, verbose);
    let stats = option_argument(alloc, "stats", "SECONDS", helps.stats.as_str());
    let command = with_argument(command, stats);
    let json = flag_argument(alloc, "json", "Prints the counts as JSON");
    let command = with_argument(command, json);
    let metrics = option_argument(
        alloc,
        "metrics",
        "FILE",
        "A file in which the counts are kept, in the form that Prometheus reads",
    );
    with_argument(command, metrics)
}

/// Returns the subcommand `work`.
pub(crate) fn work<'a>(alloc: Global, helps: &'a Helps) -> Result<Command<'a>, AllocError>
    ensures { IfOk result (StandsFor work) }
{
    let command = with_names(alloc, Ok(work_alone(alloc)));
    let command = with_number(alloc, command, &WORKERS, helps.work.workers.as_str());
    let command = with_sizes(alloc, command, helps);
    let command = with_limits(alloc, command, &helps.work);
    with_reports(alloc, command, &helps.work)
}

/// The options of `work`.
#[derive(Debug, Drop)]
pub struct WorkOptions {
    /// The Task Queue whose tasks are served. Its name is not empty.
    pub task_queue: Text,
    /// The namespace of the Task Queue.
    pub namespace: Text,
    /// The identity of the worker, as the server sees it.
    pub identity: Text,
    /// How many workers poll for workflow tasks: 1 to 64.
    pub workers: u64,
    /// How many workers poll for activity tasks: 0 to 63, and at most 64 together with the others.
    pub activity_workers: u64,
    /// How many runs the cache holds: 0 to 10,000, where 0 turns it off.
    pub cache: u64,
    /// How many events the runs of the cache hold together: 1 to 512,000,000, or 0 for no bound.
    pub cache_events: u64,
    /// How many slots there are of each kind: 1 to 1,000.
    pub slots: u64,
    /// The Start-To-Close Timeout of an activity, in seconds: 1 to 4,294,967,295.
    pub activity_timeout: u64,
    /// How often an activity is attempted: 1 to 65,535, or 0, which leaves it to the server.
    pub activity_attempts: u64,
    /// The policy file, if there is one. For what it omits of activities the two options above
    /// hold.
    pub policies: Option<Text>,
    /// How many seconds a task waits for the worker that has its run in the cache: 1 to
    /// 4,294,967,295.
    pub sticky_timeout: u64,
    /// Whether each task is reported on standard error.
    pub verbose: bool,
    /// The seconds from one report of the counts to the next: 1 to 4,294,967,295; `None` if the
    /// counts are not reported.
    pub stats: Option<u64>,
    /// The format in which the counts are reported.
    pub format: Format,
    /// The file to which the counts are written, if there is one.
    pub metrics: Option<Text>,
}

/// The numbers of `work` that are not sizes of a host.
#[derive(Clone, Copy)]
struct Limits {
    activity_timeout: u64,
    activity_attempts: u64,
    sticky_timeout: u64,
    stats: Option<u64>,
}

/// Returns the limits that a subcommand is given.
fn limits_given(alloc: Global, given: &ArgMatches<'_>) -> Result<Limits, Refusal>
    ensures given { IfOk result (λ l. GivesLimits (rows_of (found_of given.now))
        l.activity_timeout l.activity_attempts l.sticky_timeout l.stats) }
    ensures limits { IfOk result (λ l.
        AreLimits l.activity_timeout l.activity_attempts l.sticky_timeout l.stats) }
    ensures slots { result ≢ Err Refusal.FewSlots }
    ensures bad { IfErr result (IfBad (¬ (GivesLimitsWithin (rows_of (found_of given.now))))) }
{
    Ok(Limits {
        activity_timeout: ACTIVITY_TIMEOUT.number(alloc, given)?,
        activity_attempts: ACTIVITY_ATTEMPTS.number(alloc, given)?,
        sticky_timeout: STICKY_TIMEOUT.number(alloc, given)?,
        stats: STATS.number_if_given(alloc, given)?,
    })
}

/// The paths of the files of `work`.
#[derive(Drop)]
struct Files {
    policies: Option<Text>,
    metrics: Option<Text>,
}

/// Returns the paths of the files that a subcommand is given.
fn files_given(alloc: Global, given: &ArgMatches<'_>) -> Result<Files, Refusal>
    ensures given { IfOk result (λ files. GivesFiles (rows_of (found_of given.now)) files.policies files.metrics) }
    ensures err { IfErr result (λ e. e ≡ Refusal.OutOfMemory) }
{
    let policies = text_if_given(alloc, given, "policies")?;
    Ok(Files {
        policies,
        metrics: text_if_given(alloc, given, "metrics")?,
    })
}

/// Returns how many workers of activities a subcommand is given, in addition to `workers`.
fn activity_workers_given(
    alloc: Global,
    given: &ArgMatches<'_>,
    workers: u64,
) -> Result<u64, Refusal>
    requires { workers ≤ 64 }
    ensures given { IfOk result (λ n. value_named (rows_of (found_of given.now)) (codes "activity-workers") ≡ Some n) }
    ensures together { IfOk result (λ n. workers + n ≤ 64) }
    ensures slots { result ≢ Err Refusal.FewSlots }
    ensures bad { IfErr result (IfBad (¬ (GivesBeside (rows_of (found_of given.now)) workers))) }
{
    let number = ACTIVITY_WORKERS.number(alloc, given)?;
    if workers + number > MOST_SEATS as u64 {
        return Err(bad_line(format!(in alloc;
            "error: --workers and --activity-workers must be at most {MOST_SEATS} together\n"
        )));
    }
    Ok(number)
}

/// Returns the Task Queue that a subcommand is given.
fn task_queue_given(alloc: Global, given: &ArgMatches<'_>) -> Result<Text, Refusal>
    ensures given { IfOk result (λ queue. GivesText (codes "task-queue") (rows_of (found_of given.now)) queue) }
    ensures named { IfOk result (λ queue. queue ≢ []) }
    ensures slots { result ≢ Err Refusal.FewSlots }
    ensures bad { IfErr result (IfBad (LacksName (codes "task-queue") (rows_of (found_of given.now)))) }
{
    let queue = text_given(alloc, given, "task-queue")?;
    if queue.get().is_empty() {
        drop(queue);
        return Err(bad_line(String::from_str(alloc, "error: --task-queue must not be empty\n")));
    }
    Ok(queue)
}

impl WorkOptions {
    /// Returns the options that a subcommand is given.
    pub(crate) fn from_matches(
        alloc: Global,
        given: &ArgMatches<'_>,
    ) -> Result<WorkOptions, Refusal>
        ensures given { IfOk result (GivesWork (rows_of (found_of given.now))) }
        ensures limits { IfOk result IsWithinWorkLimits }
        ensures slots { result ≢ Err Refusal.FewSlots }
        ensures bad { IfErr result (IfBad (LacksWork (rows_of (found_of given.now)))) }
    {
        let sizes = ServeOptions::from_matches(alloc, given)?;
        let activity_workers = activity_workers_given(alloc, given, sizes.workers)?;
        let limits = limits_given(alloc, given)?;
        let files = files_given(alloc, given)?;
        let task_queue = task_queue_given(alloc, given)?;
        let namespace = text_given(alloc, given, "namespace")?;
        Ok(WorkOptions {
            task_queue,
            namespace,
            identity: text_given(alloc, given, "identity")?,
            workers: sizes.workers,
            activity_workers,
            cache: sizes.cache,
            cache_events: sizes.cache_events,
            slots: sizes.slots,
            activity_timeout: limits.activity_timeout,
            activity_attempts: limits.activity_attempts,
            policies: files.policies,
            sticky_timeout: limits.sticky_timeout,
            verbose: flag_given(given, "verbose"),
            stats: limits.stats,
            format: format_given(given),
            metrics: files.metrics,
        })
    }

    /// Returns whether there are fewer slots of a kind than workers of that kind.
    pub(crate) fn lacks_slots(&self) -> bool
        ensures { IsTrue result ↔ LacksSlots self.now }
    {
        self.slots < self.workers || self.slots < self.activity_workers
    }

    /// Returns the size of a host for which the options ask.
    pub fn config(&self) -> Config
        requires { IsWithinWorkLimits self.now }
        ensures config { IsConfig result }
        ensures asked { result ≡ config_of (self.now.workers + self.now.activity_workers)
            self.now.cache self.now.cache_events self.now.slots }
    {
        Config {
            workflow_slots: self.slots as usize,
            activity_slots: self.slots as usize,
            cache: self.cache as usize,
            cache_events: self.cache_events,
            seats: (self.workers + self.activity_workers) as usize,
        }
    }
}
