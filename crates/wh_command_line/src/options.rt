//! Options that take numbers: their names and their limits.

ghost use Rattle.std.specs.Prelude.{◌≡◌, ◌≢◌, ◌≤◌, ◌<◌, ◌^◌, ℕ, Some, None, Err, IfOk, IfErr, IfSome, string_bytes};
ghost use Rattle.clap.specs.Words.{found_of, rows_of};
ghost use Rattle.wh_command_line.specs.Given.{GivesWithin, IsNumber, MayGiveWithin, value_named, value_of};
ghost use Rattle.wh_command_line.specs.Helps.{help_ending};
ghost use Rattle.wh_command_line.specs.Refusals.{IfBad};

use crate::command_line::{Refusal, bad_line};
use crate::work::WorkHelps;
use clap::ArgMatches;
use std::alloc::{AllocError, Global};
use wh_slots::{MOST_CACHED_EVENTS, MOST_RUNS, MOST_SEATS, MOST_SLOTS};

/// An option that takes a number.
pub(crate) struct NumberOption {
    /// Its name, without the `--` before it.
    pub(crate) name: &'static str,
    /// Its default; empty if it has none.
    pub(crate) otherwise: &'static str,
    /// The name of the number in the help.
    pub(crate) value_name: &'static str,
    /// What the number means.
    pub(crate) about: &'static str,
    /// The least number that it takes.
    pub(crate) least: u64,
    /// The greatest number that it takes.
    pub(crate) most: u64,
}

/// How many workers serve tasks.
pub(crate) const WORKERS: NumberOption = NumberOption {
    name: "workers",
    otherwise: "1",
    value_name: "N",
    about: "How many workers poll at once",
    least: 1,
    most: MOST_SEATS as u64,
};

/// How many runs the cache holds.
pub(crate) const CACHE: NumberOption = NumberOption {
    name: "cache",
    otherwise: "100",
    value_name: "N",
    about: "How many runs the cache keeps",
    least: 0,
    most: MOST_RUNS as u64,
};

/// How many events the runs in the cache hold together.
pub(crate) const CACHE_EVENTS: NumberOption = NumberOption {
    name: "cache-events",
    otherwise: "0",
    value_name: "N",
    about: "How much the cached runs weigh: 1 an event, 1 a KiB of input, where 0 is no bound",
    least: 0,
    most: MOST_CACHED_EVENTS,
};

/// How many slots there are of each kind.
pub(crate) const SLOTS: NumberOption = NumberOption {
    name: "slots",
    otherwise: "100",
    value_name: "N",
    about: "How many tasks of each kind are processed at once",
    least: 1,
    most: MOST_SLOTS as u64,
};

impl NumberOption {
    /// Returns the help of the option.
    pub(crate) fn help(&self, alloc: Global) -> Result<String, AllocError> {
        let NumberOption {
            about,
            least,
            most,
            ..
        } = self;
        format!(in alloc; "{about}, {least} to {most}")
    }

    /// Returns the number that the option is given, or its default.
    pub(crate) fn number(&self, alloc: Global, given: &ArgMatches<'_>) -> Result<u64, Refusal>
        ensures given { IfOk result (λ n. value_named (rows_of (found_of given.now)) self.now.name.now ≡ Some n) }
        ensures least { IfOk result (λ n. self.now.least ≤ n) }
        ensures most { IfOk result (λ n. n ≤ self.now.most) }
        ensures slots { result ≢ Err Refusal.FewSlots }
        ensures bad { IfErr result (IfBad
            (¬ (GivesWithin (rows_of (found_of given.now)) self.now.name.now self.now.least self.now.most))) }
    {
        let NumberOption {
            name,
            least,
            most,
            ..
        } = *self;
        let Some(number) = value_named(given, name) else {
            return Err(bad_line(format!(in alloc; "error: --{name} must be a number\n")));
        };
        if number < least || most < number {
            return Err(bad_line(format!(in alloc; "error: --{name} must be {least} to {most}\n")));
        }
        Ok(number)
    }

    /// Returns the number that the option is given, if it is given one.
    pub(crate) fn number_if_given(
        &self,
        alloc: Global,
        given: &ArgMatches<'_>,
    ) -> Result<Option<u64>, Refusal>
        ensures given { IfOk result (λ n. value_named (rows_of (found_of given.now)) self.now.name.now ≡ n) }
        ensures limits { IfOk result (λ n. IfSome n (λ n. (self.now.least ≤ n) × (n ≤ self.now.most))) }
        ensures slots { result ≢ Err Refusal.FewSlots }
        ensures bad { IfErr result (IfBad
            (¬ (MayGiveWithin (rows_of (found_of given.now)) self.now.name.now self.now.least self.now.most))) }
    {
        let Some(_text) = given.get_str(self.name) else {
            return Ok(None);
        };
        Ok(Some(self.number(alloc, given)?))
    }
}

/// Parses a number.
fn number_of(text: &str) -> Option<u64>
    ensures value { IfSome result (λ n. n ≡ value_of text.now) }
    ensures none { result ≡ None → IsNumber text.now → ¬ (value_of text.now < 2 ^ 64) }
{
    text.parse::<u64>().ok()
}

/// Returns the number that is given under a name.
fn value_named(given: &ArgMatches<'_>, name: &str) -> Option<u64>
    ensures value { IfSome result (λ n. value_named (rows_of (found_of given.now)) name.now ≡ Some n) }
    ensures none { (least most : ℕ) → most < 2 ^ 64 → result ≡ None
        → ¬ (GivesWithin (rows_of (found_of given.now)) name.now least most) }
{
    number_of(given.get_str(name)?)
}

/// The exit statuses, as the help lists them.
const STATUSES: &str = "\
Status:
  0  each file was read, and no task of it has a fault
  1  the report names a file or a task that has one
  2  there is no report; standard error says why
  3  replay --strict-values: values of files differ, and none has a fault";

/// Returns the end of the help: the exit statuses, and the registered workflow types, unless
/// `types` is empty.
fn ending(alloc: Global, types: &str) -> Result<String, AllocError>
    ensures { IfOk result (λ text. string_bytes text ≡ help_ending types.now) }
{
    if types.is_empty() {
        String::from_str(alloc, STATUSES)
    } else {
        format!(in alloc; "{STATUSES}\n\nWorkflow types: {types}")
    }
}

/// The help of each option, and the end of the help.
#[derive(Drop)]
pub(crate) struct Helps {
    pub(crate) ending: String,
    pub(crate) workers: String,
    pub(crate) cache: String,
    pub(crate) cache_events: String,
    pub(crate) slots: String,
    pub(crate) work: WorkHelps,
}

impl Helps {
    pub(crate) fn new(alloc: Global, types: &str) -> Result<Helps, AllocError>
        ensures { IfOk result (λ helps. string_bytes helps.ending ≡ help_ending types.now) }
    {
        Ok(Helps {
            ending: ending(alloc, types)?,
            workers: WORKERS.help(alloc)?,
            cache: CACHE.help(alloc)?,
            cache_events: CACHE_EVENTS.help(alloc)?,
            slots: SLOTS.help(alloc)?,
            work: WorkHelps::new(alloc)?,
        })
    }
}
