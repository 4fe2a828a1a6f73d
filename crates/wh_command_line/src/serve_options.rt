//! The options of `serve`, and the size of a host that they stand for.

ghost use Rattle.std.specs.Prelude.{◌≡◌, ◌≢◌, Err, IfOk, IfErr};
ghost use Rattle.clap.specs.Words.{found_of, rows_of};
ghost use Rattle.wh_slots.specs.Sizes.{IsConfig};
ghost use Rattle.wh_command_line.specs.Refusals.{IfBad};
ghost use Rattle.wh_command_line.specs.Sizes.{AreWithinLimits, GivesAllWithin, GivesNumbers, config_of};

use crate::command_line::Refusal;
use crate::options::{CACHE, CACHE_EVENTS, SLOTS, WORKERS};
use clap::ArgMatches;
use std::alloc::Global;
use wh_slots::Config;

/// The options of `serve`, each within its limits.
#[derive(Clone, Copy, Debug)]
pub struct ServeOptions {
    /// How many workers there are.
    pub workers: u64,
    /// How many runs the cache holds.
    pub cache: u64,
    /// How many events the runs of the cache hold together; 0 for no bound.
    pub cache_events: u64,
    /// How many slots there are of each kind.
    pub slots: u64,
    ghost within: { AreWithinLimits workers cache cache_events slots },
}

impl ServeOptions {
    /// Returns the options that a subcommand is given.
    pub(crate) fn from_matches(
        alloc: Global,
        given: &ArgMatches<'_>,
    ) -> Result<ServeOptions, Refusal>
        ensures given { IfOk result (λ o.
            GivesNumbers (rows_of (found_of given.now)) o.workers o.cache o.cache_events o.slots) }
        ensures slots { result ≢ Err Refusal.FewSlots }
        ensures bad { IfErr result (IfBad (¬ (GivesAllWithin (rows_of (found_of given.now))))) }
    {
        Ok(ServeOptions {
            workers: WORKERS.number(alloc, given)?,
            cache: CACHE.number(alloc, given)?,
            cache_events: CACHE_EVENTS.number(alloc, given)?,
            slots: SLOTS.number(alloc, given)?,
        })
    }

    /// Returns the size of a host for which the options ask.
    pub fn config(self) -> Config
        ensures config { IsConfig result }
        ensures asked { result ≡ config_of self.workers self.cache self.cache_events self.slots }
    {
        Config {
            workflow_slots: self.slots as usize,
            activity_slots: self.slots as usize,
            cache: self.cache as usize,
            cache_events: self.cache_events,
            seats: self.workers as usize,
        }
    }
}
