//! Whether a table that was read keeps what it promises: the promises of `wh_rows`, decided when
//! the program runs.
//!
//! A promise is broken by a scenario, or kept whatever jobs come. A search looks for a shortest
//! scenario; one that is found is followed, and its watch has to spend more than the promise lets
//! it. That no scenario of fewer jobs breaks the promise is shown by all configurations that fewer
//! jobs lead to, none of which spends more. If none is found, the configurations that were
//! looked at have to show the promise: they have the first one and each that a job leads to, and
//! none spends more. That is what is judged, and nothing rests on the search.
#![tactic(auto)]

mod candidates;
mod config;
mod deciding;
mod found;
mod patterns;
mod promise;
mod search;
mod shortest;
mod turning;
mod watch;
mod ways;

pub use deciding::decide;
pub use found::MOST_CONFIGURATIONS;
pub use promise::{Happening, TablePromise};
