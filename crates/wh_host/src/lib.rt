//! A worker host: slots, a sticky cache and books as one state, and the lock around it that threads
//! share. The cache keeps the runs of workflows between their tasks. Books count over threads: the
//! shares of all seats add up to them. Companions observe the host beside its workers, from a seat
//! that they read its counts from.
#![tactic(auto)]

mod cache;
mod companion;
mod end_signal;
mod host;
pub mod laws;
mod ledger;
mod open_fault;
mod reply;
mod spare;
mod state;
mod weighing;

pub use cache::{Put, Sticky};
pub use companion::{Companion, accompany};
pub use end_signal::EndSignal;
pub use host::Host;
pub use ledger::{Books, Seat, SeatsMissing, Shares};
pub use open_fault::OpenFault;
pub use reply::{Counts, Evict, Given, Outcome, Totals};
pub use spare::{put_spare, take_spare, with_spare};
pub use state::{HostState, Mark};
pub use weighing::MOST_WEIGHT;
pub use wh_slots::{Config, MOST_CACHED_EVENTS, MOST_RUNS, MOST_SEATS};
