//! Small workflows, each a table of the commands that it gives to jobs. The workflow type is the
//! name of the sample. And the workflows that wfhost and its parts know: the samples, and those whose
//! table comes with the run.
#![tactic(auto)]

mod asker;
mod branch;
mod caller;
mod endings;
mod family;
mod flood;
mod greet;
mod nap;
mod racer;
mod registered;
mod relay;
mod stateless;

pub use asker::Asker;
pub use branch::Branch;
pub use caller::Caller;
pub use family::{Family, FamilyState};
pub use flood::{Flood, FloodState};
pub use greet::{Greet, GreetState};
pub use nap::Nap;
pub use racer::{Phase, Racer};
pub use registered::{Registered, types};
pub use relay::{Relay, RelayState};
pub use stateless::NoState;
use wh_workflow::{NoQueries, Pair};

/// The samples that the program registers. Flood and Asker are not among them, since they only
/// exceed limits. Only Racer answers a query.
pub type All = Pair<
    NoQueries<Nap>,
    Pair<
        NoQueries<Greet>,
        Pair<
            NoQueries<Branch>,
            Pair<NoQueries<Family>, Pair<Racer, Pair<NoQueries<Caller>, NoQueries<Relay>>>>,
        >,
    >,
>;
