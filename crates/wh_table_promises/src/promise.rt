//! What a table may promise.

use wh_events::Text;
use wh_rows::JobPattern;

/// What may happen in a run.
#[derive(Drop)]
pub enum Happening {
    /// A job comes that a row with the pattern is for.
    Comes(JobPattern<Text>),
    /// A command is given that starts an activity of this type.
    StartsActivity(Text),
    /// One that starts a child of this type.
    StartsChild(Text),
    /// One that sends this signal to another workflow.
    SendsSignal(Text),
    /// One that closes the run with a result.
    Completes,
    /// With a failure.
    Fails,
    /// As canceled.
    Cancels,
    /// One that closes it and starts a new one.
    ContinuesAsNew,
    /// One that closes it, in whichever way.
    Closes,
}

/// A promise of a table that was read: one of those of `wh_rows`.
#[derive(Drop)]
pub enum TablePromise {
    /// It happens so many times at most.
    AtMost(u64, Happening),
    /// The second happens only after the first has.
    OnlyAfter(Happening, Happening),
    /// Once the first has happened, the second does not happen any more.
    NeverAfter(Happening, Happening),
    /// Between the first time that the first happens and any later one of the second, the third
    /// happens.
    Between(Happening, Happening, Happening),
}
